//! The state of a decoder after the bytes so far.
ghost use Rattle.std.specs.Prelude.{◌≡◌, ◌∷◌, [], ℕ, List, None, Some, IfOk, OnErr, OnOk};
ghost use Rattle.hashbag_text.specs.Encodings.{decoded, yields};
ghost use Rattle.hashbag_text.specs.States.{text_from};

use crate::bad_bytes::BadBytes;
use crate::encoding::Encoding;
use crate::high::High;
use crate::utf16::{ByteOrder, after_unit};
use crate::windows_1252::windows_1252;

/// The encoding, and the bytes that aren't a character yet.
#[derive(Clone, Copy)]
pub enum State {
    /// UTF-16 before the end of its mark. The first byte of the mark may have been read.
    Mark(Option<u8>),
    /// UTF-16 in this order. There may be the first unit of a pair, and after it the first byte of a unit.
    Units(ByteOrder, Option<High>, Option<u8>),
    /// Latin-1.
    Latin1,
    /// Windows-1252.
    Windows1252,
}

impl State {
    /// Returns the state before any byte.
    pub fn new(encoding: Encoding) -> State
        // `text_from` is the text of the bytes that the state keeps and of `bytes`. A new state keeps none: `text_from` is the text of `bytes` in the encoding.
        ensures { (bytes : List ℕ) → text_from result bytes ≡ decoded encoding bytes }
    {
        match encoding {
            Encoding::Utf16 => State::Mark(None),
            Encoding::Utf16Le => State::Units(ByteOrder::Little, None, None),
            Encoding::Utf16Be => State::Units(ByteOrder::Big, None, None),
            Encoding::Latin1 => State::Latin1,
            Encoding::Windows1252 => State::Windows1252,
        }
    }

    /// Returns the state after one more byte, and the character that this byte ends.
    ///
    /// # Errors
    ///
    /// What is wrong with the bytes, if they can't be text with this byte.
    pub fn after(self, byte: u8) -> Result<(State, Option<char>), BadBytes>
        // Whatever bytes follow, the text is that character, if there is one, and then what is left.
        ensures character { IfOk result (λ r. (bytes : List ℕ) → text_from self (byte ∷ bytes) ≡ yields r.1 (text_from r.0 bytes)) }

        // Whatever bytes follow, there is no text.
        ensures bad_bytes { OnErr result ((bytes : List ℕ) → text_from self (byte ∷ bytes) ≡ None) }
    {
        match self {
            State::Mark(None) => Ok((State::Mark(Some(byte)), None)),
            State::Mark(Some(first)) => match ByteOrder::of_mark(first, byte) {
                Some(order) => Ok((State::Units(order, None, None), None)),
                None => Err(BadBytes::NoMark),
            },
            State::Units(order, high, None) => { Ok((State::Units(order, high, Some(byte)), None)) }
            State::Units(order, high, Some(first)) => {
                let (high, c) = after_unit(high, order.unit(first, byte))?;
                Ok((State::Units(order, high, None), c))
            }
            State::Latin1 => Ok((self, Some(char::from(byte)))),
            State::Windows1252 => match windows_1252(byte) {
                Some(c) => Ok((self, Some(c))),
                None => Err(BadBytes::NoCharacter(byte)),
            },
        }
    }

    /// Checks that the bytes end here: no byte waits for another.
    ///
    /// # Errors
    ///
    /// What is missing.
    pub fn end(self) -> Result<(), BadBytes>
        // If no bytes follow, the text of what the state keeps is empty (`whole`), or there is none (`bad_bytes`).
        ensures whole { OnOk result (text_from self [] ≡ Some []) }
        ensures bad_bytes { OnErr result (text_from self [] ≡ None) }
    {
        match self {
            State::Mark(None) => Ok(()),
            State::Mark(Some(_)) => Err(BadBytes::NoMark),
            State::Units(_, _, Some(_)) => Err(BadBytes::OddByte),
            State::Units(_, Some(_), None) => Err(BadBytes::LoneSurrogate),
            State::Units(_, None, None) => Ok(()),
            State::Latin1 => Ok(()),
            State::Windows1252 => Ok(()),
        }
    }
}
