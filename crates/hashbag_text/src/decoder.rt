//! Decoding of bytes that are given in blocks, wherever a block ends.
ghost use Rattle.std.specs.Prelude.{◌≡◌, ◌++◌, [], ℕ, List, None, Some, string_bytes, IfErr, OnOk};
ghost use Rattle.hashbag_text.specs.Encodings.{decoded};
ghost use Rattle.hashbag_text.specs.Decoders.{DecodesTo, DecodesToNone, IfLine, text_from_decoder};
ghost use Rattle.hashbag_text.specs.States.{spelled};

use crate::bad_bytes::DecodeError;
use crate::encoding::Encoding;
use crate::state::State;

/// A decoder of bytes that are given block by block. It keeps the bytes that aren't a character yet.
///
/// In contracts `text_from_decoder decoder bytes` is the text of these bytes, if they come next, and of what the decoder keeps; `None` if they aren't text.
#[derive(Drop)]
pub struct Decoder {
    state: State,
    line: u64,
}

// Returns the line after a character, if there is one.
fn line_after(line: u64, c: Option<char>) -> u64 {
    match c {
        Some('\n') => line.saturating_add(1),
        _ => line,
    }
}

// Appends a character, if there is one.
fn put(text: &mut String, c: Option<char>) -> Result<(), DecodeError>
    ensures text { OnOk result (string_bytes text.new ≡ string_bytes text.old ++ spelled c) }
    ensures memory { IfErr result (λ e. e ≡ DecodeError.Memory) }
{
    let Some(c) = c else {
        return Ok(());
    };
    match text.push(c) {
        Ok(()) => Ok(()),
        Err(_) => Err(DecodeError::Memory),
    }
}

impl Decoder {
    /// Returns a decoder that was given nothing.
    pub fn new(encoding: Encoding) -> Decoder
        // For any bytes that come next, the text is what these bytes mean in the encoding, or `None` if they aren't text in it.
        ensures { (bytes : List ℕ) → text_from_decoder result bytes ≡ decoded encoding bytes }
    {
        Decoder {
            state: State::new(encoding),
            line: 1,
        }
    }

    /// Appends to the text the characters whose last byte is in this block. The bytes of a character that isn't whole yet are kept.
    ///
    /// # Errors
    ///
    /// `Line` if the bytes so far can't be text, whatever bytes follow. The text then has the characters before the bad bytes. `Memory` if an
    /// allocation fails. After an error the decoder is of no use.
    pub fn push(&mut self, block: &[u8], text: &mut String) -> Result<(), DecodeError>
        // For any bytes that follow, two texts are the same: the old text with what the old decoder gives for `block` and these bytes, and the new
        // text with what the new decoder gives for these bytes.
        ensures text { OnOk result (DecodesTo self.old block.now (string_bytes text.old) self.new (string_bytes text.new)) }

        // If the error is `Line`, what the decoder kept and `block` aren't text, whatever bytes follow.
        ensures bad_bytes { IfErr result (λ e. IfLine e (DecodesToNone self.old block.now)) }
    {
        for byte in block {
            let (state, c) = match self.state.after(*byte) {
                Ok(after) => after,
                Err(bad_bytes) => {
                    return Err(DecodeError::Line {
                        line: self.line,
                        bad_bytes,
                    });
                }
            };
            self.state = state;
            self.line = line_after(self.line, c);
            if let Err(error) = put(text, c) {
                return Err(error);
            }
        }
        Ok(())
    }

    /// Ends the decoding: no more bytes follow.
    ///
    /// # Errors
    ///
    /// `Line` if the last character isn't whole.
    pub fn end(self) -> Result<(), DecodeError>
        // If no bytes follow, the text of what the decoder keeps is empty (`whole`), or there is none (`bad_bytes`).
        ensures whole { OnOk result (text_from_decoder self [] ≡ Some []) }
        ensures bad_bytes { IfErr result (λ e. text_from_decoder self [] ≡ None) }
    {
        match self.state.end() {
            Ok(()) => Ok(()),
            Err(bad_bytes) => Err(DecodeError::Line {
                line: self.line,
                bad_bytes,
            }),
        }
    }
}
