//! Units of UTF-16, one after the other.
ghost use Rattle.std.specs.Prelude.{◌≡◌, ◌∷◌, ℕ, List, true, None, Some, IfOk, OnErr};
ghost use Rattle.core.specs.Char.Utf16.{is_low_surrogate, lone_unit_char, surrogate_pair_char};
ghost use Rattle.hashbag_text.specs.Encodings.{order_of, text_of_units, unit_of};
ghost use Rattle.hashbag_text.specs.States.{EndsUnit, with_high};

use crate::bad_bytes::BadBytes;
use crate::high::High;

/// Which byte of a unit comes first.
#[derive(Clone, Copy, PartialEq, Eq, Debug)]
pub enum ByteOrder {
    /// The lesser one.
    Little,
    /// The greater one.
    Big,
}

impl ByteOrder {
    /// Returns the order whose byte order mark is these two bytes.
    pub fn of_mark(first: u8, second: u8) -> Option<ByteOrder>
        ensures { result ≡ order_of first second }
    {
        if first == 0xFF && second == 0xFE {
            return Some(ByteOrder::Little);
        }
        if first == 0xFE && second == 0xFF {
            return Some(ByteOrder::Big);
        }
        None
    }

    /// Returns the unit of two bytes.
    pub fn unit(self, first: u8, second: u8) -> u16
        ensures { result ≡ unit_of self first second }
    {
        let (first, second) = (u16::from(first), u16::from(second));
        match self {
            ByteOrder::Little => second * 0x100 + first,
            ByteOrder::Big => first * 0x100 + second,
        }
    }
}

// Returns whether a unit is the second of a pair.
fn is_low(unit: u16) -> bool
    ensures { result ≡ is_low_surrogate unit }
{
    0xDC00 <= unit && unit < 0xE000
}

// Returns the character of a pair.
fn pair_char(high: High, low: u16) -> Option<char>
    requires { is_low_surrogate low ≡ true }
    ensures { result ≡ Some (surrogate_pair_char high.unit low) }
{
    let (first, second) = (u32::from(high.unit()), u32::from(low));
    char::from_u32(0x1_0000 + (first - 0xD800) * 0x400 + (second - 0xDC00))
}

// Returns the character of a unit that is in no pair.
fn lone_char(unit: u16) -> Option<char>
    ensures { result ≡ lone_unit_char unit }
{
    char::from_u32(u32::from(unit))
}

/// Returns the unit if it is the first one of a pair, and else the character that it ends.
///
/// # Errors
///
/// `LoneSurrogate` if there is a first unit `high` and this unit isn't a second one, or if this is a second unit without a first one.
pub fn after_unit(high: Option<High>, unit: u16) -> Result<(Option<High>, Option<char>), BadBytes>
    // For any `units` that follow, the text of `high`, `unit` and `units` is the returned character, if any, and then the text of the returned unit,
    // if any, and `units`.
    ensures character { IfOk result (EndsUnit high unit) }

    // Whatever units follow, there is no text.
    ensures bad_bytes { OnErr result ((units : List ℕ) → text_of_units (with_high high (unit ∷ units)) ≡ None) }
{
    if let Some(high) = high {
        if is_low(unit) {
            return Ok((None, pair_char(high, unit)));
        }
        return Err(BadBytes::LoneSurrogate);
    }
    if let Some(high) = High::of_unit(unit) {
        return Ok((Some(high), None));
    }
    match lone_char(unit) {
        Some(c) => Ok((None, Some(c))),
        None => Err(BadBytes::LoneSurrogate),
    }
}
