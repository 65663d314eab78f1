//! Numbers with decimals: read exactly, and written with all decimals of the scale. In clauses, `IsSomeIfFits` says when a result is
//! `None`, and else which number it has.
ghost use Rattle.std.specs.Prelude.{◌≡◌, ◌≤◌, ◌<◌, ◌*◌, ◌^◌, Some, IfOk};
ghost use Rattle.std.specs.String.{string_bytes};
ghost use Rattle.std.specs.Str.Parse.{IsNumeral, digits_value};
ghost use Rattle.hashbag_csv.specs.Decimals.{ArePartsOf, IsSomeIfFits, padded_digits, units_of};
ghost use Rattle.hashbag_csv.specs.Lines.{number_in};
ghost use Rattle.hashbag_csv.specs.Scales.{IsNumberIn, ReadsAs, number_text};

use crate::scale::Scale;
use std::alloc::{AllocError, Global};

// Returns the number of a text of digits. Returns `None` for any other text, or if the number is above `usize::MAX`.
fn number_of_digits(digits: &str) -> Option<usize>
    ensures { IsSomeIfFits result (IsNumeral 10 digits.now) (digits_value 10 digits.now) }
{
    if digits.starts_with('+') {
        return None;
    }
    digits.parse().ok()
}

// Returns the number of units in 1.
pub(crate) fn unit_of(decimals: u32) -> usize
    requires { decimals ≤ 9 }
    ensures { result ≡ 10 ^ decimals }
{
    10usize.pow(decimals)
}

// Returns the number of units of a text of digits, which is a whole number. Returns `None` for any other text, or if there are more than `usize::MAX`
// units.
fn units_of_digits(digits: &str, decimals: u32) -> Option<usize>
    requires { decimals ≤ 9 }
    ensures { IsSomeIfFits result (IsNumeral 10 digits.now) (digits_value 10 digits.now * 10 ^ decimals) }
{
    let Some(number) = number_of_digits(digits) else {
        return None;
    };
    number.checked_mul(unit_of(decimals))
}

// Returns the number of units of a whole part and the decimals after it. Returns `None` if `whole` or `part` isn't digits, if `part` has more than
// `decimals` digits, or if there are more than `usize::MAX` units.
fn joined(whole: &str, part: &str, decimals: u32) -> Option<usize>
    requires { decimals ≤ 9 }
    ensures { IsSomeIfFits result (ArePartsOf decimals whole.now part.now) (units_of decimals whole.now part.now) }
{
    if part.len() > decimals as usize {
        return None;
    }
    let Some(ones) = units_of_digits(whole, decimals) else {
        return None;
    };
    let Some(parts) = units_of_digits(part, decimals - part.len() as u32) else {
        return None;
    };
    ones.checked_add(parts)
}

/// Returns the number of a text, in units of the scale. The text is digits; or digits, the mark, and at least one decimal.
///
/// Returns `None` for another text, for more decimals than the scale has, and for a number of more than `usize::MAX` units.
pub fn read_decimal(text: &str, scale: Scale) -> Option<usize>
    // The result is `None` if the text is no such number, or has more than `usize::MAX` units; else it is `Some` of the number of units.
    ensures { IsSomeIfFits result (IsNumberIn scale text.now) (number_in scale text.now) }
{
    match text.split_once(scale.mark.character()) {
        Some((whole, part)) => joined(whole, part, scale.decimals),
        None => units_of_digits(text, scale.decimals),
    }
}

// Returns the digits of a number, with zeros before them up to this width.
fn padded(alloc: Global, number: usize, width: u32) -> Result<String, AllocError>
    ensures { IfOk result (λ text. string_bytes text ≡ padded_digits width number) }
{
    let digits = format!(in alloc; "{number}")?;
    let missing = (width as usize).saturating_sub(digits.len());
    let mut text = String::new(alloc);
    'zeros: while text.len() < missing {
        text.push('0')?;
    }
    text.push_str(digits.as_str())?;
    Ok(text)
}

/// Returns a number of units as text, with all decimals of the scale. From that text [`read_decimal`] returns the number.
pub fn write_decimal(alloc: Global, number: usize, scale: Scale) -> Result<String, AllocError>
    ensures text { IfOk result (λ text. string_bytes text ≡ number_text scale number) }
    ensures reads { IfOk result (λ text. ReadsAs scale number (string_bytes text)) }
{
    let unit = unit_of(scale.decimals);
    let mut text = format!(in alloc; "{}", number / unit)?;
    if scale.decimals == 0 {
        return Ok(text);
    }
    text.push(scale.mark.character())?;
    text.push_str(padded(alloc, number % unit, scale.decimals)?.as_str())?;
    Ok(text)
}

/// Converts a number of units into text, and returns what [`read_decimal`] returns for that text: the number.
pub fn read_back(alloc: Global, number: usize, scale: Scale) -> Result<Option<usize>, AllocError>
    ensures { IfOk result (λ read. read ≡ Some number) }
{
    let text = write_decimal(alloc, number, scale)?;
    Ok(read_decimal(text.as_str(), scale))
}
