//! Numbers in fields.
ghost use Rattle.std.specs.Prelude.{◌≡◌, ◌≤◌, ◌↔◌, IfErr, IfOk, IsTrue, false};
ghost use Rattle.std.specs.Char.{is_ascii_digit};
ghost use Rattle.std.specs.List.{list_all};
ghost use Rattle.std.specs.Str.Parse.{IsNumeral};
ghost use Rattle.hashbag_csv.specs.Decimals.{IsDecimal, units};
ghost use Rattle.hashbag_csv.specs.Faults.{HasGroups, IsCutAtMark, IsErrorOfDigits, IsFaultOfDigits, IsFraction, IsNumberOfDecimals, is_grouped};
ghost use Rattle.hashbag_csv.specs.Lines.{number_in};
ghost use Rattle.hashbag_csv.specs.Marks.{code_of};
ghost use Rattle.hashbag_csv.specs.Scales.{IsNumberIn, ReadsAs};
ghost use Rattle.hashbag_csv.specs.Totals.{IsTotalPastMost};

use crate::decimals::{read_decimal, write_decimal};
use crate::escaped::shown;
use crate::fault::{Fault, SheetError};
use crate::scale::{Mark, Scale};
use std::alloc::{AllocError, Global};

// Whether each byte is a digit.
fn has_digits_alone(text: &[u8]) -> bool
    ensures { result ≡ list_all is_ascii_digit text.now }
{
    text.iter().all(|byte| byte.is_ascii_digit())
}

// Whether a text is digits, at least one.
fn are_digits(text: &str) -> bool
    ensures { IsTrue result ↔ IsNumeral 10 text.now }
{
    if text.is_empty() {
        return false;
    }
    has_digits_alone(text.as_bytes())
}

// Returns the text before the first mark and the text after the mark, or `None` if the text has no mark.
fn cut(text: &str, mark: Mark) -> Option<(&str, &str)>
    ensures { IsCutAtMark (code_of mark) text.now result }
{
    text.split_once(mark.character())
}

// Returns the number of decimals of a text that is digits, the mark, and digits. Returns `None` for any other text.
#[tactic(auto, unfolding(crate::specs::Faults::HasParts))]
fn decimals_in(text: &str, mark: Mark) -> Option<usize>
    ensures { IsNumberOfDecimals (code_of mark) text.now result }
{
    let Some((whole, part)) = cut(text, mark) else {
        return None;
    };
    if !are_digits(whole) {
        return None;
    }
    if !are_digits(part) {
        return None;
    }
    Some(part.len())
}

// Whether a text is digits with single marks between them.
#[tactic(auto, using(crate::proofs::NumberLemmas::grouped_step, crate::proofs::NumberLemmas::grouped_end))]
fn are_groups(text: &[u8], mark: u8) -> bool
    ensures { result ≡ is_grouped mark false text.now }
{
    let mut after_digit = false;
    for byte in text {
        let is_digit = byte.is_ascii_digit();
        if !is_digit && (!after_digit || *byte != mark) {
            return false;
        }
        after_digit = is_digit;
    }
    after_digit
}

// Returns whether a text is digits, `mark` and decimals. Single marks `other` may be between the digits before `mark`.
#[tactic(auto, unfolding(crate::specs::Faults::HasGroups))]
fn has_groups(text: &str, mark: Mark, other: u8) -> bool
    ensures { IsTrue result ↔ HasGroups (code_of mark) other text.now }
{
    let Some((whole, part)) = cut(text, mark) else {
        return false;
    };
    if !are_groups(whole.as_bytes(), other) {
        return false;
    }
    are_digits(part)
}

// Whether a text is a number with decimals after a point or a comma, such as `1,234.5` or `1.234,5`. The result only decides which error is
// returned.
#[tactic(auto, unfolding(crate::specs::Faults::IsFraction))]
fn is_fraction(text: &str) -> bool
    ensures { IsTrue result ↔ IsFraction text.now }
{
    if has_groups(text, Mark::Point, b',') {
        return true;
    }
    has_groups(text, Mark::Comma, b'.')
}

// Returns the fault of a field that isn't read at this scale. `digits` is the field without group marks. The error shows `field`.
#[tactic(auto, using(crate::proofs::NumberLemmas::parts_decimal, crate::proofs::NumberLemmas::past))]
fn fault_of(alloc: Global, digits: &str, field: &str, scale: Scale) -> Result<Fault, AllocError>
    requires { ¬ (IsNumberIn scale digits.now × (number_in scale digits.now ≤ scale.most)) }
    ensures { IfOk result (λ fault. IsFaultOfDigits (code_of scale.mark) scale.decimals scale.most digits.now fault) }
{
    let field = shown(alloc, field)?;
    if are_digits(digits) {
        let most = write_decimal(alloc, scale.most, scale)?;
        return Ok(Fault::PastMost { most, field });
    }
    if scale.decimals == 0 {
        if is_fraction(digits) {
            return Ok(Fault::NotWhole(field));
        }
        return Ok(Fault::NoNumber(field));
    }
    let Some(decimals) = decimals_in(digits, scale.mark) else {
        return Ok(Fault::NoNumber(field));
    };
    if decimals > scale.decimals as usize {
        let most = scale.decimals;
        return Ok(Fault::TooManyDecimals { most, field });
    }
    let greatest = write_decimal(alloc, scale.most, scale)?;
    Ok(Fault::PastMost {
        most: greatest,
        field,
    })
}

/// Returns the number of the text `digits`, in units of this scale. `field` is the text that an error shows.
///
/// # Errors
///
/// `Line` with this line:
///
/// - `PastMost` exactly if the text is a number of more than `scale.most` units;
/// - `TooManyDecimals` exactly if the scale has decimals, and the text is digits, the mark, and more decimals than the scale has;
/// - `NotWhole` exactly if the scale has no decimals, and the text is a number with decimals after a point or a comma. Single marks of the other kind
///   may be between the digits of its whole part;
/// - `NoNumber` for any other text.
///
/// `Memory` if the message can't be allocated.
pub fn scaled_number(
    alloc: Global,
    line: u64,
    digits: &str,
    field: &str,
    scale: Scale,
) -> Result<usize, SheetError>
    // `digits` is a number of n units in the scale, and n is at most the greatest number of the scale.
    ensures number { IfOk result (λ n. ReadsAs scale n digits.now) }
    ensures most { IfOk result (λ n. n ≤ scale.most) }

    // The error has this line and the fault of `digits` that is listed above, or is `Memory`.
    ensures fault { IfErr result (λ e. IsErrorOfDigits (code_of scale.mark) scale.decimals scale.most line digits.now e) }
{
    match read_decimal(digits, scale) {
        Some(number) if number <= scale.most => Ok(number),
        _ => {
            let fault = fault_of(alloc, digits, field, scale)?;
            Err(SheetError::Line { line, fault })
        }
    }
}

/// Returns the number of the text `digits`, which has to be a whole number. `field` is the text that an error shows.
///
/// # Errors
///
/// Same as [`scaled_number`].
pub fn number(alloc: Global, line: u64, digits: &str, field: &str) -> Result<usize, SheetError>
    // `digits` has only digits, and n is their number. In the clause, 46 is the byte of the mark `.`, and 0 is the number of decimals.
    ensures number { IfOk result (λ n. IsDecimal 46 0 digits.now × (units 46 0 digits.now ≡ n)) }

    // The error has this line and the fault of `digits` that `scaled_number` lists, or is `Memory`.
    ensures fault { IfErr result (λ e. IsErrorOfDigits 46 0 usize.MAX line digits.now e) }
{
    scaled_number(alloc, line, digits, field, Scale::whole())
}

/// Returns the fault of a line that takes a total past the greatest number of the scale.
pub fn total_too_large(alloc: Global, scale: Scale) -> Result<Fault, AllocError>
    // The fault is `TotalPastMost`, and its text is a number of `scale.most` units.
    ensures { IfOk result (λ fault. IsTotalPastMost (code_of scale.mark) scale.decimals scale.most fault) }
{
    Ok(Fault::TotalPastMost(write_decimal(alloc, scale.most, scale)?))
}
