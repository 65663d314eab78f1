//! Fields that are numbers.
ghost use Rattle.std.specs.Prelude.{◌≤◌, IfErr, IfOk};
ghost use Rattle.hashbag_csv.specs.NumberForms.{IsErrorOfNumberField, IsGroupedError, ReadsField, ReadsGrouped};

use crate::escaped::shown;
use crate::fault::{Fault, SheetError};
use crate::groups::{GroupMark, ungrouped_text};
use crate::numbers::scaled_number;
use crate::scale::Scale;
use std::alloc::Global;

/// How the field of a number may be written.
#[derive(Clone, Copy, PartialEq, Eq, Debug)]
pub struct NumberForm {
    /// Whether an empty field is 0.
    pub blank_is_zero: bool,
    /// The mark that may be between groups of three digits, in the part before the decimal mark.
    pub group: Option<GroupMark>,
}

// Returns the number of a field that may have this mark between groups of three digits, in units of the scale.
fn grouped_number(
    alloc: Global,
    line: u64,
    field: &str,
    scale: Scale,
    group: Option<GroupMark>,
) -> Result<usize, SheetError>
    ensures number { IfOk result (λ n. ReadsGrouped scale group field.now n) }
    ensures most { IfOk result (λ n. n ≤ scale.most) }
    ensures fault { IfErr result (λ e. IsGroupedError scale group line field.now e) }
{
    let Some(group) = group else {
        return scaled_number(alloc, line, field, field, scale);
    };
    let Some(digits) = ungrouped_text(alloc, field, scale.mark, group)? else {
        let fault = Fault::BadGroups(shown(alloc, field)?);
        return Err(SheetError::Line { line, fault });
    };
    scaled_number(alloc, line, digits.as_str(), field, scale)
}

/// Returns the number of a field in this form, in units of this scale.
///
/// # Errors
///
/// `Line` with this line, unless the field is empty and an empty field is 0:
///
/// - `BadGroups` exactly if the whole part has the form's group mark, but isn't groups of three digits with group marks between them;
/// - else `PastMost`, `TooManyDecimals`, `NotWhole` or `NoNumber`, as [`scaled_number`] returns for the field without its group marks.
///
/// `Memory` if a text can't be allocated.
pub fn field_number(
    alloc: Global,
    line: u64,
    field: &str,
    scale: Scale,
    form: NumberForm,
) -> Result<usize, SheetError>
    // The field is a number of n units in this form, and n is at most the greatest number of the scale.
    ensures number { IfOk result (λ n. ReadsField scale form field.now n) }
    ensures most { IfOk result (λ n. n ≤ scale.most) }

    // The error has this line and the fault that is listed above, or is `Memory`. If an empty field is 0, it is no error.
    ensures fault { IfErr result (λ e. IsErrorOfNumberField scale form line field.now e) }
{
    if form.blank_is_zero && field.is_empty() {
        return Ok(0);
    }
    grouped_number(alloc, line, field, scale, form.group)
}
