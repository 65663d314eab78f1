//! All bad lines of a text, not only the first one.
ghost use Rattle.std.specs.Prelude.{◌≡◌, ◌∷◌, ◌++◌, [], option_copied, IfOk, OnOk};
ghost use Rattle.hashbag_csv.specs.BadLines.{AreBadLinesOf, errors_in};
ghost use Rattle.hashbag_csv.specs.LineColumns.{AreBadLeft, ChecksNext};
ghost use Rattle.hashbag_csv.specs.Sheets.{KeepsHeader};

use crate::article::Article;
use crate::counts::Reading;
use crate::fault::SheetError;
use crate::line_form::LineForm;
use crate::lines::LineColumns;
use crate::scale::Scale;
use crate::sheet::Sheet;
use std::alloc::{AllocError, Global};

// Checks the next record: returns `Some(None)` if it is read as a line, `Some(Some(error))` if that fails, and `None` if no record is left.
fn check_next<A: Article + Drop>(
    alloc: Global,
    sheet: &mut Sheet<'_>,
    columns: &LineColumns<'_>,
    scale: Scale,
) -> Result<Option<Option<SheetError>>, SheetError>
    ensures check { IfOk result (λ next. ChecksNext scale columns.now sheet.old next sheet.new) }
    ensures same { KeepsHeader sheet.old sheet.new }
{
    match columns.read::<A>(alloc, sheet, scale) {
        Ok(Some(_)) => Ok(Some(None)),
        Ok(None) => Ok(None),
        Err(SheetError::Line { line, fault }) => Ok(Some(Some(SheetError::Line { line, fault }))),
        Err(SheetError::Memory) => Err(SheetError::Memory),
    }
}

// Appends the error of a record, if it has one.
fn push_error(errors: &mut Vec<SheetError>, check: Option<SheetError>) -> Result<(), SheetError>
    ensures { OnOk result (errors.new.items ≡ errors.old.items ++ errors_in (check ∷ [])) }
{
    let Some(error) = check else {
        return Ok(());
    };
    errors.push(error).map_err(AllocError::from)?;
    Ok(())
}

// Returns the errors of the bad lines among the records of a sheet that aren't read yet, at most `max_errors`.
fn bad_lines_left<A: Article + Drop>(
    alloc: Global,
    sheet: &mut Sheet<'_>,
    columns: &LineColumns<'_>,
    scale: Scale,
    max_errors: usize,
) -> Result<Vec<SheetError>, SheetError>
    ensures { IfOk result (λ errors. AreBadLeft scale columns.now max_errors sheet.old errors.items) }
{
    let mut errors = Vec::new(alloc);
    'lines: while errors.len() < max_errors {
        let Some(check) = check_next::<A>(alloc, sheet, columns, scale)? else {
            return Ok(errors);
        };
        push_error(&mut errors, check)?;
    }
    Ok(errors)
}

/// Returns the errors of the bad lines of a text, in the order of the lines, at most `max_errors`. A line is bad if [`LineColumns::read`] fails for
/// its record. A total that is too large isn't an error here.
///
/// # Errors
///
/// `Line` if the header is bad. `Memory` if an allocation fails.
///
/// # Complexity
///
/// Allocates the article of each line, and drops it.
pub fn bad_lines<A: Article + Drop>(
    alloc: Global,
    text: &[u8],
    keys: &[&str],
    number: Option<&str>,
    reading: Reading,
    form: LineForm,
    max_errors: usize,
) -> Result<Vec<SheetError>, SheetError>
    // Lines were checked in order: all lines, unless there are `max_errors` errors. `e.items` are the errors of the bad lines. Each other line that
    // was checked fits the header, and its field in the column `number`, if a column is given, is a number.
    ensures { IfOk result (λ e. AreBadLinesOf reading form (option_copied number.entry) max_errors text.now e.items) }
{
    let Some(mut sheet) = Sheet::open_list(alloc, text, reading.delimiter, form)? else {
        return Ok(Vec::new(alloc));
    };
    let columns = LineColumns::named(alloc, &sheet, keys, number, form)?;
    let errors = bad_lines_left::<A>(alloc, &mut sheet, &columns, reading.scale, max_errors)?;
    Ok(errors)
}
