//! Why a subcommand doesn't do all that it is asked, as the trouble of a program.
ghost use Rattle.std.specs.Prelude.{◌≡◌, IfOk};

use crate::stock::error::StockError;
use hashbag_csv::counts::Reading;
use hashbag_csv::decimals::write_decimal;
use hashbag_csv::fault::{Fault, SheetError, in_file};
use hashbag_ledger_lib::extras::{ExtraColumns, ExtraError};
use hashbag_ledger_lib::numbers::MOST;
use hashbag_ledger_lib::once::{Batch, Kind};
use hashbag_shell::status::{
    BAD_INPUT, DENIED, ENTERED_BEFORE, IN_USE, IO_FAILED, TOTAL_TOO_LARGE,
};
use hashbag_shell::text::with_option;
use hashbag_shell::trouble::Trouble;
use sqlite::ErrorCode;
use std::alloc::{AllocError, Global};

// Returns the trouble of bad arguments or bad contents.
fn bad<'a>(what: Result<String, AllocError>) -> Trouble<'a> {
    Trouble::with_status(what, BAD_INPUT)
}

// Returns whether a message ends as that of a table which another program changed, such as by a trigger.
fn is_unread(text: &str) -> bool {
    text.ends_with("not supported") || text.ends_with("no such table")
}

/// Returns the trouble of a database that can't be read or written as a stock.
pub fn of_stock<'a>(alloc: Global, db: &str, error: StockError) -> Trouble<'a> {
    let status = match &error {
        StockError::Memory => return Trouble::Memory,
        StockError::Busy => IN_USE,
        StockError::Database(
            sqlite::Error::SqliteFailure(
                ErrorCode::CannotOpen
                | ErrorCode::SystemIoFailure
                | ErrorCode::DiskFull
                | ErrorCode::Closed,
            ),
        ) => IO_FAILED,
        _ => BAD_INPUT,
    };
    let cure = match &error {
        StockError::Database(sqlite::Error::SqliteFailure(ErrorCode::CannotOpen)) => {
            "; the file and its folder must be there, and writable, also to be read, and the file must have one name (no second hard link)"
        }
        _ => "",
    };
    let what = match format!(in alloc; "{db}: {error}{cure}") {
        Ok(text) if is_unread(text.as_str()) => format!(in alloc;
            "{text}; perhaps another program made a trigger, which has to be dropped"
        ),
        said => said,
    };
    Trouble::with_status(what, status)
}

/// Returns the trouble of a stored balance past the maximum. No batch can cause it.
pub fn start_too_many<'a>(alloc: Global, db: &str) -> Trouble<'a> {
    let error = StockError::Damaged("a balance past 9223372036854775807 in all");
    of_stock(alloc, db, error)
}

/// Returns the trouble of a file that is named for two things.
pub fn conflict<'a>(alloc: Global, file: &str) -> Trouble<'a> {
    bad(format!(in alloc; "{file}: both an input and an output, or two outputs"))
}

/// Returns the trouble of a database that has no file.
pub fn no_file<'a>(alloc: Global, db: &str) -> Trouble<'a> {
    Trouble::with_status(format!(in alloc; "{db}: no such file"), IO_FAILED)
}

/// Returns the trouble of a file without a table.
pub fn no_stock<'a>(alloc: Global, db: &str) -> Trouble<'a> {
    bad(format!(in alloc; "{db}: no stock in it yet"))
}

/// Returns the trouble of an opening stock for a database that already has a stock.
pub fn has_stock<'a>(alloc: Global, db: &str) -> Trouble<'a> {
    bad(format!(in alloc; "{db}: has a stock already, so it takes no other at the beginning"))
}

/// Returns the trouble of a stock whose numbers have another scale.
pub fn other_scale<'a>(alloc: Global, db: &str, kept: u32, asked: u32) -> Trouble<'a> {
    bad(format!(in alloc; "{db}: numbers have {kept} decimals, not {asked}"))
}

// If a text lacks a column of dates or of notes that the stock keeps, returns the option by which the text is read without that column.
fn cure_of(kept: ExtraColumns<&str>, error: &SheetError) -> Option<&'static str> {
    let SheetError::Line {
        fault: Fault::NoColumn { name, .. },
        ..
    } = error
    else {
        return None;
    };
    if kept.date == Some(name.as_str()) {
        return Some("`--date ''` reads no dates");
    }
    if kept.note == Some(name.as_str()) {
        return Some("`--note ''` reads no notes");
    }
    None
}

// Returns the trouble of a line, whose message ends with how to read the file.
fn with_cure<'a>(alloc: Global, trouble: Trouble<'a>, cure: &str) -> Trouble<'a> {
    match &trouble {
        Trouble::BadLine {
            file,
            line,
            what,
            ..
        } => Trouble::of_line(*file, *line, format!(in alloc; "{what}; {cure}")),
        _ => trouble,
    }
}

/// Returns the trouble of dates and notes that can't be read. `kept` has the columns that the stock keeps and that no option names.
pub fn of_extras<'a>(
    alloc: Global,
    file: &'a str,
    kept: ExtraColumns<&str>,
    error: ExtraError,
) -> Trouble<'a> {
    match error {
        ExtraError::NoDate { line, field, form } => {
            let (name, example) = form.example();
            bad(format!(in alloc;
                "{file}:{line}: no date: `{field}`; a date is written as {example} (`--date-form {name}`)"
            ))
        }
        ExtraError::Sheet(error) => {
            let cure = cure_of(kept, &error);
            let read: Result<(), SheetError> = Err(error);
            match (in_file(alloc, file, read), cure) {
                (Ok(()), _) => Trouble::Memory,
                (Err(trouble), Some(cure)) => with_cure(alloc, trouble, cure),
                (Err(trouble), None) => trouble,
            }
        }
    }
}

/// Returns the trouble of an option whose word is no date.
pub fn no_day<'a>(alloc: Global, option: &str) -> Trouble<'a> {
    bad(format!(in alloc; "{option} takes a date, as 2026-02-28"))
}

/// Returns the trouble if the movements up to a day move too much to be added up.
pub fn moved_too_much<'a>(alloc: Global, db: &str) -> Trouble<'a> {
    let what = format!(in alloc; "{db}: more than 18446744073709551615 moved up to that day");
    Trouble::with_status(what, TOTAL_TOO_LARGE)
}

/// Returns the trouble of a file that was entered or counted before, as this batch.
pub fn entered_as<'a>(alloc: Global, file: &str, batch: &Batch) -> Trouble<'a> {
    let (number, name) = (batch.number, batch.file.as_str());
    let done = if batch.kind.as_str() == Kind::Count.name() {
        "counted"
    } else {
        "entered"
    };
    let what = format!(in alloc;
        "{file}: {done} before, as batch {number} ({name}); `--again` takes it once more"
    );
    Trouble::with_status(what, ENTERED_BEFORE)
}

/// Returns the trouble of two files with the same bytes.
pub fn same_bytes<'a>(alloc: Global, file: &str, other: &str) -> Trouble<'a> {
    Trouble::with_status(
        format!(in alloc; "{file}: the same bytes as {other}"),
        ENTERED_BEFORE,
    )
}

/// Returns the trouble of a line whose movement, or its opposite movement, takes the total past the maximum.
pub fn too_large<'a>(alloc: Global, file: &str, line: u64, reading: Reading) -> Trouble<'a> {
    let what = match write_decimal(alloc, MOST, reading.scale) {
        Ok(most) => format!(in alloc; "{file}:{line}: total past {most}"),
        Err(error) => Err(error),
    };
    Trouble::with_status(what, TOTAL_TOO_LARGE)
}

/// Returns the trouble of a stock that has no batch of that number or file, or none that may be undone. It names a batch whose file has a
/// similar name, if there is one.
pub fn no_batch<'a>(alloc: Global, db: &str, name: &str, near: Option<&Batch>) -> Trouble<'a> {
    let Some(near) = near else {
        return bad(format!(in alloc; "{db}: no batch {name}"));
    };
    let (number, file) = (near.number, near.file.as_str());
    bad(format!(in alloc; "{db}: no batch {name}; is it batch {number} ({file})?"))
}

/// Returns the trouble of an undo that doesn't name one batch.
pub fn no_batch_named<'a>(alloc: Global) -> Trouble<'a> {
    bad("undo takes a batch, by its number or its file, or --last".to_string(alloc))
}

/// Returns the trouble of a batch that was undone before.
pub fn undone_before<'a>(alloc: Global, db: &str, number: i64, by: i64) -> Trouble<'a> {
    let what = format!(in alloc; "{db}: batch {number} was undone by batch {by}");
    Trouble::with_status(what, DENIED)
}

/// Returns what was read. An error names the file of the stock at the beginning, as [`in_file`] names other files.
///
/// # Errors
///
/// `BadLine` if a line is bad; its message names `--start-encoding` if the text is in another encoding. `Memory` if an allocation failed or fails.
pub fn in_start<T: Drop>(
    alloc: Global,
    file: &str,
    read: Result<T, SheetError>,
) -> Result<T, Trouble<'_>>
    ensures { IfOk result (λ value. read ≡ Ok value) }
{
    match in_file(alloc, file, read) {
        Ok(value) => Ok(value),
        Err(trouble) => Err(with_option(alloc, trouble, "--start-encoding")),
    }
}
