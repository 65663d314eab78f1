//! The movements of the inputs.
ghost use Rattle.std.specs.Prelude.{◌≡◌, map, IfOk};
ghost use Rattle.hashbag_ledger_db.specs.Filed.{plain_movement, AreInputRows};
ghost use Rattle.hashbag_ledger_db.specs.Inputs.{name_and_kind, HasTextOf};
ghost use Rattle.hashbag_ledger_db.specs.Once.{comes_once, ends_line, has_content, has_rows};

use crate::columns::plain_extras;
use crate::job::Job;
use crate::troubles::{in_start, no_day, of_extras};
use hashbag_csv::counts::{Reading, read_counts_as};
use hashbag_csv::delimiter::Delimiter;
use hashbag_csv::fault::{SheetError, in_file};
use hashbag_ledger_lib::dates::is_date;
use hashbag_ledger_lib::extras::{Extra, ExtraColumns, read_extras};
use hashbag_ledger_lib::movements::Movement;
use hashbag_ledger_lib::numbers::plain_change;
use hashbag_ledger_lib::reading::{ChangeColumns, Columns, read_movements};
use hashbag_ledger_lib::sealing::digest_of;
use hashbag_shell::text::text_of;
use hashbag_shell::trouble::Trouble;
use hashbag_text::encoding::Encoding;
use std::alloc::{AllocError, Global};

/// A file that is to be entered.
#[derive(Drop)]
pub struct Input<'a> {
    /// Its name.
    pub file: &'a str,
    /// Its text.
    pub text: Vec<u8>,
    /// The SHA-256 of its bytes, before they are decoded, in hexadecimal digits.
    pub sha256: String,
    /// Whether it is the opening stock.
    pub is_start: bool,
}

/// Returns the input of this name: the opening stock if `is_start`, else a file of movements. `bytes` are its text in `encoding`, where
/// `None` is UTF-8.
///
/// # Errors
///
/// Why the bytes aren't text, or a failed allocation.
pub fn input_of<'a>(
    alloc: Global,
    file: &'a str,
    bytes: Vec<u8>,
    encoding: Option<Encoding>,
    is_start: bool,
) -> Result<Input<'a>, Trouble<'a>>
    ensures named { IfOk result (λ input. name_and_kind input ≡ (file.now, is_start)) }

    // The text is `bytes`, decoded by `encoding`. `sha256` has the digest of `bytes`, in hexadecimal digits.
    ensures text { IfOk result (HasTextOf encoding bytes.items) }
{
    let sha256 = digest_of(alloc, bytes.as_slice())?;
    let text = text_of(alloc, file, encoding, bytes)?;
    Ok(Input {
        file,
        text,
        sha256,
        is_start,
    })
}

// Returns whether a byte ends a line.
fn ends_line(byte: u8) -> bool
    ensures { result ≡ ends_line byte }
{
    byte == b'\n' || byte == b'\r'
}

// Returns whether one of these bytes ends no line.
fn has_content(bytes: &[u8]) -> bool
    ensures { result ≡ has_content bytes.now }
{
    for i in 0..bytes.len() {
        if !ends_line(bytes[i]) {
            return true;
        }
    }
    false
}

// Returns whether a text of CSV has a line after its header that isn't empty.
fn has_rows(text: &[u8]) -> bool
    ensures { result ≡ has_rows text.now }
{
    for i in 0..text.len() {
        if ends_line(text[i]) {
            return has_content(&text[i..]);
        }
    }
    false
}

/// Returns whether an input may be entered only once: it is a file, not standard input, and has movements.
pub fn is_once(input: &Input<'_>) -> bool
    ensures { result ≡ comes_once input.now }
{
    input.file != "-" && has_rows(input.text.as_slice())
}

// Turns each `Out(0)` into `In(0)`, since a row has no sign at 0.
fn plain_movements(
    alloc: Global,
    movements: Vec<Movement<String>>,
) -> Result<Vec<Movement<String>>, AllocError>
    ensures { IfOk result (λ all. all.items ≡ map plain_movement movements.items) }
{
    let mut all = Vec::new(alloc);
    for movement in movements {
        let Movement {
            place,
            article,
            change,
        } = movement;
        all.push(Movement {
            place,
            article,
            change: plain_change(change),
        })
        .map_err(AllocError::from)?;
    }
    Ok(all)
}

/// Reads the movements of an input, whose columns have these names.
///
/// # Errors
///
/// What is wrong with its first bad line, or a failed allocation.
pub(crate) fn read<'a>(
    alloc: Global,
    job: &Job<'a>,
    input: &Input<'a>,
    file: usize,
    columns: Columns<&str>,
    reading: Reading,
) -> Result<Vec<Movement<String>>, SheetError>
    // The result has the articles and changes of the text, in turn, with `In 0` for `Out 0`. The job names the columns of an opening stock apart.
    ensures { IfOk result (λ all. AreInputRows job.now reading columns.entry input.now all.items) }
{
    let text = input.text.as_slice();
    if !input.is_start {
        let movements = read_movements(alloc, text, file, columns, reading)?;
        return Ok(plain_movements(alloc, movements)?);
    }
    // The first read rejects signs. The second returns the movements with their lines.
    let (article, number) = job.start_columns;
    read_counts_as(alloc, text, article, number, reading)?;
    let change = ChangeColumns::Signed(number);
    let columns = Columns { article, change };
    let movements = read_movements(alloc, text, file, columns, reading)?;
    Ok(plain_movements(alloc, movements)?)
}

/// Returns the movements of an input, whose columns have these names. The opening stock, which has columns of its
/// own, becomes incoming movements.
///
/// # Errors
///
/// What is wrong with its first bad line, or a failed allocation.
pub fn movements_of<'a>(
    alloc: Global,
    job: &Job<'a>,
    input: &Input<'a>,
    file: usize,
    columns: Columns<&str>,
    reading: Reading,
) -> Result<Vec<Movement<String>>, Trouble<'a>>
    // The result has the articles and changes of the text, in turn, with `In 0` for `Out 0`. The job names the columns of an opening stock apart.
    ensures { IfOk result (λ all. AreInputRows job.now reading columns.entry input.now all.items) }
{
    let read = read(alloc, job, input, file, columns, reading);
    if input.is_start {
        return in_start(alloc, input.file, read);
    }
    in_file(alloc, input.file, read)
}

// Returns whether there is a column of dates or of notes.
fn has_extras(names: ExtraColumns<&str>) -> bool {
    names.date.is_some() || names.note.is_some()
}

// Returns the columns among `names` that the job doesn't name. These are the columns that the stock keeps.
fn kept_of<'n>(job: &Job<'_>, names: ExtraColumns<&'n str>) -> ExtraColumns<&'n str> {
    ExtraColumns {
        date: names.date.filter(|_| job.extras.date.is_none()),
        note: names.note.filter(|_| job.extras.note.is_none()),
    }
}

// Fails if the word of `--on` or of `--from-on` is no date.
fn check_dates<'a>(alloc: Global, job: &Job<'_>) -> Result<(), Trouble<'a>> {
    for (option, word) in [("--on", job.on), ("--from-on", job.from_on)] {
        if let Some(date) = word
            && !is_date(date)
        {
            return Err(no_day(alloc, option));
        }
    }
    Ok(())
}

// Returns these dates and notes. With a date, each has this date, and its own note.
fn dated(alloc: Global, extras: Vec<Extra>, date: Option<&str>) -> Result<Vec<Extra>, AllocError> {
    let Some(date) = date else {
        return Ok(extras);
    };
    let mut all = Vec::new(alloc);
    for extra in extras {
        all.push(Extra {
            date: Some(String::from_str(alloc, date)?),
            note: extra.note,
        })
        .map_err(AllocError::from)?;
    }
    Ok(all)
}

/// Returns the date of `--on` for each of this many movements, without a note. Returns an empty list without `--on`.
///
/// # Errors
///
/// That the word of `--on` is no date, or a failed allocation.
pub fn extras_on<'a>(
    alloc: Global,
    job: &Job<'_>,
    movements: usize,
) -> Result<Vec<Extra>, Trouble<'a>> {
    check_dates(alloc, job)?;
    let mut extras = Vec::new(alloc);
    if let Some(date) = job.on {
        for _ in 0..movements {
            extras
                .push(Extra {
                    date: Some(String::from_str(alloc, date)?),
                    note: None,
                })
                .map_err(AllocError::from)?;
        }
    }
    Ok(extras)
}

/// Returns the dates and notes of all movements of the inputs, in turn. `names` are the names of their columns; without names the list is empty.
/// The opening stock has the date of `--from-on` and no notes.
///
/// # Errors
///
/// What is wrong with the first bad line of the first bad input, or a failed allocation.
pub fn extras_of<'a>(
    alloc: Global,
    job: &Job<'a>,
    inputs: &[Input<'a>],
    names: ExtraColumns<&str>,
    delimiter: Delimiter,
) -> Result<Vec<Extra>, Trouble<'a>> {
    let mut extras = Vec::new(alloc);
    check_dates(alloc, job)?;
    if !has_extras(names) && job.on.is_none() && job.from_on.is_none() {
        return Ok(extras);
    }
    for input in inputs {
        let (own, date) = if input.is_start {
            (plain_extras(), job.from_on)
        } else {
            (names, job.on)
        };
        match read_extras(alloc, input.text.as_slice(), own, delimiter, job.date_form) {
            Ok(read) => extras.append(&mut dated(alloc, read, date)?)?,
            Err(error) => return Err(of_extras(alloc, input.file, kept_of(job, names), error)),
        }
    }
    Ok(extras)
}
