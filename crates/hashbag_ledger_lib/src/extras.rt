//! What movements carry along: dates and notes. Entering doesn't depend on dates and notes, so they are in a list of their own: one [`Extra`]
//! for each movement, in the order of the movements. If the list is empty, no movement has a date or a note.
ghost use Rattle.std.specs.Prelude.{◌≡◌, true, All, IfOk, IfSome, map, option_map, string_bytes};
ghost use Rattle.hashbag_csv.specs.Sheets.{place, read_last};
ghost use Rattle.hashbag_ledger_lib.specs.Dates.{is_date};
ghost use Rattle.hashbag_ledger_lib.specs.Extras.{carried, columns_of, extras_read, last_date_if, last_field_if, place_if, text_if, HasNoBadDate, ReadsNextExtra};

use crate::date_forms::{DateForm, iso_of};
use crate::dates::is_date;
use crate::movements::{Change, Movement};
use hashbag_csv::delimiter::Delimiter;
use hashbag_csv::escaped::shown;
use hashbag_csv::fault::SheetError;
use hashbag_csv::lines::column_of;
use hashbag_csv::sheet::{Column, Sheet};
use std::alloc::{AllocError, Global};

/// What a movement carries along.
#[derive(PartialEq, Eq, Debug, Drop)]
pub struct Extra {
    /// Its date, as `2026-02-28`, if it has one.
    pub date: Option<String>,
    /// Its note, if it has one.
    pub note: Option<String>,
}

/// The columns of dates and of notes, if there are any: names, or columns of a sheet.
#[derive(Clone, Copy)]
pub struct ExtraColumns<C> {
    /// The dates.
    pub date: Option<C>,
    /// The notes.
    pub note: Option<C>,
}

/// Why dates and notes can't be read.
#[derive(Debug, Drop)]
pub enum ExtraError {
    /// The text is no CSV; or a name has no column, or several columns; or an allocation failed.
    Sheet(SheetError),
    /// A field of dates is no date.
    NoDate {
        /// The line on which its record begins.
        line: u64,
        /// The field, as it is shown.
        field: String,
        /// The form of dates.
        form: DateForm,
    },
}

impl From<SheetError> for ExtraError {
    fn from(error: SheetError) -> ExtraError {
        ExtraError::Sheet(error)
    }
}

impl From<AllocError> for ExtraError {
    fn from(_e: AllocError) -> ExtraError {
        ExtraError::Sheet(SheetError::Memory)
    }
}

// Looks up a name, if there is one, in the header, and returns its column. The header is the record that was read last.
fn column_if<'n>(sheet: &Sheet<'_>, name: Option<&'n str>) -> Result<Option<Column<'n>>, SheetError>
    ensures { IfOk result (λ column. option_map place column ≡ place_if (read_last sheet.now) name.entry) }
{
    match name {
        Some(name) => Ok(Some(column_of(sheet, name)?)),
        None => Ok(None),
    }
}

// Returns the field in this column of the record that was read last, or `None` if there is no column.
fn field_if(
    alloc: Global,
    sheet: &Sheet<'_>,
    column: Option<Column<'_>>,
) -> Result<Option<String>, SheetError>
    ensures { IfOk result (λ field. option_map string_bytes field ≡ last_field_if sheet.now column.entry) }
{
    match column {
        Some(column) => Ok(Some(String::from_str(alloc, sheet.field(column)?)?)),
        None => Ok(None),
    }
}

// Returns the date in this column of the record that was read last, as ISO writes it, or `None` if there is no column.
fn date_if(
    alloc: Global,
    sheet: &Sheet<'_>,
    column: Option<Column<'_>>,
    form: DateForm,
) -> Result<Option<String>, SheetError>
    ensures { IfOk result (λ date. option_map string_bytes date ≡ last_date_if form sheet.now column.entry) }
{
    match column {
        Some(column) => Ok(Some(iso_of(alloc, form, sheet.field(column)?)?)),
        None => Ok(None),
    }
}

// Returns whether there is no text, or the text is a date.
fn is_date_if(text: &Option<String>) -> bool
    ensures { result ≡ true → IfSome text.now (λ t. is_date (string_bytes t) ≡ true) }
{
    match text {
        Some(text) => is_date(text.as_str()),
        None => true,
    }
}

// Returns the error for a field that is no date of this form, in this column of the record that was read last.
fn no_date(
    alloc: Global,
    sheet: &Sheet<'_>,
    column: Option<Column<'_>>,
    form: DateForm,
) -> Result<ExtraError, SheetError> {
    let text = field_if(alloc, sheet, column)?;
    let (line, field) = (sheet.line(), shown(alloc, text_or_empty(&text))?);
    Ok(ExtraError::NoDate { line, field, form })
}

// Reads what the next movement carries along, or returns `None` after the last one.
fn next_extra(
    alloc: Global,
    sheet: &mut Sheet<'_>,
    columns: ExtraColumns<Column<'_>>,
    form: DateForm,
) -> Result<Option<Extra>, ExtraError>
    ensures read { IfOk result (λ read. ReadsNextExtra form (columns_of place columns.entry) sheet.old read sheet.new) }
    ensures dates { IfOk result (λ read. IfSome read HasNoBadDate) }
{
    if !sheet.read()? {
        return Ok(None);
    }
    let date = date_if(alloc, sheet, columns.date, form)?;
    let note = field_if(alloc, sheet, columns.note)?;
    if !is_date_if(&date) {
        return Err(no_date(alloc, sheet, columns.date, form)?);
    }
    Ok(Some(Extra { date, note }))
}

/// Reads the dates and the notes of the movements of a text, in the order of its lines: one [`Extra`] for each record. Dates are read in `form`.
///
/// # Errors
///
/// `NoDate` with the first line whose date field isn't a date of this form. `Sheet` if the text can't be read, or an allocation fails.
pub fn read_extras(
    alloc: Global,
    text: &[u8],
    names: ExtraColumns<&str>,
    delimiter: Delimiter,
    form: DateForm,
) -> Result<Vec<Extra>, ExtraError>
    // `extras` is what the records of the text carry along, in turn, with dates read in `form`. Each date is valid.
    ensures extras { IfOk result (λ extras. map carried extras.items ≡ extras_read delimiter form names.entry text.now) }
    ensures dates { IfOk result (λ extras. All HasNoBadDate extras.items) }
{
    let mut sheet = Sheet::open_with(alloc, text, delimiter)?;
    let date = column_if(&sheet, names.date)?;
    let note = column_if(&sheet, names.note)?;
    let columns = ExtraColumns { date, note };
    let mut extras = Vec::new(alloc);
    'records: while let Some(extra) = next_extra(alloc, &mut sheet, columns, form)? {
        extras.push(extra).map_err(AllocError::from)?;
    }
    Ok(extras)
}

// If `is_out`, appends the dates and notes of the movements that take out, else the dates and notes of the movements that bring in.
fn push_turned(
    turned: &mut Vec<Extra>,
    movements: &[(Movement<String>, Extra)],
    is_out: bool,
) -> Result<(), AllocError> {
    for (movement, extra) in movements {
        if matches!(movement.change, Change::Out(_)) == is_out {
            let (date, note) = (extra.date.clone()?, extra.note.clone()?);
            turned.push(Extra { date, note }).map_err(AllocError::from)?;
        }
    }
    Ok(())
}

/// Returns the dates and notes of the opposite movements of a batch, in the order of [`opposites`](crate::undoing::opposites): first for the
/// movements that took out, then for the movements that brought in. An opposite movement has the date and the note of the movement that it takes
/// back.
///
/// # Errors
///
/// An allocation fails.
pub fn opposite_extras(
    alloc: Global,
    movements: &[(Movement<String>, Extra)],
) -> Result<Vec<Extra>, AllocError> {
    let mut turned = Vec::new(alloc);
    push_turned(&mut turned, movements, true)?;
    push_turned(&mut turned, movements, false)?;
    Ok(turned)
}

/// Returns the text, or an empty one.
pub fn text_or_empty(text: &Option<String>) -> &str
    ensures { result.now ≡ text_if text.now }
{
    match text {
        Some(text) => text.as_str(),
        None => "",
    }
}
