//! Reading movements from CSV texts.
ghost use Rattle.std.specs.Prelude.{◌≡◌, String, All, IfOk, IfSome, OnOk};
ghost use Rattle.std.specs.Global.{Global};
ghost use Rattle.std.specs.String.{string_eq};
ghost use Rattle.hashbag_csv.specs.Sheets.{place, read_last};
ghost use Rattle.hashbag_ledger_lib.specs.Ledgers.{EntersFileInto, EntersMovement};
ghost use Rattle.hashbag_ledger_lib.specs.declared.movements.Movement.{Movement};
ghost use Rattle.hashbag_ledger_lib.specs.Movements.{contents_of, signed, of_kind, change_by, change_places, columns_by, change_in, movements_read, places_under, ReadsNextMovement};

use crate::entering::LedgerError;
use crate::ledger::Ledger;
use crate::movements::{Change, Movement, Place};
use hashbag_csv::counts::Reading;
use hashbag_csv::escaped::shown;
use hashbag_csv::fault::{Fault, SheetError};
use hashbag_csv::lines::column_of;
use hashbag_csv::numbers::{scaled_number, total_too_large};
use hashbag_csv::scale::Scale;
use hashbag_csv::sheet::{Column, Sheet};
use std::alloc::{AllocError, Global};
use std::hash::BuildHasher;

/// The columns of movements: names, or columns of a sheet.
#[derive(Clone, Copy)]
pub struct Columns<C> {
    /// The article.
    pub article: C,
    /// The change.
    pub change: ChangeColumns<C>,
}

/// The columns of a change.
#[derive(Clone, Copy)]
pub enum ChangeColumns<C> {
    /// One column: `5` or `+5` is added, `-5` is removed.
    Signed(C),
    /// Two columns: the kind, which is `in` or `out`, and the number.
    ByKind(C, C),
}

// Returns the columns of a change with these names in the header. Call it before the first `Sheet::read`, which replaces the header.
fn change_columns_of<'n>(
    sheet: &Sheet<'_>,
    names: ChangeColumns<&'n str>,
) -> Result<ChangeColumns<Column<'n>>, SheetError>
    ensures { IfOk result (λ columns. change_by place columns ≡ change_places (read_last sheet.now) names.entry) }
{
    match names {
        ChangeColumns::Signed(change) => Ok(ChangeColumns::Signed(column_of(sheet, change)?)),
        ChangeColumns::ByKind(kind, number) => {
            let kind = column_of(sheet, kind)?;
            Ok(ChangeColumns::ByKind(kind, column_of(sheet, number)?))
        }
    }
}

// Returns the columns with these names in the header. Call it before the first `Sheet::read`, which replaces the header.
fn columns_of<'n>(
    sheet: &Sheet<'_>,
    names: Columns<&'n str>,
) -> Result<Columns<Column<'n>>, SheetError>
    ensures { IfOk result (λ columns. columns_by place columns ≡ places_under (read_last sheet.now) names.entry) }
{
    let article = column_of(sheet, names.article)?;
    let change = change_columns_of(sheet, names.change)?;
    Ok(Columns { article, change })
}

// Returns the change of a number with a sign: `-` takes out; `+`, or no sign, brings in.
fn signed_change(alloc: Global, line: u64, field: &str, scale: Scale) -> Result<Change, SheetError>
    ensures { IfOk result (λ change. change ≡ signed scale field.now) }
{
    if let Some(digits) = field.strip_prefix('-') {
        let n = scaled_number(alloc, line, digits, field, scale)?;
        return Ok(Change::Out(n));
    }
    let digits = field.strip_prefix('+').unwrap_or(field);
    Ok(Change::In(scaled_number(alloc, line, digits, field, scale)?))
}

// Returns the change of a kind and a number.
fn change_of_kind(alloc: Global, line: u64, kind: &str, n: usize) -> Result<Change, SheetError>
    ensures { IfOk result (λ change. change ≡ of_kind kind.now n) }
{
    match kind {
        "in" => Ok(Change::In(n)),
        "out" => Ok(Change::Out(n)),
        _ => {
            let fault = Fault::NoKind(shown(alloc, kind)?);
            Err(SheetError::Line { line, fault })
        }
    }
}

// Returns the change of the record that was read last, which begins on `line`.
fn change_of(
    alloc: Global,
    sheet: &Sheet<'_>,
    line: u64,
    columns: ChangeColumns<Column<'_>>,
    scale: Scale,
) -> Result<Change, SheetError>
    ensures { IfOk result (λ change. change ≡ change_in scale (change_by place columns.entry) (read_last sheet.now)) }
{
    match columns {
        ChangeColumns::Signed(change) => {
            signed_change(alloc, line, sheet.field(change)?, scale)
        },
        ChangeColumns::ByKind(kind, quantity) => {
            let digits = sheet.field(quantity)?;
            let n = scaled_number(alloc, line, digits, digits, scale)?;
            change_of_kind(alloc, line, sheet.field(kind)?, n)
        }
    }
}

// Reads the next record, and returns its movement, or `None` if no record is left.
fn next_movement(
    alloc: Global,
    sheet: &mut Sheet<'_>,
    file: usize,
    columns: Columns<Column<'_>>,
    scale: Scale,
) -> Result<Option<Movement<String>>, SheetError>
    ensures read { IfOk result (λ m. ReadsNextMovement scale (columns_by place columns.entry) sheet.old m sheet.new) }
    ensures place { IfOk result (λ read. IfSome read (λ m. m.place.file ≡ file)) }
{
    if !sheet.read()? {
        return Ok(None);
    }
    let line = sheet.line();
    let article = String::from_str(alloc, sheet.field(columns.article)?)?;
    let change = change_of(alloc, sheet, line, columns.change, scale)?;
    let place = Place { file, line };
    Ok(Some(Movement {
        place,
        article,
        change,
    }))
}

/// Returns the movements of a text, in the order of the lines.
///
/// `file` is the number of the file in the movements' places. Numbers are in units of the last decimal of the scale.
///
/// # Errors
///
/// `Line` for the first bad line. `Memory` if an allocation fails.
pub fn read_movements(
    alloc: Global,
    text: &[u8],
    file: usize,
    names: Columns<&str>,
    reading: Reading,
) -> Result<Vec<Movement<String>>, SheetError>
    // The result has the article and the change of each record below the header, in turn, read by `names` and `reading`.
    ensures movements { IfOk result (λ all. contents_of all.items ≡ movements_read reading names.entry text.now) }
    ensures places { IfOk result (λ movements. All (λ m. m.place.file ≡ file) movements.items) }
{
    let mut sheet = Sheet::open_with(alloc, text, reading.delimiter)?;
    let columns = columns_of(&sheet, names)?;
    let mut movements = Vec::new(alloc);
    'records: while let Some(movement) = next_movement(
        alloc,
        &mut sheet,
        file,
        columns,
        reading.scale,
    )? {
        movements.push(movement).map_err(AllocError::from)?;
    }
    Ok(movements)
}

// Enters a movement into a ledger. An error names the line of the movement.
fn enter_record<S: BuildHasher + Drop>(
    alloc: Global,
    ledger: &mut Ledger<String, S>,
    movement: Movement<String>,
    scale: Scale,
) -> Result<(), SheetError>
    ensures { OnOk result (EntersMovement string_eq ledger.old ledger.new movement) }
{
    let line = movement.place.line;
    match ledger.enter(movement) {
        Ok(()) => Ok(()),
        Err(LedgerError::TooMany(_)) => {
            let fault = total_too_large(alloc, scale)?;
            Err(SheetError::Line { line, fault })
        }
        Err(LedgerError::StartTooMany | LedgerError::Memory) => Err(SheetError::Memory),
    }
}

/// Reads the movements of a text in the order of the lines, and enters each into a ledger. Only refusals are kept.
///
/// `file` is the number of the file in the movements' places. Numbers are in units of the last decimal of the scale.
///
/// # Errors
///
/// `Line` for the first line that is bad, or whose movement would take the total past the limit. `Memory` if an allocation fails. After an
/// error some of the movements have been entered, and no clause says which.
pub fn enter_movements<S: BuildHasher + Drop>(
    alloc: Global,
    ledger: &mut Ledger<String, S>,
    text: &[u8],
    file: usize,
    names: Columns<&str>,
    reading: Reading,
) -> Result<(), SheetError>
    // The movements of the text, each with `file` in its place, follow the movements that the ledger had.
    ensures { OnOk result (EntersFileInto file (movements_read reading names.entry text.now) ledger.old ledger.new) }
{
    let mut sheet = Sheet::open_with(alloc, text, reading.delimiter)?;
    let columns = columns_of(&sheet, names)?;
    'records: while let Some(movement) = next_movement(
        alloc,
        &mut sheet,
        file,
        columns,
        reading.scale,
    )? {
        enter_record(alloc, ledger, movement, reading.scale)?;
    }
    Ok(())
}
