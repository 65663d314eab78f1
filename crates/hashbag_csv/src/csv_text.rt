//! Rows as CSV.
ghost use Rattle.std.specs.Prelude.{◌≡◌, ◌++◌, [], map, IfOk, OnOk};
ghost use Rattle.std.specs.String.{string_bytes};
ghost use Rattle.hashbag_csv.specs.Cells.{lent_cell, text_of_cell};
ghost use Rattle.hashbag_csv.specs.Written.{HasWritten, WritesRecord, csv_text, field_bytes};

use crate::cells::{Cell, Listing};
use crate::delimiter::Delimiter;
use crate::scale::Scale;
use csv::{Writer, WriterBuilder};
use std::alloc::{AllocError, Global};

// Appends a record of these fields.
fn push_record(writer: &mut Writer<Vec<u8>>, fields: &Vec<&[u8]>) -> Result<(), AllocError>
    ensures { OnOk result (WritesRecord (field_bytes fields.now) writer.old writer.new) }
{
    let Ok(()) = writer.write_fields(fields.as_slice()) else {
        return Err(AllocError);
    };
    Ok(())
}

// Returns a writer of no records, with this delimiter between fields.
fn writer_with(alloc: Global, delimiter: Delimiter) -> Writer<Vec<u8>>
    ensures { HasWritten delimiter [] result }
{
    WriterBuilder::new()
        .delimiter(delimiter.byte())
        .from_writer(Vec::new(alloc))
}

// Returns the bytes of names.
fn fields_of<'n>(alloc: Global, names: &[&'n str]) -> Result<Vec<&'n [u8]>, AllocError>
    ensures { IfOk result (λ fields. field_bytes fields ≡ map (λ n. n.now) names.now) }
{
    let mut fields = Vec::new(alloc);
    for name in names {
        fields.push(name.as_bytes())?;
    }
    Ok(fields)
}

// Returns the texts of cells.
fn texts_of(alloc: Global, cells: &[Cell<&str, Scale>]) -> Result<Vec<String>, AllocError>
    ensures { IfOk result (λ texts. map string_bytes texts.items ≡ map text_of_cell (map lent_cell cells.now)) }
{
    let mut texts = Vec::new(alloc);
    for cell in cells {
        texts.push(cell.text(alloc)?)?;
    }
    Ok(texts)
}

// Appends the record of a row.
fn push_row(
    alloc: Global,
    writer: &mut Writer<Vec<u8>>,
    cells: &[Cell<&str, Scale>],
) -> Result<(), AllocError>
    ensures { OnOk result (WritesRecord (map text_of_cell (map lent_cell cells.now)) writer.old writer.new) }
{
    let texts = texts_of(alloc, cells)?;
    let mut fields = Vec::new(alloc);
    for text in &texts {
        fields.push(text.as_str().as_bytes())?;
    }
    push_record(writer, &fields)
}

/// Returns the rows of values as CSV, with a header.
///
/// # Errors
///
/// An allocation fails.
pub fn csv_of<'a, T, L: Listing<T>>(
    alloc: Global,
    delimiter: Delimiter,
    listing: &'a L,
    values: &'a [T],
) -> Result<Vec<u8>, AllocError>
    // The text is a record of the names of columns, and one for each row: the texts of its cells.
    ensures { IfOk result (λ text. text.items ≡ csv_text delimiter (L.columns listing.now) (map (L.line listing.now) values.now)) }
{
    let mut writer = writer_with(alloc, delimiter);
    push_record(&mut writer, &fields_of(alloc, &listing.names(alloc)?)?)?;
    for value in values {
        push_row(alloc, &mut writer, &listing.cells(alloc, value)?)?;
    }
    let Ok(text) = writer.into_inner() else {
        return Err(AllocError);
    };
    Ok(text)
}
