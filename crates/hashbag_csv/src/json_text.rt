//! Rows as JSON.
ghost use Rattle.std.specs.Prelude.{◌≡◌, ◌++◌, ◌∷◌, [], decimal, map, IfOk, OnOk};
ghost use Rattle.json.specs.Token.{number};
ghost use Rattle.hashbag_csv.specs.Cells.{lent_cell};
ghost use Rattle.hashbag_csv.specs.Written.{json_text, object_of, token_of};

use crate::cells::{Cell, Listing};
use crate::scale::Scale;
use json::Writer;
use std::alloc::{AllocError, Global};

// Writes the number that is n below 0.
fn write_below(alloc: Global, writer: &mut Writer, n: usize) -> Result<(), AllocError>
    ensures before { writer.new.before ≡ writer.old.before }
    ensures tokens { OnOk result (writer.new.tokens ≡ writer.old.tokens ++ number (45 ∷ decimal n) ∷ []) }
{
    writer.number(format!(in alloc; "-{n}")?.as_str())
}

// Writes the value of a cell: a number if it is one without decimals, else a string.
fn write_cell(
    alloc: Global,
    writer: &mut Writer,
    cell: &Cell<&str, Scale>,
) -> Result<(), AllocError>
    ensures before { writer.new.before ≡ writer.old.before }
    ensures tokens { OnOk result (writer.new.tokens ≡ writer.old.tokens ++ token_of (lent_cell cell.now) ∷ []) }
{
    match cell {
        Cell::Text(text) => writer.string(*text),
        Cell::Count(n) => writer.u64(*n),
        Cell::Number(n, scale) if scale.decimals == 0 => writer.u64(*n as u64),
        Cell::Below(n, scale) if scale.decimals == 0 => write_below(alloc, writer, *n),
        _ => writer.string(cell.text(alloc)?.as_str()),
    }
}

// Writes a row: an object with a member for each cell, which has the name of its column.
fn write_row(
    alloc: Global,
    writer: &mut Writer,
    names: &[&str],
    cells: &[Cell<&str, Scale>],
) -> Result<(), AllocError>
    ensures before { writer.new.before ≡ writer.old.before }
    ensures tokens { OnOk result (writer.new.tokens ≡ writer.old.tokens ++ object_of (map (λ n. n.now) names.now) (map lent_cell cells.now)) }
{
    writer.begin_object()?;
    for (name, cell) in names.iter().zip(cells.iter()) {
        writer.key(*name)?;
        write_cell(alloc, writer, cell)?;
    }
    writer.end_object()?;
    Ok(())
}

/// Returns the rows of values as a JSON array on one line, with an object for each row.
///
/// # Errors
///
/// An allocation fails.
pub fn json_of<'a, T, L: Listing<T>>(
    alloc: Global,
    listing: &'a L,
    values: &'a [T],
) -> Result<Vec<u8>, AllocError>
    // The text is an array and a line feed. Each row is an object with a member for each of its cells, by the names of the columns.
    ensures { IfOk result (λ text. text.items ≡ json_text (L.columns listing.now) (map (L.line listing.now) values.now)) }
{
    let names = listing.names(alloc)?;
    let mut writer = Writer::new(Vec::new(alloc));
    writer.begin_array()?;
    for value in values {
        write_row(alloc, &mut writer, &names, &listing.cells(alloc, value)?)?;
    }
    writer.end_array()?;
    let mut text = writer.into_inner();
    text.push(b'\n')?;
    Ok(text)
}
