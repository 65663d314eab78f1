//! Rows in columns.
ghost use Rattle.std.specs.Prelude.{◌≡◌, ◌++◌, ◌∷◌, [], get_or, map, IfOk, OnOk};
ghost use Rattle.std.specs.String.{string_bytes};
ghost use Rattle.hashbag_csv.specs.Cells.{cells_of, lent_cell};
ghost use Rattle.hashbag_csv.specs.Tables.{AppendsLine, cell_bytes, cell_text, first_row, gap, is_text, shown_cell, shown_rows, spaces};
ghost use Rattle.hashbag_csv.specs.Tables.{table_text, title_of};
ghost use Rattle.hashbag_csv.specs.Widths.{AreWidened, AreWidths, width_of};

use crate::cells::{Cell, Listing, RowCells};
use crate::escaped::Escaped;
use crate::scale::Scale;
use std::alloc::{AllocError, Global};
use unicode_width::UnicodeWidthStr;

// Returns the titles of columns: their names in capitals.
fn titles_of(alloc: Global, names: &[&str]) -> Result<Vec<String>, AllocError>
    ensures { IfOk result (λ titles. cell_bytes titles ≡ map title_of (map (λ n. n.now) names.now)) }
{
    let mut titles = Vec::new(alloc);
    for name in names {
        let capitals = name.to_uppercase(alloc)?;
        titles.push(format!(in alloc; "{}", Escaped(capitals.as_str()))?)?;
    }
    Ok(titles)
}

// Returns the text of a cell, with control characters escaped.
fn shown_text(alloc: Global, cell: &Cell<&str, Scale>) -> Result<String, AllocError>
    ensures { IfOk result (λ text. string_bytes text ≡ shown_cell (lent_cell cell.now)) }
{
    match cell {
        Cell::Text(text) => format!(in alloc; "{}", Escaped(*text)),
        _ => cell.text(alloc),
    }
}

// Returns the texts of cells, with control characters escaped.
fn shown_texts(alloc: Global, cells: &[Cell<&str, Scale>]) -> Result<Vec<String>, AllocError>
    ensures { IfOk result (λ texts. cell_bytes texts ≡ map shown_cell (map lent_cell cells.now)) }
{
    let mut texts = Vec::new(alloc);
    for cell in cells {
        texts.push(shown_text(alloc, cell)?)?;
    }
    Ok(texts)
}

// Returns the width of the cell at this index, or 0 if there is no cell.
fn width_at(cells: &Vec<String>, index: usize) -> usize
    ensures { result ≡ width_of (get_or (cell_bytes cells.now) index []) }
{
    if index < cells.len() {
        return cells[index].as_str().width();
    }
    0
}

// Returns the widths of the columns after a line of these cells is added.
fn widened(
    alloc: Global,
    widths: &Vec<usize>,
    cells: &Vec<String>,
) -> Result<Vec<usize>, AllocError>
    ensures { IfOk result (λ wide. AreWidened widths.now.items (cell_bytes cells.now) wide.items) }
{
    let mut wide = Vec::new(alloc);
    for index in 0..widths.len().max(cells.len()) {
        let width = widths.get(index).copied().unwrap_or(0);
        wide.push(width.max(width_at(cells, index)))?;
    }
    Ok(wide)
}

// Returns the widths of the columns of a table with these titles and rows. One row's cells are in memory at a time.
fn widths_of<'a, T, L: Listing<T>>(
    alloc: Global,
    titles: &Vec<String>,
    listing: &'a L,
    values: &'a [T],
) -> Result<Vec<usize>, AllocError>
    ensures { IfOk result (λ widths. AreWidths (cell_bytes titles.now ∷ shown_rows (map (L.line listing.now) values.now)) widths.items) }
{
    let mut widths = widened(alloc, &Vec::new(alloc), titles)?;
    for value in values {
        let texts = shown_texts(alloc, &listing.cells(alloc, value)?)?;
        widths = widened(alloc, &widths, &texts)?;
    }
    Ok(widths)
}

// Appends n spaces.
fn push_spaces(table: &mut String, n: usize) -> Result<(), AllocError>
    ensures { OnOk result (string_bytes table.new ≡ string_bytes table.old ++ spaces n) }
{
    let mut written = 0;
    'spaces: while written < n {
        table.push(' ')?;
        written += 1;
    }
    Ok(())
}

// Appends what is before a cell: two spaces, but nothing before the first.
fn push_gap(table: &mut String, column: usize) -> Result<(), AllocError>
    ensures { OnOk result (string_bytes table.new ≡ string_bytes table.old ++ gap column) }
{
    if column == 0 {
        return Ok(());
    }
    push_spaces(table, 2)
}

// Appends a cell in a column of this width: a text is aligned left, a number right.
fn push_cell(table: &mut String, cell: &str, width: usize, is_text: bool) -> Result<(), AllocError>
    ensures { OnOk result (string_bytes table.new ≡ string_bytes table.old ++ cell_text is_text width cell.now) }
{
    let spaces = width.saturating_sub(cell.width());
    if is_text {
        table.push_str(cell)?;
        return push_spaces(table, spaces);
    }
    push_spaces(table, spaces)?;
    table.push_str(cell)
}

// Returns whether the cell at this index is a text; true if there is none.
fn has_text(cells: &[Cell<&str, Scale>], index: usize) -> bool
    ensures { result ≡ is_text (map lent_cell cells.now) index }
{
    match cells.get(index) {
        Some(cell) => cell.is_text(),
        None => true,
    }
}

// Appends a line of texts, each aligned as the cell at its index.
fn push_line(
    table: &mut String,
    widths: &Vec<usize>,
    cells: &[Cell<&str, Scale>],
    texts: &Vec<String>,
) -> Result<(), AllocError>
    ensures { OnOk result (AppendsLine widths.now (map lent_cell cells.now) texts.now table.old table.new) }
{
    for index in 0..texts.len() {
        push_gap(table, index)?;
        let width = widths.get(index).copied().unwrap_or(0);
        push_cell(table, texts[index].as_str(), width, has_text(cells, index))?;
    }
    table.push('\n')
}

// Returns the cells of the first row, or none if there is no row.
fn first_cells<'s, T, L: Listing<T>>(alloc: Global, listing: &'s L, values: &'s [T]) -> RowCells<'s>
    ensures { IfOk result (λ cells. cells_of cells ≡ first_row (map (L.line listing.now) values.now)) }
{
    match values.first() {
        Some(value) => listing.cells(alloc, value),
        None => Ok(Vec::new(alloc)),
    }
}

/// Returns the rows of values as a table. Texts are aligned left, numbers right, and a title as the first cell below it.
///
/// # Errors
///
/// An allocation fails.
pub fn table_of<'a, T, L: Listing<T>>(
    alloc: Global,
    listing: &'a L,
    values: &'a [T],
) -> Result<Vec<u8>, AllocError>
    // The text is a line of titles and one for each row, each column as wide as its widest cell.
    ensures { IfOk result (λ text. text.items ≡ table_text (L.columns listing.now) (map (L.line listing.now) values.now)) }
{
    let titles = titles_of(alloc, &listing.names(alloc)?)?;
    let widths = widths_of(alloc, &titles, listing, values)?;
    let mut table = String::new(alloc);
    push_line(
        &mut table,
        &widths,
        &first_cells(alloc, listing, values)?,
        &titles,
    )?;
    for value in values {
        let cells = listing.cells(alloc, value)?;
        let texts = shown_texts(alloc, &cells)?;
        push_line(&mut table, &widths, &cells, &texts)?;
    }
    Ok(table.into_bytes())
}
