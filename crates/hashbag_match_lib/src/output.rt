//! The text of rows.
ghost use Rattle.std.specs.Prelude.{◌≡◌, ◌++◌, map, IfOk, OnOk};
ghost use Rattle.std.specs.String.{string_bytes};
ghost use Rattle.hashbag_csv.specs.Cells.{cells_of};
ghost use Rattle.hashbag_match_lib.specs.Forms.{lines_in, text_in};
ghost use Rattle.hashbag_match_lib.specs.Shown.{entries_of, entry_of};
ghost use Rattle.hashbag_match_lib.specs.Written.{cells_in, columns_in, look_of, lent_names, sums_text};

use crate::matching::Row;
use crate::shown::Fields;
use crate::totals::Totals;
use hashbag_csv::cells::{Cell, Listing, Names, RowCells};
use hashbag_csv::decimals::write_decimal;
use hashbag_csv::delimiter::Delimiter;
use hashbag_csv::forms::{Form, rows_text};
use hashbag_csv::scale::Scale;
use std::alloc::{AllocError, Global};

/// How rows are written: the names of the columns of fields, the form of numbers, and the delimiter.
#[derive(Clone, Copy)]
pub struct Layout<'a> {
    /// The names of the key columns.
    pub keys: &'a [&'a str],
    /// The names of the columns that are carried along.
    pub carried: &'a [&'a str],
    /// How numbers are written.
    pub scale: Scale,
    /// What is between the fields of CSV.
    pub delimiter: Delimiter,
}

// The names of the columns of numbers.
static NUMBERS: [&str; 4] = ["ordered", "delivered", "missing", "surplus"];

/// Returns whether a column of numbers has this name. No key column of the output, and no carried column, may have such a name.
pub fn is_reserved(name: &str) -> bool {
    NUMBERS.iter().any(|number| *number == name)
}

// Appends names.
fn push_names<'n>(all: &mut Vec<&'n str>, names: &'n [&'n str]) -> Result<(), AllocError>
    ensures { OnOk result (lent_names all.new ≡ lent_names all.old ++ map (λ n. n.now) names.now) }
{
    for name in names {
        all.push(*name)?;
    }
    Ok(())
}

// Appends fields.
fn push_fields<'f>(
    cells: &mut Vec<Cell<&'f str, Scale>>,
    fields: &'f [String],
) -> Result<(), AllocError>
    ensures { OnOk result (cells_of cells.new ≡ cells_of cells.old ++ map Cell.Text (map string_bytes fields.now)) }
{
    for field in fields {
        cells.push(Cell::Text(field.as_str()))?;
    }
    Ok(())
}

impl Listing<Row<Fields<'_>>> for Layout<'_> {
    ghost columns = { λ layout. columns_in (look_of layout) };

    ghost line = { λ layout row. cells_in layout.scale (entry_of row) };

    fn names<'s>(&'s self, alloc: Global) -> Names<'s>
        ensures { IfOk result (λ names. lent_names names ≡ columns_in (look_of self.now)) }
    {
        let mut names = Vec::new(alloc);
        push_names(&mut names, self.keys)?;
        push_names(&mut names, self.carried)?;
        push_names(&mut names, NUMBERS.as_slice())?;
        Ok(names)
    }

    fn cells<'s>(&'s self, alloc: Global, row: &'s Row<Fields<'_>>) -> RowCells<'s>
        ensures { IfOk result (λ cells. cells_of cells ≡ cells_in self.now.scale (entry_of row.now)) }
    {
        let mut cells = Vec::new(alloc);
        push_fields(&mut cells, row.article.article)?;
        push_fields(&mut cells, row.article.carried)?;
        cells.push(Cell::Number(row.ordered, self.scale))?;
        cells.push(Cell::Number(row.delivered, self.scale))?;
        cells.push(Cell::Number(row.missing(), self.scale))?;
        cells.push(Cell::Number(row.surplus(), self.scale))?;
        Ok(cells)
    }
}

// Returns the text of these rows, without the last line of a table.
fn lines_text(
    alloc: Global,
    rows: &[Row<Fields<'_>>],
    layout: Layout<'_>,
    form: Form,
) -> Result<Vec<u8>, AllocError>
    ensures { IfOk result (λ text. text.items ≡ lines_in form (look_of layout.entry) (entries_of rows.now)) }
{
    rows_text(alloc, form, layout.delimiter, &layout, rows)
}

// Returns the last line of a table: how many articles differ, and the sums.
fn sums_of(alloc: Global, totals: &Totals, scale: Scale) -> Result<String, AllocError>
    ensures { IfOk result (λ text. string_bytes text ≡ sums_text scale totals.now) }
{
    if totals.differing == 0 {
        return format!(in alloc; "no article of {} differs\n", totals.articles);
    }
    let missing = write_decimal(alloc, totals.missing, scale)?;
    let surplus = write_decimal(alloc, totals.surplus, scale)?;
    if totals.differing == 1 {
        return format!(in alloc; "1 article differs: {missing} missing, {surplus} surplus\n");
    }
    let differing = totals.differing;
    format!(in alloc; "{differing} articles differ: {missing} missing, {surplus} surplus\n")
}

/// Returns the text of these rows, in this form. `totals` are the sums of all rows, also of rows that aren't written.
///
/// # Errors
///
/// An allocation fails.
pub fn text_of(
    alloc: Global,
    rows: &[Row<Fields<'_>>],
    totals: &Totals,
    layout: Layout<'_>,
    form: Form,
) -> Result<Vec<u8>, AllocError>
    // The text is the rows in the form `form`, with the names, scale and delimiter of `layout`. A table ends with `totals`.
    ensures { IfOk result (λ text. text.items ≡ text_in form (look_of layout.entry) totals.now (entries_of rows.now)) }
{
    let mut text = lines_text(alloc, rows, layout, form)?;
    match form {
        Form::Table => {
            text.extend_from_slice(sums_of(alloc, totals, layout.scale)?.as_bytes())?;
            Ok(text)
        }
        Form::Csv | Form::Json => Ok(text),
    }
}
