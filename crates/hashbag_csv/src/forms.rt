//! The forms of a text of rows.
ghost use Rattle.std.specs.Prelude.{◌≡◌, map, IfOk};
ghost use Rattle.hashbag_csv.specs.Forms.{rows_in};
ghost use Rattle.hashbag_csv.specs.Names.{form_named};

use crate::cells::Listing;
use crate::csv_text::csv_of;
use crate::delimiter::Delimiter;
use crate::json_text::json_of;
use crate::table::table_of;
use std::alloc::{AllocError, Global};

/// How rows are written.
#[derive(Clone, Copy, PartialEq, Eq, Debug)]
pub enum Form {
    /// In columns, with titles.
    Table,
    /// As CSV, with a header.
    Csv,
    /// As a JSON array that has an object for each row.
    Json,
}

impl Form {
    /// Returns the form with this name: `table`, `csv` or `json`. Returns `Csv` for any other name.
    pub fn named(name: &str) -> Form
        ensures { result ≡ form_named name.now }
    {
        match name {
            "table" => Form::Table,
            "json" => Form::Json,
            _ => Form::Csv,
        }
    }
}

/// Returns the text of values as rows, in this form. `delimiter` is what is between the fields of CSV.
///
/// # Errors
///
/// An allocation fails.
pub fn rows_text<'a, T, L: Listing<T>>(
    alloc: Global,
    form: Form,
    delimiter: Delimiter,
    listing: &'a L,
    values: &'a [T],
) -> Result<Vec<u8>, AllocError>
    // The text has the names of the columns, and the cells of the row of each value, in the form `form`.
    ensures { IfOk result (λ text. text.items ≡ rows_in form delimiter (L.columns listing.now) (map (L.line listing.now) values.now)) }
{
    match form {
        Form::Table => table_of(alloc, listing, values),
        Form::Csv => csv_of(alloc, delimiter, listing, values),
        Form::Json => json_of(alloc, listing, values),
    }
}
