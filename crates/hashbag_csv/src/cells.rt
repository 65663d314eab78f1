//! Rows of cells, which [`forms`](crate::forms) writes in columns, as CSV or as JSON.
ghost use Rattle.std.specs.Prelude.{◌≡◌, map, IfOk};
ghost use Rattle.std.specs.String.{string_bytes};
ghost use Rattle.hashbag_csv.specs.Cells.{Cells, cells_of, holds_text, lent_cell, text_of_cell};
ghost use Rattle.hashbag_csv.specs.Readers.{Record};

use crate::decimals::write_decimal;
use crate::scale::Scale;
use std::alloc::{AllocError, Global};

/// What a row has in a column.
#[derive(Clone, Copy)]
pub enum Cell<T, S> {
    /// A text.
    Text(T),
    /// A whole number.
    Count(u64),
    /// A number, in units of a scale.
    Number(usize, S),
    /// A number below 0: how many units of a scale it is below 0.
    Below(usize, S),
}

impl Cell<&str, Scale> {
    /// Returns the text of the cell. A number has all decimals of its scale.
    ///
    /// # Errors
    ///
    /// An allocation fails.
    pub fn text(&self, alloc: Global) -> Result<String, AllocError>
        ensures { IfOk result (λ text. string_bytes text ≡ text_of_cell (lent_cell self.now)) }
    {
        match self {
            Cell::Text(text) => String::from_str(alloc, *text),
            Cell::Count(n) => format!(in alloc; "{n}"),
            Cell::Number(n, scale) => write_decimal(alloc, *n, *scale),
            Cell::Below(n, scale) => {
                let digits = write_decimal(alloc, *n, *scale)?;
                format!(in alloc; "-{digits}")
            }
        }
    }

    /// Returns whether the cell is a text.
    pub fn is_text(&self) -> bool
        ensures { result ≡ holds_text (lent_cell self.now) }
    {
        match self {
            Cell::Text(_) => true,
            Cell::Count(_) | Cell::Number(_, _) | Cell::Below(_, _) => false,
        }
    }
}

/// The names of columns, or an allocation fails.
pub type Names<'s> = Result<Vec<&'s str>, AllocError>;

/// The cells of a row, or an allocation fails.
pub type RowCells<'s> = Result<Vec<Cell<&'s str, Scale>>, AllocError>;

/// How values of the type `T` are rows: the names of the columns, and what a value has in each.
pub trait Listing<T> {
    /// The names of the columns, as bytes.
    ghost columns: { Self → Record };

    /// The cells of the line of a value, with the bytes of texts.
    ghost line: { Self → T → Cells };

    /// Returns the names of the columns.
    fn names<'s>(&'s self, alloc: Global) -> Names<'s>
        ensures { IfOk result (λ names. map (λ n. n.now) names.items ≡ columns self.now) };

    /// Returns the cells of the line of a value.
    fn cells<'s>(&'s self, alloc: Global, value: &'s T) -> RowCells<'s>
        ensures { IfOk result (λ cells. cells_of cells ≡ line self.now value.now) };
}
