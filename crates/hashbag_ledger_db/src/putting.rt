//! What is written into a database, and the errors of databases.
ghost use Rattle.std.specs.Prelude.{◌≡◌, Ok, IfOk, OnOk};
ghost use Rattle.hashbag_ledger_db.specs.Undone.{IsPut};

use crate::stock::error::StockError;
use crate::stock::statements::{NewRows, NewStock};
use crate::stock::writing::put_batches;
use crate::troubles::of_stock;
use hashbag_shell::trouble::Trouble;
use sqlite::{Alter, Connection};
use std::alloc::Global;

/// Returns the value in `done`.
///
/// # Errors
///
/// The error in `done`, as the trouble of a program.
pub fn in_database<'a, T>(
    alloc: Global,
    db: &str,
    done: Result<T, StockError>,
) -> Result<T, Trouble<'a>>
    ensures { IfOk result (λ value. done ≡ Ok value) }
{
    match done {
        Ok(value) => Ok(value),
        Err(error) => Err(of_stock(alloc, db, error)),
    }
}

/// Writes the rows of one run of a subcommand in one transaction, which first creates the tables if the stock is new.
///
/// # Errors
///
/// Why the rows can't be written. Then nothing is written.
pub fn put<'a, D: Alter>(
    alloc: Global,
    db: &str,
    conn: &mut Connection<D>,
    new_stock: Option<NewStock<'_>>,
    new: NewRows<'_>,
) -> Result<(), Trouble<'a>>
    // If the disk doesn't fail: what the statements of `new` make is committed.
    ensures { OnOk result (IsPut D.Store new_stock.entry new.entry conn.old conn.new) }
{
    in_database(alloc, db, put_batches(alloc, conn, new_stock, new))
}
