//! What a database has before the inputs of a job are entered. Only [`before_in`] makes a `Before`, so a `Before` is what was read from the
//! database.
ghost use Rattle.std.specs.Prelude.{◌≡◌, [], None, false, IfOk, OnOk};
ghost use Rattle.hashbag_ledger_db.specs.Filed.{IfStock};
ghost use Rattle.hashbag_ledger_db.specs.Once.{AreNew, IsNewIfOnce};
ghost use Rattle.hashbag_ledger_db.specs.Readings.{extras_now, kept_extras, kept_names, no_extras, plain_names};
ghost use Rattle.hashbag_ledger_lib.specs.Changes.{Rises};
ghost use Rattle.hashbag_ledger_lib.specs.Movements.{names_now};

use crate::columns::{KeptColumns, KeptExtras, plain_columns};
use crate::job::Job;
use crate::messages::movements_in;
use crate::movements::{Input, is_once};
use crate::putting::in_database;
use crate::stock::error::StockError;
use crate::stock::reading::{balance_of, batches_of};
use crate::stock::tables::{Contents, columns_of, extras_of};
use crate::troubles::{entered_as, has_stock, of_stock, same_bytes};
use hashbag_ledger_lib::extras::ExtraColumns;
use hashbag_ledger_lib::once::{Batch, entered_before, next_number};
use hashbag_ledger_lib::reading::Columns;
use hashbag_shell::trouble::Trouble;
use sqlite::{Alter, Connection};
use std::alloc::Global;

/// What a database has before the inputs are entered.
#[derive(Drop)]
pub struct Before {
    contents: Contents,
    balance: Vec<(String, usize)>,
    // The columns of movements that the database keeps.
    columns: KeptColumns,
    // The columns of dates and of notes that the database keeps.
    extras: KeptExtras,
    // All batches.
    batches: Vec<Batch>,
}

impl Before {
    /// Returns the balance, articles in ascending order.
    pub fn balance(&self) -> &[(String, usize)]
        ensures { result.now ≡ self.now.balance.items }
    {
        self.balance.as_slice()
    }

    /// Returns the names of the columns of movements that the database keeps.
    pub fn names(&self) -> Columns<&str>
        ensures { names_now result ≡ kept_names self.now.columns }
    {
        self.columns.names()
    }

    /// Returns the names of the columns of dates and of notes that the database keeps.
    pub fn extras(&self) -> ExtraColumns<&str>
        ensures { extras_now result ≡ kept_extras self.now.extras }
    {
        self.extras.names()
    }

    /// Returns the number of the next batch.
    pub fn number(&self) -> i64 {
        next_number(&self.batches)
    }

    /// Returns how many movements there are.
    pub fn movements(&self) -> u64 {
        movements_in(&self.batches)
    }
}

// Fails if a file was entered before, or has the bytes of an earlier input. Standard input, and a file without movements, may be entered again.
fn check_new<'a>(
    alloc: Global,
    input: &Input<'a>,
    earlier: &[Input<'a>],
    batches: &[Batch],
) -> Result<(), Trouble<'a>>
    ensures { OnOk result (IsNewIfOnce batches.now earlier.now input.now) }
{
    if !is_once(input) {
        return Ok(());
    }
    let digest = input.sha256.as_str();
    if let Some(batch) = entered_before(batches, digest) {
        return Err(entered_as(alloc, input.file, batch));
    }
    match earlier.iter().find(|other| other.sha256.as_str() == digest) {
        Some(other) => Err(same_bytes(alloc, input.file, other.file)),
        None => Ok(()),
    }
}

/// Fails if a file was entered before, or if two of the files have the same bytes.
pub(crate) fn entered_twice<'a>(
    alloc: Global,
    inputs: &[Input<'a>],
    batches: &[Batch],
) -> Result<(), Trouble<'a>>
    ensures { OnOk result (AreNew inputs.now batches.now) }
{
    for i in 0..inputs.len() {
        check_new(alloc, &inputs[i], &inputs[..i], batches)?;
    }
    Ok(())
}

// Returns the batches that a database has, if the inputs may be entered after them.
fn batches_before<'a, D: Alter>(
    alloc: Global,
    job: &Job<'a>,
    inputs: &[Input<'a>],
    conn: &mut Connection<D>,
    contents: Contents,
) -> Result<Vec<Batch>, Trouble<'a>>
    ensures once { job.now.enters_again ≡ false → IfOk result (λ batches. AreNew inputs.now batches.items) }
    ensures begun { IfOk result (λ _. IfStock contents (λ _. job.now.from ≡ None)) }
{
    let batches = match contents {
        Contents::Empty => Vec::new(alloc),
        Contents::Stock(_) if job.from.is_some() => return Err(has_stock(alloc, job.db)),
        Contents::Stock(_) => in_database(alloc, job.db, batches_of(alloc, conn))?,
    };
    if !job.enters_again {
        entered_twice(alloc, inputs, &batches)?;
    }
    Ok(batches)
}

/// Returns the columns of movements that a stock keeps.
///
/// # Errors
///
/// `Damaged` if the stock keeps a text that isn't two or three names. Else the error of the database.
pub fn kept_columns<'a, D: Alter>(
    alloc: Global,
    db: &'a str,
    conn: &mut Connection<D>,
) -> Result<KeptColumns, Trouble<'a>> {
    let names = in_database(alloc, db, columns_of(conn))?;
    match KeptColumns::named(alloc, names.as_str())? {
        Some(columns) => Ok(columns),
        None => {
            let error = StockError::Damaged("no two or three columns in the table meta");
            Err(of_stock(alloc, db, error))
        }
    }
}

/// Returns the columns of dates and of notes that a stock keeps.
///
/// # Errors
///
/// The error of the database.
pub fn kept_extras<'a, D: Alter>(
    alloc: Global,
    db: &'a str,
    conn: &mut Connection<D>,
) -> Result<KeptExtras, Trouble<'a>> {
    let (date, note) = in_database(alloc, db, extras_of(conn))?;
    Ok(KeptExtras { date, note })
}

/// Returns what an open database has, if the inputs may be entered into it.
///
/// # Errors
///
/// Why the inputs may not be entered, or why the database can't be read.
pub fn before_in<'a, D: Alter>(
    alloc: Global,
    job: &Job<'a>,
    inputs: &[Input<'a>],
    conn: &mut Connection<D>,
    contents: Contents,
) -> Result<Before, Trouble<'a>>
    ensures contents { IfOk result (λ before. before.contents ≡ contents) }

    // If the database is empty: the balance is empty, the columns of movements are `article` and `change`, and no column has dates or notes.
    ensures empty { contents ≡ Contents.Empty → IfOk result (λ before. before.balance.items ≡ []) }
    ensures new { contents ≡ Contents.Empty → IfOk result (λ before. kept_names before.columns ≡ plain_names) }
    ensures no_extras { contents ≡ Contents.Empty → IfOk result (λ before. kept_extras before.extras ≡ no_extras) }

    // The articles of the balance are in ascending order, each once.
    ensures rising { IfOk result (λ before. Rises before.balance.items) }

    // No file is entered twice, unless the job says so. A stock doesn't begin twice.
    ensures once { job.now.enters_again ≡ false → IfOk result (λ before. AreNew inputs.now before.batches.items) }
    ensures begun { IfOk result (λ _. IfStock contents (λ _. job.now.from ≡ None)) }
{
    let batches = batches_before(alloc, job, inputs, conn, contents)?;
    let Contents::Stock(_) = contents else {
        return Ok(Before {
            contents,
            balance: Vec::new(alloc),
            columns: KeptColumns::copy_of(alloc, plain_columns())?,
            extras: KeptExtras {
                date: None,
                note: None,
            },
            batches,
        });
    };
    let db = job.db;
    let balance = in_database(alloc, db, balance_of(alloc, conn))?;
    Ok(Before {
        contents,
        balance,
        columns: kept_columns(alloc, db, conn)?,
        extras: kept_extras(alloc, db, conn)?,
        batches,
    })
}
