//! The statements by which a run writes a stock. In clauses, `text_of` is the text of a statement, and `values_of` its parameters.
ghost use Rattle.std.specs.Prelude.{◌≡◌, ◌+◌, ◌++◌, [], None, map, option_copied, IfOk, OnOk};
ghost use Rattle.hashbag_ledger_db.specs.Statements.{AreRunsOf, batch_runs, changed as changed_run, entry_run, entry_runs, runs_of};

use crate::stock::error::{StockError, TOO_LARGE};
use crate::stock::tables::{TABLES, VERSION, delimiter_name, mark_name};
use hashbag_ledger_lib::extras::{Extra, ExtraColumns};
use hashbag_ledger_lib::movements::{Entry, Movement, Outcome};
use hashbag_ledger_lib::once::Batch;
use hashbag_ledger_lib::rows::RowChange;
use hashbag_ledger_lib::sealing::cut;
use hashbag_ledger_lib::style::Style;
use std::alloc::{AllocError, Global};

/// What one run of a subcommand writes.
#[derive(Clone, Copy)]
pub struct NewRows<'a> {
    /// The number of the first movement.
    pub first: u64,
    /// The rows of the run's batches, in turn.
    pub batches: &'a [Batch],
    /// The movements of all batches, in turn, each with what became of it: for each batch as many as its row says.
    pub entries: &'a [Entry<String>],
    /// The dates and notes of the same movements; empty if no movement has a date or a note.
    pub extras: &'a [Extra],
    /// The changes of the rows of the balance, after all batches.
    pub changed: &'a [RowChange],
}

/// What a new stock keeps of the call that creates it.
#[derive(Clone, Copy)]
pub struct NewStock<'a> {
    /// How the files of the stock are written.
    pub style: Style,
    /// The names of the columns of movements, with commas between them.
    pub columns: &'a str,
    /// The names of the columns of dates and of notes, if there are any.
    pub extras: ExtraColumns<&'a str>,
}

/// A movement that is written.
#[derive(Clone, Copy)]
pub struct NewMovement<'a> {
    /// Its number.
    pub number: u64,
    /// The number of its batch.
    pub batch: i64,
    /// The movement.
    pub movement: &'a Movement<String>,
    /// Its date and its note, if it may have them.
    pub extra: Option<&'a Extra>,
}

/// A statement, with what its parameters are made of.
#[derive(Clone, Copy)]
pub enum Statement<'a> {
    /// Creates a table by this text.
    Create(&'a str),
    /// Keeps a number under a name.
    KeepNumber(&'a str, u32),
    /// Keeps a text under a name.
    Keep(&'a str, &'a str),
    /// Adds a batch.
    Batch(&'a Batch),
    /// Adds a movement.
    Movement(NewMovement<'a>),
    /// Adds the refusal of the movement of this number, with how many of its article there were.
    Refusal(u64, usize),
    /// Changes a row of the balance.
    Row(&'a RowChange),
}

// Appends what a new stock keeps of the call that creates it.
fn push_kept<'a>(list: &mut Vec<Statement<'a>>, stock: NewStock<'a>) -> Result<(), AllocError> {
    list.push(Statement::KeepNumber("hashbag_ledger", VERSION))?;
    list.push(Statement::KeepNumber("scale", stock.style.scale))?;
    list.push(Statement::Keep("mark", mark_name(stock.style.mark)))?;
    list.push(Statement::Keep("delimiter", delimiter_name(stock.style.delimiter)))?;
    list.push(Statement::Keep("columns", stock.columns))?;
    if let Some(date) = stock.extras.date {
        list.push(Statement::Keep("date", date))?;
    }
    if let Some(note) = stock.extras.note {
        list.push(Statement::Keep("note", note))?;
    }
    Ok(())
}

// Returns the sum of two numbers.
fn sum_of(first: u64, second: u64) -> Result<u64, StockError>
    ensures { IfOk result (λ sum. sum ≡ first + second) }
{
    first
        .checked_add(second)
        .ok_or(StockError::Damaged(TOO_LARGE))
}

// Appends a movement of the batch of this number, with its date and its note if it may have them, and its refusal if it was refused.
fn push_entry<'a>(
    list: &mut Vec<Statement<'a>>,
    number: u64,
    batch: i64,
    entry: &'a Entry<String>,
    extra: Option<&'a Extra>,
) -> Result<(), AllocError>
    ensures { OnOk result (runs_of list.new.items ≡ runs_of list.old.items ++ entry_run number batch entry.now (option_copied extra.entry)) }
{
    list.push(Statement::Movement(NewMovement {
        number,
        batch,
        movement: &entry.movement,
        extra,
    }))?;
    match entry.outcome {
        Outcome::Refused { there } => {
            list.push(Statement::Refusal(number, there))?;
            Ok(())
        }
        Outcome::Entered { .. } => Ok(()),
    }
}

// Appends the movements of the batch of this number. `first` is the number of the first movement.
fn push_entries<'a>(
    list: &mut Vec<Statement<'a>>,
    first: u64,
    batch: i64,
    entries: &'a [Entry<String>],
    extras: &'a [Extra],
) -> Result<(), StockError>
    ensures { OnOk result (runs_of list.new.items ≡ runs_of list.old.items ++ entry_runs first batch entries.now extras.now) }
{
    for i in 0..entries.len() {
        let number = sum_of(first, i as u64)?;
        push_entry(list, number, batch, &entries[i], extras.get(i))?;
    }
    Ok(())
}

// Appends the batches, each with its movements. `first` is the number of the first movement.
fn push_batches<'a>(list: &mut Vec<Statement<'a>>, new: NewRows<'a>) -> Result<(), StockError>
    ensures { OnOk result (runs_of list.new.items ≡ runs_of list.old.items ++ batch_runs new.entry.first new.entry.batches.now new.entry.entries.now new.entry.extras.now) }
{
    let (mut left, mut left_extras, mut first) = (new.entries, new.extras, new.first);
    for row in new.batches {
        let (own, later) = cut(left, row.movements);
        let (own_extras, later_extras) = cut(left_extras, row.movements);
        list.push(Statement::Batch(row))?;
        push_entries(list, first, row.number, own, own_extras)?;
        left = later;
        left_extras = later_extras;
        first = sum_of(first, row.movements)?;
    }
    Ok(())
}

// Appends the changes of the balance.
fn push_rows<'a>(list: &mut Vec<Statement<'a>>, changed: &'a [RowChange]) -> Result<(), AllocError>
    ensures { OnOk result (runs_of list.new.items ≡ runs_of list.old.items ++ map changed_run changed.now) }
{
    for change in changed {
        list.push(Statement::Row(change))?;
    }
    Ok(())
}

// Returns the statements that create the tables of a new stock, and keep what it keeps.
fn created_by<'a>(
    alloc: Global,
    new_stock: Option<NewStock<'a>>,
) -> Result<Vec<Statement<'a>>, AllocError>
    ensures { IfOk result (λ list. new_stock.entry ≡ None → list.items ≡ []) }
{
    let mut list = Vec::new(alloc);
    if let Some(stock) = new_stock {
        for text in &TABLES {
            list.push(Statement::Create(*text))?;
        }
        push_kept(&mut list, stock)?;
    }
    Ok(list)
}

/// Returns the statements of one run, in turn: the tables of a new stock, what it keeps, each batch with its movements and their refusals, and
/// the changes of the balance.
///
/// # Errors
///
/// `Damaged` if a number is too large, `Memory` if an allocation fails.
pub fn statements_of<'a>(
    alloc: Global,
    new_stock: Option<NewStock<'a>>,
    new: NewRows<'a>,
) -> Result<Vec<Statement<'a>>, StockError>
    // Behind what creates a new stock: for each batch its row, each of its movements, in turn, and each refusal; and then the changes of the balance.
    ensures { IfOk result (λ list. AreRunsOf new_stock.entry new.entry (runs_of list.items)) }
{
    let mut list = created_by(alloc, new_stock)?;
    push_batches(&mut list, new)?;
    push_rows(&mut list, new.changed)?;
    Ok(list)
}
