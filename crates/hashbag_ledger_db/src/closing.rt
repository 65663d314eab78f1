//! A stock that is closed: a new stock begins with its balance, in an open database.
use crate::before::{before_in, kept_columns, kept_extras};
use crate::columns::{KeptColumns, KeptExtras, columns_text};
use crate::entering::{Ready, filed_of, new_stock_of, write};
use crate::job::Job;
use crate::movements::{Input, input_of};
use crate::putting::in_database;
use crate::stages::Stages;
use crate::stock::reading::balance_of;
use crate::stock::tables::Contents;
use hashbag_csv::forms::{Form, rows_text};
use hashbag_ledger_lib::listings::{Balance, NAMES};
use hashbag_ledger_lib::style::Style;
use hashbag_shell::trouble::Trouble;
use sqlite::{Alter, Connection};
use std::alloc::Global;
use std::hash::BuildHasher;

/// What a closed stock leaves to the new stock.
#[derive(Drop)]
pub struct Closed {
    /// The style of the closed stock.
    pub style: Style,
    /// The columns of movements that it keeps.
    pub columns: KeptColumns,
    /// The columns of dates and of notes that it keeps.
    pub extras: KeptExtras,
    /// Its balance.
    pub balance: Vec<(String, usize)>,
}

/// Returns what an open stock leaves to the new stock.
///
/// # Errors
///
/// Why it can't be read.
pub fn closed_in<'a, D: Alter>(
    alloc: Global,
    job: &Job<'a>,
    style: Style,
    conn: &mut Connection<D>,
) -> Result<Closed, Trouble<'a>> {
    let db = job.db;
    Ok(Closed {
        style,
        columns: kept_columns(alloc, db, conn)?,
        extras: kept_extras(alloc, db, conn)?,
        balance: in_database(alloc, db, balance_of(alloc, conn))?,
    })
}

/// Returns the balance of a closed stock as an input of the new stock. Its text is CSV, and is entered like the text of a file.
///
/// # Errors
///
/// An allocation fails.
pub fn beginning_of<'a>(
    alloc: Global,
    job: &Job<'a>,
    closed: &Closed,
) -> Result<Input<'a>, Trouble<'a>> {
    let reading = job.reading(closed.style);
    let listing = Balance(NAMES, reading.scale);
    let text = rows_text(
        alloc,
        Form::Csv,
        reading.delimiter,
        &listing,
        &closed.balance,
    )?;
    input_of(alloc, job.db, text, None, true)
}

/// Writes the first batch of a new database. The new database keeps the style and the columns of the closed one, except for what the job names.
///
/// # Errors
///
/// Why it isn't written.
pub fn begin_in<'a, D: Alter, S: BuildHasher + Drop, G: Stages>(
    alloc: Global,
    state: S,
    job: &Job<'a>,
    closed: &Closed,
    inputs: &[Input<'a>],
    conn: &mut Connection<D>,
    stages: &G,
) -> Result<(), Trouble<'a>> {
    let (contents, db) = (Contents::Empty, job.into);
    let reading = job.reading(closed.style);
    let columns = job.columns_or(closed.columns.names());
    let ready = Ready {
        before: before_in(alloc, job, inputs, conn, contents)?,
        filed: filed_of(alloc, state, job, inputs, columns, reading, &[], stages)?,
    };
    let style = job.style(closed.style);
    let text = columns_text(alloc, columns)?;
    let extras = job.extras_or(closed.extras.names());
    let new_stock = new_stock_of(contents, style, text.as_str(), extras);
    write(
        alloc,
        conn,
        db,
        style,
        new_stock,
        inputs,
        &[],
        &ready,
        stages,
    )?;
    Ok(())
}
