//! What is shown of a stock: its balance, the history of an article, the batches, and the movements of a batch.
ghost use Rattle.std.specs.Prelude.{◌≡◌, Ok, IfOk};

use crate::job::Job;
use crate::messages::{absent_text, unmoved_text};
use crate::putting::in_database;
use crate::stock::reading::{
    balance_of, batches_of, dated_movements_of, movements_of_article, movements_until,
};
use crate::troubles::{moved_too_much, no_day, start_too_many};
use crate::wanted::wanted_of;
use hashbag_csv::counts::Reading;
use hashbag_csv::forms::{Form, rows_text};
use hashbag_csv::scale::{Mark, Scale};
use hashbag_ledger_lib::dated::{DatedError, balance_at};
use hashbag_ledger_lib::dates::is_date;
use hashbag_ledger_lib::entering::LedgerError;
use hashbag_ledger_lib::listings::{Batches, DayBalance, History, Movements, rows_of};
use hashbag_ledger_lib::movements::{Change, Entry};
use hashbag_ledger_lib::numbers::size_of;
use hashbag_ledger_lib::recalling::{recall, recall_batch};
use hashbag_ledger_lib::style::Style;
use hashbag_shell::trouble::Trouble;
use sqlite::{Alter, Connection};
use std::alloc::{AllocError, Global};
use std::hash::BuildHasher;

/// A table, and the message with it.
#[derive(Drop)]
pub struct Shown {
    /// The table.
    pub table: Vec<u8>,
    /// The message about what isn't there; empty if all is there.
    pub message: String,
}

// Returns the number of an article.
fn number_of(rows: &[(&str, Change)], article: &str) -> Change {
    for row in rows {
        if row.0 == article {
            return row.1;
        }
    }
    Change::In(0)
}

// Returns the rows of these articles, in ascending order, each once.
fn chosen_of<'b>(
    alloc: Global,
    rows: &[(&'b str, Change)],
    articles: &[&'b str],
) -> Result<Vec<(&'b str, Change)>, AllocError> {
    let mut names: Vec<&'b str> = Vec::new(alloc);
    for article in articles {
        if names.iter().all(|name| *name != *article) {
            names.push(*article)?;
        }
    }
    names.sort_unstable();
    let mut chosen = Vec::new(alloc);
    for name in &names {
        let row: (&'b str, Change) = (*name, number_of(rows, *name));
        chosen.push(row)?;
    }
    Ok(chosen)
}

// Returns the rows whose number isn't 0.
fn rows_with_some<'b>(
    alloc: Global,
    rows: &[(&'b str, Change)],
) -> Result<Vec<(&'b str, Change)>, AllocError> {
    let mut some = Vec::new(alloc);
    for row in rows {
        if size_of(row.1) > 0 {
            let one: (&'b str, Change) = (row.0, row.1);
            some.push(one)?;
        }
    }
    Ok(some)
}

// Returns how the job's form is written. A number of JSON has a point, whatever mark the stock has.
fn reading_of(job: &Job<'_>, style: Style) -> Reading {
    let mut reading = job.reading(style);
    if job.form == Form::Json {
        reading.scale = Scale::new(style.scale, Mark::Point).unwrap_or(reading.scale);
    }
    reading
}

// Returns what is shown of a balance: all its rows, or the rows of the job's articles. The message names the articles that aren't in the
// balance.
fn shown_of(
    alloc: Global,
    job: &Job<'_>,
    style: Style,
    rows: Vec<(&str, Change)>,
) -> Result<Shown, AllocError> {
    let message = absent_text(alloc, job.db, &rows, &job.articles)?;
    let reading = reading_of(job, style);
    let balance = DayBalance(reading.scale);
    let table = if job.articles.is_empty() {
        rows_text(alloc, job.form, reading.delimiter, &balance, &rows)?
    } else {
        let chosen = chosen_of(alloc, &rows, &job.articles)?;
        rows_text(alloc, job.form, reading.delimiter, &balance, &chosen)?
    };
    Ok(Shown { table, message })
}

/// Returns the balance of an open database, or the numbers of the job's articles. The message names the articles that aren't in the balance.
///
/// # Errors
///
/// Why the balance can't be read.
pub fn balance_in<'a, D: Alter>(
    alloc: Global,
    job: &Job<'a>,
    style: Style,
    conn: &mut Connection<D>,
) -> Result<Shown, Trouble<'a>> {
    let all = in_database(alloc, job.db, balance_of(alloc, conn))?;
    Ok(shown_of(alloc, job, style, rows_of(alloc, &all)?)?)
}

/// Returns the balance of an open database on a day, or the numbers of the job's articles on that day. The message names the articles that
/// aren't in that balance. A number may be below 0.
///
/// # Errors
///
/// That the day is no date, that more than `usize::MAX` was moved up to that day, or why the movements can't be read.
pub fn balance_at_in<'a, D: Alter, S: BuildHasher + Copy + Drop>(
    alloc: Global,
    state: S,
    job: &Job<'a>,
    style: Style,
    conn: &mut Connection<D>,
    date: &str,
) -> Result<Shown, Trouble<'a>> {
    if !is_date(date) {
        return Err(no_day(alloc, "--at"));
    }
    let db = job.db;
    let movements = in_database(alloc, db, dated_movements_of(alloc, conn))?;
    let entries = recalled_in(alloc, db, recall(alloc, state, movements))?;
    match balance_at(alloc, state, date, &entries) {
        Ok(all) => {
            let rows = rows_with_some(alloc, &all)?;
            Ok(shown_of(alloc, job, style, rows)?)
        }
        Err(DatedError::Memory) => Err(Trouble::Memory),
        Err(DatedError::MovedTooMuch) => Err(moved_too_much(alloc, db)),
    }
}

// Returns what became of movements of a database, each with what it carries along, or the error as the trouble of a program.
fn recalled_in<'a, X>(
    alloc: Global,
    db: &str,
    recalled: Result<Vec<(Entry<String>, X)>, LedgerError>,
) -> Result<Vec<(Entry<String>, X)>, Trouble<'a>>
    ensures { IfOk result (λ entries. recalled ≡ Ok entries) }
{
    match recalled {
        Ok(entries) => Ok(entries),
        Err(LedgerError::Memory) => Err(Trouble::Memory),
        // Movements that were entered never pass the limit, so any other error means a damaged database.
        Err(_) => Err(start_too_many(alloc, db)),
    }
}

/// Returns the movements of the batch that is asked for, in an open database.
///
/// # Errors
///
/// That there is no such batch, or why the movements can't be read.
pub fn show_in<'a, D: Alter, S: BuildHasher + Drop>(
    alloc: Global,
    state: S,
    job: &Job<'a>,
    style: Style,
    conn: &mut Connection<D>,
) -> Result<Shown, Trouble<'a>> {
    let db = job.db;
    let batches = in_database(alloc, db, batches_of(alloc, conn))?;
    let number = wanted_of(alloc, job, &batches)?.number;
    let movements = in_database(alloc, db, movements_until(alloc, conn, number))?;
    let batch = number.unsigned_abs() as usize;
    let entries = recalled_in(alloc, db, recall_batch(alloc, state, movements, batch))?;
    let reading = reading_of(job, style);
    let movements = Movements(reading.scale);
    let table = rows_text(alloc, job.form, reading.delimiter, &movements, &entries)?;
    let message = String::new(alloc);
    Ok(Shown { table, message })
}

/// Returns the movements of an article in an open database. If there are none, the message says so.
///
/// # Errors
///
/// Why they can't be read.
pub fn history_in<'a, D: Alter, S: BuildHasher + Drop>(
    alloc: Global,
    state: S,
    job: &Job<'a>,
    style: Style,
    conn: &mut Connection<D>,
) -> Result<Shown, Trouble<'a>> {
    let article = job.articles.first().copied().unwrap_or("");
    let db = job.db;
    let batches = in_database(alloc, db, batches_of(alloc, conn))?;
    let movements = in_database(alloc, db, movements_of_article(alloc, conn, article))?;
    let message = if movements.is_empty() {
        let balance = in_database(alloc, db, balance_of(alloc, conn))?;
        unmoved_text(alloc, db, &rows_of(alloc, &balance)?, article)?
    } else {
        String::new(alloc)
    };
    let entries = recalled_in(alloc, db, recall(alloc, state, movements))?;
    let reading = reading_of(job, style);
    let history = History(reading.scale, &batches);
    let table = rows_text(alloc, job.form, reading.delimiter, &history, &entries)?;
    Ok(Shown { table, message })
}

/// Returns the batches of an open database.
///
/// # Errors
///
/// Why they can't be read.
pub fn batches_in<'a, D: Alter>(
    alloc: Global,
    job: &Job<'a>,
    style: Style,
    conn: &mut Connection<D>,
) -> Result<Shown, Trouble<'a>> {
    let batches = in_database(alloc, job.db, batches_of(alloc, conn))?;
    let reading = reading_of(job, style);
    let table = rows_text(alloc, job.form, reading.delimiter, &Batches, &batches)?;
    let message = String::new(alloc);
    Ok(Shown { table, message })
}
