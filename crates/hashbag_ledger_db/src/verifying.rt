//! A stock that is counted again from all its movements. Only [`kept_in`] makes a `Kept`, so a `Kept` is what was read from the database.
ghost use Rattle.std.specs.Prelude.{◌≡◌, ◌↔◌, IfOk, IsNone};
ghost use Rattle.hashbag_ledger_db.specs.Verified.{AgreesWithMovements, AreAsBooked, IsTrueOf};
ghost use Rattle.hashbag_ledger_lib.specs.Rows.{rows_of};

use crate::job::Job;
use crate::putting::in_database;
use crate::stages::{Stage, Stages};
use crate::stock::reading::{balance_of, batches_of, movements_of, refusals_of};
use hashbag_csv::counts::Reading;
use hashbag_csv::decimals::write_decimal;
use hashbag_csv::escaped::Escaped;
use hashbag_ledger_lib::entering::LedgerError;
use hashbag_ledger_lib::extras::Extra;
use hashbag_ledger_lib::ledger::booking::{Booked, book_batch, refusals_from};
use hashbag_ledger_lib::numbers::MOST;
use hashbag_ledger_lib::once::Batch;
use hashbag_ledger_lib::sealing::wrong_seal;
use hashbag_ledger_lib::style::Style;
use hashbag_ledger_lib::verifying::{
    KeptMovement, KeptRefusal, movements_from, wrong_batch, wrong_number, wrong_refusal,
};
use hashbag_shell::trouble::Trouble;
use sqlite::{Alter, Connection};
use std::alloc::{AllocError, Global};
use std::hash::BuildHasher;

/// All that a stock keeps.
#[derive(Drop)]
pub struct Kept {
    // All movements, in turn; `place.file` is the number of the movement.
    movements: Vec<KeptMovement>,
    // All refusals, in turn.
    refusals: Vec<KeptRefusal>,
    // The balance, articles in ascending order.
    balance: Vec<(String, usize)>,
    // All batches, in turn.
    batches: Vec<Batch>,
}

/// Returns all that an open database keeps of a stock.
///
/// # Errors
///
/// Why it can't be read.
pub fn kept_in<'a, D: Alter>(
    alloc: Global,
    db: &'a str,
    conn: &mut Connection<D>,
) -> Result<Kept, Trouble<'a>> {
    Ok(Kept {
        movements: in_database(alloc, db, movements_of(alloc, conn))?,
        refusals: in_database(alloc, db, refusals_of(alloc, conn))?,
        balance: in_database(alloc, db, balance_of(alloc, conn))?,
        batches: in_database(alloc, db, batches_of(alloc, conn))?,
    })
}

// Returns the first article whose row of the balance isn't what the movements make.
fn wrong_article(
    alloc: Global,
    reading: Reading,
    balance: &[(String, usize)],
    counted: &[(String, usize)],
) -> Result<Option<String>, AllocError>
    ensures { IfOk result (λ wrong. IsNone wrong ↔ (rows_of balance.now ≡ rows_of counted.now)) }
{
    let Some(wrong) = wrong_number(balance, counted) else {
        return Ok(None);
    };
    let article = Escaped(wrong.article);
    let stored = write_decimal(alloc, wrong.kept, reading.scale)?;
    let counted = write_decimal(alloc, wrong.counted, reading.scale)?;
    Ok(Some(format!(in alloc; "\"{article}\": {stored} kept, {counted} by the movements")?))
}

// Returns a message about the first row that isn't as it was written, or isn't what the movements make.
fn wrong_row(
    alloc: Global,
    reading: Reading,
    style: Style,
    batches: &[Batch],
    balance: &[(String, usize)],
    refusals: &[KeptRefusal],
    extras: &[Extra],
    booked: Booked<String>,
) -> Result<Option<String>, AllocError>
    ensures { IfOk result (λ wrong. IsNone wrong → AreAsBooked style.scale batches.now balance.now refusals.now extras.now booked) }
{
    if let Some(message) = wrong_article(alloc, reading, balance, &booked.balance)? {
        return Ok(Some(message));
    }
    if let Some(number) = wrong_seal(alloc, style.scale, batches, &booked.entries, extras)? {
        return Ok(Some(format!(in alloc;
            "batch {number}: not as it was entered: the scale, its row, or a row of its movements was changed"
        )?));
    }
    match wrong_refusal(refusals, &refusals_from(alloc, booked.entries)?) {
        Some(number) => Ok(Some(format!(in alloc;
            "movement {number}: another refusal than by the movements"
        )?)),
        None => Ok(None),
    }
}

// Returns the message that the total passes the maximum with the movement of this number.
fn past_the_most(alloc: Global, reading: Reading, number: usize) -> Result<String, AllocError> {
    let most = write_decimal(alloc, MOST, reading.scale)?;
    format!(in alloc; "movement {number}: total past {most}")
}

// Returns the first way in which the stock differs from its movements, or `None` if it agrees.
fn difference_of<'a, S: BuildHasher + Drop>(
    alloc: Global,
    state: S,
    kept: Kept,
    style: Style,
    reading: Reading,
) -> Result<Option<String>, Trouble<'a>>
    ensures { IfOk result (λ wrong. IsNone wrong → AgreesWithMovements style.scale kept) }
{
    let Kept {
        movements,
        refusals,
        balance,
        batches,
    } = kept;
    if let Some(number) = wrong_batch(&batches, &movements, &refusals) {
        return Ok(Some(format!(in alloc;
            "batch {number}: other numbers of movements than it has"
        )?));
    }
    let (movements, extras) = movements_from(alloc, movements)?;
    match book_batch(alloc, state, Vec::new(alloc), movements) {
        Ok(booked) => {
            Ok(wrong_row(
                alloc, reading, style, &batches, &balance, &refusals, &extras, booked,
            )?)
        }
        Err(LedgerError::TooMany(place)) => Ok(Some(past_the_most(alloc, reading, place.file)?)),
        Err(_) => Err(Trouble::Memory),
    }
}

// Returns a number with its noun. The noun ends in `ending` unless the number is 1.
fn counted(alloc: Global, number: usize, noun: &str, ending: &str) -> Result<String, AllocError> {
    let ending = if number == 1 { "" } else { ending };
    format!(in alloc; "{number} {noun}{ending}")
}

// Returns the message about a stock that agrees with its movements.
fn agreement(
    alloc: Global,
    batches: usize,
    movements: usize,
    refused: usize,
) -> Result<String, AllocError> {
    let batches = counted(alloc, batches, "batch", "es")?;
    let movements = counted(alloc, movements, "movement", "s")?;
    format!(in alloc;
        "{batches}, {movements}, {refused} of them refused: the balance and the refusals agree\n"
    )
}

/// The message about a stock: that it agrees with its movements, or the first way in which it doesn't.
#[derive(Drop)]
pub enum Verdict {
    /// The balance, the refusals and the seals agree with the movements.
    Agrees(String),
    /// The first difference.
    Differs(String),
}

/// Counts all movements of a stock again, and compares the balance, the refusals and the seals that are kept.
///
/// # Errors
///
/// An allocation fails.
pub fn verdict_of<'a, S: BuildHasher + Drop, G: Stages>(
    alloc: Global,
    state: S,
    stages: &G,
    job: &Job<'a>,
    style: Style,
    kept: Kept,
) -> Result<Verdict, Trouble<'a>>
    // `Agrees` only if each batch has the movements that its row says, and its seal, and the movements, entered again, leave the balance and the
    // refusals that are kept.
    ensures { IfOk result (IsTrueOf style.scale kept) }
{
    let db = job.db;
    stages.begin(Stage::Booking(kept.movements.len()));
    let message = agreement(
        alloc,
        kept.batches.len(),
        kept.movements.len(),
        kept.refusals.len(),
    )?;
    match difference_of(alloc, state, kept, style, job.reading(style))? {
        Some(what) => Ok(Verdict::Differs(format!(in alloc; "{db}: {what}\n")?)),
        None => Ok(Verdict::Agrees(message)),
    }
}
