//! A batch that is taken back, in an open database. Only [`found_in`] makes a `Found`, so a `Found` is what was read from the database.
ghost use Rattle.std.specs.Prelude.{◌≡◌, All, IfOk, string_cmp};
ghost use Rattle.std.specs.String.{string_eq};
ghost use Rattle.hashbag_ledger_db.specs.Undone.{IsUndoOf, IsUndone, IsUndoPut, MayBeUndone};
ghost use Rattle.hashbag_ledger_lib.specs.Changes.{Rises};
ghost use Rattle.hashbag_ledger_lib.specs.Kinds.{Undoes};
ghost use Rattle.hashbag_ledger_lib.specs.Settled.{listed};
ghost use Rattle.hashbag_ledger_lib.specs.Undos.{EntersOrRefuses, IsChangedBy, IsUndo};

use crate::job::Job;
use crate::messages::{entered_text, movements_in};
use crate::putting::{in_database, put as put_in};
use crate::stages::{Stage, Stages};
use crate::stock::reading::{EnteredBatch, balance_of, batches_of, entered_of, time_of};
use crate::stock::statements::NewRows;
use crate::troubles::{start_too_many, too_large, undone_before};
use crate::wanted::wanted_of;
use hashbag_ledger_lib::entering::LedgerError;
use hashbag_ledger_lib::extras::{Extra, opposite_extras};
use hashbag_ledger_lib::ledger::booking::Booked;
use hashbag_ledger_lib::listings::refusals_text;
use hashbag_ledger_lib::movements::{Entry, Movement, Refusal};
use hashbag_ledger_lib::once::{Batch, Kind, next_number, undone_by};
use hashbag_ledger_lib::pairs::unzip;
use hashbag_ledger_lib::rows::RowChange;
use hashbag_ledger_lib::sealing::{Draft, sealed_rows};
use hashbag_ledger_lib::style::Style;
use hashbag_ledger_lib::undoing::{Undo, undo_batch};
use hashbag_shell::status::{DENIED, DONE};
use hashbag_shell::trouble::Trouble;
use sqlite::{Alter, Connection};
use std::alloc::{AllocError, Global};
use std::hash::BuildHasher;

// What the row of an undo is made of, other than its movements.
#[derive(Drop)]
struct Source {
    // The file of the batch that is undone.
    file: String,
    // All batches, in turn.
    batches: Vec<Batch>,
    // The current time.
    time: String,
}

/// A batch that may be undone, and the balance, as they were read from a database.
#[derive(Drop)]
pub struct Found {
    // The movements of the batch.
    entered: EnteredBatch,
    // The balance, articles in ascending order.
    balance: Vec<(String, usize)>,
    source: Source,
}

// Returns the batch that is asked for, if no batch undoes it.
fn undoable<'a, 'b>(
    alloc: Global,
    job: &Job<'a>,
    batches: &'b [Batch],
) -> Result<&'b Batch, Trouble<'a>>
    ensures { IfOk result (λ batch. All (λ b. ¬ (Undoes batch.now.number b)) batches.now) }
{
    let batch = wanted_of(alloc, job, batches)?;
    match undone_by(batches, batch.number) {
        Some(other) => Err(undone_before(alloc, job.db, batch.number, other.number)),
        None => Ok(batch),
    }
}

/// Reads the batch that is asked for from an open database, and the balance.
///
/// # Errors
///
/// Why the batch may not be undone, or why the database can't be read.
pub fn found_in<'a, D: Alter>(
    alloc: Global,
    job: &Job<'a>,
    conn: &mut Connection<D>,
) -> Result<Found, Trouble<'a>>
    // No batch undoes it. So no batch is undone twice.
    ensures { IfOk result MayBeUndone }
{
    let db = job.db;
    let batches = in_database(alloc, db, batches_of(alloc, conn))?;
    let batch = undoable(alloc, job, &batches)?;
    let file = batch.file.clone()?;
    let entered = in_database(alloc, db, entered_of(alloc, conn, batch.number))?;
    Ok(Found {
        entered,
        balance: in_database(alloc, db, balance_of(alloc, conn))?,
        source: Source {
            file,
            batches,
            time: in_database(alloc, db, time_of(conn))?,
        },
    })
}

// Returns the row of the batch of an undo. `number` is the number of the batch that is undone.
fn rows_of_undo(
    alloc: Global,
    style: Style,
    number: i64,
    source: &Source,
    entries: &[Entry<String>],
    extras: &[Extra],
) -> Result<Vec<Batch>, AllocError>
    ensures { IfOk result (λ rows. IsUndoOf number rows.items) }
{
    let draft = Draft {
        number: next_number(&source.batches),
        file: source.file.as_str(),
        sha256: "",
        kind: Kind::Undo(number),
        time: source.time.as_str(),
        movements: entries.len() as u64,
    };
    let rows = sealed_rows(alloc, style.scale, [draft].as_slice(), entries, extras)?;
    Ok(rows)
}

// Writes the undo of the batch of this number, and returns the message about the batch of the undo.
fn put<'a, D: Alter>(
    alloc: Global,
    conn: &mut Connection<D>,
    db: &'a str,
    style: Style,
    number: i64,
    source: &Source,
    booked: &Booked<String>,
    extras: &[Extra],
    changed: &[RowChange],
) -> Result<String, Trouble<'a>>
    ensures { IfOk result (λ _. IsUndoPut D.Store number booked.now changed.now conn.old conn.new) }
{
    let before = movements_in(&source.batches);
    let entries = &booked.entries;
    let batches = rows_of_undo(alloc, style, number, source, entries, extras)?;
    let message = entered_text(alloc, db, before, &batches)?;
    let new = NewRows {
        first: before.saturating_add(1),
        batches: &batches,
        entries,
        extras,
        changed,
    };
    put_in(alloc, db, conn, None, new)?;
    Ok(message)
}

// Undoes these movements in a stock with this balance, all or none. Returns the undo, and the changes of the balance's rows.
fn booked_of<'a, S: BuildHasher + Drop>(
    alloc: Global,
    state: S,
    job: &Job<'a>,
    style: Style,
    file: &str,
    kept: &[(String, usize)],
    entered: Vec<Movement<String>>,
) -> Result<(Undo<String>, Vec<RowChange>), Trouble<'a>>
    ensures undo { IfOk result (λ u. IsUndo string_eq string_cmp (listed string_eq kept.now) entered.items u.0) }
    ensures entries { IfOk result (λ u. EntersOrRefuses string_eq kept.now entered.items u.0) }
    ensures changed { IfOk result (λ u. Rises kept.now → IsChangedBy kept.now u.0 u.1.items) }
{
    match undo_batch(alloc, state, kept, entered) {
        Ok(undone) => Ok(undone),
        Err(LedgerError::TooMany(place)) => {
            Err(too_large(alloc, file, place.line, job.reading(style)))
        }
        Err(LedgerError::StartTooMany) => Err(start_too_many(alloc, job.db)),
        Err(LedgerError::Memory) => Err(Trouble::Memory),
    }
}

/// What is written of an undo.
#[derive(Drop)]
pub struct UndoReport {
    /// The refusals.
    pub refusals: String,
    /// The message about the batch that was entered.
    pub message: String,
    /// The status with which the program ends.
    pub status: u8,
}

// Returns the report of an undo that was refused. `file` is the file of the batch that was to be undone.
fn denied(
    alloc: Global,
    job: &Job<'_>,
    style: Style,
    file: &str,
    refusals: Vec<Refusal<String>>,
) -> Result<UndoReport, AllocError>
    ensures { IfOk result (λ report. report.status ≡ 1) }
{
    let scale = job.reading(style).scale;
    Ok(UndoReport {
        refusals: refusals_text(alloc, [file].as_slice(), scale, &refusals)?,
        message: String::new(alloc),
        status: DENIED,
    })
}

/// Takes the batch back that was found in an open database, and returns the report.
///
/// # Errors
///
/// Why the batch can't be taken back.
pub fn undo_in<'a, D: Alter, S: BuildHasher + Drop, G: Stages>(
    alloc: Global,
    state: S,
    stages: &G,
    job: &Job<'a>,
    style: Style,
    conn: &mut Connection<D>,
    found: Found,
) -> Result<UndoReport, Trouble<'a>>
    // Status 0: the opposites of the movements of the batch are entered, and the batch of the undo and what it changes in the balance are written.
    // Status 1: an article would fall below zero, and nothing is written.
    ensures { IfOk result (λ report. IsUndone D.Store found conn.old conn.new report.status) }
{
    let Found {
        entered,
        balance,
        source,
    } = found;
    let (number, file) = (entered.batch(), source.file.as_str());
    let movements = entered.movements();
    let extras = opposite_extras(alloc, &movements)?;
    let (movements, _) = unzip(alloc, movements)?;
    stages.begin(Stage::Booking(movements.len()));
    let (undo, changed) = booked_of(alloc, state, job, style, file, &balance, movements)?;
    match undo {
        Undo::Refused(refusals) => Ok(denied(alloc, job, style, file, refusals)?),
        Undo::Done(booked) => {
            stages.begin(Stage::Writing);
            let db = job.db;
            let message = put(
                alloc, conn, db, style, number, &source, &booked, &extras, &changed,
            )?;
            Ok(UndoReport {
                refusals: String::new(alloc),
                message,
                status: DONE,
            })
        }
    }
}
