//! A stock that is counted, in an open database.
ghost use Rattle.std.specs.Prelude.{◌≡◌, true, IfOk};
ghost use Rattle.hashbag_ledger_db.specs.Counted.{AreRecordsOf, IsCountedAs, IsCountOf};
ghost use Rattle.hashbag_ledger_lib.specs.Changes.{Rises};

use crate::before::entered_twice;
use crate::columns::plain_columns;
use crate::job::Job;
use crate::messages::{entered_text, misspelt_text, movements_in};
use crate::movements::{Input, extras_on, input_of, read};
use crate::putting::{in_database, put};
use crate::stages::{Stage, Stages};
use crate::stock::reading::{balance_of, batches_of, time_of};
use crate::stock::statements::NewRows;
use crate::troubles::{start_too_many, too_large};
use hashbag_csv::counts::Reading;
use hashbag_csv::fault::in_file;
use hashbag_csv::forms::{Form, rows_text};
use hashbag_ledger_lib::counting::{count_stock, name_all};
use hashbag_ledger_lib::entering::LedgerError;
use hashbag_ledger_lib::extras::Extra;
use hashbag_ledger_lib::filing::Filed;
use hashbag_ledger_lib::listings::{Differences, rows_of};
use hashbag_ledger_lib::movements::Movement;
use hashbag_ledger_lib::once::{Batch, Kind, next_number};
use hashbag_ledger_lib::sealing::{Draft, sealed_rows};
use hashbag_ledger_lib::style::Style;
use hashbag_shell::trouble::Trouble;
use sqlite::{Alter, Connection};
use std::alloc::Global;
use std::hash::BuildHasher;
use std::slice;

/// What a count does, and the texts that are written.
#[derive(Drop)]
pub struct Counted {
    /// The differences.
    pub table: Vec<u8>,
    /// The message about the batch that was entered.
    pub message: String,
    /// The balance before, articles in ascending order.
    pub kept: Vec<(String, usize)>,
    /// What the count does to the balance.
    pub filed: Filed,
}

// Returns the records of a count. With `--all` each article of the balance also has a record.
fn records_of<'a>(
    alloc: Global,
    job: &Job<'a>,
    input: &Input<'a>,
    reading: Reading,
    kept: &[(String, usize)],
) -> Result<Vec<Movement<String>>, Trouble<'a>>
    ensures { input.now.is_start ≡ true
        → IfOk result (λ all. AreRecordsOf job.now reading kept.now input.now all.items) }
{
    let read = read(alloc, job, input, 0, plain_columns(), reading);
    let mut records = in_file(alloc, input.file, read)?;
    if job.counts_all {
        name_all(&mut records, kept)?;
    }
    Ok(records)
}

// Returns what a count does to the balance that is kept.
fn counted_of<'a, S: BuildHasher + Copy + Drop, G: Stages>(
    alloc: Global,
    state: S,
    job: &Job<'a>,
    input: &Input<'a>,
    style: Style,
    kept: &[(String, usize)],
    stages: &G,
) -> Result<Filed, Trouble<'a>>
    ensures { input.now.is_start ≡ true
        → IfOk result (IsCountedAs job.now style kept.now input.now.text.items) }
{
    let reading = job.reading(style);
    let records = records_of(alloc, job, input, reading, kept)?;
    stages.begin(Stage::Booking(records.len()));
    match count_stock(alloc, state, kept, records) {
        Ok(filed) => Ok(filed),
        Err(LedgerError::TooMany(place)) => {
            Err(too_large(alloc, input.file, place.line, reading))
        }
        Err(LedgerError::StartTooMany) => Err(start_too_many(alloc, job.db)),
        Err(LedgerError::Memory) => Err(Trouble::Memory),
    }
}

// Writes the batch of a count, and returns the message about the batch.
fn write<'a, D: Alter>(
    alloc: Global,
    conn: &mut Connection<D>,
    db: &'a str,
    style: Style,
    input: &Input<'a>,
    batches: &[Batch],
    kept: &[(String, usize)],
    filed: &Filed,
    extras: &[Extra],
) -> Result<String, Trouble<'a>> {
    let time = in_database(alloc, db, time_of(conn))?;
    let entries = &filed.booked.entries;
    let draft = Draft {
        number: next_number(batches),
        file: input.file,
        sha256: input.sha256.as_str(),
        kind: Kind::Count,
        time: time.as_str(),
        movements: entries.len() as u64,
    };
    let rows = sealed_rows(alloc, style.scale, [draft].as_slice(), entries, extras)?;
    let before = movements_in(batches);
    let new = NewRows {
        first: before.saturating_add(1),
        batches: &rows,
        entries,
        extras,
        changed: &filed.changed,
    };
    let mut message = entered_text(alloc, db, before, &rows)?;
    let misspelt = misspelt_text(alloc, db, &rows_of(alloc, kept)?, entries)?;
    message.push_str(misspelt.as_str())?;
    put(alloc, db, conn, None, new)?;
    Ok(message)
}

/// Counts the stock of an open database: enters the differences between the stock and what was counted. `bytes` is the content of the file of
/// what was counted. Returns what the count does, and the texts that are written. The texts are made before anything is entered.
///
/// # Errors
///
/// Why nothing is entered.
pub fn count_in<'a, D: Alter, S: BuildHasher + Copy + Drop, G: Stages>(
    alloc: Global,
    state: S,
    stages: &G,
    job: &Job<'a>,
    style: Style,
    conn: &mut Connection<D>,
    bytes: Vec<u8>,
) -> Result<Counted, Trouble<'a>>
    // `filed` is what a count does to the balance `kept`. The count has the records of `bytes` and of `--all`. `bytes` are decoded by the job's
    // encoding, and read by the options of the job, and without an option as the stock says.
    ensures counted { IfOk result (IsCountOf job.now style bytes.items) }
    ensures rising { IfOk result (λ counted. Rises counted.kept.items) }
{
    let db = job.db;
    stages.begin(Stage::Reading);
    let input = input_of(alloc, job.counted, bytes, job.encoding, true)?;
    let batches = in_database(alloc, db, batches_of(alloc, conn))?;
    if !job.enters_again {
        entered_twice(alloc, slice::from_ref(&input), &batches)?;
    }
    let kept = in_database(alloc, db, balance_of(alloc, conn))?;
    let filed = counted_of(alloc, state, job, &input, style, &kept, stages)?;
    let entries = &filed.booked.entries;
    let extras = extras_on(alloc, job, entries.len())?;
    let reading = job.reading(style);
    let differences = Differences(reading.scale);
    let table = rows_text(alloc, Form::Csv, reading.delimiter, &differences, entries)?;
    stages.begin(Stage::Writing);
    let message = write(
        alloc, conn, db, style, &input, &batches, &kept, &filed, &extras,
    )?;
    Ok(Counted {
        table,
        message,
        kept,
        filed,
    })
}
