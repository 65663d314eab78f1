//! Files that are entered into a stock, in an open database.
ghost use Rattle.std.specs.Prelude.{◌≡◌, [], None, IfOk, IsSomeAnd};
ghost use Rattle.hashbag_ledger_db.specs.Filed.{AreMovementsRead, ReturnsAnew, IsFiledOf, IsFiledOn, IsFiledAnew, IsFiledIn, has_refusal, status_after, IfStock, IsAnewIfThere, IsReportOf};
ghost use Rattle.hashbag_ledger_lib.specs.Movements.{names_now};

use crate::before::{Before, before_in, entered_twice};
use crate::columns::{columns_text, plain_columns, plain_extras};
use crate::job::Job;
use crate::messages::{entered_text, misspelt_text, refused_text, typed_new_text};
use crate::movements::{Input, extras_of, movements_of};
use crate::putting::{in_database, put};
use crate::stages::{Stage, Stages};
use crate::stock::reading::time_of;
use crate::stock::statements::{NewRows, NewStock};
use crate::stock::tables::Contents;
use crate::troubles::{other_scale, start_too_many, too_large};
use hashbag_csv::counts::Reading;
use hashbag_csv::delimiter::Delimiter;
use hashbag_csv::forms::{Form, rows_text};
use hashbag_ledger_lib::entering::LedgerError;
use hashbag_ledger_lib::extras::{Extra, ExtraColumns};
use hashbag_ledger_lib::filing::{Filed, enter_files, refusals_of};
use hashbag_ledger_lib::ledger::booking::count_refused;
use hashbag_ledger_lib::listings::{Refusals, rows_of};
use hashbag_ledger_lib::movements::Movement;
use hashbag_ledger_lib::once::Kind;
use hashbag_ledger_lib::reading::Columns;
use hashbag_ledger_lib::sealing::{Draft, sealed_rows};
use hashbag_ledger_lib::style::Style;
use hashbag_shell::status::{DENIED, DONE};
use hashbag_shell::trouble::Trouble;
use sqlite::{Alter, Connection};
use std::alloc::{AllocError, Global};
use std::hash::BuildHasher;

/// What is computed, and isn't written yet: what the database has, and what the inputs do to its balance.
#[derive(Drop)]
pub struct Ready {
    /// What the database has before the inputs are entered.
    pub before: Before,
    /// What the inputs do to its balance.
    pub filed: Filed,
}

/// What one run of a subcommand writes.
#[derive(Drop)]
pub struct EnterReport {
    /// The refusals.
    pub refusals: Vec<u8>,
    /// The message about the batches that were entered.
    pub message: String,
    /// The status with which the program ends.
    pub status: u8,
    /// What the inputs do, which decides the fields above. `None` if no database was opened.
    pub ready: Option<Ready>,
}

// Reads the movements of the inputs, up to the first bad input. Returns the movements, and the trouble of that input if there is one.
fn all_movements<'a>(
    alloc: Global,
    job: &Job<'a>,
    inputs: &[Input<'a>],
    columns: Columns<&str>,
    reading: Reading,
) -> Result<(Vec<Vec<Movement<String>>>, Option<Trouble<'a>>), Trouble<'a>>
    ensures { IfOk result (λ all. all.1 ≡ None
        → AreMovementsRead job.now reading columns.entry inputs.now all.0.items) }
{
    let mut files = Vec::new(alloc);
    for i in 0..inputs.len() {
        match movements_of(alloc, job, &inputs[i], i, columns, reading) {
            Ok(movements) => files.push(movements).map_err(AllocError::from)?,
            Err(trouble) => return Ok((files, Some(trouble))),
        }
    }
    Ok((files, None))
}

// Returns the trouble of an error of the ledger.
fn trouble_of<'a>(
    alloc: Global,
    db: &str,
    inputs: &[Input<'a>],
    reading: Reading,
    error: LedgerError,
) -> Trouble<'a> {
    match error {
        LedgerError::TooMany(place) => {
            let file = match inputs.get(place.file) {
                Some(input) => input.file,
                None => db,
            };
            too_large(alloc, file, place.line, reading)
        }
        LedgerError::StartTooMany => start_too_many(alloc, db),
        LedgerError::Memory => Trouble::Memory,
    }
}

// Returns how many movements files have.
fn number_in(files: &[Vec<Movement<String>>]) -> usize {
    let mut number = 0usize;
    for movements in files {
        number = number.saturating_add(movements.len());
    }
    number
}

/// Enters the inputs into the balance that is kept. On failure it returns the first error in input order.
pub(crate) fn filed_of<'a, S: BuildHasher + Drop, G: Stages>(
    alloc: Global,
    state: S,
    job: &Job<'a>,
    inputs: &[Input<'a>],
    columns: Columns<&str>,
    reading: Reading,
    kept: &[(String, usize)],
    stages: &G,
) -> Result<Filed, Trouble<'a>>
    // All movements of all inputs are booked, in turn, on `kept`. `reading` and `columns` say how they are read.
    ensures { IfOk result (λ filed.
        IsFiledOf job.now reading (names_now columns.entry) inputs.now kept.now filed) }
{
    let (files, bad) = all_movements(alloc, job, inputs, columns, reading)?;
    stages.begin(Stage::Booking(number_in(&files)));
    let filed = match enter_files(alloc, state, kept, files) {
        Ok(filed) => filed,
        Err(error) => return Err(trouble_of(alloc, job.db, inputs, reading, error)),
    };
    match bad {
        Some(trouble) => Err(trouble),
        None => Ok(filed),
    }
}

// Returns the style of the stock, or the style of a new stock if the database is empty.
fn style_of<'a>(alloc: Global, job: &Job<'a>, contents: Contents) -> Result<Style, Trouble<'a>> {
    let db = job.db;
    match (contents, job.scale) {
        (Contents::Empty, _) => Ok(job.style(job.asked_style())),
        (Contents::Stock(style), Some(asked)) if style.scale != asked => {
            Err(other_scale(alloc, db, style.scale, asked))
        }
        (Contents::Stock(style), _) => Ok(style),
    }
}

/// If the database is empty, returns what the new stock keeps: this style, and these columns.
pub(crate) fn new_stock_of<'k>(
    contents: Contents,
    style: Style,
    columns: &'k str,
    extras: ExtraColumns<&'k str>,
) -> Option<NewStock<'k>> {
    match contents {
        Contents::Empty => Some(NewStock {
            style,
            columns,
            extras,
        }),
        Contents::Stock(_) => None,
    }
}

// Returns what is known of the batches of the inputs. `number` is the number of the first batch.
fn drafts_of<'i, 'a>(
    alloc: Global,
    inputs: &'i [Input<'a>],
    counts: &[usize],
    number: i64,
    time: &'i str,
) -> Result<Vec<Draft<'i>>, AllocError> {
    let mut drafts = Vec::new(alloc);
    let mut number = number;
    for i in 0..inputs.len() {
        let input = &inputs[i];
        drafts.push(Draft {
            number,
            file: input.file,
            sha256: input.sha256.as_str(),
            kind: if input.is_start {
                Kind::Start
            } else {
                Kind::Moves
            },
            time,
            movements: counts.get(i).copied().unwrap_or(0) as u64,
        })?;
        number = number.saturating_add(1);
    }
    Ok(drafts)
}

/// Writes the batches of the inputs, and returns the message about the batches.
pub(crate) fn write<'a, D: Alter, G: Stages>(
    alloc: Global,
    conn: &mut Connection<D>,
    db: &'a str,
    style: Style,
    new_stock: Option<NewStock<'_>>,
    inputs: &[Input<'a>],
    extras: &[Extra],
    ready: &Ready,
    stages: &G,
) -> Result<String, Trouble<'a>> {
    stages.begin(Stage::Writing);
    let time = in_database(alloc, db, time_of(conn))?;
    let (before, filed) = (&ready.before, &ready.filed);
    let drafts = drafts_of(alloc, inputs, &filed.counts, before.number(), time.as_str())?;
    let entries = &filed.booked.entries;
    let batches = sealed_rows(alloc, style.scale, &drafts, entries, extras)?;
    let new = NewRows {
        first: before.movements().saturating_add(1),
        batches: &batches,
        entries,
        extras,
        changed: &filed.changed,
    };
    let message = entered_text(alloc, db, before.movements(), &batches)?;
    put(alloc, db, conn, new_stock, new)?;
    Ok(message)
}

// Returns the names of the inputs.
fn names_of<'a>(alloc: Global, inputs: &[Input<'a>]) -> Result<Vec<&'a str>, AllocError> {
    let mut names = Vec::new(alloc);
    for input in inputs {
        names.push(input.file)?;
    }
    Ok(names)
}

// Returns the text of the refusals.
fn text_of<'a>(
    alloc: Global,
    job: &Job<'a>,
    inputs: &[Input<'a>],
    reading: Reading,
    kept: &[(String, usize)],
    filed: &Filed,
) -> Result<Vec<u8>, AllocError> {
    let refusals = refusals_of(alloc, &filed.booked.entries, job.strict)?;
    let names = names_of(alloc, inputs)?;
    // A table for a file, lines for standard error.
    match job.refused {
        Some(_) => {
            let rows = Refusals(reading.scale, &names);
            rows_text(alloc, Form::Csv, reading.delimiter, &rows, &refusals)
        }
        None => {
            let balance = rows_of(alloc, kept)?;
            Ok(refused_text(alloc, &names, reading.scale, &balance, &refusals)?.into_bytes())
        }
    }
}

// Appends a line for an article that was typed and is new, and for each new article of a file whose name is near to another one.
fn with_new(
    alloc: Global,
    job: &Job<'_>,
    ready: &Ready,
    message: String,
) -> Result<String, AllocError> {
    let balance = rows_of(alloc, ready.before.balance())?;
    let entries = &ready.filed.booked.entries;
    let new = match job.articles.first().copied() {
        Some(article) => typed_new_text(alloc, job.db, &balance, entries, article)?,
        None => misspelt_text(alloc, job.db, &balance, entries)?,
    };
    let mut text = message;
    text.push_str(new.as_str())?;
    Ok(text)
}

/// Returns whether there is a refusal.
pub fn is_refused(filed: &Filed) -> bool
    ensures { result ≡ has_refusal filed.now }
{
    count_refused(&filed.booked.entries) > 0
}

// Returns the status of a run with this result.
fn status_of(filed: &Filed) -> u8
    ensures { result ≡ status_after filed.now }
{
    if is_refused(filed) { DENIED } else { DONE }
}

/// Returns what the inputs do to an empty stock. `enter_named` calls it before it makes a database, so a bad input makes no database.
///
/// # Errors
///
/// What is wrong with an input, or a failed allocation.
pub fn filed_anew<'a, S: BuildHasher + Drop, G: Stages>(
    alloc: Global,
    state: S,
    job: &Job<'a>,
    inputs: &[Input<'a>],
    stages: &G,
) -> Result<Filed, Trouble<'a>>
    // All movements of all inputs are booked, in turn, on an empty stock. They are read as the job says, else by the default columns.
    ensures { IfOk result (IsFiledAnew job.now inputs.now) }
{
    let reading = job.reading(job.asked_style());
    let columns = job.columns_or(plain_columns());
    let filed = filed_of(alloc, state, job, inputs, columns, reading, &[], stages)?;
    let names = job.extras_or(plain_extras());
    extras_of(alloc, job, inputs, names, reading.delimiter)?;
    if !job.enters_again {
        entered_twice(alloc, inputs, &[])?;
    }
    Ok(filed)
}

// Returns what the inputs do to the balance that the database has.
fn filed_in<'a, S: BuildHasher + Drop, G: Stages>(
    alloc: Global,
    state: S,
    job: &Job<'a>,
    inputs: &[Input<'a>],
    before: &Before,
    contents: Contents,
    anew: Option<Filed>,
    stages: &G,
) -> Result<Filed, Trouble<'a>>
    ensures empty { contents ≡ Contents.Empty → ReturnsAnew job.now inputs.now anew result }
    ensures stock { IfStock contents (λ style. IfOk result (IsFiledOn job.now style before.now inputs.now)) }
{
    match (contents, anew) {
        (Contents::Empty, Some(filed)) => Ok(filed),
        (Contents::Empty, None) => filed_anew(alloc, state, job, inputs, stages),
        (Contents::Stock(style), _) => {
            let reading = job.reading(style);
            let columns = job.columns_or(before.names());
            filed_of(
                alloc,
                state,
                job,
                inputs,
                columns,
                reading,
                before.balance(),
                stages,
            )
        }
    }
}

// Returns what the inputs do to the stock of an open database. `anew` is what they do to an empty stock. It is `None` if the file wasn't
// new. If the file wasn't new but has no tables, `anew` is computed here. If another process made a stock meanwhile, `anew` isn't used.
fn ready_in<'a, D: Alter, S: BuildHasher + Drop, G: Stages>(
    alloc: Global,
    state: S,
    job: &Job<'a>,
    inputs: &[Input<'a>],
    conn: &mut Connection<D>,
    contents: Contents,
    anew: Option<Filed>,
    stages: &G,
) -> Result<Ready, Trouble<'a>>
    ensures { IsAnewIfThere job.now inputs.now anew → IfOk result (IsFiledIn job.now contents inputs.now) }
{
    stages.begin(Stage::Reading);
    let before = before_in(alloc, job, inputs, conn, contents)?;
    let filed = filed_in(alloc, state, job, inputs, &before, contents, anew, stages)?;
    Ok(Ready { before, filed })
}

// Returns the dates and notes of all movements, by the columns that the job names, else by the columns that the database keeps.
fn read_extras<'a>(
    alloc: Global,
    job: &Job<'a>,
    inputs: &[Input<'a>],
    before: &Before,
    delimiter: Delimiter,
) -> Result<Vec<Extra>, Trouble<'a>> {
    let names = job.extras_or(before.extras());
    extras_of(alloc, job, inputs, names, delimiter)
}

// Writes the batches of the inputs, and what a new stock keeps. Returns the message about the batches.
fn written<'a, D: Alter, G: Stages>(
    alloc: Global,
    job: &Job<'a>,
    inputs: &[Input<'a>],
    conn: &mut Connection<D>,
    contents: Contents,
    style: Style,
    extras: &[Extra],
    ready: &Ready,
    stages: &G,
) -> Result<String, Trouble<'a>> {
    let columns = job.columns_or(ready.before.names());
    let names = job.extras_or(ready.before.extras());
    let text = columns_text(alloc, columns)?;
    let new_stock = new_stock_of(contents, style, text.as_str(), names);
    let message = write(
        alloc, conn, job.db, style, new_stock, inputs, extras, ready, stages,
    )?;
    Ok(with_new(alloc, job, ready, message)?)
}

/// Enters the inputs into an open database, and returns what the run of the subcommand writes. The texts are made before anything is
/// entered. `anew` is what the inputs do to an empty stock. It is `None` if the file wasn't new.
///
/// # Errors
///
/// Why nothing is entered.
pub fn report_in<'a, D: Alter, S: BuildHasher + Drop, G: Stages>(
    alloc: Global,
    state: S,
    job: &Job<'a>,
    inputs: &[Input<'a>],
    conn: &mut Connection<D>,
    contents: Contents,
    anew: Option<Filed>,
    stages: &G,
) -> Result<EnterReport, Trouble<'a>>
    // If `anew` is what the inputs do to an empty stock, as `filed_anew` returns it, then `ready` is what they do to the balance that was
    // read: all movements of all inputs are booked on it.
    ensures filed { IsAnewIfThere job.now inputs.now anew → IfOk result (IsReportOf job.now contents inputs.now) }

    // The status is 1 exactly if a movement is refused.
    ensures status { IfOk result (λ report. IsSomeAnd report.ready (λ ready.
        report.status ≡ status_after ready.filed)) }
{
    let style = style_of(alloc, job, contents)?;
    let ready = ready_in(alloc, state, job, inputs, conn, contents, anew, stages)?;
    let reading = job.reading(style);
    let extras = read_extras(alloc, job, inputs, &ready.before, reading.delimiter)?;
    let kept = ready.before.balance();
    let refusals = text_of(alloc, job, inputs, reading, kept, &ready.filed)?;
    let message = if job.strict && is_refused(&ready.filed) {
        String::new(alloc)
    } else {
        written(
            alloc, job, inputs, conn, contents, style, &extras, &ready, stages,
        )?
    };
    Ok(EnterReport {
        refusals,
        message,
        status: status_of(&ready.filed),
        ready: Some(ready),
    })
}

/// Returns the report of a run with `--strict` that makes no database, since it has a refusal.
///
/// # Errors
///
/// An allocation fails.
pub fn denied_report(
    alloc: Global,
    job: &Job<'_>,
    inputs: &[Input<'_>],
    filed: &Filed,
) -> Result<EnterReport, AllocError>
    ensures ready { IfOk result (λ report. report.ready ≡ None) }
    ensures status { IfOk result (λ report. report.status ≡ 1) }
{
    let reading = job.reading(job.asked_style());
    Ok(EnterReport {
        refusals: text_of(alloc, job, inputs, reading, &[], filed)?,
        message: String::new(alloc),
        status: DENIED,
        ready: None,
    })
}
