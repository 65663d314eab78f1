//! Files that are entered into a stock.
ghost use Rattle.std.specs.Prelude.{◌≡◌};

use crate::outputs::{is_same, write_refusals};
use crate::stock::database::{HostDatabases, ended, is_new, is_of_database, open, open_or_make};
use crate::stock::say::{random_state, say};
use crate::stock::stages::HostStages;
use hashbag_csv::delimiter::Delimiter;
use hashbag_csv::forms::{Form, rows_text};
use hashbag_ledger_db::closing::{Closed, begin_in, beginning_of, closed_in};
use hashbag_ledger_db::entering::EnterReport;
use hashbag_ledger_db::files::enter_named;
use hashbag_ledger_db::job::Job;
use hashbag_ledger_db::messages::PROGRAM;
use hashbag_ledger_db::stages::{Stage, Stages};
use hashbag_ledger_db::stock::tables::Contents;
use hashbag_ledger_db::troubles;
use hashbag_ledger_lib::listings;
use hashbag_shell::inputs::{HostInputs, Inputs};
use hashbag_shell::output::Output;
use hashbag_shell::status::{BAD_INPUT, DONE};
use hashbag_shell::trouble::Trouble;
use std::{fs, slice};

// Returns a file that the arguments name for two uses, if there is one.
fn conflict<'a>(rt: &HostRuntime, job: &Job<'a>) -> Result<Option<&'a str>, Trouble<'a>> {
    for name in [job.from, job.refused] {
        if let Some(file) = name
            && is_of_database(rt, job.db, file)?
        {
            return Ok(Some(file));
        }
    }
    for file in job.files.iter().copied() {
        if is_of_database(rt, job.db, file)? {
            return Ok(Some(file));
        }
    }
    Ok(job.refused.filter(|refused| is_input(rt, job, *refused)))
}

// Returns whether the file of refusals is an input.
fn is_input(rt: &HostRuntime, job: &Job<'_>, refused: &str) -> bool {
    if let Some(name) = job.from
        && is_same(rt, refused, name)
    {
        return true;
    }
    job.files.iter().any(|file| is_same(rt, refused, *file))
}

// Opens the output of the refusals.
fn output_of<'a>(rt: &HostRuntime, job: &Job<'a>) -> Result<Output<'a>, Trouble<'a>> {
    if let Some(name) = conflict(rt, job)? {
        return Err(troubles::conflict(rt.alloc(), name));
    }
    Output::open(rt, job.refused)
}

// Says which batches were entered, writes the refusals, and returns the status. If the refusals have a file, the message comes first: so it is
// shown even if that file can't be written.
fn write<'a>(
    rt: &HostRuntime,
    job: &Job<'a>,
    output: Output<'a>,
    entered: Result<EnterReport, Trouble<'a>>,
) -> Result<u8, Trouble<'a>> {
    match entered {
        Ok(report) => {
            if job.refused.is_some() {
                say(rt, job.quiet, report.message.as_str());
                write_refusals(rt, output, report.refusals.as_slice())?;
            } else {
                write_refusals(rt, output, report.refusals.as_slice())?;
                say(rt, job.quiet, report.message.as_str());
            }
            Ok(report.status)
        }
        Err(trouble) => {
            output.abandon(rt);
            Err(trouble)
        }
    }
}

/// Enters files into the stock, all or none. Writes the refusals, and says which batches were entered.
///
/// # Errors
///
/// Why nothing is entered.
pub fn enter<'a>(rt: &HostRuntime, job: &Job<'a>) -> Result<u8, Trouble<'a>> {
    let state = random_state(rt)?;
    let output = output_of(rt, job)?;
    let inputs = HostInputs::new(rt, job.reports, &job.files);
    let stages = HostStages::new(rt, job.reports, job.db, &job.files);
    let databases = HostDatabases { rt };
    let entered = enter_named(rt.alloc(), state, &inputs, &databases, &stages, job);
    inputs.end();
    stages.end();
    write(rt, job, output, entered)
}

// The text of a movement that is typed. It is read in place of each input.
#[derive(Drop)]
struct Typed {
    text: Vec<u8>,
}

impl Inputs for Typed {
    ghost gives = { λ typed _ bytes. bytes ≡ typed.text.items };

    fn read<'a>(&self, _file: &'a str) -> Result<Vec<u8>, Trouble<'a>> {
        Ok(self.text.clone()?)
    }
}

// Returns the trouble of a movement that is typed. The message names no line, and has the number as it was typed.
fn of_typed<'a>(rt: &HostRuntime, sign: &str, trouble: Trouble<'a>) -> Trouble<'a> {
    match &trouble {
        Trouble::BadLine {
            what,
            is_total: false,
            ..
        } => {
            let alloc = rt.alloc();
            let hint = if what.starts_with("no number") {
                "; decimals are written after the mark of the database, or of `--mark`"
            } else {
                ""
            };
            match what.split_once(sign) {
                Some((before, number)) => Trouble::with_status(
                    format!(in alloc; "{before}{number}{hint}"),
                    BAD_INPUT,
                ),
                None => trouble,
            }
        }
        _ => trouble,
    }
}

/// Enters the movement that is typed: the article and the number of the job, with this sign. The text of the movement is read in place of
/// standard input. `job` is what [`Job::typed`] returned.
///
/// # Errors
///
/// Why the movement isn't entered, such as that there is no database: only [`enter`] makes a database.
pub fn enter_typed<'a>(rt: &HostRuntime, job: &Job<'a>, sign: &str) -> Result<u8, Trouble<'a>> {
    if is_new(rt, job.db)? {
        return Err(troubles::no_file(rt.alloc(), job.db));
    }
    let article = job.articles.first().copied().unwrap_or("");
    let alloc = rt.alloc();
    let movement: (&str, String) = (article, format!(in alloc; "{sign}{}", job.quantity)?);
    let rows = slice::from_ref(&movement);
    let text = rows_text(alloc, Form::Csv, Delimiter::Comma, &listings::Typed, rows)?;
    let state = random_state(rt)?;
    let output = output_of(rt, job)?;
    let inputs = Typed { text };
    let stages = HostStages::new(rt, job.reports, job.db, &[]);
    let databases = HostDatabases { rt };
    let entered = match enter_named(rt.alloc(), state, &inputs, &databases, &stages, job) {
        Ok(report) => Ok(report),
        Err(trouble) => Err(of_typed(rt, sign, trouble)),
    };
    stages.end();
    write(rt, job, output, entered)
}

// Begins a new database with what the closed one leaves.
fn begin<'a>(
    rt: &HostRuntime,
    stages: &HostStages<'_>,
    job: &Job<'a>,
    closed: &Closed,
) -> Result<(), Trouble<'a>> {
    let (alloc, state) = (rt.alloc(), random_state(rt)?);
    let inputs = [beginning_of(alloc, job, closed)?];
    stages.begin(Stage::Opening);
    let (mut conn, contents) = open_or_make(rt, job.into, job.wait)?;
    let begun = match contents {
        Contents::Empty => begin_in(
            alloc,
            state,
            job,
            closed,
            inputs.as_slice(),
            &mut conn,
            stages,
        ),
        Contents::Stock(_) => Err(troubles::has_stock(alloc, job.into)),
    };
    ended(conn, begun)
}

// Returns what the database leaves to the new one.
fn closed<'a>(rt: &HostRuntime, job: &Job<'a>) -> Result<Closed, Trouble<'a>> {
    let stages = HostStages::new(rt, job.reports, job.db, &[]);
    let closed = match open(rt, &stages, job) {
        Ok((mut conn, style)) => {
            stages.begin(Stage::Reading);
            let closed = closed_in(rt.alloc(), job, style, &mut conn);
            ended(conn, closed)
        }
        Err(trouble) => Err(trouble),
    };
    stages.end();
    closed
}

/// Begins a new database with the balance of this one.
///
/// # Errors
///
/// Why the balance can't be read, or why the new database can't begin with it.
pub fn close<'a>(rt: &HostRuntime, job: &Job<'a>) -> Result<u8, Trouble<'a>> {
    if is_of_database(rt, job.db, job.into)? {
        return Err(troubles::conflict(rt.alloc(), job.into));
    }
    let closed = closed(rt, job)?;
    let was_new = is_new(rt, job.into)?;
    let stages = HostStages::new(rt, job.reports, job.into, &[]);
    let begun = begin(rt, &stages, job, &closed);
    stages.end();
    if begun.is_err() && was_new && fs::metadata(rt, job.into).is_ok() {
        let new = job.into;
        let _ = eprintln!(rt;
            "{PROGRAM}: {new}: nothing was entered; remove it, and {new}-wal if it is there"
        );
    }
    begun?;
    Ok(DONE)
}
