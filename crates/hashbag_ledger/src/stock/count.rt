//! A stock that is counted.
use crate::outputs::is_same;
use crate::stock::database::{ended, is_of_database, open};
use crate::stock::say::{random_state, say};
use crate::stock::stages::HostStages;
use hashbag_ledger_db::counting::{Counted, count_in};
use hashbag_ledger_db::job::Job;
use hashbag_ledger_db::troubles;
use hashbag_shell::inputs::{HostInputs, Inputs};
use hashbag_shell::output::Output;
use hashbag_shell::status::DONE;
use hashbag_shell::trouble::Trouble;

// Returns a file that the arguments name for two uses, if there is one.
fn conflict<'a>(rt: &HostRuntime, job: &Job<'a>) -> Result<Option<&'a str>, Trouble<'a>> {
    if is_of_database(rt, job.db, job.counted)? {
        return Ok(Some(job.counted));
    }
    if let Some(name) = job.output
        && (is_same(rt, name, job.counted) || is_of_database(rt, job.db, name)?)
    {
        return Ok(Some(name));
    }
    Ok(None)
}

// Enters the differences between the stock and what was counted. `bytes` is the content of the file of what was counted.
fn counted_by<'a>(
    rt: &HostRuntime,
    stages: &HostStages<'_>,
    job: &Job<'a>,
    bytes: Vec<u8>,
) -> Result<Counted, Trouble<'a>> {
    let state = random_state(rt)?;
    let (mut conn, style) = open(rt, stages, job)?;
    let done = count_in(rt.alloc(), state, stages, job, style, &mut conn, bytes);
    ended(conn, done)
}

// Enters the differences between the stock and what was counted.
fn counted<'a>(rt: &HostRuntime, job: &Job<'a>) -> Result<Counted, Trouble<'a>> {
    let inputs = HostInputs::new(rt, job.reports, &[job.counted]);
    let bytes = inputs.read(job.counted);
    let stages = HostStages::new(rt, job.reports, job.db, &[job.counted]);
    let done = match bytes {
        Ok(bytes) => counted_by(rt, &stages, job, bytes),
        Err(trouble) => Err(trouble),
    };
    inputs.end();
    stages.end();
    done
}

/// Enters the differences between the stock and what was counted, writes them, and says which batch was entered.
///
/// # Errors
///
/// Why nothing is entered, or why the differences can't be written.
pub fn count<'a>(rt: &HostRuntime, job: &Job<'a>) -> Result<u8, Trouble<'a>> {
    if let Some(name) = conflict(rt, job)? {
        return Err(troubles::conflict(rt.alloc(), name));
    }
    let output = Output::open(rt, job.output)?;
    match counted(rt, job) {
        Ok(counted) => {
            say(rt, job.quiet, counted.message.as_str());
            output.write(rt, counted.table.as_slice())?;
            Ok(DONE)
        }
        Err(trouble) => {
            output.abandon(rt);
            Err(trouble)
        }
    }
}
