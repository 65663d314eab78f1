//! A batch that is taken back.
use crate::stock::database::{ended, open};
use crate::stock::say::{random_state, say};
use crate::stock::stages::HostStages;
use hashbag_ledger_db::job::Job;
use hashbag_ledger_db::messages::PROGRAM;
use hashbag_ledger_db::stages::{Stage, Stages};
use hashbag_ledger_db::troubles;
use hashbag_ledger_db::undoing::{UndoReport, found_in, undo_in};
use hashbag_shell::output::write_text;
use hashbag_shell::status::DENIED;
use hashbag_shell::trouble::Trouble;

// Takes the batch back in the database.
fn undone<'a>(
    rt: &HostRuntime,
    stages: &HostStages<'_>,
    job: &Job<'a>,
) -> Result<UndoReport, Trouble<'a>> {
    let state = random_state(rt)?;
    let (mut conn, style) = open(rt, stages, job)?;
    stages.begin(Stage::Reading);
    let done = match found_in(rt.alloc(), job, &mut conn) {
        Ok(found) => undo_in(rt.alloc(), state, stages, job, style, &mut conn, found),
        Err(trouble) => Err(trouble),
    };
    ended(conn, done)
}

/// Enters the opposite movements of a batch, all or none. Writes the refusals, or says which batch was entered.
///
/// # Errors
///
/// Why the batch can't be taken back.
pub fn undo<'a>(rt: &HostRuntime, job: &Job<'a>) -> Result<u8, Trouble<'a>> {
    // Both `--last` and a batch are given, or neither is.
    if job.last == job.wanted_batch.is_some() {
        return Err(troubles::no_batch_named(rt.alloc()));
    }
    let stages = HostStages::new(rt, job.reports, job.db, &[]);
    let undone = undone(rt, &stages, job);
    stages.end();
    let report = undone?;
    say(rt, job.quiet, report.message.as_str());
    write_text(&mut rt.stderr(), report.refusals.as_bytes())?;
    if report.status == DENIED {
        let _ = eprintln!(rt; "{PROGRAM}: {}: nothing was undone", job.db);
    }
    Ok(report.status)
}
