//! A stock that is counted again from all its movements.
use crate::stock::database::{ended, open};
use crate::stock::say::random_state;
use crate::stock::stages::HostStages;
use hashbag_ledger_db::job::Job;
use hashbag_ledger_db::stages::{Stage, Stages};
use hashbag_ledger_db::verifying::{Verdict, kept_in, verdict_of};
use hashbag_shell::output::write_text;
use hashbag_shell::status::{DENIED, DONE};
use hashbag_shell::trouble::Trouble;
use std::io;

// Counts all movements of the database again.
fn verdict<'a>(
    rt: &HostRuntime,
    stages: &HostStages<'_>,
    job: &Job<'a>,
) -> Result<Verdict, Trouble<'a>> {
    let state = random_state(rt)?;
    let (mut conn, style) = open(rt, stages, job)?;
    stages.begin(Stage::Reading);
    let kept = kept_in(rt.alloc(), job.db, &mut conn);
    verdict_of(rt.alloc(), state, stages, job, style, ended(conn, kept)?)
}

/// Counts all movements again, compares the balance, the refusals and the seals that are kept, and says whether they agree.
///
/// # Errors
///
/// Why they can't be read, or the answer can't be written.
pub fn verify<'a>(rt: &HostRuntime, job: &Job<'a>) -> Result<u8, Trouble<'a>> {
    let stages = HostStages::new(rt, job.reports, job.db, &[]);
    let verdict = verdict(rt, &stages, job);
    stages.end();
    match verdict? {
        Verdict::Differs(text) => {
            write_text(&mut rt.stderr(), text.as_bytes())?;
            Ok(DENIED)
        }
        Verdict::Agrees(text) => {
            write_text(&mut io::writer(rt), text.as_bytes())?;
            Ok(DONE)
        }
    }
}
