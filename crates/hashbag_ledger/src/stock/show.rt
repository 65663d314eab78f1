//! What is shown of a stock: its balance, the history of an article, the batches, and the movements of a batch.
use crate::stock::database::{ended, is_of_database, open};
use crate::stock::say::{random_state, say};
use crate::stock::stages::HostStages;
use hashbag_ledger_db::job::Job;
use hashbag_ledger_db::showing::{
    Shown, balance_at_in, balance_in, batches_in, history_in, show_in,
};
use hashbag_ledger_db::stages::{Stage, Stages};
use hashbag_ledger_db::troubles;
use hashbag_shell::output::Output;
use hashbag_shell::status::DONE;
use hashbag_shell::trouble::Trouble;

// Says what isn't there, writes the table, and returns the status.
fn write<'a>(rt: &HostRuntime, job: &Job<'a>, shown: &Shown) -> Result<u8, Trouble<'a>> {
    if let Some(name) = job.output
        && is_of_database(rt, job.db, name)?
    {
        return Err(troubles::conflict(rt.alloc(), name));
    }
    say(rt, job.quiet, shown.message.as_str());
    Output::open(rt, job.output)?.write(rt, shown.table.as_slice())?;
    Ok(DONE)
}

/// What is shown.
#[derive(Clone, Copy)]
pub enum View {
    /// The balance, or the numbers of some articles, with a message about the articles that aren't there.
    Balance,
    /// The movements of an article; or that there are none.
    History,
    /// The batches.
    Batches,
    /// The movements of a batch.
    Batch,
}

// Returns what is shown of the database.
fn shown<'a>(
    rt: &HostRuntime,
    stages: &HostStages<'_>,
    job: &Job<'a>,
    view: View,
) -> Result<Shown, Trouble<'a>> {
    let (alloc, state) = (rt.alloc(), random_state(rt)?);
    let (mut conn, style) = open(rt, stages, job)?;
    stages.begin(Stage::Reading);
    let shown = match (view, job.at) {
        (View::Balance, Some(date)) => balance_at_in(alloc, state, job, style, &mut conn, date),
        (View::Balance, None) => balance_in(alloc, job, style, &mut conn),
        (View::History, _) => history_in(alloc, state, job, style, &mut conn),
        (View::Batches, _) => batches_in(alloc, job, style, &mut conn),
        (View::Batch, _) => show_in(alloc, state, job, style, &mut conn),
    };
    ended(conn, shown)
}

/// Writes what is shown of the database.
///
/// # Errors
///
/// Why it can't be read or written.
pub fn show<'a>(rt: &HostRuntime, job: &Job<'a>, view: View) -> Result<u8, Trouble<'a>> {
    let stages = HostStages::new(rt, job.reports, job.db, &[]);
    let shown = shown(rt, &stages, job, view);
    stages.end();
    write(rt, job, &shown?)
}
