//! A stock that is kept in a database: the subcommands with `--db`.
mod count;
mod database;
mod enter;
mod say;
mod show;
mod stages;
mod undo;
mod verify;

use crate::stock::show::View;
use clap::ArgMatches;
use hashbag_ledger_db::job::Job;
use hashbag_shell::trouble::Trouble;

/// Does the job of this name, and returns the status.
///
/// # Errors
///
/// Why it isn't done.
pub fn run<'a>(rt: &HostRuntime, name: &str, given: &ArgMatches<'a>) -> Result<u8, Trouble<'a>> {
    let job = Job::of(rt.alloc(), given)?;
    match name {
        "enter" => enter::enter(rt, &job),
        "take" => enter::enter_typed(rt, &job.typed(), "-"),
        "put" => enter::enter_typed(rt, &job.typed(), "+"),
        "count" => count::count(rt, &job),
        "balance" => show::show(rt, &job, View::Balance),
        "history" => show::show(rt, &job, View::History),
        "batches" => show::show(rt, &job, View::Batches),
        "show" => show::show(rt, &job, View::Batch),
        "undo" => undo::undo(rt, &job),
        "close" => enter::close(rt, &job),
        _ => verify::verify(rt, &job),
    }
}
