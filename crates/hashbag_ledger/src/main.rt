//! Enters movements into a stock, reports the movements that ask for more than is there, and writes the balance.
#![tactic(auto)]

mod outputs;
mod stock;

use crate::outputs::{Outputs, conflict};
use hashbag_ledger_db::messages::PROGRAM;
use hashbag_ledger_db::options::OPTIONS;
use hashbag_ledger_db::settings::Settings;
use hashbag_ledger_db::troubles;
use hashbag_ledger_db::unkept::{UnkeptReport, enter_unkept};
use hashbag_shell::VERSION;
use hashbag_shell::inputs::HostInputs;
use hashbag_shell::program::{given_to, program};
use hashbag_shell::status::BAD_INPUT;
use hashbag_shell::table::command_of;
use hashbag_shell::trouble::Trouble;
use std::hash::RandomState;
use std::process::ExitCode;

// Enters the files, and returns what is to be written.
fn report_of<'a>(rt: &HostRuntime, settings: &Settings<'a>) -> Result<UnkeptReport, Trouble<'a>> {
    // The keys are random, so nobody can choose articles whose hashes collide.
    let state = match RandomState::new(rt) {
        Ok(state) => state,
        Err(error) => return Err(Trouble::Random(error)),
    };
    let inputs = HostInputs::new(rt, settings.reports, &settings.files);
    let report = enter_unkept(rt.alloc(), state, &inputs, settings);
    inputs.end();
    report
}

// Enters files into a stock that isn't kept, and returns the exit status.
fn total<'a>(rt: &HostRuntime, settings: &Settings<'a>) -> Result<u8, Trouble<'a>> {
    if let Some(name) = conflict(rt, settings) {
        return Err(troubles::conflict(rt.alloc(), name));
    }
    let outputs = Outputs::open(rt, settings)?;
    match report_of(rt, settings) {
        Ok(report) => {
            outputs.write(rt, &report)?;
            Ok(report.status)
        }
        Err(trouble) => {
            outputs.abandon(rt);
            Err(trouble)
        }
    }
}

// The usages, which a message on a word that is no subcommand shows.
const USAGE: &str = "hashbag_ledger total [OPTIONS] [MOVES.csv]...
       hashbag_ledger <COMMAND> --db <FILE>";

// Does what the subcommand asks for, and returns the exit status.
fn answer<'a>(rt: &HostRuntime, words: &'a [String]) -> Result<u8, Trouble<'a>> {
    let command = command_of(rt.alloc(), OPTIONS)?
        .version(VERSION)
        .override_usage(USAGE)
        .subcommand_required(true);
    let given = given_to(rt, Ok(command), words)?;
    match given.subcommand() {
        Some(("total", given)) => total(rt, &Settings::of(rt.alloc(), given)?),
        Some((name, given)) => stock::run(rt, name, given),
        None => Ok(BAD_INPUT),
    }
}

fn main(rt: HostRuntime) -> ExitCode {
    ExitCode::from(program(&rt, PROGRAM, |words| answer(&rt, words)))
}
