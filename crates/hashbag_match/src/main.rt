//! Matches what was ordered with what was delivered, article by article.
#![tactic(auto)]

mod options;
mod settings;

use crate::options::OPTIONS;
use crate::settings::Settings;
use hashbag_csv::fault::{SheetError, in_file};
use hashbag_match_lib::files::{Unmatched, match_files};
use hashbag_match_lib::hints::{hint_of, with_hint};
use hashbag_match_lib::texts::Findings;
use hashbag_shell::VERSION;
use hashbag_shell::input::shown_name;
use hashbag_shell::inputs::HostInputs;
use hashbag_shell::output::Output;
use hashbag_shell::program::{given_to, program};
use hashbag_shell::status::BAD_INPUT;
use hashbag_shell::table::command_of;
use hashbag_shell::text::with_option;
use hashbag_shell::trouble::Trouble;
use std::hash::RandomState;
use std::process::ExitCode;

// The name of the program. Its messages on standard error begin with it.
const PROGRAM: &str = "hashbag_match";

// Names the bad lines of a file on standard error, each with the option that would read it. If `max_errors` lines are named,
// and `max_errors` is above 1, also says that no more are named.
fn name_lines<'a>(
    rt: &HostRuntime,
    settings: &Settings<'a>,
    file: &'a str,
    errors: Vec<SheetError>,
) {
    let (alloc, ask) = (rt.alloc(), &settings.ask);
    let columns = if file == settings.files.ordered {
        &ask.ordered
    } else {
        &ask.delivered
    };
    let most = ask.max_errors;
    let is_cut = most > 1 && errors.len() == most;
    for error in errors {
        let hint = hint_of(&error, ask.line_form, columns.reading.scale.mark);
        if let Err(trouble) = in_file::<()>(alloc, file, Err(error)) {
            of_either(rt, settings, with_hint(alloc, trouble, hint)).report(rt, PROGRAM);
        }
    }
    if is_cut {
        let _ = eprintln!(rt;
            "{PROGRAM}: {}: no more than {most} bad lines are named; `--max-errors 0` names all",
            shown_name(file)
        );
    }
}

// Returns the trouble. If it is a bad line of the second file alone, its message names `--delivered-encoding` in place of `--encoding`.
fn of_either<'a>(rt: &HostRuntime, settings: &Settings<'a>, trouble: Trouble<'a>) -> Trouble<'a> {
    match &trouble {
        Trouble::BadLine { file, .. }
            if *file == settings.files.delivered && *file != settings.files.ordered => {
            with_option(rt.alloc(), trouble, "--delivered-encoding")
        }
        _ => trouble,
    }
}

// Matches both files.
fn matched<'a>(
    rt: &HostRuntime,
    settings: &Settings<'a>,
) -> Result<(Vec<u8>, Findings), Trouble<'a>> {
    let state = RandomState::new(rt).map_err(|error| Trouble::Random(error))?;
    let files = [settings.files.ordered, settings.files.delivered];
    let inputs = HostInputs::new(rt, settings.reports, &files);
    let made = match_files(rt.alloc(), state, &inputs, &settings.ask, settings.files);
    inputs.end();
    match made {
        Ok(made) => Ok(made),
        Err(Unmatched::Trouble(trouble)) => Err(of_either(rt, settings, trouble)),
        Err(Unmatched::BadLines { file, errors }) => {
            name_lines(rt, settings, file, errors);
            Err(Trouble::Printed(BAD_INPUT))
        }
    }
}

// Does what the words ask for, and returns the status. The output is opened before anything is read.
fn answer<'a>(rt: &HostRuntime, words: &'a [String]) -> Result<u8, Trouble<'a>> {
    let command = command_of(rt.alloc(), OPTIONS)?.version(VERSION);
    let given = given_to(rt, Ok(command), words)?;
    let settings = Settings::of(rt, &given)?;
    let output = Output::open(rt, settings.output)?;
    let findings = output.finish(rt, matched(rt, &settings))?;
    for line in &findings.near {
        let _ = eprintln!(rt; "{PROGRAM}: {line}");
    }
    Ok(findings.status)
}

fn main(rt: HostRuntime) -> ExitCode {
    ExitCode::from(program(&rt, PROGRAM, |words| answer(&rt, words)))
}
