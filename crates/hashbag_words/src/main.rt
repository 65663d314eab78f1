//! Counts the words, lines, fields or matches of a pattern in text, and adds up files of counts.
#![tactic(auto)]

mod bag;
mod blocks;
mod folders;
mod input;
mod inputs;
mod jobs;
mod names;
mod output;

use hashbag_shell::VERSION;
use hashbag_shell::program::{given_to, status_of, words_of};
use hashbag_shell::status::BAD_INPUT;
use hashbag_shell::table::command_of;
use hashbag_shell::trouble::Trouble;
use hashbag_words_lib::options::{OPTIONS, is_job};
use hashbag_words_lib::settings::Settings;
use regex::Regex;
use std::alloc::{AllocError, Global};
use std::process::ExitCode;
use unicode_segmentation::UNICODE_VERSION;

// Returns the words. If they name no job, `count` is inserted after the name of the program: so `hashbag_words FILE` counts.
fn with_job(alloc: Global, given: Vec<String>) -> Result<Vec<String>, AllocError> {
    let mut words = given;
    let first = words.get(1).map_or("", |word| word.as_str());
    if !is_job(first) {
        words.insert(words.len().min(1), String::from_str(alloc, "count")?)?;
    }
    Ok(words)
}

// The name of the program. Its messages on standard error begin with it.
const PROGRAM: &str = "hashbag_words";

// Does a job on the inputs of these names, and returns the exit status.
fn run_on_inputs(
    rt: &HostRuntime,
    settings: &Settings<'_, '_>,
    pattern: Option<&Regex>,
    names: &[&str],
) -> u8 {
    match jobs::run(rt, settings, pattern, names) {
        Ok(status) => status,
        Err(trouble) => names::with_near_job(rt.alloc(), trouble).report(rt, PROGRAM),
    }
}

// Borrows each text.
fn lent(alloc: Global, texts: &Vec<String>) -> Result<Vec<&str>, AllocError> {
    let mut names = Vec::new(alloc);
    for text in texts {
        names.push(text.as_str())?;
    }
    Ok(names)
}

// Does a job on the files of these names, and on the files in the folders of these names. Returns the exit status.
fn run_on_folders(
    rt: &HostRuntime,
    settings: &Settings<'_, '_>,
    pattern: Option<&Regex>,
    names: &[&str],
) -> u8 {
    let files = match folders::files_of(rt, names) {
        Ok(files) => files,
        Err(trouble) => return trouble.report(rt, PROGRAM),
    };
    let Ok(names) = lent(rt.alloc(), &files) else {
        return Trouble::Memory.report(rt, PROGRAM);
    };
    run_on_inputs(rt, settings, pattern, &names)
}

// Does a job, and returns the exit status. If there is a list, its names are the inputs.
fn run_with_names(
    rt: &HostRuntime,
    settings: &Settings<'_, '_>,
    pattern: Option<&Regex>,
    list: Option<&String>,
) -> u8 {
    let Ok(names) = names::inputs_of(rt.alloc(), settings, list) else {
        return Trouble::Memory.report(rt, PROGRAM);
    };
    if settings.ask.is_recursive() {
        return run_on_folders(rt, settings, pattern, &names);
    }
    run_on_inputs(rt, settings, pattern, &names)
}

// Reads the list of inputs, if one is named, does the job, and returns the exit status.
fn run_with_list(rt: &HostRuntime, settings: &Settings<'_, '_>, pattern: Option<&Regex>) -> u8 {
    let Some(name) = settings.ask.files_from() else {
        return run_with_names(rt, settings, pattern, None);
    };
    let null = settings.ask.many().is_some_and(|many| many.null);
    match names::read_list(rt, name, null) {
        Ok(list) => run_with_names(rt, settings, pattern, Some(&list)),
        Err(trouble) => trouble.report(rt, PROGRAM),
    }
}

// Compiles the pattern, if there is one, does the job, and returns the exit status. No file is opened for a pattern that is bad.
fn run_with_pattern(rt: &HostRuntime, settings: &Settings<'_, '_>) -> u8 {
    match jobs::pattern_of(rt.alloc(), settings.ask) {
        Ok(pattern) => run_with_list(rt, settings, pattern.as_ref()),
        Err(trouble) => trouble.report(rt, PROGRAM),
    }
}

// Returns what `--version` prints after the name.
fn version(alloc: Global) -> Result<String, AllocError> {
    let (major, minor, patch) = UNICODE_VERSION;
    format!(in alloc; "{VERSION} (Unicode {major}.{minor}.{patch})")
}

// Does the job that the words name, and returns the exit status.
fn answer<'a>(rt: &HostRuntime, version: &'a str, words: &'a [String]) -> Result<u8, Trouble<'a>> {
    let command = command_of(rt.alloc(), OPTIONS)?
        .version(version)
        .subcommand_required(true);
    let given = given_to(rt, Ok(command), words)?;
    let Some((job, given)) = given.subcommand() else {
        return Ok(BAD_INPUT);
    };
    let settings = Settings::of(rt.alloc(), job, given)?;
    Ok(run_with_pattern(rt, &settings))
}

// Returns the words of the command line, which name a job.
fn words<'a>(rt: &HostRuntime) -> Result<Vec<String>, Trouble<'a>> {
    Ok(with_job(rt.alloc(), words_of(rt)?)?)
}

fn run(rt: &HostRuntime) -> u8 {
    let Ok(version) = version(rt.alloc()) else {
        return Trouble::Memory.report(rt, PROGRAM);
    };
    match words(rt) {
        Ok(words) => {
            let ended = answer(rt, version.as_str(), words.as_slice());
            status_of(rt, PROGRAM, ended)
        }
        Err(trouble) => trouble.report(rt, PROGRAM),
    }
}

fn main(rt: HostRuntime) -> ExitCode {
    ExitCode::from(run(&rt))
}
