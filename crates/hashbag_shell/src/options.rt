//! Options that several programs have.
use crate::progress::Reports;
use clap::{ArgMatches, Command};
use hashbag_text::encoding::Encoding;
use std::alloc::AllocError;

/// A command, or the error of an allocation that failed while the command was built.
pub type CommandResult<'a> = Result<Command<'a>, AllocError>;

/// Returns the encoding that is given to this argument, or `None` for UTF-8.
pub fn encoding<'a>(given: &ArgMatches<'a>, name: &str) -> Option<Encoding> {
    Encoding::named(word(given, name, "UTF-8"))
}

/// Returns when progress is reported, as `--progress` and `--quiet` decide.
pub fn reports(given: &ArgMatches<'_>) -> Reports {
    if given.get_flag("--quiet") {
        return Reports::Never;
    }
    if given.get_flag("--progress") {
        return Reports::Always;
    }
    Reports::OnTerminal
}

/// Returns the value that is given to an argument, or the default.
pub fn word<'a>(given: &ArgMatches<'a>, name: &str, default: &'a str) -> &'a str {
    given.get_str(name).unwrap_or(default)
}
