//! A program, from its arguments to its exit status.
use crate::options::CommandResult;
use crate::status::{BAD_INPUT, DONE, IO_FAILED};
use crate::tips::without_far_tip;
use crate::trouble::Trouble;
use clap::error::ErrorKind;
use clap::{ArgMatches, Error};
use std::alloc::AllocError;
use std::rt::Env;
use std::{env, io};

/// Returns the words of the command line; the program's name is the first.
pub fn words_of<'a, R: Env + AllocGlobal>(rt: &R) -> Result<Vec<String>, Trouble<'a>> {
    match env::args(rt) {
        Ok(words) => Ok(words.collect(rt.alloc())?),
        Err(error) if error.kind() == io::ErrorKind::OutOfMemory => Err(Trouble::Memory),
        Err(_) => Err(Trouble::NotText),
    }
}

// Writes the parser's error to standard error, and returns `Printed` with the exit status.
fn print_error<'a, R: Eprint + AllocGlobal>(
    rt: &R,
    error: &Error,
) -> Result<Trouble<'a>, AllocError> {
    let alloc = rt.alloc();
    let message = error.to_string(alloc)?;
    let message = without_far_tip(alloc, message.as_str())?;
    Ok(Trouble::Printed(match eprint!(rt; "{message}") {
        Ok(()) => BAD_INPUT,
        Err(_) => IO_FAILED,
    }))
}

/// Prints the help, the version or the parser's error, and returns `Printed` with the exit status, or `Memory` if an allocation failed.
pub fn printed<'a, R: Print + Eprint + AllocGlobal>(rt: &R, error: &Error) -> Trouble<'a> {
    if error.kind() == ErrorKind::OutOfMemory {
        return Trouble::Memory;
    }
    if error.use_stderr() {
        return print_error(rt, error).unwrap_or(Trouble::Memory);
    }
    Trouble::Printed(if error.print(rt).is_err() {
        IO_FAILED
    } else {
        DONE
    })
}

/// Parses the words of the command line as `command` declares its arguments.
///
/// # Errors
///
/// `Printed` if the words ask for the help or the version, or are bad. Then the help, the version or a message was printed. `Memory` if an
/// allocation fails.
pub fn given_to<'a, R: Print + Eprint + AllocGlobal>(
    rt: &R,
    command: CommandResult<'a>,
    words: &'a [String],
) -> Result<ArgMatches<'a>, Trouble<'a>> {
    match command?.try_get_matches_from(words) {
        Ok(given) => Ok(given),
        Err(error) => Err(printed(rt, &error)),
    }
}

/// Returns the exit status of a program. If `ended` is a trouble, reports that first.
pub fn status_of<R: Eprint>(rt: &R, program: &str, ended: Result<u8, Trouble<'_>>) -> u8 {
    match ended {
        Ok(status) => status,
        Err(trouble) => trouble.report(rt, program),
    }
}

/// Calls `answer` with the words of the command line, and returns the exit status. If the words can't be read, or `answer` fails, reports why. The
/// message begins with `name`.
pub fn program<R, F>(rt: &R, name: &str, answer: F) -> u8
where
    R: Env + Eprint + AllocGlobal,
    F: FnOnce(&[String]) -> Result<u8, Trouble<'_>>,
    requires { F.IsAlwaysCallable answer }
{
    match words_of(rt) {
        Ok(words) => status_of(rt, name, answer(words.as_slice())),
        Err(trouble) => trouble.report(rt, name),
    }
}
