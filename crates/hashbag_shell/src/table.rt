//! Commands that are made of a table of text: each option of a program is a line of its table.
//!
//! A line is one of these:
//!
//! - `# PROGRAM | ABOUT`, the first line.
//! - `: JOB | ABOUT` declares a subcommand.
//! - `@ JOB JOB..`: the lines below are of these subcommands. Lines above the first such line are of the program itself.
//! - `= HEADING`: the help shows the options below under this heading.
//! - `--NAME -S VALUE | HELP | NOTE | NOTE..` declares an option. The short name may be missing. Without a value it is a flag.
//! - `NAME VALUE | HELP | NOTE` declares an argument. It is required, unless the value ends in `...`: then any number may be given. The value is what
//!   the help calls it, and may be missing.
//! - `. TEXT`: the help has this text, of several lines, after the options.
//!
//! A note is one of these:
//!
//! - `of VALUE VALUE..`: the value has to be one of these; `␣` is a space. With `in-any-case` upper and lower case don't matter.
//! - `number`: the value has to be a number.
//! - `default VALUE`: the value if the option isn't given.
//! - `required`, `optional`: the option has to be given, or the argument may be missing.
//! - `in GROUP`: the option is in this group.
//! - `not NAME NAME..`, `needs NAME NAME..`: these mustn't, or have to, be given with it; a name may be a group.
//!
//! A line that is none of these declares something else than was meant, and nothing here fails then. `share/table.awk` reports it.
ghost use Rattle.std.specs.Prelude.{◌≡◌, ◌++◌, [], IfOk};
ghost use Rattle.std.specs.Option.{option_map};
ghost use Rattle.clap.specs.Facts.{args_of};
ghost use Rattle.hashbag_shell.specs.Tables.{argument_names, arguments_of, declared_by, first_word, is_word_in, job_of, rest_of};

use crate::options::CommandResult;
use clap::{Arg, ArgAction, ArgMatches, Command, value_parser};
use std::alloc::{AllocError, Global};

// Returns what is before the first space, and what is behind it.
fn cut(text: &str) -> (&str, &str)
    ensures first { result.0.now ≡ first_word text.now }
    ensures rest { result.1.now ≡ rest_of text.now }
{
    text.split_once(' ').unwrap_or((text, ""))
}

// Returns the values that a note lists. They are kept until the program ends.
fn values_of<'a>(alloc: Global, list: &'a str) -> Result<&'a [&'a str], AllocError> {
    let mut values = Vec::new(alloc);
    for word in list.split(' ') {
        values.push(if word == "␣" { " " } else { word })?;
    }
    Ok(values.leak())
}

// Returns the argument with what a note says of it.
fn with_note<'a>(alloc: Global, arg: Arg<'a>, note: &'a str) -> Result<Arg<'a>, AllocError>
    ensures { IfOk result (λ noted. noted.id ≡ arg.entry.id) }
{
    let (key, list) = cut(note);
    match key {
        "of" => Ok(arg.value_parser(values_of(alloc, list)?)),
        "in-any-case" => Ok(arg.ignore_case(true)),
        "number" => Ok(arg.value_parser(value_parser!(usize))),
        "default" => Ok(arg.default_value(list)),
        "required" => Ok(arg.required(true)),
        "optional" => Ok(arg.required(false)),
        "in" => arg.group(list),
        "not" => arg.conflicts_with_all(values_of(alloc, list)?),
        "needs" => arg.requires_all(values_of(alloc, list)?),
        _ => Ok(arg),
    }
}

// Returns the argument with a word that follows its name: its short name, or what its value is called.
fn with_word<'a>(arg: Arg<'a>, word: &'a str) -> Arg<'a>
    ensures { result.id ≡ arg.entry.id }
{
    if word.is_empty() {
        return arg;
    }
    if let Some(short) = word.strip_prefix('-') {
        return arg.short(short.chars().next().unwrap_or('-'));
    }
    match word.strip_suffix("...") {
        Some(value) => arg
            .value_name(value)
            .num_args(1..)
            .action(ArgAction::Append)
            .required(false),
        None => arg.value_name(word).action(ArgAction::Set),
    }
}

// Returns the argument with the words that follow its name.
fn with_words<'a>(arg: Arg<'a>, words: &'a str) -> Arg<'a>
    ensures { result.id ≡ arg.entry.id }
{
    let mut arg = arg;
    'words: for word in words.split(' ') {
        arg = with_word(arg, word);
    }
    arg
}

// Returns the argument of this name, with nothing else of its line.
fn named<'a>(alloc: Global, name: &'a str) -> Arg<'a>
    ensures { result.id ≡ name.entry }
{
    match name.strip_prefix("--") {
        Some(long) => Arg::new(alloc, name).long(long).action(ArgAction::SetTrue),
        None => Arg::new(alloc, name).required(true),
    }
}

// Returns the argument that a line declares.
fn arg_of<'a>(alloc: Global, line: &'a str) -> Result<Arg<'a>, AllocError>
    ensures { IfOk result (λ arg. arg.id.now ≡ first_word line.entry.now) }
{
    let (names, said) = line.split_once(" | ").unwrap_or((line, ""));
    let (help, notes) = said.split_once(" | ").unwrap_or((said, ""));
    let (name, _) = cut(line);
    let (_, words) = cut(names);
    let mut arg = with_words(named(alloc, name), words).help(help);
    'notes: for note in notes.split(" | ") {
        arg = with_note(alloc, arg, note)?;
    }
    Ok(arg)
}

/// Returns the name of the subcommand that a line declares, or `None` if it declares none.
pub fn job_in(line: &str) -> Option<&str>
    ensures { option_map (λ name. name.now) result ≡ job_of line.now }
{
    let (first, said) = cut(line);
    if first != ":" {
        return None;
    }
    Some(cut(said).0)
}

// Returns whether a list of words has this word.
fn has_word(list: &str, word: &str) -> bool
    ensures { result ≡ is_word_in word.now list.now }
{
    list.split(' ').any(|other| other == word)
}

// Returns the command with what a line says of it: an argument, the heading of the options below, or the text after the options.
fn with_line<'a>(alloc: Global, command: Command<'a>, line: &'a str) -> CommandResult<'a>
    ensures { IfOk result (λ made. argument_names made ≡ argument_names command.entry ++ declared_by line.entry.now) }
{
    let (first, rest) = cut(line);
    if first.len() != 1 {
        return command.arg(arg_of(alloc, line)?);
    }
    Ok(match first {
        "=" => command.next_help_heading(rest),
        "." => command.after_help(rest),
        _ => command,
    })
}

// Returns the command with what the lines say of this subcommand; `""` is the program itself.
fn with_lines<'a>(
    alloc: Global,
    command: Command<'a>,
    lines: &[&'a str],
    job: &str,
) -> CommandResult<'a>
    // The command has the arguments that it had, and then the declared ones, by name and in order.
    ensures { IfOk result (λ made. argument_names made ≡ argument_names command.entry ++ arguments_of job.now lines.now) }
{
    let mut command = command;
    let mut is_of_job = job.is_empty();
    'lines: for line in lines {
        let (first, rest) = cut(line);
        if first == "@" {
            is_of_job = has_word(rest, job);
        } else if is_of_job {
            command = with_line(alloc, command, line)?;
        }
    }
    Ok(command)
}

// Returns a command without arguments: what is said of it is its name, and what it does.
fn begun<'a>(alloc: Global, said: &'a str) -> Command<'a>
    ensures { args_of result ≡ [] }
{
    let (_, about) = said.split_once(" | ").unwrap_or((said, ""));
    Command::new(alloc, cut(said).0).about(about)
}

// Returns the command of the program that has this table, with its subcommands, but without arguments of the program itself.
fn jobs_of<'a>(alloc: Global, lines: &[&'a str]) -> CommandResult<'a>
    ensures { IfOk result (λ made. args_of made ≡ []) }
{
    let program = lines.first().map_or("", |line| cut(line).1);
    let mut command = begun(alloc, program);
    'jobs: for line in lines {
        if let Some(name) = job_in(line) {
            let job = with_lines(alloc, begun(alloc, cut(line).1), lines, name)?;
            command = command.subcommand(job)?;
        }
    }
    Ok(command)
}

/// Returns the command of the program that has this table, with its subcommands.
///
/// # Errors
///
/// An allocation fails.
pub fn command_of<'a>(alloc: Global, lines: &[&'a str]) -> CommandResult<'a>
    // The program has the arguments that the lines declare for it, by name and in order. No clause speaks of its subcommands.
    ensures { IfOk result (λ made. argument_names made ≡ arguments_of [] lines.now) }
{
    with_lines(alloc, jobs_of(alloc, lines)?, lines, "")
}

/// Returns the value of an option that has a default.
pub fn value<'a>(given: &ArgMatches<'a>, name: &str) -> &'a str {
    given.get_str(name).unwrap_or("")
}
