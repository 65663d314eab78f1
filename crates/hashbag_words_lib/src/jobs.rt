//! Whole jobs: from the inputs of a call to the text that shows their tokens.
//!
//! Where a clause names a parameter alone, it means both what the parameter was before the call and what it is after it.
ghost use Rattle.std.specs.Prelude.{◌≡◌, ◌++◌, IfOk, OnOk};
ghost use Rattle.hashbag_words_lib.specs.Jobs.{AddsFileRows, CountsTokens, WritesLines, WritesRows, WritesSums, WritesTokens};
ghost use Rattle.hashbag_words_lib.specs.Shown.{shown_bytes, ShowsCounted};
ghost use Rattle.hashbag_words_lib.specs.Sums.{EndsSumsIn};

use crate::choice::Choice;
use crate::counter::TextCounter;
use crate::inputs::{Blocks, count_all};
use crate::lines::BadLines;
use crate::row_counter::RowCounter;
use crate::rows::RowForm;
use crate::rule::Rule;
use crate::shown_text::{Look, Shown, shown_of};
use crate::sums::Sums;
use crate::text_output::TextOutput;
use crate::token_lines::TokenLines;
use crate::troubles::of_output;
use crate::writing::Format;
use hashbag_core::HashBag;
use hashbag_shell::trouble::Trouble;
use hashbag_text::encoding::Encoding;
use std::alloc::Global;
use std::hash::BuildHasher;
use std::mem;

/// How inputs are read.
#[derive(Clone, Copy)]
pub struct Reading {
    /// Their encoding, `None` for UTF-8.
    pub encoding: Option<Encoding>,
    /// Whether a bad line is an error or is skipped.
    pub bad_lines: BadLines,
}

/// Returns the text that shows the tokens of a bag.
///
/// # Errors
///
/// `Memory` if an allocation fails.
pub fn show_bag<'a, 'b, S: BuildHasher + Drop>(
    alloc: Global,
    bag: &'b mut HashBag<String, S>,
    choice: Choice<'_>,
    look: Look,
) -> Result<Shown<'b>, Trouble<'a>>
    ensures { IfOk result (λ shown. ShowsCounted choice.entry look bag.old (shown_bytes shown)) }
{
    match shown_of(alloc, bag, choice, look) {
        Ok(shown) => Ok(shown),
        Err(_) => Err(Trouble::Memory),
    }
}

// Counts the tokens of the inputs of these names.
fn count_tokens<'a, B: Blocks<'a>, S: BuildHasher + Copy + Drop>(
    alloc: Global,
    inputs: &mut B,
    bag: &mut HashBag<String, S>,
    rule: Rule<'_>,
    reading: Reading,
    names: &[&'a str],
) -> Result<(), Trouble<'a>>
    ensures { OnOk result (CountsTokens B.ended reading names inputs rule bag) }
{
    let none = HashBag::with_hasher(alloc, *bag.hasher());
    let given = mem::replace(bag, none);
    let mut counter = TextCounter::new(alloc, given, rule, reading.bad_lines);
    let counted = count_all(alloc, inputs, &mut counter, reading.encoding, names);
    *bag = counter.into_sink();
    counted
}

// Adds the counts of the files of these names.
fn add_rows<'a, B: Blocks<'a>, S: BuildHasher + Copy + Drop>(
    alloc: Global,
    inputs: &mut B,
    bag: &mut HashBag<String, S>,
    form: RowForm,
    reading: Reading,
    names: &[&'a str],
) -> Result<(), Trouble<'a>>
    ensures { OnOk result (AddsFileRows B.ended reading names inputs form bag) }
{
    let none = HashBag::with_hasher(alloc, *bag.hasher());
    let given = mem::replace(bag, none);
    let mut counter = RowCounter::new(alloc, given, form, reading.bad_lines);
    let added = count_all(alloc, inputs, &mut counter, reading.encoding, names);
    *bag = counter.into_sink();
    added
}

/// Counts the tokens of the inputs of these names, and returns the text that shows the tokens.
///
/// # Errors
///
/// What is wrong with an input or one of its lines.
pub fn show_tokens<'a, 'b, B: Blocks<'a>, S: BuildHasher + Copy + Drop>(
    alloc: Global,
    inputs: &mut B,
    bag: &'b mut HashBag<String, S>,
    rule: Rule<'_>,
    reading: Reading,
    names: &[&'a str],
    choice: Choice<'_>,
    look: Look,
) -> Result<Shown<'b>, Trouble<'a>>
    // If the bag was empty, the text shows the tokens of all bytes of all inputs. If bad lines are rejected, no input has one.
    ensures { IfOk result (WritesTokens B.ended choice look reading names inputs rule bag) }
{
    count_tokens(alloc, inputs, bag, rule, reading, names)?;
    inputs.end_report();
    show_bag(alloc, bag, choice, look)
}

/// Adds the counts of the files of these names, and returns the text that shows the sums.
///
/// # Errors
///
/// What is wrong with a file or one of its lines.
pub fn show_rows<'a, 'b, B: Blocks<'a>, S: BuildHasher + Copy + Drop>(
    alloc: Global,
    inputs: &mut B,
    bag: &'b mut HashBag<String, S>,
    form: RowForm,
    reading: Reading,
    names: &[&'a str],
    choice: Choice<'_>,
    look: Look,
) -> Result<Shown<'b>, Trouble<'a>>
    // If the bag was empty, the text shows the tokens that the rows of all files count.
    ensures { IfOk result (WritesRows B.ended choice look reading names inputs form bag) }
{
    add_rows(alloc, inputs, bag, form, reading, names)?;
    inputs.end_report();
    show_bag(alloc, bag, choice, look)
}

// Ends lines. Returns where they are written, and whether that succeeded.
fn ended<'a, W: TextOutput + Drop>(mut lines: TokenLines<W>) -> (W, Result<(), Trouble<'a>>)
    ensures { OnOk result.1 (W.written result.0 ≡ W.written lines.to ++ lines.part.items) }
{
    let done = match lines.end() {
        Ok(()) => Ok(()),
        Err(fault) => Err(of_output(fault)),
    };
    (lines.into_output(), done)
}

/// Writes each token of the inputs of these names as a line, in order, as the inputs are read. Returns where the lines are written, and whether that
/// succeeded.
///
/// # Errors
///
/// What is wrong with an input or one of its lines, or `Write` if a write fails. Then the lines before it may have been written.
///
/// # Complexity
///
/// Keeps in memory one line of an input, one block, and the lines of its tokens.
pub fn write_tokens<'a, B: Blocks<'a>, W: TextOutput + Drop>(
    alloc: Global,
    inputs: &mut B,
    output: W,
    rule: Rule<'_>,
    reading: Reading,
    names: &[&'a str],
) -> (W, Result<(), Trouble<'a>>)
    // If nothing was written before, exactly the lines of the tokens of all bytes of all inputs were written, in order. If bad lines are rejected, no
    // input has one.
    ensures { OnOk result.1 (WritesLines B.ended W.written reading names inputs rule output result.0) }
{
    let lines = TokenLines::new(alloc, output);
    let mut counter = TextCounter::new(alloc, lines, rule, reading.bad_lines);
    let written = count_all(alloc, inputs, &mut counter, reading.encoding, names);
    let lines = counter.into_sink();
    match written {
        Ok(()) => ended(lines),
        Err(trouble) => (lines.into_output(), Err(trouble)),
    }
}

// Ends sums. Returns where they are written, and whether no row was shown.
fn ended_sums<'a, W: TextOutput + Drop>(mut sums: Sums<'_, W>) -> (W, Result<bool, Trouble<'a>>)
    ensures { OnOk result.1 (EndsSumsIn W.written sums.entry result.0) }
{
    let done = match sums.end() {
        Ok(is_empty) => Ok(is_empty),
        Err(fault) => Err(of_output(fault)),
    };
    (sums.into_output(), done)
}

/// Adds up neighbouring rows of files of `tsv` whose lines are in the order of `LC_ALL=C sort`, one file after the other, and writes the sums as they
/// come. Returns where they are written, and whether no row was shown.
///
/// # Errors
///
/// What is wrong with a file or one of its lines, or a row that isn't in order; `Write` if a write fails. Then the rows before it may have been
/// written.
///
/// # Complexity
///
/// Keeps in memory one line, one block, and the rows of its lines.
pub fn write_sums<'a, B: Blocks<'a>, W: TextOutput + Drop>(
    alloc: Global,
    inputs: &mut B,
    output: W,
    reading: Reading,
    names: &[&'a str],
    choice: Choice<'_>,
    format: Format,
) -> (W, Result<bool, Trouble<'a>>)
    // If nothing was written before, the text of the sums of all rows of all files was written, each token once.
    ensures { OnOk result.1 (WritesSums B.ended W.written reading names inputs choice format output result.0) }
{
    let sums = match Sums::begin(alloc, output, choice, format) {
        Ok(sums) => sums,
        Err(output) => return (output, Err(Trouble::Memory)),
    };
    let mut counter = RowCounter::new(alloc, sums, RowForm::Tsv, reading.bad_lines);
    let summed = count_all(alloc, inputs, &mut counter, reading.encoding, names);
    let sums = counter.into_sink();
    match summed {
        Ok(()) => ended_sums(sums),
        Err(trouble) => (sums.into_output(), Err(trouble)),
    }
}
