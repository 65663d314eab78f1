//! The program's input: a step on one of two bags in each line.
ghost use Rattle.std.specs.Prelude.{◌≡◌, ◌+◌, ◌==◌, map, not, codes, option_map, IfOk, IfErr, OnOk};
ghost use Rattle.std.specs.Char.{is_ascii_digit};
ghost use Rattle.std.specs.List.{list_all, slice_split};
ghost use Rattle.hashbag_run_lib.specs.Commands.{number_in, numbers_in, command_in, command_on, is_bad, command_of, AppendsCommand};
ghost use Rattle.hashbag_run_lib.specs.Format.{AreStepsOf, IsBadLineOf, step_on_a, step_on_b};

use crate::verbs::step_of;
use hashbag::script::Step;
use std::alloc::{AllocError, Global};
use std::str;

/// Why an input can't be read.
#[derive(Drop)]
pub enum LinesError {
    /// The line with this number is no step. Lines are counted from 1.
    BadLine(u64),
    /// An allocation failed.
    Memory,
}

impl From<AllocError> for LinesError {
    ghost use Rattle.hashbag_run_lib.specs.declared.lines.LinesError.TheVariants.{Memory};

    ghost from_gives = { λ _ e. e ≡ Memory };

    fn from(_e: AllocError) -> LinesError {
        LinesError::Memory
    }
}

// The greatest number of digits of a number. Leading zeros count.
const DIGITS: usize = 20;

// Returns whether each byte of the word is a decimal digit.
fn is_digits(word: &[u8]) -> bool
    ensures { result ≡ list_all is_ascii_digit word.now }
{
    word.iter().all(|byte| byte.is_ascii_digit())
}

// Returns the number of a word of 1 to 20 decimal digits. Returns `None` for any other word, or if the number isn't a `u64`.
fn number(word: &[u8]) -> Option<u64>
    ensures { result ≡ number_in word.now }
{
    if word.len() > DIGITS || !is_digits(word) {
        return None;
    }
    match str::from_utf8(word) {
        Ok(digits) => digits.parse().ok(),
        Err(_) => None,
    }
}

// Returns the numbers of the words, or `None` if a word is no number.
fn numbers(alloc: Global, words: &[&[u8]]) -> Result<Option<Vec<u64>>, AllocError>
    ensures { IfOk result (λ r. option_map (λ v. v.items) r ≡ numbers_in (map (λ w. w.now) words.now)) }
{
    let mut numbers = Vec::new(alloc);
    for word in words {
        match number(word) {
            Some(n) => numbers.push(n)?,
            None => return Ok(None),
        }
    }
    Ok(Some(numbers))
}

// Returns the step of these words, a verb and its numbers, or `None` if they are no step.
fn step_in(alloc: Global, words: &[&[u8]]) -> Result<Option<Step<u64>>, AllocError>
    ensures { IfOk result (λ step. option_map command_of step ≡ command_in (map (λ w. w.now) words.now)) }
{
    let Some((verb, words)) = words.split_first() else {
        return Ok(None);
    };
    let Some(numbers) = numbers(alloc, words)? else {
        return Ok(None);
    };
    step_of(alloc, verb, numbers.as_slice())
}

// Returns the words of a line: the parts between its spaces.
fn words_of(alloc: Global, line: &[u8]) -> Result<Vec<&[u8]>, AllocError>
    ensures { IfOk result (λ words. map (λ w. w.now) words.items ≡ slice_split (λ b. b == 32) line.now) }
{
    line.split(|byte| *byte == b' ').collect(alloc)
}

/// What a line is: a step on the bag that it names.
#[derive(Drop)]
pub enum Line {
    /// A step of bag a.
    A(Step<u64>),
    /// A step of bag b.
    B(Step<u64>),
    /// No step.
    Other,
}

// Returns the step of a line on the bag that it names, or `Line::Other`.
fn line_of(alloc: Global, line: &[u8]) -> Result<Line, AllocError>
    ensures a { IfOk result (λ l. option_map command_of (step_on_a l) ≡ command_on (codes "a") line.now) }
    ensures b { IfOk result (λ l. option_map command_of (step_on_b l) ≡ command_on (codes "b") line.now) }
{
    let words = words_of(alloc, line)?;
    let Some((bag, words)) = words.as_slice().split_first() else {
        return Ok(Line::Other);
    };
    if *bag == b"a".as_slice() {
        return match step_in(alloc, words)? {
            Some(step) => Ok(Line::A(step)),
            None => Ok(Line::Other),
        };
    }
    if *bag == b"b".as_slice() {
        return match step_in(alloc, words)? {
            Some(step) => Ok(Line::B(step)),
            None => Ok(Line::Other),
        };
    }
    Ok(Line::Other)
}

/// The steps of an input, in the order of its lines.
#[derive(Drop)]
pub struct Scripts {
    /// The steps of bag a.
    pub a: Vec<Step<u64>>,
    /// The steps of bag b.
    pub b: Vec<Step<u64>>,
}

impl Scripts {
    // Appends the step of a line, and returns `true`. If the line is no step, returns whether the line is empty.
    fn push(&mut self, alloc: Global, line: &[u8]) -> Result<bool, AllocError>
        ensures a { OnOk result (AppendsCommand (codes "a") line.now self.old.a.items self.new.a.items) }
        ensures b { OnOk result (AppendsCommand (codes "b") line.now self.old.b.items self.new.b.items) }
        ensures good { IfOk result (λ good. is_bad line.now ≡ not good) }
    {
        match line_of(alloc, line)? {
            Line::A(step) => {
                self.a.push(step)?;
                Ok(true)
            }
            Line::B(step) => {
                self.b.push(step)?;
                Ok(true)
            }
            Line::Other => Ok(line.is_empty()),
        }
    }
}

// Returns the number of the line after `passed` lines, or `Memory` if the number isn't a `u64`. A slice can't have that many lines, but no
// contract says that.
fn line_after(passed: u64) -> Result<u64, LinesError>
    ensures next { IfOk result (λ number. number ≡ passed + 1) }
    ensures memory { IfErr result (λ e. e ≡ LinesError.Memory) }
{
    match passed.checked_add(1) {
        Some(number) => Ok(number),
        None => Err(LinesError::Memory),
    }
}

/// Returns the steps of an input. Empty lines are counted and skipped.
///
/// # Errors
///
/// `BadLine` for the first line that is no step, or `Memory` if an allocation fails.
pub fn steps(alloc: Global, text: &[u8]) -> Result<Scripts, LinesError>
    // No line is bad: each is empty or a step. The two lists are the steps of the lines on bag a and on bag b, in order.
    ensures steps { IfOk result (λ scripts. AreStepsOf text.now scripts.a.items scripts.b.items) }
    ensures bad { IfErr result (IsBadLineOf text.now) }
{
    let mut scripts = Scripts {
        a: Vec::new(alloc),
        b: Vec::new(alloc),
    };
    let mut passed = 0u64;
    for line in text.split(|byte| *byte == b'\n') {
        let number = line_after(passed)?;
        if !scripts.push(alloc, line)? {
            return Err(LinesError::BadLine(number));
        }
        passed = number;
    }
    Ok(scripts)
}
