//! The program, from the bytes of its input to the bytes of its output.
ghost use Rattle.std.specs.Prelude.{◌≡◌, IfOk, IfErr, string_bytes};
ghost use Rattle.hashbag_run_lib.specs.Format.{IsBadLineOf};
ghost use Rattle.hashbag_run_lib.specs.Lines.{bad_line};
ghost use Rattle.hashbag_run_lib.specs.Output.{IsRunOf};
ghost use Rattle.hashbag_run_lib.specs.Program.{IsAnswerTo, status_of, text_of};

use crate::answers::output_of;
use crate::lines::{LinesError, Scripts, steps};
use hashbag::BagError;
use std::alloc::{AllocError, Global};

/// The status if all steps were done.
pub const DONE: u8 = 0;

/// The status after a bad line of the input.
pub const BAD_LINE: u8 = 2;

/// The status after a failed allocation.
pub const NO_MEMORY: u8 = 3;

/// What the program writes after an input.
#[derive(Drop)]
pub enum Outcome {
    /// The output of the steps.
    Done(String),
    /// The line that names the first bad line.
    BadLine(String),
    /// An allocation failed.
    NoMemory,
}

impl Outcome {
    /// Returns the exit status.
    pub fn status(&self) -> u8
        // The status is 0 for `Done`, 2 for `BadLine`, and 3 for `NoMemory`.
        ensures { result ≡ status_of self.now }
    {
        match self {
            Outcome::Done(_) => DONE,
            Outcome::BadLine(_) => BAD_LINE,
            Outcome::NoMemory => NO_MEMORY,
        }
    }

    /// Returns the text to be written.
    pub fn text(&self) -> &str
        // The text is the one in `Done` or `BadLine`, and `no memory` and a line feed for `NoMemory`.
        ensures { result.now ≡ text_of self.now }
    {
        match self {
            Outcome::Done(text) | Outcome::BadLine(text) => text.as_str(),
            Outcome::NoMemory => "no memory\n",
        }
    }
}

impl From<BagError> for LinesError {
    ghost use Rattle.hashbag_run_lib.specs.declared.lines.LinesError.TheVariants.{Memory};

    ghost from_gives = { λ _ e. e ≡ Memory };

    fn from(_e: BagError) -> LinesError {
        LinesError::Memory
    }
}

// Returns the output of the steps of an input.
fn run_of(alloc: Global, input: &[u8]) -> Result<String, LinesError>
    ensures run { IfOk result (λ text. IsRunOf input.now (string_bytes text)) }
    ensures bad { IfErr result (IsBadLineOf input.now) }
{
    let Scripts { a, b } = steps(alloc, input)?;
    Ok(output_of(alloc, a, b)?)
}

// Returns the line that names the number of a bad line.
fn bad_line_text(alloc: Global, number: u64) -> Result<String, AllocError>
    ensures { IfOk result (λ text. string_bytes text ≡ bad_line number) }
{
    format!(in alloc; "bad line {number}\n")
}

/// Returns what the program writes after an input: the output of its steps, run on two empty bags; the number of the first line that is no
/// step; or that an allocation failed.
pub fn answer(alloc: Global, input: &[u8]) -> Outcome
    // `Done`: no line is bad, and the text is the output of the steps. `BadLine`: the text names the first bad line. `NoMemory`: nothing is stated.
    ensures { IsAnswerTo input.now result }
{
    match run_of(alloc, input) {
        Ok(text) => Outcome::Done(text),
        Err(LinesError::BadLine(number)) => match bad_line_text(alloc, number) {
            Ok(text) => Outcome::BadLine(text),
            Err(_) => Outcome::NoMemory,
        },
        Err(LinesError::Memory) => Outcome::NoMemory,
    }
}
