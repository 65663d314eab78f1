//! A whole run of the program over any reader and writer.
ghost use Rattle.std.specs.Prelude.{IfOk, OnOk};
ghost use Rattle.std.specs.Bool.{OnTrue};
ghost use Rattle.std.specs.Io.KnownBytes.{Appends, Consumes, IsAtEnd};
ghost use Rattle.hashbag_run_lib.specs.Execution.{AppendsPart, ExecutesOn, IsSent, IsStatus};

use crate::answer::answer;
pub use crate::answer::{BAD_LINE, DONE, NO_MEMORY};
use std::alloc::{AllocError, Global};
use std::io::{Read, Write};

/// The status after a failed read or write.
pub const IO_FAILED: u8 = 4;

// The greatest number of reads. An input that hasn't ended by then is a failed read.
const READS: u64 = 1 << 32;

// Why reading the input failed.
enum ReadError {
    Memory,
    Failed,
}

impl From<AllocError> for ReadError {
    fn from(_e: AllocError) -> ReadError {
        ReadError::Memory
    }
}

// Returns the whole input.
fn read_all<R: Read>(alloc: Global, input: &mut R) -> Result<Vec<u8>, ReadError>
    ensures bytes { IfOk result (λ text. Consumes (R.remaining input.old) (R.remaining input.new) text.items) }
    ensures end { OnOk result (IsAtEnd (R.remaining input.new)) }
{
    let mut text = Vec::new(alloc);
    let mut buffer = [0u8; 4096];
    'reads: for _ in 0..READS {
        match input.read(&mut buffer) {
            Ok(0) => return Ok(text),
            Ok(n) => text.extend_from_slice(&buffer[..n])?,
            Err(_) => return Err(ReadError::Failed),
        }
    }
    Err(ReadError::Failed)
}

// Writes the whole text, and returns whether that succeeded. It fails at the first error of the writer, or if the writer accepts no byte.
fn write_all<W: Write>(output: &mut W, text: &[u8]) -> bool
    ensures whole { OnTrue result (Appends (W.contents output.old) (W.contents output.new) text.now) }
    ensures part { AppendsPart (W.contents output.old) (W.contents output.new) text.now }
{
    let mut left = text;
    while !left.is_empty() {
        match output.write(left) {
            Ok(0) => return false,
            Ok(taken) => {
                let (_, rest) = left.split_at(taken);
                left = rest;
            }
            Err(_) => return false,
        }
    }
    true
}

// Writes the text, and returns `status`, or `IO_FAILED` if a write fails.
fn send<W: Write>(output: &mut W, text: &str, status: u8) -> u8
    ensures { IsSent (W.contents output.old) (W.contents output.new) text.now status result }
{
    if write_all(output, text.as_bytes()) {
        status
    } else {
        IO_FAILED
    }
}

/// Reads steps, runs them on two empty bags, writes the output, and returns the exit status. The output is the replies of each bag, then
/// the joins of the bags, then their trees.
///
/// The whole input is read before any line is checked, all lines are checked before any step is run, and the whole output is built before
/// any of it is written.
///
/// | Status | If | Written |
/// |---|---|---|
/// | 0 | all was done | the output |
/// | 2 | a line is bad | `bad line ` and its number |
/// | 3 | an allocation failed | `no memory` |
/// | 4 | a read failed | nothing |
/// | 4 | a write failed | a beginning of the text |
pub fn execute<R: Read, W: Write>(alloc: Global, input: &mut R, output: &mut W) -> u8
    // The status is 0, 2, 3 or 4.
    ensures statuses { IsStatus result }

    // If the contracts of the reader and of the writer know their bytes, then what was read and written is what the table says.
    ensures run { ExecutesOn R.remaining W.contents input.old input.new output.old output.new result }
{
    match read_all(alloc, input) {
        Ok(text) => {
            let answer = answer(alloc, text.as_slice());
            send(output, answer.text(), answer.status())
        }
        Err(ReadError::Memory) => send(output, "no memory\n", NO_MEMORY),
        Err(ReadError::Failed) => IO_FAILED,
    }
}
