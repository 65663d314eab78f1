//! What is wrong with an input, as the trouble of a program.
use crate::errors::InputFault;
use hashbag_core::BagError;
use hashbag_shell::status::{BAD_INPUT, TOTAL_TOO_LARGE};
use hashbag_shell::trouble::Trouble;
use std::alloc::Global;
use std::io::{self, ErrorKind};

// Returns the trouble of a total that is too large with this line, or with the whole input if its lines aren't counted.
fn too_many<'a>(alloc: Global, file: &'a str, line: u64) -> Trouble<'a> {
    let what = match line {
        0 => format!(in alloc; "{file}: total past 2^64-1"),
        _ => format!(in alloc; "{file}:{line}: total past 2^64-1"),
    };
    Trouble::with_status(what, TOTAL_TOO_LARGE)
}

/// Returns the trouble of a fault of this input, after `lines` lines of it were read.
pub fn of_input<'a>(alloc: Global, file: &'a str, lines: u64, fault: InputFault) -> Trouble<'a> {
    match fault {
        InputFault::Line(bad) => Trouble::of_line(file, lines, bad.to_string(alloc)),
        // `lines` includes the line that failed.
        InputFault::Bag(BagError::Memory) => Trouble::MemoryIn {
            file,
            lines: lines.saturating_sub(1),
        },
        InputFault::Bag(_) => too_many(alloc, file, lines),
        InputFault::NotInOrder => { Trouble::of_line(file, lines, "not in order".to_string(alloc)) }
        InputFault::Write(error) => Trouble::Write(error),
    }
}

/// Returns the trouble of a file that isn't read as UTF-8, since it can't be read or isn't UTF-8.
pub fn of_text<'a>(alloc: Global, file: &'a str, error: io::Error) -> Trouble<'a> {
    if error.kind() == ErrorKind::InvalidData {
        let what = format!(in alloc; "{file}: not UTF-8; `iconv -f ENCODING` converts it");
        return Trouble::with_status(what, BAD_INPUT);
    }
    Trouble::of_file(file, error)
}

/// Returns the trouble of a text that wasn't written.
pub fn of_output<'a>(fault: InputFault) -> Trouble<'a> {
    match fault {
        InputFault::Write(error) => Trouble::Write(error),
        _ => Trouble::Memory,
    }
}
