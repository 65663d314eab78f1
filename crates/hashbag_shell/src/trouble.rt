//! Why a program failed, its message and its status.
ghost use Rattle.std.specs.Prelude.{◌≡◌, ◌↔◌, IsTrue};
ghost use Rattle.hashbag_shell.specs.Statuses.{IsReported, status_of};

use crate::status::{BAD_INPUT, IO_FAILED, NO_MEMORY, TOTAL_TOO_LARGE};
use std::alloc::AllocError;
use std::io::{self, ErrorKind};
use thiserror::Error;

/// Why a program failed.
#[derive(Debug, Drop, Error)]
pub enum Trouble<'a> {
    /// The help, the version, or a message on bad arguments was printed. This is the exit status.
    #[error("printed")]
    Printed(u8),
    /// An argument isn't UTF-8.
    #[error("an argument is not UTF-8")]
    NotText,
    /// The arguments don't fit together.
    #[error("{0}")]
    Arguments(String),
    /// A file wasn't opened, read or written.
    #[error("{file}: {error}")]
    File {
        /// The name of the file.
        file: &'a str,
        /// The system's error.
        error: io::Error,
    },
    /// A line is bad.
    #[error("{file}:{line}: {what}")]
    BadLine {
        /// The name of the file.
        file: &'a str,
        /// The line, from 1.
        line: u64,
        /// What is wrong with the line.
        what: String,
        /// Whether this line takes a total past its limit.
        is_total: bool,
    },
    /// Any other failure.
    #[error("{what}")]
    Other {
        /// The message.
        what: String,
        /// The exit status.
        status: u8,
    },
    /// An allocation failed.
    #[error("no memory")]
    Memory,
    /// An allocation failed while a file was read.
    #[error("{file}: no memory after {lines} line{}", plural(.lines))]
    MemoryIn {
        /// The name of the file.
        file: &'a str,
        /// How many of its lines were read.
        lines: u64,
    },
    /// The system gives no random numbers.
    #[error("random numbers: {0}")]
    Random(io::Error),
    /// A write to standard output or standard error failed. The message says standard output: if standard error fails, no message is shown.
    #[error("standard output: {0}")]
    Write(io::Error),
}

/// Returns the plural ending for a count of `n`: nothing for 1, else `s`.
pub fn plural(n: &u64) -> &'static str {
    if *n == 1 { "" } else { "s" }
}

impl<'a> Trouble<'a> {
    /// Returns `File`, or `Memory` if the error is out of memory.
    pub fn of_file(file: &'a str, error: io::Error) -> Trouble<'a> {
        match error.kind() {
            ErrorKind::OutOfMemory => Trouble::Memory,
            _ => Trouble::File { file, error },
        }
    }

    /// Returns `BadLine` with this text, or `Memory` if the text wasn't allocated.
    pub fn of_line(file: &'a str, line: u64, what: Result<String, AllocError>) -> Trouble<'a> {
        match what {
            Ok(what) => Trouble::BadLine {
                file,
                line,
                what,
                is_total: false,
            },
            Err(_) => Trouble::Memory,
        }
    }

    /// Returns `Other` with this message and exit status, or `Memory` if the message wasn't allocated.
    pub fn with_status(what: Result<String, AllocError>, status: u8) -> Trouble<'a> {
        match what {
            Ok(what) => Trouble::Other { what, status },
            Err(_) => Trouble::Memory,
        }
    }

    /// Returns whether a message is written: not for `Printed`, and not for a write to a pipe that nobody reads any more.
    pub fn is_reported(&self) -> bool
        ensures { IsTrue result ↔ IsReported self.now }
    {
        match self {
            Trouble::Printed(_) => false,
            Trouble::Write(error) => error.kind() != ErrorKind::BrokenPipe,
            _ => true,
        }
    }

    /// Returns the exit status of a program that ends for this reason:
    ///
    /// - 2: an argument or a line is bad;
    /// - 3: an allocation failed;
    /// - 4: a file wasn't opened, read or written, or the system gives no random numbers;
    /// - 5: a total is too large;
    /// - the status in a `Printed` or an `Other`.
    pub fn status(&self) -> u8
        ensures { result ≡ status_of self.now }
    {
        match self {
            Trouble::Printed(status) | Trouble::Other { status, .. } => *status,
            Trouble::BadLine { is_total, .. } if *is_total => TOTAL_TOO_LARGE,
            Trouble::NotText | Trouble::Arguments(_) | Trouble::BadLine { .. } => BAD_INPUT,
            Trouble::Memory | Trouble::MemoryIn { .. } => NO_MEMORY,
            Trouble::File { .. } | Trouble::Random(_) | Trouble::Write(_) => IO_FAILED,
        }
    }

    /// Writes the message to standard error, in a line that begins with the program's name, unless [`Trouble::is_reported`] is
    /// false. Returns the exit status.
    pub fn report<R: Eprint>(&self, rt: &R, program: &str) -> u8
        ensures { result ≡ status_of self.now }
    {
        if self.is_reported() {
            let _ = eprintln!(rt; "{program}: {self}");
        }
        self.status()
    }
}

impl From<AllocError> for Trouble<'_> {
    fn from(_e: AllocError) -> Self {
        Trouble::Memory
    }
}
