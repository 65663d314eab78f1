//! How the lines of an input are read.
ghost use Rattle.std.specs.Prelude.{◌≡◌, ◌+◌, ◌-◌, ◌^◌, min, Err, IsOk, IfErr, OnOk};

use crate::errors::{BadLine, InputFault};

/// Whether a bad line is an error or is skipped.
#[derive(Clone, Copy, Debug, PartialEq, Eq)]
pub enum BadLines {
    /// A bad line is an error.
    Rejected,
    /// A bad line is skipped, and the skipped lines are counted.
    Skipped,
}

/// How an input is read, and how many lines were read.
#[derive(Clone, Copy, Debug, PartialEq, Eq)]
pub struct LinesRead {
    /// Whether a bad line is an error or is skipped.
    pub bad_lines: BadLines,
    /// The number of the last line that was read: 0 before the first line, at most 2^64-1.
    pub line: u64,
    /// How many bad lines were skipped.
    pub skipped: u64,
    /// How many lines had bytes that were replaced, since they weren't UTF-8.
    pub replaced: u64,
}

impl LinesRead {
    /// Returns the reading of an input before its first line.
    pub fn new(bad_lines: BadLines) -> LinesRead
        ensures bad_lines { result.bad_lines ≡ bad_lines }
        ensures unread { (result.line ≡ 0) × (result.skipped ≡ 0) × (result.replaced ≡ 0) }
    {
        LinesRead {
            bad_lines,
            line: 0,
            skipped: 0,
            replaced: 0,
        }
    }

    // Counts a line that was read.
    pub(crate) fn count_line(&mut self)
        ensures line { self.new.line ≡ min (self.old.line + 1) (2 ^ 64 - 1) }
        ensures skipped { self.new.skipped ≡ self.old.skipped }
        ensures replaced { self.new.replaced ≡ self.old.replaced }
        ensures bad_lines { self.new.bad_lines ≡ self.old.bad_lines }
    {
        self.line = self.line.saturating_add(1);
    }

    // Counts a line whose bytes were replaced.
    pub(crate) fn count_replaced(&mut self)
        ensures replaced { self.new.replaced ≡ min (self.old.replaced + 1) (2 ^ 64 - 1) }
        ensures skipped { self.new.skipped ≡ self.old.skipped }
        ensures line { self.new.line ≡ self.old.line }
        ensures bad_lines { self.new.bad_lines ≡ self.old.bad_lines }
    {
        self.replaced = self.replaced.saturating_add(1);
    }

    // Skips a bad line if bad lines are skipped, else returns it as an error.
    pub(crate) fn pass_over(&mut self, bad: BadLine) -> Result<(), InputFault>
        ensures rejected { self.old.bad_lines ≡ BadLines.Rejected → result ≡ Err (InputFault.Line bad) }
        ensures only_rejected { IfErr result (λ _. self.old.bad_lines ≡ BadLines.Rejected) }
        ensures passed { self.old.bad_lines ≡ BadLines.Skipped → IsOk result }
        ensures only_passed { OnOk result (self.old.bad_lines ≡ BadLines.Skipped) }
        ensures skipped { OnOk result (self.new.skipped ≡ min (self.old.skipped + 1) (2 ^ 64 - 1)) }
        ensures replaced { self.new.replaced ≡ self.old.replaced }
        ensures line { self.new.line ≡ self.old.line }
        ensures bad_lines { self.new.bad_lines ≡ self.old.bad_lines }
    {
        match self.bad_lines {
            BadLines::Rejected => Err(InputFault::Line(bad)),
            BadLines::Skipped => {
                self.skipped = self.skipped.saturating_add(1);
                Ok(())
            }
        }
    }
}
