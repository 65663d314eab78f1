//! The text of rows, in parts.
ghost use Rattle.std.specs.Prelude.{◌≡◌, ◌++◌, map, IfOk, OnOk};
ghost use Rattle.hashbag_core.specs.Walks.{seen};
ghost use Rattle.hashbag_words_lib.specs.RowText.{bytes_left, rows_left_in, IsOverIfNone};
ghost use Rattle.hashbag_words_lib.specs.Sorted.{row_of};
ghost use Rattle.hashbag_words_lib.specs.Writing.{text_of};

use crate::writing::{Format, push_in};
use std::alloc::{AllocError, Global};
use std::io::{self, Read};

// How many bytes of the text are built at once, at least.
const PART: usize = 1 << 16;

/// The text of rows, which is read in parts. [`RowText::new`] allocates, and reading doesn't.
#[derive(Drop)]
pub struct RowText<'a> {
    rows: Vec<(&'a String, usize)>,
    // How many rows have been built.
    built: usize,
    format: Format,
    // The row that is being built.
    row: Vec<u8>,
    // The part that is being read, and how many bytes of it were read.
    part: Vec<u8>,
    read: usize,
    // Whether the end of the text is in the part.
    is_ended: bool,
}

// Returns the length of the longest token in bytes.
fn longest(rows: &Vec<(&String, usize)>) -> usize {
    let mut most = 0usize;
    for (token, _count) in rows {
        most = most.max(token.len());
    }
    most
}

// Returns how many bytes the row of a token of this length may have. A byte of the token is written as at most six bytes, such as `\\u0001`.
fn room(longest: usize) -> usize {
    longest.saturating_mul(6).saturating_add(64)
}

impl<'a> RowText<'a> {
    /// Returns the text of tokens with their counts, in the order of `rows`.
    ///
    /// # Errors
    ///
    /// An allocation fails.
    ///
    /// # Complexity
    ///
    /// Allocates room for some 65,536 bytes, and for twelve times the longest token.
    pub fn new(
        alloc: Global,
        format: Format,
        rows: Vec<(&'a String, usize)>,
    ) -> Result<RowText<'a>, AllocError>
        // All bytes of the text are left to read: the rows in this format, with what it writes before the first row and after the last one.
        ensures { IfOk result (λ text. bytes_left text ≡ text_of format (map row_of (map seen rows.entry.items))) }
    {
        let room = room(longest(&rows));
        let row = Vec::with_capacity(alloc, room)?;
        let mut part = Vec::with_capacity(alloc, room.saturating_add(PART))?;
        part.extend_from_slice(format.head())?;
        Ok(RowText {
            rows,
            built: 0,
            format,
            row,
            part,
            read: 0,
            is_ended: false,
        })
    }

    /// Returns whether there are no rows.
    pub fn is_empty(&self) -> bool {
        self.rows.is_empty()
    }

    // Appends rows to the part until it is full. After the last row, appends the end of the text.
    fn build(&mut self) -> io::Result<()>
        ensures text { self.new.part.items ++ rows_left_in self.new ≡ self.old.part.items ++ rows_left_in self.old }
        ensures read { self.new.read ≡ self.old.read }
        ensures end { OnOk result (IsOverIfNone self.new) }
    {
        'rows: while self.built < self.rows.len() && self.part.len() < PART {
            let (token, count) = self.rows[self.built];
            self.row.clear();
            let is_first = self.built == 0;
            push_in(self.format, is_first, &mut self.row, token.as_str(), count)?;
            self.part.extend_from_slice(&self.row)?;
            self.built += 1;
        }
        if self.built >= self.rows.len() && !self.is_ended {
            self.part.extend_from_slice(self.format.end())?;
            self.is_ended = true;
        }
        Ok(())
    }
}

impl Read for RowText<'_> {
    ghost use Rattle.std.specs.Prelude.{Some};
    ghost use Rattle.hashbag_words_lib.specs.RowText.{bytes_left};

    // The bytes of the text that weren't read.
    ghost remaining = { λ text. Some (bytes_left text) };

    fn read(&mut self, buf: &mut [u8]) -> io::Result<usize> {
        if self.read >= self.part.len() {
            self.part.clear();
            self.read = 0;
            self.build()?;
        }
        let mut left = &self.part[self.read..];
        let n = left.read(buf)?;
        self.read += n;
        Ok(n)
    }
}
