//! Reading files of counts that come in blocks, however they are cut.
//!
//! A [`RowCounter`] is given bytes, so its clauses hold for any source of the bytes. It gives the rows to a [`RowSink`]. In the clauses:
//!
//! - `text` is what was fed of this file so far;
//! - `before` has the rows that the sink had at first, and then the rows of earlier files, and `shown` says how the sink shows rows, if it writes
//!   them;
//! - `HasAdded`: the sink has the rows of `before`, and of the lines of `text` that have ended.
ghost use Rattle.std.specs.Prelude.{◌≡◌, ℕ, ◌+◌, ◌-◌, ◌^◌, ◌∷◌, ◌++◌, [], List, min, OnErr, OnOk};
ghost use Rattle.hashbag_words_lib.specs.Added.{line_at, AddsBytes, AddsRowsOfLine, AddsWholeFile, EndsFile, HasAdded, IsCutOff, IsFirstNoRowOfFileWith, IsFirstNoRowWhateverFollows, RejectsLine};
ghost use Rattle.hashbag_words_lib.specs.Counted.{NoLineFeed};
ghost use Rattle.hashbag_words_lib.specs.Faults.{OnBadLine};

use crate::counter::{no_memory, without_return};
use crate::errors::{BadLine, InputFault};
use crate::lines::{BadLines, LinesRead};
use crate::merging::{add_row, past_mark};
use crate::rows::RowForm;
use crate::sinks::RowSink;
use memchr::memchr;
use std::alloc::Global;

/// A sink, and what it was given of files of counts so far.
///
/// The rows of the lines that have ended are given to the sink. The bytes of the line that hasn't ended are kept.
#[derive(Drop)]
pub struct RowCounter<K: Drop> {
    alloc: Global,
    form: RowForm,
    sink: K,
    partial: Vec<u8>,
    reading: LinesRead,
}

// Returns a line of a file. `before` lines of the file come before the line. A byte order mark at the beginning of the first line is removed.
fn past_mark_at(before: u64, line: &[u8]) -> &[u8]
    ensures { result.now ≡ line_at before line.now }
{
    if before == 0 {
        return past_mark(line);
    }
    line
}

// Adds the row of a line, which is given without its line end. A line that is no row is skipped or rejected.
fn add_line<K: RowSink>(
    alloc: Global,
    sink: &mut K,
    form: RowForm,
    line: &[u8],
    reading: &mut LinesRead,
) -> Result<(), InputFault>
    ensures rows { OnOk result (AddsRowsOfLine K.has sink.old sink.new form reading.old line.now) }
    ensures bad { OnBadLine result (RejectsLine form reading.old line.now) }
    ensures bad_lines { reading.new.bad_lines ≡ reading.old.bad_lines }
    ensures line { reading.new.line ≡ min (reading.old.line + 1) (2 ^ 64 - 1) }
{
    let line = past_mark_at(reading.line, line);
    reading.count_line();
    match add_row(alloc, sink, form, line) {
        Ok(()) => Ok(()),
        Err(InputFault::Line(bad)) => reading.pass_over(bad),
        Err(fault) => Err(fault),
    }
}

impl<K: RowSink + Drop> RowCounter<K> {
    /// Returns a counter that was given no bytes. It gives the rows of files with lines of this form to `sink`.
    pub fn new(alloc: Global, sink: K, form: RowForm, bad_lines: BadLines) -> RowCounter<K>
        // No file was fed so far. `before` are any rows that the sink has.
        ensures begins { (shown : _) → (before : List (List ℕ × ℕ)) → K.has shown sink before → HasAdded K.has shown before result [] }
        ensures form { result.form ≡ form }
        ensures bad_lines { result.reading.bad_lines ≡ bad_lines }
    {
        RowCounter {
            alloc,
            form,
            sink,
            partial: Vec::new(alloc),
            reading: LinesRead::new(bad_lines),
        }
    }

    /// Returns the sink. The row of a line that hasn't ended wasn't given to it yet.
    pub fn sink(&self) -> &K
        ensures { result.now ≡ self.now.sink }
    {
        &self.sink
    }

    /// Returns how many lines of the file have ended, and how many were skipped. After an `InputFault` the line that failed is included.
    pub fn reading(&self) -> LinesRead
        ensures { result ≡ self.now.reading }
    {
        self.reading
    }

    // Adds the row of `partial` followed by `tail` as one line, which a line feed ends.
    fn end_line(&mut self, tail: &[u8]) -> Result<(), InputFault>
        requires { NoLineFeed tail.now }
        ensures added { OnOk result (AddsBytes K.has self.old self.new (tail.now ++ 10 ∷ [])) }
        ensures bad { OnBadLine result (IsFirstNoRowWhateverFollows K.has self.old self.new (tail.now ++ 10 ∷ [])) }
        ensures form { self.new.form ≡ self.old.form }
        ensures bad_lines { self.new.reading.bad_lines ≡ self.old.reading.bad_lines }
    {
        if self.partial.is_empty() {
            return add_line(
                self.alloc,
                &mut self.sink,
                self.form,
                without_return(tail),
                &mut self.reading,
            );
        }
        let Ok(()) = self.partial.extend_from_slice(tail) else {
            return Err(no_memory(&mut self.reading));
        };
        let done = add_line(
            self.alloc,
            &mut self.sink,
            self.form,
            without_return(&self.partial),
            &mut self.reading,
        );
        self.partial.clear();
        done
    }

    // Adds the rows of the lines that end in these bytes. The bytes after the last line feed are kept.
    fn add_lines(&mut self, block: &[u8]) -> Result<(), InputFault>
        ensures added { OnOk result (AddsBytes K.has self.old self.new block.now) }
        ensures bad { OnBadLine result (IsFirstNoRowOfFileWith K.has self.old self.new block.now) }
        ensures form { self.new.form ≡ self.old.form }
        ensures bad_lines { self.new.reading.bad_lines ≡ self.old.reading.bad_lines }
    {
        let mut rest = block;
        'lines: while let Some(at) = memchr(b'\n', rest) {
            self.end_line(&rest[..at])?;
            rest = &rest[at + 1..];
        }
        let Ok(()) = self.partial.extend_from_slice(rest) else {
            return Err(no_memory(&mut self.reading));
        };
        Ok(())
    }

    /// Adds the rows of the lines that end in these bytes. The bytes after the last line feed are kept.
    ///
    /// # Errors
    ///
    /// `InputFault::Line` if a line is no row and bad lines aren't skipped. `InputFault::Bag` if an allocation fails, or the total would
    /// pass the limit of the bag. After an error use only [`RowCounter::reading`] and [`RowCounter::into_sink`].
    ///
    /// # Complexity
    ///
    /// Gives the sink one row per line. Only a line that isn't whole in the block is copied.
    pub fn feed(&mut self, block: &[u8]) -> Result<(), InputFault>
        // If the rows of `text` had been added, the rows of `text` and of the block are added now (`before`: see the head of this file).
        ensures added { OnOk result (AddsBytes K.has self.old self.new block.now) }

        // A line that fails as bad is the first line that is no row, in `text` followed by the block.
        ensures bad { OnBadLine result (IsFirstNoRowOfFileWith K.has self.old self.new block.now) }
        ensures form { self.new.form ≡ self.old.form }
        ensures bad_lines { self.new.reading.bad_lines ≡ self.old.reading.bad_lines }
    {
        self.add_lines(block)?;
        self.sink.flush()
    }

    // Skips or rejects `partial`, a last line without a line feed, unless it is empty.
    fn end_last(&mut self) -> Result<(), InputFault>
        ensures added { OnOk result (AddsWholeFile K.has self.old self.new) }
        ensures ended { OnOk result (self.new.partial.items ≡ []) }
        ensures cut { OnErr result (IsCutOff K.has self.old) }
        ensures form { self.new.form ≡ self.old.form }
        ensures bad_lines { self.new.reading.bad_lines ≡ self.old.reading.bad_lines }
    {
        if !self.partial.is_empty() {
            self.reading.count_line();
            self.reading.pass_over(BadLine::CutOff)?;
            self.partial.clear();
        }
        Ok(())
    }

    /// Ends the file, and returns how its lines were read. A last line without a line feed is bad. The next bytes are those of another
    /// file.
    ///
    /// # Errors
    ///
    /// `InputFault::Line(CutOff)` if no line feed ended the last line, and bad lines aren't skipped.
    pub fn end_file(&mut self) -> Result<LinesRead, InputFault>
        // The rows of the file now belong to `before`, and the next file is empty.
        ensures added { OnOk result (EndsFile K.has self.old self.new) }

        // The call fails only if no line feed ended the last line.
        ensures cut { OnErr result (IsCutOff K.has self.old) }
        ensures form { self.new.form ≡ self.old.form }
        ensures bad_lines { self.new.reading.bad_lines ≡ self.old.reading.bad_lines }
    {
        self.end_last()?;
        let reading = self.reading;
        self.reading = LinesRead::new(reading.bad_lines);
        Ok(reading)
    }

    /// Returns the sink. The row of a line that hasn't ended wasn't given to it.
    pub fn into_sink(self) -> K
        ensures sink { result ≡ self.sink }

        // If the last file was ended, the sink has the rows of all files.
        ensures added { (shown : _) → (before : _) → HasAdded K.has shown before self [] → K.has shown result before }
    {
        self.sink
    }
}
