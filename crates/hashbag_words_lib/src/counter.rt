//! Counting the tokens of texts that come in blocks, however they are cut.
//!
//! A [`TextCounter`] is given bytes, so its clauses hold for any source of the bytes. It gives the tokens to a [`TokenSink`]. In the clauses:
//!
//! - `text` is what was fed of this text so far;
//! - `before` has the tokens that the sink had at first, and then the tokens of earlier texts;
//! - `HasCounted`: the sink has the tokens of `before`, and of the lines of `text` that have ended.
ghost use Rattle.std.specs.Prelude.{◌≡◌, [], ◌∷◌, ◌++◌, IfOk, OnOk};
ghost use Rattle.hashbag_core.specs.declared.bag.BagError.{BagError};
ghost use Rattle.hashbag_words_lib.specs.Counted.{CountsBytes, CountsWholeText, EndsWholeText, HasCounted, IsFirstBadOfText, IsFirstBadOfTextWith, IsFirstBadWhateverFollows, IsReadingOfText, NoLineFeed};
ghost use Rattle.hashbag_words_lib.specs.Faults.{OnBadLine};
ghost use Rattle.std.specs.Str.Lines.{strip_carriage_return};

use crate::counting::add_bytes;
use crate::errors::InputFault;
use crate::lines::{BadLines, LinesRead};
use crate::rule::Rule;
use crate::sinks::TokenSink;
use hashbag_core::BagError;
use memchr::memchr;
use std::alloc::Global;

/// A sink, and what it was given of a text so far.
///
/// The tokens of the lines that have ended are given to the sink. The bytes of the line that hasn't ended are kept.
#[derive(Drop)]
pub struct TextCounter<'r, K: Drop> {
    alloc: Global,
    rule: Rule<'r>,
    sink: K,
    partial: Vec<u8>,
    reading: LinesRead,
}

// Returns the line without a carriage return at its end.
pub(crate) fn without_return(line: &[u8]) -> &[u8]
    ensures { result.now ≡ strip_carriage_return line.now }
{
    let n = line.len();
    if n == 0 {
        return line;
    }
    if line[n - 1] != b'\r' {
        return line;
    }
    &line[..n - 1]
}

// Returns the fault of a failed allocation, and counts the line at which it happened as read.
pub(crate) fn no_memory(reading: &mut LinesRead) -> InputFault
    ensures fault { result ≡ InputFault.Bag BagError.Memory }
    ensures bad_lines { reading.new.bad_lines ≡ reading.old.bad_lines }
{
    reading.count_line();
    InputFault::Bag(BagError::Memory)
}

impl<'r, K: TokenSink + Drop> TextCounter<'r, K> {
    /// Returns a counter that was given no bytes. It gives the tokens to `sink`.
    pub fn new(alloc: Global, sink: K, rule: Rule<'r>, bad_lines: BadLines) -> TextCounter<'r, K>
        // No text was fed so far. `before` are any tokens that the sink has.
        ensures begins { (before : _) → K.has sink before → HasCounted K.has before result [] }
        ensures rule { result.rule ≡ rule.entry }
        ensures bad_lines { result.reading.bad_lines ≡ bad_lines }
    {
        TextCounter {
            alloc,
            rule,
            sink,
            partial: Vec::new(alloc),
            reading: LinesRead::new(bad_lines),
        }
    }

    /// Returns the sink. The tokens of the line that hasn't ended weren't given to it yet.
    pub fn sink(&self) -> &K
        ensures { result.now ≡ self.now.sink }
    {
        &self.sink
    }

    /// Returns how many lines of the text have ended, how many bad lines were skipped, and in how many lines bytes were replaced. After an
    /// `InputFault` the line that failed is included.
    pub fn reading(&self) -> LinesRead
        ensures { result ≡ self.now.reading }
    {
        self.reading
    }

    // Counts `partial` followed by `tail` as one line, which a line feed ends.
    fn end_line(&mut self, tail: &[u8]) -> Result<(), InputFault>
        requires { NoLineFeed tail.now }
        ensures counted { OnOk result (CountsBytes K.has self.old self.new (tail.now ++ 10 ∷ [])) }
        ensures bad { OnBadLine result (IsFirstBadWhateverFollows K.has self.old self.new (tail.now ++ 10 ∷ [])) }
        ensures rule { self.new.rule ≡ self.old.rule }
        ensures bad_lines { self.new.reading.bad_lines ≡ self.old.reading.bad_lines }
    {
        if self.partial.is_empty() {
            return add_bytes(
                self.alloc,
                &mut self.sink,
                &self.rule,
                without_return(tail),
                &mut self.reading,
            );
        }
        let Ok(()) = self.partial.extend_from_slice(tail) else {
            return Err(no_memory(&mut self.reading));
        };
        let done = add_bytes(
            self.alloc,
            &mut self.sink,
            &self.rule,
            without_return(&self.partial),
            &mut self.reading,
        );
        self.partial.clear();
        done
    }

    // Counts `partial` as the last line, unless it is empty.
    fn end_last(&mut self) -> Result<(), InputFault>
        ensures counted { OnOk result (CountsWholeText K.has self.old self.new) }
        ensures ended { OnOk result (self.new.partial.items ≡ []) }
        ensures bad { OnBadLine result (IsFirstBadOfText K.has self.old self.new) }
        ensures rule { self.new.rule ≡ self.old.rule }
        ensures bad_lines { self.new.reading.bad_lines ≡ self.old.reading.bad_lines }
    {
        if self.partial.is_empty() {
            return Ok(());
        }
        let done = add_bytes(
            self.alloc,
            &mut self.sink,
            &self.rule,
            &self.partial,
            &mut self.reading,
        );
        self.partial.clear();
        done
    }

    // Counts the lines that end in these bytes. The bytes after the last line feed are kept.
    fn add_lines(&mut self, block: &[u8]) -> Result<(), InputFault>
        ensures counted { OnOk result (CountsBytes K.has self.old self.new block.now) }
        ensures bad { OnBadLine result (IsFirstBadOfTextWith K.has self.old self.new block.now) }
        ensures rule { self.new.rule ≡ self.old.rule }
        ensures bad_lines { self.new.reading.bad_lines ≡ self.old.reading.bad_lines }
    {
        let mut rest = block;
        'lines: while let Some(at) = memchr(b'\n', rest) {
            self.end_line(&rest[..at])?;
            rest = &rest[at + 1..];
        }
        let Ok(()) = self.partial.extend_from_slice(rest) else {
            return Err(no_memory(&mut self.reading));
        };
        Ok(())
    }

    /// Counts the lines that end in these bytes. The bytes after the last line feed are kept.
    ///
    /// # Errors
    ///
    /// `InputFault::Line` if a line is bad and bad lines aren't skipped. `InputFault::Bag` if an allocation fails, or the total would pass
    /// the limit of the bag. `InputFault::Write` if the sink is a text, and a write fails. After an error use only [`TextCounter::reading`]
    /// and [`TextCounter::into_sink`].
    ///
    /// # Complexity
    ///
    /// Counts each line as [`add_line`](crate::counting::add_line) does. Only a line that isn't whole in the block is copied.
    pub fn feed(&mut self, block: &[u8]) -> Result<(), InputFault>
        // If `text` was counted before, `text` and the block are counted now (`before`: see the head of this file).
        ensures counted { OnOk result (CountsBytes K.has self.old self.new block.now) }

        // A line that fails as bad is the first bad line of `text` and the block together.
        ensures bad { OnBadLine result (IsFirstBadOfTextWith K.has self.old self.new block.now) }
        ensures rule { self.new.rule ≡ self.old.rule }
        ensures bad_lines { self.new.reading.bad_lines ≡ self.old.reading.bad_lines }
    {
        self.add_lines(block)?;
        self.sink.flush()
    }

    /// Ends the text: counts the last line if no line feed ended it. Returns how the lines were read. The next bytes are those of another
    /// text.
    ///
    /// # Errors
    ///
    /// Same as [`TextCounter::feed`], for the last line.
    pub fn end_text(&mut self) -> Result<LinesRead, InputFault>
        // The tokens of the text now belong to `before`, and the next text is empty. If bad lines are rejected, the text has none.
        ensures counted { OnOk result (EndsWholeText K.has self.old self.new) }

        // The result says how the lines of the text were read.
        ensures reading { IfOk result (λ reading. IsReadingOfText K.has self.old reading) }

        // A line that fails as bad is the first bad line of the text.
        ensures bad { OnBadLine result (IsFirstBadOfText K.has self.old self.new) }
        ensures rule { self.new.rule ≡ self.old.rule }
        ensures bad_lines { self.new.reading.bad_lines ≡ self.old.reading.bad_lines }
    {
        self.end_last()?;
        let reading = self.reading;
        self.reading = LinesRead::new(reading.bad_lines);
        Ok(reading)
    }

    /// Returns the sink. The tokens of a line that hasn't ended weren't given to it.
    pub fn into_sink(self) -> K
        ensures sink { result ≡ self.entry.sink }

        // If the last text was ended, the sink has the tokens of all texts.
        ensures counted { (before : _) → HasCounted K.has before self.entry [] → K.has result before }
    {
        self.sink
    }
}
