//! Counting texts that come in blocks.
ghost use Rattle.std.specs.Prelude.{ℕ, List, OnOk};
ghost use Rattle.hashbag_words_lib.specs.Feeding.{AddsFed, EndsText, How};

use crate::counter::TextCounter;
use crate::errors::InputFault;
use crate::lines::LinesRead;
use crate::row_counter::RowCounter;
use crate::sinks::{RowSink, TokenSink};
use crate::troubles::of_input;
use hashbag_shell::trouble::Trouble;
use std::alloc::Global;

/// Counts the contents of texts that are fed in blocks.
pub trait Counter {
    /// `has how counter ended text`: the counter has what `how` counts in the texts `ended`, and in the lines of `text` that have ended.
    ghost has: { How → Self → List (List ℕ) → List ℕ → Type 0 };

    /// Counts the lines that end in a block.
    ///
    /// # Errors
    ///
    /// What is wrong with a line. Then the counter is of no use.
    fn feed(&mut self, block: &[u8]) -> Result<(), InputFault>
        // If the counter had `text`, it now has `text` and the block.
        ensures { OnOk result (AddsFed has self.old self.new block.now) };

    /// Ends a text. Returns how its lines were read.
    ///
    /// # Errors
    ///
    /// What is wrong with its last line. Then the counter is of no use.
    fn end(&mut self) -> Result<LinesRead, InputFault>
        // The text is now the last one of those that ended, and no text has begun.
        ensures { OnOk result (EndsText has self.old self.new) };

    /// Returns how the lines of the present text were read.
    fn reading(&self) -> LinesRead;
}

impl<K: TokenSink + Drop> Counter for TextCounter<'_, K> {
    ghost use Rattle.hashbag_words_lib.specs.Feeding.{HasCountedTexts};

    ghost has = { HasCountedTexts K.has };

    fn feed(&mut self, block: &[u8]) -> Result<(), InputFault> {
        TextCounter::feed(self, block)
    }

    fn end(&mut self) -> Result<LinesRead, InputFault> {
        self.end_text()
    }

    fn reading(&self) -> LinesRead {
        TextCounter::reading(self)
    }
}

impl<K: RowSink + Drop> Counter for RowCounter<K> {
    ghost use Rattle.hashbag_words_lib.specs.Feeding.{HasAddedTexts};

    ghost has = { HasAddedTexts K.has };

    fn feed(&mut self, block: &[u8]) -> Result<(), InputFault> {
        RowCounter::feed(self, block)
    }

    fn end(&mut self) -> Result<LinesRead, InputFault> {
        self.end_file()
    }

    fn reading(&self) -> LinesRead {
        RowCounter::reading(self)
    }
}

/// Counts a block of the text `name`.
///
/// # Errors
///
/// What is wrong with a line.
pub fn feed<'a, C: Counter>(
    alloc: Global,
    counter: &mut C,
    name: &'a str,
    block: &[u8],
) -> Result<(), Trouble<'a>>
    ensures { OnOk result (AddsFed C.has counter.old counter.new block.now) }
{
    match counter.feed(block) {
        Ok(()) => Ok(()),
        Err(fault) => Err(of_input(alloc, name, counter.reading().line, fault)),
    }
}

/// Ends the text `name`. Returns how its lines were read.
///
/// # Errors
///
/// What is wrong with its last line.
pub fn end<'a, C: Counter>(
    alloc: Global,
    counter: &mut C,
    name: &'a str,
) -> Result<LinesRead, Trouble<'a>>
    ensures { OnOk result (EndsText C.has counter.old counter.new) }
{
    match counter.end() {
        Ok(reading) => Ok(reading),
        Err(fault) => Err(of_input(alloc, name, counter.reading().line, fault)),
    }
}
