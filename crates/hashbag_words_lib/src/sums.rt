//! Sums of sorted rows: rows of one token are neighbours, and are added up. The sums are written as they come.
//!
//! The order is that of `LC_ALL=C sort`: the order of the lines of `tsv` up to their tabs, by bytes.
ghost use Rattle.std.specs.Prelude.{◌≡◌, ◌∷◌, ◌++◌, [], ℕ, List, None, Some, true, string_bytes, IfOk, OnOk};
ghost use Rattle.hashbag_words_lib.specs.Counts.{KeepsRows, TakesRows};
ghost use Rattle.hashbag_words_lib.specs.Faults.{OnBadLine};
ghost use Rattle.hashbag_words_lib.specs.Sorted.{text_cmp};
ghost use Rattle.hashbag_words_lib.specs.Sums.{line_start, EndsRow, EndsSums, HasSums, IsHeld};
ghost use Rattle.std.specs.declared.cmp.Ordering.TheVariants.{Less};

use crate::choice::Choice;
use crate::errors::InputFault;
use crate::rows::push_token;
use crate::sinks::RowSink;
use crate::text_output::TextOutput;
use crate::writing::{Format, push_in};
use hashbag_core::BagError;
use std::alloc::{AllocError, Global};
use std::cmp::Ordering;
use std::mem;

/// The sums of rows that were given in order. A row is written once the next token is known.
#[derive(Drop)]
pub struct Sums<'e, W: Drop> {
    to: W,
    format: Format,
    choice: Choice<'e>,
    // The row of the last token, which isn't written yet.
    held: Option<(String, usize)>,
    // The beginning of the line of the last token; empty if no row was given.
    start: Vec<u8>,
    // Room for the beginning of the line of the next token.
    next: Vec<u8>,
    // The sum of all counts.
    total: usize,
    // Whether no row is shown so far.
    is_empty: bool,
    part: Vec<u8>,
}

// Puts the beginning of the line of a token, with its tab, into `start`.
fn put_start(start: &mut Vec<u8>, token: &[u8]) -> Result<(), AllocError>
    ensures { OnOk result (start.new.items ≡ line_start token.now) }
{
    start.clear();
    push_token(start, token)?;
    start.push(b'\t')?;
    Ok(())
}

// Returns whether the first bytes come before the second.
fn is_before(first: &[u8], second: &[u8]) -> bool
    ensures { result ≡ true → text_cmp first.now second.now ≡ Less }
{
    matches!(first.cmp(second), Ordering::Less)
}

impl<'e, W: TextOutput + Drop> Sums<'e, W> {
    /// Returns the sums of no row. The rows that `choice` shows are written to `to`.
    ///
    /// # Errors
    ///
    /// An allocation fails. Then `to` is returned.
    pub fn begin(alloc: Global, to: W, choice: Choice<'e>, format: Format) -> Result<Sums<'e, W>, W>
        // If nothing was written, no row was given.
        ensures { IfOk result (λ sums. W.written to ≡ [] → HasSums W.written (Some (choice.entry, format)) sums []) }
    {
        let mut part = Vec::new(alloc);
        match part.extend_from_slice(format.head()) {
            Ok(()) => Ok(Sums {
                to,
                format,
                choice,
                held: None,
                start: Vec::new(alloc),
                next: Vec::new(alloc),
                total: 0,
                is_empty: true,
                part,
            }),
            Err(_) => Err(to),
        }
    }

    // Returns whether the last token is this one.
    fn holds(&self, token: &str) -> bool
        ensures { result ≡ true → IsHeld self.now.held token.now }
    {
        match &self.held {
            Some((last, _)) => last.as_str() == token,
            None => false,
        }
    }

    // Adds a count to that of the last token.
    fn add_count(&mut self, count: usize) -> Result<(), InputFault>
        ensures row { (token : List ℕ) → IsHeld self.old.held token → OnOk result (TakesRows (HasSums W.written) self.old self.new ((token, count) ∷ [])) }
        ensures line { OnBadLine result ⊥ }
    {
        let Some((token, n)) = self.held.take() else {
            return Ok(());
        };
        match n.checked_add(count) {
            Some(sum) => {
                self.held = Some((token, sum));
                Ok(())
            }
            None => Err(InputFault::Bag(BagError::TooMany)),
        }
    }

    // Builds the row of the last token, if there is one that is shown.
    fn end_row(&mut self) -> Result<(), InputFault>
        ensures row { OnOk result (EndsRow W.written self.old self.new) }
        ensures line { OnBadLine result ⊥ }
        ensures start { self.new.start ≡ self.old.start }
        ensures next { self.new.next ≡ self.old.next }
        ensures held { self.new.held ≡ None }
    {
        let Some((token, count)) = self.held.take() else {
            return Ok(());
        };
        if count == 0 {
            return Ok(());
        }
        if !self.choice.shows(token.as_str(), count) {
            return Ok(());
        }
        match push_in(
            self.format,
            self.is_empty,
            &mut self.part,
            token.as_str(),
            count,
        ) {
            Ok(()) => {
                self.is_empty = false;
                Ok(())
            }
            Err(_) => Err(InputFault::Bag(BagError::Memory)),
        }
    }

    // Ends the row of the last token, and begins the row of this one, which comes after it.
    fn begin_row(&mut self, token: String, count: usize) -> Result<(), InputFault>
        ensures row { OnOk result (TakesRows (HasSums W.written) self.old self.new ((string_bytes token, count) ∷ [])) }
        ensures line { OnBadLine result ⊥ }
    {
        put_start(&mut self.next, token.as_bytes())?;
        if !is_before(self.start.as_slice(), self.next.as_slice()) {
            return Err(InputFault::NotInOrder);
        }
        self.end_row()?;
        mem::swap(&mut self.start, &mut self.next);
        self.held = Some((token, count));
        Ok(())
    }

    // Writes what is built.
    fn write(&mut self) -> Result<(), InputFault>
        ensures same { OnOk result (KeepsRows (HasSums W.written) self.old self.new) }
        ensures written { OnOk result (W.written self.new.to ≡ W.written self.old.to ++ self.old.part.items) }
        ensures empty { self.new.is_empty ≡ self.old.is_empty }
        ensures line { OnBadLine result ⊥ }
    {
        if self.part.is_empty() {
            return Ok(());
        }
        match self.to.append(&self.part) {
            Ok(()) => {
                self.part.clear();
                Ok(())
            }
            Err(error) => Err(InputFault::Write(error)),
        }
    }

    /// Ends the text: writes the last row, and what comes after it. Returns whether no row was shown.
    ///
    /// # Errors
    ///
    /// `InputFault::Write` if a write fails, `InputFault::Bag` if an allocation fails.
    pub fn end(&mut self) -> Result<bool, InputFault>
        // Whatever rows were given, the whole text of their sums is written.
        ensures { OnOk result (EndsSums W.written self.old self.new) }
    {
        self.end_row()?;
        self.part.extend_from_slice(self.format.end())?;
        self.write()?;
        Ok(self.is_empty)
    }

    /// Returns where the rows are written.
    pub fn into_output(self) -> W
        ensures { result ≡ self.entry.to }
    {
        self.to
    }
}

impl<W: TextOutput + Drop> RowSink for Sums<'_, W> {
    ghost use Rattle.hashbag_words_lib.specs.Sums.{HasSums};

    ghost has = { HasSums W.written };

    fn put_row(&mut self, token: String, count: usize) -> Result<(), InputFault> {
        let Some(total) = self.total.checked_add(count) else {
            return Err(InputFault::Bag(BagError::TooMany));
        };
        self.total = total;
        if self.holds(token.as_str()) {
            return self.add_count(count);
        }
        self.begin_row(token, count)
    }

    fn flush(&mut self) -> Result<(), InputFault> {
        self.write()
    }
}
