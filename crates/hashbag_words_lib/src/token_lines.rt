//! Tokens that are written as lines, as they come.
ghost use Rattle.std.specs.Prelude.{◌≡◌, ◌∷◌, ◌++◌, [], OnOk};
ghost use Rattle.hashbag_words_lib.specs.Faults.{OnBadLine};
ghost use Rattle.hashbag_words_lib.specs.Rows.{escaped};
ghost use Rattle.hashbag_words_lib.specs.TokenLines.{HasLines};

use crate::errors::InputFault;
use crate::rows::push_token;
use crate::sinks::TokenSink;
use crate::text_output::TextOutput;
use hashbag_core::BagError;
use std::alloc::{AllocError, Global};

/// Tokens, a line each, escaped as in `tsv`. The lines that aren't written yet are in memory.
#[derive(Drop)]
pub struct TokenLines<W: Drop> {
    to: W,
    part: Vec<u8>,
}

// Appends a token as a line.
fn push_line(part: &mut Vec<u8>, token: &[u8]) -> Result<(), AllocError>
    ensures { OnOk result (part.new.items ≡ part.old.items ++ (escaped token.now ++ 10 ∷ [])) }
{
    push_token(part, token)?;
    part.push(b'\n')?;
    Ok(())
}

impl<W: TextOutput + Drop> TokenLines<W> {
    /// Returns the lines of no token. They are written to `to`.
    pub fn new(alloc: Global, to: W) -> TokenLines<W>
        // If nothing was written, no token was.
        ensures { W.written to ≡ [] → HasLines W.written result [] }
    {
        TokenLines {
            to,
            part: Vec::new(alloc),
        }
    }

    /// Writes the lines that are in memory.
    ///
    /// # Errors
    ///
    /// `InputFault::Write` if a write fails.
    pub fn end(&mut self) -> Result<(), InputFault>
        // What was written, and the lines in memory, are what they were. No line is in memory.
        ensures same { OnOk result (W.written self.new.to ++ self.new.part.items ≡ W.written self.old.to ++ self.old.part.items) }
        ensures empty { OnOk result (self.new.part.items ≡ []) }
        ensures line { OnBadLine result ⊥ }
    {
        if self.part.is_empty() {
            return Ok(());
        }
        match self.to.append(&self.part) {
            Ok(()) => {
                self.part.clear();
                Ok(())
            }
            Err(error) => Err(InputFault::Write(error)),
        }
    }

    /// Returns where the lines are written.
    pub fn into_output(self) -> W
        ensures { result ≡ self.to }
    {
        self.to
    }
}

impl<W: TextOutput + Drop> TokenSink for TokenLines<W> {
    ghost use Rattle.hashbag_words_lib.specs.TokenLines.{HasLines};

    ghost has = { HasLines W.written };

    fn put_piece(&mut self, token: &str) -> Result<(), BagError> {
        push_line(&mut self.part, token.as_bytes())?;
        Ok(())
    }

    fn put_token(&mut self, token: String) -> Result<(), BagError> {
        push_line(&mut self.part, token.as_bytes())?;
        Ok(())
    }

    fn flush(&mut self) -> Result<(), InputFault> {
        self.end()
    }
}
