//! What tokens, or rows of counts, are given to: a bag that counts them, or a text that is written.
ghost use Rattle.std.specs.Prelude.{ℕ, List, [], ◌∷◌, string_bytes, Option, OnOk};
ghost use Rattle.hashbag_words_lib.specs.Counts.{Keeps, KeepsRows, Takes, TakesRows};
ghost use Rattle.hashbag_words_lib.specs.Faults.{OnBadLine};
ghost use Rattle.hashbag_words_lib.specs.declared.choice.Choice.{Choice};
ghost use Rattle.hashbag_words_lib.specs.declared.writing.Format.{Format};

use crate::errors::InputFault;
use hashbag_core::{BagError, HashBag};
use std::hash::BuildHasher;

/// Receives tokens, one after the other.
pub trait TokenSink {
    /// `has sink tokens`: the sink has these tokens. A bag has them in no order.
    ghost has: { Self → List (List ℕ) → Type 0 };

    /// Receives a token that is a part of a line.
    ///
    /// # Errors
    ///
    /// An allocation fails, or a total is too large.
    fn put_piece(&mut self, token: &str) -> Result<(), BagError>
        // Whatever tokens the sink had, it has them and this one.
        ensures { OnOk result (Takes has self.old self.new (token.now ∷ [])) };

    /// Receives a token.
    ///
    /// # Errors
    ///
    /// Same as [`TokenSink::put_piece`].
    fn put_token(&mut self, token: String) -> Result<(), BagError>
        ensures { OnOk result (Takes has self.old self.new (string_bytes token ∷ [])) };

    /// Writes what it has built, if it is a text.
    ///
    /// # Errors
    ///
    /// `InputFault::Write` if a write fails.
    fn flush(&mut self) -> Result<(), InputFault>
        ensures same { OnOk result (Keeps has self.old self.new) }
        ensures line { OnBadLine result ⊥ };
}

/// Receives rows of counts, one after the other.
pub trait RowSink {
    /// `has shown sink rows`: the sink has these rows. A bag has them in no order. A text shows those of a choice, in a format: `shown`.
    ghost has: { Option (Choice × Format) → Self → List (List ℕ × ℕ) → Type 0 };

    /// Receives a row: a token and its count.
    ///
    /// # Errors
    ///
    /// An allocation fails, a total is too large, or the row doesn't come after the one before, if that is wanted.
    fn put_row(&mut self, token: String, count: usize) -> Result<(), InputFault>
        // Whatever rows the sink had, it has them and this one.
        ensures row { OnOk result (TakesRows has self.old self.new ((string_bytes token, count) ∷ [])) }
        ensures line { OnBadLine result ⊥ };

    /// Writes what it has built, if it is a text.
    ///
    /// # Errors
    ///
    /// `InputFault::Write` if a write fails.
    fn flush(&mut self) -> Result<(), InputFault>
        ensures same { OnOk result (KeepsRows has self.old self.new) }
        ensures line { OnBadLine result ⊥ };
}

impl<S: BuildHasher + Drop> TokenSink for HashBag<String, S> {
    ghost use Rattle.hashbag_words_lib.specs.Counts.{HasTokens};

    ghost has = { HasTokens };

    // A `String` is allocated only for an absent token.
    fn put_piece(&mut self, token: &str) -> Result<(), BagError> {
        self.insert_key(token)?;
        Ok(())
    }

    fn put_token(&mut self, token: String) -> Result<(), BagError> {
        self.insert(token)?;
        Ok(())
    }

    fn flush(&mut self) -> Result<(), InputFault> {
        Ok(())
    }
}

impl<S: BuildHasher + Drop> RowSink for HashBag<String, S> {
    ghost use Rattle.hashbag_words_lib.specs.Counts.{HasRows};

    ghost has = { λ _ bag rows. HasRows bag rows };

    fn put_row(&mut self, token: String, count: usize) -> Result<(), InputFault> {
        self.insert_many(token, count)?;
        Ok(())
    }

    fn flush(&mut self) -> Result<(), InputFault> {
        Ok(())
    }
}
