//! Where a text is written as it comes.
ghost use Rattle.std.specs.Prelude.{◌≡◌, ◌++◌, ℕ, List, OnOk};

use std::io;

/// Where a text is written, part by part. It may be of any kind, so the clauses hold wherever the text goes.
pub trait TextOutput {
    /// All bytes that were written.
    ghost written: { Self → List ℕ };

    /// Writes the next part of the text.
    ///
    /// # Errors
    ///
    /// The system's error.
    fn append(&mut self, part: &Vec<u8>) -> io::Result<()>
        ensures { OnOk result (written self.new ≡ written self.old ++ part.now.items) };
}
