//! The batches of a stock, their kinds, and whether a file was entered before.
ghost use Rattle.std.specs.Prelude.{◌≡◌};
ghost use Rattle.hashbag_ledger_lib.specs.Kinds.{name_of, undone_of, HasDigest, IsBatchWith, Undoes};

/// The kind of a batch.
#[derive(Clone, Copy, PartialEq, Eq, Debug)]
pub enum Kind {
    /// The opening stock.
    Start,
    /// A file of movements.
    Moves,
    /// The differences between the stock and what was counted.
    Count,
    /// The opposite movements of the batch of this number.
    Undo(i64),
}

impl Kind {
    /// Returns the name of the kind in the table of batches.
    pub fn name(self) -> &'static str
        ensures { result.now ≡ name_of self }
    {
        match self {
            Kind::Start => "start",
            Kind::Moves => "moves",
            Kind::Count => "count",
            Kind::Undo(_) => "undo",
        }
    }

    /// Returns the number of the batch that an undo undoes, or `None` for any other kind.
    pub fn undoes(self) -> Option<i64>
        ensures { result ≡ undone_of self }
    {
        match self {
            Kind::Undo(other) => Some(other),
            Kind::Start | Kind::Moves | Kind::Count => None,
        }
    }
}

/// A batch as the database lists it: what was entered at one time.
#[derive(Debug, Drop)]
pub struct Batch {
    /// The number of the batch, from 1.
    pub number: i64,
    /// The name of the file; for an undo, the file of the batch that is undone.
    pub file: String,
    /// The SHA-256 of the bytes of the file, in hexadecimal digits; empty if the batch has no file.
    pub sha256: String,
    /// The kind: `start`, `moves`, `count` or `undo`.
    pub kind: String,
    /// The number of the batch that is undone, for an undo.
    pub undoes: Option<i64>,
    /// When the batch was entered, in UTC.
    pub time: String,
    /// How many movements the batch has.
    pub movements: u64,
    /// How many movements were refused.
    pub refused: u64,
    /// The seal, in hexadecimal digits; empty in a stock without seals.
    pub seal: String,
}

/// Returns the first batch whose file has this SHA-256, or `None`.
pub fn entered_before<'a>(batches: &'a [Batch], sha256: &str) -> Option<&'a Batch>
    // The result is `None` exactly if no batch has this digest, else a batch of the list that has it.
    ensures { IsBatchWith (HasDigest sha256.now) batches.now result }
{
    batches.iter().find(|batch| batch.sha256.as_str() == sha256)
}

/// Returns the batch of this number, or `None`.
pub fn batch_of(batches: &[Batch], number: i64) -> Option<&Batch>
    ensures { IsBatchWith (λ b. b.number ≡ number) batches.now result }
{
    batches.iter().find(|batch| batch.number == number)
}

/// Returns the first batch that undoes the batch of this number, or `None`.
pub fn undone_by(batches: &[Batch], number: i64) -> Option<&Batch>
    ensures { IsBatchWith (Undoes number) batches.now result }
{
    batches.iter().find(|batch| batch.undoes == Some(number))
}

/// Returns the number of the next batch.
pub fn next_number(batches: &[Batch]) -> i64 {
    match batches.last() {
        Some(batch) => batch.number.saturating_add(1),
        None => 1,
    }
}
