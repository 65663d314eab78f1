//! What became of the movements in a database: the entries are computed again, from an empty stock. Each movement is in a pair with what it
//! carries along: its day, or its date and its note.
ghost use Rattle.std.specs.Prelude.{◌≡◌, ◌++◌, ◌∷◌, [], IfOk, OnOk, filter};
ghost use Rattle.std.specs.Map.{values_of};
ghost use Rattle.hashbag_ledger_lib.specs.Recalls.{is_of, recalled, recalled_of};

use crate::entering::LedgerError;
use crate::ledger::booking::book_batch;
use crate::movements::{Entry, Movement};
use crate::pairs::{unzip, zip};
use std::alloc::{AllocError, Global};
use std::hash::BuildHasher;

/// Returns these movements, in turn, each with what became of it, and with what it carries along. The stock is empty at first, so
/// `movements` has to have all movements of each article that it names.
///
/// # Errors
///
/// `TooMany` with the place of a movement if the total would pass the limit with that movement. `Memory` if an allocation fails.
pub fn recall<X: Drop, S: BuildHasher + Drop>(
    alloc: Global,
    state: S,
    movements: Vec<(Movement<String>, X)>,
) -> Result<Vec<(Entry<String>, X)>, LedgerError>
    // The movements, each with what becomes of it if all are entered in turn into an empty stock, and with what it carries along.
    ensures entries { IfOk result (λ entries. entries.items ≡ recalled movements.items) }
    ensures carried { IfOk result (λ entries. values_of entries.items ≡ values_of movements.items) }
{
    let (bare, carried) = unzip(alloc, movements)?;
    let booked = book_batch(alloc, state, Vec::new(alloc), bare)?;
    Ok(zip(alloc, booked.entries, carried)?)
}

// Appends an entry if it is of this batch.
fn push_own<X: Drop>(
    own: &mut Vec<(Entry<String>, X)>,
    entry: (Entry<String>, X),
    batch: usize,
) -> Result<(), AllocError>
    ensures { OnOk result (own.new.items ≡ own.old.items ++ filter (is_of batch) (entry ∷ [])) }
{
    if entry.0.movement.place.file == batch {
        own.push(entry).map_err(AllocError::from)?;
    }
    Ok(())
}

// Returns the entries of a batch, in turn.
fn own_of<X: Drop>(
    alloc: Global,
    entries: Vec<(Entry<String>, X)>,
    batch: usize,
) -> Result<Vec<(Entry<String>, X)>, AllocError>
    ensures { IfOk result (λ own. own.items ≡ filter (is_of batch) entries.items) }
{
    let mut own = Vec::new(alloc);
    for entry in entries {
        push_own(&mut own, entry, batch)?;
    }
    Ok(own)
}

/// Returns the movements of a batch, in turn, each with what became of it, and with what it carries along. `movements` are all movements up to
/// the end of the batch; the `place.file` of each is the number of its batch.
///
/// # Errors
///
/// Same as [`recall`].
pub fn recall_batch<X: Drop, S: BuildHasher + Drop>(
    alloc: Global,
    state: S,
    movements: Vec<(Movement<String>, X)>,
    batch: usize,
) -> Result<Vec<(Entry<String>, X)>, LedgerError>
    // All movements are entered in turn into an empty stock. The result has the entries whose `place.file` is `batch`.
    ensures { IfOk result (λ own. own.items ≡ recalled_of batch movements.items) }
{
    let entries = recall(alloc, state, movements)?;
    Ok(own_of(alloc, entries, batch)?)
}
