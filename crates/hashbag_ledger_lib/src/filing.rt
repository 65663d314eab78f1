//! The files of one run of a subcommand, entered in turn into the kept balance.
ghost use Rattle.std.specs.Prelude.{◌≡◌, ◌<◌, ◌^◌, ◌-◌, map, vec_len, IfOk};
ghost use Rattle.std.specs.String.{string_eq};
ghost use Rattle.hashbag_csv.specs.Quantities.{number_sum};
ghost use Rattle.hashbag_ledger_lib.specs.Batches.{all_of};
ghost use Rattle.hashbag_ledger_lib.specs.Bookings.{HasBooked};
ghost use Rattle.hashbag_ledger_lib.specs.Changes.{Rises, AreChanges};
ghost use Rattle.hashbag_ledger_lib.specs.Rows.{rows_of};
ghost use Rattle.hashbag_ledger_lib.specs.Settled.{IsPastWithin};
ghost use Rattle.hashbag_ledger_lib.specs.Errors.{IfTooMany};

use crate::entering::LedgerError;
use crate::ledger::booking::{Booked, book_batch};
use crate::movements::{Entry, Movement, Outcome, Refusal};
use crate::numbers::size_of;
use crate::rows::{RowChange, changed_rows};
use std::alloc::{AllocError, Global};
use std::hash::BuildHasher;

/// The result of entering the files of one run of a subcommand.
#[derive(Drop)]
pub struct Filed {
    /// The new balance, and the movements of all files, in turn, each with what became of it.
    pub booked: Booked<String>,
    /// The changes that turn the rows of the kept balance into the rows of the new balance.
    pub changed: Vec<RowChange>,
    /// How many movements each file has.
    pub counts: Vec<usize>,
}

/// Enters the movements of files, in turn, into the kept balance, and returns the result. Each file is entered into what the
/// files before it left.
///
/// # Errors
///
/// `StartTooMany` only if the sum of the balance is above 2^63-1. `TooMany` with the place of a movement only if the total would pass
/// 2^63-1 with that movement. `Memory` if an allocation fails.
///
/// # Complexity
///
/// Hashes each article of the balance once, and the article of each movement at most three times. Copies and sorts the balance once.
pub fn enter_files<S: BuildHasher + Drop>(
    alloc: Global,
    state: S,
    kept: &[(String, usize)],
    files: Vec<Vec<Movement<String>>>,
) -> Result<Filed, LedgerError>
    // The new balance is what the movements of all files leave of the kept balance. The entries say what became of each movement.
    ensures booked { IfOk result (λ f. HasBooked (2 ^ 63 - 1) kept.now (all_of files.items) f.booked) }

    // If the kept rows are in ascending order, the changes turn them into the rows of the new balance.
    ensures changed { IfOk result (λ f. Rises kept.now → AreChanges kept.now f.booked.balance.items f.changed.items) }
    ensures counts { IfOk result (λ f. f.counts.items ≡ map (λ file. vec_len file) files.items) }

    // `TooMany p`: with the movement at `p` the total would pass 2^63-1.
    ensures past { IfTooMany result (λ p. IsPastWithin string_eq (2 ^ 63 - 1) kept.now (all_of files.items) p) }
    ensures start { (result ≡ Err LedgerError.StartTooMany) → 2 ^ 63 - 1 < number_sum kept.now }
{
    let counts = counts_of(alloc, &files)?;
    let copy = copy_of(alloc, kept)?;
    let all = in_turn(alloc, files)?;
    let booked = book_batch(alloc, state, copy, all)?;
    let changed = changed_rows(alloc, kept, &booked.balance)?;
    Ok(Filed {
        booked,
        changed,
        counts,
    })
}

// Returns how many movements each file has.
fn counts_of(alloc: Global, files: &[Vec<Movement<String>>]) -> Result<Vec<usize>, AllocError>
    ensures { IfOk result (λ counts. counts.items ≡ map (λ file. vec_len file) files.now) }
{
    let mut counts = Vec::new(alloc);
    for file in files {
        counts.push(file.len())?;
    }
    Ok(counts)
}

// Returns the movements of files, in turn.
fn in_turn(
    alloc: Global,
    files: Vec<Vec<Movement<String>>>,
) -> Result<Vec<Movement<String>>, AllocError>
    ensures { IfOk result (λ all. all.items ≡ all_of files.items) }
{
    let mut all = Vec::new(alloc);
    for file in files {
        let mut movements = file;
        all.append(&mut movements)?;
    }
    Ok(all)
}

// Returns a copy of the refusal of a movement, or `None` if the movement was entered.
fn refusal_of(entry: &Entry<String>) -> Result<Option<Refusal<String>>, AllocError> {
    let Outcome::Refused { there } = entry.outcome else {
        return Ok(None);
    };
    Ok(Some(Refusal {
        place: entry.movement.place,
        article: entry.movement.article.clone()?,
        asked: size_of(entry.movement.change),
        there,
    }))
}

/// Returns copies of the refusals among these entries, in turn. If `is_first_alone`, returns a copy of the first refusal only.
///
/// # Errors
///
/// An allocation fails.
pub fn refusals_of(
    alloc: Global,
    entries: &[Entry<String>],
    is_first_alone: bool,
) -> Result<Vec<Refusal<String>>, AllocError> {
    let mut refusals = Vec::new(alloc);
    for entry in entries {
        if is_first_alone && !refusals.is_empty() {
            return Ok(refusals);
        }
        if let Some(refusal) = refusal_of(entry)? {
            refusals.push(refusal).map_err(AllocError::from)?;
        }
    }
    Ok(refusals)
}

/// Returns a copy of a balance.
///
/// # Errors
///
/// An allocation fails.
pub(crate) fn copy_of(
    alloc: Global,
    balance: &[(String, usize)],
) -> Result<Vec<(String, usize)>, AllocError>
    // A row is the bytes of the article and the number.
    ensures { IfOk result (λ copy. rows_of copy.items ≡ rows_of balance.now) }
{
    let mut copy = Vec::new(alloc);
    for entry in balance {
        let pair: (String, usize) = (entry.0.clone()?, entry.1);
        copy.push(pair)?;
    }
    Ok(copy)
}
