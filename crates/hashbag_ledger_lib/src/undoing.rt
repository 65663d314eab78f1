//! A batch that is taken back by its opposite movements.
ghost use Rattle.std.specs.Prelude.{◌≡◌, ◌+◌, ◌<◌, ◌^◌, ◌-◌, ◌↔◌, ◌++◌, [], String, IfOk, OnOk, string_cmp};
ghost use Rattle.std.specs.Global.{Global};
ghost use Rattle.std.specs.String.{string_eq};
ghost use Rattle.hashbag_csv.specs.Quantities.{number_sum};
ghost use Rattle.hashbag_ledger_lib.specs.Changes.{Rises};
ghost use Rattle.hashbag_ledger_lib.specs.Errors.{IfTooMany};
ghost use Rattle.hashbag_ledger_lib.specs.Settled.{listed, IsPastWithin};
ghost use Rattle.hashbag_ledger_lib.specs.Undos.{coming_back, going_back, opposites_of, EntersOrRefuses, IsUndo, IsChangedBy, IsChangedIfRising, OppositesFit, RestoresWhatWas};

use crate::entering::LedgerError;
use crate::filing::copy_of;
use crate::ledger::booking::{Booked, book_all, count_refused, refusals_from};
use crate::ledger::stock_at_start;
use crate::movements::{Change, Movement, Refusal};
use crate::numbers::MOST;
use crate::rows::{RowChange, changed_rows};
use std::alloc::{AllocError, Global};
use std::hash::BuildHasher;

/// The result of an undo.
#[derive(Drop)]
pub enum Undo<T> {
    /// The batch was taken back: the new balance, and the opposite movements, each with what became of it. All of these movements were entered.
    Done(Booked<T>),
    /// Nothing was entered, since some articles would fall below zero: the refusals of the opposite movements that would remove more than is
    /// there.
    Refused(Vec<Refusal<T>>),
}

// Appends the opposite of a movement to `coming_in` or to `going_out`.
fn turn<T: Drop>(
    movement: Movement<T>,
    coming_in: &mut Vec<Movement<T>>,
    going_out: &mut Vec<Movement<T>>,
) -> Result<(), AllocError>
    // `coming_back m c []` is the opposite of m if the change c is an `Out`, else nothing; `going_back m c []` is the opposite if c is an `In`.
    ensures coming { OnOk result
        (coming_in.new.items ≡ coming_in.old.items ++ coming_back movement movement.change []) }
    ensures going { OnOk result (going_out.new.items ≡ going_out.old.items ++ going_back movement movement.change []) }
{
    let Movement {
        place,
        article,
        change,
    } = movement;
    match change {
        Change::Out(n) => {
            let change = Change::In(n);
            coming_in.push(Movement {
                place,
                article,
                change,
            })?;
            Ok(())
        }
        Change::In(n) => {
            let change = Change::Out(n);
            going_out.push(Movement {
                place,
                article,
                change,
            })?;
            Ok(())
        }
    }
}

/// Returns the opposite movements of a batch: first an `In` for each `Out`, and then an `Out` for each `In`, each in turn.
///
/// # Errors
///
/// An allocation fails.
pub fn opposites<T: Drop>(
    alloc: Global,
    batch: Vec<Movement<T>>,
) -> Result<Vec<Movement<T>>, AllocError>
    ensures { IfOk result (λ all. all.items ≡ opposites_of batch.items) }
{
    let mut all = Vec::new(alloc);
    let mut going = Vec::new(alloc);
    for movement in batch {
        turn(movement, &mut all, &mut going)?;
    }
    all.append(&mut going)?;
    Ok(all)
}

/// Enters the opposite movements of a batch into the kept balance, all or none.
///
/// Returns `Refused` exactly if an article would fall below zero. The undo of the last batch is never `Refused`: then the balance is
/// again the balance before the batch.
///
/// # Errors
///
/// `StartTooMany` exactly if the sum of the balance is above [`MOST`]. `TooMany` with the place of a movement only if the total would pass
/// [`MOST`] with the opposite of that movement. `Memory` if an allocation fails.
pub fn take_back<S: BuildHasher + Drop>(
    alloc: Global,
    state: S,
    kept: Vec<(String, usize)>,
    batch: Vec<Movement<String>>,
) -> Result<Undo<String>, LedgerError>
    // Either the batch is taken back, or the undo is `Refused`, because an article would fall below zero.
    ensures undo { IfOk result (IsUndo string_eq string_cmp (listed string_eq kept.items) batch.items) }

    // If the batch turned some stock into the kept balance, the batch is taken back, and the balance is that stock again.
    ensures last { IfOk result (λ u. RestoresWhatWas kept.items batch.items u) }

    // The result has the entries, or the refusals, of the opposite movements.
    ensures entries { IfOk result (EntersOrRefuses string_eq kept.items batch.items) }
    ensures too_many { (result ≡ Err LedgerError.StartTooMany) ↔ (2 ^ 63 - 1 < number_sum kept.items) }

    // On success no total passes [`MOST`]. `TooMany p`: with the opposite of the movement at `p` the total would.
    ensures fit { OnOk result (OppositesFit kept.items batch.items) }
    ensures past { IfTooMany result (λ p. IsPastWithin string_eq (2 ^ 63 - 1) kept.items (opposites_of batch.items) p) }
{
    let stock = stock_at_start(alloc, state, MOST, kept)?;
    let opposite = opposites(alloc, batch)?;
    let booked = book_all(alloc, stock, opposite)?;
    let refused = count_refused(&booked.entries);
    if refused == 0 {
        return Ok(Undo::Done(booked));
    }
    Ok(Undo::Refused(refusals_from(alloc, booked.entries)?))
}

// Returns the changes of the rows of the kept balance after an undo; no changes if the undo is `Refused`.
fn undone_rows(
    alloc: Global,
    kept: &[(String, usize)],
    undo: &Undo<String>,
) -> Result<Vec<RowChange>, AllocError>
    ensures { IfOk result (λ changed. IsChangedIfRising kept.now undo.now changed.items) }
{
    match undo {
        Undo::Done(booked) => {
            let changed = changed_rows(alloc, kept, &booked.balance)?;
            Ok(changed)
        }
        Undo::Refused(_) => Ok(Vec::new(alloc)),
    }
}

/// Enters the opposite movements of a batch into the kept balance, all or none, as [`take_back`] does. Returns the undo, and the changes of
/// the rows of the balance; no changes if the undo is `Refused`.
///
/// # Errors
///
/// `StartTooMany` only if the sum of the balance is above [`MOST`]. `TooMany` with the place of a movement only if the total would pass
/// [`MOST`] with the opposite of that movement. `Memory` if an allocation fails.
pub fn undo_batch<S: BuildHasher + Drop>(
    alloc: Global,
    state: S,
    kept: &[(String, usize)],
    batch: Vec<Movement<String>>,
) -> Result<(Undo<String>, Vec<RowChange>), LedgerError>
    // Either the batch is taken back, or the undo is `Refused`, because an article would fall below zero.
    ensures undo { IfOk result (λ u. IsUndo string_eq string_cmp (listed string_eq kept.now) batch.items u.0) }

    // The result has the entries, or the refusals, of the opposite movements.
    ensures entries { IfOk result (λ u. EntersOrRefuses string_eq kept.now batch.items u.0) }

    // If the kept rows are in ascending order, the changes turn them into the rows of the new balance; no changes if the undo is `Refused`.
    ensures changed { IfOk result (λ u. Rises kept.now → IsChangedBy kept.now u.0 u.1.items) }
    ensures start { (result ≡ Err LedgerError.StartTooMany) → 2 ^ 63 - 1 < number_sum kept.now }

    // `TooMany p`: with the opposite of the movement at `p` the total would pass [`MOST`].
    ensures past { IfTooMany result (λ p. IsPastWithin string_eq (2 ^ 63 - 1) kept.now (opposites_of batch.items) p) }
{
    let copy = copy_of(alloc, kept)?;
    let undo = take_back(alloc, state, copy, batch)?;
    let changed = undone_rows(alloc, kept, &undo)?;
    Ok((undo, changed))
}
