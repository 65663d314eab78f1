//! The kept balance and refusals, compared with those that are computed from the movements.
ghost use Rattle.std.specs.Prelude.{◌≡◌, ◌≢◌, ◌≤◌, ◌↔◌, IsTrue, IsNone, IfNone, IfOk, IfSome, map, replicate, slice_get, take};
ghost use Rattle.std.specs.Option.{option_copied, option_map};
ghost use Rattle.hashbag_ledger_lib.specs.Kinds.{batch_number, numbers_of};
ghost use Rattle.hashbag_ledger_lib.specs.Rows.{row, rows_of, kept_of, wrong_row, wrong_movement, AgreeBefore, IsFirstDifference, IsFirstWrongRow, article_with_both, lower_row_of, row_there};

use crate::extras::Extra;
use crate::movements::{Movement, Refusal};
use crate::once::Batch;
use crate::sealing::cut;
use std::alloc::{AllocError, Global};
use std::cmp::Ordering;

/// A movement as the database keeps it.
#[derive(PartialEq, Eq, Debug, Drop)]
pub struct KeptMovement {
    /// The movement. Its `place.file` isn't a file here, but the movement's number.
    pub movement: Movement<String>,
    /// The number of the movement's batch.
    pub batch: u64,
    /// Its date and its note.
    pub extra: Extra,
}

/// A refusal as the database keeps it.
#[derive(Clone, Copy, PartialEq, Eq, Debug)]
pub struct KeptRefusal {
    /// The number of the movement.
    pub movement: usize,
    /// How many of the article there were.
    pub there: usize,
}

/// The first article whose row differs, with its two numbers; 0 if there is no row.
#[derive(Clone, Copy, PartialEq, Eq, Debug)]
pub struct WrongNumber<'a> {
    /// The article.
    pub article: &'a str,
    /// The number that is kept.
    pub kept: usize,
    /// The number that is computed from the movements.
    pub counted: usize,
}

// Returns the greater of two lengths.
fn longest_of(kept: usize, counted: usize) -> usize
    ensures first { kept ≤ result }
    ensures second { counted ≤ result }
{
    if kept < counted { counted } else { kept }
}

// Returns whether two rows have the same article and the same number, or both rows are missing.
fn is_same_row(kept: Option<&(String, usize)>, counted: Option<&(String, usize)>) -> bool
    ensures { IsTrue result ↔ (row_there kept.entry ≡ row_there counted.entry) }
{
    match (kept, counted) {
        (Some(old), Some(new)) => old.0.as_str() == new.0.as_str() && old.1 == new.1,
        (None, None) => true,
        _ => false,
    }
}

// Returns the first index at which two balances differ, or `None`.
fn first_difference(kept: &[(String, usize)], counted: &[(String, usize)]) -> Option<usize>
    ensures all_same { IfNone result (rows_of kept.now ≡ rows_of counted.now) }
    ensures differ { IfSome result (λ i. slice_get (rows_of kept.now) i ≢ slice_get (rows_of counted.now) i) }
    ensures first { IfSome result (λ i. AgreeBefore i (rows_of kept.now) (rows_of counted.now)) }
{
    let longest = longest_of(kept.len(), counted.len());
    'rows: for i in 0..longest {
        if !is_same_row(kept.get(i), counted.get(i)) {
            return Some(i);
        }
    }
    None
}

// Returns the lower article of two rows that differ, with its number in each row; 0 if the row is of the other article.
fn lower_of<'a>(kept: &'a (String, usize), counted: &'a (String, usize)) -> WrongNumber<'a>
    ensures { article_with_both result ≡ lower_row_of (row kept.now) (row counted.now) }
{
    match kept.0.as_str().cmp(&counted.0.as_str()) {
        Ordering::Less => WrongNumber {
            article: kept.0.as_str(),
            kept: kept.1,
            counted: 0,
        },
        Ordering::Greater => WrongNumber {
            article: counted.0.as_str(),
            kept: 0,
            counted: counted.1,
        },
        Ordering::Equal => WrongNumber {
            article: kept.0.as_str(),
            kept: kept.1,
            counted: counted.1,
        },
    }
}

// Returns the lower article of two rows that differ, with its number in each row; `None` if both rows are missing.
fn wrong_of<'a>(
    kept: Option<&'a (String, usize)>,
    counted: Option<&'a (String, usize)>,
) -> Option<WrongNumber<'a>>
    ensures { option_map article_with_both result ≡ wrong_row (row_there kept.entry) (row_there counted.entry) }
{
    match (kept, counted) {
        (Some(old), Some(new)) => Some(lower_of(old, new)),
        (Some(old), None) => Some(WrongNumber {
            article: old.0.as_str(),
            kept: old.1,
            counted: 0,
        }),
        (None, Some(new)) => Some(WrongNumber {
            article: new.0.as_str(),
            kept: 0,
            counted: new.1,
        }),
        (None, None) => None,
    }
}

/// Returns the first article whose row differs in the two balances, with both numbers, or `None` if the balances are equal.
pub fn wrong_number<'a>(
    kept: &'a [(String, usize)],
    counted: &'a [(String, usize)],
) -> Option<WrongNumber<'a>>
    // `None` exactly if both balances have the same rows: articles, by their bytes, and numbers.
    ensures agrees { IsNone result ↔ (rows_of kept.now ≡ rows_of counted.now) }

    // At the first place where the rows differ: the lower article of the two rows, with its number in each balance.
    ensures first { IfSome result (IsFirstWrongRow kept.now counted.now) }
{
    match first_difference(kept, counted) {
        Some(at) => wrong_of(kept.get(at), counted.get(at)),
        None => None,
    }
}

// Returns whether a kept refusal is the counted refusal, or both are missing.
fn is_same_refusal(kept: Option<&KeptRefusal>, counted: Option<&Refusal<String>>) -> bool
    ensures { IsTrue result ↔ (option_copied kept.entry ≡ option_map kept_of (option_copied counted.entry)) }
{
    match (kept, counted) {
        (Some(old), Some(new)) => old.movement == new.place.file && old.there == new.there,
        (None, None) => true,
        _ => false,
    }
}

// Returns the lower movement number of two refusals, or the movement number of the only one.
fn first_number(kept: Option<&KeptRefusal>, counted: Option<&Refusal<String>>) -> usize
    ensures { result ≡ wrong_movement (option_copied kept.entry) (option_map kept_of (option_copied counted.entry)) }
{
    match (kept, counted) {
        (Some(old), Some(new)) => old.movement.min(new.place.file),
        (Some(old), None) => old.movement,
        (None, Some(new)) => new.place.file,
        (None, None) => 0,
    }
}

/// Returns the number of the first movement that is refused in only one list, or in both with different numbers `there`. Returns `None` if
/// both lists have the same refusals.
pub fn wrong_refusal(kept: &[KeptRefusal], counted: &[Refusal<String>]) -> Option<usize>
    // `None` exactly if both lists have the same refusals. `kept_of`: the refusal as the database keeps it.
    ensures agrees { IsNone result ↔ (kept.now ≡ map kept_of counted.now) }

    // At the first place where the lists differ: the lower movement number of the two refusals.
    ensures first { IfSome result (IsFirstDifference wrong_movement kept.now (map kept_of counted.now)) }
{
    let longest = longest_of(kept.len(), counted.len());
    'refusals: for i in 0..longest {
        let (stored, made) = (kept.get(i), counted.get(i));
        if !is_same_refusal(stored, made) {
            return Some(first_number(stored, made));
        }
    }
    None
}

// Returns how many movements there are before the first one of another batch.
fn own_of(movements: &[KeptMovement], batch: u64) -> u64
    ensures { map batch_number (take result movements.now) ≡ replicate result batch }
{
    for i in 0..movements.len() {
        if movements[i].batch != batch {
            return i as u64;
        }
    }
    movements.len() as u64
}

// Returns how many of these refusals, in turn, are of these movements.
fn refusals_of(movements: &[KeptMovement], refusals: &[KeptRefusal]) -> u64 {
    let mut read = 0usize;
    for kept in movements {
        if let Some(refusal) = refusals.get(read)
            && refusal.movement == kept.movement.place.file
        {
            read = read.saturating_add(1);
        }
    }
    read as u64
}

/// Returns the number of the first batch that has not as many movements or refusals as its row says. If all rows are right, but a
/// movement is left over (it is of no batch, or out of turn), returns the batch number that this movement names. Else returns `None`.
///
/// Movements and refusals must be in turn.
pub fn wrong_batch(
    batches: &[Batch],
    movements: &[KeptMovement],
    refusals: &[KeptRefusal],
) -> Option<i64>
    // `None` only if each batch has the next movements, as many as its row says, and none is left over.
    ensures { IsNone result → map batch_number movements.now ≡ numbers_of batches.now }
{
    let (mut rest, mut left, mut left_refusals) = (batches, movements, refusals);
    'batches: while let Some((batch, others)) = rest.split_first() {
        let count = own_of(left, batch.number.unsigned_abs());
        let (own, later) = cut(left, count);
        let refused = refusals_of(own, left_refusals);
        if count != batch.movements || refused != batch.refused {
            return Some(batch.number);
        }
        (rest, left, left_refusals) = (others, later, cut(left_refusals, refused).1);
    }
    let kept = left.first()?;
    Some(i64::try_from(kept.batch).unwrap_or(i64::MAX))
}

/// Returns the movements, in turn, and what they carry along.
///
/// # Errors
///
/// An allocation fails.
pub fn movements_from(
    alloc: Global,
    kept: Vec<KeptMovement>,
) -> Result<(Vec<Movement<String>>, Vec<Extra>), AllocError>
    ensures movements { IfOk result (λ lists. lists.0.items ≡ map (λ k. k.movement) kept.items) }
    ensures extras { IfOk result (λ lists. lists.1.items ≡ map (λ k. k.extra) kept.items) }
{
    let mut movements = Vec::new(alloc);
    let mut extras = Vec::new(alloc);
    for one in kept {
        let KeptMovement {
            movement,
            extra,
            ..
        } = one;
        movements.push(movement).map_err(AllocError::from)?;
        extras.push(extra).map_err(AllocError::from)?;
    }
    Ok((movements, extras))
}
