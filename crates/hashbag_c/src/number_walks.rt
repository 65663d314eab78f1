//! A walk over a bag of numbers that C holds. In clauses `held` is what a handle has: a bag of numbers, a bag of byte strings, or nothing.
//! `left` is what a walk has: pairs of a number and its count that are left, pairs of byte strings, or nothing.
//! The result 1 is `HASHBAG_MEMORY`.
//!
//! - `IfNumbers held P`: if `held` is a bag of numbers, P holds of it.
//! - `OnNumbers result held P`: if `held` is a bag of numbers and `result` is 0, P holds of the bag.
//! - `UnlessNumbers held P`: if `held` is no bag of numbers, P holds of the number that says why: `EMPTY` (no bag) or `KIND` (the other kind).
//! - `HasNumberPairs left P`: the walk is over numbers, and P holds of the pairs that are left.
//! - `NumberPairsTo left after P`: if the walk is over numbers, it is so afterwards too, and P holds of the pairs before and of the pairs after.
//! - `UnlessNumberPairs left P`: if the walk isn't over numbers, P holds.
ghost use Rattle.std.specs.Prelude.{◌≡◌, ◌≢◌, nat_eq, drop, IfErr, IfOk};
ghost use Rattle.hashbag_core.specs.Walks.{IsSetWalkOf};
ghost use Rattle.hashbag_c.specs.Calls.{IfNumbers, OnNumbers, UnlessNumbers};
ghost use Rattle.hashbag_c.specs.Reads.{HasWritten};
ghost use Rattle.hashbag_c.specs.Walked.{HasNext, HasNumberPairs, NumberPairsTo, UnlessNumberPairs};

use crate::any::{EMPTY, KIND};
use crate::entries::write_numbers;
use crate::handle::Handle;
use crate::held::{Held, Left, with_held};
use crate::state::State;
use crate::walk::Walk;
use crate::walks::drop_front;
use hashbag_core::{BagError, HashBag};
use std::alloc::Global;
use std::collections::VecDeque;

// Copies the distinct numbers with their counts.
fn pairs_of(alloc: Global, bag: &HashBag<u64, State>) -> Result<VecDeque<(u64, usize)>, BagError>
    ensures walk { IfOk result (λ pairs. IsSetWalkOf nat_eq bag.now pairs.items) }
    ensures memory { IfErr result (λ e. e ≡ BagError.Memory) }
{
    let mut pairs = VecDeque::with_capacity(alloc, bag.set_len())?;
    for (value, count) in bag.set_iter() {
        if pairs.push_back((*value, count)).is_err() {
            return Err(BagError::Memory);
        }
    }
    Ok(pairs)
}

/// Begins a walk over a bag of numbers, and returns 0. The walk has a copy of all distinct numbers with their counts, in no particular order,
/// so the bag may change or be freed meanwhile. A walk that was there is freed. It makes two allocations at most, one of all pairs.
///
/// # Errors
///
/// `HASHBAG_MEMORY` if an allocation fails; `HASHBAG_EMPTY`; `HASHBAG_KIND`. Nothing changes then.
#[unsafe(no_mangle)]
pub extern "C" fn hashbag_numbers_walk(alloc: Global, handle: &mut Handle, walk: &mut Walk) -> u8
    // If the result is 0, the walk has each distinct number of the bag once, with its count.
    ensures begun { OnNumbers result handle.old.held (λ bag. HasNumberPairs walk.new.left (IsSetWalkOf nat_eq bag)) }
    ensures only { IfNumbers handle.old.held (λ _. result ≢ 0 → result ≡ 1) }
    ensures otherwise { UnlessNumbers handle.old.held (λ code. result ≡ code) }
    ensures unchanged { handle.new.held ≡ handle.old.held }
    ensures err { result ≢ 0 → walk.new.left ≡ walk.old.left }
{
    with_held!(alloc, handle, EMPTY, |held| match held {
        Held::Numbers(bag) => match pairs_of(alloc, bag) {
            Ok(pairs) => walk.begin(alloc, Left::Numbers(pairs)),
            Err(_) => 1,
        },
        Held::Texts(_) => KIND,
    })
}

// Writes the first pairs, as many as there is room for, removes them, and returns how many.
fn write_next(pairs: &mut VecDeque<(u64, usize)>, values: &mut [u64], counts: &mut [usize]) -> usize
    ensures { HasNext result values.new counts.new pairs.old.items pairs.new.items }
{
    let n = write_numbers(pairs.iter(), values, counts);
    drop_front(pairs, n);
    n
}

/// Writes the next numbers of a walk and their counts into two arrays, as many as both have places for, and returns how many. The next call
/// goes on after them: the parts of all calls together are all distinct numbers, each once. It returns 0 at the end, or if the walk isn't one
/// over numbers. It doesn't allocate.
#[unsafe(no_mangle)]
pub extern "C" fn hashbag_numbers_next(
    alloc: Global,
    walk: &mut Walk,
    values: &mut [u64],
    counts: &mut [usize],
) -> usize
    // `result` is how many pairs were left, or how many places both arrays have if that is less. The arrays begin with the first `result` pairs;
    // the pairs after these are left.
    ensures next { NumberPairsTo walk.old.left walk.new.left (HasNext result values.new counts.new) }
    ensures otherwise { UnlessNumberPairs walk.old.left ((result ≡ 0) × (walk.new.left ≡ walk.old.left)) }
{
    with_held!(alloc, walk, 0, |mut left| match left {
        Left::Numbers(pairs) => write_next(pairs, values, counts),
        Left::Texts(_) => 0,
    })
}
