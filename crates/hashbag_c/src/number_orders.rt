//! The numbers of a bag with their counts, in an order. In clauses `held` is what a handle has: a bag of numbers, a bag of byte strings, or nothing.
//! The result 1 is `HASHBAG_MEMORY`.
//!
//! - `IfNumbers held P`: if `held` is a bag of numbers, P holds of it.
//! - `OnNumbers result held P`: if `held` is a bag of numbers and `result` is 0, P holds of the bag.
//! - `UnlessNumbers held P`: if `held` is no bag of numbers, P holds of the number that says why: `EMPTY` (no bag) or `KIND` (the other kind).
ghost use Rattle.std.specs.Prelude.{◌≡◌, ◌≢◌, IfErr, IfOk, OnErr};
ghost use Rattle.hashbag_c.specs.Calls.{IfNumbers, OnNumbers, UnlessNumbers};
ghost use Rattle.hashbag_c.specs.Reads.{HasMostCommonNumbers, HasSortedNumbers};

use crate::any::{EMPTY, KIND};
use crate::entries::write_numbers;
use crate::handle::Handle;
use crate::held::{Held, store, with_held};
use crate::state::State;
use hashbag_core::{BagError, HashBag};
use std::alloc::Global;

// Reads the numbers, in ascending order, and returns how many.
fn read_sorted(
    alloc: Global,
    bag: &HashBag<u64, State>,
    values: &mut [u64],
    counts: &mut [usize],
) -> Result<usize, BagError>
    ensures read { IfOk result (λ n. HasSortedNumbers bag.now n values.new counts.new) }
    ensures memory { IfErr result (λ e. e ≡ BagError.Memory) }
    ensures err { OnErr result ((values.new ≡ values.old) × (counts.new ≡ counts.old)) }
{
    let pairs = hashbag_ops::sorted(alloc, bag)?;
    Ok(write_numbers(pairs.iter(), values, counts))
}

/// Writes the distinct numbers in ascending order, and their counts, into two arrays, as many as both have places for. Writes how many into
/// `n`, and returns 0. All are written if each array has `hashbag_set_len` places. It makes one allocation, a list of all distinct numbers,
/// and sorts it.
///
/// # Errors
///
/// `HASHBAG_MEMORY` if the allocation fails; `HASHBAG_EMPTY`; `HASHBAG_KIND`. Nothing is written then. The bag is unchanged in any case.
#[unsafe(no_mangle)]
pub extern "C" fn hashbag_numbers_sorted(
    alloc: Global,
    handle: &mut Handle,
    values: &mut [u64],
    counts: &mut [usize],
    n: &mut usize,
) -> u8
    // If the result is 0: `n` is how many distinct numbers there are, or how many places both arrays have if that is less. The arrays begin with the
    // first `n` numbers, in ascending order, and their counts.
    ensures read { OnNumbers result handle.old.held (λ bag. HasSortedNumbers bag n.new values.new counts.new) }
    ensures only { IfNumbers handle.old.held (λ _. result ≢ 0 → result ≡ 1) }
    ensures otherwise { UnlessNumbers handle.old.held (λ code. result ≡ code) }
    ensures unchanged { handle.new.held ≡ handle.old.held }
    ensures failed { result ≢ 0 → n.new ≡ n.old }
    ensures err { result ≢ 0 → (values.new ≡ values.old) × (counts.new ≡ counts.old) }
{
    with_held!(alloc, handle, EMPTY, |held| match held {
        Held::Numbers(bag) => store!(read_sorted(alloc, bag, values, counts), n),
        Held::Texts(_) => KIND,
    })
}

// Reads the most common numbers, and returns how many.
fn read_most_common(
    alloc: Global,
    bag: &HashBag<u64, State>,
    values: &mut [u64],
    counts: &mut [usize],
) -> Result<usize, BagError>
    ensures read { IfOk result (λ n. HasMostCommonNumbers bag.now n values.new counts.new) }
    ensures memory { IfErr result (λ e. e ≡ BagError.Memory) }
    ensures err { OnErr result ((values.new ≡ values.old) × (counts.new ≡ counts.old)) }
{
    let most = values.len().min(counts.len());
    let pairs = hashbag_ops::most_common(alloc, bag, most)?;
    Ok(write_numbers(pairs.iter(), values, counts))
}

/// Writes the k most common numbers and their counts into two arrays: k is the lesser of their lengths. They are in descending order of
/// counts, and in ascending order if they occur equally often. Writes how many into `n`, and returns 0. It reads each distinct number once,
/// and makes two allocations at most, each of as many pairs as it writes.
///
/// # Errors
///
/// `HASHBAG_MEMORY` if an allocation fails; `HASHBAG_EMPTY`; `HASHBAG_KIND`. Nothing is written then. The bag is unchanged in any case.
#[unsafe(no_mangle)]
pub extern "C" fn hashbag_numbers_most_common(
    alloc: Global,
    handle: &mut Handle,
    values: &mut [u64],
    counts: &mut [usize],
    n: &mut usize,
) -> u8
    // If the result is 0: `n` is how many distinct numbers there are, or how many places both arrays have if that is less. The arrays begin with the
    // `n` most common numbers and their counts.
    ensures read { OnNumbers result handle.old.held (λ bag. HasMostCommonNumbers bag n.new values.new counts.new) }
    ensures only { IfNumbers handle.old.held (λ _. result ≢ 0 → result ≡ 1) }
    ensures otherwise { UnlessNumbers handle.old.held (λ code. result ≡ code) }
    ensures unchanged { handle.new.held ≡ handle.old.held }
    ensures failed { result ≢ 0 → n.new ≡ n.old }
    ensures err { result ≢ 0 → (values.new ≡ values.old) × (counts.new ≡ counts.old) }
{
    with_held!(alloc, handle, EMPTY, |held| match held {
        Held::Numbers(bag) => store!(read_most_common(alloc, bag, values, counts), n),
        Held::Texts(_) => KIND,
    })
}
