//! Calls on a bag of numbers that take or write many numbers at once. In clauses `held` is what a handle has: a bag of numbers,
//! a bag of byte strings, or nothing.
//!
//! - `IfNumbers held P`: if `held` is a bag of numbers, P holds of it.
//! - `NumbersTo held after P`: if `held` is a bag of numbers, `after` is one too, and P holds of both.
//! - `BothNumbers a b P`: if `a` and `b` are bags of numbers, P holds of both.
//! - `UnlessNumbers held P`: if `held` is no bag of numbers, P holds of the number that says why: `EMPTY` (no bag) or `KIND` (the other kind).
//! - `UnlessBothNumbers a b P`: if `a` or `b` is no bag of numbers, P holds.
ghost use Rattle.std.specs.Prelude.{◌≡◌, ◌≢◌, ◌+◌, ◌≤◌, length, take, map, min, nat_eq, IfOk, OnErr, OnOk};
ghost use Rattle.hashbag_core.specs.Walks.{IsSetWalkOf};
ghost use Rattle.hashbag_c.specs.Calls.{BothNumbers, IfNumbers, NumbersTo, UnlessBothNumbers, UnlessNumbers};
ghost use Rattle.hashbag_c.specs.Quotas.{HasQuotas, Retains};
ghost use Rattle.hashbag_c.specs.Reads.{least_length, HasReadJoin, ReadsNumbers};
ghost use Rattle.hashbag_c.specs.Whole.{Adds, GrowsBy};

use crate::any::{EMPTY, KIND};
use crate::entries::write_numbers;
use crate::handle::Handle;
use crate::held::{Held, with_both, with_both_bags, with_held};
use crate::state::State;
use hashbag_core::{BagError, HashBag, OuterJoin};
use std::alloc::Global;

// Inserts each value once, in order, until an insertion fails. Writes how many were inserted into `done`.
fn insert_each(
    bag: &mut HashBag<u64, State>,
    values: &[u64],
    done: &mut usize,
) -> Result<(), BagError>
    ensures counts { Adds nat_eq (take done.new values.now) bag.old bag.new }
    ensures len { length bag.new.items ≡ length bag.old.items + done.new }
    ensures all { OnOk result (done.new ≡ length values.now) }
    ensures within { done.new ≤ length values.now }
{
    *done = 0;
    for value in values {
        bag.insert(*value)?;
        *done += 1;
    }
    Ok(())
}

/// Inserts each of `values_len` numbers once, in order, until an insertion fails. Writes how many were inserted, and returns 0 if all were.
///
/// # Errors
///
/// Same as `hashbag_numbers_insert`. Then the numbers before the one that failed have been inserted.
#[unsafe(no_mangle)]
pub extern "C" fn hashbag_numbers_insert_all(
    alloc: Global,
    handle: &mut Handle,
    values: &[u64],
    done: &mut usize,
) -> u8
    // Each count grew by how often the number is among the first `done` of `values`, whatever the result is.
    ensures counts { NumbersTo handle.old.held handle.new.held (Adds nat_eq (take done.new values.now)) }

    // The total grew by `done`.
    ensures len { NumbersTo handle.old.held handle.new.held (GrowsBy done.new) }
    ensures all { result ≡ 0 → done.new ≡ length values.now }
    ensures within { done.new ≤ length values.now }
    ensures otherwise { UnlessNumbers handle.old.held (λ code. (result ≡ code) × (handle.new.held ≡ handle.old.held)) }
{
    *done = 0;
    with_held!(alloc, handle, EMPTY, |mut held| match held {
        Held::Numbers(bag) => match insert_each(bag, values, done) {
            Ok(()) => 0,
            Err(error) => error.number(),
        },
        Held::Texts(_) => KIND,
    })
}

// Returns a bag that has each listed number as often as `bag`, but at most as often as `most` says at its first place, and no other number.
fn allowed(
    alloc: Global,
    bag: &HashBag<u64, State>,
    values: &[u64],
    most: &[usize],
) -> Result<HashBag<u64, State>, BagError>
    ensures { IfOk result (HasQuotas nat_eq values.now most.now bag.now) }
{
    let mut made = HashBag::with_limit(alloc, *bag.hasher(), usize::MAX);
    for i in (0..values.len().min(most.len())).rev() {
        made.set_count(values[i], most[i].min(bag.contains(&values[i])))?;
    }
    Ok(made)
}

// Keeps at most `most[i]` occurrences of each number `values[i]`, and none of a number that isn't listed.
fn keep_listed(
    alloc: Global,
    bag: &mut HashBag<u64, State>,
    values: &[u64],
    most: &[usize],
) -> Result<(), BagError>
    ensures retained { OnOk result (Retains nat_eq values.now most.now bag.old bag.new) }
    ensures err { OnErr result (bag.new ≡ bag.old) }
{
    let allowed = allowed(alloc, bag, values, most)?;
    hashbag_ops::keep_common(bag, &allowed);
    Ok(())
}

/// Keeps at most `most[i]` occurrences of each number `values[i]`, and returns 0. If a number is listed twice, its first place counts. A
/// number that isn't listed is removed. If the arrays differ in length, the rest of the longer one is ignored.
///
/// # Errors
///
/// `HASHBAG_MEMORY` if the allocation of a bag of the listed numbers fails; `HASHBAG_EMPTY` if the handle has no bag; `HASHBAG_KIND` if its
/// bag is one of byte strings. Then nothing changes.
#[unsafe(no_mangle)]
pub extern "C" fn hashbag_numbers_retain(
    alloc: Global,
    handle: &mut Handle,
    values: &[u64],
    most: &[usize],
) -> u8
    // If the result is 0: each number is there as often as before, or as `most` says at its first place in `values` if that is less; never if it
    // isn't listed. The limit and the hash state are the same, and there is no less room.
    ensures retained { result ≡ 0 → NumbersTo handle.old.held handle.new.held (Retains nat_eq values.now most.now) }
    ensures only { IfNumbers handle.old.held (λ _. result ≢ 0 → result ≡ 1) }
    ensures otherwise { UnlessNumbers handle.old.held (λ code. result ≡ code) }
    ensures err { result ≢ 0 → handle.new.held ≡ handle.old.held }
{
    with_held!(alloc, handle, EMPTY, |mut held| match held {
        Held::Numbers(bag) => match keep_listed(alloc, bag, values, most) {
            Ok(()) => 0,
            Err(_) => 1,
        },
        Held::Texts(_) => KIND,
    })
}

/// Writes distinct numbers and their counts into two arrays, as many as both have places for, in no particular order. Returns how many were
/// written: all, if each array has `hashbag_set_len` places; 0 if the handle has no bag of numbers.
#[unsafe(no_mangle)]
pub extern "C" fn hashbag_numbers_read(
    alloc: Global,
    handle: &mut Handle,
    values: &mut [u64],
    counts: &mut [usize],
) -> usize
    // `result` is how many distinct numbers there are, or how many places both arrays have if that is less. The arrays begin with as many distinct
    // numbers, each once, and their counts.
    ensures read { ReadsNumbers (IsSetWalkOf nat_eq) handle.old.held result values.new counts.new }
    ensures otherwise { UnlessNumbers handle.old.held (λ _. result ≡ 0) }
    ensures unchanged { handle.new.held ≡ handle.old.held }
{
    with_held!(alloc, handle, 0, |held| match held {
        Held::Numbers(bag) => write_numbers(bag.set_iter(), values, counts),
        Held::Texts(_) => 0,
    })
}

// Writes the first items of a join, as many as the three slices have places for, and returns how many.
fn write_joined(
    mut walk: OuterJoin<'_, u64, State, State>,
    values: &mut [u64],
    firsts: &mut [usize],
    seconds: &mut [usize],
) -> usize
    ensures written { result ≡ min (length walk.entry) (least_length values.new firsts.new seconds.new) }
    ensures values { take result values.new ≡ map (λ e. e.0) (take result walk.entry) }
    ensures firsts { take result firsts.new ≡ map (λ e. e.1) (take result walk.entry) }
    ensures seconds { take result seconds.new ≡ map (λ e. e.2) (take result walk.entry) }
{
    let most = values.len().min(firsts.len().min(seconds.len()));
    for i in 0..most {
        match walk.next() {
            Some((value, first, second)) => {
                values[i] = *value;
                firsts[i] = first;
                seconds[i] = second;
            }
            None => return i,
        }
    }
    most
}

fn outer_join(
    x: &HashBag<u64, State>,
    y: &HashBag<u64, State>,
    values: &mut [u64],
    firsts: &mut [usize],
    seconds: &mut [usize],
) -> usize
    ensures { HasReadJoin x.now y.now result values.new firsts.new seconds.new }
{
    write_joined(x.outer_join(y), values, firsts, seconds)
}

/// Writes each number of two bags once, with its count in the first and in the second bag, 0 in a bag that lacks it. The numbers of the
/// first bag come first. Returns how many were written: as many as the shortest array has places for; 0 if a handle has no bag of numbers.
/// All are written if each array has as many places as both bags together have distinct numbers. `a` and `b` must be different handles.
#[unsafe(no_mangle)]
pub extern "C" fn hashbag_numbers_outer_join(
    alloc: Global,
    a: &mut Handle,
    b: &mut Handle,
    values: &mut [u64],
    firsts: &mut [usize],
    seconds: &mut [usize],
) -> usize
    // `result` is how many items an outer join of both bags has, or how many places the shortest array has if that is less. The arrays begin with the
    // first `result` items of it: a number, and its count in each bag.
    ensures read { BothNumbers a.old.held b.old.held (λ x y. HasReadJoin x y result values.new firsts.new seconds.new) }
    ensures otherwise { UnlessBothNumbers a.old.held b.old.held (result ≡ 0) }
    ensures unchanged { (a.new.held ≡ a.old.held) × (b.new.held ≡ b.old.held) }
{
    with_both_bags!(
        alloc,
        a,
        b,
        Numbers,
        |x, y| outer_join(x, y, values, firsts, seconds)
    )
}
