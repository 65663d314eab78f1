//! Calls on a bag of numbers. In clauses `held` is what a handle has: a bag of numbers, a bag of byte strings, or nothing.
//! The results 1 and 2 are `HASHBAG_MEMORY` and `HASHBAG_TOO_MANY`.
//!
//! - `IfNumbers held P`: if `held` is a bag of numbers, P holds of it.
//! - `HasNumbers held P`: `held` is a bag of numbers, and P holds of it.
//! - `OnNumbers result held P`: if `held` is a bag of numbers and `result` is 0, P holds of the bag.
//! - `NumbersTo held after P`: if `held` is a bag of numbers, `after` is one too, and P holds of both.
//! - `UnlessNumbers held P`: if `held` is no bag of numbers, P holds of the number that says why: `EMPTY` (no bag) or `KIND` (the other kind).
ghost use Rattle.std.specs.Prelude.{◌≡◌, ◌≢◌, ◌+◌, ◌-◌, ◌<◌, ◌≤◌, ◌↔◌, ◌⊎◌, [], length, nat_eq};
ghost use Rattle.hashbag_table.specs.Tables.{room};
ghost use Rattle.hashbag_core.specs.Held.{HasFewer};
ghost use Rattle.hashbag_core.specs.Inserts.{Inserts};
ghost use Rattle.hashbag_core.specs.Occurrences.{count};
ghost use Rattle.hashbag_c.specs.Calls.{HasNumbers, IfNumbers, NumbersTo, OnNumbers, UnlessNumbers};
ghost use Rattle.hashbag_c.specs.States.{IsEmptyUnder};
ghost use Rattle.hashbag_c.specs.Whole.{CanHold, LosesAll, Overfills, RecountOverfills, SetsCount, ShrinksBy, TotalFollows};

use crate::any::{EMPTY, KIND};
use crate::handle::Handle;
use crate::held::{Held, store, with_held};
use crate::state::State;
use hashbag_core::HashBag;
use std::alloc::Global;

/// Puts an empty bag of numbers with the limit `most` into the handle, and returns 0. The bag that the handle had is freed.
///
/// The numbers are hashed under fixed keys, the same in every run. Use `hashbag_numbers_new_keyed` if strangers choose the numbers.
///
/// # Errors
///
/// `HASHBAG_MEMORY` if an allocation fails. Nothing changes then.
#[unsafe(no_mangle)]
pub extern "C" fn hashbag_numbers_new(alloc: Global, handle: &mut Handle, most: usize) -> u8
    ensures made { result ≡ 0 → HasNumbers handle.new.held (λ bag. (bag.items ≡ []) × (bag.most ≡ most)) }
    ensures memory { result ≢ 0 → result ≡ 1 }
    ensures err { result ≢ 0 → handle.new.held ≡ handle.old.held }
{
    handle.begin(
        alloc,
        Held::Numbers(HashBag::with_limit(alloc, State::fixed(), most)),
    )
}

/// Does the same as `hashbag_numbers_new`, with two keys of the caller. Draw the keys at random: whoever knows them can find numbers that
/// collide.
///
/// # Errors
///
/// `HASHBAG_MEMORY` if an allocation fails. Nothing changes then.
#[unsafe(no_mangle)]
pub extern "C" fn hashbag_numbers_new_keyed(
    alloc: Global,
    handle: &mut Handle,
    most: usize,
    key0: u64,
    key1: u64,
) -> u8
    ensures made { result ≡ 0 → HasNumbers handle.new.held (IsEmptyUnder most key0 key1) }
    ensures memory { result ≢ 0 → result ≡ 1 }
    ensures err { result ≢ 0 → handle.new.held ≡ handle.old.held }
{
    let state = State::keyed(key0, key1);
    handle.begin(
        alloc,
        Held::Numbers(HashBag::with_limit(alloc, state, most)),
    )
}

/// Inserts `n` occurrences of a number, writes the count before, and returns 0. If `n` is 0, the bag is unchanged.
///
/// # Errors
///
/// `HASHBAG_TOO_MANY` if the total would pass the limit; `HASHBAG_MEMORY` if the number is absent, there is no room, and an allocation
/// fails; `HASHBAG_EMPTY` if the handle has no bag; `HASHBAG_KIND` if its bag is one of byte strings. Then nothing changes, and nothing is
/// written.
#[unsafe(no_mangle)]
pub extern "C" fn hashbag_numbers_insert(
    alloc: Global,
    handle: &mut Handle,
    value: u64,
    n: usize,
    before: &mut usize,
) -> u8
    // If the result is 0, `n` of `value` were inserted.
    ensures inserted { result ≡ 0 → NumbersTo handle.old.held handle.new.held (Inserts nat_eq value n) }
    ensures before { OnNumbers result handle.old.held (λ bag. before.new ≡ count nat_eq value bag.items) }

    // The result is 2 exactly if the total with `n` more would pass the limit.
    ensures too_many { IfNumbers handle.old.held (λ bag. (result ≡ 2) ↔ (Overfills bag n)) }

    // The result is 0 if `n` more are within the limit, and there is room or the number is present.
    ensures takes { IfNumbers handle.old.held (λ bag. CanHold bag n → 0 < room bag.tables → result ≡ 0) }
    ensures present { IfNumbers handle.old.held (λ bag. CanHold bag n → 0 < count nat_eq value bag.items → result ≡ 0) }
    ensures only { IfNumbers handle.old.held (λ bag. result ≢ 0 → (result ≡ 1) ⊎ (result ≡ 2)) }
    ensures otherwise { UnlessNumbers handle.old.held (λ code. result ≡ code) }
    ensures err { result ≢ 0 → (handle.new.held ≡ handle.old.held) × (before.new ≡ before.old) }
{
    with_held!(alloc, handle, EMPTY, |mut held| match held {
        Held::Numbers(bag) => store!(bag.insert_many(value, n), before),
        Held::Texts(_) => KIND,
    })
}

/// Returns the count of a number, or 0 if the number is absent or the handle has no bag of numbers.
#[unsafe(no_mangle)]
pub extern "C" fn hashbag_numbers_contains(alloc: Global, handle: &mut Handle, value: u64) -> usize
    ensures count { IfNumbers handle.old.held (λ bag. result ≡ count nat_eq value bag.items) }
    ensures otherwise { UnlessNumbers handle.old.held (λ _. result ≡ 0) }
    ensures unchanged { handle.new.held ≡ handle.old.held }
{
    with_held!(alloc, handle, 0, |held| match held {
        Held::Numbers(bag) => bag.contains(&value),
        Held::Texts(_) => 0,
    })
}

/// Removes `n` occurrences of a number, or all if there are fewer, and returns the count after. Returns 0 if the handle has no bag of
/// numbers.
#[unsafe(no_mangle)]
pub extern "C" fn hashbag_numbers_remove(
    alloc: Global,
    handle: &mut Handle,
    value: u64,
    n: usize,
) -> usize
    ensures after { IfNumbers handle.old.held (λ bag. result ≡ count nat_eq value bag.items - n) }

    // The bag lost `n` of `value`, or all if there were fewer, and nothing else. Limit and hash state are the same, and there is no less room.
    ensures fewer { NumbersTo handle.old.held handle.new.held (HasFewer nat_eq (nat_eq value) n) }

    // The total fell by as many as the count of `value` did.
    ensures len { NumbersTo handle.old.held handle.new.held (TotalFollows (nat_eq value) result) }
    ensures otherwise { UnlessNumbers handle.old.held (λ _. (result ≡ 0) × (handle.new.held ≡ handle.old.held)) }
{
    with_held!(alloc, handle, 0, |mut held| match held {
        Held::Numbers(bag) => bag.remove_up_to(&value, n),
        Held::Texts(_) => 0,
    })
}

// Removes all occurrences of a number, and returns how many there were.
fn take_number(bag: &mut HashBag<u64, State>, value: u64) -> usize
    ensures before { result ≡ count nat_eq value bag.old.items }
    ensures fewer { HasFewer nat_eq (nat_eq value) (count nat_eq value bag.old.items) bag.old bag.new }
    ensures len { length bag.new.items + result ≡ length bag.old.items }
{
    match bag.take_all(&value) {
        Some((_, count)) => count,
        None => 0,
    }
}

/// Removes all occurrences of a number, and returns how many there were. Returns 0 if the handle has no bag of numbers.
#[unsafe(no_mangle)]
pub extern "C" fn hashbag_numbers_take_all(alloc: Global, handle: &mut Handle, value: u64) -> usize
    ensures before { IfNumbers handle.old.held (λ bag. result ≡ count nat_eq value bag.items) }

    // The bag lost all occurrences of `value`, and nothing else. The total fell by `result`.
    ensures fewer { NumbersTo handle.old.held handle.new.held (LosesAll nat_eq (nat_eq value)) }
    ensures len { NumbersTo handle.old.held handle.new.held (ShrinksBy result) }
    ensures otherwise { UnlessNumbers handle.old.held (λ _. (result ≡ 0) × (handle.new.held ≡ handle.old.held)) }
{
    with_held!(alloc, handle, 0, |mut held| match held {
        Held::Numbers(bag) => take_number(bag, value),
        Held::Texts(_) => 0,
    })
}

/// Sets the count of a number to `n`, writes the count before, and returns 0. If `n` is 0, the number is removed.
///
/// # Errors
///
/// `HASHBAG_TOO_MANY` if the total would pass the limit; `HASHBAG_MEMORY` if the number is absent, there is no room, and an allocation
/// fails; `HASHBAG_EMPTY` if the handle has no bag; `HASHBAG_KIND` if its bag is one of byte strings. Then nothing changes, and nothing is
/// written.
#[unsafe(no_mangle)]
pub extern "C" fn hashbag_numbers_set_count(
    alloc: Global,
    handle: &mut Handle,
    value: u64,
    n: usize,
    before: &mut usize,
) -> u8
    // If the result is 0, the count of `value` is `n`. Other counts, the limit and the hash state are unchanged.
    ensures set { result ≡ 0 → NumbersTo handle.old.held handle.new.held (SetsCount nat_eq value n) }
    ensures before { OnNumbers result handle.old.held (λ bag. before.new ≡ count nat_eq value bag.items) }

    // The result is 2 exactly if the total with `n` of `value`, in place of its count before, would pass the limit.
    ensures too_many { IfNumbers handle.old.held (λ bag. (result ≡ 2) ↔ (RecountOverfills nat_eq value n bag)) }
    ensures only { IfNumbers handle.old.held (λ bag. result ≢ 0 → (result ≡ 1) ⊎ (result ≡ 2)) }
    ensures otherwise { UnlessNumbers handle.old.held (λ code. result ≡ code) }
    ensures err { result ≢ 0 → (handle.new.held ≡ handle.old.held) × (before.new ≡ before.old) }
{
    with_held!(alloc, handle, EMPTY, |mut held| match held {
        Held::Numbers(bag) => store!(bag.set_count(value, n), before),
        Held::Texts(_) => KIND,
    })
}
