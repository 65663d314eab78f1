//! Calls on a bag of either kind. In clauses `held` is what a handle has: a bag, or nothing. The results 1, 2 and 9 are the numbers of a
//! `BagError`: `Memory`, `TooMany` and `BelowTotal`.
//!
//! - `IfBag held P`: if `held` is a bag, P holds of it. `BagTo held after P`: if `held` is a bag, `after` is one of the same kind, and P holds of both.
//! - `BothBags a b P`: if `a` and `b` are bags of one kind, P holds of both. `IfOtherKinds a b P`: if they are bags of different kinds, P holds.
//! - In `λ _ _ eq bag. ..` the arguments are the type of the values, the type of the hash state, the equality of the values, and the bag.
ghost use Rattle.std.specs.Prelude.{◌≡◌, ◌≢◌, ◌+◌, ◌<◌, ◌≤◌, ◌↔◌, ◌⊎◌, false, [], length, None, Some, IfOk, IsTrue};
ghost use Rattle.hashbag_table.specs.Tables.{room};
ghost use Rattle.hashbag_core.specs.Bag.{limited, IsBagOf};
ghost use Rattle.hashbag_core.specs.Equality.{bag_eq};
ghost use Rattle.hashbag_core.specs.Occurrences.{distinct_count};
ghost use Rattle.hashbag_c.specs.Calls.{BagTo, BothBags, IfBag, IfOtherKinds};
ghost use Rattle.hashbag_c.specs.Whole.{HasShrunk, IsCleared, IsCopy};

use crate::handle::Handle;
use crate::held::{Held, with_both, with_held};
use hashbag_core::BagError;
use std::alloc::Global;

/// The handle has no bag.
pub const EMPTY: u8 = 20;

/// The handle has a bag of the other kind.
pub const KIND: u8 = 21;

/// The ends of byte strings aren't ascending, or an end is past the last byte.
pub const ENDS: u8 = 22;

/// The text is longer than the buffer.
pub const SHORT: u8 = 23;

/// The text isn't JSON, or isn't UTF-8.
pub const NOT_JSON: u8 = 24;

/// Frees the bag, and leaves an empty handle. An empty handle stays empty.
#[unsafe(no_mangle)]
pub extern "C" fn hashbag_free(alloc: Global, handle: &mut Handle)
    ensures { handle.new.held ≡ None }
{
    drop(handle.take(alloc));
}

/// Returns the number of occurrences: the sum of all counts. Returns 0 for an empty handle.
#[unsafe(no_mangle)]
pub extern "C" fn hashbag_len(alloc: Global, handle: &mut Handle) -> usize
    ensures len { IfBag handle.old.held (λ _ _ _ bag. result ≡ length bag.items) }
    ensures empty { handle.old.held ≡ None → result ≡ 0 }
    ensures unchanged { handle.new.held ≡ handle.old.held }
{
    with_held!(alloc, handle, 0, |held| match held {
        Held::Numbers(bag) => bag.len(),
        Held::Texts(bag) => bag.len(),
    })
}

/// Returns the number of distinct values. Returns 0 for an empty handle.
#[unsafe(no_mangle)]
pub extern "C" fn hashbag_set_len(alloc: Global, handle: &mut Handle) -> usize
    ensures distinct { IfBag handle.old.held (λ _ _ eq bag. result ≡ distinct_count eq bag.items) }
    ensures empty { handle.old.held ≡ None → result ≡ 0 }
    ensures unchanged { handle.new.held ≡ handle.old.held }
{
    with_held!(alloc, handle, 0, |held| match held {
        Held::Numbers(bag) => bag.set_len(),
        Held::Texts(bag) => bag.set_len(),
    })
}

/// Returns the limit: the greatest total that the bag may have. Returns 0 for an empty handle.
#[unsafe(no_mangle)]
pub extern "C" fn hashbag_limit(alloc: Global, handle: &mut Handle) -> usize
    ensures limit { IfBag handle.old.held (λ _ _ _ bag. result ≡ bag.most) }
    ensures empty { handle.old.held ≡ None → result ≡ 0 }
    ensures unchanged { handle.new.held ≡ handle.old.held }
{
    with_held!(alloc, handle, 0, |held| match held {
        Held::Numbers(bag) => bag.limit(),
        Held::Texts(bag) => bag.limit(),
    })
}

/// Sets the limit to `most`, and returns 0. Nothing else changes.
///
/// # Errors
///
/// `HASHBAG_BELOW_TOTAL` if `most` is below the total; `HASHBAG_EMPTY` if the handle has no bag. Then nothing changes.
#[unsafe(no_mangle)]
pub extern "C" fn hashbag_set_limit(alloc: Global, handle: &mut Handle, most: usize) -> u8
    // If the result is 0, only the limit changed, to `most`.
    ensures set { result ≡ 0 → BagTo handle.old.held handle.new.held (λ _ _ _ bag after. after ≡ limited most bag) }

    // The result is 9 (`HASHBAG_BELOW_TOTAL`) exactly if `most` is below the total.
    ensures below_total { IfBag handle.old.held (λ _ _ _ bag. (result ≡ 9) ↔ (most < length bag.items)) }
    ensures empty { handle.old.held ≡ None → result ≡ EMPTY }
    ensures err { result ≢ 0 → handle.new.held ≡ handle.old.held }
{
    with_held!(alloc, handle, EMPTY, |mut held| {
        let done = match held {
            Held::Numbers(bag) => bag.set_limit(most),
            Held::Texts(bag) => bag.set_limit(most),
        };
        match done {
            Ok(()) => 0,
            Err(error) => error.number(),
        }
    })
}

/// Removes all occurrences. The bag keeps its limit, its keys and its memory.
#[unsafe(no_mangle)]
pub extern "C" fn hashbag_clear(alloc: Global, handle: &mut Handle)
    ensures cleared { BagTo handle.old.held handle.new.held (λ _ _ _ bag after. IsCleared bag after) }
    ensures empty { handle.old.held ≡ None → handle.new.held ≡ None }
{
    with_held!(alloc, handle, (), |mut held| match held {
        Held::Numbers(bag) => bag.clear(),
        Held::Texts(bag) => bag.clear(),
    })
}

/// Makes room for `n` absent values, and returns 0. Inserting these values then allocates nothing but the bytes of byte strings.
///
/// # Errors
///
/// `HASHBAG_MEMORY` if an allocation fails; `HASHBAG_EMPTY` if the handle has no bag. Then nothing changes.
#[unsafe(no_mangle)]
pub extern "C" fn hashbag_reserve(alloc: Global, handle: &mut Handle, n: usize) -> u8
    // The bag means the same list as before, and its limit and its hash state are the same.
    ensures bag { BagTo handle.old.held handle.new.held (λ _ _ eq bag after. IsBagOf eq bag bag.items after) }
    ensures made_room { result ≡ 0 → IfBag handle.new.held (λ _ _ _ after. n ≤ room after.tables) }
    ensures enough { IfBag handle.old.held (λ _ _ _ bag. n ≤ room bag.tables → result ≡ 0) }
    ensures memory { result ≢ 0 → (result ≡ 1) ⊎ (handle.old.held ≡ None) }
    ensures empty { handle.old.held ≡ None → result ≡ EMPTY }
    ensures err { result ≢ 0 → handle.new.held ≡ handle.old.held }
{
    with_held!(alloc, handle, EMPTY, |mut held| {
        let done = match held {
            Held::Numbers(bag) => bag.reserve(n),
            Held::Texts(bag) => bag.reserve(n),
        };
        match done {
            Ok(()) => 0,
            Err(error) => error.number(),
        }
    })
}

/// Frees memory that the bag doesn't need, and returns 0. If less memory is enough for the values, they are moved into a new allocation. A
/// bag without values allocates nothing.
///
/// # Errors
///
/// `HASHBAG_MEMORY` if an allocation fails; `HASHBAG_EMPTY` if the handle has no bag. Then nothing changes.
#[unsafe(no_mangle)]
pub extern "C" fn hashbag_shrink_to_fit(alloc: Global, handle: &mut Handle) -> u8
    // The bag means the same list as before, and its limit and its hash state are the same.
    ensures bag { BagTo handle.old.held handle.new.held (λ _ _ eq bag after. IsBagOf eq bag bag.items after) }

    // If the result is 0: a table with more slots than the values need has now the least number with room for them; any other is unchanged. An empty
    // bag has no slots.
    ensures slots { result ≡ 0 → BagTo handle.old.held handle.new.held (λ _ _ eq bag after. HasShrunk eq bag after) }

    // A bag without values can't fail.
    ensures no_values { IfBag handle.old.held (λ _ _ _ bag. bag.items ≡ [] → result ≡ 0) }
    ensures memory { result ≢ 0 → (result ≡ 1) ⊎ (handle.old.held ≡ None) }
    ensures empty { handle.old.held ≡ None → result ≡ EMPTY }
    ensures err { result ≢ 0 → handle.new.held ≡ handle.old.held }
{
    with_held!(alloc, handle, EMPTY, |mut held| {
        let done = match held {
            Held::Numbers(bag) => bag.shrink_to_fit(),
            Held::Texts(bag) => bag.shrink_to_fit(),
        };
        match done {
            Ok(()) => 0,
            Err(error) => error.number(),
        }
    })
}

/// Returns how many distinct values the bag can have before it grows. Returns 0 for an empty handle.
#[unsafe(no_mangle)]
pub extern "C" fn hashbag_capacity(alloc: Global, handle: &mut Handle) -> usize
    ensures capacity { IfBag handle.old.held (λ _ _ eq bag. result ≡ distinct_count eq bag.items + room bag.tables) }
    ensures empty { handle.old.held ≡ None → result ≡ 0 }
    ensures unchanged { handle.new.held ≡ handle.old.held }
{
    with_held!(alloc, handle, 0, |held| match held {
        Held::Numbers(bag) => bag.capacity(),
        Held::Texts(bag) => bag.capacity(),
    })
}

fn copied(held: &Held) -> Result<Held, BagError>
    ensures { IfOk result (λ made. BagTo (Some held.now) (Some made) (λ _ _ eq bag copy. IsCopy eq bag copy)) }
{
    match held {
        Held::Numbers(bag) => Ok(Held::Numbers(bag.clone()?)),
        Held::Texts(bag) => Ok(Held::Texts(bag.clone()?)),
    }
}

/// Puts a bag with the same counts, limit and keys into `copy`, and returns 0. The bag that `copy` had is freed. `handle` and `copy` must
/// be different handles.
///
/// # Errors
///
/// `HASHBAG_MEMORY` if an allocation fails; `HASHBAG_EMPTY` if `handle` has no bag. Then nothing changes.
#[unsafe(no_mangle)]
pub extern "C" fn hashbag_clone(alloc: Global, handle: &mut Handle, copy: &mut Handle) -> u8
    // If the result is 0: `copy` has the counts, the total, the limit and the hash state of the bag, in the fewest slots with room for its values.
    ensures copied { result ≡ 0 → BagTo handle.old.held copy.new.held (λ _ _ eq bag made. IsCopy eq bag made) }
    ensures memory { result ≢ 0 → (result ≡ 1) ⊎ (handle.old.held ≡ None) }
    ensures empty { handle.old.held ≡ None → result ≡ EMPTY }
    ensures unchanged { handle.new.held ≡ handle.old.held }
    ensures err { result ≢ 0 → copy.new.held ≡ copy.old.held }
{
    with_held!(alloc, handle, EMPTY, |held| match copied(held) {
        Ok(made) => copy.begin(alloc, made),
        Err(_) => 1,
    })
}

fn is_empty(alloc: Global, handle: &mut Handle) -> bool
    ensures empty { IsTrue result ↔ (handle.old.held ≡ None) }
    ensures unchanged { handle.new.held ≡ handle.old.held }
{
    with_held!(alloc, handle, true, |_held| false)
}

/// Returns whether two handles have bags of one kind in which each value occurs equally often, or both handles are empty. `a` and `b` must
/// be different handles.
#[unsafe(no_mangle)]
pub extern "C" fn hashbag_equal(alloc: Global, a: &mut Handle, b: &mut Handle) -> bool
    // Of bags of one kind: the result is whether each value occurs equally often in both.
    ensures equal { BothBags a.old.held b.old.held (λ _ _ eq x y. result ≡ bag_eq eq x y) }
    ensures kinds { IfOtherKinds a.old.held b.old.held (result ≡ false) }
    ensures empty { a.old.held ≡ None → IsTrue result ↔ (b.old.held ≡ None) }
    ensures other_empty { b.old.held ≡ None → IsTrue result ↔ (a.old.held ≡ None) }
    ensures unchanged { (a.new.held ≡ a.old.held) × (b.new.held ≡ b.old.held) }
{
    with_both!(
        alloc,
        a,
        b,
        is_empty(alloc, a) && is_empty(alloc, b),
        |first, second| match (first, second) {
            (Held::Numbers(bag), Held::Numbers(other)) => bag == other,
            (Held::Texts(bag), Held::Texts(other)) => bag == other,
            _ => false,
        }
    )
}
