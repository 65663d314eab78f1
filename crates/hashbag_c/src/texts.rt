//! Calls on a bag of byte strings. In clauses `held` is what a handle has: a bag of numbers, a bag of byte strings, or nothing.
//! The results 1 and 2 are `HASHBAG_MEMORY` and `HASHBAG_TOO_MANY`.
//!
//! - `IfTexts held P`: if `held` is a bag of byte strings, P holds of it.
//! - `HasTexts held P`: `held` is a bag of byte strings, and P holds of it.
//! - `OnTexts result held P`: if `held` is a bag of byte strings and `result` is 0, P holds of the bag.
//! - `TextsTo held after P`: if `held` is a bag of byte strings, `after` is one too, and P holds of both.
//! - `UnlessTexts held P`: if `held` is no bag of byte strings, P holds of the number that says why: `EMPTY` (no bag) or `KIND` (the other kind).
//! - `occurs bytes bag` is the count of the byte string with these bytes, and `named bytes` the test for it.
ghost use Rattle.std.specs.Prelude.{◌≡◌, ◌≢◌, ◌+◌, ◌-◌, ◌<◌, ◌≤◌, ◌↔◌, ◌⊎◌, [], length, IsOk, IfErr, OnOk, OnErr};
ghost use Rattle.std.specs.Str.{bytes_eq};
ghost use Rattle.hashbag_core.specs.Held.{HasFewer};
ghost use Rattle.hashbag_c.specs.Calls.{named, occurs, HasTexts, IfTexts, OnTexts, TextsTo, UnlessTexts};
ghost use Rattle.hashbag_c.specs.Whole.{CanHold, CanSet, InsertsText, IsEmptyWithKeys, LosesAll, Overfills, SetsNamed, ShrinksBy, TotalFollows};

use crate::any::{EMPTY, KIND};
use crate::bytes::{Bytes, Name};
use crate::handle::Handle;
use crate::held::{Held, store, with_held};
use crate::state::Keys;
use hashbag_core::{BagError, HashBag};
use std::alloc::Global;

/// Puts an empty bag of byte strings with the limit `most` into the handle, and returns 0. The bag that the handle had is freed.
///
/// The byte strings are hashed by SipHash under fixed keys, the same in every run. Use `hashbag_texts_new_keyed` if strangers choose the strings.
///
/// # Errors
///
/// `HASHBAG_MEMORY` if an allocation fails. Nothing changes then.
#[unsafe(no_mangle)]
pub extern "C" fn hashbag_texts_new(alloc: Global, handle: &mut Handle, most: usize) -> u8
    ensures made { result ≡ 0 → HasTexts handle.new.held (λ bag. (bag.items ≡ []) × (bag.most ≡ most)) }
    ensures memory { result ≢ 0 → result ≡ 1 }
    ensures err { result ≢ 0 → handle.new.held ≡ handle.old.held }
{
    let keys = Keys { key0: 0, key1: 0 };
    handle.begin(alloc, Held::Texts(HashBag::with_limit(alloc, keys, most)))
}

/// Does the same as `hashbag_texts_new`, with two keys of SipHash, which the caller draws at random: then nobody can choose byte strings
/// that collide.
///
/// # Errors
///
/// `HASHBAG_MEMORY` if an allocation fails. Nothing changes then.
#[unsafe(no_mangle)]
pub extern "C" fn hashbag_texts_new_keyed(
    alloc: Global,
    handle: &mut Handle,
    most: usize,
    key0: u64,
    key1: u64,
) -> u8
    ensures made { result ≡ 0 → HasTexts handle.new.held (IsEmptyWithKeys most key0 key1) }
    ensures memory { result ≢ 0 → result ≡ 1 }
    ensures err { result ≢ 0 → handle.new.held ≡ handle.old.held }
{
    let keys = Keys { key0, key1 };
    handle.begin(alloc, Held::Texts(HashBag::with_limit(alloc, keys, most)))
}

/// Inserts `n` occurrences of a byte string, writes the count before, and returns 0. With 0 nothing changes. The bytes are copied if the
/// string is absent.
///
/// # Errors
///
/// `HASHBAG_TOO_MANY` if the total would pass the limit; `HASHBAG_MEMORY` if the string is absent and an allocation fails;
/// `HASHBAG_EMPTY`; `HASHBAG_KIND`. Nothing changes then, and nothing is written.
#[unsafe(no_mangle)]
pub extern "C" fn hashbag_texts_insert(
    alloc: Global,
    handle: &mut Handle,
    value: &[u8],
    n: usize,
    before: &mut usize,
) -> u8
    // If `n` isn't 0 and the result is 0, `n` of the byte string were inserted.
    ensures inserted { 0 < n → result ≡ 0 → TextsTo handle.old.held handle.new.held (InsertsText value.now n) }

    // With `n` 0 it succeeds, and nothing changes.
    ensures none { n ≡ 0 → IfTexts handle.old.held (λ _. (result ≡ 0) × (handle.new.held ≡ handle.old.held)) }
    ensures before { OnTexts result handle.old.held (λ bag. before.new ≡ occurs value.now bag) }

    // The result is 2 exactly if the total with `n` more would pass the limit.
    ensures too_many { IfTexts handle.old.held (λ bag. (result ≡ 2) ↔ (Overfills bag n)) }

    // The result is 0 if `n` more are within the limit, and the byte string is present.
    ensures present { IfTexts handle.old.held (λ bag. CanHold bag n → 0 < occurs value.now bag → result ≡ 0) }
    ensures only { IfTexts handle.old.held (λ _. result ≢ 0 → (result ≡ 1) ⊎ (result ≡ 2)) }
    ensures otherwise { UnlessTexts handle.old.held (λ code. result ≡ code) }
    ensures err { result ≢ 0 → (handle.new.held ≡ handle.old.held) × (before.new ≡ before.old) }
{
    with_held!(alloc, handle, EMPTY, |mut held| match held {
        Held::Numbers(_) => KIND,
        Held::Texts(bag) => store!(bag.insert_many_key(Name { bytes: value }, n), before),
    })
}

/// Returns the count of a byte string, 0 if it is absent or the handle has no bag of byte strings.
#[unsafe(no_mangle)]
pub extern "C" fn hashbag_texts_contains(alloc: Global, handle: &mut Handle, value: &[u8]) -> usize
    ensures count { IfTexts handle.old.held (λ bag. result ≡ occurs value.now bag) }
    ensures otherwise { UnlessTexts handle.old.held (λ _. result ≡ 0) }
    ensures unchanged { handle.new.held ≡ handle.old.held }
{
    with_held!(alloc, handle, 0, |held| match held {
        Held::Numbers(_) => 0,
        Held::Texts(bag) => bag.contains(Name { bytes: value }),
    })
}

/// Removes `n` occurrences of a byte string, or all if there are fewer, and returns the count after. It is 0 if the handle has no bag of
/// byte strings.
#[unsafe(no_mangle)]
pub extern "C" fn hashbag_texts_remove(
    alloc: Global,
    handle: &mut Handle,
    value: &[u8],
    n: usize,
) -> usize
    ensures after { IfTexts handle.old.held (λ bag. result ≡ occurs value.now bag - n) }

    // The bag lost `n` of the byte string, or all if there were fewer, and nothing else. Limit and keys are the same, and there is no less room.
    ensures fewer { TextsTo handle.old.held handle.new.held (HasFewer bytes_eq (named value.now) n) }

    // The total fell by as many as the count of the byte string did.
    ensures len { TextsTo handle.old.held handle.new.held (TotalFollows (named value.now) result) }
    ensures otherwise { UnlessTexts handle.old.held (λ _. (result ≡ 0) × (handle.new.held ≡ handle.old.held)) }
{
    with_held!(alloc, handle, 0, |mut held| match held {
        Held::Numbers(_) => 0,
        Held::Texts(bag) => bag.remove_up_to(Name { bytes: value }, n),
    })
}

/// Removes all occurrences of a byte string, and returns how many there were. It is 0 if the handle has no bag of byte strings.
#[unsafe(no_mangle)]
pub extern "C" fn hashbag_texts_take_all(alloc: Global, handle: &mut Handle, value: &[u8]) -> usize
    ensures before { IfTexts handle.old.held (λ bag. result ≡ occurs value.now bag) }

    // The bag lost all occurrences of the byte string, and nothing else. The total fell by `result`.
    ensures fewer { TextsTo handle.old.held handle.new.held (LosesAll bytes_eq (named value.now)) }
    ensures len { TextsTo handle.old.held handle.new.held (ShrinksBy result) }
    ensures otherwise { UnlessTexts handle.old.held (λ _. (result ≡ 0) × (handle.new.held ≡ handle.old.held)) }
{
    with_held!(alloc, handle, 0, |mut held| match held {
        Held::Numbers(_) => 0,
        Held::Texts(bag) => {
            let count = bag.contains(Name { bytes: value });
            bag.remove_up_to(Name { bytes: value }, count);
            count
        }
    })
}

// Sets the count of a byte string to `n`. `before` must be its count.
pub(crate) fn recount(
    bag: &mut HashBag<Bytes, Keys>,
    value: &[u8],
    before: usize,
    n: usize,
) -> Result<(), BagError>
    requires { before ≡ occurs value.now bag.old }
    ensures set { OnOk result (SetsNamed bytes_eq (named value.now) n bag.old bag.new) }
    ensures too_many { (result ≡ Err BagError.TooMany) ↔ (bag.old.most < length bag.old.items + (n - before)) }
    ensures only { IfErr result (λ e. (e ≡ BagError.Memory) ⊎ (e ≡ BagError.TooMany)) }
    ensures present { length bag.old.items + (n - before) ≤ bag.old.most → 0 < before → IsOk result }
    ensures none { n ≡ 0 → IsOk result }
    ensures err { OnErr result (bag.new ≡ bag.old) }
{
    // Does nothing at run time. It gives the proof the contract of `limit`: its clause `within`.
    let _limit = bag.limit();
    if n <= before {
        bag.remove_up_to(Name { bytes: value }, before - n);
        return Ok(());
    }
    bag.insert_many_key(Name { bytes: value }, n - before)?;
    Ok(())
}

/// Sets the count of a byte string to `n`, writes the count before, and returns 0. With 0 the string is removed. The bytes are copied if the
/// string is absent.
///
/// # Errors
///
/// `HASHBAG_TOO_MANY` if the total would pass the limit; `HASHBAG_MEMORY` if the string is absent and an allocation fails;
/// `HASHBAG_EMPTY`; `HASHBAG_KIND`. Nothing changes then, and nothing is written.
#[unsafe(no_mangle)]
pub extern "C" fn hashbag_texts_set_count(
    alloc: Global,
    handle: &mut Handle,
    value: &[u8],
    n: usize,
    before: &mut usize,
) -> u8
    // If the result is 0: what the count lacked to `n` was inserted, or what it had above `n` was removed.
    ensures set { result ≡ 0 → TextsTo handle.old.held handle.new.held (SetsNamed bytes_eq (named value.now) n) }
    ensures before { OnTexts result handle.old.held (λ bag. before.new ≡ occurs value.now bag) }

    // The result is 2 exactly if the total with what is inserted would pass the limit. `n - occurs ..` is 0 if the count isn't below `n`.
    ensures too_many { IfTexts handle.old.held (λ bag. (result ≡ 2) ↔ (Overfills bag (n - occurs value.now bag))) }

    // The result is 0 if the byte string is present and the total with what is inserted is within the limit; and if `n` is 0.
    ensures present { IfTexts handle.old.held (λ bag. CanSet value.now n bag → 0 < occurs value.now bag → result ≡ 0) }
    ensures none { n ≡ 0 → IfTexts handle.old.held (λ _. result ≡ 0) }
    ensures only { IfTexts handle.old.held (λ _. result ≢ 0 → (result ≡ 1) ⊎ (result ≡ 2)) }
    ensures otherwise { UnlessTexts handle.old.held (λ code. result ≡ code) }
    ensures err { result ≢ 0 → (handle.new.held ≡ handle.old.held) × (before.new ≡ before.old) }
{
    with_held!(alloc, handle, EMPTY, |mut held| match held {
        Held::Numbers(_) => KIND,
        Held::Texts(bag) => {
            let count = bag.contains(Name { bytes: value });
            match recount(bag, value, count, n) {
                Ok(()) => {
                    *before = count;
                    0
                }
                Err(error) => error.number(),
            }
        }
    })
}
