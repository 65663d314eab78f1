//! The byte strings of a bag with their counts, in ascending order or the most common first. In clauses `held` is what a handle has:
//! a bag of numbers, a bag of byte strings, or nothing. The result 1 is `HASHBAG_MEMORY`.
//!
//! - `IfTexts held P`: if `held` is a bag of byte strings, P holds of it.
//! - `OnTexts result held P`: if `held` is a bag of byte strings and `result` is 0, P holds of the bag.
//! - `UnlessTexts held P`: if `held` is no bag of byte strings, P holds of the number that says why: `EMPTY` (no bag) or `KIND` (the other kind).
ghost use Rattle.std.specs.Prelude.{◌≡◌, ◌≢◌, IfErr, IfOk, OnErr};
ghost use Rattle.hashbag_c.specs.Calls.{IfTexts, OnTexts, UnlessTexts};
ghost use Rattle.hashbag_c.specs.Reads.{HasMostCommonTexts, HasSortedTexts};

use crate::any::{EMPTY, KIND};
use crate::bytes::Bytes;
use crate::entries::write_texts;
use crate::handle::Handle;
use crate::held::{Held, store, with_held};
use crate::state::Keys;
use hashbag_core::{BagError, HashBag};
use std::alloc::Global;

// Reads the strings, in ascending order, and returns how many.
fn read_sorted(
    alloc: Global,
    bag: &HashBag<Bytes, Keys>,
    bytes: &mut [u8],
    ends: &mut [usize],
    counts: &mut [usize],
) -> Result<usize, BagError>
    ensures read { IfOk result (λ n. HasSortedTexts bag.now n bytes.new ends.new counts.new) }
    ensures memory { IfErr result (λ e. e ≡ BagError.Memory) }
    ensures err { OnErr result ((bytes.new ≡ bytes.old) × (ends.new ≡ ends.old) × (counts.new ≡ counts.old)) }
{
    let pairs = hashbag_ops::sorted(alloc, bag)?;
    Ok(write_texts(pairs.iter(), bytes, ends, counts))
}

/// Writes the distinct byte strings in ascending order, by unsigned bytes, and their counts, as `hashbag_texts_read` does. Writes how many
/// into `n`, and returns 0, also if not all have places. All are written if `ends` and `counts` have `hashbag_set_len` places and `bytes` has
/// `hashbag_texts_bytes`. It makes one allocation, a list of all distinct strings, and sorts it.
///
/// # Errors
///
/// `HASHBAG_MEMORY` if the allocation fails; `HASHBAG_EMPTY`; `HASHBAG_KIND`. Nothing is written then. The bag is unchanged in any case.
#[unsafe(no_mangle)]
pub extern "C" fn hashbag_texts_sorted(
    alloc: Global,
    handle: &mut Handle,
    bytes: &mut [u8],
    ends: &mut [usize],
    counts: &mut [usize],
    n: &mut usize,
) -> u8
    // If the result is 0: the first `n` of all distinct strings, in ascending order, are written; if that isn't all, the next one has no place.
    // `bytes` begins with the strings one after another, `ends` with where each ends, `counts` with their counts.
    ensures read { OnTexts result handle.old.held (λ bag. HasSortedTexts bag n.new bytes.new ends.new counts.new) }
    ensures only { IfTexts handle.old.held (λ _. result ≢ 0 → result ≡ 1) }
    ensures otherwise { UnlessTexts handle.old.held (λ code. result ≡ code) }
    ensures unchanged { handle.new.held ≡ handle.old.held }
    ensures failed { result ≢ 0 → n.new ≡ n.old }
    ensures err { result ≢ 0 → (bytes.new ≡ bytes.old) × (ends.new ≡ ends.old) × (counts.new ≡ counts.old) }
{
    with_held!(alloc, handle, EMPTY, |held| match held {
        Held::Numbers(_) => KIND,
        Held::Texts(bag) => store!(read_sorted(alloc, bag, bytes, ends, counts), n),
    })
}

// Reads the most common strings, and returns how many.
fn read_most_common(
    alloc: Global,
    bag: &HashBag<Bytes, Keys>,
    bytes: &mut [u8],
    ends: &mut [usize],
    counts: &mut [usize],
) -> Result<usize, BagError>
    ensures read { IfOk result (λ n. HasMostCommonTexts bag.now n bytes.new ends.new counts.new) }
    ensures memory { IfErr result (λ e. e ≡ BagError.Memory) }
    ensures err { OnErr result ((bytes.new ≡ bytes.old) × (ends.new ≡ ends.old) × (counts.new ≡ counts.old)) }
{
    let most = ends.len().min(counts.len());
    let pairs = hashbag_ops::most_common(alloc, bag, most)?;
    Ok(write_texts(pairs.iter(), bytes, ends, counts))
}

/// Writes the k most common byte strings and their counts, as `hashbag_texts_read` does: in descending order of counts, and in ascending
/// order, by unsigned bytes, if they occur equally often. k is the lesser of `ends_len` and `counts_len`. Writes how many into `n`, and
/// returns 0. All k are written if `bytes` has `hashbag_texts_bytes` places. It reads each distinct string once, and makes two allocations at
/// most, each of as many pairs as it may write.
///
/// # Errors
///
/// `HASHBAG_MEMORY` if an allocation fails; `HASHBAG_EMPTY`; `HASHBAG_KIND`. Nothing is written then. The bag is unchanged in any case.
#[unsafe(no_mangle)]
pub extern "C" fn hashbag_texts_most_common(
    alloc: Global,
    handle: &mut Handle,
    bytes: &mut [u8],
    ends: &mut [usize],
    counts: &mut [usize],
    n: &mut usize,
) -> u8
    // If the result is 0: the first `n` of the k most common strings are written, in the same way; if that isn't all k, the next one has no place.
    ensures read { OnTexts result handle.old.held (λ bag. HasMostCommonTexts bag n.new bytes.new ends.new counts.new) }
    ensures only { IfTexts handle.old.held (λ _. result ≢ 0 → result ≡ 1) }
    ensures otherwise { UnlessTexts handle.old.held (λ code. result ≡ code) }
    ensures unchanged { handle.new.held ≡ handle.old.held }
    ensures failed { result ≢ 0 → n.new ≡ n.old }
    ensures err { result ≢ 0 → (bytes.new ≡ bytes.old) × (ends.new ≡ ends.old) × (counts.new ≡ counts.old) }
{
    with_held!(alloc, handle, EMPTY, |held| match held {
        Held::Numbers(_) => KIND,
        Held::Texts(bag) => store!(read_most_common(alloc, bag, bytes, ends, counts), n),
    })
}
