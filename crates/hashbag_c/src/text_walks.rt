//! A walk over a bag of byte strings that C holds. In clauses `held` is what a handle has: a bag of numbers, a bag of byte strings, or nothing.
//! `left` is what a walk has: pairs of a byte string and its count that are left, pairs of numbers, or nothing.
//! The result 1 is `HASHBAG_MEMORY`.
//!
//! - `IfTexts held P`: if `held` is a bag of byte strings, P holds of it.
//! - `OnTexts result held P`: if `held` is a bag of byte strings and `result` is 0, P holds of the bag.
//! - `UnlessTexts held P`: if `held` is no bag of byte strings, P holds of the number that says why: `EMPTY` (no bag) or `KIND` (the other kind).
//! - `HasTextPairs left P`: the walk is over byte strings, and P holds of the pairs that are left. `IfTextPairs left P`: if it is, P holds of them.
//! - `TextPairsTo left after P`: if the walk is over byte strings, it is so afterwards too, and P holds of the pairs before and of the pairs after.
//! - `UnlessTextPairs left P`: if the walk isn't over byte strings, P holds.
ghost use Rattle.std.specs.Prelude.{◌≡◌, ◌≢◌, drop, IfErr, IfOk};
ghost use Rattle.std.specs.Str.{bytes_eq};
ghost use Rattle.hashbag_core.specs.Walks.{IsSetWalkOf};
ghost use Rattle.hashbag_c.specs.Calls.{IfTexts, OnTexts, UnlessTexts};
ghost use Rattle.hashbag_c.specs.Reads.{HasWrittenTexts};
ghost use Rattle.hashbag_c.specs.Walked.{next_size, HasNextTexts, HasTextPairs, IfTextPairs, TextPairsTo, UnlessTextPairs};

use crate::any::{EMPTY, KIND};
use crate::bytes::Bytes;
use crate::entries::write_texts;
use crate::handle::Handle;
use crate::held::{Held, Left, with_held};
use crate::state::Keys;
use crate::walk::Walk;
use crate::walks::drop_front;
use hashbag_core::{BagError, HashBag};
use std::alloc::Global;
use std::collections::VecDeque;

// Copies the distinct byte strings with their counts.
fn pairs_of(alloc: Global, bag: &HashBag<Bytes, Keys>) -> Result<VecDeque<(Bytes, usize)>, BagError>
    ensures walk { IfOk result (λ pairs. IsSetWalkOf bytes_eq bag.now pairs.items) }
    ensures memory { IfErr result (λ e. e ≡ BagError.Memory) }
{
    let mut pairs = VecDeque::with_capacity(alloc, bag.set_len())?;
    for (value, count) in bag.set_iter() {
        let copy = Bytes::of(alloc, value.as_slice())?;
        if pairs.push_back((copy, count)).is_err() {
            return Err(BagError::Memory);
        }
    }
    Ok(pairs)
}

/// Begins a walk over a bag of byte strings, and returns 0. The walk has a copy of all distinct strings with their counts, in no particular
/// order, so the bag may change or be freed meanwhile. A walk that was there is freed. It makes an allocation for each string, one for their
/// list, and one for the walk.
///
/// # Errors
///
/// `HASHBAG_MEMORY` if an allocation fails; `HASHBAG_EMPTY`; `HASHBAG_KIND`. Nothing changes then.
#[unsafe(no_mangle)]
pub extern "C" fn hashbag_texts_walk(alloc: Global, handle: &mut Handle, walk: &mut Walk) -> u8
    // If the result is 0, the walk has each distinct byte string of the bag once, with its count.
    ensures begun { OnTexts result handle.old.held (λ bag. HasTextPairs walk.new.left (IsSetWalkOf bytes_eq bag)) }
    ensures only { IfTexts handle.old.held (λ _. result ≢ 0 → result ≡ 1) }
    ensures otherwise { UnlessTexts handle.old.held (λ code. result ≡ code) }
    ensures unchanged { handle.new.held ≡ handle.old.held }
    ensures err { result ≢ 0 → walk.new.left ≡ walk.old.left }
{
    with_held!(alloc, handle, EMPTY, |held| match held {
        Held::Numbers(_) => KIND,
        Held::Texts(bag) => match pairs_of(alloc, bag) {
            Ok(pairs) => walk.begin(alloc, Left::Texts(pairs)),
            Err(_) => 1,
        },
    })
}

// Writes the first strings, as many as there are places for, removes them, and returns how many.
fn write_next(
    pairs: &mut VecDeque<(Bytes, usize)>,
    bytes: &mut [u8],
    ends: &mut [usize],
    counts: &mut [usize],
) -> usize
    ensures { HasNextTexts result bytes.new ends.new counts.new pairs.old.items pairs.new.items }
{
    let n = write_texts(pairs.iter(), bytes, ends, counts);
    drop_front(pairs, n);
    n
}

/// Writes the next byte strings of a walk and their counts, as `hashbag_texts_read` does: as many as there are places for. Returns how many.
/// The next call goes on after them: the parts of all calls together are all distinct strings, each once. It returns 0 at the end, or if the
/// walk isn't one over byte strings. It also returns 0 if the next string is longer than `bytes`: `hashbag_walk_left` isn't 0 then, and
/// `hashbag_texts_next_len` returns how many bytes it needs. It doesn't allocate.
#[unsafe(no_mangle)]
pub extern "C" fn hashbag_texts_next(
    alloc: Global,
    walk: &mut Walk,
    bytes: &mut [u8],
    ends: &mut [usize],
    counts: &mut [usize],
) -> usize
    // The first `result` pairs that were left are written, and the pairs after these are left. If a pair is left, the next one has no place. `bytes`
    // begins with the strings one after another, `ends` with where each ends, `counts` with their counts.
    ensures next { TextPairsTo walk.old.left walk.new.left (HasNextTexts result bytes.new ends.new counts.new) }
    ensures otherwise { UnlessTextPairs walk.old.left ((result ≡ 0) × (walk.new.left ≡ walk.old.left)) }
{
    with_held!(alloc, walk, 0, |mut left| match left {
        Left::Numbers(_) => 0,
        Left::Texts(pairs) => write_next(pairs, bytes, ends, counts),
    })
}

// Returns the number of bytes of the first string, or 0 if there is none.
fn front_len(pairs: &VecDeque<(Bytes, usize)>) -> usize
    ensures { result ≡ next_size pairs.now.items }
{
    match pairs.front() {
        Some(pair) => pair.0.as_slice().len(),
        None => 0,
    }
}

/// Returns how many bytes the next byte string of a walk has, which `hashbag_texts_next` needs places for to write it. It is 0 at the end, or
/// if the walk isn't one over byte strings.
#[unsafe(no_mangle)]
pub extern "C" fn hashbag_texts_next_len(alloc: Global, walk: &mut Walk) -> usize
    // `next_size` is how many bytes the first string of the pairs has, 0 without pairs.
    ensures next { IfTextPairs walk.old.left (λ pairs. result ≡ next_size pairs) }
    ensures otherwise { UnlessTextPairs walk.old.left (result ≡ 0) }
    ensures unchanged { walk.new.left ≡ walk.old.left }
{
    with_held!(alloc, walk, 0, |left| match left {
        Left::Numbers(_) => 0,
        Left::Texts(pairs) => front_len(pairs),
    })
}
