//! Calls on a bag of byte strings that take or write many byte strings at once. In clauses `held` is what a handle has: a bag of numbers,
//! a bag of byte strings, or nothing.
//!
//! - `IfTexts held P`: if `held` is a bag of byte strings, P holds of it.
//! - `TextsTo held after P`: if `held` is a bag of byte strings, `after` is one too, and P holds of both.
//! - `UnlessTexts held P`: if `held` is no bag of byte strings, P holds of the number that says why: `EMPTY` (no bag) or `KIND` (the other kind).
ghost use Rattle.std.specs.Prelude.{◌≡◌, ◌≢◌, ◌+◌, ◌≤◌, ◌∷◌, length, get_or, min, IfOk, OnErr, OnOk};
ghost use Rattle.std.specs.Str.{bytes_eq};
ghost use Rattle.hashbag_core.specs.Walks.{IsSetWalkOf};
ghost use Rattle.hashbag_c.specs.Calls.{IfTexts, TextsTo, UnlessTexts};
ghost use Rattle.hashbag_c.specs.Pieces.{pieces_from, AddsPieces, AddsSplit, IsPiece, RetainsPieces};
ghost use Rattle.hashbag_c.specs.Quotas.{HasQuotas};
ghost use Rattle.hashbag_c.specs.Reads.{size_of, HasSize, ReadsTexts};
ghost use Rattle.hashbag_c.specs.Whole.{GrowsBy};

use crate::any::{EMPTY, ENDS, KIND};
use crate::bytes::{Bytes, Name};
use crate::entries::write_texts;
use crate::handle::Handle;
use crate::held::{Held, with_held};
use crate::state::Keys;
use crate::texts::recount;
use hashbag_core::{BagError, HashBag, SetIter};
use std::alloc::Global;

// Why a batch of byte strings ended.
#[derive(Clone, Copy, Drop)]
enum PieceError {
    Bag(BagError),
    Ends,
}

impl PieceError {
    fn number(self) -> u8
        ensures { result ≢ 0 }
    {
        match self {
            PieceError::Bag(error) => error.number(),
            PieceError::Ends => ENDS,
        }
    }
}

impl From<BagError> for PieceError {
    fn from(error: BagError) -> PieceError {
        PieceError::Bag(error)
    }
}

// Returns the bytes from one place to another, or `Ends` if there are no such bytes.
fn piece(bytes: &[u8], from: usize, end: usize) -> Result<Name<'_>, PieceError>
    ensures { IfOk result (λ name. IsPiece bytes.now from end name.bytes.now) }
{
    if end < from || end > bytes.len() {
        return Err(PieceError::Ends);
    }
    Ok(Name {
        bytes: &bytes[from..end],
    })
}

// Inserts each piece once, in turn, until one fails, and counts how many were inserted.
fn insert_each(
    bag: &mut HashBag<Bytes, Keys>,
    bytes: &[u8],
    ends: &[usize],
    done: &mut usize,
) -> Result<(), PieceError>
    ensures counts { OnOk result (AddsPieces bytes.now ends.now bag.old bag.new) }
    ensures len { length bag.new.items ≡ length bag.old.items + done.new }
    ensures all { OnOk result (done.new ≡ length ends.now) }
    ensures within { done.new ≤ length ends.now }
{
    let mut from = 0;
    *done = 0;
    for end in ends {
        bag.insert_key(piece(bytes, from, *end)?)?;
        from = *end;
        *done += 1;
    }
    Ok(())
}

/// Inserts byte strings that lie one after another in `bytes`, each once, in turn, until one fails. String 0 is `bytes[0..ends[0]]`, and
/// string i is `bytes[ends[i - 1]..ends[i]]`. Writes how many were inserted, and returns 0 if that is all.
///
/// # Errors
///
/// `HASHBAG_TOO_MANY` if the total would pass the limit; `HASHBAG_MEMORY` if an allocation fails; `HASHBAG_EMPTY`; `HASHBAG_KIND`;
/// `HASHBAG_ENDS` if an end is below the one before it, or above `bytes_len`. The strings before the one that fails stay in the bag.
#[unsafe(no_mangle)]
pub extern "C" fn hashbag_texts_insert_all(
    alloc: Global,
    handle: &mut Handle,
    bytes: &[u8],
    ends: &[usize],
    done: &mut usize,
) -> u8
    // If the result is 0, each count grew by how often the byte string is among the strings that `ends` cuts from `bytes`, from its beginning on.
    ensures counts { result ≡ 0 → TextsTo handle.old.held handle.new.held (AddsPieces bytes.now ends.now) }

    // The total grew by `done`, whatever the result is.
    ensures len { TextsTo handle.old.held handle.new.held (GrowsBy done.new) }
    ensures all { result ≡ 0 → done.new ≡ length ends.now }
    ensures within { done.new ≤ length ends.now }
    ensures otherwise { UnlessTexts handle.old.held (λ code. (result ≡ code) × (handle.new.held ≡ handle.old.held)) }
{
    *done = 0;
    with_held!(alloc, handle, EMPTY, |mut held| match held {
        Held::Numbers(_) => KIND,
        Held::Texts(bag) => match insert_each(bag, bytes, ends, done) {
            Ok(()) => 0,
            Err(error) => error.number(),
        },
    })
}

// Inserts each piece between separators once, in turn, until one fails, and counts how many were inserted.
fn insert_pieces(
    bag: &mut HashBag<Bytes, Keys>,
    bytes: &[u8],
    separator: u8,
    done: &mut usize,
) -> Result<(), BagError>
    ensures counts { OnOk result (AddsSplit separator bytes.now bag.old bag.new) }
    ensures len { length bag.new.items ≡ length bag.old.items + done.new }
{
    let mut from = 0;
    *done = 0;
    for (at, byte) in bytes.iter().enumerate() {
        if *byte != separator {
            continue;
        }
        bag.insert_key(Name {
            bytes: &bytes[from..at],
        })?;
        *done += 1;
        from = at + 1;
    }
    bag.insert_key(Name {
        bytes: &bytes[from..],
    })?;
    *done += 1;
    Ok(())
}

/// Inserts the pieces of `bytes` between separators, each once, in turn, until one fails. There is one piece more than separators, and
/// some may be empty. Writes how many were inserted, and returns 0 if that is all.
///
/// # Errors
///
/// `HASHBAG_TOO_MANY` if the total would pass the limit; `HASHBAG_MEMORY` if an allocation fails; `HASHBAG_EMPTY`; `HASHBAG_KIND`. The
/// pieces before the one that fails stay in the bag.
#[unsafe(no_mangle)]
pub extern "C" fn hashbag_texts_insert_split(
    alloc: Global,
    handle: &mut Handle,
    bytes: &[u8],
    separator: u8,
    done: &mut usize,
) -> u8
    // If the result is 0, each count grew by how often the byte string is among the pieces of `bytes` between separators.
    ensures counts { result ≡ 0 → TextsTo handle.old.held handle.new.held (AddsSplit separator bytes.now) }

    // The total grew by `done`, whatever the result is.
    ensures len { TextsTo handle.old.held handle.new.held (GrowsBy done.new) }
    ensures otherwise { UnlessTexts handle.old.held (λ code. (result ≡ code) × (handle.new.held ≡ handle.old.held)) }
{
    *done = 0;
    with_held!(alloc, handle, EMPTY, |mut held| match held {
        Held::Numbers(_) => KIND,
        Held::Texts(bag) => match insert_pieces(bag, bytes, separator, done) {
            Ok(()) => 0,
            Err(error) => error.number(),
        },
    })
}

// Returns where a piece begins.
fn start(ends: &[usize], i: usize) -> usize
    requires { i ≤ length ends.now }
    ensures { result ≡ get_or (0 ∷ ends.now) i 0 }
{
    if i == 0 { 0 } else { ends[i - 1] }
}

// Returns a bag that has each listed string as often as `bag`, but at most as often as `most` says at its first place, and no other string.
fn allowed(
    alloc: Global,
    bag: &HashBag<Bytes, Keys>,
    bytes: &[u8],
    ends: &[usize],
    most: &[usize],
) -> Result<HashBag<Bytes, Keys>, PieceError>
    ensures { IfOk result (HasQuotas bytes_eq (pieces_from 0 bytes.now ends.now) most.now bag.now) }
{
    let mut made = HashBag::with_limit(alloc, *bag.hasher(), usize::MAX);
    for i in (0..ends.len().min(most.len())).rev() {
        let name = piece(bytes, start(ends, i), ends[i])?;
        let n = most[i].min(bag.contains(name));
        let before = made.contains(name);
        recount(&mut made, name.bytes, before, n)?;
    }
    Ok(made)
}

// Keeps at most `most[i]` occurrences of the string that ends at `ends[i]`, and none of a string that isn't listed.
fn keep_listed(
    alloc: Global,
    bag: &mut HashBag<Bytes, Keys>,
    bytes: &[u8],
    ends: &[usize],
    most: &[usize],
) -> Result<(), PieceError>
    ensures retained { OnOk result (RetainsPieces bytes.now ends.now most.now bag.old bag.new) }
    ensures err { OnErr result (bag.new ≡ bag.old) }
{
    let allowed = allowed(alloc, bag, bytes, ends, most)?;
    hashbag_ops::keep_common(bag, &allowed);
    Ok(())
}

/// Keeps at most `most[i]` occurrences of each listed string i, and returns 0. The strings lie one after another in `bytes`, as those of
/// `hashbag_texts_insert_all`: string i ends at `ends[i]`. If a string is listed twice, its first place counts. A string that isn't listed
/// is removed. If `ends` and `most` differ in length, the rest of the longer one is ignored.
///
/// # Errors
///
/// `HASHBAG_ENDS` if an end is below the one before it, or above `bytes_len`; `HASHBAG_MEMORY` if an allocation fails, since it makes a bag
/// of the listed strings; `HASHBAG_EMPTY`; `HASHBAG_KIND`. Nothing changes then.
#[unsafe(no_mangle)]
pub extern "C" fn hashbag_texts_retain(
    alloc: Global,
    handle: &mut Handle,
    bytes: &[u8],
    ends: &[usize],
    most: &[usize],
) -> u8
    // If the result is 0: each string is there as often as before, or as `most` says at its first place in the list if that is less; never if it
    // isn't listed. The limit and the keys are the same, and there is no less room.
    ensures retained { result ≡ 0 → TextsTo handle.old.held handle.new.held (RetainsPieces bytes.now ends.now most.now) }
    ensures otherwise { UnlessTexts handle.old.held (λ code. result ≡ code) }
    ensures err { result ≢ 0 → handle.new.held ≡ handle.old.held }
{
    with_held!(alloc, handle, EMPTY, |mut held| match held {
        Held::Numbers(_) => KIND,
        Held::Texts(bag) => match keep_listed(alloc, bag, bytes, ends, most) {
            Ok(()) => 0,
            Err(error) => error.number(),
        },
    })
}

// Returns the number of bytes of all strings of a walk, or `usize::MAX` if there are more.
fn sizes(walk: SetIter<'_, Bytes>) -> usize
    ensures { result ≡ min (size_of walk.entry) usize.MAX }
{
    let mut sum: usize = 0;
    for (value, _) in walk {
        sum = sum.saturating_add(value.as_slice().len());
    }
    sum
}

/// Returns how many bytes the distinct byte strings have in all: `hashbag_texts_read` needs as many places. Returns 0 if the handle has no
/// bag of byte strings.
#[unsafe(no_mangle)]
pub extern "C" fn hashbag_texts_bytes(alloc: Global, handle: &mut Handle) -> usize
    // `result` is the number of bytes of all distinct strings, or 2^64-1 if there are more.
    ensures size { IfTexts handle.old.held (λ bag. HasSize bag result) }
    ensures otherwise { UnlessTexts handle.old.held (λ _. result ≡ 0) }
    ensures unchanged { handle.new.held ≡ handle.old.held }
{
    with_held!(alloc, handle, 0, |held| match held {
        Held::Numbers(_) => 0,
        Held::Texts(bag) => sizes(bag.set_iter()),
    })
}

/// Writes distinct byte strings one after another into `bytes`, the place where each string ends into `ends`, and its count into `counts`.
/// Returns how many strings were written. It stops before the first string for which there is no place. All are written, in no particular
/// order, if `ends` and `counts` have `hashbag_set_len` places and `bytes` has `hashbag_texts_bytes`. It returns 0 if the handle has no bag
/// of byte strings.
#[unsafe(no_mangle)]
pub extern "C" fn hashbag_texts_read(
    alloc: Global,
    handle: &mut Handle,
    bytes: &mut [u8],
    ends: &mut [usize],
    counts: &mut [usize],
) -> usize
    // The first `result` of all distinct strings, in some order, are written; if that isn't all, the next one has no place. `bytes` begins with the
    // strings one after another, `ends` with where each ends, `counts` with their counts.
    ensures read { ReadsTexts (IsSetWalkOf bytes_eq) handle.old.held result bytes.new ends.new counts.new }
    ensures otherwise { UnlessTexts handle.old.held (λ _. result ≡ 0) }
    ensures unchanged { handle.new.held ≡ handle.old.held }
{
    with_held!(alloc, handle, 0, |held| match held {
        Held::Numbers(_) => 0,
        Held::Texts(bag) => write_texts(bag.set_iter(), bytes, ends, counts),
    })
}
