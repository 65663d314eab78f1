//! Joins of two bags of byte strings. In clauses `held` is what a handle has: a bag of numbers, a bag of byte strings, or nothing.
//!
//! - `ReadsBothTexts IsJoin a b n bytes ends counts`: if `a` and `b` are bags of byte strings, there is a list of strings, each with its count or
//!   difference, for which `IsJoin` holds. Its first n entries are written: `bytes` begins with the strings one after another, `ends` with where each
//!   ends, `counts` with the counts or differences. If n isn't all, the next entry has no place.
//! - `ReadsTextJoin a b n bytes ends firsts seconds`: the same of an outer join, with the count in the first bag in `firsts`, in the second in `seconds`;
//!   all entries are written if all have places.
//! - `UnlessBothTexts a b P`: if `a` or `b` is no bag of byte strings, P holds.
ghost use Rattle.std.specs.Prelude.{◌≡◌, ◌≤◌, length, take, map};
ghost use Rattle.std.specs.Str.{bytes_eq};
ghost use Rattle.hashbag_c.specs.Calls.{UnlessBothTexts};
ghost use Rattle.hashbag_c.specs.Differences.{IsDifferenceOf, IsNotInOf, IsSignedDifferenceOf};
ghost use Rattle.hashbag_c.specs.Reads.{ends_from, with_firsts, HasReadTexts, BeginWithStrings, ReadsBothTexts, ReadsTextJoin, WritesAllJoinedIfTheyFit};

use crate::bytes::Bytes;
use crate::entries::{put, write_texts};
use crate::handle::Handle;
use crate::held::{Held, with_both, with_both_bags};
use crate::state::Keys;
use hashbag_core::{HashBag, OuterJoin};
use std::alloc::Global;

// Writes the first items of a join, as many as there are places for, and returns how many.
fn write_joined(
    mut walk: OuterJoin<'_, Bytes, Keys, Keys>,
    bytes: &mut [u8],
    ends: &mut [usize],
    firsts: &mut [usize],
    seconds: &mut [usize],
) -> usize
    ensures few { result ≤ length walk.entry }
    ensures bytes { BeginWithStrings bytes.new (take result (with_firsts walk.entry)) }
    ensures ends { take result ends.new ≡ ends_from 0 (take result (with_firsts walk.entry)) }
    ensures firsts { take result firsts.new ≡ map (λ e. e.1) (take result walk.entry) }
    ensures seconds { take result seconds.new ≡ map (λ e. e.2) (take result walk.entry) }
    ensures all { WritesAllJoinedIfTheyFit walk.entry bytes.old ends.old firsts.old seconds.old result }
{
    let most = ends.len().min(firsts.len().min(seconds.len()));
    let mut from: usize = 0;
    for i in 0..most {
        match walk.next() {
            Some((value, first, second)) => {
                let value = value.as_slice();
                if value.len() > bytes.len() - from {
                    return i;
                }
                put(bytes, from, value);
                from += value.len();
                ends[i] = from;
                firsts[i] = first;
                seconds[i] = second;
            }
            None => return i,
        }
    }
    most
}

/// Writes the byte strings of two bags, each once, as `hashbag_texts_read` does, with the count of each in the first and in the second. A
/// bag that lacks it counts 0. The strings of the first bag are first. It writes as many as there are places for, and returns how many. All
/// are written if `ends`, `firsts` and `seconds` have as many places as both bags together have distinct strings, and `bytes` as many as
/// these strings have bytes. `a` and `b` must be different handles. It returns 0 if one of them has no bag of byte strings.
#[unsafe(no_mangle)]
pub extern "C" fn hashbag_texts_outer_join(
    alloc: Global,
    a: &mut Handle,
    b: &mut Handle,
    bytes: &mut [u8],
    ends: &mut [usize],
    firsts: &mut [usize],
    seconds: &mut [usize],
) -> usize
    ensures read { ReadsTextJoin a.old.held b.old.held result bytes.new ends.new firsts.new seconds.new }
    ensures otherwise { UnlessBothTexts a.old.held b.old.held (result ≡ 0) }
    ensures unchanged { (a.new.held ≡ a.old.held) × (b.new.held ≡ b.old.held) }
{
    with_both_bags!(alloc, a, b, Texts, |x, y| {
        write_joined(x.outer_join(y), bytes, ends, firsts, seconds)
    })
}

fn difference(
    x: &HashBag<Bytes, Keys>,
    y: &HashBag<Bytes, Keys>,
    bytes: &mut [u8],
    ends: &mut [usize],
    counts: &mut [usize],
) -> usize
    ensures { HasReadTexts (IsDifferenceOf bytes_eq x.now y.now) result bytes.new ends.new counts.new }
{
    write_texts(x.difference(y), bytes, ends, counts)
}

/// Writes the byte strings that the first bag has more often than the second, each with how many more. They are written as by
/// `hashbag_texts_read`, in no particular order, as many as there are places for. Returns how many. All are written if `ends` and `counts`
/// have as many places as the first bag has distinct strings, and `bytes` as many as these strings have bytes. `a` and `b` must be different
/// handles. It returns 0 if one of them has no bag of byte strings. It doesn't allocate.
#[unsafe(no_mangle)]
pub extern "C" fn hashbag_texts_difference(
    alloc: Global,
    a: &mut Handle,
    b: &mut Handle,
    bytes: &mut [u8],
    ends: &mut [usize],
    counts: &mut [usize],
) -> usize
    ensures read { ReadsBothTexts IsDifferenceOf a.old.held b.old.held result bytes.new ends.new counts.new }
    ensures otherwise { UnlessBothTexts a.old.held b.old.held (result ≡ 0) }
    ensures unchanged { (a.new.held ≡ a.old.held) × (b.new.held ≡ b.old.held) }
{
    with_both_bags!(
        alloc,
        a,
        b,
        Texts,
        |x, y| difference(x, y, bytes, ends, counts)
    )
}

fn not_in(
    x: &HashBag<Bytes, Keys>,
    y: &HashBag<Bytes, Keys>,
    bytes: &mut [u8],
    ends: &mut [usize],
    counts: &mut [usize],
) -> usize
    ensures { HasReadTexts (IsNotInOf bytes_eq x.now y.now) result bytes.new ends.new counts.new }
{
    write_texts(x.not_in(y), bytes, ends, counts)
}

/// Writes the byte strings of the first bag that the second lacks, each with its count. They are written as by `hashbag_texts_read`, in no
/// particular order, as many as there are places for. Returns how many. All are written if `ends` and `counts` have as many places as the
/// first bag has distinct strings, and `bytes` as many as these strings have bytes. `a` and `b` must be different handles. It returns 0 if
/// one of them has no bag of byte strings. It doesn't allocate.
#[unsafe(no_mangle)]
pub extern "C" fn hashbag_texts_not_in(
    alloc: Global,
    a: &mut Handle,
    b: &mut Handle,
    bytes: &mut [u8],
    ends: &mut [usize],
    counts: &mut [usize],
) -> usize
    ensures read { ReadsBothTexts IsNotInOf a.old.held b.old.held result bytes.new ends.new counts.new }
    ensures otherwise { UnlessBothTexts a.old.held b.old.held (result ≡ 0) }
    ensures unchanged { (a.new.held ≡ a.old.held) × (b.new.held ≡ b.old.held) }
{
    with_both_bags!(alloc, a, b, Texts, |x, y| not_in(x, y, bytes, ends, counts))
}

fn signed_difference(
    x: &HashBag<Bytes, Keys>,
    y: &HashBag<Bytes, Keys>,
    bytes: &mut [u8],
    ends: &mut [usize],
    differences: &mut [isize],
) -> usize
    ensures { HasReadTexts (IsSignedDifferenceOf bytes_eq x.now y.now) result bytes.new ends.new differences.new }
{
    write_texts(x.signed_difference(y), bytes, ends, differences)
}

/// Writes the byte strings of two bags, each once, as `hashbag_texts_read` does, with its count in the first less its count in the second.
/// The strings of the first bag come first. A difference above `PTRDIFF_MAX` or below `PTRDIFF_MIN` is written as that bound. It writes as
/// many as there are places for, and returns how many. All are written if `ends` and `differences` have as many places as both bags together
/// have distinct strings, and `bytes` as many as these strings have bytes. `a` and `b` must be different handles. It returns 0 if one of
/// them has no bag of byte strings. It doesn't allocate.
#[unsafe(no_mangle)]
pub extern "C" fn hashbag_texts_signed_difference(
    alloc: Global,
    a: &mut Handle,
    b: &mut Handle,
    bytes: &mut [u8],
    ends: &mut [usize],
    differences: &mut [isize],
) -> usize
    ensures read { ReadsBothTexts IsSignedDifferenceOf a.old.held b.old.held result bytes.new ends.new differences.new }
    ensures otherwise { UnlessBothTexts a.old.held b.old.held (result ≡ 0) }
    ensures unchanged { (a.new.held ≡ a.old.held) × (b.new.held ≡ b.old.held) }
{
    with_both_bags!(
        alloc,
        a,
        b,
        Texts,
        |x, y| signed_difference(x, y, bytes, ends, differences)
    )
}
