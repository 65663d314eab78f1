//! Joins of two bags of numbers. In clauses `held` is what a handle has: a bag of numbers, a bag of byte strings, or nothing.
//!
//! - `ReadsBothNumbers IsJoin a b n values counts`: if `a` and `b` are bags of numbers, the arrays begin with the first n entries of some list of
//!   numbers, each with its count or difference. `IsJoin` holds of the list. n is its length, or how many places both arrays have if that is less.
//! - `UnlessBothNumbers a b P`: if `a` or `b` is no bag of numbers, P holds.
ghost use Rattle.std.specs.Prelude.{◌≡◌, nat_eq};
ghost use Rattle.hashbag_c.specs.Calls.{UnlessBothNumbers};
ghost use Rattle.hashbag_c.specs.Differences.{IsDifferenceOf, IsNotInOf, IsSignedDifferenceOf};
ghost use Rattle.hashbag_c.specs.Reads.{HasRead, ReadsBothNumbers};

use crate::entries::write_numbers;
use crate::handle::Handle;
use crate::held::{Held, with_both, with_both_bags};
use crate::state::State;
use hashbag_core::HashBag;
use std::alloc::Global;

fn difference(
    x: &HashBag<u64, State>,
    y: &HashBag<u64, State>,
    values: &mut [u64],
    counts: &mut [usize],
) -> usize
    ensures { HasRead (IsDifferenceOf nat_eq x.now y.now) result values.new counts.new }
{
    write_numbers(x.difference(y), values, counts)
}

/// Writes each number that the first bag has more often than the second, with how many more: as many as both arrays have places for, in no
/// particular order. Returns how many. All are written if both arrays have as many places as the first bag has distinct numbers. `a` and `b`
/// must be different handles. It returns 0 if one of them has no bag of numbers. It doesn't allocate.
#[unsafe(no_mangle)]
pub extern "C" fn hashbag_numbers_difference(
    alloc: Global,
    a: &mut Handle,
    b: &mut Handle,
    values: &mut [u64],
    counts: &mut [usize],
) -> usize
    ensures read { ReadsBothNumbers IsDifferenceOf a.old.held b.old.held result values.new counts.new }
    ensures otherwise { UnlessBothNumbers a.old.held b.old.held (result ≡ 0) }
    ensures unchanged { (a.new.held ≡ a.old.held) × (b.new.held ≡ b.old.held) }
{
    with_both_bags!(
        alloc,
        a,
        b,
        Numbers,
        |x, y| difference(x, y, values, counts)
    )
}

fn not_in(
    x: &HashBag<u64, State>,
    y: &HashBag<u64, State>,
    values: &mut [u64],
    counts: &mut [usize],
) -> usize
    ensures { HasRead (IsNotInOf nat_eq x.now y.now) result values.new counts.new }
{
    write_numbers(x.not_in(y), values, counts)
}

/// Writes each number of the first bag that the second lacks, with its count: as many as both arrays have places for, in no particular
/// order. Returns how many. All are written if both arrays have as many places as the first bag has distinct numbers. `a` and `b` must be
/// different handles. It returns 0 if one of them has no bag of numbers. It doesn't allocate.
#[unsafe(no_mangle)]
pub extern "C" fn hashbag_numbers_not_in(
    alloc: Global,
    a: &mut Handle,
    b: &mut Handle,
    values: &mut [u64],
    counts: &mut [usize],
) -> usize
    ensures read { ReadsBothNumbers IsNotInOf a.old.held b.old.held result values.new counts.new }
    ensures otherwise { UnlessBothNumbers a.old.held b.old.held (result ≡ 0) }
    ensures unchanged { (a.new.held ≡ a.old.held) × (b.new.held ≡ b.old.held) }
{
    with_both_bags!(alloc, a, b, Numbers, |x, y| not_in(x, y, values, counts))
}

fn signed_difference(
    x: &HashBag<u64, State>,
    y: &HashBag<u64, State>,
    values: &mut [u64],
    differences: &mut [isize],
) -> usize
    ensures { HasRead (IsSignedDifferenceOf nat_eq x.now y.now) result values.new differences.new }
{
    write_numbers(x.signed_difference(y), values, differences)
}

/// Writes each number of two bags once, with its count in the first less its count in the second. The numbers of the first bag come first. A
/// difference above `PTRDIFF_MAX` or below `PTRDIFF_MIN` is written as that bound. It writes as many as both arrays have places for, and
/// returns how many. All are written if both arrays have as many places as both bags together have distinct numbers. `a` and `b` must be
/// different handles. It returns 0 if one of them has no bag of numbers. It doesn't allocate.
#[unsafe(no_mangle)]
pub extern "C" fn hashbag_numbers_signed_difference(
    alloc: Global,
    a: &mut Handle,
    b: &mut Handle,
    values: &mut [u64],
    differences: &mut [isize],
) -> usize
    ensures read { ReadsBothNumbers IsSignedDifferenceOf a.old.held b.old.held result values.new differences.new }
    ensures otherwise { UnlessBothNumbers a.old.held b.old.held (result ≡ 0) }
    ensures unchanged { (a.new.held ≡ a.old.held) × (b.new.held ≡ b.old.held) }
{
    with_both_bags!(
        alloc,
        a,
        b,
        Numbers,
        |x, y| signed_difference(x, y, values, differences)
    )
}
