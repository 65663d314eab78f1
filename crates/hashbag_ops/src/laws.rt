//! What follows from the contracts of several calls together: bags may be merged in any order and in any groups, what was merged can be taken away
//! again, and a list may be counted in parts.
//!
//! Each law is a function that is proved, which callers can copy.
ghost use Rattle.std.specs.Prelude.{◌≡◌, ◌+◌, ◌++◌, IsTrue, OnOk, IfOk};
ghost use Rattle.hashbag_core.specs.Occurrences.{count, SameCounts};
ghost use Rattle.hashbag_ops.specs.Unions.{IsSumOf};

use crate::combine::{merge, take_away};
use hashbag_core::{BagError, HashBag};
use std::alloc::Global;
use std::hash::{BuildHasher, Hash};

/// Merges `b` into `a`, and `same_a` into `same_b`, and returns whether the two sums are equal. They are. `same_a` has the counts of `a`, and
/// `same_b` those of `b`.
///
/// # Errors
///
/// `TooMany` or `Memory` if a merge fails.
pub fn merges_commute<T: Eq + Hash + Drop, S: BuildHasher + Drop>(
    a: HashBag<T, S>,
    b: HashBag<T, S>,
    same_a: HashBag<T, S>,
    same_b: HashBag<T, S>,
) -> Result<bool, BagError>
    requires first { SameCounts T.eq a.items same_a.items }
    requires second { SameCounts T.eq b.items same_b.items }
    ensures { IfOk result (λ equal. IsTrue equal) }
{
    let left = merged(a, b)?;
    let right = merged(same_b, same_a)?;
    Ok(are_equal(left, right))
}

/// Merges `b` and then `c` into `a`; and merges `same_c` into `same_b`, and the sum into `same_a`. Returns whether the two results are equal. They
/// are. `same_a`, `same_b` and `same_c` have the counts of `a`, `b` and `c`.
///
/// # Errors
///
/// `TooMany` or `Memory` if a merge fails.
pub fn merges_associate<T: Eq + Hash + Drop, S: BuildHasher + Drop>(
    a: HashBag<T, S>,
    b: HashBag<T, S>,
    c: HashBag<T, S>,
    same_a: HashBag<T, S>,
    same_b: HashBag<T, S>,
    same_c: HashBag<T, S>,
) -> Result<bool, BagError>
    requires first { SameCounts T.eq a.items same_a.items }
    requires second { SameCounts T.eq b.items same_b.items }
    requires third { SameCounts T.eq c.items same_c.items }
    ensures { IfOk result (λ equal. IsTrue equal) }
{
    let left = merged_from_left(a, b, c)?;
    let right = merged_from_right(same_a, same_b, same_c)?;
    Ok(are_equal(left, right))
}

// Returns `a`, after `b` and then `c` were merged into it.
fn merged_from_left<T: Eq + Hash + Drop, S: BuildHasher + Drop>(
    a: HashBag<T, S>,
    b: HashBag<T, S>,
    c: HashBag<T, S>,
) -> Result<HashBag<T, S>, BagError>
    ensures { IfOk result (λ all. (v : T) → count T.eq v all.items ≡ count T.eq v a.items + count T.eq v b.items + count T.eq v c.items) }
{
    let sum = merged(a, b)?;
    merged(sum, c)
}

// Returns `a`, after the sum of `b` and `c` was merged into it.
fn merged_from_right<T: Eq + Hash + Drop, S: BuildHasher + Drop>(
    a: HashBag<T, S>,
    b: HashBag<T, S>,
    c: HashBag<T, S>,
) -> Result<HashBag<T, S>, BagError>
    ensures { IfOk result (λ all. (v : T) → count T.eq v all.items ≡ count T.eq v a.items + (count T.eq v b.items + count T.eq v c.items)) }
{
    let sum = merged(b, c)?;
    merged(a, sum)
}

// Returns `into`, after `from` was merged into it.
fn merged<T: Eq + Hash + Drop, S: BuildHasher + Drop>(
    mut into: HashBag<T, S>,
    from: HashBag<T, S>,
) -> Result<HashBag<T, S>, BagError>
    ensures { IfOk result (λ sum. IsSumOf T.eq into.items from.items sum.items) }
{
    merge(&mut into, from)?;
    Ok(into)
}

// Returns whether the bags have the same counts.
fn are_equal<T: Eq + Hash + Drop, S: BuildHasher + Drop>(a: HashBag<T, S>, b: HashBag<T, S>) -> bool
    ensures { SameCounts T.eq a.items b.items → IsTrue result }
{
    a == b
}

/// Merges `other` into `bag`, and takes `same` away from `bag`. `same` has the counts of `other`, so each value then occurs in `bag` as often as
/// before.
///
/// # Errors
///
/// `TooMany` or `Memory` if the merge fails.
pub fn put_in_and_taken_out<
    T: Eq + Hash + Drop,
    S: BuildHasher + Drop,
    S2: BuildHasher + Drop,
    S3: BuildHasher + Drop,
>(bag: &mut HashBag<T, S>, other: HashBag<T, S2>, same: &HashBag<T, S3>) -> Result<(), BagError>
    requires { SameCounts T.eq other.items same.now.items }
    ensures { OnOk result (SameCounts T.eq bag.new.items bag.old.items) }
{
    merge(bag, other)?;
    take_away(bag, same);
    Ok(())
}

/// Counts a list in two parts and merges them: each value is counted as often as it occurs in the whole list.
///
/// # Errors
///
/// `TooMany` or `Memory` if an insertion or the merge fails.
pub fn count_in_parts<T: Eq + Hash + Drop>(
    alloc: Global,
    first: Vec<T>,
    second: Vec<T>,
) -> Result<HashBag<T>, BagError>
    ensures { IfOk result (λ bag. (v : T) → count T.eq v bag.items ≡ count T.eq v (first.items ++ second.items)) }
{
    let mut whole: HashBag<T> = HashBag::from_iter(alloc, first.into_iter())?;
    let part: HashBag<T> = HashBag::from_iter(alloc, second.into_iter())?;
    merge(&mut whole, part)?;
    Ok(whole)
}
