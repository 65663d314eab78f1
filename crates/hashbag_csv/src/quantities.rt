//! Conversions between a list of articles with quantities and a bag.
ghost use Rattle.std.specs.Prelude.{◌≡◌, ◌≤◌, [], length, IfOk, IfErr, OnOk};
ghost use Rattle.hashbag_core.specs.Occurrences.{count};
ghost use Rattle.hashbag_csv.specs.Quantities.{number_sum, quantity, IsBalance};

use hashbag_core::{BagError, HashBag};
use std::alloc::{AllocError, Global};
use std::hash::{BuildHasher, Hash};

/// Returns the bag of a list, under this hash state. The count of each article is the sum of its quantities. The carry is finished, so a
/// look-up probes one table.
///
/// # Errors
///
/// `TooMany` if the sum of all quantities is above `usize::MAX`. `Memory` if an allocation fails.
///
/// # Complexity
///
/// Hashes each entry once, and a value again each time it is carried into another table.
pub fn bag_of<T: Eq + Hash + Drop, S: BuildHasher + Drop>(
    alloc: Global,
    state: S,
    list: Vec<(T, usize)>,
) -> Result<HashBag<T, S>, BagError>
    ensures counts { IfOk result (λ bag. (v : T) → count T.eq v bag.items ≡ quantity T.eq v list.items) }
    ensures len { IfOk result (λ bag. length bag.items ≡ number_sum list.items) }
    ensures fits { OnOk result (number_sum list.items ≤ usize.MAX) }

    // No slot of an older table waits.
    ensures none_waits { IfOk result (λ bag. bag.tables.waiting ≡ []) }
    ensures only_memory { number_sum list.items ≤ usize.MAX → IfErr result (λ e. e ≡ BagError.Memory) }
{
    let mut bag = HashBag::with_hasher(alloc, state);
    bag.extend_many(list.into_iter())?;
    bag.finish_carry();
    Ok(bag)
}

/// Returns the balance of a bag: each article once, with its count, in ascending order of articles. [`bag_of`] converts the list into an
/// equal bag.
///
/// # Errors
///
/// An allocation fails.
///
/// # Complexity
///
/// Allocates the list, and sorts it.
pub fn balance_of<T: Ord + Hash + Drop, S: BuildHasher + Drop>(
    alloc: Global,
    bag: HashBag<T, S>,
) -> Result<Vec<(T, usize)>, AllocError>
    ensures balance { IfOk result (λ list. IsBalance T.eq T.cmp (λ v. count T.eq v bag.items) list.items) }
    ensures quantities { IfOk result (λ list. (v : T) → quantity T.eq v list.items ≡ count T.eq v bag.items) }
{
    let mut list: Vec<(T, usize)> = bag.into_iter().collect(alloc)?;
    list.sort_unstable();
    Ok(list)
}
