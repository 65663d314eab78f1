//! Callers to copy: lists whose values go into a bag, or are removed from it.
ghost use Rattle.std.specs.Prelude.{◌≡◌, ◌+◌, ◌-◌, ◌≤◌, length, IfOk, IfSome};
ghost use Rattle.hashbag.specs.Occurrences.{count};

use hashbag::{BagError, HashBag};
use hashbag_ops::most_common;
use std::alloc::Global;
use std::hash::{BuildHasher, Hash};

/// Returns a bag of the values of two lists.
pub fn both_lists<T: Eq + Hash + Drop>(
    alloc: Global,
    first: Vec<T>,
    second: Vec<T>,
) -> Result<HashBag<T>, BagError>
    ensures { IfOk result (λ bag. (v : T) → count T.eq v bag.items ≡ count T.eq v first.items + count T.eq v second.items) }
{
    let mut bag = HashBag::from_iter(alloc, first.into_iter())?;
    bag.extend(second.into_iter())?;
    Ok(bag)
}

/// For each element of a list, removes one occurrence of this value from the bag, if one is left. Returns how many occurrences were removed.
pub fn take_each<T: Eq + Hash + Drop, S: BuildHasher + Drop>(
    bag: &mut HashBag<T, S>,
    values: &[T],
) -> usize
    ensures counts { (v : T) → count T.eq v bag.new.items ≡ count T.eq v bag.old.items - count T.eq v values.now }
    ensures len { length bag.new.items + result ≡ length bag.old.items }
{
    let before = bag.len();
    for value in values {
        bag.remove(value);
    }
    before - bag.len()
}

/// Returns the most common value of a list, or `None` if the list is empty.
pub fn most_common_value<T: Ord + Hash + Copy + Drop>(
    alloc: Global,
    values: Vec<T>,
) -> Result<Option<T>, BagError>
    ensures { IfOk result (λ found. IfSome found (λ v. (w : T) → count T.eq w values.items ≤ count T.eq v values.items)) }
{
    let bag: HashBag<T> = HashBag::from_iter(alloc, values.into_iter())?;
    let pairs = most_common(alloc, &bag, 1)?;
    match pairs.first() {
        Some(pair) => Ok(Some(*pair.0)),
        None => Ok(None),
    }
}
