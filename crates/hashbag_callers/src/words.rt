//! Callers to copy: words that are counted, one by one or all at once, and bags that are equal whatever the order of their insertions.
ghost use Rattle.std.specs.Prelude.{◌≡◌, ◌+◌, ◌≤◌, nat_eq, length, IsTrue, OnOk, IfOk, IfErr};
ghost use Rattle.std.specs.List.Sorted.{IsPermutation};
ghost use Rattle.hashbag.specs.Occurrences.{count};
ghost use Rattle.hashbag.specs.Unions.{IsSumOf};

use hashbag::{BagError, HashBag};
use std::alloc::Global;
use std::hash::{BuildHasher, Hash};

/// Returns a new bag with two words. The contract of each insertion says the length after.
pub fn two_words(alloc: Global) -> Result<HashBag<u64>, BagError>
    ensures { IfOk result (λ bag. length bag.items ≡ 2) }
{
    let mut bag = HashBag::new(alloc);
    bag.insert(5)?;
    bag.insert(6)?;
    Ok(bag)
}

/// Inserts words one by one, each a number here. If the total stays within the limit, only an allocation can fail.
pub fn insert_each<S: BuildHasher + Drop>(
    bag: &mut HashBag<u64, S>,
    words: &[u64],
) -> Result<(), BagError>
    // Each count is the count before plus how often the value is in `words`.
    ensures counts { OnOk result (IsSumOf nat_eq bag.old.items words.now bag.new.items) }
    ensures len { OnOk result (length bag.new.items ≡ length bag.old.items + length words.now) }
    ensures only_memory { length bag.old.items + length words.now ≤ bag.old.most → IfErr result (λ e. e ≡ BagError.Memory) }
{
    for word in words {
        bag.insert(*word)?;
    }
    Ok(())
}

/// Returns a bag that has each word as often as the list.
pub fn count_words<T: Eq + Hash + Drop>(
    alloc: Global,
    words: Vec<T>,
) -> Result<HashBag<T>, BagError>
    ensures counts { IfOk result (λ bag. (v : T) → count T.eq v bag.items ≡ count T.eq v words.items) }
    ensures len { IfOk result (λ bag. length bag.items ≡ length words.items) }
{
    HashBag::from_iter(alloc, words.into_iter())
}

/// Builds two bags by the same insertions in any two orders, and returns whether the bags are equal: always `true`.
pub fn equal_in_any_order<T: Eq + Hash + Drop>(
    alloc: Global,
    pairs: Vec<(T, usize)>,
    others: Vec<(T, usize)>,
) -> Result<bool, BagError>
    requires { IsPermutation pairs.items others.items }
    ensures { IfOk result (λ equal. IsTrue equal) }
{
    let first: HashBag<T> = HashBag::from_counts(alloc, pairs.into_iter())?;
    let second: HashBag<T> = HashBag::from_counts(alloc, others.into_iter())?;
    Ok(first == second)
}
