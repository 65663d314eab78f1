//! Callers to copy: uses of the contracts of the walks. Each clause follows from these contracts alone.
ghost use Rattle.std.specs.Prelude.{◌≡◌, List, [], length, IfOk};
ghost use Rattle.hashbag.specs.Bag.{Means};
ghost use Rattle.hashbag.specs.Occurrences.{distinct_count};
ghost use Rattle.hashbag.specs.Walks.{IsSetWalk};

use hashbag::HashBag;
use std::alloc::{AllocError, Global};
use std::hash::{BuildHasher, Hash};

/// Returns the sum of all counts, by a chain over the distinct values. The sum is the number of occurrences.
pub fn sum_of_counts<T: Eq + Hash + Drop, S: BuildHasher + Drop>(bag: &HashBag<T, S>) -> usize
    ensures { result ≡ length bag.now.items }
{
    bag.set_iter().map(|entry| entry.1).sum()
}

/// Returns the sum of all counts, by a loop over the distinct values.
pub fn sum_by_loop<T: Eq + Hash + Drop, S: BuildHasher + Drop>(bag: &HashBag<T, S>) -> usize
    ensures { result ≡ length bag.now.items }
{
    let mut sum = 0;
    for (_, count) in bag.set_iter() {
        sum += count;
    }
    sum
}

/// Returns the sum of all counts of a bag that is used up, by a loop over its distinct values.
pub fn sum_used_up<T: Eq + Hash + Drop, S: BuildHasher + Drop>(bag: HashBag<T, S>) -> usize
    ensures { result ≡ length bag.items }
{
    let mut sum = 0;
    for (_, count) in bag {
        sum += count;
    }
    sum
}

/// Returns the number of occurrences, by a chain over them.
pub fn number_of_items<T: Eq + Hash + Drop, S: BuildHasher + Drop>(bag: &HashBag<T, S>) -> usize
    ensures { result ≡ length bag.now.items }
{
    bag.iter().count()
}

/// Returns the number of occurrences, by a loop over them.
pub fn number_by_loop<T: Eq + Hash + Drop, S: BuildHasher + Drop>(bag: &HashBag<T, S>) -> usize
    ensures { result ≡ length bag.now.items }
{
    let mut number = 0;
    for _ in bag {
        number += 1;
    }
    number
}

/// Empties a bag, and returns its distinct values with their counts. If an allocation fails, the bag is empty too.
pub fn moved_out<T: Eq + Hash + Drop, S: BuildHasher + Drop>(
    alloc: Global,
    bag: &mut HashBag<T, S>,
) -> Result<Vec<(T, usize)>, AllocError>
    // The list has each value once, with its count, and no other value. This holds for any list X that the bag means: it doesn't depend on X's order.
    ensures list { IfOk result (λ list. (X : List T) → Means bag.old X → IsSetWalk T.eq X list.items) }
    ensures distinct { IfOk result (λ list. length list.items ≡ distinct_count T.eq bag.old.items) }
    ensures empty { bag.new.items ≡ [] }
    ensures hasher { bag.new.hasher ≡ bag.old.hasher }
{
    bag.drain().collect(alloc)
}

/// Empties a bag, and returns the first value of the walk with its count, or `None` if the bag was empty.
pub fn first_moved_out<T: Eq + Hash + Drop, S: BuildHasher + Drop>(
    bag: &mut HashBag<T, S>,
) -> Option<(T, usize)>
    ensures empty { bag.new.items ≡ [] }
    ensures hasher { bag.new.hasher ≡ bag.old.hasher }
{
    bag.drain().next()
}
