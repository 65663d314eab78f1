//! Whether one bag holds all of another, and whether two have nothing in common.
ghost use Rattle.std.specs.Prelude.{◌≡◌, ◌≤◌, ◌↔◌, min, IsTrue};
ghost use Rattle.hashbag_core.specs.Occurrences.{count};

use hashbag_core::HashBag;
use std::hash::{BuildHasher, Hash};

/// Returns whether each value occurs in `bag` at least as often as in `other`.
///
/// # Complexity
///
/// It hashes each distinct value of `other` at most once, stops at the first value of which `bag` has too few, and doesn't allocate.
///
/// # Examples
///
/// ```
/// let mut stock: HashBag<&str> = HashBag::new(alloc);
/// stock.insert_many("bolt", 5)?;
/// let mut order: HashBag<&str> = HashBag::new(alloc);
/// order.insert_many("bolt", 3)?;
/// ops::contains_all(&stock, &order); // true
/// ops::contains_all(&order, &stock); // false
/// Ok(())
/// ```
pub fn contains_all<T: Eq + Hash + Drop, S: BuildHasher + Drop, S2: BuildHasher + Drop>(
    bag: &HashBag<T, S>,
    other: &HashBag<T, S2>,
) -> bool
    ensures { IsTrue result ↔ ((v : T) → count T.eq v other.now.items ≤ count T.eq v bag.now.items) }
{
    other.difference(bag).next().is_none()
}

/// Returns whether no value is in both bags.
///
/// # Complexity
///
/// It walks over the bag with fewer distinct values, hashes each of these at most once, and stops at the first that the other bag has too. It doesn't
/// allocate.
///
/// # Examples
///
/// ```
/// let mut fruit: HashBag<&str> = HashBag::new(alloc);
/// fruit.insert("apple")?;
/// let mut nuts: HashBag<&str> = HashBag::new(alloc);
/// nuts.insert("hazel")?;
/// ops::is_disjoint(&fruit, &nuts); // true
/// ops::is_disjoint(&fruit, &fruit); // false
/// Ok(())
/// ```
pub fn is_disjoint<T: Eq + Hash + Drop, S: BuildHasher + Drop, S2: BuildHasher + Drop>(
    a: &HashBag<T, S>,
    b: &HashBag<T, S2>,
) -> bool
    // It is true exactly if the lesser of the two counts is 0 for every value.
    ensures { IsTrue result ↔ ((v : T) → min (count T.eq v a.now.items) (count T.eq v b.now.items) ≡ 0) }
{
    if a.set_len() <= b.set_len() {
        has_none_of(a, b)
    } else {
        has_none_of(b, a)
    }
}

// Returns whether no value of the bag that is walked over is in the other one.
fn has_none_of<T: Eq + Hash + Drop, S: BuildHasher + Drop, S2: BuildHasher + Drop>(
    walked: &HashBag<T, S>,
    other: &HashBag<T, S2>,
) -> bool
    ensures { IsTrue result ↔ ((v : T) → min (count T.eq v walked.now.items) (count T.eq v other.now.items) ≡ 0) }
{
    for (value, _) in walked.set_iter() {
        if other.contains(value) > 0 {
            return false;
        }
    }
    true
}
