//! Callers to copy: uses of the contracts of trees.
ghost use Rattle.std.specs.Prelude.{◌≡◌, ◌↔◌, true, IfOk, IfErr};
ghost use Rattle.serde_json.specs.View.{view};
ghost use Rattle.hashbag.specs.Equality.{same_counts};
ghost use Rattle.hashbag_callers.specs.Bags.{AreSameBags};

use hashbag::{BagError, HashBag, JsonError, JsonItem};
use serde_json::Value;
use std::alloc::Global;
use std::hash::{BuildHasher, Hash};

/// Writes a bag as a tree, and returns the bag that is read from the tree. Only an allocation can fail. The returned bag has the counts and
/// the limit of the given one.
pub fn read_again<
    T: JsonItem + Ord + Hash + Drop,
    S: BuildHasher + Drop,
    S2: BuildHasher + Default + Drop,
>(alloc: Global, bag: &HashBag<T, S>) -> Result<HashBag<T, S2>, JsonError>
    ensures equal { IfOk result (λ again. same_counts T.eq again.items bag.now.items ≡ true) }
    ensures limit { IfOk result (λ again. again.most ≡ bag.now.most) }
    ensures memory { IfErr result (λ e. e ≡ JsonError.Memory) }
{
    match bag.to_value(alloc) {
        Ok(tree) => HashBag::from_value(alloc, &tree),
        Err(_) => Err(JsonError::Memory),
    }
}

/// Returns the trees of two bags. The trees are the same exactly if the bags are equal and have the same limit.
pub fn both_trees<T: JsonItem + Ord + Hash + Drop, S: BuildHasher + Drop>(
    alloc: Global,
    a: &HashBag<T, S>,
    b: &HashBag<T, S>,
) -> Result<(Value, Value), BagError>
    ensures same_trees { IfOk result (λ trees. AreSameBags T.eq a.now b.now ↔ (view trees.0 ≡ view trees.1)) }
    ensures memory { IfErr result (λ e. e ≡ BagError.Memory) }
{
    // The clause `same` of `a.to_value` is about the tree of any second bag. The contract of `len` states `IsBag` of `b`.
    let _len = b.len();
    let first = a.to_value(alloc)?;
    let second = b.to_value(alloc)?;
    Ok((first, second))
}
