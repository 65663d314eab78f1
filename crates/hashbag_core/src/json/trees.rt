//! How a bag is written as a JSON tree.
ghost use Rattle.std.specs.Prelude.{◌≡◌, map, All, false, None, IfOk, OnOk, IfErr, length};
ghost use Rattle.std.specs.List.Sorted.{IsStrictlySortedBy};
ghost use Rattle.std.specs.Map.{keys_of};
ghost use Rattle.serde_json.specs.View.{view};
ghost use Rattle.serde_json.specs.Written.{has_float};
ghost use Rattle.hashbag_core.specs.JsonFaults.{limit_of, fault, HasNoFaultFrom};
ghost use Rattle.hashbag_core.specs.JsonTrees.{ReadsBack, IsTree, IsTreeOfCounts, TellsApart, pair_tree, written};
ghost use Rattle.hashbag_core.specs.Occurrences.{greatest_total};
ghost use Rattle.hashbag_core.specs.Walks.{IsSetWalkOf, seen};

use crate::bag::{BagError, HashBag};
use crate::json::JsonItem;
use serde_json::{Map, Value};
use std::alloc::Global;
use std::hash::{BuildHasher, Hash};

// Returns the pair of an item and its count.
fn pair_value<T: JsonItem>(alloc: Global, item: &T, count: usize) -> Result<Value, BagError>
    ensures item { T.is_item item.now }
    ensures pair { IfOk result (λ v. view v ≡ pair_tree T.tree_of (item.now, count)) }
    ensures memory { IfErr result (λ e. e ≡ BagError.Memory) }
{
    let tree = item.to_json(alloc)?;
    let mut pair = Vec::new(alloc);
    serde_json::push(&mut pair, tree)?;
    serde_json::push(&mut pair, Value::from(count))?;
    Ok(Value::Array(pair))
}

// Returns the tree of a bag with this array of pairs and this limit.
fn tree_with_limit(alloc: Global, limit: usize, pairs: Value) -> Result<Value, BagError>
    ensures tree { IfOk result (λ v. view v ≡ written limit (view pairs)) }
    ensures memory { IfErr result (λ e. e ≡ BagError.Memory) }
{
    if limit == usize::MAX {
        return Ok(pairs);
    }
    let mut members = Map::new(alloc);
    serde_json::put(&mut members, alloc, "limit", Value::from(limit))?;
    serde_json::put(&mut members, alloc, "pairs", pairs)?;
    Ok(Value::Object(members))
}

impl<T: JsonItem + Hash + Drop, S: BuildHasher + Drop> HashBag<T, S> {
    // Returns the distinct values with their counts, in the ascending order of the values. Room for all of them is allocated at once.
    fn sorted_pairs(&self, alloc: Global) -> Result<Vec<(&T, usize)>, BagError>
    where
        T: Ord,
        ensures walk { IfOk result (λ pairs. IsSetWalkOf T.eq self.now (map seen pairs.items)) }
        ensures rising { IfOk result (λ pairs. IsStrictlySortedBy T.cmp (keys_of (map seen pairs.items))) }
        ensures memory { IfErr result (λ e. e ≡ BagError.Memory) }
    {
        let mut pairs = Vec::with_capacity(alloc, self.set_len())?;
        for pair in self.set_iter() {
            if pairs.push(pair).is_err() {
                return Err(BagError::Memory);
            }
        }
        pairs.sort_unstable();
        Ok(pairs)
    }

    // Returns the array of pairs, in the ascending order of their items.
    fn pairs_value(&self, alloc: Global) -> Result<Value, BagError>
    where
        T: Ord,
        ensures tree { IfOk result (λ v. IsTree T.eq T.cmp T.tree_of self.now.items (view v)) }
        ensures items { OnOk result (All T.is_item self.now.items) }
        ensures no_fault { IfOk result (λ v. HasNoFaultFrom T.has_item (length self.now.items) (view v)) }
        ensures memory { IfErr result (λ e. e ≡ BagError.Memory) }
    {
        let pairs = self.sorted_pairs(alloc)?;
        let mut list = Vec::new(alloc);
        for (item, count) in pairs {
            serde_json::push(&mut list, pair_value(alloc, item, count)?)?;
        }
        Ok(Value::Array(list))
    }

    /// Returns the tree of the bag: an array with an array `[item, count]` for each distinct value, in the ascending order of the items. If the limit
    /// isn't `usize::MAX`, the tree is an object with two members: `limit`, and `pairs`, which is that array.
    ///
    /// Equal bags with the same limit have equal trees, whatever their instances, states and history. The tree is read back as an equal bag
    /// with the same limit, unless an allocation fails.
    ///
    /// # Errors
    ///
    /// `Memory` if an allocation fails.
    ///
    /// # Examples
    ///
    /// ```
    /// let mut bag: HashBag<String> = HashBag::new(alloc);
    /// bag.insert_many_key("pear", 1)?;
    /// bag.insert_many_key("apple", 2)?;
    /// bag.to_value(alloc)?.to_string(alloc)?; // [["apple",2],["pear",1]]
    /// Ok(())
    /// ```
    pub fn to_value(&self, alloc: Global) -> Result<Value, BagError>
    where
        T: Ord,
        // It is the tree of every bag with these counts and this limit.
        ensures tree { IfOk result (λ v. IsTreeOfCounts T.eq T.cmp T.tree_of self.now.items self.now.most (view v)) }
        ensures items { OnOk result (All T.is_item self.now.items) }

        // The tree has no fault. Every list of pairs that it is read as has the counts of the bag. Its limit is the bag's.
        ensures no_fault { IfOk result (λ v. fault greatest_total T.has_item (view v) ≡ None) }
        ensures counts { IfOk result (λ v. ReadsBack T.eq T.reads self.now.items (view v)) }
        ensures limit { IfOk result (λ v. limit_of (view v) ≡ self.now.most) }

        // Any other bag has the same counts and the same limit exactly if its tree is this one.
        ensures same { IfOk result (λ v. TellsApart T.eq T.cmp T.tree_of T.is_item self.now.items self.now.most (view v)) }
        ensures no_float { IfOk result (λ v. has_float (view v) ≡ false) }
        ensures memory { IfErr result (λ e. e ≡ BagError.Memory) }
    {
        let pairs = self.pairs_value(alloc)?;
        Ok(tree_with_limit(alloc, self.limit(), pairs)?)
    }
}
