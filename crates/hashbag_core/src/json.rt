//! Bags as JSON trees: an array of pairs of an item and its count, within an object with the limit if that isn't `usize::MAX`.
ghost use Rattle.std.specs.Prelude.{◌≡◌, ◌↔◌, ℕ, map, min, Bool, true, false, None, Some, option_map, IfOk, OnOk, IfErr};
ghost use Rattle.std.specs.Result.{result_map_both};
ghost use Rattle.serde_json.specs.Data.{Data};
ghost use Rattle.serde_json.specs.View.{view, members_view};
ghost use Rattle.serde_json.specs.declared.value.Value.{Value};
ghost use Rattle.serde_json.specs.Written.{has_float};
ghost use Rattle.hashbag_core.specs.Inserts.{Inserts};
ghost use Rattle.hashbag_core.specs.JsonFaults.{has_no_other, opened, trees_in, limit_of, pair_of, first_fault, fault, fault_after, IsFault, IsCountedItem, MayRunOut, MayRunOutAmong};
ghost use Rattle.hashbag_core.specs.JsonTrees.{IsPair, IsMadeOfTree, IsMadeOfTrees};
ghost use Rattle.hashbag_core.specs.Occurrences.{greatest_total, IsBag};

mod items;
mod texts;
mod trees;

use crate::bag::{BagError, HashBag};
use serde_json::{Map, Value};
use std::alloc::{AllocError, Global};
use std::hash::{BuildHasher, Hash};
pub use texts::JsonText;
use thiserror::Error;

/// Why a tree can't be read as an item.
#[derive(Clone, Copy, Debug, PartialEq, Eq, Error)]
pub enum ItemError {
    /// The tree isn't the tree of an item.
    #[error("not an item")]
    NotAnItem,
    /// An allocation failed.
    #[error("no memory")]
    Memory,
}

impl ItemError {
    /// Returns the number by which programs report the error: 11 for `NotAnItem`, 12 for `Memory`.
    ///
    /// # Examples
    ///
    /// ```
    /// ItemError::NotAnItem.number(); // 11
    /// ```
    pub fn number(&self) -> u8
        ensures number_of_not_an_item { self.now ≡ ItemError.NotAnItem → result ≡ 11 }
        ensures number_of_memory { self.now ≡ ItemError.Memory → result ≡ 12 }
    {
        match self {
            ItemError::NotAnItem => 11,
            ItemError::Memory => 12,
        }
    }
}

impl From<AllocError> for ItemError {
    ghost use Rattle.hashbag_core.specs.declared.json.ItemError.TheVariants.{Memory};

    ghost from_gives = { λ _ e. e ≡ Memory };

    fn from(_e: AllocError) -> ItemError {
        ItemError::Memory
    }
}

/// Why a tree can't be read as a bag. Pairs are numbered from 0.
#[derive(Clone, Copy, Debug, PartialEq, Eq, Error)]
pub enum JsonError {
    /// The tree is neither an array nor an object. Or it is an object that has no array as its member `pairs`, or that has another
    /// member than `limit` and `pairs`.
    #[error("not an array")]
    NotAnArray,
    /// The pair is no array of exactly two.
    #[error("pair {0}: not a pair")]
    NotAPair(usize),
    /// The second part of the pair is no whole number from 0 to `usize::MAX`. A float isn't one, not even 1.0.
    #[error("pair {0}: bad count")]
    BadCount(usize),
    /// The first part of the pair isn't the tree of an item.
    #[error("pair {0}: bad item")]
    BadItem(usize),
    /// The total would pass the limit with the pair.
    #[error("pair {0}: total past its end")]
    TooMany(usize),
    /// An allocation failed.
    #[error("no memory")]
    Memory,
    /// The member `limit` of an object is absent, or no whole number from 0 to `usize::MAX`. A float isn't one, not even 1.0.
    #[error("bad limit")]
    BadLimit,
}

impl JsonError {
    /// Returns the number by which programs report the error: 3 to 8 in the order of the variants, and 10 for `BadLimit`.
    ///
    /// # Examples
    ///
    /// ```
    /// JsonError::BadCount(0).number(); // 5
    /// ```
    pub fn number(&self) -> u8
        ensures number_of_not_an_array { self.now ≡ JsonError.NotAnArray → result ≡ 3 }
        ensures number_of_not_a_pair { (i : ℕ) → self.now ≡ JsonError.NotAPair i → result ≡ 4 }
        ensures number_of_bad_count { (i : ℕ) → self.now ≡ JsonError.BadCount i → result ≡ 5 }
        ensures number_of_bad_item { (i : ℕ) → self.now ≡ JsonError.BadItem i → result ≡ 6 }
        ensures number_of_too_many { (i : ℕ) → self.now ≡ JsonError.TooMany i → result ≡ 7 }
        ensures number_of_memory { self.now ≡ JsonError.Memory → result ≡ 8 }
        ensures number_of_bad_limit { self.now ≡ JsonError.BadLimit → result ≡ 10 }
    {
        match self {
            JsonError::NotAnArray => 3,
            JsonError::NotAPair(_) => 4,
            JsonError::BadCount(_) => 5,
            JsonError::BadItem(_) => 6,
            JsonError::TooMany(_) => 7,
            JsonError::Memory => 8,
            JsonError::BadLimit => 10,
        }
    }
}

/// Values that are written as JSON trees and read back.
///
/// An implementation defines for contracts which values are items, which tree an item has, which trees have an item, and when a tree is read as an
/// item. It proves that these agree with `==` and with one another. For a type that is written as a string, [`JsonText`] asks for less.
pub trait JsonItem: Eq + Sized {
    /// Which values of the logic are values of the type: for `u64`, the numbers below 2^64.
    ghost is_item: { Self → Type 0 };

    /// The tree of an item.
    ghost tree_of: { Self → Data };

    /// Whether a tree has an item.
    ghost has_item: { Data → Bool };

    /// Holds of a tree and the item that it is read as.
    ghost reads: { Data → Self → Type 0 };

    /// Returns the tree of an item.
    ///
    /// # Errors
    ///
    /// `Memory` if an allocation fails.
    ///
    /// # Examples
    ///
    /// ```
    /// 5u64.to_json(alloc)?.to_string(alloc)?; // 5
    /// Ok(())
    /// ```
    fn to_json(&self, alloc: Global) -> Result<Value, BagError>
        // The value is an item.
        ensures item { is_item self.now }
        ensures tree { IfOk result (λ v. view v ≡ tree_of self.now) }
        ensures memory { IfErr result (λ e. e ≡ BagError.Memory) };

    /// Returns the item of a tree.
    ///
    /// # Errors
    ///
    /// `NotAnItem` exactly if the tree has none, even if memory runs out. `Memory` if an allocation fails.
    ///
    /// # Examples
    ///
    /// ```
    /// let tree = Value::from_str(alloc, "5")?;
    /// u64::from_json(alloc, &tree)?; // 5
    /// String::from_json(alloc, &tree).err(); // Some(NotAnItem)
    /// Ok(())
    /// ```
    fn from_json(alloc: Global, v: &Value) -> Result<Self, ItemError>
        // The tree is read as the result, which is an item.
        ensures item { IfOk result (λ x. is_item x × reads (view v.now) x) }
        ensures not_an_item { (result ≡ Err ItemError.NotAnItem) ↔ (has_item (view v.now) ≡ false) };

    /// A value that equals an item is an item.
    ghost equal_is_item: { (x y : Self) → is_item x → Self.eq x y ≡ true → is_item y };

    /// Equal items have equal trees.
    ghost equal_trees: { (x y : Self) → is_item x → is_item y → Self.eq x y ≡ true → tree_of x ≡ tree_of y };

    /// The tree of an item is read as an item.
    ghost tree_is_read: { (x : Self) → is_item x → (y : Self) × is_item y × reads (tree_of x) y };

    /// A tree that is read as an item has one.
    ghost read_has_item: { (d : Data) (x : Self) → reads d x → has_item d ≡ true };

    /// A tree that has an item is read as one. So `from_json` of such a tree fails only if an allocation fails.
    ghost item_is_read: { (v : Value) → has_item (view v) ≡ true → (x : Self) × is_item x × reads (view v) x };

    /// If the tree of an item `x` is read as `y`, then `x` equals `y`.
    ghost reads_back: { (x y : Self) → is_item x → reads (tree_of x) y → Self.eq x y ≡ true };

    /// If one tree is read as two items, these are equal.
    ghost reads_one: { (d : Data) (x y : Self) → is_item x → is_item y → reads d x → reads d y → Self.eq x y ≡ true };

    /// No item's tree holds a float.
    ghost no_float: { (x : Self) → is_item x → has_float (tree_of x) ≡ false };
}

// Whether each member has the name `limit` or `pairs`.
fn has_two_names(members: &Map<String, Value>) -> bool
    ensures { result ≡ has_no_other (members_view members.now.entries) }
{
    for (name, _) in members.iter() {
        let name = name.as_str();
        if name != "limit" && name != "pairs" {
            return false;
        }
    }
    true
}

// Returns the limit of a tree, and the trees of its pairs.
fn limit_and_pairs(tree: &Value) -> Result<(usize, &Vec<Value>), JsonError>
    ensures { result_map_both (λ p. (p.0, map view p.1.now.items)) (λ e. e) result ≡ opened (view tree.now) }
{
    if let Some(pairs) = tree.as_array() {
        return Ok((usize::MAX, pairs));
    }
    let Some(members) = tree.as_object() else {
        return Err(JsonError::NotAnArray);
    };
    if !has_two_names(members) {
        return Err(JsonError::NotAnArray);
    }
    let Some(pairs) = tree.get("pairs").and_then(Value::as_array) else {
        return Err(JsonError::NotAnArray);
    };
    let Some(limit) = tree.get("limit").and_then(Value::as_u64) else {
        return Err(JsonError::BadLimit);
    };
    Ok((limit as usize, pairs))
}

// Returns the two parts of an array of exactly two.
fn parts_of(pair: &Value) -> Option<(&Value, &Value)>
    ensures { option_map (λ p. (view p.0.now, view p.1.now)) result ≡ pair_of (view pair.now) }
{
    let list = pair.as_array()?;
    if list.len() != 2 {
        return None;
    }
    Some((&list[0], &list[1]))
}

// Reads the pair with this number, and inserts its item as often as the count of the pair says.
fn read_pair<T: JsonItem + Hash + Drop, S: BuildHasher + Drop>(
    alloc: Global,
    bag: &mut HashBag<T, S>,
    pair: &Value,
    number: usize,
) -> Result<(), JsonError>
    ensures no_fault { OnOk result (fault_after T.has_item number bag.old (view pair.now) ≡ None) }
    ensures read { OnOk result ((p : T × ℕ) × IsPair T.reads (view pair.now) p × Inserts T.eq p.0 p.1 bag.old bag.new) }
    ensures fault { IfErr result (IsFault (fault_after T.has_item number bag.old (view pair.now))) }
    ensures may_run_out { IfErr result (λ e. e ≡ JsonError.Memory → IsCountedItem T.has_item (view pair.now)) }
{
    let Some((tree, count)) = parts_of(pair) else {
        return Err(JsonError::NotAPair(number));
    };
    let Some(count) = count.as_u64() else {
        return Err(JsonError::BadCount(number));
    };
    let item = match T::from_json(alloc, tree) {
        Ok(item) => item,
        Err(ItemError::NotAnItem) => return Err(JsonError::BadItem(number)),
        Err(ItemError::Memory) => return Err(JsonError::Memory),
    };
    match bag.insert_within(item, count as usize) {
        Ok(()) => Ok(()),
        Err(BagError::TooMany) => Err(JsonError::TooMany(number)),
        Err(_) => Err(JsonError::Memory),
    }
}

impl<T: JsonItem + Hash + Drop, S: BuildHasher + Drop> HashBag<T, S> {
    // Returns the bag of an array's pairs, with this hash state and the limit `most`.
    fn from_pairs(
        alloc: Global,
        state: S,
        most: usize,
        list: &Vec<Value>,
    ) -> Result<HashBag<T, S>, JsonError>
        ensures no_fault { OnOk result (first_fault most T.has_item 0 0 (trees_in list.now) ≡ None) }
        ensures read { IfOk result (IsMadeOfTrees T.eq T.reads (trees_in list.now)) }
        ensures limit { IfOk result (λ bag. bag.most ≡ most) }
        ensures bag { IfOk result (λ bag. IsBag T.eq bag.most bag.items) }
        ensures hasher { IfOk result (λ bag. bag.hasher ≡ state) }

        // An error is the first fault, or `Memory`. `Memory` is returned only at a pair with a count and an item, if no pair before has a fault.
        ensures fault { IfErr result (IsFault (first_fault most T.has_item 0 0 (trees_in list.now))) }
        ensures may_run_out { IfErr result (λ e. e ≡ JsonError.Memory → MayRunOutAmong most T.has_item (trees_in list.now)) }
    {
        let mut bag = HashBag::with_limit(alloc, state, most);
        for (number, pair) in list.iter().enumerate() {
            read_pair(alloc, &mut bag, pair, number)?;
        }
        Ok(bag)
    }

    /// Reads a bag from its tree, with the hash state `state` and the limit of the tree or `most`, whichever is less. Its pairs are read
    /// and inserted in turn.
    ///
    /// The tree is an array of pairs, whose limit is `usize::MAX`, or an object with a member `limit` and a member `pairs`, which is such
    /// an array. A pair with the count 0 is checked and adds nothing. Equal items add up, and the first instance is kept. If strangers
    /// wrote the tree, use a state with random keys.
    ///
    /// # Errors
    ///
    /// The first fault of the tree is returned, in this order:
    ///
    /// - `NotAnArray` if the tree has neither form of a bag's tree, `BadLimit` if an object has a bad limit.
    /// - Of the first pair with a fault: `NotAPair` if it is no array of two; `BadCount`; `BadItem`; `TooMany` if the total would pass the
    ///   limit.
    ///
    /// `Memory` if an allocation fails before the first fault is found. Then there is no bag.
    ///
    /// # Examples
    ///
    /// ```
    /// let tree = Value::from_str(alloc, "[[\"apple\",2],[\"pear\",1]]")?;
    /// let state = FixedState::new();
    /// let bag: HashBag<String> = HashBag::from_value_with_hasher(alloc, state, 100, &tree)?;
    /// bag.contains("apple"); // 2
    /// Ok(())
    /// ```
    pub fn from_value_with_hasher(
        alloc: Global,
        state: S,
        most: usize,
        tree: &Value,
    ) -> Result<HashBag<T, S>, JsonError>
        // On success the tree has no fault. Its pairs were inserted in turn into an empty bag, and this bag is what they left.
        ensures no_fault { OnOk result (fault most T.has_item (view tree.now) ≡ None) }
        ensures read { IfOk result (IsMadeOfTree T.eq T.reads (view tree.now)) }

        // The limit is the lesser of the two. The total is within it, and equal occurrences are one instance.
        ensures limit { IfOk result (λ bag. bag.most ≡ min most (limit_of (view tree.now))) }
        ensures bag { IfOk result (λ bag. IsBag T.eq bag.most bag.items) }
        ensures hasher { IfOk result (λ bag. bag.hasher ≡ state) }

        // An error is the first fault, or `Memory`. `Memory` is returned only at a pair with a count and an item, if there is no fault before.
        ensures fault { IfErr result (IsFault (fault most T.has_item (view tree.now))) }
        ensures may_run_out { IfErr result (λ e. e ≡ JsonError.Memory → MayRunOut most T.has_item (view tree.now)) }
    {
        match limit_and_pairs(tree) {
            Ok((limit, pairs)) => HashBag::from_pairs(alloc, state, most.min(limit), pairs),
            Err(error) => Err(error),
        }
    }

    /// Reads a bag from its tree, under the default hash state, with the limit of the tree or `most`, whichever is less.
    ///
    /// # Errors
    ///
    /// Those of [`HashBag::from_value_with_hasher`].
    ///
    /// # Examples
    ///
    /// ```
    /// let tree = Value::from_str(alloc, "[[\"apple\",2],[\"pear\",1]]")?;
    /// let bag: HashBag<String> = HashBag::from_value_within(alloc, 100, &tree)?;
    /// bag.limit(); // 100
    /// Ok(())
    /// ```
    pub fn from_value_within(
        alloc: Global,
        most: usize,
        tree: &Value,
    ) -> Result<HashBag<T, S>, JsonError>
    where
        S: Default,
        // Same as [`HashBag::from_value_with_hasher`], but the state is the default.
        ensures no_fault { OnOk result (fault most T.has_item (view tree.now) ≡ None) }
        ensures read { IfOk result (IsMadeOfTree T.eq T.reads (view tree.now)) }
        ensures limit { IfOk result (λ bag. bag.most ≡ min most (limit_of (view tree.now))) }
        ensures bag { IfOk result (λ bag. IsBag T.eq bag.most bag.items) }
        ensures hasher { IfOk result (λ bag. S.is_default bag.hasher) }
        ensures fault { IfErr result (IsFault (fault most T.has_item (view tree.now))) }
        ensures may_run_out { IfErr result (λ e. e ≡ JsonError.Memory → MayRunOut most T.has_item (view tree.now)) }
    {
        HashBag::from_value_with_hasher(alloc, S::default(), most, tree)
    }

    /// Reads a bag from its tree, under the default hash state, with the limit of the tree: [`HashBag::from_value_within`] with
    /// `usize::MAX`.
    ///
    /// # Errors
    ///
    /// Those of [`HashBag::from_value_with_hasher`].
    ///
    /// # Examples
    ///
    /// ```
    /// let tree = Value::from_str(alloc, "[[\"apple\",2],[\"pear\",1]]")?;
    /// let bag: HashBag<String> = HashBag::from_value(alloc, &tree)?;
    /// bag.contains("apple"); // 2
    /// Ok(())
    /// ```
    pub fn from_value(alloc: Global, tree: &Value) -> Result<HashBag<T, S>, JsonError>
    where
        S: Default,
        // Same as [`HashBag::from_value_with_hasher`], but the state is the default, and the limit is the tree's.
        ensures no_fault { OnOk result (fault greatest_total T.has_item (view tree.now) ≡ None) }
        ensures read { IfOk result (IsMadeOfTree T.eq T.reads (view tree.now)) }
        ensures limit { IfOk result (λ bag. bag.most ≡ limit_of (view tree.now)) }
        ensures bag { IfOk result (λ bag. IsBag T.eq bag.most bag.items) }
        ensures hasher { IfOk result (λ bag. S.is_default bag.hasher) }
        ensures fault { IfErr result (IsFault (fault greatest_total T.has_item (view tree.now))) }
        ensures may_run_out { IfErr result (λ e. e ≡ JsonError.Memory → MayRunOut greatest_total T.has_item (view tree.now)) }
    {
        HashBag::from_value_within(alloc, usize::MAX, tree)
    }
}
