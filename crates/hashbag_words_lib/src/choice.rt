//! The counts that are shown, and their order.
ghost use Rattle.std.specs.Prelude.{◌≡◌, ℕ, List, [], length, map, if◌then◌else◌, string_bytes, IfOk};
ghost use Rattle.std.specs.List.Sorted.{IsStrictlySortedBy};
ghost use Rattle.std.specs.Map.{keys_of};
ghost use Rattle.std.specs.String.{string_cmp, string_eq};
ghost use Rattle.hashbag_core.specs.Walks.{IsSetWalkOf, seen};
ghost use Rattle.hashbag_words_lib.specs.Choice.{is_excepted, shows, KeepsShown, AreChosen};
ghost use Rattle.hashbag_words_lib.specs.Counts.{HasTokens};

use crate::shards::{Shard, is_in_shard};
use crate::sorting::sort_rows;
use hashbag_core::{BagError, HashBag};
use hashbag_ops::{counts, most_common};
use std::alloc::Global;
use std::hash::{BuildHasher, RandomState};

/// In what order counts are shown, and how many of them.
#[derive(Clone, Copy, Debug, PartialEq, Eq)]
pub enum Order {
    /// All tokens, in ascending order of their bytes.
    Ascending,
    /// The k most common tokens: in descending order of counts, and tokens with equal counts in ascending order of their bytes.
    MostCommon(usize),
}

/// Which counts are shown, and in what order.
#[derive(Clone, Copy)]
pub struct Choice<'e> {
    /// In what order counts are shown, and how many of them.
    pub order: Order,
    /// The least count that is shown.
    pub least: usize,
    /// The shard whose tokens are shown. `None` shows the tokens of all shards.
    pub shard: Option<Shard>,
    /// The bag of the tokens that aren't shown, if there is one.
    pub except: Option<&'e HashBag<String, RandomState>>,
}

impl Choice<'_> {
    /// Returns whether a token with this count is shown.
    pub fn shows(&self, token: &str, count: usize) -> bool
        // A token is shown if `count` ≥ `least`, and it is in `shard` (if any) and isn't in the bag `except` (if any).
        ensures { result ≡ shows self.now (token.now, count) }
    {
        self.least <= count && is_in_shard(self.shard, token) && !is_excepted(self.except, token)
    }
}

// Returns whether the bag of the tokens that aren't shown has this token.
fn is_excepted(except: Option<&HashBag<String, RandomState>>, token: &str) -> bool
    ensures { result ≡ is_excepted except.entry token.now }
{
    match except {
        Some(bag) => bag.contains(token) > 0,
        None => false,
    }
}

// Keeps the tokens that are shown, and removes the others. Returns the bag's total before the removals. Reads each token once, and allocates nothing.
pub(crate) fn keep_shown<S: BuildHasher + Drop>(
    bag: &mut HashBag<String, S>,
    choice: Choice<'_>,
) -> usize
    // `texts` lists the bag's texts. Each text that is shown keeps its count; no other text is left.
    ensures kept { (texts : List (List ℕ)) → HasTokens bag.old texts → KeepsShown choice.entry texts bag.new }
    ensures total { (texts : List (List ℕ)) → HasTokens bag.old texts → result ≡ length texts }
{
    let total = bag.len();
    bag.retain(
        |token: &String, count: usize| -> usize
            ensures { result ≡ (if shows choice.entry (string_bytes token.now, count) then count else 0) }
        {
            if choice.shows(token.as_str(), count) {
                count
            } else {
                0
            }
        },
    );
    total
}

// Returns the tokens with their counts, in ascending order of tokens.
fn rising<'a, S: BuildHasher + Drop>(
    alloc: Global,
    bag: &'a HashBag<String, S>,
) -> Result<Vec<(&'a String, usize)>, BagError>
    ensures walk { IfOk result (λ pairs. IsSetWalkOf string_eq bag.now (map seen pairs.items)) }
    ensures rising { IfOk result (λ pairs. IsStrictlySortedBy string_cmp (keys_of (map seen pairs.items))) }
{
    let pairs = counts(alloc, bag)?;
    let sorted = sort_rows(alloc, pairs)?;
    Ok(sorted)
}

/// Returns the tokens of a bag with their counts, in the order `order`: all tokens, or the most common ones.
///
/// # Errors
///
/// `Memory` if an allocation fails.
///
/// # Complexity
///
/// Same as [`counts`] or [`most_common`] of `hashbag_ops`; for tokens in ascending order same as `counts` and [`sort_rows`] together.
pub fn chosen<'a, S: BuildHasher + Drop>(
    alloc: Global,
    bag: &'a HashBag<String, S>,
    order: Order,
) -> Result<Vec<(&'a String, usize)>, BagError>
    // The rows have each token of the bag once, with its count, ordered as `order` says; with `MostCommon(k)` they are the first k of these.
    ensures { IfOk result (λ rows. AreChosen order bag.now (map seen rows.items)) }
{
    match order {
        Order::Ascending => rising(alloc, bag),
        Order::MostCommon(k) => most_common(alloc, bag, k),
    }
}
