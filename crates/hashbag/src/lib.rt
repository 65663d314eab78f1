//! A counted hash multiset: how often each of several values occurs, and how many occurrences there are in all.
//!
//! Users call `hashbag_core`, `hashbag_ops` and `hashbag_script` by this name. A crate that walks over a `&HashBag` by `for` also lists
//! `hashbag_core` among its libraries: the compiler looks for an impl for `&HashBag` in the crate that defines `HashBag`.
#![tactic(auto)]

pub use hashbag_core::{
    BagError, Difference, Drain, Entry, FixedState, HashBag, IntoIter, ItemError, Iter, JsonError,
    JsonItem, JsonText, Key, NotIn, OuterJoin, SetIter, SignedDifference, Spare, ToValue,
    TryExtendError, bag, entry, iters, joins, json,
};
pub use hashbag_ops as ops;
pub use hashbag_script::script;
