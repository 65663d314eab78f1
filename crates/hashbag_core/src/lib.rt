//! A counted hash multiset: how often each of several values occurs, and how many occurrences there are in all. Users name it by
//! `hashbag`.
#![tactic(auto)]

pub mod bag;
pub mod entry;
pub mod iters;
pub mod joins;
pub mod json;

pub use bag::{BagError, FixedState, HashBag, TryExtendError};
pub use entry::Entry;
pub use hashbag_table::{Key, Spare, ToValue};
pub use iters::{Drain, IntoIter, Iter, SetIter};
pub use joins::{Difference, NotIn, OuterJoin, SignedDifference};
pub use json::{ItemError, JsonError, JsonItem, JsonText};
