//! Operations on whole bags: sums, common parts, differences, the greater of both counts, whether one bag has all of another, the counts in the order
//! of their values, and the most common values.
//!
//! Each contract is a sentence about counts: how often each value occurs afterwards, from how often it occurred before. What follows from
//! several calls together is proved in [`laws`].
#![tactic(auto)]

pub mod combine;
pub mod compare;
pub mod laws;
pub mod order;
pub mod third;

pub use combine::{keep_common, keep_most, merge, merge_ref, take_away};
pub use compare::{contains_all, is_disjoint};
pub use order::{counts, max_count, most_common, sorted};
pub use third::{intersection, sum, union};
