//! Tables of slots with open addressing: distinct values, each with a count, found by their hashes.
//!
//! This crate knows how values are stored in memory and how a probe finds them. A table here doesn't grow: `hashbag_table` decides how many
//! slots there are, when a larger table is made, and when values are carried into it.
#![tactic(auto)]

mod block;
mod cells;
mod group;
pub mod key;
mod live;
pub mod probe;
mod row;
pub mod slots;
mod tags;
pub mod walk;
