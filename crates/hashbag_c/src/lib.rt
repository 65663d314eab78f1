//! `hashbag` for C: bags of numbers and of byte strings, each behind a handle of one word. `docs/use/C.md` has how to build and call it;
//! `bindings/c/hashbag.h` is made from the functions that are exported here.
//!
//! No exported function requires anything of its values. A handle that has nothing, or a bag of the other kind, is reported by a number.
#![tactic(auto)]

pub mod any;
pub mod byte_trees;
pub mod bytes;
pub mod combine;
pub mod entries;
pub mod handle;
pub mod held;
pub mod json;
pub mod number_batches;
pub mod number_joins;
pub mod number_json;
pub mod number_orders;
pub mod number_walks;
pub mod numbers;
pub mod raw_box;
pub mod state;
pub mod text_batches;
pub mod text_joins;
pub mod text_json;
pub mod text_orders;
pub mod text_walks;
pub mod texts;
pub mod walk;
pub mod walks;
