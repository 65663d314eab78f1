//! What was ordered and what was delivered, compared: the program `hashbag_match` without its files.
#![tactic(auto)]

pub mod ask;
pub mod files;
pub mod hints;
pub mod keys;
pub mod matching;
pub mod near;
pub mod output;
pub mod reading;
pub mod shown;
pub mod tally;
pub mod texts;
pub mod totals;
