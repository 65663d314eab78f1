//! Movements of a stock, and a stock that is kept: what the program `hashbag_ledger` decides, as functions of texts, lists and bags.
#![tactic(auto)]

pub mod counting;
pub mod date_forms;
pub mod dated;
pub mod dates;
pub mod entering;
pub mod extras;
pub mod filing;
pub mod ledger;
pub mod listings;
pub mod movements;
pub mod numbers;
pub mod once;
pub mod pairs;
pub mod reading;
pub mod recalling;
pub mod rows;
pub mod sealing;
pub mod style;
pub mod undoing;
pub mod verifying;
