//! Lists of articles with quantities: read from CSV texts, converted into bags and back, and written.
#![tactic(auto)]

pub mod alike;
pub mod article;
pub mod bad_lines;
pub mod cells;
pub mod counts;
mod csv_text;
pub mod decimals;
pub mod delimiter;
pub mod escaped;
pub mod fault;
pub mod first_lines;
pub mod forms;
pub mod groups;
mod json_text;
pub mod key_form;
pub mod line_form;
pub mod lines;
pub mod number_form;
pub mod numbers;
pub mod quantities;
pub mod quotes;
pub mod scale;
pub mod sheet;
mod table;
pub mod trims;
