//! What the programs share to work with the system: arguments and options, files that are read whole, and outputs that are written whole or not at
//! all. The crate also has the errors, the exit statuses, the version, and the check whether two names are of one file.
//!
//! No clause can say which bytes a file has, so `tests/programs/words.sh` tests with files: see the page of the program `hashbag_words`.
#![tactic(auto)]

pub mod beside;
pub mod input;
pub mod inputs;
pub mod one_file;
pub mod options;
pub mod output;
pub mod output_file;
pub mod pace;
pub mod program;
pub mod progress;
pub mod status;
pub mod table;
pub mod text;
pub mod tips;
pub mod trouble;

/// The version of this repository and of each program: the version of the Rust crate that is ported, a hyphen, and the version of the port.
pub const VERSION: &str = "0.1.13-3";
