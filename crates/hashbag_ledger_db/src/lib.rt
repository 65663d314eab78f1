//! The options of `hashbag_ledger`, what its subcommands do in a database, whatever stores it, and what `total` does without one. Databases
//! are opened by [`files::Databases`] alone, and other files by [`hashbag_shell::inputs::Inputs`] alone.
#![tactic(auto)]

pub mod before;
pub mod closing;
pub mod columns;
pub mod counting;
pub mod entering;
pub mod files;
pub mod job;
pub mod messages;
pub mod movements;
pub mod options;
pub mod putting;
pub mod settings;
pub mod showing;
pub mod stages;
pub mod stock;
pub mod troubles;
pub mod undoing;
pub mod unkept;
pub mod verifying;
pub(crate) mod wanted;
