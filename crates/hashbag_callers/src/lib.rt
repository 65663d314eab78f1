//! Callers to copy, one file for each kind of use; docs/prove/DEFINITIONS.md lists them. Each caller is proved from the contracts of its
//! calls alone.
#![tactic(auto)]

pub mod deliveries;
pub mod hall;
pub mod join_uses;
pub mod json_uses;
pub mod ledger;
pub mod list_uses;
pub mod own_types;
pub mod record_uses;
pub mod reserved;
pub mod run_uses;
pub mod slot_uses;
pub mod text_uses;
pub mod transfers;
pub mod uses;
pub mod words;
