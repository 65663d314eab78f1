//! Texts in other encodings than UTF-8, as UTF-8: UTF-16, Latin-1 and Windows-1252, in blocks or whole.
#![tactic(auto)]

pub mod bad_bytes;
pub mod decoder;
pub mod encoding;
mod high;
mod state;
mod utf16;
pub mod whole;
mod windows_1252;
