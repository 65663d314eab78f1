//! The exit statuses: one number means the same in each program.

/// All was done.
pub const DONE: u8 = 0;

/// All was done, and the answer is no: lists differ, movements were rejected, or nothing is shown.
pub const DENIED: u8 = 1;

/// The arguments are bad, or the contents of an input are.
pub const BAD_INPUT: u8 = 2;

/// An allocation failed.
pub const NO_MEMORY: u8 = 3;

/// A file can't be opened, or a read or a write failed.
pub const IO_FAILED: u8 = 4;

/// A total is past its limit: 2^64-1, or 2^63-1 in a database.
pub const TOTAL_TOO_LARGE: u8 = 5;

/// A file was entered before, so nothing is entered.
pub const ENTERED_BEFORE: u8 = 6;

/// Another process has the file of a database open.
pub const IN_USE: u8 = 7;
