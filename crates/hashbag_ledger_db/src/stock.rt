//! A stock that is kept in a SQLite database: its tables, reading them, and writing batches in one transaction.
//!
//! The functions take a connection to any store. The program's store is a file.
pub mod error;
pub mod reading;
pub mod statements;
pub mod tables;
pub mod writing;
