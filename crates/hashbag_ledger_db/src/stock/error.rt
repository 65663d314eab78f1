//! Why a stock can't be read or written.
use sqlite::ErrorCode;
use std::alloc::{AllocError, AllocFailed};
use thiserror::Error;

/// What is wrong with a number that a row can't have.
pub const TOO_LARGE: &str = "a number past 9223372036854775807";

/// Why a stock can't be read or written.
#[derive(Debug, Drop, Error)]
pub enum StockError {
    /// The database has tables, and none of them is of a stock.
    #[error("a database of another program")]
    Foreign,
    /// The stock has tables of a later version.
    #[error("a stock of version {0}, which is later than {known}", known = crate::stock::tables::VERSION)]
    Later(i64),
    /// The stock has tables of an earlier version.
    #[error("a stock of version {0}: `close --into NEW` of the program of commit 2d845ddb makes one of version {now} of it", now = crate::stock::tables::VERSION)]
    Earlier(i64),
    /// The tables have what this program never writes, or can't have what is to be written. The text says what.
    #[error("{0}")]
    Damaged(&'static str),
    /// Another process has the file open.
    #[error("another process has it open")]
    Busy,
    /// An allocation failed.
    #[error("no memory")]
    Memory,
    /// The database fails.
    #[error("{0}")]
    Database(sqlite::Error),
}

impl From<sqlite::Error> for StockError {
    fn from(e: sqlite::Error) -> StockError {
        match e {
            sqlite::Error::SqliteFailure(ErrorCode::OutOfMemory) => StockError::Memory,
            sqlite::Error::SqliteFailure(ErrorCode::DatabaseBusy) => StockError::Busy,
            _ => StockError::Database(e),
        }
    }
}

impl From<AllocError> for StockError {
    fn from(_e: AllocError) -> StockError {
        StockError::Memory
    }
}

impl<T: Drop> From<AllocFailed<T>> for StockError {
    fn from(_e: AllocFailed<T>) -> StockError {
        StockError::Memory
    }
}
