//! Why bytes aren't text in an encoding.
use thiserror::Error;

/// What is wrong with bytes.
#[derive(Clone, Copy, PartialEq, Eq, Debug, Error)]
pub enum BadBytes {
    /// The bytes don't begin with a byte order mark of UTF-16.
    #[error("not UTF-16: no byte order mark; UTF-16LE and UTF-16BE need none")]
    NoMark,
    /// One of the two units of a character is missing.
    #[error("not UTF-16: half a surrogate pair")]
    LoneSurrogate,
    /// The last unit has one byte.
    #[error("not UTF-16: an odd number of bytes")]
    OddByte,
    /// A byte is no character of Windows-1252.
    #[error("not Windows-1252: byte 0x{0:X}")]
    NoCharacter(u8),
}

/// Why bytes aren't decoded.
#[derive(Clone, Copy, PartialEq, Eq, Debug)]
pub enum DecodeError {
    /// The bytes aren't text in the encoding.
    Line {
        /// The line of the text in which the bytes are, from 1.
        line: u64,
        /// What is wrong.
        bad_bytes: BadBytes,
    },
    /// An allocation failed.
    Memory,
}
