//! Errors of an input.
ghost use Rattle.std.specs.Prelude.{◌≡◌};

use hashbag_core::BagError;
use std::alloc::AllocError;
use std::io;
use thiserror::Error;

/// Why a line is bad.
#[derive(Clone, Copy, Debug, PartialEq, Eq, Error)]
pub enum BadLine {
    /// The line isn't UTF-8.
    #[error("not UTF-8; if it is Windows-1252, `--encoding Windows-1252` reads it")]
    NotText,
    /// A line of counts has no tab.
    #[error("no tab")]
    NoTab,
    /// The count isn't a number from 0 to 2^64-1.
    #[error("no count")]
    NoCount,
    /// A backslash isn't followed by `t`, `n`, `r` or a backslash.
    #[error("bad escape")]
    BadEscape,
    /// The last line of a file of counts has no line feed: the file may have been cut off there.
    #[error("no line feed")]
    CutOff,
}

/// Why an input wasn't counted to its end.
#[derive(Debug, Drop, Error)]
pub enum InputFault {
    /// A line is bad.
    #[error("{0}")]
    Line(BadLine),
    /// An insertion failed: an allocation failed, or the total would pass the limit of the bag.
    #[error("{0}")]
    Bag(BagError),
    /// The rows must be in the order of `LC_ALL=C sort`, and the token of this row comes before the token of the row before.
    #[error("not in order")]
    NotInOrder,
    /// A write failed.
    #[error("{0}")]
    Write(io::Error),
}

impl From<BagError> for InputFault {
    ghost use Rattle.hashbag_words_lib.specs.declared.errors.InputFault.{InputFault};

    ghost from_gives = { λ error fault. fault ≡ InputFault.Bag error };

    fn from(error: BagError) -> InputFault {
        InputFault::Bag(error)
    }
}

impl From<AllocError> for InputFault {
    ghost use Rattle.hashbag_words_lib.specs.declared.errors.InputFault.{InputFault};
    ghost use Rattle.hashbag_core.specs.declared.bag.BagError.{BagError};

    ghost from_gives = { λ _ fault. fault ≡ InputFault.Bag BagError.Memory };

    fn from(_refused: AllocError) -> InputFault {
        InputFault::Bag(BagError::Memory)
    }
}
