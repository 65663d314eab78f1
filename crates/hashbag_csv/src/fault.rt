//! What is wrong with a CSV text.
ghost use Rattle.std.specs.Prelude.{◌≡◌, IfOk};

use hashbag_shell::trouble::Trouble;
use std::alloc::{AllocError, Global};
use thiserror::Error;

/// What is wrong with a line.
#[derive(Debug, Drop, Error)]
pub enum Fault {
    /// The text has no record.
    #[error("no header")]
    NoHeader,
    /// The text begins with a byte order mark of UTF-16.
    #[error("UTF-16; `--encoding UTF-16` reads it")]
    Utf16,
    /// The header has no column of this name.
    #[error("no column `{name}`; there are: {names}")]
    NoColumn {
        /// The name that was looked for.
        name: String,
        /// The names in the header, at most 12, and a hint: a name near `name`, or another delimiter that the only name contains.
        names: String,
    },
    /// The header has several columns of this name.
    #[error("more than one column `{0}`")]
    TwoColumns(String),
    /// A quote that opens a field is never closed.
    #[error("quote never closed")]
    OpenQuote,
    /// Text follows the quote that closes a field.
    #[error("text after a closing quote")]
    TextAfterQuote,
    /// A field that doesn't begin with a quote has one.
    #[error("quote in a field without quotes")]
    StrayQuote,
    /// A record has another number of fields than the header.
    #[error("{header} fields wanted, {found} found")]
    Fields {
        /// How many fields the record has.
        found: u64,
        /// How many fields the header has.
        header: u64,
    },
    /// A field of this column isn't UTF-8.
    #[error("column `{0}` is not UTF-8; if it is Windows-1252, `--encoding Windows-1252`")]
    NotText(String),
    /// A field is no number.
    #[error("no number: `{0}`")]
    NoNumber(String),
    /// A field is a number with decimals, and whole numbers are wanted.
    #[error("whole numbers only: `{0}`")]
    NotWhole(String),
    /// The whole part of a number has the group mark, but isn't groups of three digits with the mark between them.
    #[error("groups of three digits wanted: `{0}`")]
    BadGroups(String),
    /// A number has more decimals than the scale.
    #[error("more than {most} decimals: `{field}`")]
    TooManyDecimals {
        /// The number of decimals of the scale.
        most: u32,
        /// The field.
        field: String,
    },
    /// A number is above the greatest that is read.
    #[error("number past {most}: `{field}`")]
    PastMost {
        /// The greatest number that is read, as text with all decimals of the scale.
        most: String,
        /// The field.
        field: String,
    },
    /// A field names no kind of movement.
    #[error("neither `in` nor `out`: `{0}`")]
    NoKind(String),
    /// With this line the total is above the greatest number that is read. The text is the greatest number, with all decimals of the scale.
    #[error("total past {0}")]
    TotalPastMost(String),
}

/// Why a CSV text wasn't read.
#[derive(Debug, Drop, Error)]
pub enum SheetError {
    /// A line is bad. Lines are counted from 1, and a line end within quotes counts too.
    #[error("{line}: {fault}")]
    Line {
        /// The line on which the record begins.
        line: u64,
        /// What is wrong with the record.
        fault: Fault,
    },
    /// An allocation failed.
    #[error("no memory")]
    Memory,
}

impl SheetError {
    ghost use Rattle.hashbag_csv.specs.Totals.{is_total};

    /// Returns whether the error is that a total is too large ([`Fault::TotalPastMost`]).
    pub fn is_total(&self) -> bool
        ensures { result ≡ is_total self.now }
    {
        matches!(
            self,
            SheetError::Line {
                fault: Fault::TotalPastMost(_),
                ..
            }
        )
    }
}

impl From<AllocError> for SheetError {
    ghost use Rattle.hashbag_csv.specs.declared.fault.SheetError.{SheetError};

    ghost from_gives = { λ _ error. error ≡ SheetError.Memory };

    fn from(_e: AllocError) -> SheetError {
        SheetError::Memory
    }
}

// Returns the error as a `Trouble`, which names the file if a line is bad.
fn trouble_of<'a>(
    alloc: Global,
    file: &'a str,
    error: &SheetError,
) -> Result<Trouble<'a>, AllocError> {
    match error {
        SheetError::Memory => Ok(Trouble::Memory),
        SheetError::Line { line, fault } => Ok(Trouble::BadLine {
            file,
            line: *line,
            what: format!(in alloc; "{fault}")?,
            is_total: error.is_total(),
        }),
    }
}

/// Returns the value that was read, or the error as a [`Trouble`], which names the file if a line is bad.
///
/// # Errors
///
/// `BadLine` if a line is bad, `Memory` if an allocation failed or fails.
pub fn in_file<T: Drop>(
    alloc: Global,
    file: &str,
    read: Result<T, SheetError>,
) -> Result<T, Trouble<'_>>
    ensures { IfOk result (λ value. read ≡ Ok value) }
{
    match read {
        Ok(value) => Ok(value),
        Err(error) => Err(trouble_of(alloc, file, &error)?),
    }
}
