//! What is asked of a stock that isn't kept, by the arguments of `total`.
use crate::columns::{columns_of, start_columns_of};
use crate::job::files_of;
use clap::ArgMatches;
use hashbag_csv::counts::Reading;
use hashbag_ledger_lib::reading::Columns;
use hashbag_shell::options::{encoding, reports};
use hashbag_shell::progress::Reports;
use hashbag_shell::table::value;
use hashbag_shell::trouble::Trouble;
use hashbag_text::encoding::Encoding;
use std::alloc::Global;

/// What the arguments ask for.
#[derive(Drop)]
pub struct Settings<'a> {
    /// The file of the stock at the beginning, if there is one.
    pub start: Option<&'a str>,
    /// The columns of articles and of numbers of the stock at the beginning.
    pub start_columns: (&'a str, &'a str),
    /// The encoding of the file of the stock at the beginning, `None` for UTF-8.
    pub start_encoding: Option<Encoding>,
    /// The files of movements.
    pub files: Vec<&'a str>,
    /// The encoding of the files of movements, `None` for UTF-8.
    pub encoding: Option<Encoding>,
    /// The columns of movements.
    pub columns: Columns<&'a str>,
    /// The delimiter of fields, and how numbers are written.
    pub reading: Reading,
    /// The file to which the balance is written; `None` is standard output.
    pub output: Option<&'a str>,
    /// The file to which refusals are written; `None` is standard error.
    pub refused: Option<&'a str>,
    /// Whether, if there is a refusal, only the first refusal is written, and no balance.
    pub strict: bool,
    /// When the progress of reading is reported.
    pub reports: Reports,
}

impl<'a> Settings<'a> {
    /// Returns what these arguments ask for.
    ///
    /// # Errors
    ///
    /// `Arguments` if columns have too few or too many names, `Memory` if an allocation fails.
    pub fn of(alloc: Global, given: &ArgMatches<'a>) -> Result<Settings<'a>, Trouble<'a>> {
        let columns = columns_of(alloc, value(given, "--columns"))?;
        let start_columns = start_columns_of(alloc, value(given, "--start-columns"))?;
        Ok(Settings {
            start: given.get_str("--start"),
            start_columns,
            start_encoding: encoding(given, "--start-encoding"),
            files: files_of(alloc, given)?,
            encoding: encoding(given, "--encoding"),
            columns,
            reading: Reading::named(
                value(given, "--delimiter"),
                value(given, "--scale"),
                value(given, "--mark"),
            ),
            output: given.get_str("--output"),
            refused: given.get_str("--refused"),
            strict: given.get_flag("--strict"),
            reports: reports(given),
        })
    }
}
