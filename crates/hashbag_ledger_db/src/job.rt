//! What is asked of a database, by a subcommand's arguments.
ghost use Rattle.std.specs.Prelude.{◌≡◌};
ghost use Rattle.hashbag_ledger_db.specs.Readings.{asked_style, encoding_of, extras_by, extras_now, names_by, style_by, IsReadingOf};
ghost use Rattle.hashbag_ledger_lib.specs.Movements.{names_now};

use crate::columns::{columns_of, plain_columns, start_columns_of};
use clap::ArgMatches;
use hashbag_csv::counts::Reading;
use hashbag_csv::delimiter::Delimiter;
use hashbag_csv::forms::Form;
use hashbag_csv::scale::{Mark, Scale};
use hashbag_ledger_lib::date_forms::DateForm;
use hashbag_ledger_lib::extras::ExtraColumns;
use hashbag_ledger_lib::numbers::MOST;
use hashbag_ledger_lib::reading::Columns;
use hashbag_ledger_lib::style::Style;
use hashbag_shell::options::{encoding, reports, word};
use hashbag_shell::progress::Reports;
use hashbag_shell::table::value;
use hashbag_shell::trouble::Trouble;
use hashbag_text::encoding::Encoding;
use std::alloc::{AllocError, Global};

/// What a subcommand is asked to do.
#[derive(Drop)]
pub struct Job<'a> {
    /// The file of the database.
    pub db: &'a str,
    /// For how many seconds to wait while the database is in use.
    pub wait: usize,
    /// The files of movements.
    pub files: Vec<&'a str>,
    /// The file of the stock at the beginning.
    pub from: Option<&'a str>,
    /// The columns of articles and of numbers of the stock at the beginning, or of what was counted.
    pub start_columns: (&'a str, &'a str),
    /// The encoding of the file of the stock at the beginning, `None` for UTF-8.
    pub start_encoding: Option<Encoding>,
    /// The encoding of movements, or of what was counted, `None` for UTF-8.
    pub encoding: Option<Encoding>,
    /// The columns of movements, if they are named.
    pub columns: Option<Columns<&'a str>>,
    /// The columns of dates and of notes, each `None` if it isn't named, and `Some(None)` if the arguments say that there is none.
    pub extras: ExtraColumns<Option<&'a str>>,
    /// How the column of dates has its dates.
    pub date_form: DateForm,
    /// The date of the movement that is typed, or of the count, if one is named.
    pub on: Option<&'a str>,
    /// The date of the movements of the stock at the beginning, if one is named.
    pub from_on: Option<&'a str>,
    /// The day of the balance, if one is named.
    pub at: Option<&'a str>,
    /// The scale, if one is named.
    pub scale: Option<u32>,
    /// The mark before decimals, if it is named.
    pub mark: Option<Mark>,
    /// The delimiter of fields, if it is named.
    pub delimiter: Option<Delimiter>,
    /// The file to which refusals are written; `None` is standard error.
    pub refused: Option<&'a str>,
    /// The file to which a table is written; `None` is standard output.
    pub output: Option<&'a str>,
    /// Whether nothing is entered if there is a refusal.
    pub strict: bool,
    /// Whether a file that was entered before is entered again.
    pub enters_again: bool,
    /// How a balance is written.
    pub form: Form,
    /// The file of what was counted.
    pub counted: &'a str,
    /// Whether an article is counted as 0 if the file of what was counted doesn't name it.
    pub counts_all: bool,
    /// The articles that are asked for.
    pub articles: Vec<&'a str>,
    /// The quantity of the movement that is typed, as it was typed.
    pub quantity: &'a str,
    /// The number of the batch that is asked for, or the name of its file.
    pub wanted_batch: Option<&'a str>,
    /// Whether the last batch is asked for.
    pub last: bool,
    /// Whether no message says what was done.
    pub quiet: bool,
    /// When the progress of reading is reported.
    pub reports: Reports,
    /// The file of the new database.
    pub into: &'a str,
}

// The columns of articles and of numbers for a subcommand without the option that names them.
const START_COLUMNS: &str = "article,number";

// Returns the words of the argument `name`, which is a list.
fn words_of<'a>(
    alloc: Global,
    given: &ArgMatches<'a>,
    name: &str,
) -> Result<Vec<&'a str>, AllocError> {
    let mut words = Vec::new(alloc);
    for word in given.get_strs(name).unwrap_or(&[]) {
        words.push(*word)?;
    }
    Ok(words)
}

// Returns the files of movements: standard input if neither a file nor a stock at the beginning is named.
pub(crate) fn files_of<'a>(
    alloc: Global,
    given: &ArgMatches<'a>,
) -> Result<Vec<&'a str>, AllocError> {
    let mut files = words_of(alloc, given, "MOVES.csv")?;
    if files.is_empty() && given.get_str("--from").is_none() {
        files.push("-")?;
    }
    Ok(files)
}

// Returns the mark before decimals, if it is named.
fn mark_of(given: &ArgMatches<'_>) -> Option<Mark> {
    match given.get_str("--mark") {
        Some(",") => Some(Mark::Comma),
        Some(_) => Some(Mark::Point),
        None => None,
    }
}

// Returns what an option says of a column: `None` if the option isn't given, `Some(None)` (no column) if its word is empty, else the name of the
// column.
fn extra_of<'a>(given: &ArgMatches<'a>, option: &str) -> Option<Option<&'a str>> {
    match given.get_str(option) {
        Some("") => Some(None),
        Some(name) => Some(Some(name)),
        None => None,
    }
}

// Returns the columns of dates and of notes that are named.
fn extras_of<'a>(given: &ArgMatches<'a>) -> ExtraColumns<Option<&'a str>> {
    ExtraColumns {
        date: extra_of(given, "--date"),
        note: extra_of(given, "--note"),
    }
}

impl<'a> Job<'a> {
    /// Returns what these arguments ask for.
    ///
    /// # Errors
    ///
    /// `Arguments` if columns have too few or too many names, `Memory` if an allocation fails.
    pub fn of(alloc: Global, given: &ArgMatches<'a>) -> Result<Job<'a>, Trouble<'a>> {
        let columns = match given.get_str("--columns") {
            Some(names) => Some(columns_of(alloc, names)?),
            None => None,
        };
        let start_columns = start_columns_of(alloc, word(given, "--start-columns", START_COLUMNS))?;
        Ok(Job {
            db: value(given, "--db"),
            wait: given.get_one::<usize>("--wait").unwrap_or(0),
            files: files_of(alloc, given)?,
            from: given.get_str("--from"),
            start_columns,
            start_encoding: encoding(given, "--start-encoding"),
            encoding: encoding(given, "--encoding"),
            columns,
            extras: extras_of(given),
            date_form: DateForm::named(value(given, "--date-form")),
            on: given.get_str("--on"),
            from_on: given.get_str("--from-on"),
            at: given.get_str("--at"),
            scale: given
                .get_str("--scale")
                .and_then(|digits| digits.parse().ok()),
            mark: mark_of(given),
            delimiter: given
                .get_str("--delimiter")
                .map(|name| Delimiter::named(name)),
            refused: given.get_str("--refused"),
            output: given.get_str("--output"),
            strict: given.get_flag("--strict"),
            enters_again: given.get_flag("--again"),
            form: Form::named(value(given, "--to")),
            counted: given.get_str("COUNTED.csv").unwrap_or("-"),
            counts_all: given.get_flag("--all"),
            articles: words_of(alloc, given, "ARTICLE")?,
            quantity: value(given, "NUMBER"),
            wanted_batch: given.get_str("BATCH"),
            last: given.get_flag("--last"),
            quiet: given.get_flag("--quiet"),
            reports: reports(given),
            into: value(given, "--into"),
        })
    }

    /// Returns the encoding of the stock at the beginning, or of movements.
    pub fn encoding_of(&self, is_start: bool) -> Option<Encoding>
        ensures { result ≡ encoding_of self.now is_start }
    {
        if is_start {
            return self.start_encoding;
        }
        self.encoding
    }

    /// Returns the job for a movement that is typed: its text has the columns `article` and `change`, and commas between fields.
    pub fn typed(self) -> Job<'a> {
        let mut job = self;
        job.columns = Some(plain_columns());
        job.extras = ExtraColumns {
            date: Some(None),
            note: Some(None),
        };
        job.delimiter = Some(Delimiter::Comma);
        job
    }

    /// Returns the style that a new stock keeps at first: as many decimals as are named, or none.
    pub fn asked_style(&self) -> Style
        ensures { result ≡ asked_style self.now }
    {
        Style::plain(self.scale.unwrap_or(0))
    }

    /// Returns how files are written: by the named mark, else the mark of `kept`; and by the named delimiter, else the delimiter of `kept`.
    pub fn style(&self, kept: Style) -> Style
        ensures { result ≡ style_by self.now kept }
    {
        Style {
            scale: kept.scale,
            mark: self.mark.unwrap_or(kept.mark),
            delimiter: self.delimiter.unwrap_or(kept.delimiter),
        }
    }

    /// Returns how texts are read and written if a stock keeps `kept`. A number is at most the greatest number of a database.
    pub fn reading(&self, kept: Style) -> Reading
        ensures { IsReadingOf self.now kept result }
    {
        let style = self.style(kept);
        Reading {
            delimiter: style.delimiter,
            scale: Scale::new(style.scale, style.mark)
                .unwrap_or(Scale::whole())
                .at_most(MOST),
        }
    }

    /// Returns the names of the columns of movements: the names that the job has, else `kept`.
    pub fn columns_or<'k>(&'k self, kept: Columns<&'k str>) -> Columns<&'k str>
        ensures { names_now result ≡ names_by self.entry.now (names_now kept.entry) }
    {
        match self.columns {
            Some(columns) => columns,
            None => kept,
        }
    }

    /// Returns the names of the columns of dates and of notes: for each column the name that the job has, else the name in `kept`. The job may
    /// say that there is no such column.
    pub fn extras_or<'k>(&'k self, kept: ExtraColumns<&'k str>) -> ExtraColumns<&'k str>
        ensures { extras_now result ≡ extras_by self.entry.now (extras_now kept.entry) }
    {
        ExtraColumns {
            date: match self.extras.date {
                Some(date) => date,
                None => kept.date,
            },
            note: match self.extras.note {
                Some(note) => note,
                None => kept.note,
            },
        }
    }
}
