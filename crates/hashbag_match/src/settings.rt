//! The words of the command line as values.
use clap::ArgMatches;
use hashbag_csv::counts::Reading;
use hashbag_csv::forms::Form;
use hashbag_csv::groups::GroupMark;
use hashbag_csv::key_form::KeyForm;
use hashbag_csv::line_form::LineForm;
use hashbag_csv::number_form::NumberForm;
use hashbag_match_lib::ask::{Ask, Columns};
use hashbag_match_lib::files::TwoFiles;
use hashbag_match_lib::keys::names_in;
use hashbag_match_lib::shown::Only;
use hashbag_shell::one_file::is_one_file;
use hashbag_shell::options::{encoding, reports, word};
use hashbag_shell::progress::Reports;
use hashbag_shell::table::value;
use hashbag_shell::trouble::Trouble;
use hashbag_text::encoding::Encoding;
use std::alloc::{AllocError, Global};
use std::rt::Files;

/// The files, and what is asked of them.
#[derive(Drop)]
pub struct Settings<'a> {
    /// The two files.
    pub files: TwoFiles<'a>,
    /// The file that is written, or standard output.
    pub output: Option<&'a str>,
    /// When progress is reported.
    pub reports: Reports,
    /// What is asked for.
    pub ask: Ask<'a>,
}

// Returns how many bad lines are named at most. On the command line 0 means all.
fn max_errors_of(given: &ArgMatches<'_>) -> usize {
    match given.get_one::<usize>("--max-errors") {
        Some(0) | None => usize::MAX,
        Some(number) => number,
    }
}

// Returns `name`, the name of the column of numbers, or `None` if each line counts as one.
fn number_column<'a>(given: &ArgMatches<'a>, name: &'a str) -> Option<&'a str> {
    if given.get_flag("--each-line") {
        return None;
    }
    Some(name)
}

// Returns how lines are read.
fn line_form_of(given: &ArgMatches<'_>) -> LineForm {
    LineForm {
        key: KeyForm {
            trim: given.get_flag("--trim"),
            fold: given.get_flag("--fold"),
        },
        number: NumberForm {
            blank_is_zero: given.get_flag("--blank-is-zero"),
            group: GroupMark::named(value(given, "--group-mark")),
        },
        allows_short: false,
        no_header: given.get_flag("--no-header"),
    }
}

// Returns what the words ask for.
fn ask_of<'a>(alloc: Global, given: &ArgMatches<'a>) -> Result<Ask<'a>, AllocError> {
    let line_form = line_form_of(given);
    let (key, number) = if line_form.no_header {
        ("1", "2")
    } else {
        ("article", "number")
    };
    let key = word(given, "--key", key);
    let number = word(given, "--number", number);
    let delimiter = value(given, "--delimiter");
    let (decimals, mark) = (value(given, "--scale"), value(given, "--mark"));
    Ok(Ask {
        ordered: Columns::named(
            alloc,
            key,
            number_column(given, number),
            Reading::named(delimiter, decimals, mark),
        )?,
        delivered: Columns::named(
            alloc,
            word(given, "--delivered-key", key),
            number_column(given, word(given, "--delivered-number", number)),
            Reading::named(
                word(given, "--delivered-delimiter", delimiter),
                decimals,
                word(given, "--delivered-mark", mark),
            ),
        )?,
        line_form,
        carried: match given.get_str("--carry") {
            Some(names) => names_in(alloc, names)?,
            None => Vec::new(alloc),
        },
        only: Only::named(value(given, "--only")),
        form: Form::named(value(given, "--to")),
        max_errors: max_errors_of(given),
        quiet: given.get_flag("--quiet"),
    })
}

// Returns the encodings of the two files.
fn encodings_of(given: &ArgMatches<'_>) -> (Option<Encoding>, Option<Encoding>) {
    let ordered = encoding(given, "--encoding");
    let delivered = match given.get_str("--delivered-encoding") {
        Some(name) => Encoding::named(name),
        None => ordered,
    };
    (ordered, delivered)
}

impl<'a> Settings<'a> {
    /// Returns the settings that the words of the command line give.
    ///
    /// # Errors
    ///
    /// `Arguments` if the words don't fit together, `Memory` if an allocation fails.
    pub fn of<R: Files + AllocGlobal>(
        rt: &R,
        given: &ArgMatches<'a>,
    ) -> Result<Settings<'a>, Trouble<'a>> {
        let settings = Settings {
            files: TwoFiles {
                ordered: given.get_str("ORDERED.csv").unwrap_or("-"),
                delivered: given.get_str("DELIVERED.csv").unwrap_or("-"),
                encodings: encodings_of(given),
            },
            output: given.get_str("--output"),
            reports: reports(given),
            ask: ask_of(rt.alloc(), given)?,
        };
        settings.check(rt)?;
        Ok(settings)
    }

    // Returns an error if the words don't fit together.
    fn check<R: Files + AllocGlobal>(&self, rt: &R) -> Result<(), Trouble<'a>> {
        let alloc = rt.alloc();
        let TwoFiles {
            ordered,
            delivered,
            ..
        } = self.files;
        if ordered == "-" && delivered == "-" {
            return Err(Trouble::Arguments(format!(in alloc; "both files are standard input")?));
        }
        if let Err(bad) = self.ask.fits() {
            return Err(Trouble::Arguments(format!(in alloc; "{bad}")?));
        }
        if let Some(file) = self.output
            && (is_one_file(rt, ordered, file) || is_one_file(rt, delivered, file))
        {
            return Err(Trouble::Arguments(format!(in alloc; "the output is one of the inputs")?));
        }
        Ok(())
    }
}
