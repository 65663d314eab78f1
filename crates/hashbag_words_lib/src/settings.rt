//! What the arguments ask for.
use crate::choice::{Choice, Order};
use crate::lines::BadLines;
use crate::rows::RowForm;
use crate::rule::Separator;
use crate::shards::Shard;
use crate::writing::Format;
use clap::ArgMatches;
use hashbag_csv::delimiter::Delimiter;
use hashbag_shell::options::{encoding, reports};
use hashbag_shell::progress::Reports;
use hashbag_shell::trouble::Trouble;
use hashbag_text::encoding::Encoding;
use std::alloc::Global;

/// What is counted.
#[derive(Clone, Copy, Debug, PartialEq, Eq)]
pub enum By<'a> {
    /// The words between white space.
    Words,
    /// The words by Unicode's rules.
    UnicodeWords,
    /// Whole lines.
    Lines,
    /// What the group with this number has in each match of this pattern; 0 is the whole match.
    Pattern(&'a str, usize),
    /// The field with this index, from 0.
    Field(usize, Separator),
    /// The field of the column of this name in each record of CSV, with this delimiter.
    Column(&'a str, Delimiter),
}

/// How text is counted.
#[derive(Clone, Copy)]
pub struct Tokens<'a> {
    /// What is counted.
    pub by: By<'a>,
    /// Whether upper and lower case are counted as one.
    pub fold: bool,
    /// Whether bytes of a text that aren't UTF-8 are replaced.
    pub lossy: bool,
    /// The encoding of text, `None` for UTF-8.
    pub encoding: Option<Encoding>,
}

/// Any number of inputs.
#[derive(Clone, Copy)]
pub struct ManyInputs<'a, 'm> {
    /// The names of the inputs; `None` is standard input.
    pub files: Option<&'m [&'a str]>,
    /// The file that has the names of the inputs, if there is one.
    pub files_from: Option<&'a str>,
    /// Whether each name in `files_from` ends in a NUL byte, and not in a line feed.
    pub null: bool,
    /// Whether a name may be a folder, whose files are then inputs.
    pub recursive: bool,
}

/// Two files of counts.
#[derive(Clone, Copy)]
pub struct Pair<'a> {
    /// The name of the first file.
    pub first: &'a str,
    /// The name of the second file.
    pub second: &'a str,
    /// The form of the lines of both files.
    pub rows: RowForm,
}

/// A job of the program, with the settings that only this job has.
#[derive(Clone, Copy)]
pub enum Ask<'a, 'm> {
    /// Counts text.
    Count(Tokens<'a>, ManyInputs<'a, 'm>),
    /// Writes each token of text as a line.
    Tokens(Tokens<'a>, ManyInputs<'a, 'm>),
    /// Adds up files of counts, whose lines have this form.
    Merge(RowForm, ManyInputs<'a, 'm>),
    /// Adds up neighbouring rows of the one text of this name, whose lines are in order, as they come.
    MergeSorted(&'a str),
    /// Subtracts the counts of the second file from those of the first.
    Less(Pair<'a>),
    /// Finds the lesser counts of two files.
    Common(Pair<'a>),
}

impl<'a, 'm> Ask<'a, 'm> {
    /// Returns the inputs of a job that has any number of them.
    pub fn many(&self) -> Option<ManyInputs<'a, 'm>> {
        match self {
            Ask::Count(_, many) | Ask::Tokens(_, many) => Some(*many),
            Ask::Merge(_, many) => Some(*many),
            Ask::MergeSorted(_) | Ask::Less(_) | Ask::Common(_) => None,
        }
    }

    /// Returns how text is counted, if the job reads text.
    pub fn tokens(&self) -> Option<Tokens<'a>> {
        match self {
            Ask::Count(tokens, _) | Ask::Tokens(tokens, _) => Some(*tokens),
            Ask::Merge(..) | Ask::MergeSorted(_) | Ask::Less(_) | Ask::Common(_) => None,
        }
    }

    /// Returns whether upper and lower case are counted as one.
    pub fn folds(&self) -> bool {
        self.tokens().is_some_and(|tokens| tokens.fold)
    }

    /// Returns whether a name may be a folder, whose files are then inputs.
    pub fn is_recursive(&self) -> bool {
        self.many().is_some_and(|many| many.recursive)
    }

    /// Returns the encoding of the inputs, `None` for UTF-8.
    pub fn encoding(&self) -> Option<Encoding> {
        self.tokens()?.encoding
    }

    /// Returns the file that has the names of the inputs, if there is one.
    pub fn files_from(&self) -> Option<&'a str> {
        self.many()?.files_from
    }
}

/// What the arguments ask for.
#[derive(Clone, Copy)]
pub struct Settings<'a, 'm> {
    /// The job.
    pub ask: Ask<'a, 'm>,
    /// Whether a bad line is an error or is skipped.
    pub bad_lines: BadLines,
    /// When progress is reported.
    pub reports: Reports,
    /// Which counts are shown, and in what order. The caller sets `choice.except` after it has read the file `except`.
    pub choice: Choice<'m>,
    /// The file that has the tokens that aren't shown, if there is one.
    pub except: Option<&'a str>,
    /// How counts are written, apart from shares.
    pub format: Format,
    /// Whether the share of each count in the total is written too.
    pub share: bool,
    /// Whether rows have bars, for people at a terminal. Then `format` isn't used.
    pub bars: bool,
    /// The file to which counts are written; `None` is standard output.
    pub output: Option<&'a str>,
    /// Whether the status is 1 if nothing is shown.
    pub fail_empty: bool,
}

// Returns the one ASCII character of a text, the tab for `tab` or `\t`, or `None` for any other text.
fn delimiter_named(text: &str) -> Option<char> {
    if text == "\\t" || text == "tab" {
        return Some('\t');
    }
    let mut chars = text.chars();
    match (chars.next(), chars.next()) {
        (Some(c), None) if c.is_ascii() => Some(c),
        _ => None,
    }
}

// Returns the separator of fields.
fn separator_of<'a>(alloc: Global, given: &ArgMatches<'a>) -> Result<Separator, Trouble<'a>> {
    let Some(text) = given.get_str("--delimiter") else {
        return Ok(Separator::Blanks);
    };
    match delimiter_named(text) {
        Some(c) => Ok(Separator::Char(c)),
        None => {
            let what = format!(in alloc;
                "--delimiter: {text}: neither one ASCII character nor tab"
            )?;
            Err(Trouble::Arguments(what))
        }
    }
}

// Returns the delimiter of CSV.
fn csv_delimiter_of<'a>(alloc: Global, given: &ArgMatches<'a>) -> Result<Delimiter, Trouble<'a>> {
    let Some(text) = given.get_str("--delimiter") else {
        return Ok(Delimiter::Comma);
    };
    match delimiter_named(text) {
        Some(',') => Ok(Delimiter::Comma),
        Some(';') => Ok(Delimiter::Semicolon),
        Some('\t') => Ok(Delimiter::Tab),
        _ => {
            let what = format!(in alloc;
                "--delimiter: {text}: none of , ; and tab, as --column needs"
            )?;
            Err(Trouble::Arguments(what))
        }
    }
}

// Returns `By::Field` for the field with this number. The first field has the number 1.
fn field_of<'a>(
    alloc: Global,
    given: &ArgMatches<'a>,
    number: usize,
) -> Result<By<'a>, Trouble<'a>> {
    match number.checked_sub(1) {
        Some(index) => Ok(By::Field(index, separator_of(alloc, given)?)),
        None => {
            let what = format!(in alloc; "--field: 0: the first field is 1")?;
            Err(Trouble::Arguments(what))
        }
    }
}

// Returns what is counted.
fn by_of<'a>(alloc: Global, given: &ArgMatches<'a>) -> Result<By<'a>, Trouble<'a>> {
    if let Some(pattern) = given.get_str("--pattern") {
        return Ok(By::Pattern(pattern, given.get_one::<usize>("--group").unwrap_or(0)));
    }
    if let Some(number) = given.get_one::<usize>("--field") {
        return field_of(alloc, given, number);
    }
    if let Some(name) = given.get_str("--column") {
        return Ok(By::Column(name, csv_delimiter_of(alloc, given)?));
    }
    Ok(match given.get_str("--by") {
        Some("unicode") => By::UnicodeWords,
        Some("lines") => By::Lines,
        _ => By::Words,
    })
}

fn order_of(given: &ArgMatches<'_>) -> Order {
    match given.get_one::<usize>("--top") {
        Some(k) => Order::MostCommon(k),
        None => Order::Ascending,
    }
}

// Returns the shard that is written as this text.
fn shard_of<'a>(alloc: Global, text: &str) -> Result<Shard, Trouble<'a>> {
    match Shard::of_text(text) {
        Some(shard) => Ok(shard),
        None => {
            let what = format!(in alloc; "--shard: {text}: not I/N with I from 1 to N")?;
            Err(Trouble::Arguments(what))
        }
    }
}

// Returns which counts are shown, and in what order.
fn choice_of<'a, 'e>(alloc: Global, given: &ArgMatches<'a>) -> Result<Choice<'e>, Trouble<'a>> {
    let shard = match given.get_str("--shard") {
        Some(text) => Some(shard_of(alloc, text)?),
        None => None,
    };
    Ok(Choice {
        order: order_of(given),
        least: given.get_one::<usize>("--least").unwrap_or(0),
        shard,
        except: None,
    })
}

fn format_of(given: &ArgMatches<'_>) -> Format {
    match given.get_str("--to") {
        Some("json") => Format::Json,
        Some("uniq") => Format::Uniq,
        _ => Format::Tsv,
    }
}

// Returns whether this option is given. The option adds a column to the output, and only the form `tsv` may have one.
fn adds_column<'a>(alloc: Global, given: &ArgMatches<'a>, name: &str) -> Result<bool, Trouble<'a>> {
    match given.get_str("--to") {
        Some(form) if form != "tsv" && given.get_flag(name) => {
            let what = format!(in alloc;
                "{name}: {form} has no column for it; leave out --to {form}"
            )?;
            Err(Trouble::Arguments(what))
        }
        _ => Ok(given.get_flag(name)),
    }
}

// Returns the form of the counts that are read.
fn rows_of(given: &ArgMatches<'_>) -> RowForm {
    match given.get_str("--from") {
        Some("uniq") => RowForm::Uniq,
        _ => RowForm::Tsv,
    }
}

fn tokens_of<'a>(alloc: Global, given: &ArgMatches<'a>) -> Result<Tokens<'a>, Trouble<'a>> {
    Ok(Tokens {
        by: by_of(alloc, given)?,
        fold: given.get_flag("--fold"),
        lossy: given.get_flag("--lossy"),
        encoding: encoding(given, "--encoding"),
    })
}

fn many_of<'a, 'm>(given: &'m ArgMatches<'a>) -> ManyInputs<'a, 'm> {
    ManyInputs {
        files: given.get_strs("files"),
        files_from: given.get_str("--files-from"),
        null: given.get_flag("--null"),
        recursive: given.get_flag("--recursive"),
    }
}

fn pair_of<'a>(given: &ArgMatches<'a>) -> Pair<'a> {
    Pair {
        first: given.get_str("first").unwrap_or("-"),
        second: given.get_str("second").unwrap_or("-"),
        rows: rows_of(given),
    }
}

// Returns the name of the one text that is named; without a name, that of standard input.
fn one_of<'a>(alloc: Global, given: &ArgMatches<'a>) -> Result<&'a str, Trouble<'a>> {
    match given.get_strs("files") {
        None => Ok("-"),
        Some([name]) => Ok(*name),
        Some(_) => {
            let what = format!(in alloc;
                "--sorted: one text; `LC_ALL=C sort -m FILE.. | hashbag_words merge --sorted` merges files"
            )?;
            Err(Trouble::Arguments(what))
        }
    }
}

// Returns the job of this name with its settings.
fn ask_of<'a, 'm>(
    alloc: Global,
    name: &str,
    given: &'m ArgMatches<'a>,
) -> Result<Ask<'a, 'm>, Trouble<'a>> {
    match name {
        "tokens" => Ok(Ask::Tokens(tokens_of(alloc, given)?, many_of(given))),
        "merge" if given.get_flag("--sorted") => Ok(Ask::MergeSorted(one_of(alloc, given)?)),
        "merge" => Ok(Ask::Merge(rows_of(given), many_of(given))),
        "less" => Ok(Ask::Less(pair_of(given))),
        "common" => Ok(Ask::Common(pair_of(given))),
        _ => Ok(Ask::Count(tokens_of(alloc, given)?, many_of(given))),
    }
}

impl<'a, 'm> Settings<'a, 'm> {
    /// Returns the settings of the job `name` with these arguments. Opens no file.
    ///
    /// # Errors
    ///
    /// `Arguments` if the value of `--shard`, `--field` or `--delimiter` has no meaning, if more than one sorted text is named,
    /// or if shares or bars are asked for in another form than `tsv`. `Memory` if an allocation fails.
    pub fn of(
        alloc: Global,
        name: &str,
        given: &'m ArgMatches<'a>,
    ) -> Result<Settings<'a, 'm>, Trouble<'a>> {
        let bad_lines = if given.get_flag("--skip-bad") {
            BadLines::Skipped
        } else {
            BadLines::Rejected
        };
        Ok(Settings {
            ask: ask_of(alloc, name, given)?,
            bad_lines,
            reports: reports(given),
            choice: choice_of(alloc, given)?,
            except: given.get_str("--except"),
            format: format_of(given),
            share: adds_column(alloc, given, "--share")?,
            bars: adds_column(alloc, given, "--bars")?,
            output: given.get_str("--output"),
            fail_empty: given.get_flag("--fail-empty"),
        })
    }
}
