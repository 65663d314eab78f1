//! The names of columns that are given as one word.
ghost use Rattle.std.specs.Prelude.{◌≡◌, IfOk, option_map, string_bytes};
ghost use Rattle.hashbag_ledger_db.specs.Readings.{extras_now, kept_extras, kept_names, no_extras, plain_names};
ghost use Rattle.hashbag_ledger_lib.specs.Movements.{names_now};

use hashbag_ledger_lib::extras::ExtraColumns;
use hashbag_ledger_lib::reading::{ChangeColumns, Columns};
use hashbag_shell::trouble::Trouble;
use std::alloc::{AllocError, Global};

// Returns the columns of two or three names with commas between them, or `None` for any other number of names.
fn split_columns(names: &str) -> Option<Columns<&str>> {
    let mut parts = names.split(',');
    let article = parts.next()?;
    let second = parts.next()?;
    let third = parts.next();
    if parts.next().is_some() {
        return None;
    }
    let change = match third {
        Some(number) => ChangeColumns::ByKind(second, number),
        None => ChangeColumns::Signed(second),
    };
    Some(Columns { article, change })
}

/// Returns the columns of movements with these names.
///
/// # Errors
///
/// `Arguments` if `names` isn't two or three names with commas between them. `Memory` if an allocation fails.
pub fn columns_of<'a>(alloc: Global, names: &'a str) -> Result<Columns<&'a str>, Trouble<'a>> {
    match split_columns(names) {
        Some(columns) => Ok(columns),
        None => {
            let what = format!(in alloc; "--columns takes two or three names: {names}")?;
            Err(Trouble::Arguments(what))
        }
    }
}

/// Returns the columns of movements in a stock that keeps none: `article` and `change`.
pub fn plain_columns() -> Columns<&'static str>
    ensures { names_now result ≡ plain_names }
{
    Columns {
        article: "article",
        change: ChangeColumns::Signed("change"),
    }
}

/// The names of the columns of movements that a stock keeps.
#[derive(Drop)]
pub struct KeptColumns {
    /// The column of articles.
    pub article: String,
    /// The column of kinds, if there is one.
    pub kind: Option<String>,
    /// The column of changes; or, if there is a column of kinds, the column of numbers.
    pub number: String,
}

impl KeptColumns {
    /// Copies the names of these columns.
    ///
    /// # Errors
    ///
    /// An allocation fails.
    pub fn copy_of(alloc: Global, columns: Columns<&str>) -> Result<KeptColumns, AllocError>
        // Each copied name equals the name that was given for the same column.
        ensures { IfOk result (λ kept. kept_names kept ≡ names_now columns.entry) }
    {
        let article = String::from_str(alloc, columns.article)?;
        match columns.change {
            ChangeColumns::Signed(change) => Ok(KeptColumns {
                article,
                kind: None,
                number: String::from_str(alloc, change)?,
            }),
            ChangeColumns::ByKind(kind, number) => Ok(KeptColumns {
                article,
                kind: Some(String::from_str(alloc, kind)?),
                number: String::from_str(alloc, number)?,
            }),
        }
    }

    /// Splits a text that a database keeps into names, and copies them. Returns `None` if the text isn't two or three names with commas between them.
    ///
    /// # Errors
    ///
    /// An allocation fails.
    pub fn named(alloc: Global, names: &str) -> Result<Option<KeptColumns>, AllocError> {
        match split_columns(names) {
            Some(columns) => Ok(Some(KeptColumns::copy_of(alloc, columns)?)),
            None => Ok(None),
        }
    }

    /// Returns the names of these columns.
    pub fn names(&self) -> Columns<&str>
        ensures { names_now result ≡ kept_names self.now }
    {
        let number = self.number.as_str();
        Columns {
            article: self.article.as_str(),
            change: match &self.kind {
                Some(kind) => ChangeColumns::ByKind(kind.as_str(), number),
                None => ChangeColumns::Signed(number),
            },
        }
    }
}

/// Returns the columns of dates and of notes in a stock that keeps none: both are `None`.
pub fn plain_extras() -> ExtraColumns<&'static str>
    ensures { extras_now result ≡ no_extras }
{
    let (date, note) = (None, None);
    ExtraColumns { date, note }
}

/// The names of the columns of dates and of notes that a stock keeps.
#[derive(Drop)]
pub struct KeptExtras {
    /// The column of dates, if there is one.
    pub date: Option<String>,
    /// The column of notes, if there is one.
    pub note: Option<String>,
}

// Returns the text, if there is one.
fn text_if(text: &Option<String>) -> Option<&str>
    ensures { option_map (λ n. n.now) result ≡ option_map string_bytes text.now }
{
    match text {
        Some(text) => Some(text.as_str()),
        None => None,
    }
}

impl KeptExtras {
    /// Returns the names of these columns.
    pub fn names(&self) -> ExtraColumns<&str>
        ensures { extras_now result ≡ kept_extras self.now }
    {
        ExtraColumns {
            date: text_if(&self.date),
            note: text_if(&self.note),
        }
    }
}

/// Returns a text of the names of these columns, with commas between them.
///
/// # Errors
///
/// An allocation fails.
pub fn columns_text(alloc: Global, columns: Columns<&str>) -> Result<String, AllocError> {
    let article = columns.article;
    match columns.change {
        ChangeColumns::Signed(change) => format!(in alloc; "{article},{change}"),
        ChangeColumns::ByKind(kind, number) => format!(in alloc; "{article},{kind},{number}"),
    }
}

/// Returns the columns of the stock at the beginning: the column of articles, and the column of numbers.
///
/// # Errors
///
/// `Arguments` if `names` isn't two names with a comma between them. `Memory` if an allocation fails.
pub fn start_columns_of<'a>(
    alloc: Global,
    names: &'a str,
) -> Result<(&'a str, &'a str), Trouble<'a>> {
    match names.split_once(',') {
        Some((article, number)) if !number.contains(',') => Ok((article, number)),
        _ => {
            let what = format!(in alloc; "--start-columns takes two names: {names}")?;
            Err(Trouble::Arguments(what))
        }
    }
}
