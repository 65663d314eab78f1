//! What is asked for: how two lists are read, and which of their rows are written, and how.
use crate::keys::{names_in, repeated};
use crate::output::is_reserved;
use crate::shown::Only;
use hashbag_csv::counts::Reading;
use hashbag_csv::escaped::Escaped;
use hashbag_csv::forms::Form;
use hashbag_csv::groups::GroupMark;
use hashbag_csv::line_form::LineForm;
use std::alloc::{AllocError, Global};
use thiserror::Error;

/// The columns of a list, by their names, and how its fields and numbers are written.
#[derive(Drop)]
pub struct Columns<'a> {
    /// The names of the key columns, which have the fields of an article.
    pub keys: Vec<&'a str>,
    /// The name of the column of numbers, or `None` if each line counts as one.
    pub number: Option<&'a str>,
    /// What is between fields, and how numbers are written. The numbers of both lists of an [`Ask`] have the same number of decimals.
    pub reading: Reading,
}

impl<'a> Columns<'a> {
    /// Returns the columns of these names. `keys` has the names of the key columns, with commas between them.
    pub fn named(
        alloc: Global,
        keys: &'a str,
        number: Option<&'a str>,
        reading: Reading,
    ) -> Result<Columns<'a>, AllocError> {
        Ok(Columns {
            keys: names_in(alloc, keys)?,
            number,
            reading,
        })
    }
}

/// What is asked for.
#[derive(Drop)]
pub struct Ask<'a> {
    /// The columns of what was ordered. The output has the names of these key columns, and the scale and the delimiter of this list.
    pub ordered: Columns<'a>,
    /// The columns of what was delivered.
    pub delivered: Columns<'a>,
    /// How the lines of both lists are read.
    pub line_form: LineForm,
    /// The columns whose fields are carried along with an article, by their names. The text of what was delivered may lack some.
    pub carried: Vec<&'a str>,
    /// Which rows are written.
    pub only: Only,
    /// How the rows are written.
    pub form: Form,
    /// At most this many bad lines of a file are named.
    pub max_errors: usize,
    /// Whether articles that are perhaps the same (`alike`) are left out of the messages.
    pub quiet: bool,
}

/// Why what is asked for doesn't fit together.
#[derive(Clone, Copy, Debug, Error)]
pub enum BadAsk<'a> {
    /// A key column is named twice.
    #[error("key column `{}` is named twice", Escaped(.0))]
    Twice(&'a str),
    /// A key column has the name of a column of numbers of the output.
    #[error("a key column can't have the name `{0}`, which is a column of the output")]
    Reserved(&'a str),
    /// A column that is carried along is named twice, or is a key column.
    #[error("carried column `{}` is named twice, or is a key column", Escaped(.0))]
    Carried(&'a str),
    /// A column that is carried along has the name of a column of numbers of the output.
    #[error("a carried column can't have the name `{0}`, which is a column of the output")]
    ReservedCarried(&'a str),
    /// The lists have a different number of key columns.
    #[error("--key and --delivered-key name a different number of columns")]
    Unequal,
    /// The mark between groups of digits is also the mark before decimals.
    #[error("--group-mark is the mark before decimals")]
    GroupsAsDecimals,
    /// The mark between groups of digits is also the delimiter of fields.
    #[error("--group-mark is the delimiter")]
    GroupsAsFields,
}

// Returns an error if a key column is named twice.
fn repeated_key<'a>(columns: &Columns<'a>) -> Result<(), BadAsk<'a>> {
    match repeated(&columns.keys) {
        Some(name) => Err(BadAsk::Twice(name)),
        None => Ok(()),
    }
}

// Returns an error if a column that is carried along would be twice in the output.
fn carried_once<'a>(carried: &Vec<&'a str>, keys: &Vec<&'a str>) -> Result<(), BadAsk<'a>> {
    if let Some(name) = repeated(carried) {
        return Err(BadAsk::Carried(name));
    }
    for name in carried {
        if keys.iter().any(|key| *key == *name) {
            return Err(BadAsk::Carried(*name));
        }
        if is_reserved(*name) {
            return Err(BadAsk::ReservedCarried(*name));
        }
    }
    Ok(())
}

// Returns an error if the mark between groups of digits is also the mark before decimals or the delimiter.
fn other_mark<'a>(group: GroupMark, reading: Reading) -> Result<(), BadAsk<'a>> {
    if char::from(group.byte()) == reading.scale.mark.character() {
        return Err(BadAsk::GroupsAsDecimals);
    }
    if group.byte() == reading.delimiter.byte() {
        return Err(BadAsk::GroupsAsFields);
    }
    Ok(())
}

impl<'a> Ask<'a> {
    /// Returns `Ok` if the columns fit, and the mark between groups of digits has no other meaning.
    pub fn fits(&self) -> Result<(), BadAsk<'a>> {
        repeated_key(&self.ordered)?;
        repeated_key(&self.delivered)?;
        for name in &self.ordered.keys {
            if is_reserved(*name) {
                return Err(BadAsk::Reserved(*name));
            }
        }
        if self.ordered.keys.len() != self.delivered.keys.len() {
            return Err(BadAsk::Unequal);
        }
        carried_once(&self.carried, &self.ordered.keys)?;
        match self.line_form.number.group {
            Some(group) => {
                other_mark(group, self.ordered.reading)?;
                other_mark(group, self.delivered.reading)
            }
            None => Ok(()),
        }
    }
}
