//! The rows that are written.
ghost use Rattle.std.specs.Prelude.{◌≡◌, IfOk};
ghost use Rattle.hashbag_match_lib.specs.Shown.{AreFieldsAlong, AreShownRows, is_shown, only_named};

use crate::matching::Row;
use hashbag_csv::article::Article;
use hashbag_csv::first_lines::first_fields;
use std::alloc::{AllocError, Global};
use std::collections::HashMap;
use std::hash::BuildHasher;

/// Which rows are written.
#[derive(Clone, Copy, PartialEq, Eq, Debug)]
pub enum Only {
    /// The rows of articles of which some are missing.
    Missing,
    /// The rows of articles of which there is a surplus.
    Surplus,
    /// The rows of articles whose two numbers differ.
    Differing,
    /// All rows.
    All,
}

impl Only {
    /// Returns the choice with this name: `missing`, `surplus`, `differing` or `all`. Returns `All` for any other name.
    pub fn named(name: &str) -> Only
        ensures { result ≡ only_named name.now }
    {
        match name {
            "missing" => Only::Missing,
            "surplus" => Only::Surplus,
            "differing" => Only::Differing,
            _ => Only::All,
        }
    }

    /// Returns whether the row is written.
    pub fn shows<T>(self, row: &Row<T>) -> bool
        ensures { result ≡ is_shown self row.now }
    {
        match self {
            Only::Missing => row.missing() > 0,
            Only::Surplus => row.surplus() > 0,
            Only::Differing => !row.agrees(),
            Only::All => true,
        }
    }
}

/// The fields of a row.
#[derive(Clone, Copy)]
pub struct Fields<'a> {
    /// The fields of the row's article.
    pub article: &'a [String],
    /// The carried fields of the article.
    pub carried: &'a [String],
}

// Returns the fields that are carried along with an article. No article is hashed if nothing is carried along.
fn fields_along<'f, A: Article + Drop, S: BuildHasher + Drop>(
    firsts: &'f HashMap<A, Vec<String>, S>,
    article: &A,
) -> &'f [String]
    ensures { AreFieldsAlong A.eq A.fields firsts.now article.now result.now }
{
    if firsts.is_empty() {
        return &[];
    }
    first_fields(firsts, article)
}

/// Returns the rows that are written, in the order of `rows`. Each has its article's fields, then the fields that the first line with the
/// article carries along.
///
/// # Errors
///
/// An allocation fails.
///
/// # Complexity
///
/// Copies no field. If fields are carried along, hashes once the article of each row that is written.
pub fn shown_rows<'a, A: Article + Drop, S: BuildHasher + Drop>(
    alloc: Global,
    only: Only,
    rows: &[Row<&'a A>],
    firsts: &'a HashMap<A, Vec<String>, S>,
) -> Result<Vec<Row<Fields<'a>>>, AllocError>
    // If `firsts` has exactly the articles of lines K, each with the carried fields of its first line, `shown` are the rows that `only` shows, in
    // order. Each has its article's fields, and the carried fields of the first line of K with the article.
    ensures { IfOk result (λ shown. AreShownRows A.eq A.fields firsts.now only rows.now shown.items) }
{
    let mut shown = Vec::new(alloc);
    for row in rows {
        if only.shows(row) {
            shown.push(Row {
                article: Fields {
                    article: row.article.texts(),
                    carried: fields_along(firsts, row.article),
                },
                ordered: row.ordered,
                delivered: row.delivered,
            })?;
        }
    }
    Ok(shown)
}
