//! Articles that are perhaps the same, as messages name them.
use crate::matching::Row;
use hashbag_csv::alike::alike;
use hashbag_csv::article::Article;
use hashbag_csv::escaped::shown;
use std::alloc::{AllocError, Global};
use std::fmt::Write;
use std::hash::BuildHasher;

// The line after the pairs, if there are as many pairs as may be named.
const MORE: &str =
    "no more articles are named that are nearly the same; `--trim` and `--fold` compare them without white space and case";

// At most this many pairs are named.
const MOST_NAMED: usize = 10;

// Appends the fields of an article.
fn push_article(alloc: Global, line: &mut String, fields: &[String]) -> Result<(), AllocError> {
    for (place, field) in fields.iter().enumerate() {
        let before = if place > 0 { ", " } else { "" };
        write!(line, "{before}`{}`", shown(alloc, field.as_str())?)?;
    }
    Ok(())
}

/// Returns a line for each pair of articles that differ only in case, in white space at their ends, or in normal form: at most ten. After ten lines,
/// one more line says that no more articles are named.
pub fn near_articles<A: Article, S: BuildHasher + Drop>(
    alloc: Global,
    state: S,
    rows: &[Row<&A>],
) -> Result<Vec<String>, AllocError> {
    let mut articles = Vec::new(alloc);
    for row in rows {
        articles.push(row.article)?;
    }
    let mut lines = Vec::new(alloc);
    for (first, second) in alike(alloc, state, &articles, MOST_NAMED)? {
        let mut line = String::new(alloc);
        push_article(alloc, &mut line, first.texts())?;
        line.push_str(" and ")?;
        push_article(alloc, &mut line, second.texts())?;
        line.push_str(" differ only in case, white space at the ends, or normal form")?;
        lines.push(line)?;
    }
    if lines.len() == MOST_NAMED {
        lines.push(MORE.to_string(alloc)?)?;
    }
    Ok(lines)
}
