//! The messages for standard error: what was done, and what isn't there.
use hashbag_csv::escaped::Escaped;
use hashbag_csv::scale::Scale;
use hashbag_ledger_lib::listings::refusals_text;
use hashbag_ledger_lib::movements::{Change, Entry, Outcome, Refusal};
use hashbag_ledger_lib::once::Batch;
use hashbag_shell::tips::Nearest;
use std::alloc::{AllocError, Global};
use std::fmt::Write;
use std::slice;

/// The name of the program, with which its messages on standard error begin.
pub const PROGRAM: &str = "hashbag_ledger";

// If a database has this many movements or more, a new one is suggested. Opening a database of this size takes about a second.
const MANY: u64 = 1_000_000;

// If more new articles than this are counted, no message names them.
const NEW: usize = 10;

// Returns the ending of a noun behind this number.
fn ending(count: u64) -> &'static str {
    if count == 1 { "" } else { "s" }
}

/// Returns how many movements batches have.
pub fn movements_in(batches: &[Batch]) -> u64 {
    let mut all: u64 = 0;
    for batch in batches {
        all = all.saturating_add(batch.movements);
    }
    all
}

// Appends the line of a batch.
fn push_batch(text: &mut String, batch: &Batch) -> Result<(), AllocError> {
    let (movements, refused) = (batch.movements, batch.refused);
    let (file, number, s) = (batch.file.as_str(), batch.number, ending(movements));
    write!(text, "{file}: batch {number}, {movements} movement{s}")?;
    if let Some(other) = batch.undoes {
        write!(text, ", the opposites of batch {other}")?;
    }
    if refused > 0 {
        write!(text, ", {refused} refused")?;
    }
    text.push('\n')
}

/// Returns a line for each batch that is entered. `before` is how many movements the database had. If it then has a million movements or more, a
/// last line says that each subcommand reads all of them.
///
/// # Errors
///
/// An allocation fails.
pub fn entered_text(
    alloc: Global,
    db: &str,
    before: u64,
    batches: &[Batch],
) -> Result<String, AllocError> {
    let mut text = String::new(alloc);
    for batch in batches {
        push_batch(&mut text, batch)?;
    }
    let all = before.saturating_add(movements_in(batches));
    if all >= MANY {
        writeln!(
            text,
            "{PROGRAM}: {db}: {all} movements, which each call reads: `close` begins a new database with the balance"
        )?;
    }
    Ok(text)
}

// Returns the article of a balance whose name is nearest to this one, if a name is near.
fn near_to<'b>(
    alloc: Global,
    balance: &[(&'b str, Change)],
    article: &str,
) -> Result<Option<&'b str>, AllocError> {
    let mut nearest = Nearest::new(article);
    for entry in balance {
        nearest.offer(alloc, entry.0)?;
    }
    Ok(nearest.name())
}

// Appends an article of the balance whose name is near to this one, if there is one, and ends the line.
fn end_with_near(
    alloc: Global,
    text: &mut String,
    balance: &[(&str, Change)],
    article: &str,
) -> Result<(), AllocError> {
    match near_to(alloc, balance, article)? {
        Some(near) => writeln!(text, "; is it \"{}\"?", Escaped(near)),
        None => text.push('\n'),
    }
}

/// Returns the message that an article has no movement. It names an article of the balance whose name is near, if there is one.
///
/// # Errors
///
/// An allocation fails.
pub fn unmoved_text(
    alloc: Global,
    db: &str,
    balance: &[(&str, Change)],
    article: &str,
) -> Result<String, AllocError> {
    let mut text = String::new(alloc);
    write!(
        text,
        "{PROGRAM}: {db}: no movement of \"{}\"",
        Escaped(article)
    )?;
    end_with_near(alloc, &mut text, balance, article)?;
    Ok(text)
}

/// Returns a line for each of these articles that isn't in the balance. It names an article of the balance whose name is near, if there is one.
///
/// # Errors
///
/// An allocation fails.
pub fn absent_text(
    alloc: Global,
    db: &str,
    balance: &[(&str, Change)],
    articles: &[&str],
) -> Result<String, AllocError> {
    let mut text = String::new(alloc);
    for article in articles {
        if !has(balance, *article) {
            write!(text, "{PROGRAM}: {db}: none of \"{}\"", Escaped(article))?;
            end_with_near(alloc, &mut text, balance, article)?;
        }
    }
    Ok(text)
}

// Returns whether a balance has this article.
fn has(balance: &[(&str, Change)], article: &str) -> bool {
    balance.iter().any(|entry| entry.0 == article)
}

/// Returns the message that an article has its first movement. It names an article of `balance` whose name is near, if there is one.
///
/// # Errors
///
/// An allocation fails.
pub fn new_text(
    alloc: Global,
    db: &str,
    balance: &[(&str, Change)],
    article: &str,
) -> Result<String, AllocError> {
    let mut text = String::new(alloc);
    write!(text, "{PROGRAM}: {db}: \"{}\" is new", Escaped(article))?;
    end_with_near(alloc, &mut text, balance, article)?;
    Ok(text)
}

// Returns whether a balance, which is in ascending order, lacks this article.
fn lacks(balance: &[(&str, Change)], article: &str) -> bool {
    balance.binary_search_by(|row| row.0.cmp(article)).is_err()
}

// Returns the articles of the movements that were entered and that a balance lacks, each once, or `None` if there are more than ten.
fn new_of<'e>(
    alloc: Global,
    balance: &[(&str, Change)],
    entries: &'e [Entry<String>],
) -> Result<Option<Vec<&'e str>>, AllocError> {
    let mut articles: Vec<&'e str> = Vec::new(alloc);
    for entry in entries {
        let article = entry.movement.article.as_str();
        let is_entered = matches!(entry.outcome, Outcome::Entered { .. });
        if is_entered && lacks(balance, article) && articles.iter().all(|one| *one != article) {
            if articles.len() == NEW {
                return Ok(None);
            }
            articles.push(article)?;
        }
    }
    Ok(Some(articles))
}

/// Returns a line for each new article of these movements whose name is near the name of an article of the balance. An article is new if the
/// balance lacks it. Returns no line if more than ten articles are new. The balance is in ascending order.
///
/// # Errors
///
/// An allocation fails.
pub fn misspelt_text(
    alloc: Global,
    db: &str,
    balance: &[(&str, Change)],
    entries: &[Entry<String>],
) -> Result<String, AllocError> {
    let mut text = String::new(alloc);
    if balance.is_empty() {
        return Ok(text);
    }
    let Some(articles) = new_of(alloc, balance, entries)? else {
        return Ok(text);
    };
    for article in articles {
        if near_to(alloc, balance, article)?.is_some() {
            text.push_str(new_text(alloc, db, balance, article)?.as_str())?;
        }
    }
    Ok(text)
}

/// Returns a line that says that the article of a typed movement is new, if the movement was entered and the balance lacks the article.
///
/// # Errors
///
/// An allocation fails.
pub fn typed_new_text(
    alloc: Global,
    db: &str,
    balance: &[(&str, Change)],
    entries: &[Entry<String>],
    article: &str,
) -> Result<String, AllocError> {
    let is_refused = entries
        .iter()
        .any(|entry| matches!(entry.outcome, Outcome::Refused { .. }));
    if is_refused || !lacks(balance, article) {
        return Ok(String::new(alloc));
    }
    new_text(alloc, db, balance, article)
}

/// Returns a line for each of these refusals. If the balance lacks the article, and has another article whose name is near, the line names the
/// other article. This is done for ten lines at most.
///
/// # Errors
///
/// An allocation fails.
pub fn refused_text(
    alloc: Global,
    files: &[&str],
    scale: Scale,
    balance: &[(&str, Change)],
    refusals: &[Refusal<String>],
) -> Result<String, AllocError> {
    let mut text = String::new(alloc);
    let mut absent = 0usize;
    for refusal in refusals {
        let line = refusals_text(alloc, files, scale, slice::from_ref(refusal))?;
        let article = refusal.article.as_str();
        if absent < NEW && lacks(balance, article) {
            absent += 1;
            text.push_str(line.as_str().trim_end_matches('\n'))?;
            end_with_near(alloc, &mut text, balance, article)?;
        } else {
            text.push_str(line.as_str())?;
        }
    }
    Ok(text)
}
