//! The rows of the balance that a batch changes.
ghost use Rattle.std.specs.Prelude.{◌<◌, ◌↔◌, IsTrue, IfOk};
ghost use Rattle.hashbag_ledger_lib.specs.Changes.{Rises, AreChanges, IsBefore, listed_of, Begins, LeavesFewerRows};

use std::alloc::{AllocError, Global};
use std::cmp::Ordering;

/// What becomes of the row of an article.
#[derive(PartialEq, Eq, Debug, Drop)]
pub enum RowChange {
    /// The row gets this number. It is a new row if the article had none.
    Put(String, usize),
    /// The row is removed, since none of the article is left.
    Remove(String),
}

// The rows of a balance: its articles with their numbers.
type Balance<'a> = &'a [(String, usize)];

// Returns whether an article comes before the article of the first of these rows, or whether there is no row.
fn is_before(article: &str, rows: Balance<'_>) -> bool
    ensures { IsTrue result ↔ IsBefore article.now rows.now }
{
    match rows.first() {
        Some(next) => article < next.0.as_str(),
        None => true,
    }
}

/// Returns whether the articles of a balance are in ascending order, each once.
pub fn rises(balance: &[(String, usize)]) -> bool
    ensures { IsTrue result ↔ Rises balance.now }
{
    let mut rest = balance;
    'rows: while let Some((first, others)) = rest.split_first() {
        if !is_before(first.0.as_str(), others) {
            return false;
        }
        rest = others;
    }
    true
}

// Returns the change of the row of the next article, or `None` if that row stays. Also returns the rows after that article in both balances.
fn next_change<'a, 'b>(
    before: Balance<'a>,
    after: Balance<'b>,
) -> Result<(Option<RowChange>, Balance<'a>, Balance<'b>), AllocError>
    ensures begins { IfOk result (λ next. Begins before.now after.now (listed_of next.0) next.1.now next.2.now) }
    ensures shorter { IfOk result (λ next. LeavesFewerRows before.now after.now next.1.now next.2.now) }
{
    match (before.split_first(), after.split_first()) {
        (None, None) => Ok((None, before, after)),
        (Some((old, olds)), None) => Ok((Some(RowChange::Remove(old.0.clone()?)), olds, after)),
        (None, Some((new, news))) => Ok((
            Some(RowChange::Put(new.0.clone()?, new.1)),
            before,
            news,
        )),
        (Some((old, olds)), Some((new, news))) => match old.0.as_str().cmp(&new.0.as_str()) {
            Ordering::Less => Ok((Some(RowChange::Remove(old.0.clone()?)), olds, after)),
            Ordering::Greater => Ok((Some(RowChange::Put(new.0.clone()?, new.1)), before, news)),
            Ordering::Equal if old.1 == new.1 => Ok((None, olds, news)),
            Ordering::Equal => Ok((Some(RowChange::Put(new.0.clone()?, new.1)), olds, news)),
        },
    }
}

/// Returns the changes that turn the balance `before` into `after`, sorted by article. Both balances have to be sorted by article. An
/// article with the same quantity in both has no change.
///
/// # Errors
///
/// An allocation fails.
pub fn changed_rows(
    alloc: Global,
    before: &[(String, usize)],
    after: &[(String, usize)],
) -> Result<Vec<RowChange>, AllocError>
    // If both balances are sorted, the changes turn one into the other, are sorted, and none is needless.
    ensures { IfOk result (λ cs. Rises before.now → Rises after.now → AreChanges before.now after.now cs.items) }
{
    let mut changes = Vec::new(alloc);
    let (mut old, mut new) = (before, after);
    'rows: while !old.is_empty() || !new.is_empty() {
        let (change, olds, news) = next_change(old, new)?;
        if let Some(change) = change {
            changes.push(change)?;
        }
        (old, new) = (olds, news);
    }
    Ok(changes)
}
