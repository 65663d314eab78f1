//! Rows of what was ordered and what was delivered.
ghost use Rattle.std.specs.Prelude.{◌≡◌, ◌+◌, ◌≤◌, if◌then◌else◌, length, sum_by, IfOk, OnOk};
ghost use Rattle.hashbag_match_lib.specs.Matching.{missing_of, surplus_of, agrees, lent_rows, AreTotals};
ghost use Rattle.hashbag_match_lib.specs.Tallies.{in_neither, AppendsZeroRows, AreRowsOfJoin, AreRowsOfTallies, SaysWhetherTalliesAgree};

use crate::tally::Tally;
use crate::totals::{Totals, totals_of};
use hashbag_core::HashBag;
use std::alloc::{AllocError, Global};
use std::hash::{BuildHasher, Hash};

/// One article, with its quantity in each list.
#[derive(Clone, Copy, PartialEq, Eq, PartialOrd, Ord, Debug)]
pub struct Row<T> {
    /// The article.
    pub article: T,
    /// How many were ordered.
    pub ordered: usize,
    /// How many were delivered.
    pub delivered: usize,
}

impl<T> Row<T> {
    /// Returns how many were ordered and not delivered.
    pub fn missing(&self) -> usize
        ensures { result ≡ missing_of self.now }
    {
        self.ordered.saturating_sub(self.delivered)
    }

    /// Returns how many were delivered and not ordered.
    pub fn surplus(&self) -> usize
        ensures { result ≡ surplus_of self.now }
    {
        self.delivered.saturating_sub(self.ordered)
    }

    /// Returns whether as many were delivered as ordered.
    pub fn agrees(&self) -> bool
        ensures { result ≡ agrees self.now }
    {
        self.ordered == self.delivered
    }
}

/// Two lists, matched.
#[derive(Drop)]
pub struct Matched<T> {
    /// A row for each article of either list, articles in ascending order.
    pub rows: Vec<Row<T>>,
    /// The sums of the rows.
    pub totals: Totals,
    /// Whether as many of each article were delivered as ordered.
    pub agree: bool,
}

// Returns a row for each article that either bag has, with its count in both, in no particular order.
fn rows_of<'a, T: Ord + Hash + Drop, S: BuildHasher + Drop>(
    alloc: Global,
    ordered: &'a HashBag<T, S>,
    delivered: &'a HashBag<T, S>,
) -> Result<Vec<Row<&'a T>>, AllocError>
    ensures { IfOk result (λ rows. AreRowsOfJoin T.eq ordered.now.items delivered.now.items (lent_rows rows.items)) }
{
    let mut rows = Vec::new(alloc);
    for (article, first, second) in ordered.outer_join(delivered) {
        rows.push(Row {
            article,
            ordered: first,
            delivered: second,
        })?;
    }
    Ok(rows)
}

// Returns whether neither bag has the article.
fn is_in_neither<T: Eq + Hash + Drop, S: BuildHasher + Drop>(
    ordered: &HashBag<T, S>,
    delivered: &HashBag<T, S>,
    article: &T,
) -> bool
    ensures { result ≡ in_neither T.eq ordered.now.items delivered.now.items article.now }
{
    ordered.contains(article) == 0 && delivered.contains(article) == 0
}

// Appends a row of two zeros for each article whose lines all have the number 0.
fn push_zeros<'a, T: Ord + Hash + Drop, S: BuildHasher + Drop>(
    rows: &mut Vec<Row<&'a T>>,
    ordered: &'a Tally<T, S>,
    delivered: &'a Tally<T, S>,
) -> Result<(), AllocError>
    ensures { OnOk result (AppendsZeroRows T.eq ordered.now delivered.now rows.old rows.new) }
{
    for (article, _, _) in ordered.zeros.outer_join(&delivered.zeros) {
        if is_in_neither(&ordered.counts, &delivered.counts, article) {
            rows.push(Row {
                article,
                ordered: 0,
                delivered: 0,
            })?;
        }
    }
    Ok(())
}

/// Returns the rows of two tallies: one for each article that either names, with its quantity in both, articles in ascending order. The sums of the
/// rows are at most the totals of the tallies.
///
/// # Errors
///
/// An allocation fails.
///
/// # Complexity
///
/// Allocates the rows. Looks up each article of `counts` in the other `counts`, and each article of `zeros` in the other `zeros` and in both
/// `counts`. Sorts the rows.
pub fn rows_of_tallies<'a, T: Ord + Hash + Drop, S: BuildHasher + Drop>(
    alloc: Global,
    ordered: &'a Tally<T, S>,
    delivered: &'a Tally<T, S>,
) -> Result<Vec<Row<&'a T>>, AllocError>
    // Each article that a line of either tally names has one row, with the article's quantity in each tally.
    ensures table { IfOk result (AreRowsOfTallies T.eq T.cmp ordered.now delivered.now) }
    ensures missing { IfOk result (λ rows. sum_by missing_of rows.items ≤ length ordered.now.counts.items) }
    ensures surplus { IfOk result (λ rows. sum_by surplus_of rows.items ≤ length delivered.now.counts.items) }
{
    let mut rows = rows_of(alloc, &ordered.counts, &delivered.counts)?;
    push_zeros(&mut rows, ordered, delivered)?;
    rows.sort_unstable();
    Ok(rows)
}

/// Matches what was ordered with what was delivered. The rows don't depend on the hash states.
///
/// # Errors
///
/// An allocation fails.
///
/// # Complexity
///
/// Same as [`rows_of_tallies`]. Looks each article up once more to compare the bags.
pub fn match_tallies<'a, T: Ord + Hash + Drop, S: BuildHasher + Drop>(
    alloc: Global,
    ordered: &'a Tally<T, S>,
    delivered: &'a Tally<T, S>,
) -> Result<Matched<&'a T>, AllocError>
    // Each article that a line of either tally names has one row, with the article's quantity in each tally.
    ensures table { IfOk result (λ matched. AreRowsOfTallies T.eq T.cmp ordered.now delivered.now matched.rows) }

    // `totals` are the sums of `matched.rows`.
    ensures totals { IfOk result (λ matched. AreTotals matched.rows.items matched.totals) }

    // `agree` is true exactly if both tallies have the same quantity of each article.
    ensures agree { IfOk result (λ matched. SaysWhetherTalliesAgree T.eq ordered.now delivered.now matched.agree) }
{
    let rows = rows_of_tallies(alloc, ordered, delivered)?;
    // Does nothing at run time. It gives the proof the contract of `len`: the sums of the rows fit.
    let (_ordered, _delivered) = (ordered.counts.len(), delivered.counts.len());
    let totals = totals_of(&rows);
    let agree = ordered.counts == delivered.counts;
    Ok(Matched {
        rows,
        totals,
        agree,
    })
}
