//! The sums of rows.
ghost use Rattle.std.specs.Prelude.{◌≤◌, sum_by};
ghost use Rattle.hashbag_match_lib.specs.Matching.{missing_of, surplus_of, AreTotals};

use crate::matching::Row;

/// The sums of all rows.
#[derive(Clone, Copy, PartialEq, Eq, Debug)]
pub struct Totals {
    /// How many articles there are.
    pub articles: usize,
    /// How many of them differ.
    pub differing: usize,
    /// How many were ordered that weren't delivered.
    pub missing: usize,
    /// How many were delivered that weren't ordered.
    pub surplus: usize,
}

/// Returns the sums of these rows. Each sum has to fit a `usize`, as the sums of the rows of [`rows_of_tallies`](crate::matching::rows_of_tallies)
/// do.
///
/// # Complexity
///
/// Reads each row once, and allocates nothing.
pub fn totals_of<T>(rows: &[Row<T>]) -> Totals
    requires missing { sum_by missing_of rows.now ≤ usize.MAX }
    requires surplus { sum_by surplus_of rows.now ≤ usize.MAX }
    ensures { AreTotals rows.now result }
{
    let mut differing = 0;
    let mut missing = 0;
    let mut surplus = 0;
    for row in rows {
        missing += row.missing();
        surplus += row.surplus();
        if !row.agrees() {
            differing += 1;
        }
    }
    Totals {
        articles: rows.len(),
        differing,
        missing,
        surplus,
    }
}
