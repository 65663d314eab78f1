//! Two lists: read from their CSV texts, matched, and written.
ghost use Rattle.std.specs.Prelude.{IfOk, IsTrue, OnOk};
ghost use Rattle.hashbag_csv.specs.FirstLines.{AddsFirsts};
ghost use Rattle.hashbag_match_lib.specs.Asks.{carried_along, lines_asked};
ghost use Rattle.hashbag_match_lib.specs.Fields.{TalliesLines};
ghost use Rattle.hashbag_match_lib.specs.Matched.{IsStatusOf};
ghost use Rattle.hashbag_match_lib.specs.Readable.{IsReadableAs};
ghost use Rattle.hashbag_match_lib.specs.Texts.{IsStatusOfLists, IsTextOfLists};

use crate::ask::{Ask, Columns};
use crate::matching::match_tallies;
use crate::near::near_articles;
use crate::output::{Layout, text_of};
use crate::reading::read_tally;
use crate::shown::shown_rows;
use crate::tally::Tally;
use hashbag_csv::article::Article;
use hashbag_csv::fault::SheetError;
use hashbag_csv::first_lines::{Names, add_first_lines};
use hashbag_shell::status::{DENIED, DONE};
use std::alloc::{AllocError, Global};
use std::collections::HashMap;
use std::hash::BuildHasher;

/// Inserts each article of a text that `firsts` lacks, with the carried fields of its first line. If no columns are carried, nothing changes. If
/// `may_lack`, the header may lack carried columns; the fields of such a column are empty.
///
/// # Errors
///
/// `Line` for the first bad line, and what is wrong with it. `Memory` if an allocation fails.
///
/// # Complexity
///
/// Same as [`add_first_lines`]. Does nothing if no fields are carried along.
pub fn carry_lines<A: Article + Drop, S: BuildHasher + Drop>(
    alloc: Global,
    text: &[u8],
    columns: &Columns<'_>,
    may_lack: bool,
    ask: &Ask<'_>,
    firsts: &mut HashMap<A, Vec<String>, S>,
) -> Result<(), SheetError>
    // If `firsts` had exactly the articles of some lines K, each with the carried fields of its first line in K, it now has the articles of K
    // followed by the text's lines, in the same way. If no columns are carried, it still has the articles of K.
    ensures { OnOk result (AddsFirsts A.eq A.fields (carried_along ask.now columns.now text.now) firsts.old firsts.new) }
{
    if ask.carried.is_empty() {
        return Ok(());
    }
    let names = Names {
        keys: &columns.keys,
        carried: &ask.carried,
        may_lack,
    };
    add_first_lines(
        alloc,
        text,
        names,
        columns.reading.delimiter,
        ask.line_form,
        firsts,
    )?;
    Ok(())
}

/// Returns the tally of the lines of a text with these columns.
///
/// # Errors
///
/// `Line` for the first bad line, and what is wrong with it. `Memory` if an allocation fails.
///
/// # Complexity
///
/// Same as [`read_tally`].
pub fn tally_of<A: Article + Drop, S: BuildHasher + Copy + Drop>(
    alloc: Global,
    state: S,
    text: &[u8],
    columns: &Columns<'_>,
    ask: &Ask<'_>,
) -> Result<Tally<A, S>, SheetError>
    // The tally is of the text's lines, an article and a number each, from these columns, read in the form `ask.line_form`.
    ensures lines { IfOk result (λ tally. TalliesLines A.eq A.fields (lines_asked ask.now columns.now text.now) tally) }

    // No line is short unless the form allows it, and each has a number in the column of numbers, if there is one.
    ensures readable { IfOk result (λ tally. IsReadableAs ask.now columns.now text.now) }
{
    let form = ask.line_form;
    read_tally(
        alloc,
        state,
        text,
        &columns.keys,
        columns.number,
        columns.reading,
        form,
    )
}

/// Both lists, as they were read.
#[derive(Drop)]
pub struct Lists<A: Article + Drop, S: BuildHasher + Drop> {
    /// What was ordered.
    pub ordered: Tally<A, S>,
    /// What was delivered.
    pub delivered: Tally<A, S>,
    /// The fields that are carried along with each article, if some are.
    pub firsts: HashMap<A, Vec<String>, S>,
}

/// The result of a comparison, besides the text that is written.
#[derive(Drop)]
pub struct Findings {
    /// The exit status: 0 if as many of each article were delivered as ordered, else 1.
    pub status: u8,
    /// Lines that name articles which are perhaps the same.
    pub near: Vec<String>,
}

// Returns the exit status of a comparison.
fn status_of(agree: bool) -> u8
    ensures { IsStatusOf (IsTrue agree) result }
{
    if agree { DONE } else { DENIED }
}

/// Matches two lists. Returns what is written, and the exit status: 0 if as many of each article were delivered as ordered, else 1.
///
/// # Errors
///
/// An allocation fails.
///
/// # Complexity
///
/// Same as [`match_tallies`].
pub fn match_lists<A: Article + Drop, S: BuildHasher + Copy + Drop>(
    alloc: Global,
    state: S,
    lists: &Lists<A, S>,
    ask: &Ask<'_>,
) -> Result<(Vec<u8>, Findings), AllocError>
    // The status is 0 exactly if the lines of both lists have the same quantity of each article, else 1.
    ensures status { IfOk result (λ made. IsStatusOfLists A.eq A.fields lists.now made.1.status) }

    // Whatever lines the lists were read from, the text has a row for each of their articles, in ascending order, with carried fields and both
    // quantities. Rows that `ask.only` doesn't show are left out.
    ensures text { IfOk result (λ made. IsTextOfLists A.eq A.cmp A.fields ask.now lists.now made.0.items) }
{
    let matched = match_tallies(alloc, &lists.ordered, &lists.delivered)?;
    let near = if ask.quiet {
        Vec::new(alloc)
    } else {
        near_articles(alloc, state, &matched.rows)?
    };
    let shown = shown_rows(alloc, ask.only, &matched.rows, &lists.firsts)?;
    let layout = Layout {
        keys: &ask.ordered.keys,
        carried: &ask.carried,
        scale: ask.ordered.reading.scale,
        delimiter: ask.ordered.reading.delimiter,
    };
    let text = text_of(alloc, &shown, &matched.totals, layout, ask.form)?;
    let status = status_of(matched.agree);
    Ok((text, Findings { status, near }))
}
