//! How what is written of a stock is in rows: balances, batches, movements and refusals. Refusals also as messages.
ghost use Rattle.std.specs.Prelude.{◌≡◌, [], ◌∷◌, codes, map, string_bytes, IfOk};
ghost use Rattle.hashbag_csv.specs.Cells.{cells_of, lent_cell};
ghost use Rattle.hashbag_csv.specs.declared.cells.Cell.TheVariants.{Text};
ghost use Rattle.hashbag_ledger_lib.specs.Listings.{balance_cells, balance_names, batch_cells, batch_names, before, change_cell, difference_cells, difference_names};
ghost use Rattle.hashbag_ledger_lib.specs.Listings.{file_in, history_cells, history_names, movement_cells, movement_names, number_of, outcome_name};
ghost use Rattle.hashbag_ledger_lib.specs.Listings.{refusal_cells, refusal_names, source_in, undone_cell};

use crate::extras::{Extra, text_or_empty};
use crate::movements::{Change, Entry, Outcome, Refusal};
use crate::once::Batch;
use hashbag_csv::cells::{Cell, Listing, Names, RowCells};
use hashbag_csv::decimals::write_decimal;
use hashbag_csv::scale::Scale;
use std::alloc::{AllocError, Global};
use std::fmt;

/// Returns the rows of a balance: each article, with its number as `In`.
///
/// # Errors
///
/// An allocation fails.
pub fn rows_of(
    alloc: Global,
    balance: &[(String, usize)],
) -> Result<Vec<(&str, Change)>, AllocError> {
    let mut rows = Vec::new(alloc);
    for entry in balance {
        let row: (&str, Change) = (entry.0.as_str(), Change::In(entry.1));
        rows.push(row)?;
    }
    Ok(rows)
}

// Returns the cell of a change: a number, below 0 for `Out`.
fn cell_of<'s>(change: Change, scale: Scale) -> Cell<&'s str, Scale>
    ensures { lent_cell result ≡ change_cell scale change }
{
    match change {
        Change::In(n) => Cell::Number(n, scale),
        Change::Out(n) => Cell::Below(n, scale),
    }
}

/// The columns of a balance.
pub const NAMES: (&str, &str) = ("article", "number");

/// A balance on a day, on which a number may be below 0: `Out`.
#[derive(Clone, Copy)]
pub struct DayBalance(pub Scale);

impl Listing<(&str, Change)> for DayBalance {
    ghost columns = { λ balance. codes "article" ∷ codes "number" ∷ [] };

    ghost line = { λ balance entry. Text entry.0.now ∷ change_cell balance.0 entry.1 ∷ [] };

    fn names<'s>(&'s self, alloc: Global) -> Names<'s>
        ensures { IfOk result (λ names. map (λ n. n.now) names.items ≡ codes "article" ∷ codes "number" ∷ []) }
    {
        Ok(vec![in alloc; NAMES.0, NAMES.1]?)
    }

    fn cells<'s>(&'s self, alloc: Global, entry: &'s (&str, Change)) -> RowCells<'s>
        ensures { IfOk result (λ cells. cells_of cells ≡ Text entry.now.0.now ∷ change_cell self.now.0 entry.now.1 ∷ []) }
    {
        let article: &'s str = entry.0;
        Ok(vec![in alloc; Cell::Text(article), cell_of(entry.1, self.0)]?)
    }
}

/// A balance, in columns of these names: articles, and numbers of this scale.
#[derive(Clone, Copy)]
pub struct Balance<'a>(pub (&'a str, &'a str), pub Scale);

impl Listing<(String, usize)> for Balance<'_> {
    ghost columns = { λ balance. balance_names balance.0 };

    ghost line = { λ balance entry. balance_cells balance.1 entry };

    fn names<'s>(&'s self, alloc: Global) -> Names<'s>
        ensures { IfOk result (λ names. map (λ n. n.now) names.items ≡ balance_names self.now.0) }
    {
        let article: &'s str = self.0.0;
        let number: &'s str = self.0.1;
        Ok(vec![in alloc; article, number]?)
    }

    fn cells<'s>(&'s self, alloc: Global, entry: &'s (String, usize)) -> RowCells<'s>
        ensures { IfOk result (λ cells. cells_of cells ≡ balance_cells self.now.1 entry.now) }
    {
        Ok(vec![in alloc; Cell::Text(entry.0.as_str()), Cell::Number(entry.1, self.1)]?)
    }
}

// Returns the cell of the number of the batch that is undone: empty if there is none.
fn cell_of_undone<'s>(undoes: Option<i64>) -> Cell<&'s str, Scale>
    ensures { lent_cell result ≡ undone_cell undoes }
{
    match undoes {
        Some(number) => Cell::Count(number.unsigned_abs()),
        None => Cell::Text(""),
    }
}

/// Batches.
#[derive(Clone, Copy)]
pub struct Batches;

impl Listing<Batch> for Batches {
    ghost columns = { λ batches. batch_names };

    ghost line = { λ batches batch. batch_cells batch };

    fn names<'s>(&'s self, alloc: Global) -> Names<'s> {
        Ok(vec![in alloc;
            "batch",
            "file",
            "sha256",
            "kind",
            "undoes",
            "time",
            "movements",
            "refused",
        ]?)
    }

    fn cells<'s>(&'s self, alloc: Global, batch: &'s Batch) -> RowCells<'s> {
        Ok(vec![in alloc;
            Cell::Count(batch.number.unsigned_abs()),
            Cell::Text(batch.file.as_str()),
            Cell::Text(batch.sha256.as_str()),
            Cell::Text(batch.kind.as_str()),
            cell_of_undone(batch.undoes),
            Cell::Text(batch.time.as_str()),
            Cell::Count(batch.movements),
            Cell::Count(batch.refused),
        ]?)
    }
}

// Returns what became of a movement, and how many of the article there are after it.
fn outcome_of(outcome: Outcome) -> (&'static str, usize)
    ensures name { result.0.now ≡ outcome_name outcome }
    ensures number { result.1 ≡ number_of outcome }
{
    match outcome {
        Outcome::Entered { after } => ("entered", after),
        Outcome::Refused { there } => ("refused", there),
    }
}

/// The movements of a batch, with what became of each, its date and its note, which are empty if there is none.
#[derive(Clone, Copy)]
pub struct Movements(pub Scale);

impl Listing<(Entry<String>, Extra)> for Movements {
    ghost columns = { λ movements. movement_names };

    ghost line = { λ movements moved. movement_cells movements.0 moved };

    fn names<'s>(&'s self, alloc: Global) -> Names<'s> {
        Ok(vec![in alloc;
            "line", "date", "article", "change", "outcome", "number", "note",
        ]?)
    }

    fn cells<'s>(&'s self, alloc: Global, moved: &'s (Entry<String>, Extra)) -> RowCells<'s> {
        let (entry, extra) = moved;
        let (outcome, number) = outcome_of(entry.outcome);
        Ok(vec![in alloc;
            Cell::Count(entry.movement.place.line),
            Cell::Text(text_or_empty(&extra.date)),
            Cell::Text(entry.movement.article.as_str()),
            cell_of(entry.movement.change, self.0),
            Cell::Text(outcome),
            Cell::Number(number, self.0),
            Cell::Text(text_or_empty(&extra.note)),
        ]?)
    }
}

/// The movements of an article. `place.file` is the number of a batch, whose file and time are in the row if it is one of these batches.
#[derive(Clone, Copy)]
pub struct History<'a>(pub Scale, pub &'a [Batch]);

// Returns the file and the time of the batch of this number; empty texts if there is none.
fn source_of(batches: &[Batch], number: usize) -> (&str, &str)
    ensures { (result.0.now, result.1.now) ≡ source_in batches.now number }
{
    let mut left = batches;
    'batches: while let Some((batch, later)) = left.split_first() {
        if batch.number.unsigned_abs() as usize == number {
            return (batch.file.as_str(), batch.time.as_str());
        }
        left = later;
    }
    ("", "")
}

impl Listing<(Entry<String>, Extra)> for History<'_> {
    ghost columns = { λ history. history_names };

    ghost line = { λ history moved. history_cells history.1.now history.0 moved };

    fn names<'s>(&'s self, alloc: Global) -> Names<'s>
        ensures { IfOk result (λ names. map (λ n. n.now) names.items ≡ history_names) }
    {
        Ok(vec![in alloc;
            "batch", "file", "line", "time", "date", "change", "outcome", "number", "note",
        ]?)
    }

    fn cells<'s>(&'s self, alloc: Global, moved: &'s (Entry<String>, Extra)) -> RowCells<'s>
        ensures { IfOk result (λ cells. cells_of cells ≡ history_cells self.now.1.now self.now.0 moved.now) }
    {
        let (entry, extra) = moved;
        let place = entry.movement.place;
        let (file, time) = source_of(self.1, place.file);
        let (outcome, number) = outcome_of(entry.outcome);
        Ok(vec![in alloc;
            Cell::Count(place.file as u64),
            Cell::Text(file),
            Cell::Count(place.line),
            Cell::Text(time),
            Cell::Text(text_or_empty(&extra.date)),
            cell_of(entry.movement.change, self.0),
            Cell::Text(outcome),
            Cell::Number(number, self.0),
            Cell::Text(text_or_empty(&extra.note)),
        ]?)
    }
}

// Returns how many there were before a change, if there are `after` after the change.
fn before_change(change: Change, after: usize) -> usize
    ensures { result ≡ before change after }
{
    match change {
        Change::In(n) => after.saturating_sub(n),
        Change::Out(n) => after.saturating_add(n),
    }
}

/// The differences of a counted stock: the entries of what [`count_stock`](crate::counting::count_stock) returned.
#[derive(Clone, Copy)]
pub struct Differences(pub Scale);

impl Listing<Entry<String>> for Differences {
    ghost columns = { λ differences. difference_names };

    ghost line = { λ differences entry. difference_cells differences.0 entry };

    fn names<'s>(&'s self, alloc: Global) -> Names<'s> {
        Ok(vec![in alloc; "article", "there", "counted", "change"]?)
    }

    fn cells<'s>(&'s self, alloc: Global, entry: &'s Entry<String>) -> RowCells<'s> {
        let change = entry.movement.change;
        let (_, after) = outcome_of(entry.outcome);
        Ok(vec![in alloc;
            Cell::Text(entry.movement.article.as_str()),
            Cell::Number(before_change(change, after), self.0),
            Cell::Number(after, self.0),
            cell_of(change, self.0),
        ]?)
    }
}

/// Movements as they were typed: the article, and the sign and the number of the change.
#[derive(Clone, Copy)]
pub struct Typed;

impl Listing<(&str, String)> for Typed {
    ghost columns = { λ typed. codes "article" ∷ codes "change" ∷ [] };

    ghost line = { λ typed movement. Text movement.0.now ∷ Text (string_bytes movement.1) ∷ [] };

    fn names<'s>(&'s self, alloc: Global) -> Names<'s>
        ensures { IfOk result (λ names. map (λ n. n.now) names.items ≡ codes "article" ∷ codes "change" ∷ []) }
    {
        Ok(vec![in alloc; "article", "change"]?)
    }

    fn cells<'s>(&'s self, alloc: Global, movement: &'s (&str, String)) -> RowCells<'s>
        ensures { IfOk result (λ cells. cells_of cells ≡ Text movement.now.0.now ∷ Text (string_bytes movement.now.1) ∷ []) }
    {
        Ok(vec![in alloc; Cell::Text(movement.0), Cell::Text(movement.1.as_str())]?)
    }
}

// Returns the name of the file of a refused movement, or `-` if `files` lacks the file.
fn file_of<'a>(files: &[&'a str], refusal: &Refusal<String>) -> &'a str
    ensures { result.now ≡ file_in (map (λ f. f.now) files.now) refusal.now }
{
    files.get(refusal.place.file).copied().unwrap_or("-")
}

// A text that is shown between quotes, with quotes, backslashes and control characters escaped.
#[derive(Clone, Copy)]
struct Quoted<'a>(&'a str);

impl fmt::Display for Quoted<'_> {
    fn fmt<W: fmt::Write>(&self, f: &mut fmt::Formatter<W>) -> fmt::Result {
        write!(f, "\"")?;
        for character in self.0.chars() {
            if character.is_control() || character == '"' || character == '\\' {
                write!(f, "{}", character.escape_default())?;
            } else {
                write!(f, "{character}")?;
            }
        }
        write!(f, "\"")
    }
}

/// Returns a line for each refusal: the file, the line, how many the movement asks for, the article, and how many there are.
///
/// `files` are the names of the files. Quotes, backslashes and control characters of an article are escaped.
///
/// # Errors
///
/// An allocation fails.
pub fn refusals_text(
    alloc: Global,
    files: &[&str],
    scale: Scale,
    refusals: &[Refusal<String>],
) -> Result<String, AllocError> {
    let mut text = String::new(alloc);
    for refusal in refusals {
        let file = file_of(files, refusal);
        let line = refusal.place.line;
        let asked = write_decimal(alloc, refusal.asked, scale)?;
        let there = write_decimal(alloc, refusal.there, scale)?;
        let article = Quoted(refusal.article.as_str());
        writeln!(
            text,
            "{file}:{line}: refused: out {asked} of {article}, {there} there"
        )?;
    }
    Ok(text)
}

/// Refusals, with the names of these files. A file that isn't among them is `-`.
#[derive(Clone, Copy)]
pub struct Refusals<'a>(pub Scale, pub &'a [&'a str]);

impl Listing<Refusal<String>> for Refusals<'_> {
    ghost columns = { λ refusals. refusal_names };

    ghost line = { λ refusals refusal. refusal_cells (map (λ f. f.now) refusals.1.now) refusals.0 refusal };

    fn names<'s>(&'s self, alloc: Global) -> Names<'s>
        ensures { IfOk result (λ names. map (λ n. n.now) names.items ≡ refusal_names) }
    {
        Ok(vec![in alloc; "file", "line", "article", "asked", "there"]?)
    }

    fn cells<'s>(&'s self, alloc: Global, refusal: &'s Refusal<String>) -> RowCells<'s>
        ensures { IfOk result (λ cells. cells_of cells ≡ refusal_cells (map (λ f. f.now) self.now.1.now) self.now.0 refusal.now) }
    {
        Ok(vec![in alloc;
            Cell::Text(file_of(self.1, refusal)),
            Cell::Count(refusal.place.line),
            Cell::Text(refusal.article.as_str()),
            Cell::Number(refusal.asked, self.0),
            Cell::Number(refusal.there, self.0),
        ]?)
    }
}
