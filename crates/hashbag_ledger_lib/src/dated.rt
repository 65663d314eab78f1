//! The balance of a day, by the days of movements, and not by the order in which they were entered.
ghost use Rattle.std.specs.Prelude.{◌≡◌, ◌++◌, All, IfOk, OnOk, map};
ghost use Rattle.std.specs.Map.{keys_of};
ghost use Rattle.hashbag_ledger_lib.specs.Dated.{amount, byte_rows, counting_by, counts_by, moved, moved_at, net, HasSumsOf, IsBalanceAt, IsNetOf};

use crate::movements::{Change, Entry, Outcome};
use hashbag_core::{BagError, HashBag};
use hashbag_csv::quantities::{bag_of, balance_of};
use std::alloc::{AllocError, Global};
use std::cmp::Ordering;
use std::hash::BuildHasher;

/// Why there is no balance of a day.
#[derive(Clone, Copy, PartialEq, Eq, Debug)]
pub enum DatedError {
    /// An allocation failed.
    Memory,
    /// The movements up to the day move more than `usize::MAX` in all.
    MovedTooMuch,
}

impl From<AllocError> for DatedError {
    fn from(_e: AllocError) -> DatedError {
        DatedError::Memory
    }
}

// Which changes are added up: what comes in, what goes out, or both.
#[derive(Clone, Copy)]
enum Part {
    In,
    Out,
    // Only the keys of this sum are used: each article that moved, once.
    Both,
}

// Returns how much a change adds to the sum of this part.
fn amount(part: Part, change: Change) -> usize
    ensures { result ≡ amount part change }
{
    match change {
        Change::In(n) => match part {
            Part::In | Part::Both => n,
            Part::Out => 0,
        },
        Change::Out(n) => match part {
            Part::Out | Part::Both => n,
            Part::In => 0,
        },
    }
}

// Returns whether an entry is part of the balance of `date`: its movement was entered, and its day, `day`, isn't after `date`.
fn counts(date: &str, entry: &Entry<String>, day: &str) -> bool
    ensures { result ≡ counts_by date.now entry.now.outcome day.now }
{
    match entry.outcome {
        Outcome::Refused { .. } => false,
        Outcome::Entered { .. } => match day.cmp(&date) {
            Ordering::Greater => false,
            Ordering::Less | Ordering::Equal => true,
        },
    }
}

// If an entry counts on `date`, appends its article, with how much its change adds to the sum of this part.
fn push_moved<'a>(
    list: &mut Vec<(&'a str, usize)>,
    date: &str,
    dated: &'a (Entry<String>, String),
    part: Part,
) -> Result<(), AllocError>
    ensures { OnOk result (byte_rows list.new.items ≡ byte_rows list.old.items ++ moved_at part date.now dated.now) }
{
    let (entry, day) = dated;
    if !counts(date, entry, day.as_str()) {
        return Ok(());
    }
    let movement = &entry.movement;
    let one: (&'a str, usize) = (movement.article.as_str(), amount(part, movement.change));
    list.push(one)?;
    Ok(())
}

// Returns the articles of the movements that count on `date`, each with how much the change of the movement adds to the sum of this part.
#[tactic(auto, using(crate::proofs::DatedLemmas::next_moved))]
fn moved_by<'a>(
    alloc: Global,
    date: &str,
    entries: &'a [(Entry<String>, String)],
    part: Part,
) -> Result<Vec<(&'a str, usize)>, AllocError>
    ensures { IfOk result (λ list. byte_rows list.items ≡ map (moved part) (counting_by date.now entries.now)) }
{
    let mut list = Vec::new(alloc);
    let mut left = entries;
    'entries: while let Some((dated, later)) = left.split_first() {
        push_moved(&mut list, date, dated, part)?;
        left = later;
    }
    Ok(list)
}

// Returns a bag that has each article as often as its numbers in the list add up to.
fn stock_of<'a, S: BuildHasher + Drop>(
    alloc: Global,
    state: S,
    list: Vec<(&'a str, usize)>,
) -> Result<HashBag<&'a str, S>, DatedError>
    ensures { IfOk result (λ bag. HasSumsOf list.entry.items bag.items) }
{
    match bag_of(alloc, state, list) {
        Ok(bag) => Ok(bag),
        Err(BagError::TooMany) => Err(DatedError::MovedTooMuch),
        Err(_) => Err(DatedError::Memory),
    }
}

// Returns the difference of what came and what went.
fn net_of(came: usize, went: usize) -> Change
    ensures { result ≡ net came went }
{
    if came < went {
        return Change::Out(went - came);
    }
    Change::In(came - went)
}

// Returns the rows of these articles, each with the difference of what came and what went.
fn rows_of<'a, S: BuildHasher + Drop>(
    alloc: Global,
    articles: &[(&'a str, usize)],
    came: &HashBag<&'a str, S>,
    went: &HashBag<&'a str, S>,
) -> Result<Vec<(&'a str, Change)>, AllocError>
    ensures keys { IfOk result (λ rows. keys_of rows.items ≡ keys_of articles.now) }
    ensures numbers { IfOk result (λ rows. All (IsNetOf came.now.items went.now.items) rows.items) }
{
    let mut rows = Vec::new(alloc);
    for entry in articles {
        let article = entry.0;
        let number = net_of(came.contains(&article), went.contains(&article));
        let row: (&'a str, Change) = (article, number);
        rows.push(row)?;
    }
    Ok(rows)
}

/// Returns the balance of the day `date`: for each article, the sum of the movements that were entered and whose day is `date` or before.
/// Articles without such movements have no row, and the others are in ascending order. In `entries` each entry is with its day. A row has
/// `Out` if its sum is below 0. That can be, since a movement may have an earlier day than a movement that was entered before it.
///
/// # Errors
///
/// `MovedTooMuch` if the movements up to that day move more than `usize::MAX` in all. Else only `Memory`, if an allocation fails.
pub fn balance_at<'a, S: BuildHasher + Copy + Drop>(
    alloc: Global,
    state: S,
    date: &str,
    entries: &'a [(Entry<String>, String)],
) -> Result<Vec<(&'a str, Change)>, DatedError>
    // Each row has its article's number on `date`, and rows are in ascending order. Each article of which something came or went up to `date` has a row.
    ensures { IfOk result (λ rows. IsBalanceAt date.now entries.now rows.items) }
{
    let in_list = moved_by(alloc, date, entries, Part::In)?;
    let out_list = moved_by(alloc, date, entries, Part::Out)?;
    let list = moved_by(alloc, date, entries, Part::Both)?;
    let came = stock_of(alloc, state, in_list)?;
    let went = stock_of(alloc, state, out_list)?;
    let all = stock_of(alloc, state, list)?;
    let articles = balance_of(alloc, all)?;
    Ok(rows_of(alloc, &articles, &came, &went)?)
}
