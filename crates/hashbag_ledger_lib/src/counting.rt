//! A stock that is counted: the differences between what is there and what was counted are entered.
ghost use Rattle.std.specs.Prelude.{◌≡◌, ◌++◌, map, IfOk, OnOk};
ghost use Rattle.std.specs.String.{string_eq};
ghost use Rattle.hashbag_ledger_lib.specs.Counts.{AddsDifference, AreDifferencesOf, IsCounted, NotesArticle, change_to, none_counted};
ghost use Rattle.hashbag_ledger_lib.specs.Movements.{contents_of};

use crate::entering::LedgerError;
use crate::filing::{Filed, copy_of, enter_files};
use crate::ledger::booking::book_batch;
use crate::ledger::stock_at_start;
use crate::movements::{Change, Entry, Movement, Place};
use crate::numbers::MOST;
use hashbag_core::{BagError, HashBag};
use std::alloc::{AllocError, Global};
use std::hash::BuildHasher;

// Returns the change that turns the number `there` into `counted`.
fn change_between(there: usize, counted: usize) -> Change
    ensures { result ≡ change_to there counted }
{
    if counted < there {
        return Change::Out(there - counted);
    }
    Change::In(counted - there)
}

// Inserts the article of a record into `named`.
fn note<S: BuildHasher + Drop>(
    named: &mut HashBag<String, S>,
    movement: &Movement<String>,
) -> Result<(), LedgerError>
    ensures { OnOk result (NotesArticle string_eq movement.now.article named.old.items named.new.items) }
{
    match named.insert(movement.article.clone()?) {
        Ok(_) => Ok(()),
        Err(BagError::TooMany) => Err(LedgerError::TooMany(movement.place)),
        Err(_) => Err(LedgerError::Memory),
    }
}

// Appends the difference of a record's article, unless `named` has the article. Inserts the article into `named`.
fn compare<S: BuildHasher + Drop>(
    differences: &mut Vec<Movement<String>>,
    there: &HashBag<String, S>,
    counted: &HashBag<String, S>,
    named: &mut HashBag<String, S>,
    movement: Movement<String>,
) -> Result<(), LedgerError>
    ensures noted { OnOk result (NotesArticle string_eq movement.article named.old.items named.new.items) }
    ensures pushed { OnOk result (AddsDifference there.now counted.now named.old movement differences.old differences.new) }
{
    let is_named = named.contains(&movement.article) > 0;
    note(named, &movement)?;
    if is_named {
        return Ok(());
    }
    let change = change_between(
        there.contains(&movement.article),
        counted.contains(&movement.article),
    );
    differences
        .push(Movement {
            place: movement.place,
            article: movement.article,
            change,
        })
        .map_err(AllocError::from)?;
    Ok(())
}

// Returns a movement for each article that the records name: it turns the number in `there` into the number in `counted`, and has the place of
// the first record that names the article. `unnamed` is an empty bag: only its allocator and its state matter.
fn differences_of<S: BuildHasher + Drop>(
    alloc: Global,
    there: &HashBag<String, S>,
    counted: &HashBag<String, S>,
    unnamed: HashBag<String, S>,
    records: Vec<Entry<String>>,
) -> Result<Vec<Movement<String>>, LedgerError>
    ensures { IfOk result (AreDifferencesOf there.now counted.now unnamed records) }
{
    let mut named = unnamed;
    let mut differences = Vec::new(alloc);
    for record in records {
        compare(
            &mut differences,
            there,
            counted,
            &mut named,
            record.movement,
        )?;
    }
    Ok(differences)
}

/// Enters the differences that turn the kept balance into what was counted, and returns the result. Each article that the records name has one
/// difference, with the place of the first record that names the article. If several records name an article, their numbers are added. No other
/// article changes.
///
/// # Errors
///
/// `StartTooMany` only if the sum of the balance is above [`MOST`]. `TooMany` with the place of a record only if the sum of the counted numbers
/// would pass [`MOST`] with that record. `TooMany` with the place of an article's first record only if the total would pass [`MOST`] with the
/// difference of that article. `Memory` if an allocation fails.
///
/// # Complexity
///
/// Hashes the article of each record at most ten times, and each article of the balance twice. Sorts what was counted, and the balance.
pub fn count_stock<S: BuildHasher + Copy + Drop>(
    alloc: Global,
    state: S,
    kept: &[(String, usize)],
    records: Vec<Movement<String>>,
) -> Result<Filed, LedgerError>
    // Each article that the records name has the counted number, and any other article its number before. The entries are the differences; none is refused.
    ensures { IfOk result (IsCounted kept.now records.items) }
{
    // Books the records into an empty stock, which adds up the numbers of each article.
    let none = Vec::new(alloc);
    let counts = book_batch(alloc, state, none, records)?;
    let copy = copy_of(alloc, kept)?;
    let there = stock_at_start(alloc, state, MOST, copy)?;
    let counted = stock_at_start(alloc, state, MOST, counts.balance)?;
    let nothing = Vec::new(alloc);
    let unnamed = stock_at_start(alloc, state, usize::MAX, nothing)?;
    let differences = differences_of(alloc, &there, &counted, unnamed, counts.entries)?;
    let mut files = Vec::new(alloc);
    files.push(differences).map_err(AllocError::from)?;
    let filed = enter_files(alloc, state, kept, files)?;
    Ok(filed)
}

/// Appends for each article of the balance a record with the number 0, so that the records name all articles.
///
/// # Errors
///
/// An allocation fails.
pub fn name_all(
    records: &mut Vec<Movement<String>>,
    kept: &[(String, usize)],
) -> Result<(), AllocError>
    // `contents_of`: the article and the change of each record. `none_counted`: an article with the change `In 0`.
    ensures { OnOk result (contents_of records.new.items ≡ contents_of records.old.items ++ map none_counted kept.now) }
{
    for entry in kept {
        records
            .push(Movement {
                place: Place { file: 0, line: 0 },
                article: entry.0.clone()?,
                change: Change::In(0),
            })
            .map_err(AllocError::from)?;
    }
    Ok(())
}
