//! Movements that are entered into a stock and kept, each with what became of it. The clauses hold whatever list the stock had at the beginning.
ghost use Rattle.std.specs.Prelude.{◌≡◌, ◌≢◌, ◌<◌, ◌≤◌, ◌^◌, ◌-◌, ◌↔◌, ◌++◌, ◌∷◌, [], String, length, IfOk, IfErr, OnOk};
ghost use Rattle.std.specs.Global.{Global};
ghost use Rattle.std.specs.String.{string_eq};
ghost use Rattle.hashbag_csv.specs.Quantities.{number_sum};
ghost use Rattle.hashbag_ledger_lib.specs.Bookings.{BooksFirst, BooksMovement, ContinuesFrom, HasBooked, StockPassesLimitAmong, StockPassesLimitWith};
ghost use Rattle.hashbag_ledger_lib.specs.Errors.{IfTooMany};
ghost use Rattle.hashbag_ledger_lib.specs.declared.movements.Movement.{Movement};
ghost use Rattle.hashbag_ledger_lib.specs.Entries.{refusals_in};
ghost use Rattle.hashbag_ledger_lib.specs.Ledger.{going};
ghost use Rattle.hashbag_ledger_lib.specs.Settled.{IsPastWithin};

use crate::entering::{LedgerError, enter};
use crate::ledger::stock_at_start;
use crate::movements::{Change, Entry, Movement, Outcome, Refusal};
use crate::numbers::MOST;
use hashbag_core::HashBag;
use hashbag_csv::quantities::balance_of;
use std::alloc::{AllocError, Global};
use std::hash::BuildHasher;

/// The balance that movements leave, and what became of each movement.
#[derive(Drop)]
pub struct Booked<T> {
    /// Each article with its count, in ascending order of articles.
    pub balance: Vec<(T, usize)>,
    /// The movements, in turn, each with what became of it.
    pub entries: Vec<Entry<T>>,
}

// Enters a movement into a stock, and returns what became of it.
fn outcome_of<S: BuildHasher + Drop>(
    stock: &mut HashBag<String, S>,
    movement: &Movement<String>,
) -> Result<Outcome, LedgerError>
    ensures next { IfOk result (λ o. BooksMovement stock.old stock.new movement.now o) }
    ensures past { IfTooMany result (λ p. StockPassesLimitWith stock.old movement.now p) }
    ensures limit { stock.new.most ≡ stock.old.most }
    ensures not_start { IfErr result (λ e. e ≢ LedgerError.StartTooMany) }
{
    let copy = Movement {
        place: movement.place,
        article: movement.article.clone()?,
        change: movement.change,
    };
    match enter(stock, copy)? {
        Some(refusal) => Ok(Outcome::Refused {
            there: refusal.there,
        }),
        None => Ok(Outcome::Entered {
            after: stock.contains(&movement.article),
        }),
    }
}

/// Enters movements, in turn, into a stock, and returns the balance, and what became of each movement.
///
/// # Errors
///
/// `TooMany` with the place of a movement only if the total would pass the limit of the stock with that movement. `Memory` if an allocation
/// fails.
///
/// # Complexity
///
/// Hashes the article of each movement at most three times. Sorts the balance. Allocates for all movements, for absent articles, and for
/// the balance; the text of an article is allocated for each movement.
pub fn book_all<S: BuildHasher + Drop>(
    alloc: Global,
    stock: HashBag<String, S>,
    movements: Vec<Movement<String>>,
) -> Result<Booked<String>, LedgerError>
    // If no movement came to the stock before: the balance is what `movements` leave, and the entries say what became of each movement.
    ensures booked { IfOk result (λ b. BooksFirst stock movements.items b) }

    // `TooMany p`: with the movement at `p` the total would pass the limit.
    ensures past { IfTooMany result (λ p. StockPassesLimitAmong stock movements.items p) }
    ensures not_start { IfErr result (λ e. e ≢ LedgerError.StartTooMany) }
{
    let mut stock = stock;
    let mut entries = Vec::new(alloc);
    for movement in movements {
        let outcome = outcome_of(&mut stock, &movement)?;
        let entry = Entry { movement, outcome };
        entries.push(entry).map_err(AllocError::from)?;
    }
    let balance = balance_of(alloc, stock)?;
    Ok(Booked { balance, entries })
}

/// Enters movements, in turn, into the kept balance, and returns the new balance, and what became of each movement.
///
/// Let earlier movements have left the kept balance. If all movements, earlier and new, were entered as one batch, the balance would be the new
/// balance, and the refusals would be the earlier refusals followed by the new refusals.
///
/// # Errors
///
/// `StartTooMany` exactly if the sum of the balance is above [`MOST`]. `TooMany` with the place of a movement only if the total would pass
/// [`MOST`] with that movement. `Memory` if an allocation fails.
///
/// # Complexity
///
/// Same as [`book_all`]. Hashes each article of the balance once.
pub fn book_batch<S: BuildHasher + Drop>(
    alloc: Global,
    state: S,
    kept: Vec<(String, usize)>,
    batch: Vec<Movement<String>>,
) -> Result<Booked<String>, LedgerError>
    // The balance is what `batch` leaves of `kept`, and the entries say what became of each movement.
    ensures booked { IfOk result (λ b. HasBooked (2 ^ 63 - 1) kept.items batch.items b) }

    // Let earlier movements have left `kept`. As one batch, they and `batch` leave this balance; the earlier refusals come first, then the new ones.
    ensures continues { IfOk result (λ b. ContinuesFrom kept.items batch.items b) }
    ensures too_many { (result ≡ Err LedgerError.StartTooMany) ↔ (2 ^ 63 - 1 < number_sum kept.items) }

    // `TooMany p`: with the movement at `p` the total would pass [`MOST`].
    ensures past { IfTooMany result (λ p. IsPastWithin string_eq (2 ^ 63 - 1) kept.items batch.items p) }
{
    let stock = stock_at_start(alloc, state, MOST, kept)?;
    book_all(alloc, stock, batch)
}

// Returns 1 if a movement was refused, else 0.
fn refused_once<T>(entry: &Entry<T>) -> usize
    ensures counted { result ≡ length (refusals_in (entry.now ∷ [])) }
    ensures few { result ≤ 1 }
{
    match entry.outcome {
        Outcome::Entered { .. } => 0,
        Outcome::Refused { .. } => 1,
    }
}

/// Returns how many movements were refused.
pub fn count_refused<T>(entries: &[Entry<T>]) -> usize
    ensures { result ≡ length (refusals_in entries.now) }
{
    let mut refused = 0usize;
    for entry in entries {
        refused += refused_once(entry);
    }
    refused
}

// Returns how many a change takes out.
fn asked_by(change: Change) -> usize
    ensures { result ≡ going change }
{
    match change {
        Change::In(_) => 0,
        Change::Out(n) => n,
    }
}

// Appends the refusal of an entry, if the movement was refused.
fn push_refusal<T: Drop>(refusals: &mut Vec<Refusal<T>>, entry: Entry<T>) -> Result<(), AllocError>
    ensures { OnOk result (refusals.new.items ≡ refusals.old.items ++ refusals_in (entry ∷ [])) }
{
    let Entry { movement, outcome } = entry;
    match outcome {
        Outcome::Entered { .. } => Ok(()),
        Outcome::Refused { there } => {
            let asked = asked_by(movement.change);
            refusals.push(Refusal {
                place: movement.place,
                article: movement.article,
                asked,
                there,
            })?;
            Ok(())
        }
    }
}

/// Returns the refusals among these entries, in turn.
///
/// # Errors
///
/// An allocation fails.
pub fn refusals_from<T: Drop>(
    alloc: Global,
    entries: Vec<Entry<T>>,
) -> Result<Vec<Refusal<T>>, AllocError>
    ensures { IfOk result (λ refusals. refusals.items ≡ refusals_in entries.items) }
{
    let mut refusals = Vec::new(alloc);
    for entry in entries {
        push_refusal(&mut refusals, entry)?;
    }
    Ok(refusals)
}
