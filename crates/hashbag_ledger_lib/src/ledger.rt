//! A stock into which movements are entered one by one. The clauses hold whatever list the stock had at the beginning, and whatever movements
//! have come since.
ghost use Rattle.std.specs.Prelude.{◌≡◌, ◌⊎◌, ◌<◌, ◌↔◌, ◌≤◌, [], length, IsTrue, IfOk, IfErr, OnOk};
ghost use Rattle.hashbag_core.specs.Occurrences.{count};
ghost use Rattle.hashbag_csv.specs.Quantities.{number_sum, quantity};
ghost use Rattle.hashbag_ledger_lib.specs.Ledgers.{AreRefusalsOf, EntersMovement, IsBalanceOf, IsLeftBy, LedgerPassesLimitWith};
ghost use Rattle.hashbag_ledger_lib.specs.Errors.{IfTooMany};
ghost use Rattle.hashbag_ledger_lib.specs.declared.movements.Movement.{Movement};
ghost use Rattle.hashbag_ledger_lib.specs.Entries.{IsStockAfter};
ghost use Rattle.hashbag_ledger_lib.specs.Settled.{IsLedgerOf};

pub mod booking;

use crate::entering::{LedgerError, enter};
use crate::movements::{Movement, Refusal};
use hashbag_core::HashBag;
use hashbag_csv::quantities::balance_of;
use std::alloc::{AllocError, Global};
use std::hash::{BuildHasher, Hash};

/// A stock after movements, and the refusals.
#[derive(Drop)]
pub struct Entered<T> {
    /// Each article with its count, in ascending order of articles.
    pub balance: Vec<(T, usize)>,
    /// The refusals, in the order of their movements.
    pub refusals: Vec<Refusal<T>>,
}

// Returns whether the sum of the numbers of a list is at most `most`.
fn numbers_fit<T>(list: &[(T, usize)], most: usize) -> bool
    ensures { IsTrue result ↔ (number_sum list.now ≤ most) }
{
    let mut total = 0usize;
    for entry in list {
        match total.checked_add(entry.1) {
            Some(sum) => total = sum,
            None => return false,
        }
    }
    total <= most
}

// Returns the stock of a list, without a limit.
fn stock_of_list<T: Eq + Hash + Drop, S: BuildHasher + Drop>(
    alloc: Global,
    state: S,
    list: Vec<(T, usize)>,
) -> Result<HashBag<T, S>, LedgerError>
    requires { number_sum list.items ≤ usize.MAX }
    ensures counts { IfOk result (λ stock. (v : T) → count T.eq v stock.items ≡ quantity T.eq v list.items) }
    ensures len { IfOk result (λ stock. length stock.items ≡ number_sum list.items) }
    ensures only { IfErr result (λ e. e ≡ LedgerError.Memory) }
{
    let mut stock = HashBag::with_hasher(alloc, state);
    match stock.extend_many(list.into_iter()) {
        Ok(()) => Ok(stock),
        Err(_) => Err(LedgerError::Memory),
    }
}

/// Returns the stock of a list, with the limit `most`. If an article is in the list more than once, its numbers are added.
///
/// # Errors
///
/// `StartTooMany` exactly if the sum of the numbers of the list is above `most`. `Memory` if an allocation fails.
///
/// # Complexity
///
/// Hashes each entry of the list once. Allocates for the articles.
pub fn stock_at_start<T: Eq + Hash + Drop, S: BuildHasher + Drop>(
    alloc: Global,
    state: S,
    most: usize,
    list: Vec<(T, usize)>,
) -> Result<HashBag<T, S>, LedgerError>
    // The count of v is the sum of the numbers that the list has for v. No movement has come yet.
    ensures counts { IfOk result (λ stock. (v : T) → count T.eq v stock.items ≡ quantity T.eq v list.items) }
    ensures len { IfOk result (λ stock. length stock.items ≡ number_sum list.items) }
    ensures begun { IfOk result (λ stock. IsStockAfter T.eq list.items [] stock) }
    ensures limit { IfOk result (λ stock. stock.most ≡ most) }
    ensures too_many { (result ≡ Err LedgerError.StartTooMany) ↔ (most < number_sum list.items) }
    ensures fits { OnOk result (number_sum list.items ≤ most) }
    ensures only_memory { number_sum list.items ≤ most → IfErr result (λ e. e ≡ LedgerError.Memory) }
{
    if !numbers_fit(&list, most) {
        return Err(LedgerError::StartTooMany);
    }
    let mut stock = stock_of_list(alloc, state, list)?;
    match stock.set_limit(most) {
        Ok(()) => Ok(stock),
        // Not reached: the total was tested above.
        Err(_) => Err(LedgerError::StartTooMany),
    }
}

/// A stock that begins as a list, and the refusals of the movements so far. No movement is kept.
///
/// The clauses name the list, and the movements that have come. [`Ledger::begin`] returns the ledger of a list and no movements.
/// [`Ledger::enter`] appends a movement: the ledger then has the same list, and this movement at the end.
#[derive(Drop)]
pub struct Ledger<T: Eq + Hash + Drop, S: BuildHasher + Drop> {
    stock: HashBag<T, S>,
    refusals: Vec<Refusal<T>>,
}

impl<T: Eq + Hash + Drop, S: BuildHasher + Drop> Ledger<T, S> {
    /// Returns the ledger of a list and no movements. The total of the stock can't pass `most`. If an article is in the list more than
    /// once, its numbers are added.
    ///
    /// # Errors
    ///
    /// `StartTooMany` exactly if the sum of the numbers of the list is above `most`. `Memory` if an allocation fails.
    ///
    /// # Complexity
    ///
    /// Hashes each entry of the list once. Allocates for the articles.
    pub fn begin(
        alloc: Global,
        state: S,
        most: usize,
        start: Vec<(T, usize)>,
    ) -> Result<Ledger<T, S>, LedgerError>
        // The result is the ledger of the list and no movements.
        ensures begun { IfOk result (λ l. IsLedgerOf T.eq start.items [] l.refusals.items l.stock) }
        ensures limit { IfOk result (λ l. l.stock.most ≡ most) }
        ensures too_many { (result ≡ Err LedgerError.StartTooMany) ↔ (most < number_sum start.items) }
        ensures only_memory { number_sum start.items ≤ most → IfErr result (λ e. e ≡ LedgerError.Memory) }
    {
        let stock = stock_at_start(alloc, state, most, start)?;
        Ok(Ledger {
            stock,
            refusals: Vec::new(alloc),
        })
    }

    /// Enters a movement. If the movement would remove more than is there, keeps its refusal instead.
    ///
    /// # Errors
    ///
    /// `TooMany` with the place of the movement only if the total would pass the limit with the movement. `Memory` if an allocation fails.
    /// No clause says what the ledger is after an error.
    ///
    /// # Complexity
    ///
    /// Same as [`enter`]. A refusal is appended to a list, which may allocate.
    pub fn enter(&mut self, movement: Movement<T>) -> Result<(), LedgerError>
        // The ledger has this movement at the end: entered, or among the refusals.
        ensures entered { OnOk result (EntersMovement T.eq self.old self.new movement) }

        // `TooMany p`: with the movement, which is at `p`, the total would pass the limit.
        ensures past { IfTooMany result (λ p. LedgerPassesLimitWith T.eq self.old movement p) }
        ensures limit { self.new.stock.most ≡ self.old.stock.most }
        ensures why { IfErr result (λ e. (e ≡ LedgerError.Memory) ⊎ (e ≡ LedgerError.TooMany movement.place)) }
    {
        if let Some(refusal) = enter(&mut self.stock, movement)? {
            self.refusals.push(refusal).map_err(AllocError::from)?;
        }
        Ok(())
    }
}

/// Returns the balance and the refusals of a ledger.
///
/// # Errors
///
/// An allocation fails.
///
/// # Complexity
///
/// Allocates the balance, and sorts it.
pub fn end<T: Ord + Hash + Drop, S: BuildHasher + Drop>(
    alloc: Global,
    ledger: Ledger<T, S>,
) -> Result<Entered<T>, AllocError>
    // The balance and the refusals are what all movements leave. For each article: at the beginning + in = in the balance + out.
    ensures balance { IfOk result (λ e. IsBalanceOf T.eq T.cmp ledger e.balance.items) }
    ensures leaves { IfOk result (λ e. IsLeftBy T.eq ledger e.balance.items) }
    ensures refusals { IfOk result (λ e. AreRefusalsOf T.eq ledger e.refusals.items) }
{
    let Ledger { stock, refusals } = ledger;
    let balance = balance_of(alloc, stock)?;
    Ok(Entered { balance, refusals })
}
