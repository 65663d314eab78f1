//! Entering a movement into a stock.
ghost use Rattle.std.specs.Prelude.{◌≡◌, ◌⊎◌, ◌+◌, ◌≤◌, ◌↔◌, length, OnOk, OnErr, IfOk, IfErr, IfSome, IsSome};
ghost use Rattle.hashbag_ledger_lib.specs.Ledger.{coming, stock_of, ChangesItems, ChangesTotal, PassesLimitWith, RefusesMovement};

use crate::movements::{Change, Movement, Place, Refusal};
use hashbag_core::{BagError, HashBag};
use std::alloc::{AllocError, Global};
use std::hash::{BuildHasher, Hash};

/// Why movements can't be entered.
#[derive(Clone, Copy, PartialEq, Eq, Debug)]
pub enum LedgerError {
    /// An allocation failed.
    Memory,
    /// The sum of the numbers of the opening stock is above the limit.
    StartTooMany,
    /// With the movement at this place the total of the stock would pass its limit.
    TooMany(Place),
}

impl From<AllocError> for LedgerError {
    ghost use Rattle.hashbag_ledger_lib.specs.declared.entering.LedgerError.TheVariants.{Memory};

    ghost from_gives = { λ _ e. e ≡ Memory };

    fn from(_e: AllocError) -> LedgerError {
        LedgerError::Memory
    }
}

/// Enters a movement into the stock and returns `None`. If the movement would remove more than is there, returns its refusal, and the stock
/// is unchanged.
///
/// # Errors
///
/// `TooMany` with the place of the movement exactly if the total would pass the limit of the stock. `Memory` if an allocation fails.
/// After an error the stock is unchanged.
///
/// # Complexity
///
/// A movement that adds hashes its article once, and allocates only if the article is absent and no room is left. A movement that
/// removes hashes its article at most twice, and never allocates.
pub fn enter<T: Eq + Hash + Drop, S: BuildHasher + Drop>(
    stock: &mut HashBag<T, S>,
    movement: Movement<T>,
) -> Result<Option<Refusal<T>>, LedgerError>
    // If the result is `None`, the movement was entered: only the number of its article changed, and the total by as much.
    ensures entered { IfOk result (λ r. r ≡ None → ChangesItems T.eq movement stock.old.items stock.new.items) }
    ensures total { IfOk result (λ r. r ≡ None → ChangesTotal movement.change stock.old.items stock.new.items) }

    // If the result is a refusal, the movement would remove more than is there.
    ensures refusal { IfOk result (λ r. IfSome r (RefusesMovement T.eq movement (stock_of T.eq stock.old.items))) }
    ensures unchanged { IfOk result (λ r. IsSome r → stock.new ≡ stock.old) }

    // If the result is `Ok`, the total with what comes in is within the limit.
    ensures fits { OnOk result (length stock.old.items + coming movement.change ≤ stock.old.most) }
    ensures limit { stock.new.most ≡ stock.old.most }
    ensures why { IfErr result (λ e. (e ≡ LedgerError.Memory) ⊎ (e ≡ LedgerError.TooMany movement.place)) }
    ensures too_many { (result ≡ Err (LedgerError.TooMany movement.place)) ↔ PassesLimitWith stock.old movement }
    ensures err { OnErr result (stock.new ≡ stock.old) }
{
    let Movement {
        place,
        article,
        change,
    } = movement;
    match change {
        Change::In(n) => match stock.insert_many(article, n) {
            Ok(_) => Ok(None),
            Err(BagError::TooMany) => Err(LedgerError::TooMany(place)),
            Err(_) => Err(LedgerError::Memory),
        },
        Change::Out(asked) => {
            let there = stock.contains(&article);
            if there < asked {
                return Ok(Some(Refusal {
                    place,
                    article,
                    asked,
                    there,
                }));
            }
            stock.remove_up_to(&article, asked);
            Ok(None)
        }
    }
}
