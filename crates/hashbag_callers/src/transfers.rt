//! Callers to copy: occurrences that move from one bag to another. Together both bags have each value as often as before.
ghost use Rattle.std.specs.Prelude.{◌≡◌, ◌+◌, ◌<◌, ◌≤◌, ◌↔◌, true, length, OnOk, OnErr};
ghost use Rattle.hashbag.specs.Occurrences.{count};
ghost use Rattle.hashbag_callers.specs.Transfers.{count_together};

use hashbag::{BagError, HashBag};
use std::hash::{BuildHasher, Hash};

/// Why nothing is transferred.
#[derive(Debug, Drop)]
pub enum TransferError {
    /// The bag has fewer than `n` occurrences of the value.
    TooFew,
    /// The insertion into the other bag failed, or the value couldn't be cloned.
    Bag(BagError),
}

/// Moves `n` occurrences of a value from one bag to another. After an error nothing has changed.
///
/// The insertion comes first, since it may fail. The removal can't.
pub fn transfer<T: Eq + Hash + Copy + Drop, S: BuildHasher + Drop, S2: BuildHasher + Drop>(
    from: &mut HashBag<T, S>,
    to: &mut HashBag<T, S2>,
    value: T,
    n: usize,
) -> Result<(), TransferError>
    // Each value w occurs in both bags together as often as before.
    ensures sum { (w : T) → count_together T.eq w from.new to.new ≡ count_together T.eq w from.old to.old }
    ensures moved { OnOk result (count T.eq value to.new.items ≡ count T.eq value to.old.items + n) }
    ensures too_few { (result ≡ Err TransferError.TooFew) ↔ (count T.eq value from.old.items < n) }
    ensures same_from { OnErr result (from.new ≡ from.old) }
    ensures same_to { OnErr result (to.new ≡ to.old) }
{
    if from.contains(&value) < n {
        return Err(TransferError::TooFew);
    }
    match to.insert_many(value, n) {
        Ok(_) => {
            from.remove_up_to(&value, n);
            Ok(())
        }
        Err(e) => Err(TransferError::Bag(e)),
    }
}

/// Moves `n` occurrences of a value from one bag to another, by a clone of the value. After an error nothing has changed.
pub fn transfer_clone<T: Eq + Hash + Clone + Drop, S: BuildHasher + Drop, S2: BuildHasher + Drop>(
    from: &mut HashBag<T, S>,
    to: &mut HashBag<T, S2>,
    value: &T,
    n: usize,
) -> Result<(), TransferError>
    requires equal { (y : T) → T.is_clone value.now y → T.eq value.now y ≡ true }

    // Each value w occurs in both bags together as often as before.
    ensures sum { (w : T) → count_together T.eq w from.new to.new ≡ count_together T.eq w from.old to.old }
    ensures moved { OnOk result (count T.eq value.now to.new.items ≡ count T.eq value.now to.old.items + n) }
    ensures too_few { (result ≡ Err TransferError.TooFew) ↔ (count T.eq value.now from.old.items < n) }
    ensures same_from { OnErr result (from.new ≡ from.old) }
    ensures same_to { OnErr result (to.new ≡ to.old) }
{
    if from.contains(value) < n {
        return Err(TransferError::TooFew);
    }
    let Ok(copy) = value.clone() else {
        return Err(TransferError::Bag(BagError::Memory));
    };
    match to.insert_many(copy, n) {
        Ok(_) => {
            from.remove_up_to(value, n);
            Ok(())
        }
        Err(e) => Err(TransferError::Bag(e)),
    }
}
