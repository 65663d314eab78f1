//! Callers to copy: after room was made once, no insertion can run out of memory.
ghost use Rattle.std.specs.Prelude.{◌≡◌, ◌+◌, ◌<◌, ◌≤◌, ◌↔◌, length, OnOk, OnErr};
ghost use Rattle.hashbag.specs.Occurrences.{count};
ghost use Rattle.hashbag.specs.Tables.{room};
ghost use Rattle.hashbag.specs.Unions.{IsSumOf};
ghost use Rattle.hashbag_callers.specs.Bags.{KeepsSlots};

use hashbag::{BagError, HashBag};
use std::hash::{BuildHasher, Hash};

/// Inserts the values in turn, up to the first with which the total would pass the limit.
///
/// Room for all values is made before the first insertion. So if an allocation fails, it fails there, and nothing has changed. No total is
/// tested here. After `TooMany` the bag is full: the values before the one that failed are inserted.
pub fn insert_all<T: Eq + Hash + Drop, S: BuildHasher + Drop>(
    bag: &mut HashBag<T, S>,
    values: Vec<T>,
) -> Result<(), BagError>
    // Each count is the count before plus how often the value is in `values`.
    ensures counts { OnOk result (IsSumOf T.eq bag.old.items values.items bag.new.items) }
    ensures len { OnOk result (length bag.new.items ≡ length bag.old.items + length values.items) }

    // If there was room for all values, the number of slots is the same.
    ensures slots { OnOk result (length values.items ≤ room bag.old.tables → KeepsSlots bag.old.tables bag.new.tables) }
    ensures none_lost { OnErr result ((v : T) → count T.eq v bag.old.items ≤ count T.eq v bag.new.items) }
    ensures full { result ≡ Err BagError.TooMany → length bag.new.items ≡ bag.old.most }
    ensures past { result ≡ Err BagError.TooMany → bag.old.most < length bag.old.items + length values.items }
    ensures unchanged { result ≡ Err BagError.Memory → bag.new ≡ bag.old }
    ensures no_room { result ≡ Err BagError.Memory → room bag.old.tables < length values.items }
{
    bag.reserve(values.len())?;
    for value in values {
        bag.insert(value)?;
    }
    Ok(())
}

/// Inserts all values, or none, by one extend.
///
/// Before the extend, room is made and the total is tested. So the extend can't fail and builds no table, which is proved.
pub fn extend_all<T: Eq + Hash + Drop, S: BuildHasher + Drop>(
    bag: &mut HashBag<T, S>,
    values: Vec<T>,
) -> Result<(), BagError>
    ensures len { OnOk result (length bag.new.items ≡ length bag.old.items + length values.items) }

    // If there was room for all values, the number of slots is the same, and no table was built.
    ensures slots { OnOk result (length values.items ≤ room bag.old.tables → KeepsSlots bag.old.tables bag.new.tables) }
    ensures built { OnOk result (length values.items ≤ room bag.old.tables → bag.new.tables.built ≡ bag.old.tables.built) }
    ensures err { OnErr result (bag.new ≡ bag.old) }
    ensures too_many { (result ≡ Err BagError.TooMany) ↔ (bag.old.most < length bag.old.items + length values.items) }
    ensures no_room { result ≡ Err BagError.Memory → room bag.old.tables < length values.items }
{
    let more = values.len();
    if more > bag.limit() - bag.len() {
        return Err(BagError::TooMany);
    }
    bag.reserve(more)?;
    bag.extend(values.into_iter()).unwrap();
    Ok(())
}
