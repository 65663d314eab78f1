//! Calls on two bags of one kind, which change the first by what the second has. In clauses `held` is what a handle has: a bag, or nothing.
//! The results 1 and 2 are `HASHBAG_MEMORY` and `HASHBAG_TOO_MANY`.
//!
//! - `CombinesTo f a b after`: if `a` and `b` are bags of one kind, `after` has the limit and the hash state of `a`, and each count is f of the counts
//!   in `a` and in `b`.
//! - `BothBags a b P`: if `a` and `b` are bags of one kind, P holds of both. `IfOtherKinds a b P`: if they are bags of different kinds, P holds.
ghost use Rattle.std.specs.Prelude.{◌≡◌, ◌≢◌, ◌+◌, ◌-◌, ◌↔◌, ◌⊎◌, length, min, max, All, true, None};
ghost use Rattle.hashbag_c.specs.Calls.{BothBags, IfOtherKinds};
ghost use Rattle.hashbag_c.specs.Whole.{Combines, CombinesTo, OverfilledBy, UnionPassesLimitIf};

use crate::any::{EMPTY, KIND};
use crate::handle::Handle;
use crate::held::{Held, with_both};
use hashbag_core::{BagError, HashBag};
use std::alloc::Global;
use std::hash::{BuildHasher, Hash};

/// Calls `$call` with the bags of two handles if both are of one kind; the value is the result of the call. If the kinds differ, the value is
/// `KIND`. If a handle is empty, the surrounding function returns `EMPTY`.
macro_rules! with_two_bags {
    ($alloc:ident, $a:ident, $b:ident, $call:ident) => {
        with_both!($alloc, $a, $b, EMPTY, |mut first, second| match (first, second) {
            (Held::Numbers(bag), Held::Numbers(other)) => $call(bag, other),
            (Held::Texts(bag), Held::Texts(other)) => $call(bag, other),
            _ => KIND,
        })
    };
}

fn add<T: Eq + Hash + Clone + Drop, S: BuildHasher + Clone + Drop>(
    into: &mut HashBag<T, S>,
    from: &HashBag<T, S>,
) -> u8
    requires equal { All (λ x. (y : _) → T.is_clone x y → T.eq x y ≡ true) from.now.items }
    ensures combined { result ≡ 0 → Combines T.eq (λ m n. m + n) into.old from.now into.new }
    ensures too_many { (result ≡ 2) ↔ (OverfilledBy into.old from.now) }
    ensures only { result ≢ 0 → (result ≡ 1) ⊎ (result ≡ 2) }
    ensures err { result ≢ 0 → into.new ≡ into.old }
{
    match hashbag_ops::merge_ref(into, from) {
        Ok(()) => 0,
        Err(error) => error.number(),
    }
}

/// Adds all occurrences of the bag of `from` to the bag of `into`, and returns 0: each count is then the sum of both counts. The bag of
/// `from` is unchanged. `into` and `from` must be different handles.
///
/// # Errors
///
/// `HASHBAG_TOO_MANY` if the total would pass the limit of `into`; `HASHBAG_MEMORY` if an allocation fails; `HASHBAG_EMPTY` if a handle is
/// empty; `HASHBAG_KIND` if the bags are of different kinds. Nothing changes then.
#[unsafe(no_mangle)]
pub extern "C" fn hashbag_merge(alloc: Global, into: &mut Handle, from: &mut Handle) -> u8
    ensures combined { result ≡ 0 → CombinesTo (λ m n. m + n) into.old.held from.old.held into.new.held }

    // Of bags of one kind: the result is 2 exactly if the sum of both totals is above the limit of `into`.
    ensures too_many_of_both { BothBags into.old.held from.old.held (λ _ _ _ x y. (result ≡ 2) ↔ (OverfilledBy x y)) }

    // Of bags of one kind: an error is 1 or 2.
    ensures only { BothBags into.old.held from.old.held (λ _ _ _ _ _. result ≢ 0 → (result ≡ 1) ⊎ (result ≡ 2)) }
    ensures kind { IfOtherKinds into.old.held from.old.held (result ≡ KIND) }
    ensures empty { into.old.held ≡ None → result ≡ EMPTY }
    ensures other_empty { from.old.held ≡ None → result ≡ EMPTY }
    ensures unchanged { from.new.held ≡ from.old.held }
    ensures err { result ≢ 0 → into.new.held ≡ into.old.held }
{
    with_two_bags!(alloc, into, from, add)
}

fn lessen<T: Eq + Hash + Drop, S: BuildHasher + Drop>(
    bag: &mut HashBag<T, S>,
    other: &HashBag<T, S>,
) -> u8
    ensures combined { Combines T.eq (λ m n. min m n) bag.old other.now bag.new }
    ensures done { result ≡ 0 }
{
    hashbag_ops::keep_common(bag, other);
    0
}

/// Lowers each count in the bag of `handle` to the lesser of the counts in both bags, and returns 0. The call doesn't allocate,
/// and the bag of `other` is unchanged. `handle` and `other` must be different handles.
///
/// # Errors
///
/// `HASHBAG_EMPTY` if a handle is empty; `HASHBAG_KIND` if the bags are of different kinds. Nothing changes then.
#[unsafe(no_mangle)]
pub extern "C" fn hashbag_keep_common(alloc: Global, handle: &mut Handle, other: &mut Handle) -> u8
    ensures combined { CombinesTo (λ m n. min m n) handle.old.held other.old.held handle.new.held }
    ensures done { BothBags handle.old.held other.old.held (λ _ _ _ _ _. result ≡ 0) }
    ensures kind { IfOtherKinds handle.old.held other.old.held (result ≡ KIND) }
    ensures empty { handle.old.held ≡ None → result ≡ EMPTY }
    ensures other_empty { other.old.held ≡ None → result ≡ EMPTY }
    ensures unchanged { other.new.held ≡ other.old.held }
    ensures err { result ≢ 0 → handle.new.held ≡ handle.old.held }
{
    with_two_bags!(alloc, handle, other, lessen)
}

fn subtract<T: Eq + Hash + Drop, S: BuildHasher + Drop>(
    bag: &mut HashBag<T, S>,
    other: &HashBag<T, S>,
) -> u8
    ensures combined { Combines T.eq (λ m n. m - n) bag.old other.now bag.new }
    ensures done { result ≡ 0 }
{
    hashbag_ops::take_away(bag, other);
    0
}

/// Subtracts each count in the bag of `other` from the count in the bag of `handle`, never below 0, and returns 0. The call doesn't
/// allocate, and the bag of `other` is unchanged. `handle` and `other` must be different handles.
///
/// # Errors
///
/// `HASHBAG_EMPTY` if a handle is empty; `HASHBAG_KIND` if the bags are of different kinds. Nothing changes then.
#[unsafe(no_mangle)]
pub extern "C" fn hashbag_take_away(alloc: Global, handle: &mut Handle, other: &mut Handle) -> u8
    ensures combined { CombinesTo (λ m n. m - n) handle.old.held other.old.held handle.new.held }
    ensures done { BothBags handle.old.held other.old.held (λ _ _ _ _ _. result ≡ 0) }
    ensures kind { IfOtherKinds handle.old.held other.old.held (result ≡ KIND) }
    ensures empty { handle.old.held ≡ None → result ≡ EMPTY }
    ensures other_empty { other.old.held ≡ None → result ≡ EMPTY }
    ensures unchanged { other.new.held ≡ other.old.held }
    ensures err { result ≢ 0 → handle.new.held ≡ handle.old.held }
{
    with_two_bags!(alloc, handle, other, subtract)
}

// Raises each count in `into` to the greater of the counts in both bags, by a copy of `from`.
fn raise<T: Eq + Hash + Clone + Drop, S: BuildHasher + Clone + Drop>(
    into: &mut HashBag<T, S>,
    from: &HashBag<T, S>,
) -> u8
    requires equal { All (λ x. (y : _) → T.is_clone x y → T.eq x y ≡ true) from.now.items }
    ensures combined { result ≡ 0 → Combines T.eq (λ m n. max m n) into.old from.now into.new }
    ensures beyond { UnionPassesLimitIf T.eq into.old from.now (result ≡ 2) }
    ensures only { result ≢ 0 → (result ≡ 1) ⊎ (result ≡ 2) }
    ensures err { result ≢ 0 → into.new ≡ into.old }
{
    let Ok(copy) = from.clone() else {
        return 1;
    };
    match hashbag_ops::keep_most(into, copy) {
        Ok(()) => 0,
        Err(BagError::Memory) => 1,
        Err(_) => 2,
    }
}

/// Raises each count in the bag of `into` to the greater of the counts in both bags, and returns 0. The bag of `from` is unchanged. `into`
/// and `from` must be different handles. The call makes a copy of the bag of `from`, and frees it.
///
/// # Errors
///
/// `HASHBAG_MEMORY` if an allocation fails; `HASHBAG_TOO_MANY` if the total of the greater counts would pass the limit of `into`;
/// `HASHBAG_EMPTY` if a handle is empty; `HASHBAG_KIND` if the bags are of different kinds. Nothing changes then.
#[unsafe(no_mangle)]
pub extern "C" fn hashbag_keep_most(alloc: Global, into: &mut Handle, from: &mut Handle) -> u8
    ensures combined { result ≡ 0 → CombinesTo (λ m n. max m n) into.old.held from.old.held into.new.held }

    // If the result is 2, each union of both bags is larger than the limit of `into`.
    ensures beyond { BothBags into.old.held from.old.held (λ _ _ eq x y. UnionPassesLimitIf eq x y (result ≡ 2)) }

    // Of bags of one kind: an error is 1 or 2.
    ensures only { BothBags into.old.held from.old.held (λ _ _ _ _ _. result ≢ 0 → (result ≡ 1) ⊎ (result ≡ 2)) }
    ensures kind { IfOtherKinds into.old.held from.old.held (result ≡ KIND) }
    ensures empty { into.old.held ≡ None → result ≡ EMPTY }
    ensures other_empty { from.old.held ≡ None → result ≡ EMPTY }
    ensures unchanged { from.new.held ≡ from.old.held }
    ensures err { result ≢ 0 → into.new.held ≡ into.old.held }
{
    with_two_bags!(alloc, into, from, raise)
}
