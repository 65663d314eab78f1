//! Bags that are built from two others, which stay unchanged.
ghost use Rattle.std.specs.Prelude.{◌≡◌, ◌+◌, ◌<◌, ◌≤◌, ◌↔◌, length, All, true, IfErr, IfOk};
ghost use Rattle.hashbag_core.specs.Held.{FitsLimit};
ghost use Rattle.hashbag_ops.specs.Unions.{IsUnion, IfUnion, IsSumOf, IsIntersection};

use crate::combine::{keep_common, keep_most, merge_ref};
use hashbag_core::{BagError, HashBag};
use std::hash::{BuildHasher, Hash};

/// Returns the sum of two bags: each count is the sum of both. It has the limit of the first, and a clone of its hash state.
///
/// The caller ensures that clones of the values equal them.
///
/// # Errors
///
/// - `TooMany` exactly if the total would pass the limit of `a`. That is tested before anything is cloned.
/// - `Memory` if an allocation fails, or the clone of a value or of a state.
///
/// # Complexity
///
/// It clones both bags. Each distinct value of `a` is hashed once, and again if the sum grows; each of `b` at most four times.
///
/// # Examples
///
/// ```
/// let mut stock: HashBag<&str> = HashBag::new(alloc);
/// stock.insert_many("bolt", 2)?;
/// let mut delivery: HashBag<&str> = HashBag::new(alloc);
/// delivery.insert_many("bolt", 3)?;
/// ops::sum(&stock, &delivery)?.contains(&"bolt"); // 5
/// stock.contains(&"bolt"); // 2
/// Ok(())
/// ```
pub fn sum<
    T: Eq + Hash + Clone + Drop,
    S: BuildHasher + Clone + Drop,
    S2: BuildHasher + Clone + Drop,
>(a: &HashBag<T, S>, b: &HashBag<T, S2>) -> Result<HashBag<T, S>, BagError>
    requires first { All (λ x. (y : _) → T.is_clone x y → T.eq x y ≡ true) a.now.items }
    requires second { All (λ x. (y : _) → T.is_clone x y → T.eq x y ≡ true) b.now.items }
    ensures counts { IfOk result (λ bag. IsSumOf T.eq a.now.items b.now.items bag.items) }
    ensures len { IfOk result (λ bag. length bag.items ≡ length a.now.items + length b.now.items) }
    ensures limit { IfOk result (λ bag. bag.most ≡ a.now.most) }
    ensures hasher { IfOk result (λ bag. S.is_clone a.now.hasher bag.hasher) }
    ensures too_many { (result ≡ Err BagError.TooMany) ↔ (a.now.most < length a.now.items + length b.now.items) }

    // If both totals together are within the limit of `a`, it fails only with `Memory`.
    ensures only_memory { FitsLimit (length b.now.items) a.now → IfErr result (λ e. e ≡ BagError.Memory) }
{
    if b.len() > a.limit() - a.len() {
        return Err(BagError::TooMany);
    }
    let mut bag = a.clone()?;
    merge_ref(&mut bag, b)?;
    Ok(bag)
}

/// Returns the union of two bags: each count is the greater of both. It has the limit of the first, and a clone of its hash state.
///
/// The caller ensures that clones of the values equal them.
///
/// # Errors
///
/// - `TooMany` only if the total of the greater counts would pass the limit of `a`.
/// - `Memory` if an allocation fails, or the clone of a value or of a state.
///
/// # Complexity
///
/// It clones both bags. Each distinct value of `a` is hashed at most three times, and each of `b` at most four times.
///
/// # Examples
///
/// ```
/// let mut needed: HashBag<&str> = HashBag::new(alloc);
/// needed.insert_many("bolt", 2)?;
/// let mut other: HashBag<&str> = HashBag::new(alloc);
/// other.insert_many("bolt", 3)?;
/// ops::union(&needed, &other)?.contains(&"bolt"); // 3
/// needed.contains(&"bolt"); // 2
/// Ok(())
/// ```
pub fn union<
    T: Eq + Hash + Clone + Drop,
    S: BuildHasher + Clone + Drop,
    S2: BuildHasher + Clone + Drop,
>(a: &HashBag<T, S>, b: &HashBag<T, S2>) -> Result<HashBag<T, S>, BagError>
    requires first { All (λ x. (y : _) → T.is_clone x y → T.eq x y ≡ true) a.now.items }
    requires second { All (λ x. (y : _) → T.is_clone x y → T.eq x y ≡ true) b.now.items }
    ensures counts { IfOk result (λ bag. IsUnion T.eq a.now.items b.now.items bag.items) }
    ensures len { IfOk result (λ bag. length bag.items ≤ length a.now.items + length b.now.items) }
    ensures limit { IfOk result (λ bag. bag.most ≡ a.now.most) }
    ensures hasher { IfOk result (λ bag. S.is_clone a.now.hasher bag.hasher) }

    // If both totals together fit, only an allocation or a clone can fail.
    ensures fits { FitsLimit (length b.now.items) a.now → IfErr result (λ e. e ≡ BagError.Memory) }

    // n is the total of the greater counts. If it passes the limit, a clone may still fail first, with `Memory`.
    ensures past_limit { IfUnion T.eq a.now b.now (λ n. result ≡ Err BagError.TooMany → a.now.most < n) }
    ensures only_memory { IfUnion T.eq a.now b.now (λ n. n ≤ a.now.most → IfErr result (λ e. e ≡ BagError.Memory)) }
{
    let mut bag = a.clone()?;
    keep_most(&mut bag, b.clone()?)?;
    Ok(bag)
}

/// Returns what two bags have in common: each count is the lesser of both. It has the limit of the first, and a clone of its hash state.
///
/// The caller ensures that clones of the values equal them.
///
/// # Errors
///
/// `Memory` if an allocation fails, or the clone of a value or of the state.
///
/// # Complexity
///
/// It clones `a`, and hashes each of its distinct values twice.
///
/// # Examples
///
/// ```
/// let mut stock: HashBag<&str> = HashBag::new(alloc);
/// stock.insert_many("bolt", 5)?;
/// let mut order: HashBag<&str> = HashBag::new(alloc);
/// order.insert_many("bolt", 3)?;
/// ops::intersection(&stock, &order)?.contains(&"bolt"); // 3
/// stock.contains(&"bolt"); // 5
/// Ok(())
/// ```
pub fn intersection<
    T: Eq + Hash + Clone + Drop,
    S: BuildHasher + Clone + Drop,
    S2: BuildHasher + Drop,
>(a: &HashBag<T, S>, b: &HashBag<T, S2>) -> Result<HashBag<T, S>, BagError>
    requires first { All (λ x. (y : _) → T.is_clone x y → T.eq x y ≡ true) a.now.items }
    ensures counts { IfOk result (λ bag. IsIntersection T.eq a.now.items b.now.items bag.items) }
    ensures len { IfOk result (λ bag. length bag.items ≤ length a.now.items) }
    ensures limit { IfOk result (λ bag. bag.most ≡ a.now.most) }
    ensures hasher { IfOk result (λ bag. S.is_clone a.now.hasher bag.hasher) }
    ensures memory { IfErr result (λ e. e ≡ BagError.Memory) }
{
    let mut bag = a.clone()?;
    keep_common(&mut bag, b);
    Ok(bag)
}
