//! The joins of two bags, collected.
ghost use Rattle.std.specs.Prelude.{◌≡◌, IfOk, IfErr};
ghost use Rattle.hashbag_core.specs.JoinsLeft.{excesses_of_join, subtracted, lacking_of_join};
ghost use Rattle.hashbag_script.specs.Collected.{CollectsOuterJoin, CollectsDifference, CollectsSignedDifference, CollectsNotIn};

use hashbag_core::joins::limited_difference;
use hashbag_core::{BagError, HashBag};
use std::alloc::{AllocError, Global};
use std::hash::{BuildHasher, Hash};

/// The four joins of a bag with another, collected.
#[derive(Drop)]
pub struct Joins<'a, T> {
    /// What [`HashBag::outer_join`] gives.
    pub outer: Vec<(&'a T, usize, usize)>,
    /// What [`HashBag::difference`] gives.
    pub difference: Vec<(&'a T, usize)>,
    /// What [`HashBag::signed_difference`] gives.
    pub signed: Vec<(&'a T, isize)>,
    /// What [`HashBag::not_in`] gives.
    pub not_in: Vec<(&'a T, usize)>,
}

// Returns the values of an outer join that the first bag has more often, with how many more.
fn difference_of<'a, T>(
    alloc: Global,
    outer: &Vec<(&'a T, usize, usize)>,
) -> Result<Vec<(&'a T, usize)>, AllocError>
    ensures { IfOk result (λ entries. entries.items ≡ excesses_of_join outer.now.items) }
{
    outer
        .iter()
        .map(|join| (join.0, join.1.saturating_sub(join.2)))
        .filter(|entry| entry.1 > 0)
        .collect(alloc)
}

// Returns the values of an outer join, with the first count less the second. Room for all of them is allocated at once.
fn signed_difference_of<'a, T>(
    alloc: Global,
    outer: &Vec<(&'a T, usize, usize)>,
) -> Result<Vec<(&'a T, isize)>, AllocError>
    ensures { IfOk result (λ entries. entries.items ≡ subtracted outer.now.items) }
{
    outer
        .iter()
        .map(|join| (join.0, limited_difference(join.1, join.2)))
        .collect(alloc)
}

// Returns the values of an outer join that the second bag lacks, with their counts in the first.
fn not_in_of<'a, T>(
    alloc: Global,
    outer: &Vec<(&'a T, usize, usize)>,
) -> Result<Vec<(&'a T, usize)>, AllocError>
    ensures { IfOk result (λ entries. entries.items ≡ lacking_of_join outer.now.items) }
{
    outer
        .iter()
        .filter(|join| join.2 == 0)
        .map(|join| (join.0, join.1))
        .collect(alloc)
}

/// Collects the four joins of `a` with `b`. It changes neither bag.
///
/// # Errors
///
/// `Memory` if an allocation fails. Then there are no joins.
///
/// # Complexity
///
/// It looks each value up once, for the outer join, from which the other three follow. It allocates the four lists.
///
/// # Examples
///
/// ```
/// let mut ordered = HashBag::new(alloc);
/// ordered.insert_many("apple", 3)?;
/// let mut delivered = HashBag::new(alloc);
/// delivered.insert("apple")?;
/// let joins = script::joins_of(alloc, &ordered, &delivered)?;
/// joins.outer.len(); // 1
/// joins.difference.first().map(|join| join.1); // Some(2)
/// Ok(())
/// ```
pub fn joins_of<'a, T: Eq + Hash + Drop, S: BuildHasher + Drop, S2: BuildHasher + Drop>(
    alloc: Global,
    a: &'a HashBag<T, S>,
    b: &'a HashBag<T, S2>,
) -> Result<Joins<'a, T>, BagError>
    // Each returned list is that join of the two bags, whichever lists they mean.
    ensures outer { IfOk result (λ joins. CollectsOuterJoin T.eq a.now b.now joins.outer.items) }
    ensures difference { IfOk result (λ joins. CollectsDifference T.eq a.now b.now joins.difference.items) }
    ensures signed { IfOk result (λ joins. CollectsSignedDifference T.eq a.now b.now joins.signed.items) }
    ensures not_in { IfOk result (λ joins. CollectsNotIn T.eq a.now b.now joins.not_in.items) }
    ensures memory { IfErr result (λ e. e ≡ BagError.Memory) }
{
    let outer = a.outer_join(b).collect(alloc)?;
    let difference = difference_of(alloc, &outer)?;
    let signed = signed_difference_of(alloc, &outer)?;
    let not_in = not_in_of(alloc, &outer)?;
    Ok(Joins {
        outer,
        difference,
        signed,
        not_in,
    })
}
