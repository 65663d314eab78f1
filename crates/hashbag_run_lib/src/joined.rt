//! Two runs of steps, and the joins of the bags that they leave.
ghost use Rattle.std.specs.Prelude.{◌≡◌, IfOk, IfErr, OnOk, OnErr};
ghost use Rattle.hashbag.specs.Pairs.{ran, IsDone, AreStoppedRunsOrRest};
ghost use Rattle.hashbag_run_lib.specs.RunAndJoin.{AreCopiesOf, AreJoinCopiesOf, AreJoinsAfter};

use hashbag::script::{Joins, Reply, Step, joins_of, run_pair};
use hashbag::{BagError, HashBag};
use std::alloc::{AllocError, Global};
use std::hash::{BuildHasher, Hash};

/// The four joins of two bags, with copies of the values.
#[derive(Drop)]
pub struct JoinLists<T> {
    /// Copies of [`Joins::outer`].
    pub outer: Vec<(T, usize, usize)>,
    /// Copies of [`Joins::difference`].
    pub difference: Vec<(T, usize)>,
    /// Copies of [`Joins::signed`].
    pub signed: Vec<(T, isize)>,
    /// Copies of [`Joins::not_in`].
    pub not_in: Vec<(T, usize)>,
}

// Returns the pairs with copies of their values.
fn copied_pairs<T: Copy, N: Copy>(
    alloc: Global,
    pairs: &Vec<(&T, N)>,
) -> Result<Vec<(T, N)>, AllocError>
    ensures { IfOk result (λ copies. AreCopiesOf pairs.now.items copies.items) }
{
    pairs.iter().map(|pair| (*pair.0, pair.1)).collect(alloc)
}

// Returns the joined items with copies of their values.
fn copied_joins<T: Copy>(
    alloc: Global,
    joins: &Vec<(&T, usize, usize)>,
) -> Result<Vec<(T, usize, usize)>, AllocError>
    ensures { IfOk result (λ copies. AreJoinCopiesOf joins.now.items copies.items) }
{
    joins
        .iter()
        .map(|join| (*join.0, join.1, join.2))
        .collect(alloc)
}

// Returns the joins with copies of their values.
fn copied<T: Copy + Drop>(alloc: Global, joins: &Joins<'_, T>) -> Result<JoinLists<T>, AllocError>
    ensures outer { IfOk result (λ lists. AreJoinCopiesOf joins.now.outer.items lists.outer.items) }
    ensures difference { IfOk result (λ lists. AreCopiesOf joins.now.difference.items lists.difference.items) }
    ensures signed { IfOk result (λ lists. AreCopiesOf joins.now.signed.items lists.signed.items) }
    ensures not_in { IfOk result (λ lists. AreCopiesOf joins.now.not_in.items lists.not_in.items) }
{
    Ok(JoinLists {
        outer: copied_joins(alloc, &joins.outer)?,
        difference: copied_pairs(alloc, &joins.difference)?,
        signed: copied_pairs(alloc, &joins.signed)?,
        not_in: copied_pairs(alloc, &joins.not_in)?,
    })
}

/// Runs steps on two bags: first all steps of the first bag, then all steps of the second. Appends a reply for each step, and returns the joins
/// of the bags that the steps leave.
///
/// # Errors
///
/// `Memory` if an allocation fails. Then no joins are returned. If [`run_pair`] failed, the runs are as it leaves them; else both runs are done.
pub fn run_and_join<T: Eq + Hash + Copy + Drop, S: BuildHasher + Drop, S2: BuildHasher + Drop>(
    alloc: Global,
    a: &mut HashBag<T, S>,
    b: &mut HashBag<T, S2>,
    steps_a: Vec<Step<T>>,
    steps_b: Vec<Step<T>>,
    replies_a: &mut Vec<Reply<T>>,
    replies_b: &mut Vec<Reply<T>>,
) -> Result<JoinLists<T>, BagError>
    // Whatever lists the bags meant, each step replies as a plain list replies, each bag means what its list has become, and the four results
    // are the joins of what the two lists have become.
    ensures first { OnOk result (IsDone T.eq (ran a.old a.new steps_a.items replies_a.old.items replies_a.new.items)) }
    ensures second { OnOk result (IsDone T.eq (ran b.old b.new steps_b.items replies_b.old.items replies_b.new.items)) }
    ensures joined { IfOk result (λ joins. AreJoinsAfter T.eq a.old steps_a.items b.old steps_b.items joins) }
    ensures first_hasher { a.new.hasher ≡ a.old.hasher }
    ensures second_hasher { b.new.hasher ≡ b.old.hasher }

    // Only an allocation can fail.
    ensures memory { IfErr result (λ e. e ≡ BagError.Memory) }

    // The runs stopped before the first step, since a list of replies had no room for all replies; or at a step of either bag; or both runs are done.
    ensures stopped { OnErr result (AreStoppedRunsOrRest T.eq a.old a.new steps_a replies_a.old replies_a.new
        b.old b.new steps_b replies_b.old replies_b.new) }
{
    run_pair(a, b, steps_a, steps_b, replies_a, replies_b)?;
    let joins = joins_of(alloc, a, b)?;
    Ok(copied(alloc, &joins)?)
}
