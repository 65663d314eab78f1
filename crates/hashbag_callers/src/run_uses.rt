//! Callers to copy: a run of steps, and its replies.
ghost use Rattle.std.specs.Prelude.{◌≡◌, ◌+◌, ◌≤◌, [], ◌∷◌, length, OnOk, IfOk};
ghost use Rattle.hashbag.specs.Bag.{Means};
ghost use Rattle.hashbag.specs.Occurrences.{count, add};
ghost use Rattle.hashbag_callers.specs.Transfers.{n_then_one_more};

use hashbag::script::{Reply, Step, run};
use hashbag::{BagError, HashBag};
use std::alloc::{AllocError, Global};
use std::hash::{BuildHasher, Hash};

// Returns two steps: insert the value, then count it.
fn insert_then_count<T: Copy>(alloc: Global, value: T) -> Result<Vec<Step<T>>, AllocError>
    ensures { IfOk result (λ steps. steps.items ≡ Step.Insert value ∷ Step.Count value ∷ []) }
{
    let mut steps = Vec::new(alloc);
    steps.push(Step::Insert(value))?;
    steps.push(Step::Count(value))?;
    Ok(steps)
}

/// Inserts a value and counts it, as two steps of one run, and returns the replies: the count before, and one more.
pub fn insert_and_count<T: Eq + Hash + Copy, S: BuildHasher + Drop>(
    alloc: Global,
    bag: &mut HashBag<T, S>,
    value: T,
) -> Result<Vec<Reply<T>>, BagError>
    requires { length bag.old.items + 1 ≤ bag.old.most }

    // The replies are `Count n` and `Count (n + 1)`, where n is the count before.
    ensures replies { IfOk result (λ list. list.items ≡ n_then_one_more Reply.Count (count T.eq value bag.old.items)) }

    // The bag means its list with one more of the value.
    ensures left { OnOk result (Means bag.new (add T.eq value 1 bag.old.items)) }
{
    let steps = insert_then_count(alloc, value)?;
    let mut replies = Vec::new(alloc);
    run(bag, steps, &mut replies)?;
    Ok(replies)
}
