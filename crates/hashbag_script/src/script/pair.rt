//! Runs of steps on two bags, one after the other.
ghost use Rattle.std.specs.Prelude.{◌≡◌, length, IfErr, OnOk, OnErr};
ghost use Rattle.hashbag_script.specs.Pairs.{ran, IsDone, LackRoom, Stays, AreStoppedRuns};
ghost use Rattle.hashbag_script.specs.Script.{IfRoomy, OnRoomy};
ghost use Rattle.hashbag_script.specs.Turns.{AreTablesInTurn, IsBoundedRun};

use crate::script::{Reply, Step, run};
use hashbag_core::{BagError, HashBag};
use std::hash::{BuildHasher, Hash};

/// Does the steps of two bags, all steps of the first bag first, and appends a reply for each. The states of the bags may be of different
/// types.
///
/// # Errors
///
/// `Memory` if an allocation fails. The replies are allocated first: if that fails, nothing changes. Else each run is done as by [`run`], and can
/// stop at the same steps. If the first run is stopped, the second bag and its replies are unchanged. If the second run is stopped, the first
/// run was done. So the replies show how far each run was done.
///
/// # Examples
///
/// ```
/// let (mut a, mut b) = (HashBag::new(alloc), HashBag::new(alloc));
/// let (mut first, mut second) = (Vec::new(alloc), Vec::new(alloc));
/// let steps_a = vec![in alloc; Step::Insert("apple")]?;
/// let steps_b = vec![in alloc; Step::Insert("pear"), Step::Clear]?;
/// script::run_pair(&mut a, &mut b, steps_a, steps_b, &mut first, &mut second)?;
/// second.as_slice(); // [Count(0), Done]
/// Ok(())
/// ```
pub fn run_pair<T: Eq + Hash + Drop, S: BuildHasher + Drop, S2: BuildHasher + Drop>(
    a: &mut HashBag<T, S>,
    b: &mut HashBag<T, S2>,
    steps_a: Vec<Step<T>>,
    steps_b: Vec<Step<T>>,
    replies_a: &mut Vec<Reply<T>>,
    replies_b: &mut Vec<Reply<T>>,
) -> Result<(), BagError>
    // `ran` is one run: its bag and its replies, before and after. Each reply is the one that the step gives on a plain list of the bag's
    // occurrences. After the run the bag has the occurrences of that list.
    ensures first { OnOk result (IsDone T.eq (ran a.old a.new steps_a.items replies_a.old.items replies_a.new.items)) }
    ensures second { OnOk result (IsDone T.eq (ran b.old b.new steps_b.items replies_b.old.items replies_b.new.items)) }
    ensures first_hasher { a.new.hasher ≡ a.old.hasher }
    ensures second_hasher { b.new.hasher ≡ b.old.hasher }

    // Only a failed allocation stops the runs.
    ensures memory { IfErr result (λ e. e ≡ BagError.Memory) }
    ensures stopped { OnErr result (AreStoppedRuns T.eq a.old a.new steps_a replies_a.old replies_a.new
        b.old b.new steps_b replies_b.old replies_b.new) }

    // If the tables have room for all values that arrive, and no step is `Reserve` or `ShrinkToFit`, each run keeps its slots. Then only the
    // allocation of the replies can fail, before any step: if the call fails, they lacked room, and both bags and their replies are unchanged.
    ensures first_slots { IfRoomy T.eq a.old steps_a.items (length a.new.tables.newer ≡ length a.old.tables.newer) }
    ensures second_slots { IfRoomy T.eq b.old steps_b.items (length b.new.tables.newer ≡ length b.old.tables.newer) }
    ensures roomy { OnRoomy T.eq a.old steps_a b.old steps_b result (LackRoom replies_a.old steps_a replies_b.old steps_b) }
    ensures first_roomy { OnRoomy T.eq a.old steps_a b.old steps_b result (Stays a.old a.new replies_a.old replies_a.new) }
    ensures second_roomy { OnRoomy T.eq a.old steps_a b.old steps_b result (Stays b.old b.new replies_b.old replies_b.new) }

    // The tables of each bag follow from the tables before, as in one run. If the bag was empty and had no slots, they are bounded.
    ensures first_tables { AreTablesInTurn T.eq (ran a.old a.new steps_a.items replies_a.old.items replies_a.new.items) }
    ensures second_tables { AreTablesInTurn T.eq (ran b.old b.new steps_b.items replies_b.old.items replies_b.new.items) }
    ensures first_bounded { IsBoundedRun T.eq (ran a.old a.new steps_a.items replies_a.old.items replies_a.new.items) }
    ensures second_bounded { IsBoundedRun T.eq (ran b.old b.new steps_b.items replies_b.old.items replies_b.new.items) }
{
    // Only for the proof: it uses the clauses `waiting` and `smaller` of `waiting`.
    let _waiting_a = a.waiting();
    let _waiting_b = b.waiting();
    replies_a.reserve(steps_a.len())?;
    replies_b.reserve(steps_b.len())?;
    run(a, steps_a, replies_a)?;
    run(b, steps_b, replies_b)
}
