//! Whole runs of steps on a bag.
ghost use Rattle.std.specs.Prelude.{◌≡◌, ◌+◌, false, length, IsOk, IfOk, IfErr, OnOk, OnErr};
ghost use Rattle.hashbag_core.specs.Bag.{Means, IsBagOf, limited};
ghost use Rattle.hashbag_core.specs.Occurrences.{IsBag};
ghost use Rattle.hashbag_script.specs.Pairs.{ran, IsUnbegunRun, IsStoppedRun};
ghost use Rattle.hashbag_script.specs.Rows.{insert_row, replace_row, try_take_row, take_all_row, entry_set_row, retain_row, limit_row, quota as quota_of};
ghost use Rattle.hashbag_script.specs.Script.{step_in, entry_or_in, reserves_or_shrinks, ShrinksSlots, AppendsReplies, LeavesRun, LeavesLimit, HasRoomFor, IfRoomy, OnRoomyErr, NeedsMemory, MayAllocate, limit_after};
ghost use Rattle.hashbag_script.specs.Turns.{LeavesTablesOf, AreTablesInTurn, IsBoundedRun};
ghost use Rattle.hashbag_table.specs.Retained.{RetainsTables};

mod joins;
mod pair;

use hashbag_core::{BagError, HashBag};
pub use joins::{Joins, joins_of};
pub use pair::run_pair;
use std::hash::{BuildHasher, Hash};

/// A call on a bag.
#[derive(Debug, PartialEq, Eq, Drop)]
pub enum Step<T> {
    /// [`HashBag::insert`], or `TooMany` if the total would pass the limit.
    Insert(T),
    /// [`HashBag::insert_many`], or `TooMany` if the total would pass the limit.
    InsertMany(T, usize),
    /// [`HashBag::replace`], or `TooMany` if the total would pass the limit.
    Replace(T),
    /// [`HashBag::remove`].
    Remove(T),
    /// [`HashBag::remove_up_to`].
    RemoveUpTo(T, usize),
    /// [`HashBag::try_take`]: `Taken` with 1 for the last occurrence, `Left` with the count before if there were more.
    TryTake(T),
    /// [`HashBag::take_all`].
    TakeAll(T),
    /// [`HashBag::entry`] with `and_modify` that sets the count: `Absent` if the value is absent, `TooMany` if the total would pass the
    /// limit.
    EntrySet(T, usize),
    /// [`HashBag::entry`] with `or_insert_many`, or `TooMany` if the total would pass the limit.
    EntryOr(T, usize),
    /// [`HashBag::retain`] with a number for each value: the number of the first equal value in the list, or 0 if the list has no equal
    /// value.
    Retain(Vec<(T, usize)>),
    /// [`HashBag::clear`].
    Clear,
    /// [`HashBag::contains`].
    Count(T),
    /// [`HashBag::reserve`].
    Reserve(usize),
    /// [`HashBag::shrink_to_fit`].
    ShrinkToFit,
    /// [`HashBag::set_limit`]: `Done`, or `BelowTotal` if the new limit is below the total.
    Limit(usize),
}

/// The reply of a step.
#[derive(Debug, PartialEq, Eq, Drop)]
pub enum Reply<T> {
    /// A number of occurrences of the value.
    Count(usize),
    /// One occurrence was removed, and this is the count before.
    Left(usize),
    /// All occurrences were removed: the stored instance, and how many there were.
    Taken(T, usize),
    /// The value is absent.
    Absent,
    /// The call was made, and returns nothing.
    Done,
    /// The total would have passed the limit, and nothing changed.
    TooMany,
    /// The limit would have been below the total, and nothing changed.
    BelowTotal,
}

// Inserts occurrences, if the total stays within the limit.
fn insert<T: Eq + Hash + Drop, S: BuildHasher + Drop>(
    bag: &mut HashBag<T, S>,
    value: T,
    n: usize,
) -> Result<Reply<T>, BagError>
    ensures reply { IfOk result (λ reply. reply ≡ (insert_row T.eq bag.old.most value n bag.old.items).1) }
    ensures left { OnOk result (IsBagOf T.eq bag.old (insert_row T.eq bag.old.most value n bag.old.items).0 bag.new) }
    ensures memory { IfErr result (λ e. e ≡ BagError.Memory) }
    ensures asked { OnErr result (NeedsMemory T.eq bag.old.most value n bag.old.items) }
    ensures err { OnErr result (bag.new ≡ bag.old) }
    ensures takes { HasRoomFor T.eq bag.old (insert_row T.eq bag.old.most value n bag.old.items).0 → IsOk result }
    ensures tables { OnOk result (LeavesTablesOf T.eq (Step.InsertMany value n) bag.old bag.new) }
{
    // Only for the proof: it uses the clause `bag` of `len`.
    let _len = bag.len();
    match bag.insert_many(value, n) {
        Ok(before) => Ok(Reply::Count(before)),
        Err(BagError::TooMany) => Ok(Reply::TooMany),
        Err(BagError::Memory) => Err(BagError::Memory),
        Err(BagError::BelowTotal) => Ok(Reply::BelowTotal),
    }
}

// Replaces a value, if the total stays within the limit.
fn replace<T: Eq + Hash + Drop, S: BuildHasher + Drop>(
    bag: &mut HashBag<T, S>,
    value: T,
) -> Result<Reply<T>, BagError>
    ensures reply { IfOk result (λ reply. reply ≡ (replace_row T.eq bag.old.most value bag.old.items).1) }
    ensures left { OnOk result (IsBagOf T.eq bag.old (replace_row T.eq bag.old.most value bag.old.items).0 bag.new) }
    ensures memory { IfErr result (λ e. e ≡ BagError.Memory) }
    ensures asked { OnErr result (NeedsMemory T.eq bag.old.most value 1 bag.old.items) }
    ensures err { OnErr result (bag.new ≡ bag.old) }
    ensures takes { HasRoomFor T.eq bag.old (replace_row T.eq bag.old.most value bag.old.items).0 → IsOk result }
    ensures tables { OnOk result (LeavesTablesOf T.eq (Step.Replace value) bag.old bag.new) }
{
    // Only for the proof: it uses the clause `bag` of `len`.
    let _len = bag.len();
    match bag.replace(value) {
        Ok(before) => Ok(Reply::Count(before)),
        Err(BagError::TooMany) => Ok(Reply::TooMany),
        Err(BagError::Memory) => Err(BagError::Memory),
        Err(BagError::BelowTotal) => Ok(Reply::BelowTotal),
    }
}

// Removes one occurrence, and returns it if it was the last.
fn try_take<T: Eq + Hash + Drop, S: BuildHasher + Drop>(
    bag: &mut HashBag<T, S>,
    value: &T,
) -> Reply<T>
    ensures reply { result ≡ (try_take_row T.eq value.now bag.old.items).1 }
    ensures left { IsBagOf T.eq bag.old (try_take_row T.eq value.now bag.old.items).0 bag.new }
    ensures tables { LeavesTablesOf T.eq (Step.TryTake value.now) bag.old bag.new }
{
    match bag.take_one(value) {
        Ok(instance) => Reply::Taken(instance, 1),
        Err(0) => Reply::Absent,
        Err(before) => Reply::Left(before),
    }
}

// Removes all occurrences, and returns the stored instance with the count before.
fn take_all<T: Eq + Hash + Drop, S: BuildHasher + Drop>(
    bag: &mut HashBag<T, S>,
    value: &T,
) -> Reply<T>
    ensures reply { result ≡ (take_all_row T.eq value.now bag.old.items).1 }
    ensures left { IsBagOf T.eq bag.old (take_all_row T.eq value.now bag.old.items).0 bag.new }
    ensures tables { LeavesTablesOf T.eq (Step.TakeAll value.now) bag.old bag.new }
{
    match bag.take_all(value) {
        Some((instance, count)) => Reply::Taken(instance, count),
        None => Reply::Absent,
    }
}

// Sets the count of a present value, if the total stays within the limit.
fn entry_set<T: Eq + Hash + Drop, S: BuildHasher + Drop>(
    bag: &mut HashBag<T, S>,
    value: T,
    n: usize,
) -> Reply<T>
    ensures reply { result ≡ (entry_set_row T.eq bag.old.most value n bag.old.items).1 }
    ensures left { IsBagOf T.eq bag.old (entry_set_row T.eq bag.old.most value n bag.old.items).0 bag.new }
    ensures tables { LeavesTablesOf T.eq (Step.EntrySet value n) bag.old bag.new }
{
    if bag.contains(&value) == 0 {
        return Reply::Absent;
    }
    let set = |count: &mut usize|
        ensures { count.new ≡ n }
    {
        *count = n;
    };
    match bag.entry(value).and_modify(set) {
        Ok(entry) => {
            drop(entry);
            Reply::Done
        }
        Err(_) => Reply::TooMany,
    }
}

// Inserts occurrences of an absent value, if the total stays within the limit.
fn entry_or<T: Eq + Hash + Drop, S: BuildHasher + Drop>(
    bag: &mut HashBag<T, S>,
    value: T,
    n: usize,
) -> Result<Reply<T>, BagError>
    ensures reply { IfOk result (λ reply. reply ≡ (entry_or_in T.eq value n bag.old).1) }
    ensures left { OnOk result (IsBagOf T.eq bag.old (entry_or_in T.eq value n bag.old).0 bag.new) }
    ensures memory { IfErr result (λ e. e ≡ BagError.Memory) }
    ensures asked { OnErr result (NeedsMemory T.eq bag.old.most value n bag.old.items) }
    ensures err { OnErr result (bag.new ≡ bag.old) }
    ensures takes { HasRoomFor T.eq bag.old (entry_or_in T.eq value n bag.old).0 → IsOk result }
    ensures tables { OnOk result (LeavesTablesOf T.eq (Step.EntryOr value n) bag.old bag.new) }
{
    // Only for the proof: it uses the clause `bag` of `len`.
    let _len = bag.len();
    match bag.entry(value).or_insert_many(n) {
        Ok(count) => Ok(Reply::Count(count)),
        Err(BagError::TooMany) => Ok(Reply::TooMany),
        Err(BagError::Memory) => Err(BagError::Memory),
        Err(BagError::BelowTotal) => Ok(Reply::BelowTotal),
    }
}

// Returns the number of the first value in the list that is equal to this one, 0 if there is none.
fn quota<T: Eq>(list: &[(T, usize)], value: &T) -> usize
    ensures { result ≡ quota_of T.eq list.now value.now }
{
    match list.iter().find(|entry| *value == entry.0) {
        Some(entry) => entry.1,
        None => 0,
    }
}

// Lowers the count of each value to the number that the list has for it, if that is less.
fn retain<T: Eq + Hash + Drop, S: BuildHasher + Drop>(bag: &mut HashBag<T, S>, list: &[(T, usize)])
    ensures left { IsBagOf T.eq bag.old (retain_row T.eq list.now bag.old.items).0 bag.new }
    ensures tables { RetainsTables bag.old.tables bag.new.tables }
{
    // Only for the proof: it uses the clause `bag` of `len`.
    let _len = bag.len();
    bag.retain(
        |value: &T, _count: usize| -> usize
            ensures quota { result ≡ quota_of T.eq list.entry.now value.entry.now }
            ensures same { list.exit.now ≡ list.entry.now }
        { quota(list, value) },
    );
}

// Sets the limit, if the total is within it.
fn set_limit<T: Eq + Hash + Drop, S: BuildHasher + Drop>(
    bag: &mut HashBag<T, S>,
    most: usize,
) -> Reply<T>
    ensures reply { result ≡ (limit_row T.eq most bag.old.items).1 }
    ensures left { bag.new ≡ limited (limit_after T.eq bag.old.most bag.old.items (Step.Limit most)) bag.old }
{
    match bag.set_limit(most) {
        Ok(()) => Reply::Done,
        Err(_) => Reply::BelowTotal,
    }
}

// Does one step, and returns its reply.
fn apply<T: Eq + Hash + Drop, S: BuildHasher + Drop>(
    bag: &mut HashBag<T, S>,
    step: Step<T>,
) -> Result<Reply<T>, BagError>
    // The step has the reply of a step on a plain list, and leads to the same occurrences and the same limit.
    ensures reply { IfOk result (λ reply. reply ≡ (step_in T.eq step bag.old).1) }
    ensures left { OnOk result (Means bag.new (step_in T.eq step bag.old).0) }
    ensures limit { OnOk result (bag.new.most ≡ limit_after T.eq bag.old.most bag.old.items step) }
    ensures hasher { OnOk result (bag.new.hasher ≡ bag.old.hasher) }
    ensures bag { IsBag T.eq bag.old.most bag.old.items }

    // Only an allocation can fail, and only in a step that allocates.
    ensures memory { IfErr result (λ e. e ≡ BagError.Memory) }
    ensures asked { OnErr result (MayAllocate T.eq bag.old.most bag.old.items bag.old.tables step) }
    ensures err { OnErr result (bag.new ≡ bag.old) }

    // `takes`: if there is room for what a step inserts, the step can't fail, unless it is `Reserve` or `ShrinkToFit`. `turns`: how a step changes
    // the tables. `fewer`: `ShrinkToFit` makes no larger table.
    ensures takes { reserves_or_shrinks step ≡ false → HasRoomFor T.eq bag.old (step_in T.eq step bag.old).0 → IsOk result }
    ensures turns { OnOk result (LeavesTablesOf T.eq step bag.old bag.new) }
    ensures fewer { OnOk result (ShrinksSlots step bag.old bag.new) }
{
    // Only for the proof: it uses the clause `bag` of `len`.
    let _len = bag.len();
    match step {
        Step::Insert(value) => insert(bag, value, 1),
        Step::InsertMany(value, n) => insert(bag, value, n),
        Step::Replace(value) => replace(bag, value),
        Step::Remove(value) => Ok(Reply::Count(bag.remove(&value))),
        Step::RemoveUpTo(value, n) => Ok(Reply::Count(bag.remove_up_to(&value, n))),
        Step::TryTake(value) => Ok(try_take(bag, &value)),
        Step::TakeAll(value) => Ok(take_all(bag, &value)),
        Step::EntrySet(value, n) => Ok(entry_set(bag, value, n)),
        Step::EntryOr(value, n) => entry_or(bag, value, n),
        Step::Retain(list) => {
            retain(bag, &list);
            Ok(Reply::Done)
        }
        Step::Clear => {
            bag.clear();
            Ok(Reply::Done)
        }
        Step::Count(value) => Ok(Reply::Count(bag.contains(&value))),
        Step::Reserve(n) => {
            bag.reserve(n)?;
            Ok(Reply::Done)
        }
        Step::ShrinkToFit => {
            bag.shrink_to_fit()?;
            Ok(Reply::Done)
        }
        Step::Limit(most) => Ok(set_limit(bag, most)),
    }
}

/// Does the steps in turn, and appends a reply for each. No value is copied.
///
/// If the total would pass the limit, the reply is `TooMany`. This isn't an error, and the run goes on.
///
/// # Errors
///
/// `Memory` if an allocation fails. The replies are allocated first: if that fails, nothing changes. Else the run stops at the step that failed. The
/// steps before it are done and have their replies. The bag is as that step found it. The other steps are dropped. A step can fail with `Memory` only
/// if it
///
/// - inserts an absent value without room (also `Replace` and `EntryOr`),
/// - is a `Reserve` of more room than there is, or
/// - is a `ShrinkToFit` of a bag that isn't empty and has more slots than its values need.
///
/// # Complexity
///
/// The replies are allocated at once. Each step costs what its call costs, and a `Retain` reads its list for each distinct value. A step
/// that inserts an absent value carries at most 16 slots of an older table, and no other step carries any. `Reserve` and `ShrinkToFit`
/// move all values at once if they build a table.
///
/// # Examples
///
/// ```
/// let mut bag = HashBag::new(alloc);
/// let mut replies = Vec::new(alloc);
/// let steps = vec![in alloc; Step::Insert("apple"), Step::Count("apple")]?;
/// script::run(&mut bag, steps, &mut replies)?;
/// replies.as_slice(); // [Count(0), Count(1)]
/// Ok(())
/// ```
pub fn run<T: Eq + Hash + Drop, S: BuildHasher + Drop>(
    bag: &mut HashBag<T, S>,
    steps: Vec<Step<T>>,
    replies: &mut Vec<Reply<T>>,
) -> Result<(), BagError>
    // Each reply is the one that the step gives on a plain list of the bag's occurrences, whatever the order of the list. After the run the bag has
    // the occurrences of that list.
    ensures replies { OnOk result (AppendsReplies T.eq bag.old steps.items replies.old.items replies.new.items) }
    ensures means { OnOk result (LeavesRun T.eq bag.old steps.items bag.new) }
    ensures limit { OnOk result (LeavesLimit T.eq bag.old steps.items bag.new) }
    ensures hasher { bag.new.hasher ≡ bag.old.hasher }

    // Only a failed allocation stops a run: the allocation of the replies, before the first step, or one in the first step without a reply.
    ensures memory { IfErr result (λ e. e ≡ BagError.Memory) }
    ensures stopped { OnErr result (IsStoppedRun T.eq bag.old bag.new steps replies.old replies.new) }

    // If there is room for all values that arrive, and no step is `Reserve` or `ShrinkToFit`, there are as many slots as before. Then only the
    // allocation of the replies can fail.
    ensures slots { IfRoomy T.eq bag.old steps.items (length bag.new.tables.newer ≡ length bag.old.tables.newer) }
    ensures roomy { OnRoomyErr T.eq bag.old steps result (IsUnbegunRun bag.old bag.new steps replies.old replies.new) }

    // `ran` is this run: the bag and the replies, before and after. If the bag was empty and had no slots: the greatest number of distinct values at
    // any time of the run bounds the slots, and the values that arrived bound the slots that were built.
    ensures bounded { IsBoundedRun T.eq (ran bag.old bag.new steps.items replies.old.items replies.new.items) }

    // The tables follow from the tables before by the steps that have a reply, in turn, each as `LeavesTables` says.
    ensures tables { AreTablesInTurn T.eq (ran bag.old bag.new steps.items replies.old.items replies.new.items) }
{
    // Only for the proof: it uses the contracts of `slots` and `waiting`.
    let _slots = bag.slots();
    let _waiting = bag.waiting();
    replies.reserve(steps.len())?;
    for step in steps {
        let reply = apply(bag, step)?;
        replies.push_reserved(reply);
        // Only for the proof: it uses the contracts of `slots` and `waiting`.
        let _slots = bag.slots();
        let _waiting = bag.waiting();
    }
    Ok(())
}
