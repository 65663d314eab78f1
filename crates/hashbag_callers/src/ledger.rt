//! Callers to copy: a ledger of stock that never goes below zero, and single takes.
//!
//! Each clause follows from the contracts of the calls alone, by the lemmas of `CallerLemmas`.
ghost use Rattle.std.specs.Prelude.{◌≡◌, ◌+◌, ◌<◌, ◌≤◌, ◌↔◌, min, false, length, IsTrue, OnOk, OnErr, IfOk, IfSome};
ghost use Rattle.std.specs.Bool.{OnTrue, OnFalse};
ghost use Rattle.hashbag.specs.Bag.{IsPresent};
ghost use Rattle.hashbag.specs.Occurrences.{count, instance_or_itself};
ghost use Rattle.hashbag_callers.specs.Ledger.{ChangesOnly};

use hashbag::{BagError, HashBag};
use std::hash::{BuildHasher, Hash};

/// Enters goods that arrived. If the total would pass the limit or an allocation fails, nothing changes.
pub fn deliver<T: Eq + Hash + Drop, S: BuildHasher + Drop>(
    stock: &mut HashBag<T, S>,
    article: T,
    n: usize,
) -> Result<(), BagError>
    ensures entered { OnOk result (count T.eq article stock.new.items ≡ count T.eq article stock.old.items + n) }
    ensures others { (v : T) → T.eq v article ≡ false → count T.eq v stock.new.items ≡ count T.eq v stock.old.items }
    ensures len { OnOk result (length stock.new.items ≡ length stock.old.items + n) }
    ensures too_many { (result ≡ Err BagError.TooMany) ↔ (stock.old.most < length stock.old.items + n) }
    ensures err { OnErr result (stock.new ≡ stock.old) }
{
    stock.insert_many(article, n)?;
    Ok(())
}

/// Removes sold goods, and returns whether there were enough of them. If not, nothing changes. So no count is ever below zero, and the
/// goods that are sold and the goods that are left add up to the goods before.
pub fn sell<T: Eq + Hash + Drop, S: BuildHasher + Drop>(
    stock: &mut HashBag<T, S>,
    article: &T,
    n: usize,
) -> bool
    ensures enough { IsTrue result ↔ (n ≤ count T.eq article.now stock.old.items) }
    ensures sold { OnTrue result (count T.eq article.now stock.new.items + n ≡ count T.eq article.now stock.old.items) }
    ensures others { (v : T) → T.eq v article.now ≡ false → count T.eq v stock.new.items ≡ count T.eq v stock.old.items }
    ensures len { OnTrue result (length stock.new.items + n ≡ length stock.old.items) }
    ensures too_few { OnFalse result (stock.new ≡ stock.old) }
{
    if stock.contains(article) < n {
        return false;
    }
    stock.remove_up_to(article, n);
    true
}

/// Removes all goods of an article, one by one, and returns the last one as it was stored, or `None` if there were none.
pub fn sell_out<T: Eq + Hash + Drop, S: BuildHasher + Drop>(
    stock: &mut HashBag<T, S>,
    article: &T,
) -> Option<T>
    ensures none_left { count T.eq article.now stock.new.items ≡ 0 }
    ensures there { IfSome result (λ _. 0 < count T.eq article.now stock.old.items) }

    // The last one is the instance that was stored.
    ensures last { IfSome result (λ last. last ≡ instance_or_itself T.eq article.now stock.old.items) }
    ensures absent { result ≡ None → count T.eq article.now stock.old.items ≡ 0 }
    ensures len { length stock.new.items + count T.eq article.now stock.old.items ≡ length stock.old.items }
{
    loop {
        match stock.take_one(article) {
            Ok(last) => return Some(last),
            Err(0) => return None,
            Err(_) => {}
        }
    }
}

/// Removes one of an article, and returns whether it was the last. `try_take` returns the last one; if others are left, it lends the stored one.
///
/// No clause can say what the bag means afterwards, since the loan may last. A caller that needs such a clause calls `take_one`, as
/// `sell_out` does.
pub fn take_was_last<T: Eq + Hash + Drop, S: BuildHasher + Drop>(
    stock: &mut HashBag<T, S>,
    article: &T,
) -> bool
    ensures { IsTrue result ↔ (count T.eq article.now stock.old.items ≡ 1) }
{
    stock.try_take(article).is_ok()
}

/// Inserts an article if it is absent, and returns its count after. A present article is unchanged.
pub fn list<T: Eq + Hash + Drop, S: BuildHasher + Drop>(
    stock: &mut HashBag<T, S>,
    article: T,
) -> Result<usize, BagError>
    ensures there { IfOk result (λ after. 0 < after) }

    // The article has the count `after`, and every other value its count before.
    ensures listed { IfOk result (λ after. ChangesOnly T.eq article after stock.old stock.new) }
    ensures occupied { 0 < count T.eq article stock.old.items → result ≡ Ok (count T.eq article stock.old.items) }
    ensures vacant { count T.eq article stock.old.items ≡ 0 → IfOk result (λ after. after ≡ 1) }
    ensures err { OnErr result (stock.new ≡ stock.old) }
{
    stock.entry(article).or_insert()
}

/// Sets the count of a present article to `found`. An absent article stays absent. After an error nothing has changed.
pub fn recount<T: Eq + Hash + Drop, S: BuildHasher + Drop>(
    stock: &mut HashBag<T, S>,
    article: T,
    found: usize,
) -> Result<(), BagError>
    // If the article was present, it has the count `found`, and every other value its count before.
    ensures present { OnOk result (IsPresent T.eq article stock.old → ChangesOnly T.eq article found stock.old stock.new) }
    ensures absent { OnOk result (count T.eq article stock.old.items ≡ 0 → stock.new ≡ stock.old) }
    ensures err { OnErr result (stock.new ≡ stock.old) }
{
    stock.entry(article).and_modify(
        |count: &mut usize|
            ensures { count.new ≡ found }
        {
            *count = found;
        },
    )?;
    Ok(())
}

/// Stores this instance of an article, with the count 1, and returns the count before.
pub fn keep_one<T: Eq + Hash + Drop, S: BuildHasher + Drop>(
    stock: &mut HashBag<T, S>,
    article: T,
) -> Result<usize, BagError>
    ensures before { IfOk result (λ before. before ≡ count T.eq article stock.old.items) }

    // The article has the count 1, and every other value its count before.
    ensures one { OnOk result (ChangesOnly T.eq article 1 stock.old stock.new) }
    ensures err { OnErr result (stock.new ≡ stock.old) }
{
    let before = stock.replace(article)?;
    Ok(before)
}

/// Keeps at most `most` of each article.
pub fn keep_at_most<T: Eq + Hash + Drop, S: BuildHasher + Drop>(
    stock: &mut HashBag<T, S>,
    most: usize,
)
    ensures counts { (v : T) → count T.eq v stock.new.items ≡ min most (count T.eq v stock.old.items) }
    ensures len { length stock.new.items ≤ length stock.old.items }
{
    stock.retain(
        |_article: &T, _count: usize| -> usize
            ensures { result ≡ most }
        { most },
    );
}
