//! The quantity of each article, added up while the lines are read.
ghost use Rattle.std.specs.Prelude.{◌≡◌, ℕ, ◌+◌, ◌<◌, ◌≤◌, ◌↔◌, [], List, length, IfErr, OnOk, OnErr};
ghost use Rattle.hashbag_match_lib.specs.Tallies.{IsTallyOf, TalliesOneMore, TalliesSame, total_with};

use hashbag_core::{BagError, HashBag};
use std::alloc::Global;
use std::hash::{BuildHasher, Hash};

/// The articles of a list, with their quantities: one entry for each article, however many lines name it.
#[derive(Drop)]
pub struct Tally<T: Eq + Hash + Drop, S: BuildHasher + Drop> {
    /// Each article, as often as the sum of the numbers of its lines.
    pub counts: HashBag<T, S>,
    /// Each article, as often as it has a line with the number 0.
    pub zeros: HashBag<T, S>,
}

impl<T: Eq + Hash + Drop, S: BuildHasher + Drop> Tally<T, S> {
    /// Adds a line: an article and its number.
    ///
    /// # Errors
    ///
    /// `TooMany` exactly if the sum of all numbers would be more than `usize::MAX`. Else only `Memory`, if an allocation fails. After an error the
    /// tally is unchanged.
    ///
    /// # Complexity
    ///
    /// Hashes the article once. An article that is present is dropped. An absent one is kept, and slots are allocated if there is no room.
    pub fn add(&mut self, article: T, number: usize) -> Result<(), BagError>
        // The tally now has this line, too.
        ensures added { OnOk result (TalliesOneMore T.eq self.old self.new (article, number)) }

        // `total_with` is the total with `number` added. The limit `most` of a tally's `counts` is `usize::MAX` (`limit` of `IsTallyOf`).
        ensures too_many { (result ≡ Err BagError.TooMany) ↔ (self.old.counts.most < total_with number self.old) }
        ensures only_memory { total_with number self.old ≤ self.old.counts.most → IfErr result (λ e. e ≡ BagError.Memory) }
        ensures err { OnErr result (self.new ≡ self.old) }
    {
        if number == 0 {
            // Does nothing at run time. It gives the proof the contract of `len`: the total of the bag fits.
            let _len = self.counts.len();
            return match self.zeros.insert(article) {
                Ok(_) => Ok(()),
                // `TooMany` can't occur: no file has that many lines.
                Err(_) => Err(BagError::Memory),
            };
        }
        self.counts.insert_many(article, number)?;
        Ok(())
    }

    /// Carries what waits in both bags, so that each look-up probes one table.
    ///
    /// # Complexity
    ///
    /// Hashes each waiting article once, and doesn't allocate.
    pub fn finish_carry(&mut self)
        // The tally is of the same lines, and no slot waits.
        ensures same { TalliesSame T.eq self.old self.new }
        ensures none_waits { (self.new.counts.tables.waiting ≡ []) × (self.new.zeros.tables.waiting ≡ []) }
    {
        self.counts.finish_carry();
        self.zeros.finish_carry();
    }
}

/// Returns the tally of no lines. Its bags hash by this state. It doesn't allocate.
pub fn empty_tally<T: Eq + Hash + Drop, S: BuildHasher + Copy + Drop>(
    alloc: Global,
    state: S,
) -> Tally<T, S>
    ensures { IsTallyOf T.eq [] result.counts result.zeros }
{
    Tally {
        counts: HashBag::with_hasher(alloc, state),
        zeros: HashBag::with_hasher(alloc, state),
    }
}
