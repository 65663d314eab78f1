//! A caller to copy: a type that keeps a bag within its limit.
ghost use Rattle.std.specs.Prelude.{◌≡◌, ◌+◌, ◌<◌, ◌≤◌, ◌↔◌, nat_eq, length, IsTrue, OnOk, OnErr};
ghost use Rattle.std.specs.Bool.{OnTrue, OnFalse};
ghost use Rattle.hashbag.specs.Occurrences.{count};

use hashbag::{BagError, HashBag};

/// A hall, and how many guests of each group are in it. The limit of the bag is the capacity of the hall.
#[derive(Drop)]
pub struct Hall {
    pub guests: HashBag<u64>,
}

impl Hall {
    /// Lets `n` guests of a group in. After an error none of them has entered.
    pub fn enter(&mut self, group: u64, n: usize) -> Result<(), BagError>
        ensures within { length self.new.guests.items ≤ self.old.guests.most }
        ensures capacity { self.new.guests.most ≡ self.old.guests.most }
        ensures entered { OnOk result (length self.new.guests.items ≡ length self.old.guests.items + n) }
        ensures too_many { (result ≡ Err BagError.TooMany) ↔ (self.old.guests.most < length self.old.guests.items + n) }
        ensures err { OnErr result (self.new.guests ≡ self.old.guests) }
    {
        // Does nothing at run time. The contract of `limit` says that the total is within the limit.
        let _limit = self.guests.limit();
        self.guests.insert_many(group, n)?;
        Ok(())
    }

    /// Lets a guest of a group out, and returns whether a guest of the group was there.
    pub fn leave(&mut self, group: u64) -> bool
        ensures within { length self.new.guests.items ≤ self.old.guests.most }
        ensures capacity { self.new.guests.most ≡ self.old.guests.most }
        ensures there { IsTrue result ↔ (0 < count nat_eq group self.old.guests.items) }

        // The hall has one guest fewer. No clause says which guest left.
        ensures left { OnTrue result (length self.new.guests.items + 1 ≡ length self.old.guests.items) }
        ensures nobody { OnFalse result (self.new.guests ≡ self.old.guests) }
    {
        let _limit = self.guests.limit();
        self.guests.remove(&group) > 0
    }
}
