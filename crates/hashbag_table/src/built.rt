//! A number for contracts alone, which has no bound and takes no bytes.
//!
//! A `usize` could overflow. So the number is a chain of sums: each has what was added last, and a snapshot of the sum before. A `Snapshot` is only
//! for contracts and takes no bytes.
ghost use Rattle.std.specs.Prelude.{◌≡◌, ◌+◌};

use std::marker::Model;
use std::mem;
use std::snapshot::Snapshot;

// The sum before, if there is one, and what was added to it.
#[derive(Drop)]
struct Sum {
    before: Option<Snapshot<Sum>>,
    more: usize,
}

/// How many slots were built: a number without a bound, which takes no memory. Contracts see that number.
#[derive(Drop)]
pub struct Built {
    sum: Snapshot<Sum>,
}

impl Model for Built {
    ghost use Rattle.std.specs.Prelude.{ℕ};
    ghost use Rattle.hashbag_table.specs.Built.{sum_of};

    ghost Value = { ℕ };

    ghost view = { λ b. sum_of b.sum.value };
}

impl Built {
    /// Returns the number `slots`, to begin with.
    pub fn first(slots: usize) -> Built
        ensures { result ≡ slots }
    {
        Built {
            sum: Snapshot::of(&Sum {
                before: None,
                more: slots,
            }),
        }
    }

    /// Adds `slots`.
    pub fn raise(&mut self, slots: usize)
        ensures { self.new ≡ self.old + slots }
    {
        let blank = Snapshot::of(&Sum {
            before: None,
            more: 0,
        });
        let before = mem::replace(&mut self.sum, blank);
        self.sum = Snapshot::of(&Sum {
            before: Some(before),
            more: slots,
        });
    }
}
