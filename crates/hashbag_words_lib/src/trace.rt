//! A list for contracts alone, which takes no memory.
ghost use Rattle.std.specs.Prelude.{◌≡◌, ◌++◌, ◌∷◌, []};

use std::marker::Model;
use std::snapshot::Snapshot;

// Values, then one more value.
#[derive(Drop)]
struct Link<T: Drop> {
    before: Option<Snapshot<Link<T>>>,
    value: Snapshot<T>,
}

/// Values that came one after the other. They take no memory. Contracts see the list of the values.
#[derive(Drop)]
pub struct Trace<T: Drop> {
    last: Option<Snapshot<Link<T>>>,
}

impl<T: Drop> Model for Trace<T> {
    ghost use Rattle.std.specs.Prelude.{List};
    ghost use Rattle.hashbag_words_lib.specs.Traces.{values_in};

    ghost Value = { List T };

    ghost view = { λ trace. values_in trace.last };
}

impl<T: Drop> Trace<T> {
    /// Returns no values.
    pub fn empty() -> Trace<T>
        ensures { result ≡ [] }
    {
        Trace { last: None }
    }

    /// Appends a value.
    pub fn push(&mut self, value: &T)
        ensures { self.new ≡ self.old ++ value.now ∷ [] }
    {
        let before = self.last.take();
        self.last = Some(Snapshot::of(&Link {
            before,
            value: Snapshot::of(value),
        }));
    }
}
