//! Bytes for contracts alone, which take no memory.
ghost use Rattle.std.specs.Prelude.{◌≡◌, ◌++◌, [], take};

use std::marker::Model;
use std::snapshot::Snapshot;

// Bytes, then the first `n` bytes of a block.
#[derive(Drop)]
struct Part {
    before: Option<Snapshot<Part>>,
    block: Snapshot<Vec<u8>>,
    n: usize,
}

/// Bytes that came in blocks. They take no memory. Contracts see the list of the bytes.
#[derive(Drop)]
pub struct Tape {
    last: Option<Snapshot<Part>>,
}

impl Model for Tape {
    ghost use Rattle.std.specs.Prelude.{ℕ, List};
    ghost use Rattle.hashbag_words_lib.specs.Tapes.{tape_bytes};

    ghost Value = { List ℕ };

    ghost view = { λ tape. tape_bytes tape.last };
}

impl Tape {
    /// Returns no bytes.
    pub fn empty() -> Tape
        ensures { result ≡ [] }
    {
        Tape { last: None }
    }

    /// Appends the first `n` bytes of a block.
    pub fn push(&mut self, block: &Vec<u8>, n: usize)
        ensures { self.new ≡ self.old ++ take n block.now.items }
    {
        let before = self.last.take();
        self.last = Some(Snapshot::of(&Part {
            before,
            block: Snapshot::of(block),
            n,
        }));
    }

    /// Appends a whole block.
    pub fn push_whole(&mut self, block: &Vec<u8>)
        ensures { self.new ≡ self.old ++ block.now.items }
    {
        self.push(block, block.len());
    }
}
