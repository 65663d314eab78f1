//! A reader of inputs, block by block. For contracts alone it also keeps what was read.
ghost use Rattle.std.specs.Prelude.{◌≡◌, [], take, Some, OnOk};
ghost use Rattle.std.specs.Io.{ReadsAtMost};
ghost use Rattle.hashbag_words_lib.specs.BlockReaders.{begun_in, ended_in, last_in, ReadsNext};

use crate::tape::Tape;
use crate::trace::Trace;
use std::alloc::{AllocError, Global};
use std::io::{self, ErrorKind, Read};

// How many bytes of an input are read at once.
const BLOCK: usize = 1 << 16;

/// Reads the next bytes of an input into the block, and returns how many there were: 0 at its end.
///
/// # Errors
///
/// The system's error.
pub fn read_block<F: Read>(input: &mut F, block: &mut [u8]) -> io::Result<usize>
    // The number of bytes isn't greater than the length of the block.
    ensures { ReadsAtMost result block.new }
{
    for _ in 0..u64::MAX {
        match input.read(block) {
            Err(error) if error.kind() == ErrorKind::Interrupted => {}
            read => return read,
        }
    }
    Err(io::Error::from(ErrorKind::Interrupted))
}

// An input that is open, and what was read of it.
#[derive(Drop)]
struct OpenInput<'a, F: Drop> {
    name: &'a str,
    input: F,
    read: Tape,
}

/// Reads inputs, one after the other.
#[derive(Drop)]
pub struct BlockReader<'a, F: Drop> {
    open: Option<OpenInput<'a, F>>,
    // The inputs that were read to their ends.
    ended: Trace<(&'a str, Tape)>,
    block: Vec<u8>,
    // How many bytes of `block` the last read filled.
    n: usize,
}

impl<'a, F: Read + Drop> BlockReader<'a, F> {
    /// Returns a reader that has read nothing.
    pub fn new(alloc: Global) -> BlockReader<'a, F>
        // No input was read to its end.
        ensures { ended_in result ≡ [] }
    {
        BlockReader {
            open: None,
            ended: Trace::empty(),
            block: Vec::new(alloc),
            n: 0,
        }
    }

    /// Begins to read an input. `name` is its name.
    ///
    /// # Errors
    ///
    /// An allocation fails.
    pub fn begin(&mut self, alloc: Global, name: &'a str, input: F) -> Result<(), AllocError>
        // The input named `name` is open, and nothing of it was read. The inputs that were read to their ends are unchanged.
        ensures begun { OnOk result (begun_in self.new ≡ Some (name.entry.now, [])) }
        ensures ended { OnOk result (ended_in self.new ≡ ended_in self.old) }
    {
        if self.block.is_empty() {
            self.block = vec![in alloc; 0u8; BLOCK]?;
        }
        self.n = 0;
        self.open = Some(OpenInput {
            name,
            input,
            read: Tape::empty(),
        });
        Ok(())
    }

    /// Reads the next block of the input. The block is empty if the input has ended.
    ///
    /// # Errors
    ///
    /// The system's error.
    pub fn read(&mut self) -> io::Result<()>
        // The block is appended to what was read of the open input, if one is open. If the block is empty, the input was read to its end.
        ensures { OnOk result (ReadsNext self.old self.new) }
    {
        let Some(mut open) = self.open.take() else {
            self.n = 0;
            return Ok(());
        };
        self.n = read_block(&mut open.input, self.block.as_mut_slice())?;
        if self.n == 0 {
            self.ended.push(&(open.name, open.read));
            return Ok(());
        }
        open.read.push(&self.block, self.n);
        self.open = Some(open);
        Ok(())
    }

    /// The block that was read last.
    pub fn block(&self) -> &[u8]
        ensures { result.now ≡ last_in self.now }
    {
        &self.block[..self.n.min(self.block.len())]
    }
}
