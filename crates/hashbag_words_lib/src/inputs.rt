//! Counting all inputs of a call, which are read block by block. They come from any [`Blocks`], so the clauses hold for any bytes.
//!
//! Where a clause names a `&mut` parameter alone, it means both what the parameter was before the call and what it is after it.
ghost use Rattle.std.specs.Prelude.{◌≡◌, ℕ, List, [], Option, Some, OnOk};
ghost use Rattle.hashbag_text.specs.Encodings.{text_in};
ghost use Rattle.hashbag_words_lib.specs.Inputs.{text_left, Across, CountsInputs, FeedsBlock, ReadsInput, ReadsNextBlock};

use crate::feeding::{Counter, end, feed};
use crate::lines::LinesRead;
use hashbag_shell::input::shown_name;
use hashbag_shell::text::of_decoding;
use hashbag_shell::trouble::Trouble;
use hashbag_text::decoder::Decoder;
use hashbag_text::encoding::Encoding;
use memchr::memchr;
use std::alloc::Global;

/// Inputs by their names, which are read block by block.
pub trait Blocks<'a> {
    /// The name and all bytes of each input that was read to its end, in order.
    ghost ended: { Self → List (List ℕ × List ℕ) };

    /// The name of the input that is open, and the bytes that were read of it so far.
    ghost begun: { Self → Option (List ℕ × List ℕ) };

    /// The block that was read last.
    ghost last: { Self → List ℕ };

    /// Opens the input of that name.
    ///
    /// # Errors
    ///
    /// Why it can't be read.
    fn open(&mut self, name: &'a str) -> Result<(), Trouble<'a>>
        ensures begun { OnOk result (begun self.new ≡ Some (name.entry.now, [])) }
        ensures ended { OnOk result (ended self.new ≡ ended self.old) };

    /// Reads the next block of the input that is open. The block is empty if the input has ended.
    ///
    /// # Errors
    ///
    /// Why it can't be read.
    fn read(&mut self) -> Result<(), Trouble<'a>>
        // The block is appended to what was read of the open input, if one is open. If the block is empty, this input is appended to `ended`.
        ensures { OnOk result (ReadsNextBlock ended begun last self.old self.new) };

    /// The block that was read last.
    fn block(&self) -> &[u8]
        ensures { result.now ≡ last self.now };

    /// Reports that the input of that name has NUL bytes.
    fn report_nul(&mut self, name: &str)
        ensures { ended self.new ≡ ended self.old };

    /// Reports how the lines of the input of that name were read.
    fn report(&mut self, name: &str, reading: &LinesRead)
        ensures { ended self.new ≡ ended self.old };

    /// Reports that all inputs were read.
    fn end_report(&mut self)
        ensures { ended self.new ≡ ended self.old };
}

// The text of an input that comes in blocks.
#[derive(Drop)]
struct Decoding<'a> {
    alloc: Global,
    // What messages call the input.
    name: &'a str,
    // `None` if the bytes are UTF-8.
    decoder: Option<Decoder>,
    // The text that the decoder returned for the last block.
    text: String,
    // Whether the text has a NUL byte so far.
    has_nul: bool,
}

impl<'a> Decoding<'a> {
    // Returns the decoding of an input before its first block.
    fn new(alloc: Global, name: &'a str, encoding: Option<Encoding>) -> Decoding<'a>
        ensures { (bytes : List ℕ) → text_left result.decoder bytes ≡ text_in encoding bytes }
    {
        let decoder = match encoding {
            Some(encoding) => Some(Decoder::new(encoding)),
            None => None,
        };
        Decoding {
            alloc,
            name,
            decoder,
            text: String::new(alloc),
            has_nul: false,
        }
    }

    // Decodes the next block, and counts its text.
    fn feed<C: Counter>(&mut self, counter: &mut C, block: &[u8]) -> Result<(), Trouble<'a>>
        ensures { OnOk result (FeedsBlock C.has counter.old counter.new self.old block.now self.new) }
    {
        let Some(decoder) = &mut self.decoder else {
            feed(self.alloc, counter, self.name, block)?;
            self.has_nul = self.has_nul || memchr(0, block).is_some();
            return Ok(());
        };
        self.text.clear();
        let pushed = decoder.push(block, &mut self.text);
        feed(self.alloc, counter, self.name, self.text.as_bytes())?;
        if let Err(error) = pushed {
            return Err(of_decoding(self.alloc, self.name, error));
        }
        self.has_nul = self.has_nul || memchr(0, self.text.as_bytes()).is_some();
        Ok(())
    }

    // Ends the text after the last block. Returns whether the text has a NUL byte.
    fn end(self) -> Result<bool, Trouble<'a>>
        ensures { OnOk result (text_left self.entry.decoder [] ≡ Some []) }
    {
        let Some(decoder) = self.decoder else {
            return Ok(self.has_nul);
        };
        match decoder.end() {
            Ok(()) => Ok(self.has_nul),
            Err(error) => Err(of_decoding(self.alloc, self.name, error)),
        }
    }
}

// Counts the text of the input of that name, and doesn't end the text. Returns whether the text has a NUL byte.
fn read_input<'a, B: Blocks<'a>, C: Counter>(
    alloc: Global,
    inputs: &mut B,
    counter: &mut C,
    name: &'a str,
    encoding: Option<Encoding>,
) -> Result<bool, Trouble<'a>>
    ensures { OnOk result (Across (ReadsInput C.has B.ended encoding name.now) inputs counter) }
{
    inputs.open(name)?;
    let mut decoding = Decoding::new(alloc, shown_name(name), encoding);
    'steps: for _block in 0..u64::MAX {
        inputs.read()?;
        let block = inputs.block();
        if block.is_empty() {
            return decoding.end();
        }
        decoding.feed(counter, block)?;
    }
    Err(Trouble::Memory)
}

/// Counts the inputs of these names, in order. Their bytes are in this encoding; `None` is UTF-8.
///
/// # Errors
///
/// What is wrong with an input or one of its lines. What came before the error may be counted.
pub fn count_all<'a, B: Blocks<'a>, C: Counter>(
    alloc: Global,
    inputs: &mut B,
    counter: &mut C,
    encoding: Option<Encoding>,
    names: &[&'a str],
) -> Result<(), Trouble<'a>>
    // Exactly these inputs were read to their ends, and each is text in the encoding. The counter has the counts of all texts.
    ensures { OnOk result (Across (CountsInputs C.has B.ended encoding names.now) inputs counter) }
{
    for name in names {
        let shown = shown_name(*name);
        let has_nul = read_input(alloc, inputs, counter, *name, encoding)?;
        if has_nul {
            inputs.report_nul(shown);
        }
        let reading = end(alloc, counter, shown)?;
        inputs.report(shown, &reading);
    }
    Ok(())
}
