//! The inputs that the system has, which are read block by block: files, and standard input, which is named `-`.
ghost use Rattle.hashbag_words_lib.specs.BlockReaders.{begun_in, ended_in, last_in};

use crate::input::Input;
use hashbag_shell::input::{read_file, shown_name};
use hashbag_shell::progress::Progress;
use hashbag_shell::status::BAD_INPUT;
use hashbag_shell::text::{MARKED, is_marked_utf8};
use hashbag_shell::trouble::{Trouble, plural};
use hashbag_text::encoding::Encoding;
use hashbag_words_lib::block_reader::BlockReader;
use hashbag_words_lib::inputs::Blocks;
use hashbag_words_lib::lines::LinesRead;

/// The inputs that the system has. Progress is reported.
#[derive(Drop)]
pub struct HostBlocks<'s, 'a> {
    rt: &'s HostRuntime,
    progress: Progress,
    // The encoding of the inputs, `None` for UTF-8.
    encoding: Option<Encoding>,
    // Whether an input is rejected if its first bytes show another format.
    is_checked: bool,
    // The cure that messages name: `--encoding` or `iconv -f`. The name of an encoding follows.
    cure: &'static str,
    // Whether the next block is the first one of the open input.
    is_first: bool,
    // What messages call the open input.
    name: &'a str,
    reader: BlockReader<'a, Input>,
}

// A format other than the one that is read.
#[derive(Clone, Copy)]
enum Kind {
    Gzip,
    Utf8,
    Utf16,
}

/// The cure that a message names for text that is counted; the name of an encoding follows.
pub const BY_OPTION: &str = "--encoding";

/// The cure that a message names for counts, and for the file of `--except`; the name of an encoding follows.
pub const BY_COMMAND: &str = "iconv -f";

// Returns the format that these first bytes show, if it isn't the one that is read.
fn kind_of(encoding: Option<Encoding>, block: &[u8]) -> Option<Kind> {
    if let Some(encoding) = encoding {
        return is_marked_utf8(encoding, block).then_some(Kind::Utf8);
    }
    if block.starts_with(b"\x1f\x8b") {
        return Some(Kind::Gzip);
    }
    if block.starts_with(b"\xff\xfe") || block.starts_with(b"\xfe\xff") {
        return Some(Kind::Utf16);
    }
    None
}

impl<'s, 'a> HostBlocks<'s, 'a> {
    /// Returns the inputs, of which none was read. If `is_checked`, an input whose first bytes show another format than `encoding` (`None`: UTF-8) is
    /// rejected. Messages say that `cure` reads such an input.
    pub fn new(
        rt: &'s HostRuntime,
        progress: Progress,
        encoding: Option<Encoding>,
        is_checked: bool,
        cure: &'static str,
    ) -> HostBlocks<'s, 'a> {
        HostBlocks {
            rt,
            progress,
            encoding,
            is_checked,
            cure,
            is_first: false,
            name: "",
            reader: BlockReader::new(rt.alloc()),
        }
    }

    // Returns why an input with these first bytes is rejected, if it is.
    fn other_kind(&self, name: &'a str, block: &[u8]) -> Option<Trouble<'a>> {
        if !self.is_checked {
            return None;
        }
        let (alloc, cure) = (self.rt.alloc(), self.cure);
        let what = match kind_of(self.encoding, block)? {
            Kind::Utf8 => format!(in alloc; "{name}: {MARKED}"),
            Kind::Gzip => format!(in alloc; "{name}: gzip; `zcat` makes it text"),
            Kind::Utf16 => format!(in alloc; "{name}: UTF-16; `{cure} UTF-16` reads it"),
        };
        Some(Trouble::with_status(what, BAD_INPUT))
    }

    /// Reads the whole input of that name.
    ///
    /// # Errors
    ///
    /// Why it can't be read.
    pub fn read_whole(&mut self, name: &'a str) -> Result<Vec<u8>, Trouble<'a>> {
        let bytes = match read_file(self.rt, &mut self.progress, name) {
            Ok(bytes) => bytes,
            Err(Trouble::File { error, .. }) => return Err(Trouble::of_file(
                shown_name(name),
                error,
            )),
            Err(trouble) => return Err(trouble),
        };
        match self.other_kind(shown_name(name), &bytes) {
            Some(trouble) => Err(trouble),
            None => Ok(bytes),
        }
    }
}

impl<'a> Blocks<'a> for HostBlocks<'_, 'a> {
    ghost ended = { λ blocks. ended_in blocks.reader };

    ghost begun = { λ blocks. begun_in blocks.reader };

    ghost last = { λ blocks. last_in blocks.reader };

    fn open(&mut self, name: &'a str) -> Result<(), Trouble<'a>> {
        match Input::open(self.rt, name) {
            Ok(input) => self.reader.begin(self.rt.alloc(), name, input)?,
            Err(error) => return Err(Trouble::of_file(shown_name(name), error)),
        }
        self.is_first = true;
        self.name = shown_name(name);
        Ok(())
    }

    fn read(&mut self) -> Result<(), Trouble<'a>> {
        // The contents of the block before are counted by now.
        let n = self.reader.block().len();
        if n > 0 {
            self.progress.add_read(self.rt, self.name, n);
        }
        if let Err(error) = self.reader.read() {
            return Err(Trouble::of_file(self.name, error));
        }
        if self.is_first
            && let Some(trouble) = self.other_kind(self.name, self.reader.block())
        {
            return Err(trouble);
        }
        self.is_first = false;
        Ok(())
    }

    fn block(&self) -> &[u8] {
        self.reader.block()
    }

    fn report_nul(&mut self, name: &str) {
        self.progress.erase(self.rt);
        let cure = self.cure;
        let _ = eprintln!(self.rt;
            "hashbag_words: {name}: it has NUL bytes; if it is UTF-16, `{cure} UTF-16LE` reads it"
        );
    }

    fn report(&mut self, name: &str, reading: &LinesRead) {
        if reading.skipped > 0 || reading.replaced > 0 {
            self.progress.erase(self.rt);
        }
        if reading.skipped > 0 {
            let skipped = reading.skipped;
            let s = plural(&skipped);
            let _ = eprintln!(self.rt; "hashbag_words: {name}: {skipped} bad line{s} skipped");
        }
        if reading.replaced > 0 {
            let replaced = reading.replaced;
            let s = plural(&replaced);
            let _ = eprintln!(self.rt;
                "hashbag_words: {name}: bytes replaced in {replaced} line{s}"
            );
        }
    }

    fn end_report(&mut self) {
        self.progress.erase(self.rt);
    }
}
