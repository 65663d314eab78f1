//! Inputs, read by name. The code that chooses which inputs are read is generic over [`Inputs`], so its clauses hold for any bytes.
ghost use Rattle.std.specs.Prelude.{ℕ, List, IfOk, ⊤};
ghost use Rattle.hashbag_shell.specs.Inputs.{IsTextRead};

use crate::input::read_file;
use crate::progress::{Progress, Reports};
use crate::text::text_of;
use crate::trouble::Trouble;
use hashbag_text::encoding::Encoding;
use std::alloc::Global;
use std::cell::Cell;

/// Inputs that are read whole, by their names.
pub trait Inputs {
    /// `gives inputs name bytes`: the input of this name has these bytes.
    ghost gives: { Self → List ℕ → List ℕ → Type 0 };

    /// Returns the bytes of an input.
    ///
    /// # Errors
    ///
    /// Why the input can't be read.
    fn read<'a>(&self, file: &'a str) -> Result<Vec<u8>, Trouble<'a>>
        ensures { IfOk result (λ bytes. gives self.now file.now bytes.items) };
}

/// Returns the text of an input: the bytes of the input, decoded if an encoding is given.
///
/// # Errors
///
/// Why the input can't be read, or isn't text. `Memory` if an allocation fails.
pub fn read_text<'a, I: Inputs>(
    alloc: Global,
    inputs: &I,
    file: &'a str,
    encoding: Option<Encoding>,
) -> Result<Vec<u8>, Trouble<'a>>
    // `gives` holds of `file` and some bytes, and the text is these bytes, decoded if there is an `encoding`.
    ensures { IfOk result (λ text. IsTextRead (I.gives inputs.now) encoding file.now text.items) }
{
    let bytes = inputs.read(file)?;
    let text = text_of(alloc, file, encoding, bytes)?;
    Ok(text)
}

/// The system's inputs: files, and standard input, which is named `-`. Progress is reported.
#[derive(Drop)]
pub struct HostInputs<'s> {
    rt: &'s HostRuntime,
    // In a `Cell`, since `read` takes `&self`.
    progress: Cell<Progress>,
}

impl<'s> HostInputs<'s> {
    /// Returns the system's inputs. `names` are all inputs that will be read: reports say how much of their bytes was read.
    pub fn new(rt: &'s HostRuntime, reports: Reports, names: &[&str]) -> HostInputs<'s> {
        HostInputs {
            rt,
            progress: Cell::new(Progress::new(rt, reports, names)),
        }
    }

    /// Erases the report on the terminal, if one is shown.
    pub fn end(self) {
        self.progress.into_inner().erase(self.rt);
    }
}

impl Inputs for HostInputs<'_> {
    // No clause of the system's calls says which bytes a file has.
    ghost gives = { λ _ _ _. ⊤ };

    fn read<'a>(&self, file: &'a str) -> Result<Vec<u8>, Trouble<'a>> {
        let mut progress = self.progress.get();
        let bytes = read_file(self.rt, &mut progress, file);
        self.progress.set(progress);
        bytes
    }
}
