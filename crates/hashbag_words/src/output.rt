//! Writes the text of a job.
ghost use Rattle.std.specs.Prelude.{◌≡◌, []};

use hashbag_shell::output::Output;
use hashbag_shell::trouble::Trouble;
use hashbag_words_lib::settings::Settings;
use hashbag_words_lib::shown_text::{Look, Shown};
use hashbag_words_lib::tape::Tape;
use hashbag_words_lib::text_output::TextOutput;
use std::{env, io};

/// An output that is written part by part.
#[derive(Drop)]
pub struct HostOutput<'s, 'a> {
    rt: &'s HostRuntime,
    output: Output<'a>,
    // What was written, for contracts alone.
    written: Tape,
}

impl<'s, 'a> HostOutput<'s, 'a> {
    /// Returns the output, of which nothing is written yet.
    pub fn new(rt: &'s HostRuntime, output: Output<'a>) -> HostOutput<'s, 'a>
        ensures { result.written ≡ [] }
    {
        HostOutput {
            rt,
            output,
            written: Tape::empty(),
        }
    }

    /// Ends the output, if the job succeeded, or else abandons it.
    ///
    /// # Errors
    ///
    /// The job's error; or `File` or `Write` if a write fails. Then a named file is unchanged.
    pub fn close<T: Drop>(self, done: Result<T, Trouble<'a>>) -> Result<T, Trouble<'a>> {
        match done {
            Ok(value) => {
                self.output.close(self.rt)?;
                Ok(value)
            }
            Err(Trouble::Write(error)) => {
                let trouble = self.output.unwritten(error);
                self.output.abandon(self.rt);
                Err(trouble)
            }
            Err(trouble) => {
                self.output.abandon(self.rt);
                Err(trouble)
            }
        }
    }
}

impl TextOutput for HostOutput<'_, '_> {
    ghost written = { λ output. output.written };

    fn append(&mut self, part: &Vec<u8>) -> io::Result<()> {
        self.output.append(self.rt, part)?;
        self.written.push_whole(part);
        Ok(())
    }
}

// Returns whether the text shows no row.
fn is_empty(shown: &Shown<'_>) -> bool {
    match shown {
        Shown::Rows(text) => text.is_empty(),
        Shown::Bars(text) => text.is_empty(),
    }
}

/// Writes the text of a job. Returns whether the text shows no row.
///
/// # Errors
///
/// `File` or `Write` if a write fails. Then a named file is unchanged. All allocations were made before.
pub fn write<'a>(
    rt: &HostRuntime,
    output: Output<'a>,
    shown: Shown<'_>,
) -> Result<bool, Trouble<'a>> {
    let is_empty = is_empty(&shown);
    match shown {
        Shown::Rows(mut text) => output.copy(rt, &mut text)?,
        Shown::Bars(text) => output.write(rt, text.as_slice())?,
    }
    Ok(is_empty)
}

// How many columns a terminal has if `COLUMNS` doesn't say it.
const COLUMNS: usize = 80;

// Returns how many columns the terminal has.
fn terminal_width(rt: &HostRuntime) -> usize {
    match env::var(rt, "COLUMNS") {
        Ok(text) => text.as_str().parse::<usize>().unwrap_or(COLUMNS),
        Err(_) => COLUMNS,
    }
}

/// Returns how counts are written.
pub fn look_of(rt: &HostRuntime, settings: &Settings<'_, '_>) -> Look {
    if settings.bars {
        return Look::Bars(terminal_width(rt));
    }
    if settings.share {
        return Look::Shares;
    }
    Look::Rows(settings.format)
}
