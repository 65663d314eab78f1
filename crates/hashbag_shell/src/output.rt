//! Where a text is written: to standard output, or to a named file.
use crate::output_file::OutputFile;
use crate::status::BAD_INPUT;
use crate::trouble::Trouble;
use std::fs::{self, File};
use std::io::{self, Read, Write};
use std::rt::Files;

// Flushes a writer, if the writes to it succeeded: `given` is their result. Returns an error of a write or of the flush as `Write`.
fn flushed<'a, W: Write>(output: &mut W, given: io::Result<()>) -> Result<(), Trouble<'a>> {
    match given.and_then(|()| output.flush()) {
        Ok(()) => Ok(()),
        Err(error) => Err(Trouble::Write(error)),
    }
}

/// Writes a whole text to a writer.
pub fn write_text<'a, W: Write>(output: &mut W, text: &[u8]) -> Result<(), Trouble<'a>> {
    let given = output.write_all(text);
    flushed(output, given)
}

// Copies the rest of a reader to a writer.
fn copy_text<'a, W: Write, I: Read>(output: &mut W, from: &mut I) -> Result<(), Trouble<'a>> {
    let given = io::copy(from, output).map(|_| ());
    flushed(output, given)
}

// Returns whether this name is of an open descriptor that goes to a file. An output of that name would replace the file.
fn is_redirected<R: Files>(rt: &R, name: &str) -> bool {
    (name == "/dev/stderr" || name.starts_with("/dev/fd/") || name.starts_with("/proc/self/fd/"))
        && fs::metadata(rt, name).is_ok_and(|found| found.is_file())
}

/// An output that has been opened, and not yet written whole.
#[derive(Drop)]
pub enum Output<'a> {
    /// Standard output.
    Standard,
    /// The file of this name, which is written whole or not at all.
    Named(&'a str, OutputFile),
}

impl<'a> Output<'a> {
    /// Opens the output of this name: standard output if `name` is `None` or `/dev/stdout`, else a file. If standard output goes to a file,
    /// that file isn't replaced, and keeps what was written before. Nothing is written yet.
    ///
    /// # Errors
    ///
    /// `File` if the file can't be opened, `Other` if the name is of an open descriptor that goes to a file, `Memory` if an allocation fails.
    /// Then no file is changed.
    pub fn open<R: Files<File = File> + AllocGlobal>(
        rt: &R,
        name: Option<&'a str>,
    ) -> Result<Output<'a>, Trouble<'a>> {
        let Some(name) = name else {
            return Ok(Output::Standard);
        };
        if name == "/dev/stdout" {
            return Ok(Output::Standard);
        }
        if is_redirected(rt, name) {
            let what = format!(in rt.alloc(); "{name}: goes to a file, which would be replaced");
            return Err(Trouble::with_status(what, BAD_INPUT));
        }
        match OutputFile::open(rt, name) {
            Ok(file) => Ok(Output::Named(name, file)),
            Err(error) => Err(Trouble::of_file(name, error)),
        }
    }

    /// Writes a whole text.
    ///
    /// # Errors
    ///
    /// `File` or `Write` if a write fails. Then a named file is unchanged.
    pub fn write<R: Files + Print>(self, rt: &R, text: &[u8]) -> Result<(), Trouble<'a>> {
        match self {
            Output::Standard => write_text(&mut io::writer(rt), text),
            Output::Named(name, file) => match file.write_whole(rt, text) {
                Ok(()) => Ok(()),
                Err(error) => Err(Trouble::of_file(name, error)),
            },
        }
    }

    /// Copies the rest of a reader to the output.
    ///
    /// # Errors
    ///
    /// Same as [`Output::write`], also if a read fails.
    pub fn copy<R: Files + Print, I: Read>(self, rt: &R, from: &mut I) -> Result<(), Trouble<'a>> {
        match self {
            Output::Standard => copy_text(&mut io::writer(rt), from),
            Output::Named(name, file) => match file.copy_whole(rt, from) {
                Ok(()) => Ok(()),
                Err(error) => Err(Trouble::of_file(name, error)),
            },
        }
    }

    /// Appends a text. At the end the caller calls [`Output::close`] or [`Output::abandon`].
    ///
    /// # Errors
    ///
    /// The system's error, of which [`Output::unwritten`] makes a trouble.
    pub fn append<R: Print>(&mut self, rt: &R, text: &[u8]) -> io::Result<()> {
        match self {
            Output::Standard => io::writer(rt).write_all(text),
            Output::Named(_, file) => file.append(text),
        }
    }

    /// Returns the trouble of a text that wasn't appended.
    pub fn unwritten(&self, error: io::Error) -> Trouble<'a> {
        match self {
            Output::Standard => Trouble::Write(error),
            Output::Named(name, _) => Trouble::of_file(*name, error),
        }
    }

    /// Ends the output: a named file gets its name, and has all that was appended.
    ///
    /// # Errors
    ///
    /// Same as [`Output::write`].
    pub fn close<R: Files + Print>(self, rt: &R) -> Result<(), Trouble<'a>> {
        match self {
            Output::Standard => flushed(&mut io::writer(rt), Ok(())),
            Output::Named(name, file) => match file.close(rt) {
                Ok(()) => Ok(()),
                Err(error) => Err(Trouble::of_file(name, error)),
            },
        }
    }

    /// Drops the output. What was appended to standard output is written; a named file is unchanged.
    pub fn abandon<R: Files>(self, rt: &R) {
        if let Output::Named(_, file) = self {
            file.abandon(rt);
        }
    }

    /// If `made` is `Ok((text, with))`, writes the text and returns `with`. If `made` is an error, a named file is unchanged.
    ///
    /// # Errors
    ///
    /// The error in `made`. Else same as [`Output::write`].
    pub fn finish<R: Files + Print, T: Drop>(
        self,
        rt: &R,
        made: Result<(Vec<u8>, T), Trouble<'a>>,
    ) -> Result<T, Trouble<'a>> {
        match made {
            Ok((text, with)) => {
                self.write(rt, text.as_slice())?;
                Ok(with)
            }
            Err(trouble) => {
                self.abandon(rt);
                Err(trouble)
            }
        }
    }
}
