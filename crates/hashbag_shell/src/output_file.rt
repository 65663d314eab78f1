//! A file that is written whole or not at all.
//!
//! The text is written to a temporary file in the same folder. At the end that file is renamed to the output's name. So a failed write or a
//! signal leaves the output as it was, and the texts of two writers are never mixed.
//!
//! If the output exists, nobody but the owner of the temporary file can open it before it has the output's own owner and permissions.
use crate::beside::create_beside;
use std::alloc::{AllocError, Global};
use std::fs::{self, File, Metadata, OpenFile, OpenOptions};
use std::io::{self, ErrorKind, Read, Write};
use std::os::unix::fs::{MetadataExt, fchown};
use std::rt::Files;

// The greatest number of links that are followed.
const MOST_LINKS: u32 = 40;

// The permissions of an output that didn't exist, before the process's mask takes some away.
const NEW_MODE: u32 = 0o666;

// The permissions of its owner to read and write a file.
const OWNER_MODE: u32 = 0o600;

// The two names of the rename at the end.
#[derive(Drop)]
struct Names {
    // The name of the temporary file.
    temporary: String,
    // The name of the output, with links resolved.
    output: String,
}

/// An output that has been opened, and not yet written.
#[derive(Drop)]
pub struct OutputFile {
    file: File,
    // `None` if the output isn't a regular file, for example a terminal. The output is then written directly.
    names: Option<Names>,
}

// Opens a temporary file for the output of this name. The file is created with at most the permissions of `mode`.
fn open_beside<R: Files<File = File> + AllocGlobal>(
    rt: &R,
    output: String,
    mode: u32,
) -> io::Result<OutputFile> {
    let (file, temporary) = create_beside(rt, output.as_str(), mode)?;
    let names = Some(Names { temporary, output });
    Ok(OutputFile { file, names })
}

// Gives a new file the owner, the group and the permissions of the file that it replaces. If this user may not set the owner, the permissions are
// still set, and so is the group, if the user may set it.
fn keep_owner_and_mode(file: &File, former: &Metadata) -> io::Result<()> {
    let group = Some(former.gid());
    if fchown(file, Some(former.uid()), group).is_err() {
        let _ = fchown(file, None, group);
    }
    file.set_permissions(former.permissions())
}

// Opens an output that exists. Returns an error if it may not be written. For a regular file, opens a temporary file with the same owner
// and permissions. Until it has these, it has none but those that the owner of the output has.
fn open_existing<R: Files<File = File> + AllocGlobal>(
    rt: &R,
    name: &str,
    is_file: bool,
) -> io::Result<OutputFile> {
    let file = OpenOptions::new().write(true).open(rt, name)?;
    if !is_file {
        return Ok(OutputFile { file, names: None });
    }
    let former = file.metadata()?;
    let output = fs::canonicalize(rt, name)?.into_string();
    let opened = open_beside(rt, output, former.mode() & OWNER_MODE)?;
    match keep_owner_and_mode(&opened.file, &former) {
        Ok(()) => Ok(opened),
        Err(error) => {
            opened.abandon(rt);
            Err(error)
        }
    }
}

// Returns the path to which the symbolic link `link` points. The link contains `text`: an absolute path, if it begins with `/`, or a path from the
// link's folder.
fn target_of(alloc: Global, link: &str, text: &str) -> Result<String, AllocError> {
    match link.rsplit_once('/') {
        Some((folder, _)) if !text.starts_with('/') => format!(in alloc; "{folder}/{text}"),
        _ => text.to_string(alloc),
    }
}

// Follows symbolic links, at most 40, and returns the last target, or `name` if it is no link.
fn end_of_links<R: Files + AllocGlobal>(rt: &R, name: &str) -> io::Result<String> {
    let mut end = name.to_string(rt.alloc())?;
    for _ in 0..MOST_LINKS {
        match fs::read_link(rt, end.as_str()) {
            Ok(text) => end = target_of(rt.alloc(), end.as_str(), text.as_str())?,
            Err(error) if error.kind() == ErrorKind::OutOfMemory => return Err(error),
            Err(_) => break,
        }
    }
    Ok(end)
}

// Syncs the folder of a file to the device, so that the name of the file outlives a failure of the machine. Does nothing if the folder may not be
// read or can't be synced: the file then has its name all the same.
fn sync_folder<R: Files>(rt: &R, file: &str) {
    let folder = match file.rsplit_once('/') {
        Some((folder, _)) if !folder.is_empty() => folder,
        Some(_) => "/",
        None => ".",
    };
    if let Ok(folder) = fs::open(rt, folder) {
        let _ = folder.sync_all();
    }
}

impl OutputFile {
    /// Opens the output of this name. Nothing is written yet.
    ///
    /// # Errors
    ///
    /// The system's error: the folder doesn't exist, or the file may not be written. Then no temporary file is left.
    pub fn open<R: Files<File = File> + AllocGlobal>(rt: &R, name: &str) -> io::Result<OutputFile> {
        match fs::metadata(rt, name) {
            Ok(found) => open_existing(rt, name, found.is_file()),
            Err(error) if error.kind() == ErrorKind::NotFound => {
                open_beside(rt, end_of_links(rt, name)?, NEW_MODE)
            }
            Err(error) => Err(error),
        }
    }

    // Flushes what was written, and syncs a temporary file to the device.
    fn flush_and_sync(&mut self) -> io::Result<()> {
        self.file.flush()?;
        if self.names.is_some() {
            self.file.sync_all()?;
        }
        Ok(())
    }

    // Renames the temporary file to the output, and syncs the folder. If a write or the rename fails, removes the temporary file.
    fn end<R: Files>(mut self, rt: &R, written: io::Result<()>) -> io::Result<()> {
        let mut ended = match written {
            Ok(()) => self.flush_and_sync(),
            Err(error) => Err(error),
        };
        if let Some(names) = &self.names
            && ended.is_ok()
        {
            ended = fs::rename(rt, names.temporary.as_str(), names.output.as_str());
            if ended.is_ok() {
                sync_folder(rt, names.output.as_str());
            }
        }
        if ended.is_err() {
            self.abandon(rt);
        }
        ended
    }

    /// Writes the text, and renames the temporary file to the output.
    ///
    /// # Errors
    ///
    /// The system's error. Then the temporary file is removed, and a regular file of the output's name is unchanged.
    pub fn write_whole<R: Files>(mut self, rt: &R, text: &[u8]) -> io::Result<()> {
        let written = self.file.write_all(text);
        self.end(rt, written)
    }

    /// Copies the rest of `from`, and renames the temporary file to the output.
    ///
    /// # Errors
    ///
    /// Same as [`OutputFile::write_whole`], also if a read fails.
    pub fn copy_whole<R: Files, I: Read>(mut self, rt: &R, from: &mut I) -> io::Result<()> {
        let copied = io::copy(from, &mut self.file);
        let written = match copied {
            Ok(_bytes) => Ok(()),
            Err(error) => Err(error),
        };
        self.end(rt, written)
    }

    /// Appends a text. At the end the caller calls [`OutputFile::close`] or [`OutputFile::abandon`].
    ///
    /// # Errors
    ///
    /// The system's error. Then a part of the text may have been written.
    pub fn append(&mut self, text: &[u8]) -> io::Result<()> {
        self.file.write_all(text)
    }

    /// Renames the temporary file, which has all that was appended, to the output.
    ///
    /// # Errors
    ///
    /// Same as [`OutputFile::write_whole`].
    pub fn close<R: Files>(self, rt: &R) -> io::Result<()> {
        self.end(rt, Ok(()))
    }

    /// Removes the temporary file, if the output has one.
    pub fn abandon<R: Files>(self, rt: &R) {
        if let Some(names) = &self.names {
            let _ = fs::remove_file(rt, names.temporary.as_str());
        }
    }
}
