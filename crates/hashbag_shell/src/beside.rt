//! The temporary file of an output: `.hashbag-0.tmp`, or a higher number, in the folder of the output.
//!
//! The program that writes the file locks it. The system unlocks the file when the program ends, for whatever reason. So an unlocked file
//! of such a name was left by a program that was killed, and the next output in that folder removes the file.
use std::fs::{self, File, OpenOptions, TryLockError};
use std::io::{self, ErrorKind};
use std::os::unix::fs::{MetadataExt, OpenOptionsExt};
use std::rt::Files;

// The greatest number of names that are tried.
const MOST_NAMES: u32 = 1000;

// Returns whether this name is the open file itself, and no link to the file.
fn is_named<R: Files>(rt: &R, file: &File, name: &str) -> bool {
    match (file.metadata(), fs::symlink_metadata(rt, name)) {
        (Ok(one), Ok(other)) => one.dev() == other.dev() && one.ino() == other.ino(),
        _ => false,
    }
}

// Locks the file of this name and removes it, unless another program has locked it. While the lock is held, no other program removes the file
// or uses its name again.
fn remove_left<R: Files<File = File>>(rt: &R, name: &str) {
    let Ok(found) = fs::symlink_metadata(rt, name) else {
        return;
    };
    // Opening a pipe could block until another program writes to the pipe.
    if !found.is_file() {
        return;
    }
    let Ok(file) = fs::open(rt, name) else {
        return;
    };
    if file.try_lock().is_ok() && is_named(rt, &file, name) {
        let _ = fs::remove_file(rt, name);
    }
}

// Creates a file with at most these permissions, locks it if the system can lock files, and returns it. Returns `None` if a file of that name
// exists, or if another program removed or locked the new file first.
fn create_locked<R: Files<File = File>>(rt: &R, name: &str, mode: u32) -> io::Result<Option<File>> {
    let file = match OpenOptions::new()
        .write(true)
        .create_new(true)
        .mode(mode)
        .open(rt, name)
    {
        Ok(file) => file,
        Err(error) if error.kind() == ErrorKind::AlreadyExists => return Ok(None),
        Err(error) => return Err(error),
    };
    let is_taken = matches!(file.try_lock(), Err(TryLockError::WouldBlock));
    Ok(if !is_taken && is_named(rt, &file, name) {
        Some(file)
    } else {
        None
    })
}

/// Creates a file in the folder of an output, and returns the file with its name. The file has the permissions of `mode`, without those that the
/// process's mask takes away. A file that a killed program left there is removed first.
///
/// # Errors
///
/// The system's error: the folder doesn't exist or may not be written, or too many files are open. `AlreadyExists` if all names are in use.
pub fn create_beside<R: Files<File = File> + AllocGlobal>(
    rt: &R,
    output: &str,
    mode: u32,
) -> io::Result<(File, String)> {
    let alloc = rt.alloc();
    for i in 0..MOST_NAMES {
        let name = match output.rsplit_once('/') {
            Some((folder, _)) => format!(in alloc; "{folder}/.hashbag-{i}.tmp")?,
            None => format!(in alloc; ".hashbag-{i}.tmp")?,
        };
        remove_left(rt, name.as_str());
        if let Some(file) = create_locked(rt, name.as_str(), mode)? {
            return Ok((file, name));
        }
    }
    Err(io::Error::from(ErrorKind::AlreadyExists))
}
