//! Folders: the files in them.
use hashbag_shell::status::IO_FAILED;
use hashbag_shell::trouble::Trouble;
use std::alloc::{AllocError, Global};
use std::{fs, io};

// Appends a path.
fn push_path(alloc: Global, paths: &mut Vec<String>, path: &str) -> Result<(), AllocError> {
    paths.push(String::from_str(alloc, path)?)?;
    Ok(())
}

// Moves the paths into `into`, in ascending order of their bytes.
fn push_sorted(into: &mut Vec<String>, mut paths: Vec<String>) -> Result<(), AllocError> {
    paths.sort_unstable();
    for path in paths {
        into.push(path)?;
    }
    Ok(())
}

// Appends the paths of the folders and files in a folder to these lists. Skips what is hidden, links, and what is neither a folder nor a file.
fn list_folder(
    rt: &HostRuntime,
    folder: &str,
    folders: &mut Vec<String>,
    files: &mut Vec<String>,
) -> io::Result<()> {
    for entry in fs::read_dir(rt, folder)? {
        let entry = entry?;
        let kind = entry.file_type()?;
        let is_hidden = entry.file_name().starts_with('.');
        if kind.is_dir() && !is_hidden {
            push_path(rt.alloc(), folders, entry.path().as_str())?;
        }
        if kind.is_file() && !is_hidden {
            push_path(rt.alloc(), files, entry.path().as_str())?;
        }
    }
    Ok(())
}

// Returns the trouble of a folder that can't be read.
fn of_folder<'a>(alloc: Global, name: &str, error: io::Error) -> Trouble<'a> {
    if error.kind() == io::ErrorKind::OutOfMemory {
        return Trouble::Memory;
    }
    Trouble::with_status(format!(in alloc; "{name}: {error}"), IO_FAILED)
}

// Appends the paths of the files in a folder and in the folders in it, in ascending order of their bytes.
fn walk<'a>(rt: &HostRuntime, top: &str, into: &mut Vec<String>) -> Result<(), Trouble<'a>> {
    let mut files = Vec::new(rt.alloc());
    let mut folders = Vec::new(rt.alloc());
    push_path(rt.alloc(), &mut folders, top)?;
    for _ in 0..u64::MAX {
        let Some(name) = folders.pop() else {
            break;
        };
        if let Err(error) = list_folder(rt, name.as_str(), &mut folders, &mut files) {
            return Err(of_folder(rt.alloc(), name.as_str(), error));
        }
    }
    push_sorted(into, files)?;
    Ok(())
}

/// Returns whether there is a folder of this name. `-` is standard input.
pub fn is_folder(rt: &HostRuntime, name: &str) -> bool {
    if name == "-" {
        return false;
    }
    match fs::metadata(rt, name) {
        Ok(found) => found.is_dir(),
        Err(_) => false,
    }
}

/// Returns these names. The name of a folder is replaced by the paths of the files in it.
///
/// # Errors
///
/// Which folder can't be read, and why. `Memory` if an allocation fails.
pub fn files_of<'a>(rt: &HostRuntime, names: &[&str]) -> Result<Vec<String>, Trouble<'a>> {
    let mut files = Vec::new(rt.alloc());
    for name in names {
        if is_folder(rt, name) {
            walk(rt, name, &mut files)?;
        } else {
            push_path(rt.alloc(), &mut files, name)?;
        }
    }
    Ok(files)
}
