//! Whether two names are of one file.
use std::fs;
use std::os::unix::fs::MetadataExt;
use std::rt::Files;

/// Returns whether two names are of one regular file, however the names are written: `a`, `./a` and a link to `a` are names of one file.
///
/// The device number and the inode number decide. `-` is standard input. If one of the names has no file, returns false.
pub fn is_one_file<R: Files>(rt: &R, first: &str, second: &str) -> bool {
    match (
        fs::metadata(rt, path_of(first)),
        fs::metadata(rt, path_of(second)),
    ) {
        (Ok(one), Ok(other)) => {
            one.is_file() && one.dev() == other.dev() && one.ino() == other.ino()
        }
        _ => false,
    }
}

/// Returns the path of an input: `/dev/stdin` for `-`, else the name.
pub fn path_of(name: &str) -> &str {
    if name == "-" { "/dev/stdin" } else { name }
}
