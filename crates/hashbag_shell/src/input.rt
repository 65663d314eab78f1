//! Files that are read whole.
use crate::progress::Progress;
use crate::trouble::Trouble;
use std::fs;
use std::io::Read;

// How many bytes are read in one step. The progress may be reported after each step.
const PART: u64 = 1 << 24;

/// Returns the name of an input in messages: `standard input` for `-`.
pub fn shown_name(name: &str) -> &str {
    if name == "-" { "standard input" } else { name }
}

// Reads a reader to its end, reports the progress, and returns the bytes.
fn read_all<'a, F: Read>(
    rt: &HostRuntime,
    progress: &mut Progress,
    file: &'a str,
    reader: &mut F,
) -> Result<Vec<u8>, Trouble<'a>> {
    let mut text = Vec::new(rt.alloc());
    for _ in 0..u64::MAX {
        match reader.by_ref().take(PART).read_to_end(&mut text) {
            Ok(0) => break,
            Ok(n) => progress.add_read(rt, shown_name(file), n),
            Err(error) => return Err(Trouble::of_file(file, error)),
        }
    }
    progress.report_whole(rt, shown_name(file));
    Ok(text)
}

/// Returns the bytes of a file, or of standard input, which is named `-`. Reports the progress.
///
/// # Errors
///
/// `File` if the file can't be opened or read, `Memory` if an allocation fails.
pub fn read_file<'a>(
    rt: &HostRuntime,
    progress: &mut Progress,
    file: &'a str,
) -> Result<Vec<u8>, Trouble<'a>> {
    if file == "-" {
        return read_all(rt, progress, file, &mut rt.reader());
    }
    match fs::open(rt, file) {
        Ok(mut opened) => read_all(rt, progress, file, &mut opened),
        Err(error) => Err(Trouble::of_file(file, error)),
    }
}
