//! The text of files, whose encoding may be named.
ghost use Rattle.std.specs.Prelude.{◌≡◌, Some, IfOk};
ghost use Rattle.hashbag_text.specs.Encodings.{text_in};

use crate::trouble::Trouble;
use hashbag_text::bad_bytes::DecodeError;
use hashbag_text::encoding::Encoding;
use hashbag_text::whole::decode;
use memchr::{memchr, memchr_iter};
use std::alloc::Global;

/// The message for a file that is read as Latin-1 or Windows-1252, but begins with the byte order mark of UTF-8.
pub const MARKED: &str = "UTF-8, by its byte order mark; `--encoding UTF-8` reads it";

// Returns `None` if these bytes may be text. Else returns the number of the first line that shows that they aren't, and what they are. Returns `None`
// also for UTF-16 with a byte order mark: the code that reads the text then rejects it with its own message.
fn no_text(bytes: &[u8]) -> Option<(u64, &'static str)> {
    if bytes.starts_with(b"\x1f\x8b") {
        return Some((1, "gzip; `zcat` makes it text"));
    }
    if bytes.starts_with(b"\xff\xfe") || bytes.starts_with(b"\xfe\xff") {
        return None;
    }
    let at = memchr(0, bytes)?;
    let before = memchr_iter(b'\n', &bytes[..at]).count() as u64;
    Some((
        before.saturating_add(1),
        "a NUL byte; if it is UTF-16, `--encoding UTF-16LE` reads it",
    ))
}

/// Returns whether the encoding is Latin-1 or Windows-1252, and the bytes begin with the byte order mark of UTF-8. In these encodings the mark would
/// be three letters and signs, so the bytes are taken for UTF-8.
pub fn is_marked_utf8(encoding: Encoding, bytes: &[u8]) -> bool {
    matches!(encoding, Encoding::Latin1 | Encoding::Windows1252)
        && bytes.starts_with(b"\xef\xbb\xbf")
}

// Returns the bytes, or `BadLine` if `no_text` shows that they aren't text.
fn checked<'a>(alloc: Global, file: &'a str, bytes: Vec<u8>) -> Result<Vec<u8>, Trouble<'a>>
    ensures { IfOk result (λ text. text ≡ bytes) }
{
    match no_text(&bytes) {
        None => Ok(bytes),
        Some((line, what)) => Err(Trouble::of_line(file, line, what.to_string(alloc))),
    }
}

/// Returns the trouble. If it is a bad line whose message names `--encoding`, the message names `option` instead.
pub fn with_option<'a>(alloc: Global, trouble: Trouble<'a>, option: &str) -> Trouble<'a> {
    if let Trouble::BadLine {
        file,
        line,
        what,
        ..
    } = &trouble
        && let Some((before, after)) = what.split_once("`--encoding ")
    {
        return Trouble::of_line(*file, *line, format!(in alloc; "{before}`{option} {after}"));
    }
    trouble
}

/// Returns the trouble of a file whose bytes aren't text in its encoding.
pub fn of_decoding<'a>(alloc: Global, file: &'a str, error: DecodeError) -> Trouble<'a> {
    match error {
        DecodeError::Line { line, bad_bytes } => {
            Trouble::of_line(file, line, format!(in alloc; "{bad_bytes}"))
        }
        DecodeError::Memory => Trouble::Memory,
    }
}

/// Returns the text of a file's bytes. If `encoding` is `None`, which is UTF-8, the bytes are returned unchanged.
///
/// # Errors
///
/// `BadLine` if the bytes aren't text in the encoding, begin with the byte order mark of UTF-8 though the encoding is Latin-1 or Windows-1252, are
/// compressed, or have a NUL byte. `Memory` if an allocation fails.
pub fn text_of<'a>(
    alloc: Global,
    file: &'a str,
    encoding: Option<Encoding>,
    bytes: Vec<u8>,
) -> Result<Vec<u8>, Trouble<'a>>
    // `text_in` is the text of bytes in this encoding, or `None` if they aren't text. Without an encoding the bytes are the text.
    ensures { IfOk result (λ text. text_in encoding bytes.items ≡ Some text.items) }
{
    let Some(encoding) = encoding else {
        return checked(alloc, file, bytes);
    };
    if is_marked_utf8(encoding, &bytes) {
        return Err(Trouble::of_line(file, 1, MARKED.to_string(alloc)));
    }
    match decode(alloc, encoding, bytes.as_slice()) {
        Ok(text) => checked(alloc, file, text.into_bytes()),
        Err(error) => Err(of_decoding(alloc, file, error)),
    }
}
