//! A line of counts: a token, a tab and a count.
//!
//! A tab, a line feed, a carriage return and a backslash in a token are written `\t`, `\n`, `\r` and `\\`. So each token is on one line,
//! and is read again as the same token.
ghost use Rattle.std.specs.Prelude.{◌≡◌, ◌≢◌, ◌∷◌, ◌++◌, ◌<◌, ℕ, [], List, Some, false, length, option_map, slice_index, string_bytes, IfNone, IfOk, IfSome, OnOk};
ghost use Rattle.hashbag_words_lib.specs.Rows.{byte_of, escaped, letter_of, row, shown_as, unescaped, AreSpaces, IfRow, IsLineOf, IsNoEscapedText, IsRead, IsUniqLineOf, ReadsByte};

use crate::errors::BadLine;
use itoa::Buffer;
use memchr::{memchr, memchr3};
use std::alloc::{AllocError, Global};
use std::io;

/// How the lines of a file of counts are written.
#[derive(Clone, Copy, Debug, PartialEq, Eq)]
pub enum RowForm {
    /// A token, a tab, a count.
    Tsv,
    /// As `uniq -c` writes it: spaces, a count, a space, a token.
    Uniq,
}

// Returns the letter that means this byte after a backslash, or `None` if the byte isn't escaped.
fn escape_of(byte: u8) -> Option<u8>
    ensures { result ≡ letter_of byte }
{
    match byte {
        b'\t' => Some(b't'),
        b'\n' => Some(b'n'),
        b'\r' => Some(b'r'),
        b'\\' => Some(b'\\'),
        _ => None,
    }
}

// Returns the byte that this letter means after a backslash, or `None` if it means none.
fn meant_by(letter: u8) -> Option<u8>
    ensures { result ≡ byte_of letter }
{
    match letter {
        b't' => Some(b'\t'),
        b'n' => Some(b'\n'),
        b'r' => Some(b'\r'),
        b'\\' => Some(b'\\'),
        _ => None,
    }
}

// Appends a byte, escaped if it has to be.
fn push_byte(text: &mut Vec<u8>, byte: u8) -> Result<(), AllocError>
    ensures { OnOk result (text.new.items ≡ text.old.items ++ shown_as byte (letter_of byte)) }
{
    match escape_of(byte) {
        Some(letter) => {
            text.push(b'\\')?;
            text.push(letter)?;
            Ok(())
        }
        None => {
            text.push(byte)?;
            Ok(())
        }
    }
}

// Returns whether a text has a backslash.
fn has_backslash(text: &[u8]) -> bool
    ensures { result ≡ false → (i : ℕ) → i < length text.now → slice_index text.now i ≢ 92 }
{
    memchr(b'\\', text).is_some()
}

// Returns whether a token has a byte that is escaped. Few tokens have one.
fn has_escape(token: &[u8]) -> bool
    ensures { result ≡ false → escaped token.now ≡ token.now }
{
    if memchr3(b'\t', b'\n', b'\r', token).is_some() {
        return true;
    }
    has_backslash(token)
}

// Appends a token, escaped. A token without a byte to escape is appended as a whole.
pub(crate) fn push_token(text: &mut Vec<u8>, token: &[u8]) -> Result<(), AllocError>
    ensures { OnOk result (text.new.items ≡ text.old.items ++ escaped token.now) }
{
    if !has_escape(token) {
        text.extend_from_slice(token)?;
        return Ok(());
    }
    for byte in token {
        push_byte(text, *byte)?;
    }
    Ok(())
}

// Appends the line of a token and its count, without a line feed.
pub(crate) fn push_cells(text: &mut Vec<u8>, token: &str, count: usize) -> Result<(), AllocError>
    ensures { OnOk result (text.new.items ≡ text.old.items ++ row token.now count) }
{
    push_token(text, token.as_bytes())?;
    let mut digits = Buffer::new();
    text.push(b'\t')?;
    text.extend_from_slice(digits.format(count).as_bytes())
}

/// Appends the line of a token and its count, with a line feed.
///
/// # Errors
///
/// An allocation fails.
pub fn push_row(text: &mut Vec<u8>, token: &str, count: usize) -> io::Result<()>
    // The line is the token, escaped, a tab, and the count in decimal. The byte 10 is the line feed.
    ensures { OnOk result (text.new.items ≡ text.old.items ++ (row token.now count ++ 10 ∷ [])) }
{
    push_cells(text, token, count)?;
    text.push(b'\n')?;
    Ok(())
}

// Reads the next byte of an escaped token into `token`. `is_marked`: the byte before it is a backslash that escapes it. Returns whether this byte is
// a backslash that escapes the next one, or `None` if this byte is escaped, but isn't an escape letter.
fn take_byte(token: &mut Vec<u8>, is_marked: bool, byte: u8) -> Result<Option<bool>, AllocError>
    ensures { IfOk result (λ marked. ReadsByte byte token.old.items is_marked token.new.items marked) }
{
    if is_marked {
        let Some(meant) = meant_by(byte) else {
            return Ok(None);
        };
        token.push(meant)?;
        return Ok(Some(false));
    }
    if byte == b'\\' {
        return Ok(Some(true));
    }
    token.push(byte)?;
    Ok(Some(false))
}

// Returns the bytes whose escaped form is `written`, or `None` if `written` has a bad escape.
fn unescape(alloc: Global, written: &[u8]) -> Result<Option<Vec<u8>>, AllocError>
    ensures { IfOk result (λ token. option_map (λ t. t.items) token ≡ unescaped false written.now) }
{
    let mut token = Vec::new(alloc);
    let mut is_marked = false;
    for byte in written {
        let Some(marked) = take_byte(&mut token, is_marked, *byte)? else {
            return Ok(None);
        };
        is_marked = marked;
    }
    if is_marked {
        return Ok(None);
    }
    Ok(Some(token))
}

// Returns the token whose escaped form is `written`, or `None` if there is none. Most tokens have no backslash; then `written` is the token itself.
fn read_token(alloc: Global, written: &str) -> Result<Option<String>, AllocError>
    ensures token { IfOk result (λ token. IfSome token (λ t. unescaped false written.now ≡ Some (string_bytes t))) }
    ensures no_token { IfOk result (λ token. IfNone token (IsNoEscapedText written.now)) }
{
    if !has_backslash(written.as_bytes()) {
        return Ok(Some(written.to_string(alloc)?));
    }
    let Some(bytes) = unescape(alloc, written.as_bytes())? else {
        return Ok(None);
    };
    let Ok(token) = String::from_utf8(bytes) else {
        return Ok(None);
    };
    Ok(Some(token))
}

/// Returns the token and the count of a line, or why the line is bad. The line is given without its line feed.
///
/// # Errors
///
/// The outer error is a failed allocation, the inner one a bad line.
pub fn read_row(alloc: Global, line: &str) -> Result<Result<(String, usize), BadLine>, AllocError>
    // `row`: a line that was written from a token and a count is read as these. `line`: a row that is returned is what the line says.
    ensures row { IfOk result (λ read. IfRow RowForm.Tsv line.now (λ token count. IsRead token count read)) }
    ensures line { IfOk result (λ read. IfOk read (λ p. IsLineOf line.now (string_bytes p.0) p.1)) }
{
    let Some((written, digits)) = line.split_once('\t') else {
        return Ok(Err(BadLine::NoTab));
    };
    let Ok(count) = digits.parse::<usize>() else {
        return Ok(Err(BadLine::NoCount));
    };
    let Some(token) = read_token(alloc, written)? else {
        return Ok(Err(BadLine::BadEscape));
    };
    Ok(Ok((token, count)))
}

// Returns a line without the spaces at its beginning.
fn past_spaces(line: &str) -> &str
    ensures rest { (spaces : List ℕ) × AreSpaces spaces × (line.now ≡ spaces ++ result.now) }
    ensures first { slice_index result.now 0 ≢ 32 }
{
    let mut rest = line;
    'spaces: while let Some(shorter) = rest.strip_prefix(' ') {
        rest = shorter;
    }
    rest
}

/// Returns the token and the count of a line that `uniq -c` wrote, or why the line is bad. The line is given without its line feed.
///
/// The token is everything after the space that follows the count.
///
/// # Errors
///
/// The outer error is a failed allocation, the inner one a bad line.
pub fn read_uniq_row(
    alloc: Global,
    line: &str,
) -> Result<Result<(String, usize), BadLine>, AllocError>
    // `row`: a line that was written from a token and a count is read as these. `line`: a row that is returned is what the line says.
    ensures row { IfOk result (λ read. IfRow RowForm.Uniq line.now (λ token count. IsRead token count read)) }
    ensures line { IfOk result (λ read. IfOk read (λ p. IsUniqLineOf line.now (string_bytes p.0) p.1)) }
{
    let Some((digits, token)) = past_spaces(line).split_once(' ') else {
        return Ok(Err(BadLine::NoCount));
    };
    let Ok(count) = digits.parse::<usize>() else {
        return Ok(Err(BadLine::NoCount));
    };
    Ok(Ok((token.to_string(alloc)?, count)))
}
