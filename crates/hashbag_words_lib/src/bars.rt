//! Rows with bars, for people at a terminal.
ghost use Rattle.std.specs.Prelude.{◌≡◌, ◌++◌, map, min, replicate, string_bytes, encode_utf8_all, IfOk, OnOk};
ghost use Rattle.hashbag_core.specs.Walks.{seen};
ghost use Rattle.hashbag_words_lib.specs.Bars.{bars_text, columns, char_columns, shortened, fitting, greatest_of, layout_of, bar_line, marks_of, name_of, name_text, right_in, shown_char, widest};
ghost use Rattle.hashbag_words_lib.specs.Sorted.{row_of};

use crate::shares::rounded;
use itoa::Buffer;
use std::alloc::{AllocError, Global};
use unicode_width::UnicodeWidthChar;

/// The columns of a line: a name at the left, a space, a count at the right, a space, a bar.
#[derive(Clone, Copy, Debug, PartialEq, Eq)]
pub(crate) struct Layout {
    // How many columns the names have.
    names: usize,
    // How many columns the counts have.
    digits: usize,
    // How many columns the longest bar has.
    bars: u16,
    // The count of the longest bar.
    greatest: usize,
}

// Returns the character that is shown for `c`.
fn shown_char(c: char) -> char
    ensures { result ≡ shown_char c }
{
    if c == '\t' {
        return '\u{2409}';
    }
    if c.is_control() {
        return '\u{fffd}';
    }
    c
}

// Returns the characters of a token as they are shown.
fn name_of(alloc: Global, token: &str) -> Result<Vec<char>, AllocError>
    ensures { IfOk result (λ name. name.items ≡ name_of token.now) }
{
    let mut name = Vec::new(alloc);
    for c in token.chars() {
        name.push(shown_char(c))?;
    }
    Ok(name)
}

// Returns how many columns a character has in a terminal.
fn char_columns(c: char) -> usize
    ensures { result ≡ char_columns c }
{
    c.width().unwrap_or(0)
}

// Returns how many columns a name has, or `limit` if it has more.
fn columns_within(limit: usize, name: &[char]) -> usize
    ensures { result ≡ min limit (columns name.now) }
{
    let mut n = 0usize;
    for c in name {
        n = n.saturating_add(char_columns(*c)).min(limit);
    }
    n
}

// Returns how many characters from the beginning of a name fit into `room` columns.
fn fitting(room: usize, name: &[char]) -> usize
    ensures { result ≡ fitting room name.now }
{
    let mut left = room;
    'characters: for i in 0..name.len() {
        let width = char_columns(name[i]);
        if width > left {
            return i;
        }
        left -= width;
    }
    name.len()
}

// Returns a name that fits into `room` columns. A wider name is cut, and `…` follows its beginning.
fn shortened(room: usize, name: Vec<char>) -> Result<Vec<char>, AllocError>
    ensures { IfOk result (λ shown. shown.items ≡ shortened room name.items) }
{
    let mut name = name;
    if fitting(room, &name) == name.len() {
        return Ok(name);
    }
    let left = fitting(room.saturating_sub(1), &name);
    name.truncate(left);
    name.push('…')?;
    Ok(name)
}

// Returns the characters as a string.
fn string_of(alloc: Global, name: &[char]) -> Result<String, AllocError>
    ensures { IfOk result (λ text. string_bytes text ≡ encode_utf8_all name.now) }
{
    let mut text = String::new(alloc);
    for c in name {
        text.push(*c)?;
    }
    Ok(text)
}

// Appends a byte n times.
fn push_times(text: &mut Vec<u8>, byte: u8, n: usize) -> Result<(), AllocError>
    ensures { OnOk result (text.new.items ≡ text.old.items ++ replicate n byte) }
{
    'times: for i in 0..n {
        text.push(byte)?;
    }
    Ok(())
}

// Appends a token in `room` columns. A wider token is cut, and spaces follow a narrower one.
fn push_name(alloc: Global, text: &mut Vec<u8>, room: usize, token: &str) -> Result<(), AllocError>
    ensures { OnOk result (text.new.items ≡ text.old.items ++ name_text room (name_of token.now)) }
{
    let name = shortened(room, name_of(alloc, token)?)?;
    let shown = string_of(alloc, &name)?;
    text.extend_from_slice(shown.as_str().as_bytes())?;
    push_times(text, b' ', room.saturating_sub(columns_within(room, &name)))
}

// Appends a count at the right of `digits` columns.
fn push_count(text: &mut Vec<u8>, digits: usize, count: usize) -> Result<(), AllocError>
    ensures { OnOk result (text.new.items ≡ text.old.items ++ right_in digits count) }
{
    let mut buffer = Buffer::new();
    let number = buffer.format(count).as_bytes();
    push_times(text, b' ', digits.saturating_sub(number.len()))?;
    text.extend_from_slice(number)
}

// Returns how many marks the bar of a count has.
fn marks(longest: u16, greatest: usize, count: usize) -> usize
    ensures { result ≡ marks_of longest greatest count }
{
    if count == 0 {
        return 0;
    }
    let nearest = rounded((longest as u128) * (count as u128), greatest as u128);
    nearest.max(1).min(longest as u128) as usize
}

// Appends the line of a token and its count.
fn push_line(
    alloc: Global,
    text: &mut Vec<u8>,
    layout: Layout,
    token: &str,
    count: usize,
) -> Result<(), AllocError>
    ensures { OnOk result (text.new.items ≡ text.old.items ++ bar_line layout (token.now, count)) }
{
    push_name(alloc, text, layout.names, token)?;
    text.push(b' ')?;
    push_count(text, layout.digits, count)?;
    text.push(b' ')?;
    push_times(text, b'#', marks(layout.bars, layout.greatest, count))?;
    text.push(b'\n')?;
    Ok(())
}

// Returns the greatest count of rows, or 0 if there are none.
fn greatest(rows: &[(&String, usize)]) -> usize
    ensures { result ≡ greatest_of 0 (map row_of (map seen rows.now)) }
{
    let mut most = 0usize;
    for row in rows {
        most = most.max(row.1);
    }
    most
}

// Returns how many columns the widest token has, or `limit` if it has more.
fn widest(alloc: Global, limit: usize, rows: &[(&String, usize)]) -> Result<usize, AllocError>
    ensures { IfOk result (λ n. n ≡ widest limit 0 (map row_of (map seen rows.now))) }
{
    let mut most = 0usize;
    for row in rows {
        let name = name_of(alloc, row.0.as_str())?;
        most = most.max(columns_within(limit, &name));
    }
    Ok(most)
}

// Returns the layout of these rows on a terminal of `width` columns.
fn layout_of(alloc: Global, width: usize, rows: &[(&String, usize)]) -> Result<Layout, AllocError>
    ensures { IfOk result (λ layout. layout ≡ layout_of width (map row_of (map seen rows.now))) }
{
    let width = width.max(40).min(1000);
    let names = widest(alloc, width / 3, rows)?;
    let greatest = greatest(rows);
    let mut buffer = Buffer::new();
    let digits = buffer.format(greatest).len();
    let bars = width
        .saturating_sub(names)
        .saturating_sub(digits)
        .saturating_sub(2) as u16;
    Ok(Layout {
        names,
        digits,
        bars,
        greatest,
    })
}

/// Returns the text of rows with bars, for a terminal of `width` columns.
///
/// # Errors
///
/// An allocation fails.
pub fn bars_of(
    alloc: Global,
    width: usize,
    rows: &[(&String, usize)],
) -> Result<Vec<u8>, AllocError>
    // A line for each row, in order: its token, a space, its count, a space and its bar, laid out for `width` columns, at least 40 and at most 1000.
    ensures { IfOk result (λ text. text.items ≡ bars_text width (map row_of (map seen rows.now))) }
{
    let layout = layout_of(alloc, width, rows)?;
    let mut text = Vec::new(alloc);
    for row in rows {
        push_line(alloc, &mut text, layout, row.0.as_str(), row.1)?;
    }
    Ok(text)
}
