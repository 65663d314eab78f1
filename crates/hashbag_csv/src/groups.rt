//! Marks between groups of three digits.
ghost use Rattle.std.specs.Prelude.{◌≡◌, ◌∷◌, ◌++◌, ◌==◌, ◌<◌, [], bytes_eq, not, IfOk, OnOk};
ghost use Rattle.std.specs.List.{list_all};
ghost use Rattle.std.specs.String.{string_bytes};
ghost use Rattle.hashbag_csv.specs.Decimals.{whole_of};
ghost use Rattle.hashbag_csv.specs.Groups.{fits_place, group_code, is_in_groups, marks_fit, spaced, ungrouped, with_spaces, without, IsTextIf, IsUngrouped};
ghost use Rattle.hashbag_csv.specs.Marks.{code_of};
ghost use Rattle.hashbag_csv.specs.Names.{group_marks};
ghost use Rattle.hashbag_text.specs.Names.{named_in};

use crate::scale::Mark;
use std::alloc::{AllocError, Global};

/// The mark between groups of three digits.
#[derive(Clone, Copy, PartialEq, Eq, Debug)]
pub enum GroupMark {
    /// `.`
    Point,
    /// `,`
    Comma,
    /// `'`
    Apostrophe,
    /// A space.
    Space,
    /// A no-break space: U+00A0, or U+202F, which is narrow. A space is read as one too.
    NoBreak,
}

impl GroupMark {
    /// Returns the mark with this name: `.`, `,`, `'`, `space` or a space, or `nbsp`. Returns `None` for any other name.
    pub fn named(name: &str) -> Option<GroupMark>
        ensures { result ≡ named_in group_marks (bytes_eq name.now) }
    {
        match name {
            "." => Some(GroupMark::Point),
            "," => Some(GroupMark::Comma),
            "'" => Some(GroupMark::Apostrophe),
            "space" | " " => Some(GroupMark::Space),
            "nbsp" => Some(GroupMark::NoBreak),
            _ => None,
        }
    }

    /// Returns the mark as a byte. For a no-break space it is a space, as [`ungrouped_text`] reads it.
    pub fn byte(self) -> u8
        ensures byte { result ≡ group_code self }
        ensures ascii { result < 128 }
    {
        match self {
            GroupMark::Point => b'.',
            GroupMark::Comma => b',',
            GroupMark::Apostrophe => b'\'',
            GroupMark::Space => b' ',
            GroupMark::NoBreak => b' ',
        }
    }
}

// Whether no byte is the mark.
fn has_none(text: &[u8], group: u8) -> bool
    ensures { result ≡ list_all (λ c. not (c == group)) text.now }
{
    text.iter().all(|byte| *byte != group)
}

// Returns whether a byte with `behind` bytes after it fits: it has to be the mark if `behind` is 3, 7, 11 and so on, else a digit.
fn fits_before(byte: u8, behind: usize, group: u8) -> bool
    ensures { result ≡ fits_place group byte behind }
{
    if behind % 4 == 3 {
        return byte == group;
    }
    byte.is_ascii_digit()
}

// Appends a byte, unless it is the mark.
fn push_digit(digits: &mut String, byte: u8, group: u8) -> Result<(), AllocError>
    requires ascii { byte < 128 }
    ensures { OnOk result (string_bytes digits.new ≡ string_bytes digits.old ++ without group (byte ∷ [])) }
{
    if byte == group {
        return Ok(());
    }
    digits.push(char::from(byte))
}

// Returns the digits of groups of three with the mark between them, or `None` if a byte may not be at its place (`fits_before`).
fn digits_of_groups(alloc: Global, whole: &[u8], group: u8) -> Result<Option<String>, AllocError>
    requires ascii { group < 128 }
    ensures { IfOk result (λ digits. IsTextIf (marks_fit group whole.now) (without group whole.now) digits) }
{
    let mut digits = String::new(alloc);
    let mut rest = whole;
    'bytes: while let Some((byte, behind)) = rest.split_first() {
        if !fits_before(*byte, behind.len(), group) {
            return Ok(None);
        }
        push_digit(&mut digits, *byte, group)?;
        rest = behind;
    }
    Ok(Some(digits))
}

// Returns a text without the mark. Returns `None` if the text has the mark, but isn't groups of three digits with the mark between them.
fn digits_of(alloc: Global, whole: &str, group: u8) -> Result<Option<String>, AllocError>
    requires ascii { group < 128 }
    ensures { IfOk result (λ digits. IsTextIf (is_in_groups group whole.now) (without group whole.now) digits) }
{
    if has_none(whole.as_bytes(), group) {
        return Ok(Some(String::from_str(alloc, whole)?));
    }
    if whole.len() % 4 == 0 {
        return Ok(None);
    }
    digits_of_groups(alloc, whole.as_bytes(), group)
}

// Returns a number without the group marks of its whole part. Returns `None` if the whole part has the mark, but isn't groups of three digits
// with the mark between them.
fn ungrouped(alloc: Global, text: &str, mark: Mark, group: u8) -> Result<Option<String>, AllocError>
    requires ascii { group < 128 }
    ensures { IfOk result (λ digits. IsTextIf (is_in_groups group (whole_of (code_of mark) text.now)) (ungrouped group (code_of mark) text.now) digits) }
{
    let Some((whole, part)) = text.split_once(mark.character()) else {
        return digits_of(alloc, text, group);
    };
    let Some(mut digits) = digits_of(alloc, whole, group)? else {
        return Ok(None);
    };
    digits.push(mark.character())?;
    digits.push_str(part)?;
    Ok(Some(digits))
}

// Returns a space for a no-break space, U+00A0 or U+202F, and any other character as it is.
fn spaced(character: char) -> char
    ensures { result ≡ spaced character }
{
    if character == '\u{a0}' || character == '\u{202f}' {
        return ' ';
    }
    character
}

// Returns a text with a space in place of each no-break space.
fn with_spaces(alloc: Global, text: &str) -> Result<String, AllocError>
    ensures { IfOk result (λ made. string_bytes made ≡ with_spaces text.now) }
{
    let mut made = String::new(alloc);
    for character in text.chars() {
        made.push(spaced(character))?;
    }
    Ok(made)
}

/// Returns a number without the group marks of its whole part. Returns `None` if the whole part has the mark, but isn't groups of three
/// digits with the mark between them. The first group may have one or two digits. If the mark is a no-break space, the text is read with a
/// space in place of each no-break space, and a space is the mark.
pub fn ungrouped_text(
    alloc: Global,
    text: &str,
    mark: Mark,
    group: GroupMark,
) -> Result<Option<String>, AllocError>
    // `read` is `text`, or `text` with spaces in place of no-break spaces if `group` is `NoBreak`. If the part of `read` before the first `mark`
    // is in groups or has no `group`, `digits` is `read` without `group` in that part; else `None`.
    ensures { IfOk result (λ digits. IsUngrouped (code_of mark) group text.now digits) }
{
    match group {
        GroupMark::NoBreak => {
            let read = with_spaces(alloc, text)?;
            return ungrouped(alloc, read.as_str(), mark, group.byte());
        }
        _ => return ungrouped(alloc, text, mark, group.byte()),
    }
}
