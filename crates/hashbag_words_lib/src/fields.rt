//! The fields of a line.
ghost use Rattle.std.specs.Prelude.{◌≡◌, slice_get};
ghost use Rattle.std.specs.Option.{option_copied};
ghost use Rattle.hashbag_words_lib.specs.Fields.{fields_of, is_field, IsCut};

use crate::rule::Separator;

// Returns the texts before and after the first separator, or `None` if the text has no separator.
fn cut(text: &str, separator: Separator) -> Option<(&str, &str)>
    ensures { IsCut separator text.now result }
{
    match separator {
        Separator::Blanks => text.split_once([' ', '\t']),
        Separator::Char(c) => text.split_once(c),
    }
}

// Returns whether a part between separators is a field. Between blanks an empty part isn't one.
fn is_field(part: &str, separator: Separator) -> bool
    ensures { result ≡ is_field separator part.now }
{
    match separator {
        Separator::Blanks => !part.is_empty(),
        Separator::Char(_) => true,
    }
}

/// Returns the field with this index, from 0, or `None` if the line has fewer fields.
///
/// # Complexity
///
/// Reads each character up to the end of the field at most once, and allocates nothing.
pub fn field_at(line: &str, separator: Separator, index: usize) -> Option<&str>
    // The fields are the parts of the line between separators. With `Blanks`, spaces and tabs separate, and empty parts aren't fields.
    ensures { option_copied result ≡ slice_get (fields_of separator line.now) index }
{
    let mut rest = line;
    let mut left = index;
    'parts: while let Some((part, behind)) = cut(rest, separator) {
        rest = behind;
        if !is_field(part, separator) {
            continue;
        }
        if left == 0 {
            return Some(part);
        }
        left -= 1;
    }
    if left > 0 || !is_field(rest, separator) {
        return None;
    }
    Some(rest)
}
