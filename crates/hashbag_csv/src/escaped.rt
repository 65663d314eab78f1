//! Texts of the input, as messages show them.
ghost use Rattle.std.specs.Prelude.{◌≡◌, Some, IfOk};
ghost use Rattle.std.specs.Fmt.{DisplaysOnOk};
ghost use Rattle.std.specs.String.{string_bytes};
ghost use Rattle.hashbag_csv.specs.Escaped.{char_text, escaped_text, shown_text};

use std::alloc::{AllocError, Global};
use std::fmt;

// A message shows at most this many characters of a field.
const MOST_SHOWN: usize = 60;

/// Shows a text with its control characters escaped, so that the text stays on one line.
#[derive(Clone, Copy)]
pub struct Escaped<'a>(pub &'a str);

// Writes a character, or its escape if it is a control character.
fn write_shown<W: fmt::Write>(f: &mut fmt::Formatter<W>, character: char) -> fmt::Result
    ensures { DisplaysOnOk W.write_str_gives f.old result (Some (char_text character)) f.new }
{
    if !character.is_control() {
        return f.write_char(character);
    }
    for part in character.escape_default() {
        f.write_char(part)?;
    }
    Ok(())
}

impl fmt::Display for Escaped<'_> {
    ghost output = { λ text. Some (escaped_text text.0.now) };

    fn fmt<W: fmt::Write>(&self, f: &mut fmt::Formatter<W>) -> fmt::Result {
        for character in self.0.chars() {
            write_shown(f, character)?;
        }
        Ok(())
    }
}

/// Returns the first 60 characters of a field, with control characters escaped, and `..` if the field is longer.
pub fn shown(alloc: Global, field: &str) -> Result<String, AllocError>
    ensures { IfOk result (λ text. string_bytes text ≡ shown_text field.now) }
{
    match field.char_indices().nth(MOST_SHOWN) {
        Some((end, _)) => format!(in alloc; "{}..", Escaped(&field[..end])),
        None => format!(in alloc; "{}", Escaped(field)),
    }
}
