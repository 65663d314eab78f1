//! The option that would read a line that was rejected, as messages name the option.
use hashbag_csv::fault::{Fault, SheetError};
use hashbag_csv::groups::GroupMark;
use hashbag_csv::line_form::LineForm;
use hashbag_csv::scale::Mark;
use hashbag_shell::trouble::Trouble;
use std::alloc::Global;

// Marks between groups of digits, each with the hint that names it.
const GROUP_MARKS: [(char, &str); 4] = [
    ('.', "; `--group-mark .` reads groups of digits"),
    (',', "; `--group-mark ,` reads groups of digits"),
    ('\'', "; `--group-mark \"'\"` reads groups of digits"),
    (' ', "; `--group-mark space` reads groups of digits"),
];

// Whether a text is digits and these two marks, and has the second one.
fn is_grouped(text: &str, mark: Mark, group: char) -> bool {
    text.contains(group)
        && text.chars().all(|c| c.is_ascii_digit() || c == mark.character() || c == group)
        && text.contains(|c: char| c.is_ascii_digit())
}

// Whether a character is a no-break space, U+00A0 or U+202F.
fn is_no_break(c: char) -> bool {
    c == '\u{a0}' || c == '\u{202f}'
}

// Whether a text is digits, this mark, spaces and no-break spaces, and has one of the last.
fn has_no_break(text: &str, mark: Mark) -> bool {
    text.contains(|c: char| is_no_break(c))
        && text.chars().all(|c| c.is_ascii_digit()
            || c == mark.character()
            || c == ' '
            || is_no_break(c))
        && text.contains(|c: char| c.is_ascii_digit())
}

// Returns the hint for a field that isn't a number.
fn number_hint(field: &str, form: LineForm, mark: Mark) -> &'static str {
    if field.is_empty() && !form.number.blank_is_zero {
        return "; `--blank-is-zero` reads it as 0";
    }
    // A no-break space looks like a space.
    let reads_space = matches!(form.number.group, None | Some(GroupMark::Space));
    if reads_space && has_no_break(field, mark) {
        return "; `--group-mark nbsp` reads groups of digits";
    }
    if form.number.group.is_some() {
        return "";
    }
    for (group, hint) in GROUP_MARKS {
        if group != mark.character() && is_grouped(field, mark, group) {
            return hint;
        }
    }
    ""
}

/// Returns what a message says after this error: the option that would read the line, or nothing. Lines are read in the form `form`, with this
/// mark before decimals.
pub fn hint_of(error: &SheetError, form: LineForm, mark: Mark) -> &'static str {
    match error {
        SheetError::Line {
            fault: Fault::NoNumber(field),
            ..
        } => number_hint(field.as_str(), form, mark),
        _ => "",
    }
}

/// Returns the trouble. If it is a bad line, its message ends with `hint`.
pub fn with_hint<'a>(alloc: Global, trouble: Trouble<'a>, hint: &str) -> Trouble<'a> {
    match trouble {
        Trouble::BadLine {
            file,
            line,
            what,
            ..
        } if !hint.is_empty() => Trouble::of_line(file, line, format!(in alloc; "{what}{hint}")),
        trouble => trouble,
    }
}
