//! What of a line is counted.
use regex::Regex;

/// What separates the fields of a line.
#[derive(Clone, Copy, Debug, PartialEq, Eq)]
pub enum Separator {
    /// Runs of spaces and tabs. So no field is empty, and spaces and tabs at the beginning of a line are ignored.
    Blanks,
    /// This character, each time it occurs. So a field may be empty.
    Char(char),
}

/// What a line is cut into.
#[derive(Clone, Copy)]
pub enum Pieces<'r> {
    /// The words between white space.
    Words,
    /// The words by Unicode's rules: punctuation is no word, and `can't` is one word.
    UnicodeWords,
    /// The whole line.
    Lines,
    /// The matches of a pattern, from left to right. An empty match is no piece.
    Matches(&'r Regex),
    /// What a group has in each match of a pattern, from left to right. Index 0 is the first group after the whole match. A group that took
    /// no part, is empty, or isn't in the pattern is no piece.
    Groups(&'r Regex, usize),
    /// The field with this index, from 0. A line with fewer fields has no piece.
    Field(usize, Separator),
}

/// What of a line is counted.
#[derive(Clone, Copy)]
pub struct Rule<'r> {
    /// What a line is cut into.
    pub pieces: Pieces<'r>,
    /// Whether upper and lower case are counted as one, by Unicode's full case folding.
    pub fold: bool,
    /// Whether bytes that aren't UTF-8 are replaced by U+FFFD. If not, a line that has such bytes is bad.
    pub lossy: bool,
}
