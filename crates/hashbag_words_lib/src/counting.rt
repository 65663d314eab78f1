//! Counting the tokens of lines.
ghost use Rattle.std.specs.Prelude.{◌≡◌, ◌+◌, ◌-◌, ◌^◌, ◌∷◌, [], filter, min, slice_range, true, false, OnOk};
ghost use Rattle.std.specs.Iterator.{IsFinite};
ghost use Rattle.std.specs.Str.{is_utf8};
ghost use Rattle.std.specs.Str.Lossy.{utf8_lossy};
ghost use Rattle.unicode_segmentation.specs.Word.{words};
ghost use Rattle.hashbag_words_lib.specs.Counted.{ReplacesLine, SkipsLine};
ghost use Rattle.hashbag_words_lib.specs.Counts.{Takes, TakesPieces, TakesTokens};
ghost use Rattle.hashbag_words_lib.specs.Faults.{OnBadLine};
ghost use Rattle.hashbag_words_lib.specs.Tokens.{groups_in, is_bad, is_replaced, nonempty, part_of, pieces_of, spaced_words, token_of, tokens_of_line, tokens_of_lines, without_mark};

use crate::errors::{BadLine, InputFault};
use crate::fields::field_at;
use crate::lines::{BadLines, LinesRead};
use crate::rule::{Pieces, Rule, Separator};
use crate::sinks::TokenSink;
use caseless::default_case_fold_str;
use hashbag_core::BagError;
use regex::Regex;
use std::alloc::Global;
use std::str;
use unicode_segmentation::UnicodeSegmentation;

// Gives a sink a piece of a line once, as it is.
fn add_plain<K: TokenSink>(sink: &mut K, piece: &str) -> Result<(), BagError>
    ensures { OnOk result (Takes K.has sink.old sink.new (piece.now ∷ [])) }
{
    sink.put_piece(piece)
}

// Counts a piece of a line once, upper and lower case as one.
fn add_folded<K: TokenSink>(alloc: Global, sink: &mut K, piece: &str) -> Result<(), BagError>
    ensures { OnOk result (Takes K.has sink.old sink.new (token_of true piece.now ∷ [])) }
{
    let token = default_case_fold_str(alloc, piece)?;
    sink.put_token(token)
}

// Counts a piece of a line once.
pub(crate) fn add_piece<K: TokenSink>(
    alloc: Global,
    sink: &mut K,
    fold: bool,
    piece: &str,
) -> Result<(), BagError>
    ensures { OnOk result (Takes K.has sink.old sink.new (token_of fold piece.now ∷ [])) }
{
    if fold {
        return add_folded(alloc, sink, piece);
    }
    add_plain(sink, piece)
}

// Counts each piece that the iterator returns.
fn add_pieces<'a, I: Iterator<Item = &'a str> + Drop, K: TokenSink>(
    alloc: Global,
    sink: &mut K,
    fold: bool,
    pieces: I,
) -> Result<(), BagError>
    requires can { I.can_next pieces }
    requires ends { IsFinite (I.remaining pieces) }
    ensures { OnOk result (TakesPieces K.has fold I.next_gives pieces sink.old sink.new) }
{
    for piece in pieces {
        add_piece(alloc, sink, fold, piece)?;
    }
    Ok(())
}

// Counts the words between white space.
fn add_words<K: TokenSink>(
    alloc: Global,
    sink: &mut K,
    fold: bool,
    line: &str,
) -> Result<(), BagError>
    ensures { OnOk result (TakesTokens K.has fold sink.old sink.new (spaced_words line.now)) }
{
    add_pieces(alloc, sink, fold, line.split_whitespace())
}

// Counts the words by Unicode's rules.
fn add_unicode_words<K: TokenSink>(
    alloc: Global,
    sink: &mut K,
    fold: bool,
    line: &str,
) -> Result<(), BagError>
    ensures { OnOk result (TakesTokens K.has fold sink.old sink.new (words line.now)) }
{
    add_pieces(alloc, sink, fold, line.unicode_words())
}

// Counts a piece of a line once, unless the piece is empty.
fn add_match<K: TokenSink>(
    alloc: Global,
    sink: &mut K,
    fold: bool,
    piece: &str,
) -> Result<(), BagError>
    ensures { OnOk result (TakesTokens K.has fold sink.old sink.new (nonempty (piece.now ∷ []))) }
{
    if piece.is_empty() {
        return Ok(());
    }
    add_piece(alloc, sink, fold, piece)
}

// Counts the matches of a pattern.
fn add_matches<K: TokenSink>(
    alloc: Global,
    sink: &mut K,
    fold: bool,
    pattern: &Regex,
    line: &str,
) -> Result<(), BagError>
    ensures { OnOk result (TakesTokens K.has fold sink.old sink.new (pieces_of (Pieces.Matches pattern.entry) line.now)) }
{
    let mut matcher = pattern.matcher(alloc)?;
    for found in matcher.find_iter(line) {
        add_match(alloc, sink, fold, found.as_str())?;
    }
    Ok(())
}

// Returns the bytes of a line from `start` up to `end`.
fn between(line: &str, start: usize, end: usize) -> &[u8]
    ensures { result.now ≡ slice_range line.now start end }
{
    let bytes = line.as_bytes();
    let end = end.min(bytes.len());
    if start > end {
        return &[];
    }
    &bytes[start..end]
}

// Counts bytes as one piece, unless they are empty or aren't UTF-8.
fn add_text<K: TokenSink>(
    alloc: Global,
    sink: &mut K,
    fold: bool,
    bytes: &[u8],
) -> Result<(), BagError>
    ensures { OnOk result (TakesTokens K.has fold sink.old sink.new (nonempty (filter is_utf8 (bytes.now ∷ [])))) }
{
    match str::from_utf8(bytes) {
        Ok(text) => add_match(alloc, sink, fold, text),
        Err(_) => Ok(()),
    }
}

// Counts the bytes of a line between two places, or nothing if `place` is `None`. The bytes of a group are always UTF-8.
fn add_part<K: TokenSink>(
    alloc: Global,
    sink: &mut K,
    fold: bool,
    line: &str,
    place: Option<(usize, usize)>,
) -> Result<(), BagError>
    ensures { OnOk result (TakesTokens K.has fold sink.old sink.new (nonempty (part_of line.now place))) }
{
    match place {
        Some((start, end)) => add_text(alloc, sink, fold, between(line, start, end)),
        None => Ok(()),
    }
}

// Counts what group `index + 1` has in each match of a pattern. Group 0 is the whole match.
fn add_groups<K: TokenSink>(
    alloc: Global,
    sink: &mut K,
    fold: bool,
    pattern: &Regex,
    index: usize,
    line: &str,
) -> Result<(), BagError>
    ensures { OnOk result (TakesTokens K.has fold sink.old sink.new (nonempty (groups_in pattern.now (index + 1) line.now))) }
{
    if index >= pattern.captures_len().saturating_sub(1) {
        return Ok(());
    }
    let group = index + 1;
    let mut matcher = pattern.matcher(alloc)?;
    let mut locations = pattern.capture_locations(alloc)?;
    let mut matches = matcher.captures_iter(line);
    'matches: while let Some(_) = matches.next_read(&mut locations) {
        add_part(alloc, sink, fold, line, locations.get(group))?;
    }
    Ok(())
}

// Counts the field with this index, if the line has one.
fn add_field<K: TokenSink>(
    alloc: Global,
    sink: &mut K,
    fold: bool,
    index: usize,
    separator: Separator,
    line: &str,
) -> Result<(), BagError>
    ensures { OnOk result (TakesTokens K.has fold sink.old sink.new (pieces_of (Pieces.Field index separator) line.now)) }
{
    match field_at(line, separator, index) {
        Some(field) => add_piece(alloc, sink, fold, field),
        None => Ok(()),
    }
}

// Returns the line without a byte order mark at its beginning.
pub(crate) fn past_mark(line: &str) -> &str
    ensures { result.now ≡ without_mark line.now }
{
    match line.strip_prefix("\u{feff}") {
        Some(rest) => rest,
        None => line,
    }
}

/// Counts the tokens of a line: gives each to the sink as often as it is in the line, in order.
///
/// A byte order mark at the beginning of the line is ignored.
///
/// # Errors
///
/// `Memory` if an allocation fails, `TooMany` if the total would pass the limit of the bag. Then the sink has the tokens before the one that
/// failed.
///
/// # Complexity
///
/// Gives the sink one token per occurrence. A bag without `fold` allocates a `String` only for an absent token, with `fold` for each
/// occurrence. A pattern also allocates for each line.
pub fn add_line<K: TokenSink>(
    alloc: Global,
    sink: &mut K,
    rule: &Rule<'_>,
    line: &str,
) -> Result<(), BagError>
    ensures { OnOk result (Takes K.has sink.old sink.new (tokens_of_line rule.now line.now)) }
{
    let line = past_mark(line);
    match rule.pieces {
        Pieces::Words => add_words(alloc, sink, rule.fold, line),
        Pieces::UnicodeWords => add_unicode_words(alloc, sink, rule.fold, line),
        Pieces::Lines => add_piece(alloc, sink, rule.fold, line),
        Pieces::Matches(pattern) => add_matches(alloc, sink, rule.fold, pattern, line),
        Pieces::Groups(pattern, index) => add_groups(alloc, sink, rule.fold, pattern, index, line),
        Pieces::Field(index, separator) => add_field(
            alloc, sink, rule.fold, index, separator, line,
        ),
    }
}

// Counts a line that isn't UTF-8, with its invalid bytes replaced by U+FFFD as `String::from_utf8_lossy` of Rust replaces them.
fn add_replaced<K: TokenSink>(
    alloc: Global,
    sink: &mut K,
    rule: &Rule<'_>,
    line: &[u8],
) -> Result<(), BagError>
    ensures { OnOk result (Takes K.has sink.old sink.new (tokens_of_line rule.now (utf8_lossy line.now))) }
{
    let text = String::from_utf8_lossy(alloc, line)?;
    add_line(alloc, sink, rule, text.as_str())
}

// Counts a line that isn't UTF-8: with its bytes replaced if the rule says so, else as a bad line. The clauses are those of `add_bytes`,
// but `reading.line` is unchanged.
fn add_other<K: TokenSink>(
    alloc: Global,
    sink: &mut K,
    rule: &Rule<'_>,
    line: &[u8],
    reading: &mut LinesRead,
) -> Result<(), InputFault>
    requires { is_utf8 line.now ≡ false }
    ensures counts { OnOk result (Takes K.has sink.old sink.new (tokens_of_lines rule.now (line.now ∷ []))) }
    ensures passed { OnOk result (reading.old.bad_lines ≡ BadLines.Rejected → is_bad rule.now line.now ≡ false) }
    ensures bad { OnBadLine result ((reading.old.bad_lines ≡ BadLines.Rejected) × (is_bad rule.now line.now ≡ true)) }
    ensures kept { is_bad rule.now line.now ≡ false → reading.new.skipped ≡ reading.old.skipped }
    ensures skipped { is_bad rule.now line.now ≡ true → OnOk result (SkipsLine reading.old reading.new) }
    ensures plain { is_replaced rule.now line.now ≡ false → reading.new.replaced ≡ reading.old.replaced }
    ensures replaced { is_replaced rule.now line.now ≡ true → OnOk result (ReplacesLine reading.old reading.new) }
    ensures bad_lines { reading.new.bad_lines ≡ reading.old.bad_lines }
    ensures line { reading.new.line ≡ reading.old.line }
{
    if rule.lossy {
        add_replaced(alloc, sink, rule, line)?;
        reading.count_replaced();
        return Ok(());
    }
    reading.pass_over(BadLine::NotText)
}

// Counts a line of a text. The line is given without its line end.
pub(crate) fn add_bytes<K: TokenSink>(
    alloc: Global,
    sink: &mut K,
    rule: &Rule<'_>,
    line: &[u8],
    reading: &mut LinesRead,
) -> Result<(), InputFault>
    ensures counts { OnOk result (Takes K.has sink.old sink.new (tokens_of_lines rule.now (line.now ∷ []))) }

    // If bad lines are rejected, each bad line fails. Only a bad line fails with `InputFault::Line`.
    ensures passed { OnOk result (reading.old.bad_lines ≡ BadLines.Rejected → is_bad rule.now line.now ≡ false) }
    ensures bad { OnBadLine result ((reading.old.bad_lines ≡ BadLines.Rejected) × (is_bad rule.now line.now ≡ true)) }

    // A bad line that is skipped raises `skipped` by 1, up to `u64::MAX`. A line whose bytes are replaced raises `replaced` likewise.
    ensures kept { is_bad rule.now line.now ≡ false → reading.new.skipped ≡ reading.old.skipped }
    ensures skipped { is_bad rule.now line.now ≡ true → OnOk result (SkipsLine reading.old reading.new) }
    ensures plain { is_replaced rule.now line.now ≡ false → reading.new.replaced ≡ reading.old.replaced }
    ensures replaced { is_replaced rule.now line.now ≡ true → OnOk result (ReplacesLine reading.old reading.new) }
    ensures bad_lines { reading.new.bad_lines ≡ reading.old.bad_lines }
    ensures line { reading.new.line ≡ min (reading.old.line + 1) (2 ^ 64 - 1) }
{
    reading.count_line();
    match str::from_utf8(line) {
        Ok(text) => {
            add_line(alloc, sink, rule, text)?;
            Ok(())
        }
        Err(_) => add_other(alloc, sink, rule, line, reading),
    }
}
