//! Sorting rows by their tokens.
//!
//! The tokens lie apart in memory, and each is expensive to read. So the list has a number before each row, eight bytes of its token, and
//! is sorted by these numbers. Rows with equal numbers are a block, which is sorted by the next eight bytes, and so on. Each round reads
//! each token of a block once, however many rows the block has.
ghost use Rattle.std.specs.Prelude.{◌≡◌, ℕ, ◌+◌, ◌*◌, ◌<◌, ◌≤◌, ◌^◌, length, take, drop, map, slice_index, All, IfOk};
ghost use Rattle.std.specs.List.Sorted.{IsNonDecreasingBy, IsPermutation, IsSorted};
ghost use Rattle.hashbag_words_lib.specs.Prefix.{lead, row_cmp, bare_row, number_of, HasWord, IsPrefixOf, IsWordAt, SortsFrom, SortsBlocks};

use std::alloc::{AllocError, Global};

// How often a block is split or read further before it is sorted by whole tokens. A split halves a block, or splits off the rows with its
// lowest number.
const MOST_STEPS: usize = 128;

// Returns the byte at this place, and 0 past the end.
fn byte_at(bytes: &[u8], i: usize) -> u8
    ensures { result ≡ slice_index bytes.now i }
{
    if i < bytes.len() { bytes[i] } else { 0 }
}

// Returns the eight bytes from this place on as a big-endian number. The compiler turns the loop into one read.
fn whole_word(bytes: &[u8], from: usize) -> u64
    requires { from + 8 ≤ length bytes.now }
    ensures { result ≡ lead 0 8 (drop from bytes.now) }
{
    let mut number = 0u64;
    for i in 0..8usize {
        number = number * 256 + bytes[from + i] as u64;
    }
    number
}

// Returns the eight bytes from this place on as a big-endian number, with 0 for each byte past the end.
fn padded_word(bytes: &[u8], from: usize) -> u64
    requires { from < 2 ^ 63 }
    ensures { result ≡ lead 0 8 (drop from bytes.now) }
{
    let mut number = 0u64;
    for i in 0..8usize {
        number = number * 256 + byte_at(bytes, from + i) as u64;
    }
    number
}

// Returns the eight bytes of a text from this place on as a big-endian number, with 0 for each byte past the end.
fn word(text: &str, from: usize) -> u64
    requires { from < 2 ^ 63 }
    ensures { IsWordAt from result text.now }
{
    let bytes = text.as_bytes();
    if from + 8 <= bytes.len() {
        return whole_word(bytes, from);
    }
    padded_word(bytes, from)
}

// Returns the first eight bytes of a text as a big-endian number, with 0 for each byte past the end.
pub(crate) fn prefix(text: &str) -> u64
    ensures { IsPrefixOf result text.now }
{
    word(text, 0)
}

// Writes before each row its number: the eight bytes of its token from place `from` on.
fn put_words(rows: &mut [(u64, (&String, usize))], from: usize)
    requires { from < 2 ^ 63 }
    ensures rows { map bare_row rows.new ≡ map bare_row rows.old }
    ensures words { All (HasWord from) rows.new }
{
    'rows: for i in 0..rows.len() {
        let row = rows[i].1;
        rows[i] = (word(row.0.as_str(), from), row);
    }
}

// Writes before each row its number, the eight bytes of its token from place `from` on, and sorts the rows by their numbers.
fn sort_by_words(rows: &mut [(u64, (&String, usize))], from: usize)
    requires { from < 2 ^ 63 }
    ensures permutation { IsPermutation (map bare_row rows.old) (map bare_row rows.new) }
    ensures words { All (HasWord from) rows.new }
    ensures rising { IsNonDecreasingBy number_of rows.new }
{
    put_words(rows, from);
    rows.sort_unstable_by_key(|row| row.0);
}

// Sorts rows whose tokens agree before place `from`. The number before each row is overwritten.
#[cycle(sorts)]
fn sort_from(rows: &mut [(u64, (&String, usize))], from: usize, steps: usize)
    requires { from + 8 * steps < 2 ^ 63 }
    ensures { SortsFrom from rows.old rows.new }
{
    sort_by_words(rows, from);
    sort_blocks(rows, from, steps);
}

// Sorts rows whose tokens agree before place `from`, and whose numbers are the eight bytes from `from` on, in ascending order.
#[cycle(sorts)]
fn sort_blocks(rows: &mut [(u64, (&String, usize))], from: usize, steps: usize)
    requires { from + 8 * steps < 2 ^ 63 }
    ensures { SortsBlocks from rows.old rows.new }
{
    let n = rows.len();
    if n < 2 {
        return;
    }
    if steps == 0 {
        rows.sort_unstable();
        return;
    }
    let first = rows[0].0;
    if first == rows[n - 1].0 {
        sort_from(rows, from + 8, steps - 1);
        return;
    }
    let middle = rows[n / 2].0;
    // If all numbers of the first half are equal, the rows with that number are split off. So neither part is empty.
    let least = if first < middle {
        middle
    } else {
        first.saturating_add(1)
    };
    sort_cut(rows, least, from, steps - 1);
}

// Splits the rows into those whose number is below `least` and the others, and sorts each part as `sort_blocks` does.
#[cycle(sorts)]
fn sort_cut(rows: &mut [(u64, (&String, usize))], least: u64, from: usize, steps: usize)
    requires { from + 8 * steps < 2 ^ 63 }
    ensures { SortsBlocks from rows.old rows.new }
{
    let cut = rows.partition_point(|row| row.0 < least);
    sort_first(rows, cut, from, steps);
    sort_rest(rows, cut, from, steps);
}

// Sorts the first `cut` rows as `sort_blocks` does.
#[cycle(sorts)]
fn sort_first(rows: &mut [(u64, (&String, usize))], cut: usize, from: usize, steps: usize)
    requires cut { cut ≤ length rows.old }
    requires steps { from + 8 * steps < 2 ^ 63 }
    ensures same { drop cut rows.new ≡ drop cut rows.old }
    ensures sorts { SortsBlocks from (take cut rows.old) (take cut rows.new) }
{
    sort_blocks(&mut rows[..cut], from, steps);
}

// Sorts the rows after the first `cut` as `sort_blocks` does.
#[cycle(sorts)]
fn sort_rest(rows: &mut [(u64, (&String, usize))], cut: usize, from: usize, steps: usize)
    requires cut { cut ≤ length rows.old }
    requires steps { from + 8 * steps < 2 ^ 63 }
    ensures same { take cut rows.new ≡ take cut rows.old }
    ensures sorts { SortsBlocks from (drop cut rows.old) (drop cut rows.new) }
{
    sort_blocks(&mut rows[cut..], from, steps);
}

// Returns the rows, each with a number before it.
fn with_numbers<'a>(
    alloc: Global,
    rows: Vec<(&'a String, usize)>,
) -> Result<Vec<(u64, (&'a String, usize))>, AllocError>
    ensures { IfOk result (λ made. map bare_row made.items ≡ rows.entry.items) }
{
    let mut made = Vec::with_capacity(alloc, rows.len())?;
    for row in rows {
        made.push((0, row))?;
    }
    Ok(made)
}

// Returns the rows without the numbers.
fn without_numbers<'a>(
    alloc: Global,
    rows: Vec<(u64, (&'a String, usize))>,
) -> Result<Vec<(&'a String, usize)>, AllocError>
    ensures { IfOk result (λ made. made.items ≡ map bare_row rows.entry.items) }
{
    let mut made = Vec::with_capacity(alloc, rows.len())?;
    for (_, row) in rows {
        made.push(row)?;
    }
    Ok(made)
}

/// Returns the rows in ascending order of tokens, and rows of one token in ascending order of counts.
///
/// # Errors
///
/// An allocation fails.
///
/// # Complexity
///
/// Allocates two lists, each at once. Compares numbers of eight bytes as often as a sort of the rows does, and reads each token once for
/// each eight bytes that it shares with another token. Tokens that share hundreds of bytes are compared whole.
pub fn sort_rows<'a>(
    alloc: Global,
    rows: Vec<(&'a String, usize)>,
) -> Result<Vec<(&'a String, usize)>, AllocError>
    ensures permutation { IfOk result (λ sorted. IsPermutation rows.entry.items sorted.items) }
    ensures sorted { IfOk result (λ sorted. IsSorted row_cmp sorted.items) }
{
    let mut made = with_numbers(alloc, rows)?;
    sort_from(made.as_mut_slice(), 0, MOST_STEPS);
    without_numbers(alloc, made)
}
