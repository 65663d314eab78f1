//! Writing counts.
ghost use Rattle.std.specs.Prelude.{◌≡◌, ◌++◌, OnOk};
ghost use Rattle.hashbag_words_lib.specs.Writing.{end_text, head_text, next_row_text, pair_text, pair_tokens, shares_text, uniq_text};

use crate::rows::{push_cells, push_row};
use crate::shares::push_share;
use json::Writer;
use std::alloc::AllocError;
use std::io::{self, Write};
use std::mem;

/// How counts are written.
#[derive(Clone, Copy, Debug, PartialEq, Eq)]
pub enum Format {
    /// A line for each token: the token, a tab, the count.
    Tsv,
    /// The line of `Tsv`, then a tab, and the count as percent of this total.
    Shares(usize),
    /// One line: a JSON array of pairs of a token and its count.
    Json,
    /// A line for each token, as `uniq -c` writes it: the count in seven columns, a space, the token.
    Uniq,
}

impl Format {
    /// Returns what is written before the first row.
    pub(crate) fn head(&self) -> &'static [u8]
        ensures { result.now ≡ head_text self.now }
    {
        match self {
            Format::Json => b"[",
            _ => b"",
        }
    }

    /// Returns what is written after the last row.
    pub(crate) fn end(&self) -> &'static [u8]
        ensures { result.now ≡ end_text self.now }
    {
        match self {
            Format::Json => b"]\n",
            _ => b"",
        }
    }
}

// Appends a line with the count as percent of the total.
fn push_with_share(
    text: &mut Vec<u8>,
    total: usize,
    token: &str,
    count: usize,
) -> Result<(), AllocError>
    ensures { OnOk result (text.new.items ≡ text.old.items ++ shares_text total (token.now, count)) }
{
    push_cells(text, token, count)?;
    text.push(b'\t')?;
    push_share(text, total, count)?;
    text.push(b'\n')?;
    Ok(())
}

// Appends a line as `uniq -c` writes it.
fn push_uniq(text: &mut Vec<u8>, token: &str, count: usize) -> io::Result<()>
    ensures { OnOk result (text.new.items ≡ text.old.items ++ uniq_text (token.now, count)) }
{
    writeln!(text, "{count:7} {token}")
}

// Writes a token and its count as a JSON array.
fn write_pair(writer: &mut Writer, token: &str, count: usize) -> Result<(), AllocError>
    ensures before { writer.new.before ≡ writer.old.before }
    ensures tokens { OnOk result (writer.new.tokens ≡ writer.old.tokens ++ pair_tokens (token.now, count)) }
{
    writer.begin_array()?;
    writer.string(token)?;
    writer.u64(count as u64)?;
    writer.end_array()
}

// Appends a token and its count as a JSON array.
fn push_pair(text: &mut Vec<u8>, token: &str, count: usize) -> Result<(), AllocError>
    ensures { OnOk result (text.new.items ≡ text.old.items ++ pair_text (token.now, count)) }
{
    let none = Vec::new(*text.allocator());
    let mut writer = Writer::new(mem::replace(text, none));
    let done = write_pair(&mut writer, token, count);
    *text = writer.into_inner();
    done
}

/// Appends the row of a token and its count. In JSON a comma comes before each row but the first.
///
/// # Errors
///
/// An allocation fails.
pub(crate) fn push_in(
    format: Format,
    is_first: bool,
    text: &mut Vec<u8>,
    token: &str,
    count: usize,
) -> io::Result<()>
    ensures { OnOk result (text.new.items ≡ text.old.items ++ next_row_text format is_first (token.now, count)) }
{
    match format {
        Format::Tsv => push_row(text, token, count),
        Format::Shares(total) => {
            push_with_share(text, total, token, count)?;
            Ok(())
        }
        Format::Uniq => push_uniq(text, token, count),
        Format::Json => {
            if !is_first {
                text.push(b',')?;
            }
            push_pair(text, token, count)?;
            Ok(())
        }
    }
}
