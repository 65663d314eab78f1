//! The text that shows the tokens of a bag.
ghost use Rattle.std.specs.Prelude.{IfOk};
ghost use Rattle.hashbag_words_lib.specs.Bars.{bars_text};
ghost use Rattle.hashbag_words_lib.specs.RowText.{bytes_left};
ghost use Rattle.hashbag_words_lib.specs.Shown.{shown_bytes, ShowsCounted, ShowsKept};
ghost use Rattle.hashbag_words_lib.specs.Writing.{text_of};

use crate::bars::bars_of;
use crate::choice::{Choice, chosen, keep_shown};
use crate::row_text::RowText;
use crate::writing::Format;
use hashbag_core::{BagError, HashBag};
use std::alloc::Global;
use std::hash::BuildHasher;

/// How counts are written.
#[derive(Clone, Copy, Debug, PartialEq, Eq)]
pub enum Look {
    /// In this format.
    Rows(Format),
    /// As lines, each with the count as percent of the total of all tokens, shown or not.
    Shares,
    /// With bars, for a terminal of that many columns.
    Bars(usize),
}

/// The text that shows the tokens of a bag.
#[derive(Drop)]
pub enum Shown<'b> {
    /// Rows, whose text is read in parts.
    Rows(RowText<'b>),
    /// Rows with bars, whose text is in memory.
    Bars(Vec<u8>),
}

// Returns the text of a bag from which `keep_shown` has removed all that isn't shown.
fn shown_text<'b, S: BuildHasher + Drop>(
    alloc: Global,
    bag: &'b HashBag<String, S>,
    choice: Choice<'_>,
    format: Format,
) -> Result<RowText<'b>, BagError>
    // For any list of tokens: if the bag has exactly the tokens of the list that are shown, the text shows the list.
    ensures { IfOk result (λ text. ShowsKept choice.entry (text_of format) bag.now (bytes_left text)) }
{
    let rows = chosen(alloc, bag, choice.order)?;
    let text = RowText::new(alloc, format, rows)?;
    Ok(text)
}

// Returns the text with bars of a bag from which `keep_shown` has removed all that isn't shown, for a terminal of that many columns.
fn shown_bars<S: BuildHasher + Drop>(
    alloc: Global,
    bag: &HashBag<String, S>,
    choice: Choice<'_>,
    width: usize,
) -> Result<Vec<u8>, BagError>
    // For any list of tokens: if the bag has exactly the tokens of the list that are shown, the text shows the list.
    ensures { IfOk result (λ text. ShowsKept choice.entry (bars_text width) bag.now text.items) }
{
    let order = choice.order;
    let rows = chosen(alloc, bag, order)?;
    let text = bars_of(alloc, width, &rows)?;
    Ok(text)
}

/// Returns the text that shows the tokens of a bag, and removes the tokens that aren't shown from the bag.
///
/// # Errors
///
/// `Memory` if an allocation fails.
///
/// # Complexity
///
/// Reads each token of the bag once, and then does the same as [`chosen`] and [`RowText::new`] or [`bars_of`] together.
pub fn shown_of<'b, S: BuildHasher + Drop>(
    alloc: Global,
    bag: &'b mut HashBag<String, S>,
    choice: Choice<'_>,
    look: Look,
) -> Result<Shown<'b>, BagError>
    // The text shows the tokens that the bag counts, in whatever order they are listed. Tokens that `choice` doesn't show are left out. A share is of
    // all tokens.
    ensures { IfOk result (λ shown. ShowsCounted choice.entry look bag.old (shown_bytes shown)) }
{
    let total = keep_shown(bag, choice);
    match look {
        Look::Rows(format) => Ok(Shown::Rows(shown_text(alloc, bag, choice, format)?)),
        Look::Shares => {
            let format = Format::Shares(total);
            Ok(Shown::Rows(shown_text(alloc, bag, choice, format)?))
        }
        Look::Bars(width) => Ok(Shown::Bars(shown_bars(alloc, bag, choice, width)?)),
    }
}
