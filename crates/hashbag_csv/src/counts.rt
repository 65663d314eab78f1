//! Lists of articles with quantities in CSV texts.
ghost use Rattle.std.specs.Prelude.{◌≡◌, ℕ, ◌+◌, ◌<◌, ◌≤◌, [], ◌∷◌, Some, IfOk, decimal};
ghost use Rattle.hashbag_csv.specs.Counts.{AreCountsIn, plain_form};
ghost use Rattle.hashbag_csv.specs.LineColumns.{form_of, key_places, number_place};
ghost use Rattle.hashbag_csv.specs.Lines.{place_of};
ghost use Rattle.hashbag_csv.specs.Names.{delimiter_named, mark_named};
ghost use Rattle.hashbag_csv.specs.Quantities.{number_sum};
ghost use Rattle.hashbag_csv.specs.Sheets.{read_last};

use crate::delimiter::Delimiter;
use crate::fault::SheetError;
use crate::line_form::LineForm;
use crate::lines::LineColumns;
use crate::numbers::total_too_large;
use crate::scale::{Mark, Scale};
use crate::sheet::Sheet;
use std::alloc::{AllocError, Global};

/// How a text is read.
#[derive(Clone, Copy)]
pub struct Reading {
    /// What is between fields.
    pub delimiter: Delimiter,
    /// How numbers are written.
    pub scale: Scale,
}

impl Reading {
    /// Returns the reading with commas between fields, and whole numbers up to `usize::MAX`.
    pub fn plain() -> Reading
        ensures delimiter { result.delimiter ≡ Delimiter.Comma }
        ensures decimals { result.scale.decimals ≡ 0 }
        ensures most { result.scale.most ≡ usize.MAX }
    {
        Reading {
            delimiter: Delimiter::Comma,
            scale: Scale::whole(),
        }
    }

    /// Returns the reading that these words name: the delimiter by one of its names, the number of decimals, and the mark before decimals. An unknown
    /// word counts as the default: `,` or `0` or `.`. With more than 9 decimals, the scale is [`Scale::whole`].
    pub fn named(delimiter: &str, decimals: &str, mark: &str) -> Reading
        ensures delimiter { result.delimiter ≡ delimiter_named delimiter.now }

        // `decimal n`: the digits of n. The mark matters only if there are decimals.
        ensures decimals { (n : ℕ) → n ≤ 9 → decimals.now ≡ decimal n → result.scale.decimals ≡ n }
        ensures mark { 0 < result.scale.decimals → result.scale.mark ≡ mark_named mark.now }
    {
        let decimals = decimals.parse().unwrap_or(0);
        let mark = if mark == "," {
            Mark::Comma
        } else {
            Mark::Point
        };
        Reading {
            delimiter: Delimiter::named(delimiter),
            scale: Scale::new(decimals, mark).unwrap_or(Scale::whole()),
        }
    }
}

// Returns the columns of these names in the header, which was read last.
fn plain_columns<'n>(
    alloc: Global,
    sheet: &Sheet<'_>,
    article: &'n str,
    number: &'n str,
) -> Result<LineColumns<'n>, SheetError>
    ensures article { IfOk result (λ c. key_places c ≡ place_of (read_last sheet.now) article.now ∷ []) }
    ensures number { IfOk result (λ c. number_place c ≡ Some (place_of (read_last sheet.now) number.now)) }
    ensures form { IfOk result (λ columns. form_of columns ≡ plain_form) }
{
    let articles = [article];
    let form = LineForm::plain();
    let columns = LineColumns::named(alloc, sheet, articles.as_slice(), Some(number), form)?;
    Ok(columns)
}

// Returns `total + number`, if the sum is at most `scale.most`. Else the error is at the record that was read last.
fn sum_of(
    alloc: Global,
    sheet: &Sheet<'_>,
    total: usize,
    number: usize,
    scale: Scale,
) -> Result<usize, SheetError>
    ensures sum { IfOk result (λ sum. sum ≡ total + number) }
    ensures most { IfOk result (λ sum. sum ≤ scale.most) }
{
    match total.checked_add(number) {
        Some(sum) if sum <= scale.most => Ok(sum),
        _ => Err(sheet.bad_line(total_too_large(alloc, scale)?)),
    }
}

/// Reads the articles of a text, each with its number, in the order of the lines. An article is the field of one column, and may occur more than
/// once. Numbers are in units of the scale. Their sum is at most `scale.most`.
///
/// # Errors
///
/// `Line` for the first bad line, and what is wrong with it. `Memory` if an allocation fails.
pub fn read_counts_as(
    alloc: Global,
    text: &[u8],
    article: &str,
    number: &str,
    reading: Reading,
) -> Result<Vec<(String, usize)>, SheetError>
    // There is an entry for each line, in their order: its field in the column `article`, and its number in the column `number`.
    ensures lines { IfOk result (λ counts. AreCountsIn reading article.now number.now text.now counts.items) }
    ensures fits { IfOk result (λ counts. number_sum counts.items ≤ reading.scale.most) }
{
    let mut sheet = Sheet::open_with(alloc, text, reading.delimiter)?;
    let columns = plain_columns(alloc, &sheet, article, number)?;
    let mut counts = Vec::new(alloc);
    let mut total = 0usize;
    'lines: while let Some((name, n)) = columns.read::<String>(alloc, &mut sheet, reading.scale)? {
        total = sum_of(alloc, &sheet, total, n, reading.scale)?;
        counts.push((name, n)).map_err(AllocError::from)?;
    }
    Ok(counts)
}
