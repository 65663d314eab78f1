//! Tallies of CSV texts.
ghost use Rattle.std.specs.Prelude.{◌≡◌, [], true, map, option_copied, All, IfOk, OnOk};
ghost use Rattle.hashbag_csv.specs.LineColumns.{HasNumberBy};
ghost use Rattle.hashbag_csv.specs.Sheets.{fits_sheet, left};
ghost use Rattle.hashbag_match_lib.specs.Asks.{lines_named};
ghost use Rattle.hashbag_match_lib.specs.Fields.{TalliesLines, TalliesMore, lines_left};
ghost use Rattle.hashbag_match_lib.specs.Readable.{IsReadable};
ghost use Rattle.hashbag_match_lib.specs.Tallies.{TalliesOneMore};

use crate::tally::{Tally, empty_tally};
use hashbag_core::BagError;
use hashbag_csv::article::Article;
use hashbag_csv::counts::Reading;
use hashbag_csv::fault::SheetError;
use hashbag_csv::line_form::LineForm;
use hashbag_csv::lines::LineColumns;
use hashbag_csv::numbers::total_too_large;
use hashbag_csv::scale::Scale;
use hashbag_csv::sheet::Sheet;
use std::alloc::Global;
use std::hash::BuildHasher;

// Adds the article and the number of the record that was read last, if the total is then at most `scale.most`.
fn add_line<A: Article + Drop, S: BuildHasher + Drop>(
    alloc: Global,
    sheet: &Sheet<'_>,
    tally: &mut Tally<A, S>,
    article: A,
    number: usize,
    scale: Scale,
) -> Result<(), SheetError>
    ensures { OnOk result (TalliesOneMore A.eq tally.old tally.new (article, number)) }
{
    if number > scale.most.saturating_sub(tally.counts.len()) {
        return Err(sheet.bad_line(total_too_large(alloc, scale)?));
    }
    match tally.add(article, number) {
        Ok(()) => Ok(()),
        Err(BagError::TooMany) => Err(sheet.bad_line(total_too_large(alloc, scale)?)),
        Err(BagError::BelowTotal | BagError::Memory) => Err(SheetError::Memory),
    }
}

// Adds the lines that are left of a text.
fn add_lines<A: Article + Drop, S: BuildHasher + Drop>(
    alloc: Global,
    sheet: &mut Sheet<'_>,
    columns: &LineColumns<'_>,
    tally: &mut Tally<A, S>,
    scale: Scale,
) -> Result<(), SheetError>
    ensures lines { OnOk result (TalliesMore A.eq A.fields (lines_left scale columns.now sheet.old) tally.old tally.new) }
    ensures fits { OnOk result (All (λ r. fits_sheet sheet.old r ≡ true) (left sheet.old)) }
    ensures numbers { OnOk result (All (HasNumberBy scale columns.now) (left sheet.old)) }
{
    'lines: while let Some((article, number)) = columns.read::<A>(alloc, sheet, scale)? {
        add_line(alloc, sheet, tally, article, number, scale)?;
    }
    Ok(())
}

/// Returns the tally of the lines of a text. Lines are read in the form `form`, and the tally's bags hash by `state`. An article is the fields of the
/// columns that `keys` names, and may be on more than one line; its numbers add up. Numbers are in units of the scale. Their sum is at most
/// `scale.most`. If `number` is `None`, each line counts as one.
///
/// # Errors
///
/// `Line` for the first bad line, and what is wrong with it. `Memory` if an allocation fails.
///
/// # Complexity
///
/// Allocates the article of each line, keeps it if it is new, and else drops it. Hashes it once, and once more each time that it is carried into
/// another table.
pub fn read_tally<A: Article + Drop, S: BuildHasher + Copy + Drop>(
    alloc: Global,
    state: S,
    text: &[u8],
    keys: &[&str],
    number: Option<&str>,
    reading: Reading,
    form: LineForm,
) -> Result<Tally<A, S>, SheetError>
    // `counts` has each article as often as the sum of its numbers in the text's lines. `zeros` has it as often as it has a line with the number 0.
    // A line is an article and a number, from the columns that `keys` and `number` name.
    ensures lines { IfOk result (TalliesLines A.eq A.fields (lines_named reading form keys.now number.entry text.now)) }

    // Each record has as many fields as the header, or as the first record of a list without a header, or fewer if the form allows it. In the column
    // of numbers, if there is one, it has a number.
    ensures readable { IfOk result (λ tally. IsReadable reading form (option_copied number.entry) text.now) }

    // No slot of an older table waits in either bag.
    ensures none_waits { IfOk result (λ tally. (tally.counts.tables.waiting ≡ []) × (tally.zeros.tables.waiting ≡ [])) }
{
    let mut tally = empty_tally(alloc, state);
    let Some(mut sheet) = Sheet::open_list(alloc, text, reading.delimiter, form)? else {
        tally.finish_carry();
        return Ok(tally);
    };
    let columns = LineColumns::named(alloc, &sheet, keys, number, form)?;
    add_lines(alloc, &mut sheet, &columns, &mut tally, reading.scale)?;
    tally.finish_carry();
    Ok(tally)
}
