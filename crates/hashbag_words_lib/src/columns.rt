//! Counting the fields of a column of CSV texts.
ghost use Rattle.std.specs.Prelude.{◌≡◌, ◌∷◌, [], false, true, All, OnOk};
ghost use Rattle.hashbag_csv.specs.Readers.{records_in};
ghost use Rattle.hashbag_csv.specs.Sheets.{FitHeader, fits_sheet, last_field, left, place};
ghost use Rattle.hashbag_words_lib.specs.Columns.{HasColumn, column_at, column_in};
ghost use Rattle.hashbag_words_lib.specs.Counts.{HasTokens, TakesTokens};

use crate::counting::add_piece;
use hashbag_core::{BagError, HashBag};
use hashbag_csv::delimiter::Delimiter;
use hashbag_csv::fault::{Fault, SheetError};
use hashbag_csv::sheet::{Column, Sheet};
use std::alloc::Global;
use std::hash::BuildHasher;

// Counts the field of this column in the record that was read last.
fn add_record<S: BuildHasher + Drop>(
    alloc: Global,
    bag: &mut HashBag<String, S>,
    fold: bool,
    sheet: &Sheet<'_>,
    column: Column<'_>,
) -> Result<(), SheetError>
    ensures { OnOk result (TakesTokens HasTokens fold bag.old bag.new (last_field sheet.now column.entry ∷ [])) }
{
    let field = sheet.field(column)?;
    match add_piece(alloc, bag, fold, field) {
        Ok(()) => Ok(()),
        Err(BagError::TooMany) => {
            let limit = format!(in alloc; "{}", bag.limit())?;
            Err(sheet.bad_line(Fault::TotalPastMost(limit)))
        }
        Err(BagError::BelowTotal | BagError::Memory) => Err(SheetError::Memory),
    }
}

// Counts the field of this column in each record that is left.
fn add_records<S: BuildHasher + Drop>(
    alloc: Global,
    bag: &mut HashBag<String, S>,
    fold: bool,
    sheet: &mut Sheet<'_>,
    column: Column<'_>,
) -> Result<(), SheetError>
    ensures counts { OnOk result (TakesTokens HasTokens fold bag.old bag.new (column_at (place column.entry) (left sheet.old))) }
    ensures fits { OnOk result (All (λ r. fits_sheet sheet.old r ≡ true) (left sheet.old)) }
{
    'records: while sheet.read()? {
        add_record(alloc, bag, fold, sheet, column)?;
    }
    Ok(())
}

/// Counts the fields of a column of a CSV text: inserts the field of each record below the header.
///
/// # Errors
///
/// `Line` if the header doesn't have exactly one column of this name, or the total would pass the limit of the bag. `Line` also for the
/// first record with another number of fields than the header, a quote out of place, or a field of the column that isn't UTF-8. `Memory` if
/// an allocation fails. The fields before the one that failed have been inserted.
///
/// # Complexity
///
/// Reads each byte, and makes one insertion per field. Without `fold` a `String` is allocated only for an absent token, with `fold` for
/// each field.
pub fn count_column<S: BuildHasher + Drop>(
    alloc: Global,
    bag: &mut HashBag<String, S>,
    fold: bool,
    text: &[u8],
    name: &str,
    delimiter: Delimiter,
) -> Result<(), SheetError>
    // Each field of the column below the header is counted once: case-folded with `fold`, else as it is. No other text is counted.
    ensures counts { OnOk result (TakesTokens HasTokens fold bag.old bag.new (column_in delimiter name.now text.now)) }

    // The header has exactly one column of this name, and each other record has as many fields as the header.
    ensures named { OnOk result (HasColumn name.now (records_in delimiter text.now)) }
    ensures fits { OnOk result (FitHeader false (records_in delimiter text.now)) }
{
    let mut sheet = Sheet::open_lines(alloc, text, delimiter, false)?;
    let column = sheet.column(name)?;
    add_records(alloc, bag, fold, &mut sheet, column)?;
    Ok(())
}
