//! For each article, the fields that its first line has in other columns.
ghost use Rattle.std.specs.Prelude.{◌≡◌, map, IfOk, OnOk};
ghost use Rattle.hashbag_csv.specs.FirstLines.{AddsFirsts, AddsFirstsOf, AreFirstFields, carried_last, carried_left};
ghost use Rattle.hashbag_csv.specs.LineColumns.{place_named};
ghost use Rattle.hashbag_csv.specs.Sheets.{place};

use crate::article::Article;
use crate::delimiter::Delimiter;
use crate::fault::SheetError;
use crate::key_form::KeyForm;
use crate::line_form::LineForm;
use crate::lines::{columns_of, fields_of};
use crate::sheet::{Column, Sheet};
use std::alloc::{AllocError, Global};
use std::collections::HashMap;
use std::hash::BuildHasher;

/// The names of the columns that [`add_first_lines`] reads.
#[derive(Clone, Copy)]
pub struct Names<'n> {
    /// The key columns.
    pub keys: &'n [&'n str],
    /// The columns whose fields are kept with the article (`--carry`).
    pub carried: &'n [&'n str],
    /// Whether the header may lack columns of `carried`. Their fields are then empty.
    pub may_lack: bool,
}

// The columns that are read of each record.
#[derive(Drop)]
struct CarriedColumns<'n> {
    // The key columns.
    keys: Vec<Column<'n>>,
    // The columns whose fields are kept with the article.
    carried: Vec<Column<'n>>,
}

// Returns the columns with these names in the header. A column that the header lacks is empty in each record. Call it before the first
// `Sheet::read`, which replaces the header.
fn columns_or_empty<'n>(
    alloc: Global,
    sheet: &Sheet<'_>,
    names: &[&'n str],
) -> Result<Vec<Column<'n>>, SheetError>
    ensures { IfOk result (λ columns. map place columns.items ≡ map (place_named sheet.now) names.now) }
{
    let mut columns = Vec::new(alloc);
    for name in names {
        let column = sheet.column_or_empty(*name)?;
        columns.push(column).map_err(AllocError::from)?;
    }
    Ok(columns)
}

// Returns the columns `names.carried`. If `names.may_lack`, a column that the header lacks is empty in each record. Call it before the
// first `Sheet::read`, which replaces the header.
fn carried_columns<'n>(
    alloc: Global,
    sheet: &Sheet<'_>,
    names: Names<'n>,
) -> Result<Vec<Column<'n>>, SheetError>
    ensures { IfOk result (λ found. map place found.items ≡ map (place_named sheet.now) names.entry.carried.now) }
{
    if names.may_lack {
        return columns_or_empty(alloc, sheet, names.carried);
    }
    let columns = columns_of(alloc, sheet, names.carried)?;
    Ok(columns)
}

// If `firsts` lacks the article of the record that was read last, inserts the article with its carried fields.
fn add_line<A: Article + Drop, S: BuildHasher + Drop>(
    alloc: Global,
    sheet: &Sheet<'_>,
    columns: &CarriedColumns<'_>,
    form: KeyForm,
    firsts: &mut HashMap<A, Vec<String>, S>,
) -> Result<(), SheetError>
    ensures { OnOk result (AddsFirsts A.eq A.fields (carried_last form columns.now sheet.now) firsts.old firsts.new) }
{
    let article = A::read(alloc, sheet, &columns.keys, form)?;
    if firsts.contains_key(&article) {
        return Ok(());
    }
    let as_it_is = KeyForm {
        trim: false,
        fold: false,
    };
    let fields = fields_of(alloc, sheet, &columns.carried, as_it_is)?;
    match firsts.insert(article, fields) {
        Ok(_) => Ok(()),
        Err(_) => Err(SheetError::Memory),
    }
}

// Reads the records that are left, and calls `add_line` after each.
fn add_lines<A: Article + Drop, S: BuildHasher + Drop>(
    alloc: Global,
    sheet: &mut Sheet<'_>,
    columns: &CarriedColumns<'_>,
    form: KeyForm,
    firsts: &mut HashMap<A, Vec<String>, S>,
) -> Result<(), SheetError>
    ensures { OnOk result (AddsFirsts A.eq A.fields (carried_left form columns.now sheet.old) firsts.old firsts.new) }
{
    'lines: while sheet.read()? {
        add_line(alloc, sheet, columns, form, firsts)?;
    }
    Ok(())
}

/// Inserts into `firsts` each article of a text that isn't in `firsts` yet, with the carried fields of the first line that has the article. Lines are
/// read in the form `form`; carried fields are read as they are.
///
/// # Errors
///
/// `Line` for the first of these:
///
/// - the text is UTF-16, or has no header, though `form` says that there is one;
/// - a name is of more than one column of the header, or of none; with `may_lack`, a carried column may be absent;
/// - a quote is misplaced, or a record has the wrong number of fields;
/// - a key field, or a carried field of a new article, isn't UTF-8.
///
/// `Memory` if an allocation fails. After an error, the lines before the bad line have been added.
///
/// # Complexity
///
/// Allocates the article of each line, and drops it unless it is new. Hashes each article once, and a new one twice.
pub fn add_first_lines<A: Article + Drop, S: BuildHasher + Drop>(
    alloc: Global,
    text: &[u8],
    names: Names<'_>,
    delimiter: Delimiter,
    form: LineForm,
    firsts: &mut HashMap<A, Vec<String>, S>,
) -> Result<(), SheetError>
    // If `firsts` had exactly the articles of some lines K, each with the carried fields of its first line in K, it now has the articles of K
    // followed by the text's lines, in the same way.
    ensures { OnOk result (AddsFirstsOf A.eq A.fields names.entry delimiter form text.now firsts.old firsts.new) }
{
    let Some(mut sheet) = Sheet::open_list(alloc, text, delimiter, form)? else {
        return Ok(());
    };
    let keys = columns_of(alloc, &sheet, names.keys)?;
    let carried = carried_columns(alloc, &sheet, names)?;
    let columns = CarriedColumns { keys, carried };
    add_lines(alloc, &mut sheet, &columns, form.key, firsts)?;
    Ok(())
}

/// Returns the carried fields of an article: the fields of the first line that has it, or none if no line has it.
pub fn first_fields<'f, A: Article + Drop, S: BuildHasher + Drop>(
    firsts: &'f HashMap<A, Vec<String>, S>,
    article: &A,
) -> &'f [String]
    // If `firsts` has exactly the articles of lines K, each with its first line's carried fields, the result is these fields of `article`, or empty.
    ensures { AreFirstFields A.eq A.fields firsts.now article.now result.now }
{
    match firsts.get(article) {
        Some(fields) => fields.as_slice(),
        None => &[],
    }
}
