//! The lines of a sheet: an article, which is the fields of the key columns, and a number. A number is in units of the scale: with two
//! decimals `1.50` is 150.
ghost use Rattle.std.specs.Prelude.{◌≡◌, ◌≢◌, map, option_map, IfErr, IfOk, IfSome, OnOk};
ghost use Rattle.std.specs.String.{string_bytes};
ghost use Rattle.hashbag_csv.specs.BadLines.{HasNumber, IsFieldError, IsTextError};
ghost use Rattle.hashbag_csv.specs.KeyForms.{field_in, trimmed_if};
ghost use Rattle.hashbag_csv.specs.LineColumns.{HasNumberBy, IsLineErrorBy, ReadsNextLine, form_of, key_places, last_fields, line_by, number_place, place_if, place_named};
ghost use Rattle.hashbag_csv.specs.Lines.{number_at, place_of};
ghost use Rattle.hashbag_csv.specs.Sheets.{KeepsHeader, ReadsFitting, ReadsOne, last_field, place, read_last};

use crate::article::Article;
use crate::decimals::unit_of;
use crate::fault::SheetError;
use crate::key_form::KeyForm;
use crate::line_form::LineForm;
use crate::number_form::{NumberForm, field_number};
use crate::scale::Scale;
use crate::sheet::{Column, Sheet};
use caseless::default_case_fold_str;
use std::alloc::{AllocError, Global};

/// The key columns, which name the article, and the column of the number. Without that column, each line has the number 1.
#[derive(Drop)]
pub struct LineColumns<'n> {
    article: Vec<Column<'n>>,
    number: Option<Column<'n>>,
    form: LineForm,
}

/// Returns the column with this name in the header. Call it before the first [`Sheet::read`], which replaces the header.
///
/// # Errors
///
/// `Line` if no column of the header, or more than one, has the name. `Memory` if an allocation fails.
pub fn column_of<'n>(sheet: &Sheet<'_>, name: &'n str) -> Result<Column<'n>, SheetError>
    // `place_of` is the index of the first field that is `name` in the record that was read last, here the header.
    ensures { IfOk result (λ column. place column ≡ place_of (read_last sheet.now) name.now) }
{
    let column = sheet.column(name)?;
    Ok(column)
}

// Returns the columns with these names in the header, as `column_of` does.
pub(crate) fn columns_of<'n>(
    alloc: Global,
    sheet: &Sheet<'_>,
    names: &[&'n str],
) -> Result<Vec<Column<'n>>, SheetError>
    ensures { IfOk result (λ columns. map place columns.items ≡ map (place_named sheet.now) names.now) }
{
    let mut columns = Vec::new(alloc);
    for name in names {
        let column = column_of(sheet, *name)?;
        columns.push(column).map_err(AllocError::from)?;
    }
    Ok(columns)
}

// Returns the column with this name in the header, as `column_of` does, or `None` without a name.
fn number_column_of<'n>(
    sheet: &Sheet<'_>,
    name: Option<&'n str>,
) -> Result<Option<Column<'n>>, SheetError>
    ensures { IfOk result (λ column. place_if column ≡ option_map (place_named sheet.now) name.entry) }
{
    match name {
        Some(name) => Ok(Some(column_of(sheet, name)?)),
        None => Ok(None),
    }
}

// Returns the field of this column in the record that was read last, trimmed if `trim`.
fn field_text<'s>(
    sheet: &'s Sheet<'_>,
    column: Column<'_>,
    trim: bool,
) -> Result<&'s str, SheetError>
    ensures value { IfOk result (λ text. text.now ≡ trimmed_if trim (last_field sheet.now column.entry)) }
    ensures fault { IfErr result (λ e. IsTextError e) }
{
    if trim {
        return sheet.trimmed_field(column);
    }
    sheet.field(column)
}

// Returns the field of this column in the record that was read last, in the form `form`.
pub(crate) fn key_field(
    alloc: Global,
    sheet: &Sheet<'_>,
    column: Column<'_>,
    form: KeyForm,
) -> Result<String, SheetError>
    ensures value { IfOk result (λ field. string_bytes field ≡ field_in form (last_field sheet.now column.entry)) }
    ensures fault { IfErr result (λ e. IsTextError e) }
{
    let text = field_text(sheet, column, form.trim)?;
    if form.fold {
        return Ok(default_case_fold_str(alloc, text)?);
    }
    Ok(String::from_str(alloc, text)?)
}

// Returns the fields of these columns in the record that was read last, in the form `form`.
pub(crate) fn fields_of(
    alloc: Global,
    sheet: &Sheet<'_>,
    columns: &[Column<'_>],
    form: KeyForm,
) -> Result<Vec<String>, SheetError>
    ensures fields { IfOk result (λ fields. map string_bytes fields.items ≡ last_fields form columns.now sheet.now) }
    ensures fault { IfErr result (λ e. IsTextError e) }
{
    let mut fields = Vec::new(alloc);
    for column in columns {
        let field = key_field(alloc, sheet, *column, form)?;
        fields.push(field).map_err(AllocError::from)?;
    }
    Ok(fields)
}

// Returns the number in this column of the record that was read last, in units of the scale. If `column` is `None`, the number is 1: 10^decimals
// units.
fn number_of(
    alloc: Global,
    sheet: &Sheet<'_>,
    column: Option<Column<'_>>,
    scale: Scale,
    form: NumberForm,
) -> Result<usize, SheetError>
    ensures number { IfOk result (λ n. n ≡ number_at scale form (place_if column.entry) (read_last sheet.now)) }
    ensures reads { OnOk result (HasNumber scale form (place_if column.entry) (read_last sheet.now)) }
    ensures fault { IfErr result (λ e. IsFieldError scale form (place_if column.entry) (read_last sheet.now) e) }
{
    match column {
        Some(column) => {
            let field = sheet.field(column)?;
            field_number(alloc, sheet.line(), field, scale, form)
        }
        None => Ok(unit_of(scale.decimals)),
    }
}

impl<'n> LineColumns<'n> {
    /// Returns the columns with these names in the header, for lines in the form `form`. If `number` is `None`, each line has the number 1.
    /// Call it before the first [`Sheet::read`], which replaces the header.
    ///
    /// # Errors
    ///
    /// `Line` if no column of the header, or more than one, has one of the names. `Memory` if an allocation fails.
    pub fn named(
        alloc: Global,
        sheet: &Sheet<'_>,
        keys: &[&'n str],
        number: Option<&'n str>,
        form: LineForm,
    ) -> Result<LineColumns<'n>, SheetError>
        // `key_places` and `number_place` are the indexes of the columns. `place_named` is the index of the first field with a name in the record
        // that was read last, here the header.
        ensures keys { IfOk result (λ c. key_places c ≡ map (place_named sheet.now) keys.now) }
        ensures number { IfOk result (λ c. number_place c ≡ option_map (place_named sheet.now) number.entry) }
        ensures form { IfOk result (λ columns. form_of columns ≡ form) }
    {
        let article = columns_of(alloc, sheet, keys)?;
        let number = number_column_of(sheet, number)?;
        Ok(LineColumns {
            article,
            number,
            form,
        })
    }

    /// Reads the next record, and returns its article and its number in units of the scale, or `None` if no record is left.
    ///
    /// # Errors
    ///
    /// `Line` if a quote is misplaced, the number of fields is wrong, a field isn't UTF-8, or [`field_number`] fails. `Memory` if an
    /// allocation fails.
    pub fn read<A: Article + Drop>(
        &self,
        alloc: Global,
        sheet: &mut Sheet<'_>,
        scale: Scale,
    ) -> Result<Option<(A, usize)>, SheetError>
        // `next` is the line of the next record, which was read: its article and its number, by these columns. It is `None` if no record was left.
        ensures line { IfOk result (λ next. ReadsNextLine A.fields (line_by scale self.now) sheet.old next sheet.new) }

        // The record that was read has as many fields as the header, or fewer if that is allowed.
        ensures fits { IfOk result (λ next. IfSome next (λ _. ReadsFitting sheet.old sheet.new)) }

        // The record's field in the column of the number, if there is such a column, is a number.
        ensures number { IfOk result (λ next. IfSome next (λ _. HasNumberBy scale self.now (read_last sheet.new))) }

        // A quote is misplaced, the record doesn't fit the header, a field isn't UTF-8, or the field of the number is no number; or the error is
        // `Memory`.
        ensures fault { IfErr result (λ e. IsLineErrorBy scale self.now sheet.old sheet.new e) }

        // After any error but `Memory` the record has been read, so the next call reads the one after it.
        ensures reads_on { IfErr result (λ e. e ≢ SheetError.Memory → ReadsOne sheet.old sheet.new) }

        // The header's number of fields, and whether a record may have fewer, are unchanged.
        ensures same { KeepsHeader sheet.old sheet.new }
    {
        if !sheet.read()? {
            return Ok(None);
        }
        let article = A::read(alloc, sheet, &self.article, self.form.key)?;
        let number = number_of(alloc, sheet, self.number, scale, self.form.number)?;
        Ok(Some((article, number)))
    }
}
