//! Adding a line of counts.
ghost use Rattle.std.specs.Prelude.{◌≡◌, ◌∷◌, [], IfOk, OnOk};
ghost use Rattle.hashbag_words_lib.specs.Counts.{TakesRows};
ghost use Rattle.hashbag_words_lib.specs.Faults.{OnBadLine};
ghost use Rattle.hashbag_words_lib.specs.Merging.{AddsLine};
ghost use Rattle.hashbag_words_lib.specs.Rows.{IfRow, IsNoRow, IsRead, IsRowOf};
ghost use Rattle.hashbag_words_lib.specs.Sorted.{row_of};
ghost use Rattle.hashbag_words_lib.specs.Tokens.{without_mark};

use crate::errors::{BadLine, InputFault};
use crate::rows::{RowForm, read_row, read_uniq_row};
use crate::sinks::RowSink;
use std::alloc::{AllocError, Global};
use std::str;

// Returns the token and the count of a line in this form, or why the line is bad.
pub(crate) fn read_in_form(
    alloc: Global,
    form: RowForm,
    line: &str,
) -> Result<Result<(String, usize), BadLine>, AllocError>
    // `row`: a line that was written from a token and a count is read as these. `line`: a row that is returned is what the line says.
    ensures row { IfOk result (λ read. IfRow form line.now (λ token count. IsRead token count read)) }
    ensures line { IfOk result (λ read. IfOk read (λ p. IsRowOf form line.now (row_of p))) }
{
    match form {
        RowForm::Tsv => read_row(alloc, line),
        RowForm::Uniq => read_uniq_row(alloc, line),
    }
}

/// Gives a sink the row of a line of counts.
///
/// # Errors
///
/// `InputFault::Line` if the line is bad. Then the sink is unchanged. Else the error of [`RowSink::put_row`].
pub fn add_row<K: RowSink>(
    alloc: Global,
    sink: &mut K,
    form: RowForm,
    line: &[u8],
) -> Result<(), InputFault>
    // `row`: for a line that was written from a token and a count, these are given to the sink. `line`: the line is read as the row that is given.
    // `bad`: a bad line isn't UTF-8, or can't have been written from any token and count.
    ensures row { IfRow form line.now (λ token count. OnOk result (TakesRows K.has sink.old sink.new ((token, count) ∷ []))) }
    ensures line { OnOk result (AddsLine K.has form line.now sink.old sink.new) }
    ensures bad { OnBadLine result (IsNoRow form line.now) }
    ensures kept { OnBadLine result (sink.new ≡ sink.old) }
{
    let Ok(text) = str::from_utf8(line) else {
        return Err(InputFault::Line(BadLine::NotText));
    };
    match read_in_form(alloc, form, text)? {
        Ok((token, count)) => { sink.put_row(token, count) }
        Err(bad) => Err(InputFault::Line(bad)),
    }
}

// Returns a line without the byte order mark at its beginning.
pub(crate) fn past_mark(line: &[u8]) -> &[u8]
    ensures { result.now ≡ without_mark line.now }
{
    if line.starts_with(b"\xef\xbb\xbf") {
        return &line[3..];
    }
    line
}
