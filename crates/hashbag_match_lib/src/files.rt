//! Two lists in two files: read one after the other, and matched. This module decides what is read of which file; `Inputs` gives the bytes.
ghost use Rattle.std.specs.Prelude.{◌≡◌, IfErr, IfOk, IfSome};
ghost use Rattle.hashbag_match_lib.specs.Asks.{lines_asked};
ghost use Rattle.hashbag_match_lib.specs.Fields.{TalliesLines};
ghost use Rattle.hashbag_match_lib.specs.Files.{AreErrorsIn, AreListsOf, AreMatchedFiles, IsListOf};
ghost use Rattle.hashbag_match_lib.specs.Files.{NamesLinesOfEither, NamesLinesOfSource, NamesLinesOfText};
ghost use Rattle.hashbag_match_lib.specs.Readable.{IsReadableAs};
ghost use Rattle.hashbag_match_lib.specs.Texts.{Rise, RiseAs};

use crate::ask::{Ask, Columns};
use crate::tally::Tally;
use crate::texts::{Findings, Lists, carry_lines, match_lists, tally_of};
use hashbag_csv::article::Article;
use hashbag_csv::bad_lines::bad_lines;
use hashbag_csv::fault::{Fault, SheetError, in_file};
use hashbag_csv::line_form::LineForm;
use hashbag_shell::inputs::{Inputs, read_text};
use hashbag_shell::trouble::Trouble;
use hashbag_text::encoding::Encoding;
use std::alloc::{AllocError, Global};
use std::collections::HashMap;
use std::hash::BuildHasher;

/// Why two files aren't matched.
#[derive(Debug, Drop)]
pub enum Unmatched<'a> {
    /// A file can't be read, its header is bad, its total is too large, or an allocation failed.
    Trouble(Trouble<'a>),
    /// Lines of a file are bad.
    BadLines {
        /// The name of the file.
        file: &'a str,
        /// The errors of these lines, in the order of the lines, at most [`Ask::max_errors`].
        errors: Vec<SheetError>,
    },
}

impl<'a> From<Trouble<'a>> for Unmatched<'a> {
    ghost use Rattle.hashbag_match_lib.specs.declared.files.Unmatched.{Unmatched};

    ghost from_gives = { λ trouble why. why ≡ Unmatched.Trouble trouble };

    fn from(trouble: Trouble<'a>) -> Unmatched<'a> {
        Unmatched::Trouble(trouble)
    }
}

impl From<AllocError> for Unmatched<'_> {
    ghost use Rattle.hashbag_match_lib.specs.declared.files.Unmatched.{Unmatched};
    ghost use Rattle.hashbag_shell.specs.declared.trouble.Trouble.{Trouble};

    ghost from_gives = { λ _ why. why ≡ Unmatched.Trouble Trouble.Memory };

    fn from(_e: AllocError) -> Self {
        Unmatched::Trouble(Trouble::Memory)
    }
}

/// The two files.
#[derive(Clone, Copy)]
pub struct TwoFiles<'a> {
    /// The name of the file of what was ordered.
    pub ordered: &'a str,
    /// The name of the file of what was delivered.
    pub delivered: &'a str,
    /// Their encodings, each `None` for UTF-8.
    pub encodings: (Option<Encoding>, Option<Encoding>),
}

// A list in a file.
#[derive(Clone, Copy)]
struct Source<'a, 'k> {
    // The name of the file.
    file: &'a str,
    // Its encoding, `None` for UTF-8.
    encoding: Option<Encoding>,
    // The columns of the list.
    columns: &'k Columns<'k>,
    // Whether the header may lack carried columns. The fields of such a column are empty.
    may_lack: bool,
}

// Returns the errors of the bad lines of a text, at most `ask.max_errors`, or `None` if no line is bad or the reading fails.
fn errors_in<A: Article + Drop>(
    alloc: Global,
    text: &[u8],
    columns: &Columns<'_>,
    ask: &Ask<'_>,
) -> Option<Vec<SheetError>>
    ensures { IfSome result (λ errors. AreErrorsIn ask.now columns.now text.now errors.items) }
{
    let errors = bad_lines::<A>(
        alloc,
        text,
        &columns.keys,
        columns.number,
        columns.reading,
        ask.line_form,
        ask.max_errors,
    )
    .ok()?;
    if errors.is_empty() {
        None
    } else {
        Some(errors)
    }
}

// Returns `read`. If the error is that the header lacks a column, each line counts as one, and lists have headers, the message also names
// `--no-header`: the list may have no header.
fn with_cure<T: Drop>(
    alloc: Global,
    columns: &Columns<'_>,
    form: LineForm,
    read: Result<T, SheetError>,
) -> Result<T, SheetError>
    ensures { IfOk result (λ value. read ≡ Ok value) }
{
    match read {
        Err(
            SheetError::Line {
                line,
                fault: Fault::NoColumn { name, names },
            },
        ) if columns.number.is_none() && !form.no_header => {
            let names = format!(in alloc;
                "{names}; if line {line} is no header, `--no-header` reads it"
            )?;
            let fault = Fault::NoColumn { name, names };
            Err(SheetError::Line { line, fault })
        }
        read => read,
    }
}

// Returns the tally of the text of a file. If a line is bad, reads the text again, to find up to `ask.max_errors` bad lines.
fn tally_in<'a, A: Article + Drop, S: BuildHasher + Copy + Drop>(
    alloc: Global,
    state: S,
    file: &'a str,
    text: &[u8],
    columns: &Columns<'_>,
    ask: &Ask<'_>,
) -> Result<Tally<A, S>, Unmatched<'a>>
    ensures tally { IfOk result (λ tally. TalliesLines A.eq A.fields (lines_asked ask.now columns.now text.now) tally) }
    ensures readable { IfOk result (λ tally. IsReadableAs ask.now columns.now text.now) }
    ensures bad_lines { IfErr result (NamesLinesOfText ask.now columns.now file.now text.now) }
{
    let read = tally_of(alloc, state, text, columns, ask);
    // A total that is too large isn't the error of one line.
    if let Err(error) = &read
        && !error.is_total()
        && let Some(errors) = errors_in::<A>(alloc, text, columns, ask)
    {
        return Err(Unmatched::BadLines { file, errors });
    }
    Ok(in_file(alloc, file, with_cure(alloc, columns, ask.line_form, read))?)
}

// Reads the list in a file, and drops the file's text. Inserts the articles that `firsts` lacks, with the carried fields of their first lines.
fn read_list<'a, A: Article + Drop, S: BuildHasher + Copy + Drop, I: Inputs>(
    alloc: Global,
    state: S,
    inputs: &I,
    source: Source<'a, '_>,
    ask: &Ask<'_>,
    firsts: &mut HashMap<A, Vec<String>, S>,
) -> Result<Tally<A, S>, Unmatched<'a>>
    ensures list { IfOk result
        (IsListOf A.eq A.fields (I.gives inputs.now) ask.now source.entry firsts.old firsts.new) }
    ensures bad_lines { IfErr result (NamesLinesOfSource (I.gives inputs.now) ask.now source.entry) }
{
    let file = source.file;
    let text = read_text(alloc, inputs, file, source.encoding)?;
    let tally = tally_in(alloc, state, file, &text, source.columns, ask)?;
    let carried = carry_lines(alloc, &text, source.columns, source.may_lack, ask, firsts);
    in_file(alloc, file, carried)?;
    Ok(tally)
}

// Reads both lists: first the one of what was ordered.
fn read_lists<'a, A: Article + Drop, S: BuildHasher + Copy + Drop, I: Inputs>(
    alloc: Global,
    state: S,
    inputs: &I,
    ask: &Ask<'_>,
    files: TwoFiles<'a>,
) -> Result<Lists<A, S>, Unmatched<'a>>
    ensures lists { IfOk result (AreListsOf A.eq A.fields (I.gives inputs.now) files.entry ask.now) }
    ensures bad_lines { IfErr result (NamesLinesOfEither (I.gives inputs.now) files.entry ask.now) }
{
    let first = Source {
        file: files.ordered,
        encoding: files.encodings.0,
        columns: &ask.ordered,
        may_lack: false,
    };
    let second = Source {
        file: files.delivered,
        encoding: files.encodings.1,
        columns: &ask.delivered,
        may_lack: true,
    };
    let mut firsts = HashMap::with_hasher(alloc, state);
    let ordered = read_list(alloc, state, inputs, first, ask, &mut firsts)?;
    let delivered = read_list(alloc, state, inputs, second, ask, &mut firsts)?;
    Ok(Lists {
        ordered,
        delivered,
        firsts,
    })
}

// Matches two files. The type parameter `A` is the type of articles.
fn match_as<'a, A: Article + Drop, S: BuildHasher + Copy + Drop, I: Inputs>(
    alloc: Global,
    state: S,
    inputs: &I,
    ask: &Ask<'_>,
    files: TwoFiles<'a>,
) -> Result<(Vec<u8>, Findings), Unmatched<'a>>
    ensures matched { IfOk result (AreMatchedFiles (RiseAs A.cmp A.fields) (I.gives inputs.now) files.entry ask.now) }
    ensures bad_lines { IfErr result (NamesLinesOfEither (I.gives inputs.now) files.entry ask.now) }
{
    let lists = read_lists::<A, S, I>(alloc, state, inputs, ask, files)?;
    Ok(match_lists(alloc, state, &lists, ask)?)
}

/// Matches what was ordered with what was delivered: the lists of two files. Only one file's text is in memory at a time. Returns what is
/// written, and the findings, with the exit status: 0 if as many of each article were delivered as ordered, else 1.
///
/// # Errors
///
/// What is wrong with the first bad file; the file of what was ordered is read first. `Memory` if an allocation fails.
///
/// # Complexity
///
/// Reads each file once, and its text once, or twice if fields are carried along, or a line is bad. Else same as
/// [`match_lists`].
pub fn match_files<'a, S: BuildHasher + Copy + Drop, I: Inputs>(
    alloc: Global,
    state: S,
    inputs: &I,
    ask: &Ask<'_>,
    files: TwoFiles<'a>,
) -> Result<(Vec<u8>, Findings), Unmatched<'a>>
    // No record of either text is short unless the form allows it, and each has a number, if there is a column of numbers. The status is 0 exactly if
    // the texts of both files name the same quantity of each article, else 1. The text that is written has a row for each
    // article of either text, articles in ascending order; rows that `ask` doesn't want are left out.
    ensures matched { IfOk result (AreMatchedFiles Rise (I.gives inputs.now) files.entry ask.now) }

    // If the error is `BadLines`, it names one of the files, and has the errors of its bad lines, at most `ask.max_errors`.
    ensures bad_lines { IfErr result (NamesLinesOfEither (I.gives inputs.now) files.entry ask.now) }
{
    if ask.ordered.keys.len() == 1 {
        return match_as::<String, S, I>(alloc, state, inputs, ask, files);
    }
    match_as::<Vec<String>, S, I>(alloc, state, inputs, ask, files)
}
