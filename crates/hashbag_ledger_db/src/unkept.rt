//! A stock that isn't kept: the subcommand `total`. Files are read through `Inputs`, so the clauses hold for any bytes.
ghost use Rattle.std.specs.Prelude.{◌≡◌, ◌↔◌, None, true, IfOk, IfSome, OnOk};
ghost use Rattle.hashbag_ledger_db.specs.Unkept.{EntersFileOf, EntersFiles, IsBegunFrom, IsEnteredOf, IsStartOf, balance_text, has_refused, named_in, refusals_rows, refusals_table, status_with};

use crate::settings::Settings;
use crate::troubles::in_start;
use hashbag_csv::counts::read_counts_as;
use hashbag_csv::fault::in_file;
use hashbag_csv::forms::{Form, rows_text};
use hashbag_ledger_lib::ledger::{Entered, Ledger, end};
use hashbag_ledger_lib::listings::{Balance, Refusals, refusals_text};
use hashbag_ledger_lib::movements::Refusal;
use hashbag_ledger_lib::reading::enter_movements;
use hashbag_shell::inputs::{Inputs, read_text};
use hashbag_shell::status::{DENIED, DONE};
use hashbag_shell::trouble::Trouble;
use std::alloc::{AllocError, Global};
use std::hash::BuildHasher;

/// What a call writes.
#[derive(Drop)]
pub struct UnkeptReport {
    /// The refusals.
    pub refusals: Vec<u8>,
    /// The balance; `None` if none is written.
    pub balance: Option<Vec<u8>>,
    /// The status with which the program ends.
    pub status: u8,
    /// The balance and all refusals, from which the fields above are made.
    pub entered: Entered<String>,
}

// Reads the opening stock, which is empty if no file is named.
fn start_of<'a, I: Inputs>(
    alloc: Global,
    inputs: &I,
    settings: &Settings<'a>,
) -> Result<Vec<(String, usize)>, Trouble<'a>>
    ensures { IfOk result (λ start. IsStartOf (I.gives inputs.now) settings.now start.items) }
{
    let Some(file) = settings.start else {
        return Ok(Vec::new(alloc));
    };
    let text = read_text(alloc, inputs, file, settings.start_encoding)?;
    let (article, number) = settings.start_columns;
    let start = read_counts_as(alloc, text.as_slice(), article, number, settings.reading);
    Ok(in_start(alloc, file, start)?)
}

// Returns the ledger of the opening stock.
fn ledger_of<'a, I: Inputs, S: BuildHasher + Drop>(
    alloc: Global,
    state: S,
    inputs: &I,
    settings: &Settings<'a>,
) -> Result<Ledger<String, S>, Trouble<'a>>
    ensures { IfOk result (IsBegunFrom (I.gives inputs.now) settings.now) }
{
    let start = start_of(alloc, inputs, settings)?;
    match Ledger::begin(alloc, state, usize::MAX, start) {
        Ok(ledger) => Ok(ledger),
        // The opening stock isn't too large: that was checked when it was read.
        Err(_) => Err(Trouble::Memory),
    }
}

// Enters the movements of the file of this number.
fn enter_file<'a, I: Inputs, S: BuildHasher + Drop>(
    alloc: Global,
    inputs: &I,
    settings: &Settings<'a>,
    at: usize,
    file: &'a str,
    ledger: &mut Ledger<String, S>,
) -> Result<(), Trouble<'a>>
    ensures { OnOk result (EntersFileOf (I.gives inputs.now) settings.now at file.now ledger.old ledger.new) }
{
    let text = read_text(alloc, inputs, file, settings.encoding)?;
    let bytes = text.as_slice();
    let entered = enter_movements(alloc, ledger, bytes, at, settings.columns, settings.reading);
    Ok(in_file(alloc, file, entered)?)
}

// Enters the movements of all files, in their order.
fn enter_files<'a, I: Inputs, S: BuildHasher + Drop>(
    alloc: Global,
    inputs: &I,
    settings: &Settings<'a>,
    ledger: &mut Ledger<String, S>,
) -> Result<(), Trouble<'a>>
    ensures { OnOk result (EntersFiles (I.gives inputs.now) settings.now settings.now.files.items ledger.old ledger.new) }
{
    for i in 0..settings.files.len() {
        enter_file(alloc, inputs, settings, i, settings.files[i], ledger)?;
    }
    Ok(())
}

// Enters the movements of all files into the opening stock.
fn entered_of<'a, I: Inputs, S: BuildHasher + Drop>(
    alloc: Global,
    state: S,
    inputs: &I,
    settings: &Settings<'a>,
) -> Result<Entered<String>, Trouble<'a>>
    ensures { IfOk result (IsEnteredOf (I.gives inputs.now) settings.now) }
{
    let mut ledger = ledger_of(alloc, state, inputs, settings)?;
    enter_files(alloc, inputs, settings, &mut ledger)?;
    Ok(end(alloc, ledger)?)
}

// Returns the refusals that are named: with `--strict` only the first.
fn named_of<'a>(settings: &Settings<'_>, all: &'a [Refusal<String>]) -> &'a [Refusal<String>]
    ensures { result.now ≡ named_in settings.now all.now }
{
    if settings.strict {
        &all[..all.len().min(1)]
    } else {
        all
    }
}

// Returns these refusals as CSV.
fn refusals_csv(
    alloc: Global,
    settings: &Settings<'_>,
    named: &[Refusal<String>],
) -> Result<Vec<u8>, AllocError>
    ensures { IfOk result (λ text. text.items ≡ refusals_rows settings.now.reading settings.now.files.items named.now) }
{
    let reading = settings.reading;
    let rows = Refusals(reading.scale, settings.files.as_slice());
    rows_text(alloc, Form::Csv, reading.delimiter, &rows, named)
}

// Returns the text of the refusals: a table for a file, lines for standard error.
fn refused_text(
    alloc: Global,
    settings: &Settings<'_>,
    all: &[Refusal<String>],
) -> Result<Vec<u8>, AllocError>
    ensures { IfSome settings.now.refused (λ _. IfOk result (λ text. text.items ≡ refusals_table settings.now all.now)) }
{
    let named = named_of(settings, all);
    match settings.refused {
        Some(_) => refusals_csv(alloc, settings, named),
        None => {
            let text = refusals_text(alloc, &settings.files, settings.reading.scale, named)?;
            Ok(text.into_bytes())
        }
    }
}

// Returns the text of the balance, if one is written.
fn left_text(
    alloc: Global,
    settings: &Settings<'_>,
    entered: &Entered<String>,
) -> Result<Option<Vec<u8>>, AllocError>
    ensures denied { IfOk result (λ text. text ≡ None ↔ (settings.now.strict ≡ true) × (has_refused entered.now ≡ true)) }
    ensures balance { IfOk result (λ left. IfSome left (λ text. text.items ≡ balance_text settings.now entered.now)) }
{
    if settings.strict && is_refused(entered) {
        return Ok(None);
    }
    let reading = settings.reading;
    let listing = Balance(settings.start_columns, reading.scale);
    let text = rows_text(
        alloc,
        Form::Csv,
        reading.delimiter,
        &listing,
        &entered.balance,
    )?;
    Ok(Some(text))
}

// Returns whether there is a refusal.
fn is_refused(entered: &Entered<String>) -> bool
    ensures { result ≡ has_refused entered.now }
{
    entered.refusals.len() > 0
}

// Returns the status of a call with this result.
fn status_of(entered: &Entered<String>) -> u8
    ensures { result ≡ status_with entered.now }
{
    if is_refused(entered) { DENIED } else { DONE }
}

/// Enters the movements of all named files into the opening stock, and returns the texts to write. The text of a file is dropped before the
/// next one is read.
///
/// # Errors
///
/// What is wrong with the first bad file or with its first bad line. `Memory` if an allocation fails.
pub fn enter_unkept<'a, I: Inputs, S: BuildHasher + Drop>(
    alloc: Global,
    state: S,
    inputs: &I,
    settings: &Settings<'a>,
) -> Result<UnkeptReport, Trouble<'a>>
    // The entered movements are those of all named files, in turn, on top of the opening stock.
    ensures entered { IfOk result (λ report. IsEnteredOf (I.gives inputs.now) settings.now report.entered) }

    // The status is 1 exactly if a movement is refused.
    ensures status { IfOk result (λ report. report.status ≡ status_with report.entered) }

    // `balance` is `None` exactly if `strict` is set and a movement is refused.
    ensures denied { IfOk result (λ report. report.balance ≡ None ↔ (settings.now.strict ≡ true) × (report.status ≡ 1)) }

    // The balance that is written is CSV with the rows of the balance of `entered`.
    ensures balance { IfOk result (λ report. IfSome report.balance (λ text. text.items ≡ balance_text settings.now report.entered)) }

    // The file for refusals has those of `entered` as rows of CSV, with `strict` only the first.
    ensures refusals { IfOk result (λ report. IfSome settings.now.refused (λ _. report.refusals.items ≡ refusals_table settings.now report.entered.refusals.items)) }
{
    let entered = entered_of(alloc, state, inputs, settings)?;
    Ok(UnkeptReport {
        refusals: refused_text(alloc, settings, entered.refusals.as_slice())?,
        balance: left_text(alloc, settings, &entered)?,
        status: status_of(&entered),
        entered,
    })
}
