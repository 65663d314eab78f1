//! The files of a call: inputs, which are read whole, and databases. They are given as `Inputs` and `Databases`, so the clauses hold for any
//! contents.
ghost use Rattle.std.specs.Prelude.{◌≡◌, ℕ, List, None, true, IfOk, IfSome};
ghost use Rattle.hashbag_ledger_db.specs.declared.stock.tables.Contents.{Contents};
ghost use Rattle.hashbag_ledger_db.specs.Filed.{status_after};
ghost use Rattle.hashbag_ledger_db.specs.Inputs.{AreInputsOf, IsRead, IsReportReady, name_and_kind};

use crate::entering::{EnterReport, denied_report, filed_anew, is_refused, report_in};
use crate::job::Job;
use crate::movements::{Input, input_of};
use crate::stages::{Stage, Stages};
use crate::stock::tables::Contents;
use hashbag_shell::inputs::Inputs;
use hashbag_shell::trouble::Trouble;
use sqlite::{Alter, Connection};
use std::alloc::{AllocError, Global};
use std::hash::BuildHasher;

/// The databases that a program has. An open one is a `C`.
pub trait Databases<C> {
    /// `has databases db contents`: if the database of this name is opened, it has these contents.
    ghost has: { Self → List ℕ → Contents → Type 0 };

    /// Returns whether there is no database of this name.
    ///
    /// # Errors
    ///
    /// An allocation fails.
    fn is_new<'a>(&self, db: &'a str) -> Result<bool, Trouble<'a>>;

    /// Opens a database, or makes it, and returns what it has. It waits for `wait` seconds at most while another process has it open.
    ///
    /// # Errors
    ///
    /// Why it can't be opened as the database of a stock.
    fn open_or_make<'a>(&self, db: &'a str, wait: usize) -> Result<(C, Contents), Trouble<'a>>
        // The contents that are returned are those that the database of this name has.
        ensures { IfOk result (λ opened. has self.now db.now opened.1) };

    /// Closes a database.
    fn close(&self, conn: C);
}

// Reads the opening stock, or a file of movements.
fn read_input<'a, I: Inputs>(
    alloc: Global,
    files: &I,
    job: &Job<'_>,
    file: &'a str,
    is_start: bool,
) -> Result<Input<'a>, Trouble<'a>>
    ensures named { IfOk result (λ input. name_and_kind input ≡ (file.now, is_start)) }
    ensures read { IfOk result (IsRead (I.gives files.now) job.now) }
{
    let bytes = files.read(file)?;
    input_of(alloc, file, bytes, job.encoding_of(is_start), is_start)
}

// Reads the opening stock, if there is one, and all files of movements.
fn inputs_of<'a, I: Inputs>(
    alloc: Global,
    files: &I,
    job: &Job<'a>,
) -> Result<Vec<Input<'a>>, Trouble<'a>>
    ensures { IfOk result (λ inputs. AreInputsOf (I.gives files.now) job.now inputs.items) }
{
    let mut inputs = Vec::new(alloc);
    if let Some(file) = job.from {
        let input = read_input(alloc, files, job, file, true)?;
        inputs.push(input).map_err(AllocError::from)?;
    }
    for file in &job.files {
        let input = read_input(alloc, files, job, *file, false)?;
        inputs.push(input).map_err(AllocError::from)?;
    }
    Ok(inputs)
}

/// Enters the files that are named into the stock of the database, all or none, and returns what the run of the subcommand writes. With
/// `--strict`, no database is made if there is a refusal.
///
/// # Errors
///
/// Why nothing is entered.
pub fn enter_named<
    'a,
    D: Alter + Drop,
    I: Inputs,
    F: Databases<Connection<D>>,
    S: BuildHasher + Copy + Drop,
    G: Stages,
>(
    alloc: Global,
    state: S,
    files: &I,
    databases: &F,
    stages: &G,
    job: &Job<'a>,
) -> Result<EnterReport, Trouble<'a>>
    // If a database was opened: all movements of all named files are booked on the balance that it had. `I.gives` says what each file contains, and
    // `F.has` what each database has.
    ensures filed { IfOk result (IsReportReady (I.gives files.now) (F.has databases.now) job.now) }

    // The status is 1 exactly if a movement is refused.
    ensures status { IfOk result (λ report. IfSome report.ready (λ ready. report.status ≡ status_after ready.filed)) }

    // If no database was opened, `strict` is set, and a movement is refused.
    ensures denied { IfOk result (λ report. report.ready ≡ None → (job.now.strict ≡ true) × (report.status ≡ 1)) }
{
    let inputs = inputs_of(alloc, files, job)?;
    let mut anew = None;
    if databases.is_new(job.db)? {
        let filed = filed_anew(alloc, state, job, &inputs, stages)?;
        if job.strict && is_refused(&filed) {
            return Ok(denied_report(alloc, job, &inputs, &filed)?);
        }
        anew = Some(filed);
    }
    stages.begin(Stage::Opening);
    let (mut conn, contents) = databases.open_or_make(job.db, job.wait)?;
    let report = report_in(
        alloc, state, job, &inputs, &mut conn, contents, anew, stages,
    )?;
    databases.close(conn);
    Ok(report)
}
