//! The batch that is asked for, by its number or the name of its file.
use crate::job::Job;
use crate::troubles::no_batch;
use hashbag_ledger_lib::once::{Batch, batch_of, undone_by};
use hashbag_shell::trouble::Trouble;
use std::alloc::Global;

// Returns whether a batch is no undo and wasn't undone.
fn is_done(batches: &[Batch], batch: &Batch) -> bool {
    batch.undoes.is_none() && undone_by(batches, batch.number).is_none()
}

// Returns the last batch that is no undo and wasn't undone.
fn last_of(batches: &[Batch]) -> Option<&Batch> {
    let mut last = None;
    for batch in batches {
        if is_done(batches, batch) {
            last = Some(batch);
        }
    }
    last
}

// Returns the last batch of a file that wasn't undone. If all were undone, returns the first.
fn batch_of_file<'b>(batches: &'b [Batch], file: &str) -> Option<&'b Batch> {
    let mut found = None;
    for batch in batches {
        if batch.file.as_str() == file && batch.undoes.is_none() {
            let is_undone = undone_by(batches, batch.number).is_some();
            if found.is_none() || !is_undone {
                found = Some(batch);
            }
        }
    }
    found
}

// Returns the last component of a path.
fn base_of(path: &str) -> &str {
    path.rsplit_once('/').map_or(path, |parts| parts.1)
}

// Finds the batches whose file has the same last component, and that are no undo and weren't undone. Returns how many there are, and the last
// of them.
fn near_to<'b>(batches: &'b [Batch], file: &str) -> (usize, Option<&'b Batch>) {
    let (mut count, mut last) = (0usize, None);
    for batch in batches {
        if is_done(batches, batch) && base_of(batch.file.as_str()) == base_of(file) {
            count = count.saturating_add(1);
            last = Some(batch);
        }
    }
    (count, last)
}

// Returns whether a path names a file in this folder: `a.csv` or `./a.csv`.
fn is_bare(path: &str) -> bool {
    base_of(path) == path.strip_prefix("./").unwrap_or(path)
}

// Returns the batch of the file of this name. If there is none, returns the only batch whose file has the same last component, if this name or
// the name of that file has no folder.
fn batch_named<'a, 'b>(
    alloc: Global,
    db: &str,
    batches: &'b [Batch],
    file: &str,
) -> Result<&'b Batch, Trouble<'a>> {
    if let Some(batch) = batch_of_file(batches, file) {
        return Ok(batch);
    }
    match near_to(batches, file) {
        (1, Some(batch)) if is_bare(file) || is_bare(batch.file.as_str()) => Ok(batch),
        (_, near) => Err(no_batch(alloc, db, file, near)),
    }
}

/// Returns the batch that is asked for.
///
/// # Errors
///
/// `Other` if there is none.
pub(crate) fn wanted_of<'a, 'b>(
    alloc: Global,
    job: &Job<'a>,
    batches: &'b [Batch],
) -> Result<&'b Batch, Trouble<'a>> {
    let (wanted, name) = match job.wanted_batch {
        None => (last_of(batches), "to undo"),
        Some(name) => match name.parse::<i64>() {
            Ok(number) => (batch_of(batches, number), name),
            Err(_) => return batch_named(alloc, job.db, batches, name),
        },
    };
    match wanted {
        Some(batch) => Ok(batch),
        None => Err(no_batch(alloc, job.db, name, None)),
    }
}
