//! The seal of a batch. A wrong seal shows what counting the movements again can't show: that the name of a file, a line, a time, a date, a
//! note or the scale was changed.
ghost use Rattle.std.specs.Prelude.{◌≡◌, ℕ, ◌↔◌, List, Option, take, drop, string_bytes, IfOk, IsNone, IsTrue};
ghost use Rattle.hex.specs.Hex.{encode_lower};
ghost use Rattle.sha2.specs.Hashers.{Holds256};
ghost use Rattle.sha2.specs.Sha256.{sha256};
ghost use Rattle.hashbag_ledger_lib.specs.Seals.{with_number, with_text, with_option, with_change, with_movement, with_movements, with_maybe, with_extra, with_extras, with_head, with_source, with_counts, seal_of, IsRowOf, IsSealed, AreRowsOf, AreSealed};

use crate::extras::Extra;
use crate::ledger::booking::count_refused;
use crate::movements::{Change, Entry, Movement};
use crate::numbers::plain_change;
use crate::once::{Batch, Kind};
use sha2::{Digest, Sha256};
use std::alloc::{AllocError, Global};

/// What is known of a batch before its refusals are counted and its seal is computed.
#[derive(Clone, Copy)]
pub struct Draft<'a> {
    /// The number of the batch.
    pub number: i64,
    /// The name of the file.
    pub file: &'a str,
    /// The SHA-256 of the bytes of the file, in hexadecimal digits; empty if the batch has no file.
    pub sha256: &'a str,
    /// The kind of the batch.
    pub kind: Kind,
    /// When the batch is entered, in UTC.
    pub time: &'a str,
    /// How many movements the batch has.
    pub movements: u64,
}

/// Returns the SHA-256 of bytes, in hexadecimal digits.
///
/// # Errors
///
/// An allocation fails.
pub fn digest_of(alloc: Global, bytes: &[u8]) -> Result<String, AllocError>
    ensures { IfOk result (λ digits. string_bytes digits ≡ encode_lower (sha256 bytes.now)) }
{
    hex::encode(alloc, Sha256::digest(bytes))
}

// Adds a number to the message of a hasher. In the clauses of these functions, `m` is the message before.
fn add_number(hasher: &mut Sha256, number: u64)
    ensures { (m : List ℕ) → Holds256 hasher.old m → Holds256 hasher.new (with_number m number) }
{
    hasher.update(number.to_le_bytes());
}

// Adds a text, its length first.
fn add_text(hasher: &mut Sha256, text: &str)
    ensures { (m : List ℕ) → Holds256 hasher.old m → Holds256 hasher.new (with_text m text.now) }
{
    add_number(hasher, text.len() as u64);
    hasher.update(text);
}

// Adds a number that may be missing.
fn add_option(hasher: &mut Sha256, number: Option<i64>)
    ensures { (m : List ℕ) → Holds256 hasher.old m → Holds256 hasher.new (with_option m number) }
{
    match number {
        Some(number) => {
            add_number(hasher, 1);
            add_number(hasher, number.cast_unsigned());
        }
        None => add_number(hasher, 0),
    }
}

// Adds a change.
fn add_change(hasher: &mut Sha256, change: Change)
    ensures { (m : List ℕ) → Holds256 hasher.old m → Holds256 hasher.new (with_change m change) }
{
    match change {
        Change::In(n) => {
            add_number(hasher, 0);
            add_number(hasher, n as u64);
        }
        Change::Out(n) => {
            add_number(hasher, 1);
            add_number(hasher, n as u64);
        }
    }
}

// Adds a movement.
fn add_movement(hasher: &mut Sha256, movement: &Movement<String>)
    ensures { (m : List ℕ) → Holds256 hasher.old m → Holds256 hasher.new (with_movement m movement.now) }
{
    add_number(hasher, movement.place.line);
    add_text(hasher, movement.article.as_str());
    add_change(hasher, plain_change(movement.change));
}

// Adds movements in turn.
fn add_movements(hasher: &mut Sha256, entries: &[Entry<String>])
    ensures { (m : List ℕ) → Holds256 hasher.old m → Holds256 hasher.new (with_movements m entries.now) }
{
    for entry in entries {
        add_movement(hasher, &entry.movement);
    }
}

// Adds a text that may be missing.
fn add_maybe(hasher: &mut Sha256, text: &Option<String>)
    ensures { (m : List ℕ) → Holds256 hasher.old m → Holds256 hasher.new (with_maybe m text.now) }
{
    match text {
        Some(text) => {
            add_number(hasher, 1);
            add_text(hasher, text.as_str());
        }
        None => add_number(hasher, 0),
    }
}

// Adds the number of a movement, its date and its note, if the movement has a date or a note.
fn add_extra(hasher: &mut Sha256, number: u64, extra: &Extra)
    ensures { (m : List ℕ) → Holds256 hasher.old m → Holds256 hasher.new (with_extra m number extra.now) }
{
    if extra.date.is_none() && extra.note.is_none() {
        return;
    }
    add_number(hasher, number);
    add_maybe(hasher, &extra.date);
    add_maybe(hasher, &extra.note);
}

// Adds the dates and the notes of movements in turn.
fn add_extras(hasher: &mut Sha256, extras: &[Extra])
    ensures { (m : List ℕ) → Holds256 hasher.old m → Holds256 hasher.new (with_extras m 0 extras.now) }
{
    for i in 0..extras.len() {
        add_extra(hasher, i as u64, &extras[i]);
    }
}

// Adds the scale of the stock, and the number of a batch.
fn add_head(hasher: &mut Sha256, scale: u32, batch: &Batch)
    ensures { (m : List ℕ) → Holds256 hasher.old m → Holds256 hasher.new (with_head m scale batch.now) }
{
    add_number(hasher, scale as u64);
    add_option(hasher, Some(batch.number));
}

// Adds where a batch comes from: the file, its SHA-256, and the kind.
fn add_source(hasher: &mut Sha256, batch: &Batch)
    ensures { (m : List ℕ) → Holds256 hasher.old m → Holds256 hasher.new (with_source m batch.now) }
{
    add_text(hasher, batch.file.as_str());
    add_text(hasher, batch.sha256.as_str());
    add_text(hasher, batch.kind.as_str());
}

// Adds the rest of the row of a batch: which batch it undoes, its time, and how many movements and refusals it has.
fn add_counts(hasher: &mut Sha256, batch: &Batch)
    ensures { (m : List ℕ) → Holds256 hasher.old m → Holds256 hasher.new (with_counts m batch.now) }
{
    add_option(hasher, batch.undoes);
    add_text(hasher, batch.time.as_str());
    add_number(hasher, batch.movements);
    add_number(hasher, batch.refused);
}

// Returns the seal of a batch, in a stock whose numbers have `scale` decimals.
fn seal_for(
    alloc: Global,
    scale: u32,
    batch: &Batch,
    entries: &[Entry<String>],
    extras: &[Extra],
) -> Result<String, AllocError>
    ensures { IfOk result (λ seal. string_bytes seal ≡ seal_of scale batch.now entries.now extras.now) }
{
    let mut hasher = Sha256::new();
    add_head(&mut hasher, scale, batch);
    add_source(&mut hasher, batch);
    add_counts(&mut hasher, batch);
    add_movements(&mut hasher, entries);
    add_extras(&mut hasher, extras);
    hex::encode(alloc, hasher.finalize())
}

// Returns the row of a batch with these entries, dates and notes, in a stock whose numbers have `scale` decimals.
fn row_of(
    alloc: Global,
    scale: u32,
    draft: Draft<'_>,
    entries: &[Entry<String>],
    extras: &[Extra],
) -> Result<Batch, AllocError>
    ensures { IfOk result (IsRowOf scale draft.entry entries.now extras.now) }
{
    let mut row = Batch {
        number: draft.number,
        file: String::from_str(alloc, draft.file)?,
        sha256: String::from_str(alloc, draft.sha256)?,
        kind: String::from_str(alloc, draft.kind.name())?,
        undoes: draft.kind.undoes(),
        time: String::from_str(alloc, draft.time)?,
        movements: entries.len() as u64,
        refused: count_refused(entries) as u64,
        seal: String::new(alloc),
    };
    row.seal = seal_for(alloc, scale, &row, entries, extras)?;
    Ok(row)
}

// Returns whether the seal of a batch is right for its row, these entries, and these dates and notes.
fn is_sealed(
    alloc: Global,
    scale: u32,
    batch: &Batch,
    entries: &[Entry<String>],
    extras: &[Extra],
) -> Result<bool, AllocError>
    ensures { IfOk result (λ same. IsTrue same ↔ IsSealed scale batch.now entries.now extras.now) }
{
    let seal = seal_for(alloc, scale, batch, entries, extras)?;
    Ok(batch.seal.as_str() == seal.as_str())
}

/// Returns the first `count` elements of a list, or all, and the elements after them.
pub fn cut<T>(list: &[T], count: u64) -> (&[T], &[T])
    // `take count list`: the first `count` elements, or all. `drop count list`: the elements after them.
    ensures own { result.0.now ≡ take count list.now }
    ensures later { result.1.now ≡ drop count list.now }
{
    let count = count as usize;
    if count < list.len() {
        return list.split_at(count);
    }
    (list, &[])
}

/// Returns the rows of batches with their seals, in turn, in a stock whose numbers have `scale` decimals. `entries` are the entries of all
/// batches, in turn: each batch has as many as its draft says, or all that are left if there are fewer. `extras` are the dates and the notes of
/// the same movements; the list may be empty if no movement has a date or a note.
///
/// # Errors
///
/// An allocation fails.
pub fn sealed_rows(
    alloc: Global,
    scale: u32,
    drafts: &[Draft<'_>],
    entries: &[Entry<String>],
    extras: &[Extra],
) -> Result<Vec<Batch>, AllocError>
    // Each batch has the next entries, as many as its draft says, and their dates and notes. Its row has the fields of the draft, how many
    // movements and refusals the batch has, and the seal of the row, the entries, the dates and the notes.
    ensures rows { IfOk result (λ rows. AreRowsOf scale drafts.now entries.now extras.now rows.items) }

    // So each seal is right for its row and the next entries, as many as the row says, and their dates and notes: `wrong_seal` finds none.
    ensures sealed { IfOk result (λ rows. AreSealed scale rows.items entries.now extras.now) }
{
    let mut rows = Vec::new(alloc);
    let mut left = entries;
    let mut left_extras = extras;
    for draft in drafts {
        let (own, later) = cut(left, draft.movements);
        let (own_extras, later_extras) = cut(left_extras, own.len() as u64);
        let row = row_of(alloc, scale, *draft, own, own_extras)?;
        rows.push(row)?;
        left = later;
        left_extras = later_extras;
    }
    Ok(rows)
}

/// Returns the number of the first batch whose seal is wrong for its row and its movements, or `None` if each seal is right. `entries` are
/// the entries of all batches, in turn, and `extras` the dates and notes of the same movements.
///
/// # Errors
///
/// An allocation fails.
pub fn wrong_seal(
    alloc: Global,
    scale: u32,
    batches: &[Batch],
    entries: &[Entry<String>],
    extras: &[Extra],
) -> Result<Option<i64>, AllocError>
    // `AreSealed`: the seal of each batch is right for its row and the next entries, as many as its row says, and their dates and notes.
    ensures { IfOk result (λ wrong. IsNone wrong ↔ AreSealed scale batches.now entries.now extras.now) }
{
    let (mut rest, mut left, mut left_extras) = (batches, entries, extras);
    'batches: while let Some((batch, others)) = rest.split_first() {
        let (own, later) = cut(left, batch.movements);
        let (own_extras, later_extras) = cut(left_extras, batch.movements);
        if !is_sealed(alloc, scale, batch, own, own_extras)? {
            return Ok(Some(batch.number));
        }
        (rest, left, left_extras) = (others, later, later_extras);
    }
    Ok(None)
}
