//! Statements that are run in one transaction: all, or none.
ghost use Rattle.std.specs.Prelude.{◌≡◌, List, true, is_ok, OnOk, pos, IfOk};
ghost use Rattle.sqlite.specs.Held.{state};
ghost use Rattle.sqlite.specs.State.{HasCleanDisk};
ghost use Rattle.sqlite.specs.Value.{owned};
ghost use Rattle.sqlite.specs.Values.{bound, bound_value};
ghost use Rattle.sqlite.specs.declared.types.Value.TheVariants.{Int, Text};
ghost use Rattle.hashbag_ledger_db.specs.Commits.{IsInside, IsOneCommit, IsStep, RunsAll};
ghost use Rattle.hashbag_ledger_db.specs.Rows.{batch_row, number_at, number_if, refusal_row, text, text_if};
ghost use Rattle.hashbag_ledger_db.specs.Statements.{AreRunsOf, HasAllExtras, Run, added, changed, insert_batch, insert_refusal, run_of, runs_of};

use crate::stock::error::{StockError, TOO_LARGE};
use crate::stock::statements::{NewMovement, NewRows, NewStock, Statement, statements_of};
use hashbag_ledger_lib::movements::Change;
use hashbag_ledger_lib::numbers::{number_of, signed};
use hashbag_ledger_lib::once::Batch;
use hashbag_ledger_lib::rows::RowChange;
use sqlite::types::ValueRef;
use sqlite::{Alter, Connection, Transaction};
use std::alloc::Global;

// Returns a number as a value of a row.
fn number<'a>(number: usize) -> Result<ValueRef<'a>, StockError>
    ensures { IfOk result (λ v. bound_value (owned v) ≡ Int (pos number)) }
{
    match signed(number) {
        Some(number) => Ok(ValueRef::Int(number)),
        None => Err(StockError::Damaged(TOO_LARGE)),
    }
}

// Returns a change as a value of a row: below 0 for `Out`.
fn change<'a>(change: Change) -> Result<ValueRef<'a>, StockError>
    ensures { IfOk result (λ v. bound_value (owned v) ≡ Int (number_at change)) }
{
    match number_of(change) {
        Some(number) => Ok(ValueRef::Int(number)),
        None => Err(StockError::Damaged(TOO_LARGE)),
    }
}

// Returns a number with a sign, which may be missing, as a value of a row.
fn signed_if<'a>(number: Option<i64>) -> ValueRef<'a>
    ensures { bound_value (owned result) ≡ number_if number }
{
    match number {
        Some(number) => ValueRef::Int(number),
        None => ValueRef::Null,
    }
}

// Returns a small number as a value of a row.
fn whole<'a>(number: u32) -> ValueRef<'a>
    ensures { bound_value (owned result) ≡ Int (pos number) }
{
    ValueRef::Int(i64::from(number))
}

// Returns a text as a value of a row.
fn word(text: &str) -> ValueRef<'_>
    ensures { bound_value (owned result) ≡ Text text.now }
{
    ValueRef::Text(text.as_bytes())
}

// Returns a text that is kept as a value of a row.
fn string(kept: &String) -> ValueRef<'_>
    ensures { bound_value (owned result) ≡ text kept.now }
{
    ValueRef::Text(kept.as_bytes())
}

// Returns a text that may be missing as a value of a row.
fn word_if(text: &Option<String>) -> ValueRef<'_>
    ensures { bound_value (owned result) ≡ text_if text.now }
{
    match text {
        Some(text) => ValueRef::Text(text.as_bytes()),
        None => ValueRef::Null,
    }
}

// Runs a statement of this text and these parameters inside the transaction.
fn execute<S: Alter>(
    transaction: &mut Transaction<'_, S>,
    text: &str,
    values: &[ValueRef<'_>],
) -> Result<(), StockError>
    ensures same_connection { transaction.new.conn.ghost_name ≡ transaction.old.conn.ghost_name }
    ensures step { IsStep S.Store (is_ok result) (text.now, bound values.now) transaction.old.conn.now transaction.new.conn.now }
{
    transaction.execute(text, values)?;
    Ok(())
}

// Writes the row of a batch.
fn write_batch<S: Alter>(
    transaction: &mut Transaction<'_, S>,
    row: &Batch,
) -> Result<(), StockError>
    ensures same_connection { transaction.new.conn.ghost_name ≡ transaction.old.conn.ghost_name }
    ensures step { IsStep S.Store (is_ok result) (insert_batch, batch_row row.now) transaction.old.conn.now transaction.new.conn.now }
{
    let movements = number(row.movements as usize)?;
    let refused = number(row.refused as usize)?;
    let values = &[
        ValueRef::Int(row.number),
        string(&row.file),
        string(&row.sha256),
        string(&row.kind),
        signed_if(row.undoes),
        string(&row.time),
        movements,
        refused,
        string(&row.seal),
    ];
    let text =
        "INSERT INTO batch (batch, file, sha256, kind, undoes, time, movements, refused, seal) VALUES (?1, ?2, ?3, ?4, ?5, ?6, ?7, ?8, ?9)";
    execute(transaction, text, values)
}

// Writes a movement, with its date and its note if it may have them.
fn write_movement<S: Alter>(
    transaction: &mut Transaction<'_, S>,
    new: NewMovement<'_>,
) -> Result<(), StockError>
    ensures same_connection { transaction.new.conn.ghost_name ≡ transaction.old.conn.ghost_name }
    ensures step { IsStep S.Store (is_ok result) (added new.entry) transaction.old.conn.now transaction.new.conn.now }
{
    let movement = new.movement;
    let own = number(new.number as usize)?;
    let batch = ValueRef::Int(new.batch);
    let line = number(movement.place.line as usize)?;
    let article = string(&movement.article);
    let change = change(movement.change)?;
    match new.extra {
        Some(extra) => execute(
            transaction,
            "INSERT INTO movement (movement, batch, line, article, change, date, note) VALUES (?1, ?2, ?3, ?4, ?5, ?6, ?7)",
            &[
                own,
                batch,
                line,
                article,
                change,
                word_if(&extra.date),
                word_if(&extra.note),
            ],
        ),
        None => execute(
            transaction,
            "INSERT INTO movement (movement, batch, line, article, change) VALUES (?1, ?2, ?3, ?4, ?5)",
            &[own, batch, line, article, change],
        ),
    }
}

// Writes the refusal of the movement of this number, with how many of its article there were.
fn write_refusal<S: Alter>(
    transaction: &mut Transaction<'_, S>,
    movement: u64,
    there: usize,
) -> Result<(), StockError>
    ensures same_connection { transaction.new.conn.ghost_name ≡ transaction.old.conn.ghost_name }
    ensures step { IsStep S.Store (is_ok result) (insert_refusal, refusal_row movement there) transaction.old.conn.now transaction.new.conn.now }
{
    let movement = number(movement as usize)?;
    let there = number(there)?;
    execute(
        transaction,
        "INSERT INTO refusal (movement, there) VALUES (?1, ?2)",
        &[movement, there],
    )
}

// Changes a row of the balance.
fn write_row<S: Alter>(
    transaction: &mut Transaction<'_, S>,
    change: &RowChange,
) -> Result<(), StockError>
    ensures same_connection { transaction.new.conn.ghost_name ≡ transaction.old.conn.ghost_name }
    ensures step { IsStep S.Store (is_ok result) (changed change.now) transaction.old.conn.now transaction.new.conn.now }
{
    match change {
        RowChange::Put(article, there) => {
            let there = number(*there)?;
            execute(
                transaction,
                "INSERT OR REPLACE INTO article (article, number) VALUES (?1, ?2)",
                &[string(article), there],
            )
        }
        RowChange::Remove(article) => execute(
            transaction,
            "DELETE FROM article WHERE article = ?1",
            &[string(article)],
        ),
    }
}

// Runs a statement inside the transaction.
fn run<S: Alter>(
    transaction: &mut Transaction<'_, S>,
    statement: Statement<'_>,
) -> Result<(), StockError>
    ensures same_connection { transaction.new.conn.ghost_name ≡ transaction.old.conn.ghost_name }
    ensures step { IsStep S.Store (is_ok result) (run_of statement.entry) transaction.old.conn.now transaction.new.conn.now }
{
    let keep = "INSERT INTO meta (name, value) VALUES (?1, ?2)";
    match statement {
        Statement::Create(text) => execute(transaction, text, &[]),
        Statement::KeepNumber(name, number) => execute(
            transaction,
            keep,
            &[word(name), whole(number)],
        ),
        Statement::Keep(name, text) => execute(transaction, keep, &[word(name), word(text)]),
        Statement::Batch(row) => write_batch(transaction, row),
        Statement::Movement(new) => write_movement(transaction, new),
        Statement::Refusal(number, there) => write_refusal(transaction, number, there),
        Statement::Row(change) => write_row(transaction, change),
    }
}

// Runs these statements, in turn.
fn run_all<S: Alter>(
    transaction: &mut Transaction<'_, S>,
    statements: &[Statement<'_>],
) -> Result<(), StockError>
    ensures same_connection { transaction.new.conn.ghost_name ≡ transaction.old.conn.ghost_name }
    ensures inside { IsInside (state S.Store transaction.old.conn.now) (state S.Store transaction.new.conn.now) }
    ensures ran { HasCleanDisk (state S.Store transaction.new.conn.now) → OnOk result (RunsAll S.Store (runs_of statements.now) transaction.old.conn.now transaction.new.conn.now) }
{
    for statement in statements {
        run(transaction, *statement)?;
    }
    Ok(())
}

/// Runs these statements, in turn, in one transaction.
///
/// # Errors
///
/// Why a statement or the commit fails. `Damaged` if a transaction is open, or if a number is past 2^63-1. Then nothing is written.
pub fn put_all<S: Alter>(
    conn: &mut Connection<S>,
    statements: &[Statement<'_>],
) -> Result<(), StockError>
    // If the disk doesn't fail: after `Ok` what these statements make is committed; after `Err` nothing is, if the connection is still open. A crash
    // leaves what it could leave before, or this content.
    ensures commit { IsOneCommit S.Store (runs_of statements.now) conn.old conn.new (is_ok result) }
{
    if !conn.is_autocommit() {
        return Err(StockError::Damaged("a transaction is open"));
    }
    let mut transaction = conn.transaction();
    run_all(&mut transaction, statements)?;
    transaction.commit()?;
    Ok(())
}

// Returns whether there are dates and notes of all movements, or of none.
fn has_all_extras(new: &NewRows<'_>) -> bool
    ensures { result ≡ true → HasAllExtras new.now }
{
    new.extras.is_empty() || new.extras.len() == new.entries.len()
}

/// Writes the batches of one run, and the changes of the rows of the balance, in one transaction. With `new_stock` the tables of a stock
/// are created first, in the same transaction.
///
/// # Errors
///
/// Why a statement or the commit fails. `Damaged` if a transaction is open, if a number is past 2^63-1, or if there are dates and notes, but
/// fewer or more than movements. Then nothing is written.
pub fn put_batches<S: Alter>(
    alloc: Global,
    conn: &mut Connection<S>,
    new_stock: Option<NewStock<'_>>,
    new: NewRows<'_>,
) -> Result<(), StockError>
    // If the disk doesn't fail: after `Ok` one new content is committed, and the statements of `new` made it; after `Err` nothing is, if the connection
    // is still open. A crash leaves what it could leave before, or this content.
    ensures commit { (runs : List Run) × (is_ok result ≡ true → AreRunsOf new_stock.entry new.entry runs) × IsOneCommit S.Store runs conn.old conn.new (is_ok result) }

    // There are no dates and notes, or as many as movements. So no movement gets the date or the note of another one.
    ensures extras { OnOk result (HasAllExtras new.entry) }
{
    if !has_all_extras(&new) {
        return Err(StockError::Damaged("not as many dates and notes as movements"));
    }
    let statements = statements_of(alloc, new_stock, new)?;
    put_all(conn, &statements)
}
