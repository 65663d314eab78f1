//! Reading a stock: its balance, its batches, its movements and its refusals.
ghost use Rattle.std.specs.Prelude.{◌≡◌, pos, [], ◌∷◌, IfOk};
ghost use Rattle.sqlite.specs.Order.{Row as SqlRow, column};
ghost use Rattle.sqlite.specs.declared.types.Value.TheVariants.{Int};
ghost use Rattle.hashbag_ledger_db.specs.Rows.{article_row, batch_row, extra_row, movement_cells, refusal_row, text, Begins};
ghost use Rattle.hashbag_ledger_lib.specs.Changes.{Rises};

use crate::stock::error::StockError;
use hashbag_ledger_lib::extras::Extra;
use hashbag_ledger_lib::movements::{Movement, Place};
use hashbag_ledger_lib::numbers::change_of;
use hashbag_ledger_lib::once::Batch;
use hashbag_ledger_lib::rows::rises;
use hashbag_ledger_lib::verifying::{KeptMovement, KeptRefusal};
use sqlite::types::ValueRef;
use sqlite::{Alter, Connection, Row, params};
use std::alloc::Global;

// Returns a number that may not be below 0.
fn nonnegative(row: &Row, at: usize) -> Result<u64, StockError>
    ensures { IfOk result (λ n. column row.now at ≡ Int (pos n)) }
{
    match row.get(at) {
        Ok(number) => Ok(number),
        Err(sqlite::Error::IntegralValueOutOfRange(_)) => Err(StockError::Damaged(
            "a number below 0",
        )),
        Err(error) => Err(StockError::from(error)),
    }
}

// Types that are read from a row of a query.
trait FromRow: Sized {
    // `is_row value row`: the row begins with what is written for the value, column by column.
    ghost is_row: { Self → SqlRow → Type 0 };

    // Returns the value of a row. The row has the columns that the query names, in turn.
    fn from_row(row: &Row) -> Result<Self, StockError>
        ensures { IfOk result (λ value. is_row value row.now) };
}

// Returns the values of the rows of a query, in turn. If rows are left after the loop, it fails: it never returns a shorter list.
fn list_of<S: Alter, R: FromRow + Drop>(
    alloc: Global,
    conn: &mut Connection<S>,
    text: &str,
    values: &[ValueRef<'_>],
) -> Result<Vec<R>, StockError> {
    let mut list = Vec::new(alloc);
    let mut rows = conn.query(text, values)?;
    for _ in 0..u64::MAX {
        let Some(row) = rows.next()? else {
            return Ok(list);
        };
        list.push(R::from_row(&row)?)?;
    }
    Err(StockError::Damaged("rows without an end"))
}

impl FromRow for (String, usize) {
    ghost is_row = { λ entry. Begins 0 (article_row entry.0 entry.1) };

    fn from_row(row: &Row) -> Result<(String, usize), StockError> {
        Ok((row.get(0)?, nonnegative(row, 1)? as usize))
    }
}

/// Returns the balance that is kept, articles in ascending order.
///
/// # Errors
///
/// `Damaged` if the rows aren't in ascending order, as in a table whose column has another collation, or if a number is below 0. Else the error
/// of the database.
pub fn balance_of<S: Alter>(
    alloc: Global,
    conn: &mut Connection<S>,
) -> Result<Vec<(String, usize)>, StockError>
    ensures rising { IfOk result (λ balance. Rises balance.items) }
{
    let text = "SELECT article, number FROM article ORDER BY article";
    let balance: Vec<(String, usize)> = list_of(alloc, conn, text, &[])?;
    if !rises(&balance) {
        return Err(StockError::Damaged("articles that don't rise in the table article"));
    }
    Ok(balance)
}

impl FromRow for Batch {
    ghost is_row = { λ batch. Begins 0 (batch_row batch) };

    fn from_row(row: &Row) -> Result<Batch, StockError> {
        Ok(Batch {
            number: row.get(0)?,
            file: row.get(1)?,
            sha256: row.get(2)?,
            kind: row.get(3)?,
            undoes: row.get(4)?,
            time: row.get(5)?,
            movements: nonnegative(row, 6)?,
            refused: nonnegative(row, 7)?,
            seal: row.get(8)?,
        })
    }
}

/// Returns all batches, in turn.
///
/// # Errors
///
/// `Damaged` if a number is below 0. Else the error of the database.
pub fn batches_of<S: Alter>(
    alloc: Global,
    conn: &mut Connection<S>,
) -> Result<Vec<Batch>, StockError> {
    let text =
        "SELECT batch, file, sha256, kind, undoes, time, movements, refused, seal FROM batch ORDER BY batch";
    list_of(alloc, conn, text, &[])
}

/// Returns the current time, in UTC, in the form that the table of batches has.
///
/// # Errors
///
/// The error of the database.
pub fn time_of<S: Alter>(conn: &mut Connection<S>) -> Result<String, StockError> {
    Ok(conn.query_row("SELECT CURRENT_TIMESTAMP", &[])?.get(0)?)
}

// Returns the movement of a row: its place, its article and its change.
fn movement_of(row: &Row) -> Result<Movement<String>, StockError>
    ensures { IfOk result (λ m. Begins 0 (Int (pos m.place.file) ∷ movement_cells m) row.now) }
{
    let place = Place {
        file: nonnegative(row, 0)? as usize,
        line: nonnegative(row, 1)?,
    };
    Ok(Movement {
        place,
        article: row.get(2)?,
        change: change_of(row.get(3)?),
    })
}

// Returns the date and the note of the movement of a row.
fn extra_of(row: &Row) -> Result<Extra, StockError>
    ensures { IfOk result (λ x. Begins 4 (extra_row x) row.now) }
{
    Ok(Extra {
        date: row.get(4)?,
        note: row.get(5)?,
    })
}

impl FromRow for (Movement<String>, Extra) {
    ghost is_row = { λ both row. Begins 0 (Int (pos both.0.place.file) ∷ movement_cells both.0) row × Begins 4 (extra_row both.1) row };

    fn from_row(row: &Row) -> Result<(Movement<String>, Extra), StockError> {
        Ok((movement_of(row)?, extra_of(row)?))
    }
}

// A movement with its day.
impl FromRow for (Movement<String>, String) {
    ghost is_row = { λ both row. Begins 0 (Int (pos both.0.place.file) ∷ movement_cells both.0) row × Begins 4 (text both.1 ∷ []) row };

    fn from_row(row: &Row) -> Result<(Movement<String>, String), StockError> {
        Ok((movement_of(row)?, row.get(4)?))
    }
}

impl FromRow for KeptMovement {
    ghost is_row = { λ kept row. Begins 0 (Int (pos kept.movement.place.file) ∷ movement_cells kept.movement) row × Begins 4 (extra_row kept.extra) row
        × Begins 6 (Int (pos kept.batch) ∷ []) row };

    fn from_row(row: &Row) -> Result<KeptMovement, StockError> {
        Ok(KeptMovement {
            movement: movement_of(row)?,
            extra: extra_of(row)?,
            batch: nonnegative(row, 6)?,
        })
    }
}

// Returns the movements that a query gives, in turn, each with its date and its note. `rest` is what follows `FROM movement m` in the query.
// `file` is the SQL expression for `place.file`.
fn movements_with_extras<S: Alter>(
    alloc: Global,
    conn: &mut Connection<S>,
    file: &str,
    rest: &str,
    values: &[ValueRef<'_>],
) -> Result<Vec<(Movement<String>, Extra)>, StockError> {
    let text = format!(in alloc;
        "SELECT {file}, m.line, m.article, m.change, m.date, m.note FROM movement m {rest} ORDER BY m.movement"
    )?;
    list_of(alloc, conn, text.as_str(), values)
}

/// The movements of a batch that were entered. Only [`entered_of`] makes one.
#[derive(Drop)]
pub struct EnteredBatch {
    batch: i64,
    movements: Vec<(Movement<String>, Extra)>,
}

impl EnteredBatch {
    /// Returns the number of the batch.
    pub fn batch(&self) -> i64
        ensures { result ≡ self.now.batch }
    {
        self.batch
    }

    /// Returns the movements, in turn, each with its date and its note. `place.file` is 0.
    pub fn movements(self) -> Vec<(Movement<String>, Extra)>
        ensures { result.items ≡ self.movements.items }
    {
        self.movements
    }
}

/// Returns the movements of a batch that were entered.
///
/// # Errors
///
/// Same as [`batches_of`].
pub fn entered_of<S: Alter>(
    alloc: Global,
    conn: &mut Connection<S>,
    batch: i64,
) -> Result<EnteredBatch, StockError>
    ensures { IfOk result (λ entered. entered.batch ≡ batch) }
{
    let rest =
        "LEFT JOIN refusal r ON r.movement = m.movement WHERE m.batch = ?1 AND r.movement IS NULL";
    let movements = movements_with_extras(alloc, conn, "0", rest, params![batch])?;
    Ok(EnteredBatch { batch, movements })
}

/// Returns all movements, in turn, each with its batch, its date and its note. `place.file` is the number of the movement.
///
/// # Errors
///
/// Same as [`batches_of`].
pub fn movements_of<S: Alter>(
    alloc: Global,
    conn: &mut Connection<S>,
) -> Result<Vec<KeptMovement>, StockError> {
    let text =
        "SELECT m.movement, m.line, m.article, m.change, m.date, m.note, m.batch FROM movement m ORDER BY m.movement";
    list_of(alloc, conn, text, &[])
}

/// Returns all movements, in turn, each with its day: its date, else the day on which its batch was entered. `place.file` is the number of
/// the movement.
///
/// # Errors
///
/// Same as [`batches_of`].
pub fn dated_movements_of<S: Alter>(
    alloc: Global,
    conn: &mut Connection<S>,
) -> Result<Vec<(Movement<String>, String)>, StockError> {
    let text =
        "SELECT m.movement, m.line, m.article, m.change, coalesce(m.date, substr(b.time, 1, 10)) FROM movement m LEFT JOIN batch b ON b.batch = m.batch ORDER BY m.movement";
    list_of(alloc, conn, text, &[])
}

impl FromRow for KeptRefusal {
    ghost is_row = { λ refusal. Begins 0 (refusal_row refusal.movement refusal.there) };

    fn from_row(row: &Row) -> Result<KeptRefusal, StockError> {
        Ok(KeptRefusal {
            movement: nonnegative(row, 0)? as usize,
            there: nonnegative(row, 1)? as usize,
        })
    }
}

/// Returns all refusals, in turn.
///
/// # Errors
///
/// Same as [`batches_of`].
pub fn refusals_of<S: Alter>(
    alloc: Global,
    conn: &mut Connection<S>,
) -> Result<Vec<KeptRefusal>, StockError> {
    list_of(
        alloc,
        conn,
        "SELECT movement, there FROM refusal ORDER BY movement",
        &[],
    )
}

/// Returns the movements of this batch and of the batches before it, in turn, each with its date and its note. `place.file` is the number of
/// the batch.
///
/// # Errors
///
/// Same as [`batches_of`].
pub fn movements_until<S: Alter>(
    alloc: Global,
    conn: &mut Connection<S>,
    batch: i64,
) -> Result<Vec<(Movement<String>, Extra)>, StockError> {
    let rest = "WHERE m.batch <= ?1";
    movements_with_extras(alloc, conn, "m.batch", rest, params![batch])
}

/// Returns the movements of an article, in turn, each with its date and its note. `place.file` is the number of the batch.
///
/// # Errors
///
/// Same as [`batches_of`].
pub fn movements_of_article<S: Alter>(
    alloc: Global,
    conn: &mut Connection<S>,
    article: &str,
) -> Result<Vec<(Movement<String>, Extra)>, StockError> {
    let rest = "WHERE m.article = ?1";
    movements_with_extras(alloc, conn, "m.batch", rest, params![article])
}
