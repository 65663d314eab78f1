//! The tables of a stock.
use crate::stock::error::StockError;
use hashbag_csv::delimiter::Delimiter;
use hashbag_csv::scale::Mark;
use hashbag_ledger_lib::style::Style;
use sqlite::{Alter, Connection, params};

/// The version of the tables.
pub const VERSION: u32 = 3;

// What a stock keeps as a whole: the version, in the row `hashbag_ledger`, how its files are written, and the names of columns.
const META: &str = "CREATE TABLE meta (name TEXT PRIMARY KEY NOT NULL, value ANY NOT NULL) STRICT";

// The batches: what was entered at one time.
const BATCH: &str =
    "CREATE TABLE batch (batch INTEGER PRIMARY KEY, file TEXT NOT NULL, sha256 TEXT NOT NULL, kind TEXT NOT NULL CHECK (kind IN ('start', 'moves', 'undo', 'count')), undoes INTEGER, time TEXT NOT NULL, movements INTEGER NOT NULL CHECK (movements >= 0), refused INTEGER NOT NULL CHECK (refused BETWEEN 0 AND movements), seal TEXT NOT NULL) STRICT";

// All movements, in turn. A date has the form `2026-02-28`. The CHECK only compares, since the crate `sqlite` takes no function in a CHECK.
const MOVEMENT: &str =
    "CREATE TABLE movement (movement INTEGER PRIMARY KEY, batch INTEGER NOT NULL, line INTEGER NOT NULL, article TEXT NOT NULL, change INTEGER NOT NULL, date TEXT CHECK (date BETWEEN '0000-01-01' AND '9999-12-31'), note TEXT) STRICT";

// The movements that were refused, each with how many of its article were there.
const REFUSAL: &str =
    "CREATE TABLE refusal (movement INTEGER PRIMARY KEY, there INTEGER NOT NULL CHECK (there >= 0)) STRICT";

// The balance: each article whose number isn't 0.
const ARTICLE: &str =
    "CREATE TABLE article (article TEXT PRIMARY KEY NOT NULL, number INTEGER NOT NULL CHECK (number > 0)) STRICT";

/// The statements that create the tables.
pub static TABLES: [&str; 5] = [META, BATCH, MOVEMENT, REFUSAL, ARTICLE];

/// What a database has.
#[derive(Clone, Copy, PartialEq, Eq, Debug)]
pub enum Contents {
    /// No table.
    Empty,
    /// The tables of a stock, whose files are written in this style unless the arguments of a call say otherwise.
    Stock(Style),
}

/// Returns the name of a delimiter in the table `meta`. Options take the same name.
pub fn delimiter_name(delimiter: Delimiter) -> &'static str {
    match delimiter {
        Delimiter::Comma => ",",
        Delimiter::Semicolon => ";",
        Delimiter::Tab => "tab",
    }
}

/// Returns the name of a mark in the table `meta`. Options take the same name.
pub fn mark_name(mark: Mark) -> &'static str {
    match mark {
        Mark::Point => ".",
        Mark::Comma => ",",
    }
}

// Returns the delimiter of this name.
fn delimiter_of(name: &str) -> Result<Delimiter, StockError> {
    match name {
        "," => Ok(Delimiter::Comma),
        ";" => Ok(Delimiter::Semicolon),
        "tab" => Ok(Delimiter::Tab),
        _ => Err(StockError::Damaged("no delimiter in the table meta")),
    }
}

// Returns the mark of this name.
fn mark_of(name: &str) -> Result<Mark, StockError> {
    match name {
        "." => Ok(Mark::Point),
        "," => Ok(Mark::Comma),
        _ => Err(StockError::Damaged("no mark in the table meta")),
    }
}

/// Returns what the database has.
///
/// # Errors
///
/// - `Foreign` if the tables aren't those of a stock, `Earlier` or `Later` if they are of another version;
/// - `Damaged` if the version, the scale, the mark or the delimiter is one that no stock has, or if a table isn't as in this version;
/// - else the error of the database.
pub fn contents_of<S: Alter>(conn: &mut Connection<S>) -> Result<Contents, StockError> {
    let tables: i64 = conn
        .query_row("SELECT count(*) FROM sqlite_schema", &[])?
        .get(0)?;
    if tables == 0 {
        return Ok(Contents::Empty);
    }
    check_version(conn)?;
    Ok(Contents::Stock(style_of(conn)?))
}

// Fails unless the tables are those of a stock of this version.
fn check_version<S: Alter>(conn: &mut Connection<S>) -> Result<(), StockError> {
    let version = match number_of(conn, "hashbag_ledger") {
        Ok(Some(version)) => version,
        Ok(None) | Err(StockError::Database(sqlite::Error::SqlInputError(_))) => {
            return Err(StockError::Foreign);
        }
        Err(error) => return Err(error),
    };
    if version > i64::from(VERSION) {
        return Err(StockError::Later(version));
    }
    if version < 1 {
        return Err(StockError::Damaged("no version from 1 on in the table meta"));
    }
    if version < i64::from(VERSION) {
        return Err(StockError::Earlier(version));
    }
    if !has_columns(conn)? {
        return Err(StockError::Damaged("another version in the table meta than its tables have"));
    }
    Ok(())
}

// Returns how the files of a stock are written.
fn style_of<S: Alter>(conn: &mut Connection<S>) -> Result<Style, StockError> {
    let scale = match number_of(conn, "scale")? {
        Some(scale) if 0 <= scale && scale <= 9 => scale as u32,
        _ => return Err(StockError::Damaged("no scale from 0 to 9 in the table meta")),
    };
    Ok(Style {
        scale,
        mark: mark_of(text_of(conn, "mark")?.as_str())?,
        delimiter: delimiter_of(text_of(conn, "delimiter")?.as_str())?,
    })
}

/// Returns the names of the columns of movements that a stock keeps, with commas between them.
///
/// # Errors
///
/// `Damaged` if the stock keeps no names. Else the error of the database.
pub fn columns_of<S: Alter>(conn: &mut Connection<S>) -> Result<String, StockError> {
    text_of(conn, "columns")
}

/// Returns the names of the columns of dates and of notes that a stock keeps, or `None` for a name that it lacks.
///
/// # Errors
///
/// The error of the database.
pub fn extras_of<S: Alter>(
    conn: &mut Connection<S>,
) -> Result<(Option<String>, Option<String>), StockError> {
    Ok((text_if(conn, "date")?, text_if(conn, "note")?))
}

// Returns the number of this name in the table `meta`, or `None`.
fn number_of<S: Alter>(conn: &mut Connection<S>, name: &str) -> Result<Option<i64>, StockError> {
    let rows = conn.query_all("SELECT value FROM meta WHERE name = ?1", params![name])?;
    match rows.first() {
        Some(row) => Ok(Some(row.get(0)?)),
        None => Ok(None),
    }
}

// Returns the text of this name in the table `meta`, if there is one.
fn text_if<S: Alter>(conn: &mut Connection<S>, name: &str) -> Result<Option<String>, StockError> {
    let rows = conn.query_all("SELECT value FROM meta WHERE name = ?1", params![name])?;
    match rows.first() {
        Some(row) => Ok(Some(row.get(0)?)),
        None => Ok(None),
    }
}

// Returns the text of this name in the table `meta`.
fn text_of<S: Alter>(conn: &mut Connection<S>, name: &str) -> Result<String, StockError> {
    match text_if(conn, name)? {
        Some(text) => Ok(text),
        None => Err(StockError::Damaged("no mark, delimiter or columns in the table meta")),
    }
}

// Returns whether batches have seals and may be counts, and movements have dates, as in this version.
fn has_columns<S: Alter>(conn: &mut Connection<S>) -> Result<bool, StockError> {
    let text =
        "SELECT count(*) FROM sqlite_schema WHERE name = 'batch' AND instr(sql, 'seal TEXT') > 0 AND instr(sql, '''count''') > 0 OR name = 'movement' AND instr(sql, 'date TEXT') > 0";
    let tables: i64 = conn.query_row(text, &[])?.get(0)?;
    Ok(tables == 2)
}
