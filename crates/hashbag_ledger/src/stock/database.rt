//! The file of a database.
ghost use Rattle.std.specs.Prelude.{⊤};

use crate::outputs::is_same;
use crate::stock::stages::HostStages;
use hashbag_ledger_db::files::Databases;
use hashbag_ledger_db::job::Job;
use hashbag_ledger_db::putting::in_database;
use hashbag_ledger_db::stages::{Stage, Stages};
use hashbag_ledger_db::stock::error::StockError;
use hashbag_ledger_db::stock::tables::{Contents, contents_of};
use hashbag_ledger_db::troubles::{no_file, no_stock, of_stock};
use hashbag_ledger_lib::style::Style;
use hashbag_shell::trouble::Trouble;
use sqlite::{Connection, Error, ErrorCode, File, FileStore};
use std::io::ErrorKind;
use std::time::Duration;
use std::{fs, thread};

/// A database in a file.
pub type Db = Connection<FileStore<File>>;

// How many milliseconds pass before a file that is in use is tried again.
const PAUSE: u64 = 50;

// How many pauses a second has.
const TRIES: usize = 20;

// Returns whether a file has no byte, or doesn't exist.
fn is_blank(rt: &HostRuntime, name: &str) -> bool {
    match fs::metadata(rt, name) {
        Ok(found) => found.is_file() && found.len() == 0,
        Err(error) => error.kind() == ErrorKind::NotFound,
    }
}

/// Returns whether there is no database of this name: both its file and its log are absent or empty.
///
/// # Errors
///
/// A failed allocation.
pub fn is_new<'a>(rt: &HostRuntime, db: &str) -> Result<bool, Trouble<'a>> {
    let log = format!(in rt.alloc(); "{db}-wal")?;
    Ok(is_blank(rt, db) && is_blank(rt, log.as_str()))
}

/// Returns whether a name is of the database, or of a file that SQLite keeps next to it.
///
/// # Errors
///
/// A failed allocation.
pub fn is_of_database<'a>(rt: &HostRuntime, db: &str, name: &str) -> Result<bool, Trouble<'a>> {
    for end in ["", "-wal", "-shm", "-journal"] {
        let file = format!(in rt.alloc(); "{db}{end}")?;
        if is_same(rt, file.as_str(), name) {
            return Ok(true);
        }
    }
    Ok(false)
}

// Opens a file, and tries again for `wait` seconds while another process has it open.
fn open_at<'a>(rt: &HostRuntime, db: &'a str, wait: usize) -> Result<Db, Trouble<'a>> {
    let tries = wait.saturating_mul(TRIES);
    for i in 0..u64::MAX {
        match Connection::open(rt, db) {
            Ok(conn) => return Ok(conn),
            Err(Error::SqliteFailure(ErrorCode::DatabaseBusy)) if i < tries as u64 => {
                thread::sleep(rt, Duration::from_millis(PAUSE));
            }
            Err(error) => return Err(of_stock(rt.alloc(), db, StockError::from(error))),
        }
    }
    Err(of_stock(rt.alloc(), db, StockError::Busy))
}

/// Opens the database of a stock, or makes it, and returns what it has.
///
/// # Errors
///
/// Why it can't be opened as the database of a stock.
pub fn open_or_make<'a>(
    rt: &HostRuntime,
    db: &'a str,
    wait: usize,
) -> Result<(Db, Contents), Trouble<'a>> {
    let mut conn = open_at(rt, db, wait)?;
    match in_database(rt.alloc(), db, contents_of(&mut conn)) {
        Ok(contents) => Ok((conn, contents)),
        Err(trouble) => {
            abandon(conn);
            Err(trouble)
        }
    }
}

/// Opens the database of a stock, and returns the style of the stock.
///
/// # Errors
///
/// That there is no such file, or no stock in it, or why the file can't be opened.
pub fn open<'a>(
    rt: &HostRuntime,
    stages: &HostStages<'_>,
    job: &Job<'a>,
) -> Result<(Db, Style), Trouble<'a>> {
    let db = job.db;
    if is_new(rt, db)? {
        return Err(match fs::metadata(rt, db) {
            Ok(_) => no_stock(rt.alloc(), db),
            Err(_) => no_file(rt.alloc(), db),
        });
    }
    stages.begin(Stage::Opening);
    let (conn, contents) = open_or_make(rt, db, job.wait)?;
    match contents {
        Contents::Stock(style) => Ok((conn, style)),
        Contents::Empty => {
            close(conn);
            Err(no_stock(rt.alloc(), db))
        }
    }
}

// Leaves a database as it is: its log isn't copied into it.
fn abandon(conn: Db) {
    let _ = conn;
}

/// If `done` is `Ok`, closes the database, else leaves it as it is. Returns `done`.
///
/// # Errors
///
/// The error in `done`.
pub fn ended<'a, T>(conn: Db, done: Result<T, Trouble<'a>>) -> Result<T, Trouble<'a>> {
    if done.is_ok() {
        close(conn);
    } else {
        abandon(conn);
    }
    done
}

/// Closes a database. If its log can't be copied into it, the log stays, and a later process copies it.
pub fn close(conn: Db) {
    let _ = conn.close();
}

/// The databases that the system has.
#[derive(Drop)]
pub struct HostDatabases<'s> {
    /// The system.
    pub rt: &'s HostRuntime,
}

impl Databases<Db> for HostDatabases<'_> {
    // No contract of the system says what a database has, so this is true of all contents.
    ghost has = { λ _ _ _. ⊤ };

    fn is_new<'a>(&self, db: &'a str) -> Result<bool, Trouble<'a>> {
        is_new(self.rt, db)
    }

    fn open_or_make<'a>(&self, db: &'a str, wait: usize) -> Result<(Db, Contents), Trouble<'a>> {
        open_or_make(self.rt, db, wait)
    }

    fn close(&self, conn: Db) {
        close(conn);
    }
}
