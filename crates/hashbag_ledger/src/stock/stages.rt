//! The stages of a subcommand, reported on standard error.
use hashbag_csv::escaped::Escaped;
use hashbag_ledger_db::stages::{Stage, Stages};
use hashbag_shell::progress::Reports;
use std::alloc::{AllocError, Global};
use std::cell::Cell;
use std::fs;
use std::io::IsTerminal;
use std::time::{Duration, Instant};

// How many characters of the database's name a terminal shows.
const MOST_CHARS: usize = 20;

// If the database has this many bytes or more, the work takes long: a stage is then shown as soon as it begins.
const LARGE: u64 = 1 << 25;

// If this many movements or more are booked, the work takes long too.
const MANY: usize = 200_000;

// Puts the cursor of a terminal at the beginning of its line, and erases the line.
const ERASE: &str = "\r\x1b[K";

/// The stages of a subcommand. A terminal shows one stage at a time, and none if the work is short.
#[derive(Drop)]
pub struct HostStages<'s> {
    rt: &'s HostRuntime,
    db: &'s str,
    // When the work began. `None` if it isn't reported.
    start: Option<Instant>,
    overwrites: bool,
    // Whether the work takes long.
    is_large: Cell<bool>,
    // Whether a terminal shows a stage.
    is_shown: Cell<bool>,
}

// Returns whether an input is typed on a terminal.
fn is_typed(rt: &HostRuntime, names: &[&str]) -> bool {
    names.iter().any(|name| *name == "-") && rt.stdin().is_terminal()
}

// Returns the first 20 characters of the last component of a path.
fn short_name(alloc: Global, name: &str) -> Result<String, AllocError> {
    let last = name.rsplit_once('/').map_or(name, |parts| parts.1);
    let mut short = String::new(alloc);
    for c in last.chars().take(MOST_CHARS) {
        short.push(c)?;
    }
    Ok(short)
}

// Returns the text of a stage.
fn text_of(alloc: Global, db: &str, stage: Stage) -> Result<String, AllocError> {
    let short = short_name(alloc, db)?;
    let db = Escaped(short.as_str());
    match stage {
        Stage::Opening => format!(in alloc; "{db}: opening"),
        Stage::Reading => format!(in alloc; "{db}: reading movements"),
        Stage::Booking(1) => format!(in alloc; "booking 1 movement"),
        Stage::Booking(number) => format!(in alloc; "booking {number} movements"),
        Stage::Writing => format!(in alloc; "{db}: writing"),
    }
}

impl<'s> HostStages<'s> {
    /// Returns the stages of work that begins now, in the database `db`, on the inputs of these names. Nothing is reported if the clock can't
    /// be read.
    pub fn new(
        rt: &'s HostRuntime,
        reports: Reports,
        db: &'s str,
        names: &[&str],
    ) -> HostStages<'s> {
        let overwrites = rt.stderr().is_terminal();
        let is_reported = match reports {
            Reports::Never => false,
            Reports::OnTerminal => overwrites && !is_typed(rt, names),
            Reports::Always => true,
        };
        let start = if is_reported {
            Instant::now(rt).ok()
        } else {
            None
        };
        let is_large = is_reported && fs::metadata(rt, db).is_ok_and(|found| found.len() >= LARGE);
        HostStages {
            rt,
            db,
            start,
            overwrites,
            is_large: Cell::new(is_large),
            is_shown: Cell::new(false),
        }
    }

    // Returns whether a terminal shows the stage that begins now.
    fn is_late(&self, start: Instant) -> bool {
        self.is_large.get()
            || Instant::now(self.rt).is_ok_and(|now| now.duration_since(start)
                >= Duration::from_secs(2))
    }

    /// Erases the stage on the terminal, if one is shown.
    pub fn end(self) {
        if self.is_shown.get() {
            let _ = eprint!(self.rt; "{ERASE}");
        }
    }
}

impl Stages for HostStages<'_> {
    // A stage that can't be built or written is dropped.
    fn begin(&self, stage: Stage) {
        let Some(start) = self.start else {
            return;
        };
        if matches!(stage, Stage::Booking(number) if number >= MANY) {
            self.is_large.set(true);
        }
        let Ok(text) = text_of(self.rt.alloc(), self.db, stage) else {
            return;
        };
        if !self.overwrites {
            let _ = eprintln!(self.rt; "{text}");
        } else if self.is_late(start) {
            let _ = eprint!(self.rt; "{ERASE}{text}");
            self.is_shown.set(true);
        }
    }
}
