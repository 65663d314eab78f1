//! Reports of progress on standard error.
use crate::one_file::path_of;
use crate::pace::share_of;
use std::alloc::{AllocError, Global};
use std::fs;
use std::io::IsTerminal;
use std::time::{Duration, Instant};

// How many characters of a name a terminal shows.
const MOST_CHARS: usize = 20;

// If the inputs have at least this many bytes, the progress is reported whenever an input was read whole, even in the first two seconds:
// the work that follows takes long.
const LARGE: u64 = 1 << 26;

// Puts the cursor of a terminal at the beginning of its line, and erases the line.
const ERASE: &str = "\r\x1b[K";

/// When progress is reported.
#[derive(Clone, Copy, PartialEq, Eq)]
pub enum Reports {
    /// Never.
    Never,
    /// If standard error is a terminal, and no input is typed on a terminal.
    OnTerminal,
    /// Always.
    Always,
}

/// What was read, and when it was reported.
#[derive(Clone, Copy)]
pub struct Progress {
    // When the work began, and when it was last reported. Before the first report, both are the beginning of the work. `None` if nothing is reported.
    times: Option<(Instant, Instant)>,
    // Whether a report overwrites the report before, on a terminal. Else each report is a line.
    overwrites: bool,
    // Whether a terminal shows a report.
    is_shown: bool,
    // How many bytes the inputs have; `None` if one of them is no file.
    whole: Option<u64>,
    // How many bytes were read.
    done: u64,
}

// Returns whether an input is typed on a terminal.
fn is_typed(rt: &HostRuntime, names: &[&str]) -> bool {
    names.iter().any(|name| *name == "-") && rt.stdin().is_terminal()
}

// Returns how many bytes the inputs have. `None` if one of them is no file.
fn whole_of(rt: &HostRuntime, names: &[&str]) -> Option<u64> {
    let mut whole = 0u64;
    for name in names {
        let found = fs::metadata(rt, path_of(name)).ok()?;
        if !found.is_file() {
            return None;
        }
        whole = whole.saturating_add(found.len());
    }
    Some(whole)
}

// Returns the first 20 characters of the last component of a path. A control character becomes `?`, since it could move the cursor.
fn short_name(alloc: Global, name: &str) -> Result<String, AllocError> {
    let last = name.rsplit_once('/').map_or(name, |parts| parts.1);
    let mut short = String::new(alloc);
    for c in last.chars().take(MOST_CHARS) {
        short.push(if c.is_control() { '?' } else { c })?;
    }
    Ok(short)
}

// Returns a number of bytes in megabytes.
fn megabytes(alloc: Global, bytes: u64) -> Result<String, AllocError> {
    let (whole, tenth) = (bytes / 1_000_000, bytes / 100_000 % 10);
    format!(in alloc; "{whole}.{tenth} MB")
}

impl Progress {
    /// Returns the progress at the start of work on the inputs of these names. Nothing is reported if the clock can't be read.
    pub fn new(rt: &HostRuntime, reports: Reports, names: &[&str]) -> Progress {
        let overwrites = rt.stderr().is_terminal();
        let is_reported = match reports {
            Reports::Never => false,
            Reports::OnTerminal => overwrites && !is_typed(rt, names),
            Reports::Always => true,
        };
        let times = match Instant::now(rt) {
            Ok(now) if is_reported => Some((now, now)),
            _ => None,
        };
        Progress {
            times,
            overwrites,
            is_shown: false,
            whole: if is_reported {
                whole_of(rt, names)
            } else {
                None
            },
            done: 0,
        }
    }

    /// Returns the progress of work that isn't reported.
    pub fn silent() -> Progress {
        Progress {
            times: None,
            overwrites: false,
            is_shown: false,
            whole: None,
            done: 0,
        }
    }

    // Returns how much was read. If the whole is known, also returns the whole, and the percentage of it that was read.
    fn read_text(&self, alloc: Global) -> Result<String, AllocError> {
        let done = megabytes(alloc, self.done)?;
        let Some(whole) = self.whole else {
            return Ok(done);
        };
        // A file may have grown.
        let whole = whole.max(self.done);
        let percent = share_of(100, self.done, whole).unwrap_or(100);
        let whole = megabytes(alloc, whole)?;
        format!(in alloc; "{done} of {whole}, {percent}%")
    }

    // Returns how much was read, and the rate. If the whole is known, also returns the seconds left, but in the first second neither the rate nor
    // these seconds. If the whole was read, or if `works`, the text says in their place that the bytes are being processed: how long that takes isn't
    // known. If `works`, nothing more is read until the bytes read so far are processed.
    fn text(&self, alloc: Global, seconds: u64, works: bool) -> Result<String, AllocError> {
        let read = self.read_text(alloc)?;
        let left = self.whole.map(|whole| whole.saturating_sub(self.done));
        if works || left == Some(0) {
            return format!(in alloc; "{read} read, working on it");
        }
        let rate = megabytes(alloc, self.done / seconds.max(1))?;
        let Some(left) = left else {
            return format!(in alloc; "{read}, {rate}/s");
        };
        if seconds == 0 {
            return Ok(read);
        }
        let left = share_of(seconds, left, self.done).unwrap_or(0);
        format!(in alloc; "{read}, {rate}/s, {left} s left")
    }

    // Reports the progress. A report that can't be built or written is dropped.
    fn report(&mut self, rt: &HostRuntime, name: &str, seconds: u64, works: bool) {
        let alloc = rt.alloc();
        let Ok(text) = self.text(alloc, seconds, works) else {
            return;
        };
        if !self.overwrites {
            let _ = eprintln!(rt; "{name}: {text}");
            return;
        }
        if let Ok(short) = short_name(alloc, name) {
            let _ = eprint!(rt; "{ERASE}{short}: {text}");
            self.is_shown = true;
        }
    }

    /// Adds bytes that were read from the input of this name. Reports the progress if the last report is at least a second old. On a
    /// terminal nothing is reported in the first two seconds.
    pub fn add_read(&mut self, rt: &HostRuntime, name: &str, bytes: usize) {
        self.done = self.done.saturating_add(bytes as u64);
        let Some((start, last)) = self.times else {
            return;
        };
        let Ok(now) = Instant::now(rt) else {
            return;
        };
        let passed = now.duration_since(start);
        let is_early = self.overwrites && passed < Duration::from_secs(2);
        if is_early || now.duration_since(last) < Duration::from_secs(1) {
            return;
        }
        self.report(rt, name, passed.as_secs(), false);
        self.times = Some((start, now));
    }

    /// Reports that the input of this name was read whole, and that the work on it begins. On a terminal it is reported only if the work has
    /// taken two seconds, or if the inputs are large.
    pub fn report_whole(&mut self, rt: &HostRuntime, name: &str) {
        let Some((start, _)) = self.times else {
            return;
        };
        let Ok(now) = Instant::now(rt) else {
            return;
        };
        let passed = now.duration_since(start);
        let is_large = self.whole.unwrap_or(self.done) >= LARGE;
        if self.overwrites && !is_large && passed < Duration::from_secs(2) {
            return;
        }
        self.report(rt, name, passed.as_secs(), true);
        self.times = Some((start, now));
    }

    /// Erases the report on the terminal, if one is shown.
    pub fn erase(&mut self, rt: &HostRuntime) {
        if self.is_shown {
            let _ = eprint!(rt; "{ERASE}");
            self.is_shown = false;
        }
    }
}
