//! The stages of a subcommand's work in a database, which a program reports.

/// What is done next.
#[derive(Clone, Copy, PartialEq, Eq, Debug)]
pub enum Stage {
    /// The database is opened. That reads the whole file, and checks it.
    Opening,
    /// Rows of the database are read.
    Reading,
    /// This many movements are booked.
    Booking(usize),
    /// Rows are written into the database.
    Writing,
}

/// A receiver of the stages, such as a report on a terminal.
pub trait Stages {
    /// Is called at the beginning of a stage.
    fn begin(&self, stage: Stage);
}
