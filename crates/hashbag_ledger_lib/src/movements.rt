//! Movements and refusals.
ghost use Rattle.std.specs.Prelude.{◌≡◌};

/// Where a movement is.
#[derive(Clone, Copy, PartialEq, Eq, Debug)]
pub struct Place {
    /// The number of the movement's file, from 0. For a movement that is read from a database: 0, the number of its batch, or
    /// its own number. The function that reads it says which.
    pub file: usize,
    /// The line on which the movement begins, from 1.
    pub line: u64,
}

/// What a movement does.
#[derive(Clone, Copy, PartialEq, Eq, Debug)]
pub enum Change {
    /// Adds this many.
    In(usize),
    /// Removes this many.
    Out(usize),
}

/// One movement of an article.
#[derive(PartialEq, Eq, Debug, Drop)]
pub struct Movement<T> {
    /// Where the movement is.
    pub place: Place,
    /// The article.
    pub article: T,
    /// What the movement does.
    pub change: Change,
}

/// What became of a movement.
#[derive(Clone, Copy, PartialEq, Eq, Debug)]
pub enum Outcome {
    /// The movement was entered.
    Entered {
        /// How many of the article there are after the movement.
        after: usize,
    },
    /// The movement would remove more than is there, and wasn't entered.
    Refused {
        /// How many of the article there are.
        there: usize,
    },
}

/// A movement with what became of it.
#[derive(PartialEq, Eq, Debug, Drop)]
pub struct Entry<T> {
    /// The movement.
    pub movement: Movement<T>,
    /// What became of the movement.
    pub outcome: Outcome,
}

/// A movement that would remove more than is there, and isn't entered.
#[derive(PartialEq, Eq, Debug, Drop)]
pub struct Refusal<T> {
    /// Where the movement is.
    pub place: Place,
    /// The article.
    pub article: T,
    /// How many the movement would remove.
    pub asked: usize,
    /// How many of the article there are.
    pub there: usize,
}
