//! Names of columns.
use std::alloc::{AllocError, Global};

/// Splits names of columns at commas.
pub fn names_in(alloc: Global, text: &str) -> Result<Vec<&str>, AllocError> {
    text.split(',').collect(alloc)
}

/// Returns the first name that repeats a name before it, or `None`.
pub fn repeated<'n>(names: &[&'n str]) -> Option<&'n str> {
    for (index, name) in names.iter().enumerate() {
        let before = names.get(..index).unwrap_or(&[]);
        if before.iter().any(|other| *other == *name) {
            return Some(*name);
        }
    }
    None
}
