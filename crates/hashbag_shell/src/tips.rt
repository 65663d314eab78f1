//! Names that are near to a word, and messages of the argument parser without misleading tips.
use std::alloc::{AllocError, Global};
use strsim::osa_distance;

// Returns the text between the first two quotes.
fn quoted(text: &str) -> Option<&str> {
    let (_, behind) = text.split_once('\'')?;
    let (name, _) = behind.split_once('\'')?;
    Some(name)
}

// Returns how many changes of characters turn a word into a name, or `None` if the changes are more than a third of the word's characters. Two
// characters in the wrong order are one change. Hyphens at the beginning of either text don't count.
fn changes_if_near(alloc: Global, word: &str, name: &str) -> Result<Option<usize>, AllocError> {
    let (word, name) = (word.trim_start_matches('-'), name.trim_start_matches('-'));
    let changes = osa_distance(alloc, word, name)?;
    Ok((changes.saturating_mul(3) <= word.chars().count()).then_some(changes))
}

/// Returns whether changes to at most a third of a word's characters turn the word into the name. Two characters in the wrong order are one
/// change. Hyphens at the beginning of either text don't count.
///
/// # Errors
///
/// An allocation fails.
pub fn is_near(alloc: Global, word: &str, name: &str) -> Result<bool, AllocError> {
    Ok(changes_if_near(alloc, word, name)?.is_some())
}

/// A search for the name nearest to a word. Among the offered names that are near ([`is_near`]), it finds the first with the fewest changes.
#[derive(Drop)]
pub struct Nearest<'w, 'n> {
    word: &'w str,
    found: Option<(&'n str, usize)>,
}

impl<'w, 'n> Nearest<'w, 'n> {
    /// Returns a search for the name nearest to this word. No name has been offered yet.
    pub fn new(word: &'w str) -> Self {
        Nearest { word, found: None }
    }

    /// Offers a name.
    ///
    /// # Errors
    ///
    /// An allocation fails.
    pub fn offer(&mut self, alloc: Global, name: &'n str) -> Result<(), AllocError> {
        if let Some(changes) = changes_if_near(alloc, self.word, name)?
            && self.found.is_none_or(|found| changes < found.1)
        {
            self.found = Some((name, changes));
        }
        Ok(())
    }

    /// Returns the nearest name, or `None` if no name is near.
    pub fn name(&self) -> Option<&'n str> {
        self.found.map(|found| found.0)
    }
}

// Returns what follows a tip in a message: the usage and the last line. The usage is left out if it would show the name of the tip, as it does but for
// subcommands.
fn behind_tip(tip: &str) -> Option<&str> {
    let (_, behind) = if tip.starts_with("subcommand ") {
        tip.split_once("\n\n")?
    } else {
        tip.rsplit_once("\n\n")?
    };
    Some(behind)
}

/// Returns a message of the parser. If the message has a tip whose name isn't near the word that was given, the tip is left out, and so is
/// the usage if it would show that name too.
///
/// # Errors
///
/// An allocation fails.
pub fn without_far_tip(alloc: Global, message: &str) -> Result<String, AllocError> {
    if let Some((said, tip)) = message.split_once("\n\n  tip: a similar ")
        && let (Some(word), Some(name)) = (quoted(said), quoted(tip))
        && let Some(behind) = behind_tip(tip)
        && !is_near(alloc, word, name)?
    {
        return format!(in alloc; "{said}\n\n{behind}");
    }
    message.to_string(alloc)
}
