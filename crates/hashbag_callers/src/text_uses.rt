//! Callers to copy: the words of a text, counted and looked up as `&str`. A `String` is allocated only for each distinct word.
ghost use Rattle.std.specs.Prelude.{◌≡◌, ◌-◌, length, string_bytes, string_eq, IfOk};
ghost use Rattle.hashbag.specs.Occurrences.{count};
ghost use Rattle.hashbag_callers.specs.Texts.{text_count, ForText};

use hashbag::{BagError, HashBag};
use std::alloc::Global;
use std::hash::BuildHasher;

/// Returns a bag that has each word as often as the list.
pub fn count_texts(alloc: Global, words: &[&str]) -> Result<HashBag<String>, BagError>
    // `text_count bytes words`: how many of the words have these bytes.
    ensures counts { IfOk result (λ bag. (v : _) → count string_eq v bag.items ≡ text_count (string_bytes v) words.now) }
    ensures len { IfOk result (λ bag. length bag.items ≡ length words.now) }
{
    let mut bag = HashBag::new(alloc);
    for word in words {
        bag.insert_key(*word)?;
    }
    Ok(bag)
}

/// Returns how often a word was counted.
pub fn how_often<S: BuildHasher + Drop>(bag: &HashBag<String, S>, word: &str) -> usize
    // v is any `String` with the bytes of `word`.
    ensures { ForText word.now (λ v. result ≡ count string_eq v bag.now.items) }
{
    bag.contains(word)
}

/// Removes `n` occurrences of a word, or all if there are fewer, and returns how many are left.
pub fn strike_out<S: BuildHasher + Drop>(
    bag: &mut HashBag<String, S>,
    word: &str,
    n: usize,
) -> usize
    // v is any `String` with the bytes of `word`.
    ensures counts { ForText word.now (λ v. count string_eq v bag.new.items ≡ count string_eq v bag.old.items - n) }
    ensures left { ForText word.now (λ v. result ≡ count string_eq v bag.new.items) }
{
    bag.remove_up_to(word, n)
}
