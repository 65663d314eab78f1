//! A caller's own types in a bag: written as JSON strings, and looked up by a borrowed form.
ghost use Rattle.std.specs.Prelude.{◌≡◌, ◌==◌, ◌&&◌, ℕ, List, Bool, true, bytes_eq, string_bytes, refl};
ghost use Rattle.std.proofs.Common.{ap, ◌∙◌, rules};
ghost use Rattle.std.proofs.lemmas.Slice.Eq.{bytes_eq-Decides};
ghost use Rattle.std.specs.Cmp.Lexicographic.{nat_list_eq_equiv};
ghost use Rattle.std.specs.Cmp.Rules.{hashing};
ghost use denote.Enum.Bare.{same_true, true_same};
ghost use Rattle.hashbag_callers.specs.contracts.own_types.Size.{the_type};
ghost use Rattle.hashbag.specs.Occurrences.{count_named};
ghost use Rattle.hashbag_callers.specs.Parts.{part_one};
ghost use Rattle.hashbag_callers.specs.Sizes.{size_text, is_size, size_one, size_found};

use hashbag::{HashBag, ItemError, JsonText, Key};
use std::alloc::{AllocError, Global};
use std::hash::BuildHasher;

/// An article. Articles are equal if their names are.
#[derive(Debug, PartialEq, Eq, PartialOrd, Ord, Hash, Drop)]
pub struct Article {
    /// The name, by which articles are compared, ordered, hashed and written.
    pub name: String,
}

// An article is written as its name. Each text is the name of an article.
impl JsonText for Article {
    ghost text_of = { λ x. string_bytes x.name };

    ghost has_text = { λ t. true };

    fn to_text(&self, alloc: Global) -> Result<String, AllocError> {
        self.name.as_str().to_string(alloc)
    }

    fn from_text(alloc: Global, text: &str) -> Result<Article, ItemError> {
        let name = text.to_string(alloc)?;
        Ok(Article { name })
    }

    ghost same = { λ x y. bytes_eq-Decides (string_bytes x.name) (string_bytes y.name) };

    ghost has_value = { λ s e. (record { name = s }, refl) };
}

// A text is a key for the article of this name: `bag.contains("nut")`.
impl Key<Article> for &str {
    ghost names = { λ key v. bytes_eq (string_bytes v.name) key.now };

    ghost hashed_alike = { Prim.search (hashing, rules) };

    ghost names_one = { λ key v w yes. nat_list_eq_equiv.symm (string_bytes w.name) key.now ∙ nat_list_eq_equiv.congr key.now (string_bytes v.name) (string_bytes w.name) (nat_list_eq_equiv.symm key.now (string_bytes v.name) ∙ yes) ∙ nat_list_eq_equiv.symm (string_bytes v.name) (string_bytes w.name) };

    fn names(&self, value: &Article) -> bool {
        value.name.as_str() == *self
    }
}

/// Returns how often the article of this name occurs.
pub fn how_many<S: BuildHasher + Drop>(bag: &HashBag<Article, S>, name: &str) -> usize
    // `count_named test items`: how many items pass the test.
    ensures { result ≡ count_named (λ v. bytes_eq (string_bytes v.name) name.now) bag.now.items }
{
    bag.contains(name)
}

/// An article of a lot. The name is owned.
#[derive(Debug, PartialEq, Eq, Hash, Drop)]
pub struct Part {
    /// The name of the article.
    pub name: String,
    /// The number of the lot.
    pub lot: u64,
}

/// A [`Part`] with a borrowed name. Parts are looked up by this key, so a look-up copies no name.
#[derive(Clone, Copy, PartialEq, Eq, Hash)]
pub struct PartKey<'a> {
    /// The name of the article.
    pub name: &'a str,
    /// The number of the lot.
    pub lot: u64,
}

// Both fields are compared, and hashed in the order of the fields, as in a `Part`.
impl Key<Part> for PartKey<'_> {
    ghost names = { λ key v. bytes_eq (string_bytes v.name) key.name.now && (v.lot == key.lot) };

    ghost hashed_alike = { Prim.search (hashing, rules) };

    ghost names_one = { λ key v w yes. part_one (string_bytes v.name) (string_bytes w.name) key.name.now v.lot w.lot key.lot yes };

    fn names(&self, value: &Part) -> bool {
        value.name.as_str() == self.name && value.lot == self.lot
    }
}

/// Returns how often the article occurs in this lot.
pub fn how_many_parts<S: BuildHasher + Drop>(bag: &HashBag<Part, S>, name: &str, lot: u64) -> usize
    // `count_named test items`: how many items pass the test.
    ensures { result ≡ count_named (λ v. bytes_eq (string_bytes v.name) name.now && (v.lot == lot)) bag.now.items }
{
    bag.contains(PartKey { name, lot })
}

/// A size. In JSON it is a word.
#[derive(Clone, Copy, Debug, PartialEq, Eq, PartialOrd, Ord, Hash)]
pub enum Size {
    /// Written as `small`.
    Small,
    /// Written as `medium`.
    Medium,
    /// Written as `large`.
    Large,
}

impl JsonText for Size {
    ghost text_of = { size_text };

    ghost has_text = { is_size };

    fn to_text(&self, alloc: Global) -> Result<String, AllocError> {
        let word = match self {
            Size::Small => "small",
            Size::Medium => "medium",
            Size::Large => "large",
        };
        word.to_string(alloc)
    }

    fn from_text(_alloc: Global, text: &str) -> Result<Size, ItemError> {
        match text {
            "small" => Ok(Size::Small),
            "medium" => Ok(Size::Medium),
            "large" => Ok(Size::Large),
            _ => Err(ItemError::NotAnItem),
        }
    }

    ghost same = { λ x y. (λ e. ap size_text (same_true the_type (Prim.search rules) x y e), λ e. true_same the_type x y (size_one x y e)) };

    ghost has_value = { λ s e. size_found (string_bytes s) e };
}
