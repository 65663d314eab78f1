//! Types whose values are written as JSON strings.
ghost use Rattle.std.specs.Prelude.{◌≡◌, ◌↔◌, ℕ, List, Bool, true, false, string_bytes, String, IfOk, refl};
ghost use Rattle.std.proofs.Common.{Global};
ghost use Rattle.std.specs.Bool.{Decides};
ghost use Rattle.serde_json.specs.Data.{string};
ghost use Rattle.serde_json.specs.Find.{as_str};
ghost use Rattle.hashbag_core.specs.JsonTexts.{has_text_in, TextHasValue, ReadsText, written_read, read_has, text_found, equal_text, equal_strings, read_again, read_as_one};

use crate::bag::BagError;
use crate::json::{ItemError, JsonItem};
use serde_json::Value;
use std::alloc::{AllocError, Global};

/// Values that are written as JSON strings. A type that implements it is a [`JsonItem`], so bags of it have `to_value` and `from_value`.
///
/// An implementation defines for contracts which text a value has, and which texts have a value. It proves that values are equal exactly
/// if their texts are the same, and that a text that has a value is the text of one. `docs/use/COOKBOOK.md` has one.
pub trait JsonText: Eq + Sized {
    /// The text of a value.
    ghost text_of: { Self → List ℕ };

    /// Whether a text has a value.
    ghost has_text: { List ℕ → Bool };

    /// Returns the text of a value.
    ///
    /// # Errors
    ///
    /// `AllocError` if an allocation fails.
    fn to_text(&self, alloc: Global) -> Result<String, AllocError>
        ensures text { IfOk result (λ s. string_bytes s ≡ text_of self.now) }

        // The text has a value.
        ensures has { has_text (text_of self.now) ≡ true };

    /// Returns the value of a text.
    ///
    /// # Errors
    ///
    /// `NotAnItem` exactly if the text has none, even if memory runs out. `Memory` if an allocation fails.
    fn from_text(alloc: Global, text: &str) -> Result<Self, ItemError>
        ensures text { IfOk result (λ x. text_of x ≡ text.now) }
        ensures not_an_item { (result ≡ Err ItemError.NotAnItem) ↔ (has_text text.now ≡ false) };

    /// Values are equal exactly if their texts are the same.
    ghost same: { (x y : Self) → Decides (Self.eq x y) (text_of x ≡ text_of y) };

    /// A text that has a value is the text of one.
    ghost has_value: { (s : String Global) → has_text (string_bytes s) ≡ true → (x : Self) × (text_of x ≡ string_bytes s) };
}

impl<T: JsonText> JsonItem for T {
    ghost is_item = { TextHasValue T.text_of T.has_text };

    ghost tree_of = { λ x. string (T.text_of x) };

    ghost has_item = { λ d. has_text_in T.has_text (as_str d) };

    ghost reads = { ReadsText T.text_of T.has_text };

    fn to_json(&self, alloc: Global) -> Result<Value, BagError> {
        Ok(Value::String(self.to_text(alloc)?))
    }

    fn from_json(alloc: Global, v: &Value) -> Result<T, ItemError> {
        match v.as_str() {
            Some(text) => T::from_text(alloc, text),
            None => Err(ItemError::NotAnItem),
        }
    }

    ghost equal_is_item = { equal_text T.text_of T.has_text T.eq T.same };

    ghost equal_trees = { equal_strings T.text_of T.has_text T.eq T.same };

    ghost tree_is_read = { written_read T.text_of T.has_text };

    ghost read_has_item = { read_has T.text_of T.has_text };

    ghost item_is_read = { λ v e. text_found T.text_of T.has_text v T.has_value e };

    ghost reads_back = { read_again T.text_of T.has_text T.eq T.same };

    ghost reads_one = { read_as_one T.text_of T.has_text T.eq T.same };

    ghost no_float = { λ x h. refl };
}
