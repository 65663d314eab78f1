//! `u64`, `i64` and `String` as items: a number is written as a JSON number, a text as a JSON string.
ghost use Rattle.std.specs.Prelude.{◌≡◌, Some, is_some, string_bytes, refl};
ghost use Rattle.serde_json.specs.Data.{number, string, unsigned};
ghost use Rattle.serde_json.specs.Find.{as_str, of_integer};
ghost use Rattle.serde_json.specs.View.{view};
ghost use Rattle.hashbag_core.specs.JsonItems.{IsU64, IsI64, u64_item, i64_item};
ghost use Rattle.hashbag_core.specs.JsonItemLaws.{u64_equal, u64_trees, u64_reads, u64_has, u64_is_read, u64_back, u64_one, i64_equal, i64_trees, i64_reads, i64_has, i64_is_read, i64_back, i64_one, i64_no_float, text_trees, text_has, text_is_read, text_back, text_one};

use crate::bag::BagError;
use crate::json::{ItemError, JsonItem};
use serde_json::Value;
use std::alloc::Global;

impl JsonItem for u64 {
    ghost is_item = { IsU64 };

    ghost tree_of = { λ x. number (unsigned x) };

    ghost has_item = { λ d. is_some (u64_item d) };

    ghost reads = { λ d x. u64_item d ≡ Some x };

    fn to_json(&self, _alloc: Global) -> Result<Value, BagError> {
        Ok(Value::from(*self))
    }

    fn from_json(_alloc: Global, v: &Value) -> Result<u64, ItemError> {
        match v.as_u64() {
            Some(x) => Ok(x),
            None => Err(ItemError::NotAnItem),
        }
    }

    ghost equal_is_item = { u64_equal };

    ghost equal_trees = { u64_trees };

    ghost tree_is_read = { λ x h. (x, h, u64_reads x h) };

    ghost read_has_item = { λ d x e. u64_has d x e };

    ghost item_is_read = { λ v e. u64_is_read (view v) e };

    ghost reads_back = { u64_back };

    ghost reads_one = { u64_one };

    ghost no_float = { λ x h. refl };
}

impl JsonItem for i64 {
    ghost is_item = { IsI64 };

    ghost tree_of = { λ x. number (of_integer x) };

    ghost has_item = { λ d. is_some (i64_item d) };

    ghost reads = { λ d x. i64_item d ≡ Some x };

    fn to_json(&self, _alloc: Global) -> Result<Value, BagError> {
        Ok(Value::from(*self))
    }

    fn from_json(_alloc: Global, v: &Value) -> Result<i64, ItemError> {
        match v.as_i64() {
            Some(x) => Ok(x),
            None => Err(ItemError::NotAnItem),
        }
    }

    ghost equal_is_item = { i64_equal };

    ghost equal_trees = { i64_trees };

    ghost tree_is_read = { λ x h. (x, h, i64_reads x h) };

    ghost read_has_item = { λ d x e. i64_has d x e };

    ghost item_is_read = { λ v e. i64_is_read (view v) e };

    ghost reads_back = { i64_back };

    ghost reads_one = { i64_one };

    ghost no_float = { i64_no_float };
}

impl JsonItem for String {
    ghost is_item = { λ x. Unit {0} };

    ghost tree_of = { λ x. string (string_bytes x) };

    ghost has_item = { λ d. is_some (as_str d) };

    ghost reads = { λ d x. as_str d ≡ Some (string_bytes x) };

    fn to_json(&self, alloc: Global) -> Result<Value, BagError> {
        Ok(Value::try_from_str(alloc, self.as_str())?)
    }

    fn from_json(alloc: Global, v: &Value) -> Result<String, ItemError> {
        match v.as_str() {
            Some(text) => Ok(String::from_str(alloc, text)?),
            None => Err(ItemError::NotAnItem),
        }
    }

    ghost equal_is_item = { λ x y h e. tt };

    ghost equal_trees = { text_trees };

    ghost tree_is_read = { λ x h. (x, h, refl) };

    ghost read_has_item = { λ d x e. text_has d x e };

    ghost item_is_read = { text_is_read };

    ghost reads_back = { text_back };

    ghost reads_one = { text_one };

    ghost no_float = { λ x h. refl };
}
