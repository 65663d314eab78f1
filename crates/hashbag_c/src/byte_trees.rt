//! Byte strings as JSON trees: a string if the bytes are UTF-8, else an array of numbers. Both are read back.
ghost use Rattle.std.specs.Prelude.{◌≡◌, true, Some, is_some, option_map, IfOk};
ghost use Rattle.serde_json.specs.View.{view, items_view};
ghost use Rattle.hashbag_c.specs.ByteTrees.{are_bytes, byte_item, bytes_in, bytes_item, bytes_tree, numbers_tree};
ghost use Rattle.hashbag_c.specs.ByteTreeLaws.{bytes_are_read, bytes_back, bytes_equal, bytes_have, bytes_no_float, bytes_one, bytes_read, bytes_trees};

use crate::bytes::Bytes;
use hashbag_core::{BagError, ItemError, JsonItem};
use serde_json::Value;
use std::alloc::{AllocError, Global};
use std::str;

// Only for the proof: returns the bytes as they are. Its clause says that each is below 256.
fn below_256(bytes: &[u8]) -> &[u8]
    ensures same { result.now ≡ bytes.now }
    ensures bytes { are_bytes bytes.now ≡ true }
{
    bytes
}

// Returns the array of the bytes as numbers.
fn list_value(alloc: Global, bytes: &[u8]) -> Result<Value, AllocError>
    ensures { IfOk result (λ v. view v ≡ numbers_tree bytes.now) }
{
    let mut list = Vec::new(alloc);
    for byte in bytes {
        serde_json::push(&mut list, Value::from(*byte))?;
    }
    Ok(Value::Array(list))
}

// Returns the byte of a tree, or `None` if the tree isn't a whole number from 0 to 255.
fn byte_of(tree: &Value) -> Option<u8>
    ensures { result ≡ byte_item (view tree.now) }
{
    match tree.as_u64() {
        Some(n) => {
            if n < 256 {
                return Some(n as u8);
            }
            None
        }
        None => None,
    }
}

// Returns whether each tree is a byte.
fn all_are_bytes(list: &Vec<Value>) -> bool
    ensures { result ≡ is_some (bytes_in (items_view list.now.items)) }
{
    for tree in list {
        match byte_of(tree) {
            Some(_byte) => {}
            None => return false,
        }
    }
    true
}

// Returns the bytes of the trees, or `None` if a tree isn't a byte.
fn bytes_of(alloc: Global, list: &Vec<Value>) -> Result<Option<Vec<u8>>, AllocError>
    ensures { IfOk result (λ r. option_map (λ v. v.items) r ≡ bytes_in (items_view list.now.items)) }
{
    let mut bytes = Vec::new(alloc);
    for tree in list {
        match byte_of(tree) {
            Some(byte) => bytes.push(byte)?,
            None => return Ok(None),
        }
    }
    Ok(Some(bytes))
}

impl JsonItem for Bytes {
    // Each number of the list is below 256.
    ghost is_item = { λ x. are_bytes x ≡ true };

    ghost tree_of = { bytes_tree };

    ghost has_item = { λ d. is_some (bytes_item d) };

    ghost reads = { λ d x. bytes_item d ≡ Some x };

    fn to_json(&self, alloc: Global) -> Result<Value, BagError> {
        let bytes = below_256(self.as_slice());
        match str::from_utf8(bytes) {
            Ok(text) => Ok(Value::try_from_str(alloc, text)?),
            Err(_) => Ok(list_value(alloc, bytes)?),
        }
    }

    fn from_json(alloc: Global, v: &Value) -> Result<Bytes, ItemError> {
        if let Some(text) = v.as_str() {
            let bytes = below_256(text.as_bytes());
            return Ok(Bytes::of(alloc, bytes)?);
        }
        let Some(list) = v.as_array() else {
            return Err(ItemError::NotAnItem);
        };
        // Checked before anything is allocated: an array of other values is `NotAnItem` even if an allocation would fail.
        if !all_are_bytes(list) {
            return Err(ItemError::NotAnItem);
        }
        match bytes_of(alloc, list)? {
            Some(bytes) => Ok(Bytes::of_vec(bytes)),
            None => Err(ItemError::NotAnItem),
        }
    }

    ghost equal_is_item = { bytes_equal };

    ghost equal_trees = { bytes_trees };

    ghost tree_is_read = { λ x h. (x, h, bytes_read x h) };

    ghost read_has_item = { λ d x e. bytes_have d x e };

    ghost item_is_read = { λ v e. bytes_are_read (view v) e };

    ghost reads_back = { bytes_back };

    ghost reads_one = { bytes_one };

    ghost no_float = { bytes_no_float };
}
