//! JSON texts in the buffers of C, and why one can't be read as a bag.
//!
//! A tree is a JSON value that was parsed (`Data`). Without a fault it is a list of pairs `[value, count]`, or an object with `limit` and `pairs`.
ghost use Rattle.std.specs.Prelude.{◌≡◌, ◌≢◌, ◌≤◌, ◌<◌, ◌++◌, ◌⊎◌, true, length, drop, string_bytes, unwrap_or, IfOk, IfErr};
ghost use Rattle.serde_json.specs.Data.{depth};
ghost use Rattle.hashbag_c.specs.Json.{code_of, fault_number, fault_pair, place_of, IsCause, IsJson, IsReadFrom, JsonIsTooLong, JsonIsWritten};

use crate::any::{NOT_JSON, SHORT};
use crate::entries::put;
use hashbag_core::{BagError, HashBag, JsonError, JsonItem};
use serde_json::Value;
use std::alloc::Global;
use std::hash::{BuildHasher, Hash};

/// Why a text can't be read as a bag.
#[derive(Clone, Copy, Drop)]
pub enum TextError {
    /// An allocation failed.
    Memory,
    /// The text isn't JSON. The number is how many bytes had been read when that was found.
    NotJson(usize),
    /// The tree of the text isn't that of a bag.
    Fault(JsonError),
}

// Returns the number of the pair that is at fault.
fn pair_of(error: JsonError) -> Option<usize>
    ensures { result ≡ fault_pair error }
{
    match error {
        JsonError::NotAPair(pair) => Some(pair),
        JsonError::BadCount(pair) => Some(pair),
        JsonError::BadItem(pair) => Some(pair),
        JsonError::TooMany(pair) => Some(pair),
        JsonError::NotAnArray => None,
        JsonError::Memory => None,
        JsonError::BadLimit => None,
    }
}

// Returns the number of a fault.
fn number_of(error: JsonError) -> u8
    ensures number { result ≡ fault_number error }
    ensures failed { result ≢ 0 }
{
    error.number()
}

impl TextError {
    /// Writes the place of the error, if it has one, and returns its number.
    pub fn report(self, at: &mut usize) -> u8
        // `code_of` is the number that C gets: 1 for `Memory`, `NOT_JSON`, or the number of the fault. `place_of` is the place in the text, or the pair
        // at fault, if the error has one; else `at` is unchanged.
        ensures code { result ≡ code_of self }
        ensures place { at.new ≡ unwrap_or (place_of self) at.old }
        ensures failed { result ≢ 0 }
    {
        match self {
            TextError::Memory => 1,
            TextError::NotJson(place) => {
                *at = place;
                NOT_JSON
            }
            TextError::Fault(error) => {
                *at = pair_of(error).unwrap_or(*at);
                number_of(error)
            }
        }
    }
}

// Returns how many bytes there are up to this column of this line, all if the text ends before. Lines are counted from 1.
fn bytes_up_to(text: &[u8], line: usize, column: usize) -> usize
    ensures { result ≤ length text.now }
{
    let mut current: usize = 1;
    let mut begin: usize = 0;
    for (place, byte) in text.iter().enumerate() {
        if current >= line {
            break;
        }
        if *byte == b'\n' {
            current = current.saturating_add(1);
            begin = place.saturating_add(1);
        }
    }
    begin.saturating_add(column).min(text.len())
}

/// Reads a bag from a JSON text, with the hash state `state` and the limit of the text or `most`, whichever is less.
pub fn read_bag<T: JsonItem + Hash + Drop, S: BuildHasher + Drop>(
    alloc: Global,
    state: S,
    most: usize,
    text: &[u8],
) -> Result<HashBag<T, S>, TextError>
    // The text is a tree without a fault. Its pairs were inserted in turn into an empty bag, whose limit is that of the tree or `most`, whichever is less.
    ensures read { IfOk result (IsReadFrom T.eq T.has_item T.reads most text.now) }
    ensures hasher { IfOk result (λ bag. bag.hasher ≡ state) }

    // `NotJson place`: no JSON or no UTF-8, and `place` is at most the text's length. `Fault`: the first fault of the tree, under the limit `most`.
    ensures cause { IfErr result (IsCause T.has_item most text.now) }
{
    let tree = match Value::from_slice(alloc, text) {
        Ok(tree) => tree,
        Err(error) => {
            if error.is_memory() {
                return Err(TextError::Memory);
            }
            let place = bytes_up_to(text, error.line(), error.column());
            return Err(TextError::NotJson(place));
        }
    };
    match HashBag::from_value_with_hasher(alloc, state, most, &tree) {
        Ok(bag) => Ok(bag),
        Err(JsonError::Memory) => Err(TextError::Memory),
        Err(error) => Err(TextError::Fault(error)),
    }
}

/// Writes the length of a text into `len`, and the text at the beginning of `bytes`. If `bytes` has too few places, only the length is written.
pub fn write_text(text: &str, bytes: &mut [u8], len: &mut usize) -> u8
    ensures long { len.new ≡ length text.now }

    // If the result is 0, the buffer begins with the text, and the bytes after it are unchanged.
    ensures whole { result ≡ 0 → bytes.new ≡ text.now ++ drop (length text.now) bytes.old }
    ensures fits { result ≡ 0 → length text.now ≤ length bytes.old }
    ensures short { result ≢ 0 → (result ≡ SHORT) × (length bytes.old < length text.now) × (bytes.new ≡ bytes.old) }
{
    let text = text.as_bytes();
    *len = text.len();
    if text.len() > bytes.len() {
        return SHORT;
    }
    put(bytes, 0, text);
    0
}

// Returns the JSON of a bag. Equal values of T are the same, and their trees aren't deep.
fn text_of<T: JsonItem + Ord + Hash + Drop, S: BuildHasher + Drop>(
    alloc: Global,
    bag: &HashBag<T, S>,
) -> Result<String, BagError>
    requires same { (x y : T) → T.eq x y ≡ true → x ≡ y }
    requires shallow { (x : T) → depth (T.tree_of x) ≤ 1 }
    ensures json { IfOk result (λ text. IsJson T.eq T.cmp T.tree_of T.has_item T.reads bag.now (string_bytes text)) }
    ensures memory { IfErr result (λ e. e ≡ BagError.Memory) }
{
    let tree = bag.to_value(alloc)?;
    Ok(tree.to_string(alloc)?)
}

/// Writes the length of the JSON of a bag into `len`, and the JSON at the beginning of `bytes`. If `bytes` has too few places, only the length is
/// written.
pub fn write_json<T: JsonItem + Ord + Hash + Drop, S: BuildHasher + Drop>(
    alloc: Global,
    bag: &HashBag<T, S>,
    bytes: &mut [u8],
    len: &mut usize,
) -> u8
    // Equal values of T are the same, and the trees of values aren't nested deeper than 1.
    requires same { (x y : T) → T.eq x y ≡ true → x ≡ y }
    requires shallow { (x : T) → depth (T.tree_of x) ≤ 1 }

    // If the result is 0: the JSON of the bag is at the beginning of `bytes`, the other bytes are unchanged, and `len` is its length.
    ensures json { result ≡ 0 → JsonIsWritten T.eq T.cmp T.tree_of T.has_item T.reads bag.now bytes.old bytes.new len.new }

    // If the result is `SHORT`: `len` is the length of the JSON of the bag, and `bytes` has fewer places.
    ensures too_long { result ≡ SHORT → JsonIsTooLong T.eq T.cmp T.tree_of T.has_item T.reads bag.now bytes.old len.new }
    ensures only { result ≢ 0 → (result ≡ 1) ⊎ (result ≡ SHORT) }
    ensures buffer { result ≢ 0 → bytes.new ≡ bytes.old }
    ensures failed { result ≡ 1 → len.new ≡ len.old }
{
    match text_of(alloc, bag) {
        Ok(text) => write_text(text.as_str(), bytes, len),
        Err(failed) => failed.number(),
    }
}

/// Puts the bag of a JSON text into a handle; the value is 0. On an error, writes its place, if it has one; the value is its number.
macro_rules! read_json {
    ($alloc:ident, $handle:ident, $kind:ident, $state:expr, $most:ident, $text:ident, $at:ident) => {
        match read_bag($alloc, $state, $most, $text) {
            Ok(bag) => match $handle.begin($alloc, Held::$kind(bag)) {
                0 => 0,
                _ => TextError::Memory.report($at),
            },
            Err(error) => error.report($at),
        }
    };
}

pub(crate) use read_json;
