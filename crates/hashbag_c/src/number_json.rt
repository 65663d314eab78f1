//! Bags of numbers as JSON texts. In clauses `held` is what a handle has: a bag of numbers, a bag of byte strings, or nothing.
//! The result 1 is `HASHBAG_MEMORY`.
//!
//! - `IfNumbers held P`: if `held` is a bag of numbers, P holds of it.
//! - `HasNumbers held P`: `held` is a bag of numbers, and P holds of it.
//! - `OnNumbers result held P`: if `held` is a bag of numbers and `result` is 0, P holds of the bag.
//! - `UnlessNumbers held P`: if `held` is no bag of numbers, P holds of the number that says why: `EMPTY` (no bag) or `KIND` (the other kind).
ghost use Rattle.std.specs.Prelude.{◌≡◌, ◌≢◌, ◌⊎◌};
ghost use Rattle.hashbag_c.specs.Calls.{HasNumbers, IfNumbers, OnNumbers, UnlessNumbers};
ghost use Rattle.hashbag_c.specs.Json.{has_number, AreNumbersReadFrom, IsNumbersJson, IsReported, IsTooLong, IsWritten};
ghost use Rattle.hashbag_c.specs.States.{HashesUnder};

use crate::any::{EMPTY, KIND, SHORT};
use crate::handle::Handle;
use crate::held::{Held, with_held};
use crate::json::{TextError, read_bag, read_json, write_json};
use crate::state::State;
use std::alloc::Global;

#[tactic(auto, using(crate::proofs::JsonTextLemmas::number_shallow, crate::proofs::JsonTextLemmas::number_same))]
/// Writes a bag of numbers as a JSON text at the beginning of `bytes`, writes the length of the text into `len`, and returns 0. No NUL
/// follows. The text is `[[5,2],[7,1]]`: each distinct number with its count, numbers in ascending order, without spaces. A bag with a limit
/// below `SIZE_MAX` is `{"limit":9,"pairs":[[5,2],[7,1]]}`. Bags with the same counts and the same limit have the same text. The whole text
/// is first built in memory that the call allocates.
///
/// # Errors
///
/// `HASHBAG_SHORT` if the text is longer than `bytes`: `len` is its length then, and nothing else is written. `HASHBAG_MEMORY` if an
/// allocation fails; `HASHBAG_EMPTY`; `HASHBAG_KIND`. Nothing is written then. The bag is unchanged in any case.
#[unsafe(no_mangle)]
pub extern "C" fn hashbag_numbers_to_json(
    alloc: Global,
    handle: &mut Handle,
    bytes: &mut [u8],
    len: &mut usize,
) -> u8
    // If the result is 0: the JSON of the bag is at the beginning of `bytes`, the other bytes are unchanged, and `len` is its length.
    ensures json { OnNumbers result handle.old.held (λ bag. IsWritten (IsNumbersJson bag) bytes.old bytes.new len.new) }

    // If the result is `SHORT`: `len` is the length of the JSON of the bag, and `bytes` has fewer places.
    ensures too_long { IfNumbers handle.old.held (λ bag. result ≡ SHORT → IsTooLong (IsNumbersJson bag) bytes.old len.new) }
    ensures only { IfNumbers handle.old.held (λ _. result ≢ 0 → (result ≡ 1) ⊎ (result ≡ SHORT)) }
    ensures otherwise { UnlessNumbers handle.old.held (λ code. result ≡ code) }
    ensures unchanged { handle.new.held ≡ handle.old.held }
    ensures buffer { result ≢ 0 → bytes.new ≡ bytes.old }
    ensures failed { result ≢ 0 → result ≢ SHORT → len.new ≡ len.old }
{
    with_held!(alloc, handle, EMPTY, |held| match held {
        Held::Numbers(bag) => write_json(alloc, bag, bytes, len),
        Held::Texts(_) => KIND,
    })
}

/// Reads a bag of numbers from a JSON text, puts it into the handle, and returns 0. The bag that the handle had is freed. The limit of the
/// new bag is the limit in the text or `most`, whichever is less. The text has one of the forms that `hashbag_numbers_to_json` writes;
/// spaces may be between its tokens. Equal numbers add up, and a pair with the count 0 is checked and adds nothing.
///
/// Its numbers are hashed under fixed keys, alike in every run. Use `hashbag_numbers_from_json_keyed` if strangers wrote the text.
///
/// # Errors
///
/// `HASHBAG_NOT_JSON` if the text isn't JSON or isn't UTF-8: `at` is then how many of its bytes had been read when that was found. One of
/// `HASHBAG_JSON_..` for the first fault of a JSON text: if a pair is at fault, `at` is its number, counted from 0. `HASHBAG_MEMORY` if an
/// allocation fails. Then the handle is unchanged, and `at` too except in the two cases above.
#[unsafe(no_mangle)]
pub extern "C" fn hashbag_numbers_from_json(
    alloc: Global,
    handle: &mut Handle,
    most: usize,
    text: &[u8],
    at: &mut usize,
) -> u8
    // If the result is 0: the text is JSON without any of the faults `HASHBAG_JSON_..`. Its pairs were inserted in turn into an empty bag; the limit
    // is the text's, or `most` if less.
    ensures read { result ≡ 0 → HasNumbers handle.new.held (AreNumbersReadFrom most text.now) }

    // Else the result is the number of the error: no memory, no JSON (or no UTF-8), or the first fault under the limit `most`. `at` is the place of
    // the error, or unchanged if it has none.
    ensures cause { result ≢ 0 → IsReported has_number most text.now result at.old at.new }
    ensures err { result ≢ 0 → handle.new.held ≡ handle.old.held }
    ensures place { result ≡ 0 → at.new ≡ at.old }
{
    read_json!(alloc, handle, Numbers, State::fixed(), most, text, at)
}

/// Reads a bag from a JSON text into the handle, as `hashbag_numbers_from_json` does, with two keys of the caller. Draw the keys at random:
/// whoever knows them can find numbers that collide.
///
/// # Errors
///
/// Same as `hashbag_numbers_from_json`.
#[unsafe(no_mangle)]
pub extern "C" fn hashbag_numbers_from_json_keyed(
    alloc: Global,
    handle: &mut Handle,
    most: usize,
    key0: u64,
    key1: u64,
    text: &[u8],
    at: &mut usize,
) -> u8
    // If the result is 0: the text is JSON without any of the faults `HASHBAG_JSON_..`. Its pairs were inserted in turn into an empty bag; the limit
    // is the text's, or `most` if less.
    ensures read { result ≡ 0 → HasNumbers handle.new.held (AreNumbersReadFrom most text.now) }
    ensures keys { result ≡ 0 → HasNumbers handle.new.held (HashesUnder key0 key1) }

    // Else the result is the number of the error: no memory, no JSON (or no UTF-8), or the first fault under the limit `most`. `at` is the place of
    // the error, or unchanged if it has none.
    ensures cause { result ≢ 0 → IsReported has_number most text.now result at.old at.new }
    ensures err { result ≢ 0 → handle.new.held ≡ handle.old.held }
    ensures place { result ≡ 0 → at.new ≡ at.old }
{
    let state = State::keyed(key0, key1);
    read_json!(alloc, handle, Numbers, state, most, text, at)
}
