//! Decoding of all bytes at once.
ghost use Rattle.std.specs.Prelude.{◌≡◌, None, Some, string_bytes, IfErr, IfOk};
ghost use Rattle.hashbag_text.specs.Decoders.{IfLine};
ghost use Rattle.hashbag_text.specs.Encodings.{decoded};

use crate::bad_bytes::DecodeError;
use crate::decoder::Decoder;
use crate::encoding::Encoding;
use std::alloc::Global;

/// Returns the text of bytes.
///
/// # Errors
///
/// `Line` if the bytes aren't text in this encoding. `Memory` if an allocation fails.
pub fn decode(alloc: Global, encoding: Encoding, bytes: &[u8]) -> Result<String, DecodeError>
    ensures text { IfOk result (λ text. decoded encoding bytes.now ≡ Some (string_bytes text)) }

    // If the error is `Line`, the bytes aren't text in this encoding.
    ensures bad_bytes { IfErr result (λ e. IfLine e (decoded encoding bytes.now ≡ None)) }
{
    let mut decoder = Decoder::new(encoding);
    let Ok(mut text) = String::with_capacity(alloc, bytes.len()) else {
        return Err(DecodeError::Memory);
    };
    if let Err(error) = decoder.push(bytes, &mut text) {
        return Err(error);
    }
    match decoder.end() {
        Ok(()) => Ok(text),
        Err(error) => Err(error),
    }
}
