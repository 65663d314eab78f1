//! Shares of a total, in percent.
ghost use Rattle.std.specs.Prelude.{◌≡◌, ◌+◌, ◌*◌, ◌<◌, ◌^◌, ◌++◌, OnOk};
ghost use Rattle.hashbag_words_lib.specs.Shares.{hundredths_of, rounded, two_decimals};

use itoa::Buffer;
use std::alloc::AllocError;

// Returns `n / d`, rounded to the nearest number, halves up. Returns 0 if `d` is 0.
pub(crate) fn rounded(n: u128, d: u128) -> u128
    requires { 2 * n + 2 * d < 2 ^ 128 }
    ensures { result ≡ rounded n d }
{
    if d == 0 {
        return 0;
    }
    (2 * n + d) / (2 * d)
}

/// Appends a count as percent of the total, with two decimals.
///
/// # Errors
///
/// An allocation fails.
pub(crate) fn push_share(text: &mut Vec<u8>, total: usize, count: usize) -> Result<(), AllocError>
    ensures { OnOk result (text.new.items ≡ text.old.items ++ two_decimals (hundredths_of total count)) }
{
    let hundredths = rounded(10_000 * (count as u128), total as u128);
    let mut digits = Buffer::new();
    text.extend_from_slice(digits.format(hundredths / 100).as_bytes())?;
    text.push(b'.')?;
    text.push(b'0' + (hundredths / 10 % 10) as u8)?;
    text.push(b'0' + (hundredths % 10) as u8)?;
    Ok(())
}
