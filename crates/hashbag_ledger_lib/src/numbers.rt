//! The numbers of a database: whole, with a sign, at most 2^63-1. In clauses, `MatchOption` says when a result is `None`, and else what is
//! true of its value.
ghost use Rattle.std.specs.Prelude.{◌≡◌, ◌≤◌, ◌<◌, ◌^◌, ◌-◌, pos, MatchOption};
ghost use Rattle.hashbag_ledger_lib.specs.Numbers.{change_at, plain, size, IsNumberOf};

use crate::movements::Change;

/// The greatest number of a row, and the limit of the total of a stock that is kept: 2^63-1.
pub const MOST: usize = 9_223_372_036_854_775_807;

/// Returns `In(0)` for `Out(0)`, and any other change as it is.
pub fn plain_change(change: Change) -> Change
    ensures { result ≡ plain change }
{
    match change {
        Change::Out(0) => Change::In(0),
        _ => change,
    }
}

/// Returns how many come in or go out.
pub fn size_of(change: Change) -> usize
    ensures { result ≡ size change }
{
    match change {
        Change::In(n) => n,
        Change::Out(n) => n,
    }
}

/// Returns the number of a change as a row has it: below 0 for `Out`. Returns `None` if the size is above [`MOST`].
///
/// [`change_of`] turns the number back into the change; for `Out(0)` it returns `In(0)`.
pub fn number_of(change: Change) -> Option<i64>
    // `None` exactly if the size is above [`MOST`]. Else `change_at` of the number is the change; for `Out 0` it is `In 0`.
    ensures { MatchOption result (2 ^ 63 - 1 < size change) (IsNumberOf change) }
{
    match change {
        Change::In(n) => signed(n),
        Change::Out(n) => match signed(n) {
            Some(m) => Some(-m),
            None => None,
        },
    }
}

/// Returns a number as a row has it, or `None` if the number is above [`MOST`].
pub fn signed(n: usize) -> Option<i64>
    ensures { MatchOption result (2 ^ 63 - 1 < n) (λ number. (n ≤ 2 ^ 63 - 1) × (number ≡ pos n)) }
{
    if n > MOST {
        return None;
    }
    Some(n as i64)
}

/// Returns the change of a number in a row: `Out` below 0, else `In`.
pub fn change_of(number: i64) -> Change
    ensures { result ≡ change_at number }
{
    if number < 0 {
        return Change::Out(number.unsigned_abs() as usize);
    }
    Change::In(number as usize)
}
