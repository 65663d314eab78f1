//! Shares of work, for reports of progress.
ghost use Rattle.std.specs.Prelude.{◌≡◌};
ghost use Rattle.hashbag_shell.specs.Paces.{share};

/// Returns `n * part / whole`, rounded down, or `None` if `whole` is 0.
///
/// If `n` is 100, `part` the work done and `whole` all work, the result is the percentage done. If `n` is the seconds so far, `part` the work
/// left and `whole` the work done, the result is the seconds left.
pub fn share_of(n: u64, part: u64, whole: u64) -> Option<u128>
    ensures { result ≡ share n part whole }
{
    if whole == 0 {
        return None;
    }
    Some(u128::from(n) * u128::from(part) / u128::from(whole))
}
