//! The bag that tokens are counted in.
ghost use Rattle.std.specs.Prelude.{◌≡◌, [], IfOk};

use hashbag_core::HashBag;
use hashbag_shell::trouble::Trouble;
use std::hash::RandomState;

/// A bag of texts. Strangers choose the texts, so each start of the program hashes with other keys.
pub type Bag = HashBag<String, RandomState>;

/// Returns an empty bag.
///
/// # Errors
///
/// `Random` if the system gives no random keys.
pub fn empty_bag<'a>(rt: &HostRuntime) -> Result<Bag, Trouble<'a>>
    ensures { IfOk result (λ bag. bag.items ≡ []) }
{
    match RandomState::new(rt) {
        Ok(state) => Ok(HashBag::with_hasher(rt.alloc(), state)),
        Err(error) => Err(Trouble::Random(error)),
    }
}
