//! Calls on a walk of either kind. In clauses `left` is what a walk has. `IfPairs left P`: if the walk has pairs, of either kind, P holds of them;
//! in `λ _ pairs. ..` the first argument is the type of the values.
ghost use Rattle.std.specs.Prelude.{◌≡◌, length, drop, None};
ghost use Rattle.hashbag_c.specs.Walked.{IfPairs};

use crate::held::{Left, with_held};
use crate::walk::Walk;
use std::alloc::Global;
use std::collections::VecDeque;

// Removes the first n pairs, or all if there are fewer.
pub(crate) fn drop_front<T: Drop>(pairs: &mut VecDeque<(T, usize)>, n: usize)
    ensures { pairs.new.items ≡ drop n pairs.old.items }
{
    for i in 0..n {
        drop(pairs.pop_front());
    }
}

/// Returns how many distinct values are left of a walk. It is 0 at the end, and for an empty walk.
#[unsafe(no_mangle)]
pub extern "C" fn hashbag_walk_left(alloc: Global, walk: &mut Walk) -> usize
    ensures left { IfPairs walk.old.left (λ _ pairs. result ≡ length pairs) }
    ensures empty { walk.old.left ≡ None → result ≡ 0 }
    ensures unchanged { walk.new.left ≡ walk.old.left }
{
    with_held!(alloc, walk, 0, |left| match left {
        Left::Numbers(pairs) => pairs.len(),
        Left::Texts(pairs) => pairs.len(),
    })
}

/// Frees what is left of a walk, and leaves an empty walk. An empty walk stays empty.
#[unsafe(no_mangle)]
pub extern "C" fn hashbag_walk_free(alloc: Global, walk: &mut Walk)
    ensures { walk.new.left ≡ None }
{
    drop(walk.take(alloc));
}
