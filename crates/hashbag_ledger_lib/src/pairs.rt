//! Lists of pairs, taken apart and put together.
ghost use Rattle.std.specs.Prelude.{◌≡◌, IfOk};
ghost use Rattle.std.specs.List.{zip};
ghost use Rattle.std.specs.Map.{keys_of, values_of};

use std::alloc::{AllocError, Global};

/// Returns two lists: the first halves of the pairs, and their second halves, each in the order of the pairs.
///
/// # Errors
///
/// An allocation fails.
pub fn unzip<A: Drop, B: Drop>(
    alloc: Global,
    pairs: Vec<(A, B)>,
) -> Result<(Vec<A>, Vec<B>), AllocError>
    ensures firsts { IfOk result (λ lists. lists.0.items ≡ keys_of pairs.items) }
    ensures seconds { IfOk result (λ lists. lists.1.items ≡ values_of pairs.items) }
{
    let mut firsts = Vec::new(alloc);
    let mut seconds = Vec::new(alloc);
    for (first, second) in pairs {
        firsts.push(first).map_err(AllocError::from)?;
        seconds.push(second).map_err(AllocError::from)?;
    }
    Ok((firsts, seconds))
}

/// Returns the pairs of the elements that are at the same place in both lists. The elements of the longer list without a partner are dropped.
///
/// # Errors
///
/// An allocation fails.
pub fn zip<A: Drop, B: Drop>(
    alloc: Global,
    firsts: Vec<A>,
    seconds: Vec<B>,
) -> Result<Vec<(A, B)>, AllocError>
    ensures { IfOk result (λ pairs. pairs.items ≡ zip firsts.items seconds.items) }
{
    let mut pairs = Vec::new(alloc);
    let mut others = seconds.into_iter();
    for first in firsts {
        let Some(second) = others.next() else {
            return Ok(pairs);
        };
        pairs.push((first, second)).map_err(AllocError::from)?;
    }
    Ok(pairs)
}
