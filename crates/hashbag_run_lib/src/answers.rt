//! The output of the steps of two empty bags.
ghost use Rattle.std.specs.Prelude.{◌≡◌, false, IfOk, string_bytes};
ghost use Rattle.serde_json.specs.Written.{has_float};
ghost use Rattle.serde_json.specs.View.{view};
ghost use Rattle.hashbag_run_lib.specs.Answers.{AreAnswersTo};
ghost use Rattle.hashbag_run_lib.specs.Output.{IsOutputOf};

use crate::joined::{JoinLists, run_and_join};
use crate::output::{print_joins, print_replies, print_tree};
use hashbag::script::{Reply, Step};
use hashbag::{BagError, HashBag};
use serde_json::Value;
use std::alloc::Global;

// The replies to the steps of two bags.
#[derive(Drop)]
struct Answers {
    replies_a: Vec<Reply<u64>>,
    replies_b: Vec<Reply<u64>>,
    // The joins of the bags that the steps leave.
    joins: JoinLists<u64>,
    // The trees of these bags.
    tree_a: Value,
    tree_b: Value,
}

// Runs the steps on two empty bags, and returns the replies, the joins and the trees.
fn answers_to(
    alloc: Global,
    steps_a: Vec<Step<u64>>,
    steps_b: Vec<Step<u64>>,
) -> Result<Answers, BagError>
    ensures answers { IfOk result (AreAnswersTo steps_a.items steps_b.items) }
    ensures no_float_a { IfOk result (λ answers. has_float (view answers.tree_a) ≡ false) }
    ensures no_float_b { IfOk result (λ answers. has_float (view answers.tree_b) ≡ false) }
{
    let mut a: HashBag<u64> = HashBag::new(alloc);
    let mut b: HashBag<u64> = HashBag::new(alloc);
    let mut replies_a = Vec::new(alloc);
    let mut replies_b = Vec::new(alloc);
    let joins = run_and_join(
        alloc,
        &mut a,
        &mut b,
        steps_a,
        steps_b,
        &mut replies_a,
        &mut replies_b,
    )?;
    Ok(Answers {
        replies_a,
        replies_b,
        joins,
        tree_a: a.to_value(alloc)?,
        tree_b: b.to_value(alloc)?,
    })
}

/// Returns the output of the steps of two empty bags: the replies of each bag, the joins of the bags that the steps leave, and their trees.
///
/// # Errors
///
/// `Memory` if an allocation fails.
pub fn output_of(
    alloc: Global,
    steps_a: Vec<Step<u64>>,
    steps_b: Vec<Step<u64>>,
) -> Result<String, BagError>
    // The text is the replies of each bag, as a plain list replies, the four joins, each in ascending order of values, and the two trees.
    ensures { IfOk result (λ text. IsOutputOf steps_a.items steps_b.items (string_bytes text)) }
{
    let answers = answers_to(alloc, steps_a, steps_b)?;
    let mut text = String::new(alloc);
    print_replies(&mut text, "a", &answers.replies_a)?;
    print_replies(&mut text, "b", &answers.replies_b)?;
    print_joins(&mut text, answers.joins)?;
    print_tree(alloc, &mut text, "a", &answers.tree_a)?;
    print_tree(alloc, &mut text, "b", &answers.tree_b)?;
    Ok(text)
}
