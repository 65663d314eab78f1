//! The program's verbs: the step that a verb and its numbers mean.
ghost use Rattle.std.specs.Prelude.{◌≡◌, ◌≢◌, [], ◌∷◌, codes, option_map, IfOk};
ghost use Rattle.hashbag_run_lib.specs.Commands.{command, command_of};

use hashbag::script::Step;
use std::alloc::{AllocError, Global};
use std::str;

// Returns the step `retain` of these numbers, which are pairs of a value and a count, or `None` if there is an odd number of them.
fn retain(alloc: Global, numbers: &[u64]) -> Result<Option<Step<u64>>, AllocError>
    ensures { IfOk result (λ step. option_map command_of step ≡ command (codes "retain") numbers.now) }
{
    if numbers.len() % 2 != 0 {
        return Ok(None);
    }
    let mut pairs = Vec::new(alloc);
    for i in 0..numbers.len() / 2 {
        pairs.push((numbers[2 * i], numbers[2 * i + 1] as usize))?;
    }
    Ok(Some(Step::Retain(pairs)))
}

// Returns the step of a verb without numbers, or `None` if there is no such step.
fn step_alone(verb: &str) -> Option<Step<u64>>
    requires { verb.now ≢ codes "retain" }
    ensures { option_map command_of result ≡ command verb.now [] }
{
    match verb {
        "clear" => Some(Step::Clear),
        "shrink" => Some(Step::ShrinkToFit),
        _ => None,
    }
}

// Returns the step of a verb and a number, or `None` if there is no such step.
fn step_with_one(verb: &str, n: u64) -> Option<Step<u64>>
    ensures { option_map command_of result ≡ command verb.now (n ∷ []) }
{
    match verb {
        "insert" => Some(Step::Insert(n)),
        "replace" => Some(Step::Replace(n)),
        "remove" => Some(Step::Remove(n)),
        "try" => Some(Step::TryTake(n)),
        "all" => Some(Step::TakeAll(n)),
        "count" => Some(Step::Count(n)),
        "reserve" => Some(Step::Reserve(n as usize)),
        "limit" => Some(Step::Limit(n as usize)),
        _ => None,
    }
}

// Returns the step of a verb and two numbers, or `None` if there is no such step.
fn step_with_two(verb: &str, value: u64, n: u64) -> Option<Step<u64>>
    requires { verb.now ≢ codes "retain" }
    ensures { option_map command_of result ≡ command verb.now (value ∷ n ∷ []) }
{
    match verb {
        "many" => Some(Step::InsertMany(value, n as usize)),
        "upto" => Some(Step::RemoveUpTo(value, n as usize)),
        "set" => Some(Step::EntrySet(value, n as usize)),
        "or" => Some(Step::EntryOr(value, n as usize)),
        _ => None,
    }
}

/// Returns the step of a verb and its numbers, or `None` if the verb is unknown or doesn't take that many numbers.
pub fn step_of(alloc: Global, verb: &[u8], numbers: &[u64]) -> Result<Option<Step<u64>>, AllocError>
    // The step is the one that is written as `verb` and `numbers`; there is none if the verb is unknown or takes another number of them.
    ensures { IfOk result (λ step. option_map command_of step ≡ command verb.now numbers.now) }
{
    let Ok(verb) = str::from_utf8(verb) else {
        return Ok(None);
    };
    if verb == "retain" {
        return retain(alloc, numbers);
    }
    match numbers {
        [] => Ok(step_alone(verb)),
        [n] => Ok(step_with_one(verb, *n)),
        [value, n] => Ok(step_with_two(verb, *value, *n)),
        _ => Ok(None),
    }
}
