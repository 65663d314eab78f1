//! The program's output: a line for each reply, a line for each item of the joins, and a line for each bag's tree.
ghost use Rattle.std.specs.Prelude.{◌≡◌, false, codes, flat_map, string_bytes, OnOk};
ghost use Rattle.serde_json.specs.Written.{has_float};
ghost use Rattle.serde_json.specs.View.{view};
ghost use Rattle.hashbag_run_lib.specs.Lines.{AppendsTo, reply_line, outer_line, count_line, signed_line, tree_line};
ghost use Rattle.hashbag_run_lib.specs.Joined.{PrintsJoins};

use crate::joined::JoinLists;
use hashbag::script::Reply;
use serde_json::Value;
use std::alloc::{AllocError, Global};

// Appends the line of a reply of a bag.
fn print_reply(text: &mut String, bag: &str, reply: &Reply<u64>) -> Result<(), AllocError>
    ensures { OnOk result (AppendsTo text.old text.new (reply_line bag.now reply.now)) }
{
    match reply {
        Reply::Count(count) => writeln!(text, "{bag} count {count}"),
        Reply::Left(count) => writeln!(text, "{bag} left {count}"),
        Reply::Taken(value, count) => writeln!(text, "{bag} taken {value} {count}"),
        Reply::Absent => writeln!(text, "{bag} absent"),
        Reply::Done => writeln!(text, "{bag} done"),
        Reply::TooMany => writeln!(text, "{bag} too many"),
        Reply::BelowTotal => writeln!(text, "{bag} below total"),
    }
}

/// Appends the lines of the replies of the bag with this name.
pub fn print_replies(
    text: &mut String,
    bag: &str,
    replies: &Vec<Reply<u64>>,
) -> Result<(), AllocError>
    ensures { OnOk result (AppendsTo text.old text.new (flat_map (reply_line bag.now) replies.now.items)) }
{
    for reply in replies {
        print_reply(text, bag, reply)?;
    }
    Ok(())
}

// Appends a line for each value, with its two counts.
fn print_outer(text: &mut String, outer: &Vec<(u64, usize, usize)>) -> Result<(), AllocError>
    ensures { OnOk result (AppendsTo text.old text.new (flat_map outer_line outer.now.items)) }
{
    for (value, first, second) in outer {
        writeln!(text, "outer {value} {first} {second}")?;
    }
    Ok(())
}

// Appends a line for each value, with its count. The line begins with `kind`.
fn print_counts(text: &mut String, kind: &str, counts: &Vec<(u64, usize)>) -> Result<(), AllocError>
    ensures { OnOk result (AppendsTo text.old text.new (flat_map (count_line kind.now) counts.now.items)) }
{
    for (value, count) in counts {
        writeln!(text, "{kind} {value} {count}")?;
    }
    Ok(())
}

// Appends a line for each value, with its signed count.
fn print_signed(text: &mut String, signed: &Vec<(u64, isize)>) -> Result<(), AllocError>
    ensures { OnOk result (AppendsTo text.old text.new (flat_map signed_line signed.now.items)) }
{
    for (value, count) in signed {
        writeln!(text, "signed {value} {count}")?;
    }
    Ok(())
}

/// Appends the lines of the joins, each join sorted by value.
pub fn print_joins(text: &mut String, joins: JoinLists<u64>) -> Result<(), AllocError>
    // The lines of the four joins were appended, those of each join in ascending order of values.
    ensures { OnOk result (PrintsJoins joins (string_bytes text.old) (string_bytes text.new)) }
{
    let JoinLists {
        mut outer,
        mut difference,
        mut signed,
        mut not_in,
    } = joins;
    outer.sort_unstable_by_key(|join| join.0);
    difference.sort_unstable_by_key(|pair| pair.0);
    signed.sort_unstable_by_key(|pair| pair.0);
    not_in.sort_unstable_by_key(|pair| pair.0);
    print_outer(text, &outer)?;
    print_counts(text, "difference", &difference)?;
    print_signed(text, &signed)?;
    print_counts(text, "not_in", &not_in)?;
    Ok(())
}

/// Appends the line `BAG json TREE`. The tree is written without spaces.
pub fn print_tree(
    alloc: Global,
    text: &mut String,
    bag: &str,
    tree: &Value,
) -> Result<(), AllocError>
    requires { has_float (view tree.now) ≡ false }
    ensures { OnOk result (AppendsTo text.old text.new (tree_line bag.now (view tree.now))) }
{
    let compact = tree.to_string(alloc)?;
    writeln!(text, "{bag} json {compact}")
}
