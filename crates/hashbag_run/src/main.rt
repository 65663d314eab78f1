//! Reads steps on two bags, a line each, from standard input, and prints what each replies, the joins of the bags and
//! their trees. Arguments are ignored.
#![tactic(auto)]

use hashbag_run_lib::execute::execute;
use std::process::ExitCode;

fn main(rt: HostRuntime) -> ExitCode {
    ExitCode::from(execute(rt.alloc(), &mut rt.stdin(), &mut rt.stdout()))
}
