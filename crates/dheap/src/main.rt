//! `dheap ARITY` carries out the commands of standard input on a heap of that arity.
#![tactic(auto)]

mod serve;
mod start;

use std::process::ExitCode;

fn main(rt: HostRuntime) -> ExitCode {
    ExitCode::from(start::start(
        &rt,
        rt.alloc(),
        &mut rt.stdin(),
        &mut rt.stdout(),
        &mut rt.stderr(),
    ))
}
