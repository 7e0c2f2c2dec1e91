//! `ovn_first`: answers a script on standard input as `ovn_nd` does without arguments. It has no reader of arguments, and so
//! is made sooner: the launcher runs a first script with it.
#![tactic(auto)]

use nv_input::{Opening, answer_input};
use nv_io::{StdSink, StdSource};
use std::process::ExitCode;

// How many hops a traced packet may take, as where no argument of `ovn_nd` says so.
const HOPS: u8 = 16;

fn main(rt: HostRuntime) -> ExitCode {
    let mut source = StdSource::new(rt.stdin());
    let mut sink = StdSink::new(rt.stdout());
    let opening = Opening::new(rt.alloc(), HOPS);
    ExitCode::from(answer_input(rt.alloc(), opening, &mut source, &mut sink).code())
}
