//! `ovn_draw HOPS [TRACE]`: reads a script on standard input, runs its lines as `ovn_nd` does, and writes as a graph in the language DOT the
//! network that they leave; or, where TRACE is a number, the network as it is where the script traces a packet for the TRACE-th time, and
//! the way of that packet on it. Its status is that of the run. What it writes is tested, and not proved.
#![tactic(auto)]

mod draw;

use draw::draw_lines;
use nv_io::{StdSink, StdSource};
use nv_lines::Status;
use std::env;
use std::io::{self, ErrorKind};
use std::process::ExitCode;
use std::rt::Env;

// What the arguments ask for.
#[derive(Clone, Copy)]
struct Wish {
    hops: u8,
    trace: Option<u64>,
}

fn main(rt: HostRuntime) -> ExitCode {
    let arguments = match arguments(&rt) {
        Ok(arguments) => arguments,
        Err(error) if error.kind() == ErrorKind::OutOfMemory => {
            return ExitCode::from(Status::OutOfMemory.code());
        }
        // An argument is not UTF-8.
        Err(_) => return ExitCode::from(Status::Usage.code()),
    };
    let Some(wish) = wish_of(&arguments) else {
        return refuse_arguments(&rt);
    };
    let mut source = StdSource::new(rt.stdin());
    let mut sink = StdSink::new(rt.stdout());
    let status = draw_lines(rt.alloc(), wish.hops, wish.trace, &mut source, &mut sink);
    ExitCode::from(status.code())
}

// The program's arguments, its name first.
fn arguments(rt: &(impl Env + AllocGlobal)) -> io::Result<Vec<String>> {
    Ok(env::args(rt)?.collect(rt.alloc())?)
}

// What the arguments ask for: hops from 1 to 64, and which trace. None where they are not of the form.
fn wish_of(arguments: &[String]) -> Option<Wish> {
    let (hops, trace) = match arguments {
        [_, hops] => (hops, None),
        [_, hops, trace] => (hops, Some(trace.parse::<u64>().ok()?)),
        _ => return None,
    };
    let hops = hops.parse::<u8>().ok()?;
    if hops == 0 || hops > 64 || trace == Some(0) {
        return None;
    }
    Some(Wish { hops, trace })
}

fn refuse_arguments(rt: &impl Print) -> ExitCode {
    match print!(rt; "usage: ovn_draw HOPS [TRACE]\n") {
        Ok(()) => ExitCode::from(Status::Usage.code()),
        Err(_) => ExitCode::from(Status::WriteFault.code()),
    }
}
