//! `ovn_echo HOPS`: reads a script on standard input, runs its lines as `ovn_nd` does, and writes each line that has a reply, after its
//! number, before the reply. Its status is that of the run. What it writes is tested, and not proved.
#![tactic(auto)]

mod echo;

use echo::echo_lines;
use nv_io::{StdSink, StdSource};
use nv_lines::Status;
use std::env;
use std::io::{self, ErrorKind};
use std::process::ExitCode;
use std::rt::Env;

fn main(rt: HostRuntime) -> ExitCode {
    let arguments = match arguments(&rt) {
        Ok(arguments) => arguments,
        Err(error) if error.kind() == ErrorKind::OutOfMemory => {
            return ExitCode::from(Status::OutOfMemory.code());
        }
        // An argument is not UTF-8.
        Err(_) => return ExitCode::from(Status::Usage.code()),
    };
    let Some(hops) = hops_of(&arguments) else {
        return refuse_arguments(&rt);
    };
    let mut source = StdSource::new(rt.stdin());
    let mut sink = StdSink::new(rt.stdout());
    ExitCode::from(echo_lines(rt.alloc(), hops, &mut source, &mut sink).code())
}

// The program's arguments, its name first.
fn arguments(rt: &(impl Env + AllocGlobal)) -> io::Result<Vec<String>> {
    Ok(env::args(rt)?.collect(rt.alloc())?)
}

// How many hops a traced packet may take, from 1 to 64. None where the arguments are not of the form.
fn hops_of(arguments: &[String]) -> Option<u8> {
    let [_, hops] = arguments else {
        return None;
    };
    let hops = hops.parse::<u8>().ok()?;
    if hops == 0 || hops > 64 {
        None
    } else {
        Some(hops)
    }
}

fn refuse_arguments(rt: &impl Print) -> ExitCode {
    match print!(rt; "usage: ovn_echo HOPS\n") {
        Ok(()) => ExitCode::from(Status::Usage.code()),
        Err(_) => ExitCode::from(Status::WriteFault.code()),
    }
}
