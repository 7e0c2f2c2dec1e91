//! `ovn_show`: reads a script on standard input, runs its lines as `ovn_nd` does, and writes the network that they leave, each object
//! with its number. Its status is that of the run. What it writes is tested, and not proved.
#![tactic(auto)]

mod show;

use nv_io::{StdSink, StdSource};
use nv_lines::Status;
use show::show_network;
use std::process::ExitCode;
use std::rt::Env;
use std::{env, io};

fn main(rt: HostRuntime) -> ExitCode {
    let Ok(count) = argument_count(&rt) else {
        // An argument is not UTF-8.
        return ExitCode::from(Status::Usage.code());
    };
    if count > 1 {
        return refuse_arguments(&rt);
    }
    let mut source = StdSource::new(rt.stdin());
    let mut sink = StdSink::new(rt.stdout());
    ExitCode::from(show_network(rt.alloc(), &mut source, &mut sink).code())
}

// How many arguments there are, the program's name among them.
fn argument_count(rt: &(impl Env + AllocGlobal)) -> io::Result<usize> {
    Ok(env::args(rt)?.count())
}

fn refuse_arguments(rt: &impl Print) -> ExitCode {
    match print!(rt; "usage: ovn_show\n") {
        Ok(()) => ExitCode::from(Status::Usage.code()),
        Err(_) => ExitCode::from(Status::WriteFault.code()),
    }
}
