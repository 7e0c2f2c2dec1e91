//! `ovn_nd`: reads a script on standard input, and answers each line on standard output; or tells its help or its version.
#![tactic(auto)]

use nv_io::{StdSink, StdSource};
use nv_options::requested_text;
use nv_serve::{Status, run};
use std::env;
use std::io::{self, ErrorKind};
use std::process::ExitCode;
use std::rt::Env;

fn main(rt: HostRuntime) -> ExitCode {
    let arguments = match arguments(&rt) {
        Ok(arguments) => arguments,
        Err(error) if error.kind() == ErrorKind::OutOfMemory => {
            return ExitCode::from(Status::OutOfMemory.code());
        }
        // An argument is not UTF-8.
        Err(_) => return ExitCode::from(Status::Usage.code()),
    };
    match requested_text(rt.alloc(), &arguments) {
        Ok(Some(text)) => return tell(&rt, &text),
        Ok(None) => {}
        Err(_) => return ExitCode::from(Status::OutOfMemory.code()),
    }
    let mut source = StdSource::new(rt.stdin());
    let mut sink = StdSink::new(rt.stdout());
    ExitCode::from(run(rt.alloc(), &arguments, &mut source, &mut sink).code())
}

// Writes the help or the version.
fn tell(rt: &impl Print, text: &str) -> ExitCode {
    match print!(rt; "{text}") {
        Ok(()) => ExitCode::from(Status::Done.code()),
        Err(_) => ExitCode::from(Status::WriteFault.code()),
    }
}

// The program's arguments, its name first.
fn arguments(rt: &(impl Env + AllocGlobal)) -> io::Result<Vec<String>> {
    Ok(env::args(rt)?.collect(rt.alloc())?)
}
