//! `ovn_explain [NAME]`: reads a script on standard input, runs its lines as `ovn_nd` does, and writes for each refused line why it is
//! refused, after NAME (`-` where none is given) and the number of the line; and warnings, of lines that were done and do nothing as the
//! network stands. Its status is that of the run. `ovn_explain --table` writes what is said of refusals as a page in Markdown. What it
//! writes is tested, and not proved.
#![tactic(auto)]

mod explain;

use explain::{explain_lines, put_table};
use nv_io::{StdSink, StdSource};
use nv_lines::Status;
use std::env;
use std::io::{self, ErrorKind};
use std::process::ExitCode;
use std::rt::Env;

fn main(rt: HostRuntime) -> ExitCode {
    let arguments = match arguments(&rt) {
        Ok(arguments) => arguments,
        Err(error) if error.kind() == ErrorKind::OutOfMemory => {
            return ExitCode::from(Status::OutOfMemory.code());
        }
        // An argument is not UTF-8.
        Err(_) => return ExitCode::from(Status::Usage.code()),
    };
    let mut sink = StdSink::new(rt.stdout());
    let name = match arguments.as_slice() {
        [] | [_] => "-",
        [_, name] => name.as_str(),
        _ => return refuse_arguments(&rt),
    };
    if name == "--table" {
        return ExitCode::from(put_table(rt.alloc(), &mut sink).code());
    }
    let mut source = StdSource::new(rt.stdin());
    ExitCode::from(explain_lines(rt.alloc(), name, &mut source, &mut sink).code())
}

// The program's arguments, its name first.
fn arguments(rt: &(impl Env + AllocGlobal)) -> io::Result<Vec<String>> {
    Ok(env::args(rt)?.collect(rt.alloc())?)
}

fn refuse_arguments(rt: &impl Print) -> ExitCode {
    match print!(rt; "usage: ovn_explain [NAME]\n") {
        Ok(()) => ExitCode::from(Status::Usage.code()),
        Err(_) => ExitCode::from(Status::WriteFault.code()),
    }
}
