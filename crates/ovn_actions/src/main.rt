//! `ovn_actions`: reads an action list a line on standard input, and answers each by its text or the offset of its fault.
#![tactic(auto)]

mod answer;

use answer::put_answer;
use nv_base::OutOfMemory;
use std::alloc::Global;
use std::io::{self, ErrorKind, Read, Write};

fn main(rt: HostRuntime) -> io::Result<()> {
    let alloc = rt.alloc();
    let mut input = Vec::new(alloc);
    rt.stdin().read_to_end(&mut input)?;
    let mut output = Vec::new(alloc);
    put_answers(alloc, &mut output, &input).map_err(|_| ErrorKind::OutOfMemory)?;
    rt.stdout().write_all(&output)
}

// Puts the answer to each line.
fn put_answers(alloc: Global, output: &mut Vec<u8>, input: &[u8]) -> Result<(), OutOfMemory> {
    for line in input.split(|byte| *byte == b'\n') {
        put_answer(alloc, output, line)?;
    }
    Ok(())
}
