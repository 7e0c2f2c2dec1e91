//! `ovn_script`: reads a line of a script a line on standard input, and answers each by what it says: edits, a query, or its
//! refusal.
#![tactic(auto)]

mod answer;

use answer::put_answer;
use nv_base::OutOfMemory;
use std::alloc::Global;
use std::io::{self, ErrorKind, Read, Write};

fn main(rt: HostRuntime) -> io::Result<()> {
    let alloc = rt.alloc();
    let mut input = Vec::new(alloc);
    rt.stdin().read_to_end(&mut input)?;
    let mut output = Vec::new(alloc);
    put_answers(alloc, &mut output, &input).map_err(|_| ErrorKind::OutOfMemory)?;
    rt.stdout().write_all(&output)
}

// Puts the answer to each line.
fn put_answers(alloc: Global, output: &mut Vec<u8>, input: &[u8]) -> Result<(), OutOfMemory> {
    for line in input.split(|byte| *byte == b'\n') {
        put_answer(alloc, output, line)?;
    }
    Ok(())
}
