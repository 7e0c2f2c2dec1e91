//! `ovn_match`: reads a match a line on standard input, and answers each by its canonical text or its first fault, or by
//! what it says as a microflow.
//! With a number as its argument it also evaluates each match of so many packets, for measuring.
#![tactic(auto)]

mod answer;
mod nothing;

use answer::put_answer;
use nv_base::OutOfMemory;
use std::alloc::Global;
use std::env;
use std::io::{self, ErrorKind, Read, Write};

fn main(rt: HostRuntime) -> io::Result<()> {
    let alloc = rt.alloc();
    let arguments: Vec<String> = env::args(&rt)?.collect(alloc)?;
    let times = match arguments.get(1) {
        Some(argument) => argument.parse().unwrap_or(0),
        None => 0,
    };
    let mut input = Vec::new(alloc);
    rt.stdin().read_to_end(&mut input)?;
    let mut output = Vec::new(alloc);
    put_answers(alloc, &mut output, &input, times).map_err(|_| ErrorKind::OutOfMemory)?;
    rt.stdout().write_all(&output)
}

// Puts the answer to each line.
fn put_answers(
    alloc: Global,
    output: &mut Vec<u8>,
    input: &[u8],
    times: u32,
) -> Result<(), OutOfMemory> {
    for line in input.split_inclusive(|byte| *byte == b'\n') {
        let text = line.strip_suffix(b"\n").unwrap_or(line);
        put_answer(alloc, output, text, times)?;
    }
    Ok(())
}
