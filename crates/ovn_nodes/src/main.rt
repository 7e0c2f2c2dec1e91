//! `ovn_nodes`: reads a script of deltas on standard input, applies each to a node that doubles, joins or groups numbers, or keeps the
//! first number of each group, and answers each line by what was made and what changed.
#![tactic(auto)]

mod answer;
mod doubler;
mod grouped;
mod hundreds;
mod joined;
mod kept;
mod led;
mod names;
mod script;

use answer::Nodes;
use nv_base::OutOfMemory;
use std::alloc::Global;
use std::io::{self, ErrorKind, Read, Write};

fn main(rt: HostRuntime) -> io::Result<()> {
    let alloc = rt.alloc();
    let mut input = Vec::new(alloc);
    rt.stdin().read_to_end(&mut input)?;
    let mut output = Vec::new(alloc);
    put_answers(alloc, &mut output, &input).map_err(|_| ErrorKind::OutOfMemory)?;
    rt.stdout().write_all(&output)
}

// Puts the answer to each line that has a word.
fn put_answers(alloc: Global, output: &mut Vec<u8>, input: &[u8]) -> Result<(), OutOfMemory> {
    let mut nodes = Nodes::new(alloc);
    for line in input.split(|byte| *byte == b'\n') {
        if !line.is_empty() && line[0] != b'#' {
            nodes.put_answer(alloc, output, line)?;
        }
    }
    Ok(())
}
