//! `ovn_edits`: reads a script of editing commands on standard input, does what each line asks for, and answers each by `ok` or by its
//! refusal; `dump` alone in a line is answered by the network, as the script that makes it, `show` by the network as ovn-nbctl(8) shows
//! it, `count` by how much there is of each kind, and `deciding` before a switch and two MACs by the ACL that decides in each direction
//! on a packet from the first to the second; `route` before a router and two addresses by the hop by which it passes a packet from the first
//! to the second on: the number of the port, the next host, and the address that asks for its MAC; `touched` by the kinds and numbers of the
//! records that the last accepted line of edits may have changed, and where that is one number of what a record lists, by `lists` and it.
#![tactic(auto)]

mod answer;
mod choice;
mod counts;
mod edits;
mod route;
mod touched;

use answer::put_answer;
use nb_check::Tables;
use nv_base::{Items, OutOfMemory};
use std::alloc::Global;
use std::io::{self, ErrorKind, Read, Write};

fn main(rt: HostRuntime) -> io::Result<()> {
    let alloc = rt.alloc();
    let mut input = Vec::new(alloc);
    rt.stdin().read_to_end(&mut input)?;
    let mut output = Vec::new(alloc);
    let mut tables = Tables::new();
    let answered = put_answers(alloc, &mut tables, &mut output, &input);
    // A call: at the end of the scope the drop of each field would be proved anew on each way out.
    drop(tables);
    answered.map_err(|_| ErrorKind::OutOfMemory)?;
    rt.stdout().write_all(&output)
}

// Puts the answer to each line.
fn put_answers(
    alloc: Global,
    tables: &mut Tables,
    output: &mut Vec<u8>,
    script: &[u8],
) -> Result<(), OutOfMemory> {
    let mut touched = Items::new(alloc);
    for line in script.split(|byte| *byte == b'\n') {
        put_answer(alloc, tables, &mut touched, output, line)?;
    }
    Ok(())
}
