//! What a run begins with.
ghost use Rattle.std.specs.Prelude.{◌≡◌, ◌+◌, ◌<◌, ◌≤◌, IfOk, IfSome, OnOk, length, map, sum_by};
ghost use Rattle.std.specs.List.{flat_map, range_with_len};
ghost use Rattle.nv_base.specs.Object.{number_limit};
ghost use Rattle.nv_generate.specs.Generated.{generated, line_text, lines_of_switch, most_ports, summary};
ghost use Rattle.nv_generate.specs.declared.line.Line.TheVariants as lines;
ghost use Rattle.nv_reply.specs.Reply.{reply, row_count, session_after};
ghost use Rattle.nv_reply.specs.Session.{new_session};
ghost use Rattle.nv_serve.specs.Output.{said_of, session_from};

use nv_base::OutOfMemory;
use nv_generate::{Line, put_summary, switch_count};
use nv_input::Opening;
use nv_options::Options;
use nv_reply::{Session, Unwatched, run_line};
use std::alloc::Global;

/// What a run begins with, by what its arguments ask for (not from OVN): a new session, or the one that the lines of a generated network
/// leave, and what is said of that network.
#[tactic(auto, unfolding(crate::specs::Output::session_from))]
pub fn open(alloc: Global, options: Options) -> Result<Opening, OutOfMemory>
    requires { IfSome options.generate (λ ports. ports ≤ most_ports) }
    ensures session { IfOk result (λ opening. opening.session ≡ session_from options.hops options.generate) }
    ensures text { IfOk result (λ opening. opening.text.items ≡ said_of options.generate (session_from options.hops options.generate)) }
{
    match options.generate {
        None => Ok(Opening::new(alloc, options.hops)),
        Some(ports) => open_generated(alloc, options.hops, ports),
    }
}

// The session that a generated network of so many ports leaves, and what is said of it.
fn open_generated(alloc: Global, hops: u8, ports: u16) -> Result<Opening, OutOfMemory>
    requires { ports ≤ most_ports }
    ensures session { IfOk result (λ opening. opening.session ≡ session_after (new_session hops) (generated ports)) }
    ensures text { IfOk result (λ opening. opening.text.items
        ≡ summary ports (row_count (session_after (new_session hops) (generated ports)).network)) }
{
    let mut session = Session::new(alloc, hops);
    match tell_generated(alloc, ports, &mut session) {
        Ok(text) => Ok(Opening { text, session }),
        Err(error) => {
            drop(session);
            Err(error)
        }
    }
}

// Runs the lines of a generated network of so many ports, and tells what is said of it.
fn tell_generated(alloc: Global, ports: u16, session: &mut Session) -> Result<Vec<u8>, OutOfMemory>
    requires few { ports ≤ most_ports }
    requires first { session.old.network.next ≡ 1 }
    ensures after { OnOk result (session.new ≡ session_after session.old (generated ports)) }
    ensures text { IfOk result (λ text. text.items ≡ summary ports (row_count (session_after session.old (generated ports)).network)) }
{
    run_generated(alloc, ports, session)?;
    let rows = session.count_rows(alloc)?;
    let mut text = Vec::new(alloc);
    put_summary(ports, rows, &mut text)?;
    Ok(text)
}

// Runs the lines of a generated network of so many ports.
fn run_generated(alloc: Global, ports: u16, session: &mut Session) -> Result<(), OutOfMemory>
    requires few { ports ≤ most_ports }
    requires first { session.old.network.next ≡ 1 }
    ensures { OnOk result (session.new ≡ session_after session.old (generated ports)) }
{
    run_one(alloc, Line::Router, session)?;
    run_switches(alloc, switch_count(ports), session)?;
    run_hosts(alloc, ports, session)
}

// Runs the lines that make so many switches.
fn run_switches(alloc: Global, count: u16, session: &mut Session) -> Result<(), OutOfMemory>
    requires { session.old.network.next + sum_by length (map line_text (flat_map lines_of_switch (range_with_len 0 count))) < number_limit }
    ensures { OnOk result (session.new
        ≡ session_after session.old (map line_text (flat_map lines_of_switch (range_with_len 0 count)))) }
{
    for switch in 0..count {
        run_switch(alloc, switch, session)?;
    }
    Ok(())
}

// Runs the lines that make a switch.
fn run_switch(alloc: Global, switch: u16, session: &mut Session) -> Result<(), OutOfMemory>
    requires { session.old.network.next + sum_by length (map line_text (lines_of_switch switch)) < number_limit }
    ensures { OnOk result (session.new ≡ session_after session.old (map line_text (lines_of_switch switch))) }
{
    run_one(alloc, Line::Switch(switch), session)?;
    run_one(alloc, Line::RouterPort(switch), session)?;
    run_one(alloc, Line::Uplink(switch), session)?;
    run_one(alloc, Line::Acl(switch), session)
}

// Runs the lines that make so many hosts.
fn run_hosts(alloc: Global, count: u16, session: &mut Session) -> Result<(), OutOfMemory>
    requires { session.old.network.next + sum_by length (map line_text (map lines.Host (range_with_len 0 count))) < number_limit }
    ensures { OnOk result (session.new ≡ session_after session.old (map line_text (map lines.Host (range_with_len 0 count)))) }
{
    for host in 0..count {
        run_one(alloc, Line::Host(host), session)?;
    }
    Ok(())
}

// Runs a line, and drops its reply.
fn run_one(alloc: Global, line: Line, session: &mut Session) -> Result<(), OutOfMemory>
    requires { session.old.network.next + length (line_text line) < number_limit }
    ensures { OnOk result (session.new ≡ (reply session.old (line_text line)).after) }
{
    let mut text = Vec::new(alloc);
    line.put(&mut text)?;
    let mut reply = Vec::new(alloc);
    run_line(alloc, session, &text, &mut reply, &mut Unwatched)?;
    Ok(())
}
