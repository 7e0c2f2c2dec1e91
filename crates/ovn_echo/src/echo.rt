//! A script is run, and each line written before its reply.
use nv_io::{Sink, Source, put_all};
use nv_lines::{
    Answer, Session, Status, Stop, Unwatched, answer_one, lines_to_run, put_command, read_script,
    status_of,
};
use std::alloc::Global;

/// Reads the script, runs its lines, and writes each with its reply.
pub(crate) fn echo_lines<S: Source, K: Sink>(
    alloc: Global,
    hops: u8,
    source: &mut S,
    sink: &mut K,
) -> Status {
    let mut script = Vec::new(alloc);
    let read = read_script(source, &mut script);
    let mut session = Session::new(alloc, hops);
    let ran = echo_all(alloc, &mut session, lines_to_run(&script, &read), sink);
    // A call: at the end of the scope the drop of each field would be proved anew on each way out.
    drop(session);
    match ran {
        Ok(some_refused) => status_of(&read, some_refused),
        Err(stop) => status_of(&Err(stop), false),
    }
}

// Runs the lines, writes them with their replies, and says whether one was refused.
fn echo_all<K: Sink>(
    alloc: Global,
    session: &mut Session,
    script: &[u8],
    sink: &mut K,
) -> Result<bool, Stop> {
    let mut some_refused = false;
    let mut number = 0u64;
    for line in script.split(|byte| *byte == b'\n') {
        number = number.saturating_add(1);
        let refused = echo_one(alloc, session, number, line, sink)?;
        some_refused = some_refused || refused;
    }
    Ok(some_refused)
}

// Runs a line, writes it with its reply, and says whether it is refused. One that has no reply is not written.
fn echo_one<K: Sink>(
    alloc: Global,
    session: &mut Session,
    number: u64,
    line: &[u8],
    sink: &mut K,
) -> Result<bool, Stop> {
    let mut reply = Vec::new(alloc);
    let answer = answer_one(alloc, session, line, &mut reply, &mut Unwatched)?;
    match answer {
        Answer::Text { refused } => {
            put_answered(alloc, number, line, &reply, sink)?;
            Ok(refused)
        }
        Answer::Listing(only) => {
            put_line(alloc, number, line, sink)?;
            session.put_flows(alloc, only, sink)?;
            put_all(sink, b"ok\n")?;
            Ok(false)
        }
        Answer::Trace(events) => {
            put_line(alloc, number, line, sink)?;
            session.put_trace(alloc, &events, sink)?;
            put_all(sink, b"ok\n")?;
            Ok(false)
        }
    }
}

// Writes a line and its reply, where it has one.
fn put_answered<K: Sink>(
    alloc: Global,
    number: u64,
    line: &[u8],
    reply: &[u8],
    sink: &mut K,
) -> Result<(), Stop> {
    if reply.is_empty() {
        return Ok(());
    }
    put_line(alloc, number, line, sink)?;
    put_all(sink, reply)?;
    Ok(())
}

fn put_line<K: Sink>(alloc: Global, number: u64, line: &[u8], sink: &mut K) -> Result<(), Stop> {
    let mut text = Vec::new(alloc);
    put_command(&mut text, number, line)?;
    put_all(sink, &text)?;
    Ok(())
}
