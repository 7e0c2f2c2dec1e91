//! A script is run, and what it leaves is shown.
use nb_show::put_network;
use nv_io::{Sink, Source, put_all};
use nv_lines::{Session, Status, Stop, lines_to_run, read_script, run_one, status_of};
use std::alloc::Global;

// How many hops a traced packet may take. The network does not depend on it.
const HOPS: u8 = 16;

/// Reads the script, runs its lines, and writes the network that they leave. Where the run is stopped nothing is written: the
/// network would not be that of the script.
pub(crate) fn show_network<S: Source, K: Sink>(
    alloc: Global,
    source: &mut S,
    sink: &mut K,
) -> Status {
    let mut script = Vec::new(alloc);
    let read = read_script(source, &mut script);
    let mut session = Session::new(alloc, HOPS);
    let ran = run_all(alloc, &mut session, lines_to_run(&script, &read));
    let shown = put_shown(alloc, &session, &read, &ran, sink);
    // A call: at the end of the scope the drop of each field would be proved anew on each way out.
    drop(session);
    ended(read, ran, shown)
}

// Runs the lines, and says whether one was refused.
fn run_all(alloc: Global, session: &mut Session, script: &[u8]) -> Result<bool, Stop> {
    let mut some_refused = false;
    let mut reply = Vec::new(alloc);
    for line in script.split(|byte| *byte == b'\n') {
        reply.clear();
        let refused = run_one(alloc, session, line, &mut reply)?;
        some_refused = some_refused || refused;
    }
    Ok(some_refused)
}

// Writes the network where the script was read and run to its end.
fn put_shown<K: Sink>(
    alloc: Global,
    session: &Session,
    read: &Result<(), Stop>,
    ran: &Result<bool, Stop>,
    sink: &mut K,
) -> Result<(), Stop> {
    if read.is_err() || ran.is_err() {
        return Ok(());
    }
    let mut text = Vec::new(alloc);
    put_network(alloc, &mut text, session.records())?;
    put_all(sink, &text)?;
    Ok(())
}

// The status of a run: what stopped it first.
fn ended(read: Result<(), Stop>, ran: Result<bool, Stop>, shown: Result<(), Stop>) -> Status {
    match ran {
        Err(stop) => status_of(&Err(stop), false),
        Ok(some_refused) => match read {
            Err(stop) => status_of(&Err(stop), false),
            Ok(()) => status_of(&shown, some_refused),
        },
    }
}
