//! A script is run, each refused line explained, and what does nothing is warned of.
use nb_store::Records;
use nv_explain::{Source as Place, put_explanation, put_tables};
use nv_io::{Sink, Source, put_all};
use nv_lines::{
    Answer, Session, Status, Stop, Unwatched, answer_one, lines_to_run, read_script, status_of,
};
use nv_warn::{Line, Warner};
use std::alloc::Global;

// How many hops a traced packet may take. Whether a line is refused does not depend on it.
const HOPS: u8 = 16;

/// Reads the script, runs its lines, and writes for each that is refused why it is, and of those that were done what does nothing.
pub(crate) fn explain_lines<S: Source, K: Sink>(
    alloc: Global,
    name: &str,
    source: &mut S,
    sink: &mut K,
) -> Status {
    let mut script = Vec::new(alloc);
    let read = read_script(source, &mut script);
    let mut session = Session::new(alloc, HOPS);
    let ran = explain_all(
        alloc,
        &mut session,
        name,
        lines_to_run(&script, &read),
        sink,
    );
    // A call: at the end of the scope the drop of each field would be proved anew on each way out.
    drop(session);
    match ran {
        Ok(some_refused) => status_of(&read, some_refused),
        Err(stop) => status_of(&Err(stop), false),
    }
}

// Runs the lines, explains those that are refused, warns of what does nothing, and says whether a line was refused.
fn explain_all<K: Sink>(
    alloc: Global,
    session: &mut Session,
    name: &str,
    script: &[u8],
    sink: &mut K,
) -> Result<bool, Stop> {
    let mut warner = Warner::new(alloc, name.as_bytes());
    let mut some_refused = false;
    let mut number = 0u64;
    for line in script.split(|byte| *byte == b'\n') {
        number = number.saturating_add(1);
        let place = Place {
            name: name.as_bytes(),
            number,
            line,
        };
        let refused = explain_one(alloc, session, place, &mut warner, sink)?;
        some_refused = some_refused || refused;
    }
    warn(alloc, session.records(), &mut warner, sink)?;
    Ok(some_refused)
}

// Runs a line, explains it where it is refused, and says whether it is. What a query would not find is warned of.
fn explain_one<'s, K: Sink>(
    alloc: Global,
    session: &mut Session,
    place: Place<'s>,
    warner: &mut Warner<'s>,
    sink: &mut K,
) -> Result<bool, Stop> {
    let next = session.records().next();
    let mut reply = Vec::new(alloc);
    let answer = answer_one(alloc, session, place.line, &mut reply, &mut Unwatched)?;
    let records = session.records();
    match answer {
        Answer::Text { refused: true } => {
            explain(alloc, records, place, &reply, sink)?;
            Ok(true)
        }
        Answer::Text { refused: false } => {
            if !reply.is_empty() {
                warner.note(alloc, next, records, line_at(place))?;
            }
            Ok(false)
        }
        Answer::Listing(_) | Answer::Trace(_) => {
            warn(alloc, records, warner, sink)?;
            Ok(false)
        }
    }
}

fn line_at<'s>(place: Place<'s>) -> Line<'s> {
    Line {
        number: place.number,
        bytes: place.line,
    }
}

// Writes why a line is refused.
fn explain<K: Sink>(
    alloc: Global,
    records: &Records,
    place: Place,
    reply: &[u8],
    sink: &mut K,
) -> Result<(), Stop> {
    let mut text = Vec::new(alloc);
    put_explanation(alloc, &mut text, place, reply, records)?;
    put_all(sink, &text)?;
    Ok(())
}

// Writes what there is to warn of, and was not told before.
fn warn<K: Sink>(
    alloc: Global,
    records: &Records,
    warner: &mut Warner,
    sink: &mut K,
) -> Result<(), Stop> {
    let mut text = Vec::new(alloc);
    warner.put_warnings(alloc, &mut text, records)?;
    put_all(sink, &text)?;
    Ok(())
}

/// Writes what is said of refusals.
pub(crate) fn put_table<K: Sink>(alloc: Global, sink: &mut K) -> Status {
    match put_text(alloc, sink) {
        Ok(()) => Status::Done,
        Err(stop) => status_of(&Err(stop), false),
    }
}

fn put_text<K: Sink>(alloc: Global, sink: &mut K) -> Result<(), Stop> {
    let mut text = Vec::new(alloc);
    put_tables(alloc, &mut text)?;
    put_all(sink, &text)?;
    Ok(())
}
