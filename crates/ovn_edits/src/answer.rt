use crate::choice::put_deciding;
use crate::counts::put_counts;
use crate::edits::readable_edits;
use crate::route::put_route;
use crate::touched::put_touched;
use nb_check::Tables;
use nb_dump::put_dump;
use nb_show::put_network;
use nb_store::Touch;
use nb_words::{Command, LineFault, Word, read_commands};
use nv_base::{Items, OutOfMemory};
use std::alloc::Global;

// What a line asks for that is no edit.
enum Query<'c> {
    // The network as a script.
    Dump,
    // The network as ovn-nbctl(8) shows it.
    Show,
    // How much there is of each kind.
    Count,
    // Which records the last line of edits that was accepted may have changed.
    Touched,
    // Which ACLs of a switch decide on a packet from one MAC to another.
    Deciding {
        switch: &'c Word,
        source: &'c Word,
        destination: &'c Word,
    },
    // By which hop a router passes a packet from one address to another on.
    Route {
        router: &'c Word,
        source: &'c Word,
        destination: &'c Word,
    },
}

// The query that the commands are.
fn query_of(commands: &[Command]) -> Option<Query> {
    let [command] = commands else {
        return None;
    };
    match command.words.as_slice() {
        [word] if is_word(word, b"dump") => Some(Query::Dump),
        [word] if is_word(word, b"show") => Some(Query::Show),
        [word] if is_word(word, b"count") => Some(Query::Count),
        [word] if is_word(word, b"touched") => Some(Query::Touched),
        [word, switch, source, destination] if is_word(word, b"deciding") => {
            Some(Query::Deciding {
                switch,
                source,
                destination,
            })
        }
        [word, router, source, destination] if is_word(word, b"route") => Some(Query::Route {
            router,
            source,
            destination,
        }),
        _ => None,
    }
}

fn is_word(word: &Word, text: &[u8]) -> bool {
    word.text.as_slice() == text
}

// Appends the answer to a query.
fn put_query(
    alloc: Global,
    tables: &Tables,
    touched: &[Touch],
    out: &mut Vec<u8>,
    query: Query,
) -> Result<(), LineFault> {
    match query {
        Query::Dump => Ok(put_dump(out, tables.records())?),
        Query::Show => Ok(put_network(alloc, out, tables.records())?),
        Query::Count => Ok(put_counts(alloc, tables, out)?),
        Query::Touched => Ok(put_touched(out, touched)?),
        Query::Deciding {
            switch,
            source,
            destination,
        } => put_deciding(alloc, tables, out, switch, source, destination),
        Query::Route {
            router,
            source,
            destination,
        } => put_route(alloc, tables, out, router, source, destination),
    }
}

// Does what the line asks for, notes which records it touched, and appends its answer but for a refusal.
fn run_line(
    alloc: Global,
    tables: &mut Tables,
    touched: &mut Items<Touch>,
    out: &mut Vec<u8>,
    line: &[u8],
) -> Result<(), LineFault> {
    let commands = read_commands(alloc, line)?;
    let commands = commands.as_slice();
    if commands.is_empty() {
        return Ok(());
    }
    if let Some(query) = query_of(commands) {
        put_query(alloc, tables, touched.as_slice(), out, query)?;
    } else {
        let edits = readable_edits(alloc, commands)?;
        if !tables.records().has_room(edits.as_slice().len()) {
            // No numbers are left.
            return Err(LineFault::Memory);
        }
        *touched = tables.apply_all(alloc, edits)?.touched;
    }
    Ok(put_ok(out)?)
}

// Appends that the line was done.
fn put_ok(out: &mut Vec<u8>) -> Result<(), OutOfMemory> {
    out.extend_from_slice(b"ok\n")?;
    Ok(())
}

/// Does what the line asks for, notes which records it touched, and appends its answer: `ok`, after the lines of a query, or its refusal.
pub(crate) fn put_answer(
    alloc: Global,
    tables: &mut Tables,
    touched: &mut Items<Touch>,
    out: &mut Vec<u8>,
    line: &[u8],
) -> Result<(), OutOfMemory> {
    match run_line(alloc, tables, touched, out, line) {
        Ok(()) => Ok(()),
        Err(LineFault::Refused(refusal)) => refusal.put_line(out),
        Err(LineFault::Memory) => Err(OutOfMemory),
    }
}
