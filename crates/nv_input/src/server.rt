ghost use Rattle.std.specs.Prelude.{◌≡◌, ◌++◌, ◌+◌, ◌<◌, ◌≤◌, ◌||◌, ℕ, List, [], OnOk, IfErr, length, take, false};
ghost use Rattle.nv_reply.specs.Events.{event_lines};
ghost use Rattle.nv_reply.specs.Reply.{flows, ok_line, reply};
ghost use Rattle.nv_reply.specs.Session as spec;
ghost use Rattle.nv_input.specs.inner.Pieces.{IsDue, BeginsOutput};
ghost use Rattle.nv_input.specs.inner.StateAfter.{IsKeptAfter, and_kept};
ghost use Rattle.nv_io.specs.Writing.{Wrote, PutFailed};
ghost use Rattle.nv_reply.specs.Stops.{StopsWithin};
ghost use Rattle.nv_base.specs.Object.{number_limit};

use crate::cut::cut_line;
use nv_base::{ObjId, OutOfMemory};
use nv_io::{Sink, put_all};
use nv_reply::{Answer, Event, Session, Stop, Unwatched, run_line};
use std::alloc::Global;

// No more bytes of a line are kept: its reply depends on no more.
const KEPT: usize = 65_537;

// The session, what is kept of the line that has no end yet, and whether a line was refused.
#[derive(Drop)]
pub struct Server {
    pub session: Session,
    pub line: Vec<u8>,
    pub some_refused: bool,
}

impl Server {
    /// The server before the first line, which begins from this session (not from OVN). It takes no memory.
    pub fn new(alloc: Global, session: Session) -> Self
        ensures session { result.session ≡ session }
        ensures line { result.line.items ≡ [] }
        ensures refused { result.some_refused ≡ false }
    {
        Server {
            session,
            line: Vec::new(alloc),
            some_refused: false,
        }
    }

    /// Runs the line, puts its reply, and begins the next (not from OVN). `Stop` where the sink fails or memory runs out:
    /// a front of the reply was put.
    pub fn answer<K: Sink>(&mut self, alloc: Global, sink: &mut K) -> Result<(), Stop>
        requires { self.old.session.network.next + length self.old.line.items < number_limit }
        ensures session { OnOk result (self.new.session ≡ (reply self.old.session self.old.line.items).after) }
        ensures line { OnOk result (self.new.line.items ≡ []) }
        ensures refused { OnOk result (self.new.some_refused
            ≡ (self.old.some_refused || (reply self.old.session self.old.line.items).refused)) }
        ensures put { OnOk result (Wrote K.put_gives K.state sink.old sink.new
            (reply self.old.session self.old.line.items).text) }
        ensures stop { IfErr result (StopsWithin
            (Wrote K.put_gives K.state sink.old sink.new) (PutFailed K.put_gives K.state sink.old sink.new)
            (reply self.old.session self.old.line.items).text) }
    {
        let mut text = Vec::new(alloc);
        let answer = run_line(
            alloc,
            &mut self.session,
            &self.line,
            &mut text,
            &mut Unwatched,
        )?;
        self.line.clear();
        match answer {
            Answer::Text { refused } => {
                self.some_refused = self.some_refused || refused;
                put_all(sink, &text)?;
                Ok(())
            }
            Answer::Listing(only) => self.answer_flows(alloc, only, sink),
            Answer::Trace(events) => self.answer_trace(alloc, &events, sink),
        }
    }

    // Puts the listing of the flows of one datapath, or of all, and that this is done.
    fn answer_flows<K: Sink>(
        &mut self,
        alloc: Global,
        only: Option<ObjId>,
        sink: &mut K,
    ) -> Result<(), Stop>
        ensures same { OnOk result ((self.new.session ≡ self.old.session) × (self.new.line.items ≡ self.old.line.items)
            × (self.new.some_refused ≡ self.old.some_refused)) }
        ensures put { OnOk result (Wrote K.put_gives K.state sink.old sink.new (flows self.old.session.network only ++ ok_line)) }
        ensures stop { IfErr result (StopsWithin
            (Wrote K.put_gives K.state sink.old sink.new) (PutFailed K.put_gives K.state sink.old sink.new)
            (flows self.old.session.network only ++ ok_line)) }
    {
        self.session.put_flows(alloc, only, sink)?;
        put_all(sink, b"ok\n")?;
        Ok(())
    }

    // Puts the lines of the events of a trace, and that this is done.
    fn answer_trace<K: Sink>(
        &self,
        alloc: Global,
        events: &[Event],
        sink: &mut K,
    ) -> Result<(), Stop>
        ensures put { OnOk result (Wrote K.put_gives K.state sink.old sink.new (event_lines self.now.session.network events.now ++ ok_line)) }
        ensures stop { IfErr result (StopsWithin
            (Wrote K.put_gives K.state sink.old sink.new) (PutFailed K.put_gives K.state sink.old sink.new)
            (event_lines self.now.session.network events.now ++ ok_line)) }
    {
        self.session.put_trace(alloc, events, sink)?;
        put_all(sink, b"ok\n")?;
        Ok(())
    }

    // Runs the line that ends with these bytes, puts its reply, and begins the next.
    fn end_line<K: Sink>(&mut self, alloc: Global, bytes: &[u8], sink: &mut K) -> Result<(), Stop>
        requires { self.old.session.network.next + length self.old.line.items + length bytes.now < number_limit }
        ensures session { OnOk result (self.new.session
            ≡ (reply self.old.session (and_kept self.old.line.items bytes.now)).after) }
        ensures line { OnOk result (self.new.line.items ≡ []) }
        ensures refused { OnOk result (self.new.some_refused
            ≡ (self.old.some_refused || (reply self.old.session (and_kept self.old.line.items bytes.now)).refused)) }
        ensures put { OnOk result (Wrote K.put_gives K.state sink.old sink.new
            (reply self.old.session (and_kept self.old.line.items bytes.now)).text) }
        ensures stop { IfErr result (StopsWithin
            (Wrote K.put_gives K.state sink.old sink.new) (PutFailed K.put_gives K.state sink.old sink.new)
            (reply self.old.session (and_kept self.old.line.items bytes.now)).text) }
    {
        if bytes.is_empty() && self.line.is_empty() {
            return Ok(());
        }
        keep(&mut self.line, bytes)?;
        self.answer(alloc, sink)
    }

    /// Takes the next bytes of the input, and answers each line that they end (not from OVN). `Stop` where the sink fails
    /// or memory runs out: a front of the replies was put.
    pub fn feed<K: Sink>(&mut self, alloc: Global, bytes: &[u8], sink: &mut K) -> Result<(), Stop>
        requires { self.old.session.network.next + length self.old.line.items + length bytes.now < number_limit }
        ensures next { OnOk result (self.new.session.network.next + length self.new.line.items
            ≤ self.old.session.network.next + length self.old.line.items + length bytes.now) }
        ensures fed { OnOk result ((first : spec.Session) (before : List ℕ)
            → IsKeptAfter first self.old.session self.old.line.items self.old.some_refused before
            → IsKeptAfter first self.new.session self.new.line.items self.new.some_refused (before ++ bytes.now)
            × ((text : List ℕ) × IsDue first before bytes.now text × Wrote K.put_gives K.state sink.old sink.new text)) }
        ensures stop { IfErr result (λ stop. (first : spec.Session) (before : List ℕ)
            → IsKeptAfter first self.old.session self.old.line.items self.old.some_refused before
            → (text : List ℕ) × BeginsOutput first before bytes.now text × StopsWithin
            (Wrote K.put_gives K.state sink.old sink.new) (PutFailed K.put_gives K.state sink.old sink.new) text stop) }
    {
        let mut rest = bytes;
        while let Some((line, after)) = cut_line(rest) {
            self.end_line(alloc, line, sink)?;
            rest = after;
        }
        keep(&mut self.line, rest)?;
        Ok(())
    }
}

// Keeps more bytes of a line.
fn keep(line: &mut Vec<u8>, bytes: &[u8]) -> Result<(), OutOfMemory>
    ensures { OnOk result (line.new.items ≡ and_kept line.old.items bytes.now) }
{
    line.extend_from_slice(first(bytes, KEPT.saturating_sub(line.len())))?;
    Ok(())
}

// So many of the bytes, or all.
fn first(bytes: &[u8], count: usize) -> &[u8]
    ensures { result.now ≡ take count bytes.now }
{
    if count < bytes.len() {
        &bytes[..count]
    } else {
        bytes
    }
}
