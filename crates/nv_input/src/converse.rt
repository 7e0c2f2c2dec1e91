ghost use Rattle.std.specs.Prelude.{◌≡◌, ◌++◌, ◌+◌, ◌<◌, ◌≤◌, ℕ, List, [], OnOk, IfErr, length};
ghost use Rattle.nv_input.specs.Calls.{Moved, start_at, LastTakeGivesNothing};
ghost use Rattle.nv_input.specs.Ends.{Finished};
ghost use Rattle.nv_input.specs.Lines.{input_limit};
ghost use Rattle.nv_input.specs.Opening.{opening_of};
ghost use Rattle.nv_input.specs.inner.Stops.{StopEnds, StopCalls};
ghost use Rattle.nv_input.specs.inner.StateAfter.{IsKeptAfter};
ghost use Rattle.nv_base.specs.Object.{number_limit};

use crate::server::Server;
use nv_io::{Sink, Source, put_all};
use nv_reply::Stop;
use std::alloc::Global;

// At most so many bytes are read at a time.
const PIECE: usize = 4096;

// No more of an input is run than so many bytes.
const INPUT_LIMIT: usize = 268_435_456;

/// Puts a text, reads the input piece by piece, and answers each line before the next is read for (not from OVN). `Stop` is why no
/// more lines are run: the source or the sink failed, the input is longer than 268,435,456 bytes, or memory ran out.
pub fn converse<S: Source, K: Sink>(
    alloc: Global,
    text: &[u8],
    server: &mut Server,
    source: &mut S,
    sink: &mut K,
) -> Result<(), Stop>
    requires first { IsKeptAfter server.old.session server.old.session server.old.line.items server.old.some_refused [] }
    requires line { server.old.line.items ≡ [] }
    requires room { server.old.session.network.next + input_limit < number_limit }
    ensures finished { OnOk result (Moved S.state K.state (source.old, sink.old) (source.new, sink.new) (λ given written.
        Finished (opening_of text.now server.old.session) (S.state source.old, K.state sink.old) (S.state source.new, K.state sink.new) (given, written) server.new.some_refused
        × LastTakeGivesNothing S.take_gives K.put_gives (start_at (opening_of text.now server.old.session) source.old sink.old)
        (record { first = opening_of text.now server.old.session; source = source.new; sink = sink.new; given = given; written = written }))) }
    ensures stopped { IfErr result (λ stop. Moved S.state K.state (source.old, sink.old) (source.new, sink.new) (λ given written.
        StopEnds (opening_of text.now server.old.session) (S.state source.old, K.state sink.old) (S.state source.new, K.state sink.new) (given, written) stop
        × StopCalls S.take_gives K.put_gives (start_at (opening_of text.now server.old.session) source.old sink.old)
        (record { first = opening_of text.now server.old.session; source = source.new; sink = sink.new; given = given; written = written }) stop)) }
{
    put_all(sink, text)?;
    let mut piece = [0u8; PIECE];
    let mut room = INPUT_LIMIT;
    'pieces: loop {
        let count = source.take(&mut piece)?;
        if count == 0 {
            break;
        }
        if count > room {
            server.feed(alloc, &piece[..room], sink)?;
            return Err(Stop::InputTooLong);
        }
        server.feed(alloc, &piece[..count], sink)?;
        room -= count;
    }
    server.answer(alloc, sink)
}
