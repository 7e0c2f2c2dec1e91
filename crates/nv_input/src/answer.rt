ghost use Rattle.std.specs.Prelude.{◌+◌, ◌<◌, []};
ghost use Rattle.nv_input.specs.Calls.{Moved, start_at, NothingFollowsAFault};
ghost use Rattle.nv_input.specs.Ends.{InputEnds};
ghost use Rattle.nv_input.specs.Lines.{input_limit};
ghost use Rattle.nv_input.specs.Opening.{opening_of};
ghost use Rattle.nv_base.specs.Object.{number_limit};

use crate::Status;
use crate::converse::converse;
use crate::opening::Opening;
use crate::server::Server;
use nv_io::{Sink, Source};
use std::alloc::Global;

/// Writes the opening's text, reads the input by pieces of at most 4,096 bytes, runs each line once its end is known, the
/// first from the opening's session, and writes its reply before it reads on (not from OVN). The status says how the input
/// ended, or why no more lines were run; it is never `Usage`.
pub fn answer_input<S: Source, K: Sink>(
    alloc: Global,
    opening: Opening,
    source: &mut S,
    sink: &mut K,
) -> Status
    requires { opening.session.network.next + input_limit < number_limit }
    ensures { Moved S.state K.state (source.old, sink.old) (source.new, sink.new) (λ given written.
        InputEnds (opening_of opening.text.items opening.session) (S.state source.old, K.state sink.old) (S.state source.new, K.state sink.new) (given, written) result
        × NothingFollowsAFault S.take_gives K.put_gives (start_at (opening_of opening.text.items opening.session) source.old sink.old)
        (record { first = opening_of opening.text.items opening.session; source = source.new; sink = sink.new; given = given; written = written }) result) }
{
    let Opening { text, session } = opening;
    let mut server = Server::new(alloc, session);
    let conversed = converse(alloc, &text, &mut server, source, sink);
    let some_refused = server.some_refused;
    // Calls: at the end of the scope the drop of each field would be proved anew on each way out.
    drop(text);
    drop(server);
    match conversed {
        Ok(()) if some_refused => Status::SomeRefused,
        Ok(()) => Status::Done,
        Err(stop) => Status::of(&stop),
    }
}
