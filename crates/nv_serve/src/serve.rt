ghost use Rattle.std.specs.Prelude.{◌≡◌, ◌<◌, ◌≤◌, ◌⊎◌, ◌+◌, length, take, map, true, false, IfSome, IsSomeAnd};
ghost use Rattle.std.specs.String.{string_bytes};
ghost use Rattle.nv_options.specs.Options.{accepts};
ghost use Rattle.nv_io.specs.Counts.{Rose, count_after};
ghost use Rattle.nv_io.specs.Writing.{Wrote, PutFailed};
ghost use Rattle.nv_input.specs.Calls.{Moved, start_at, NothingFollowsAFault};
ghost use Rattle.nv_input.specs.Ends.{InputEnds};
ghost use Rattle.nv_input.specs.Lines.{lines_of, input_limit};
ghost use Rattle.nv_generate.specs.Generated.{most_ports};
ghost use Rattle.nv_serve.specs.Ends.{Ends};
ghost use Rattle.nv_serve.specs.Output.{opened, opening};
ghost use Rattle.nv_serve.specs.Run.{IsFinished};
ghost use Rattle.nv_serve.specs.Traced.{TracesAreMeant};
ghost use Rattle.nv_serve.specs.inner.Refused.{Refuses};

use crate::Status;
use crate::open::open;
use nv_input::answer_input;
use nv_io::{Sink, Source, put_all};
use nv_options::{ArgumentFault, Options, accept_arguments};
use std::alloc::Global;

/// Runs the program: reads the input by pieces of at most 4,096 bytes, runs each line once its end is known, and
/// writes its reply before it reads on. `arguments` begins with the program's name, and says how many hops a traced packet
/// may take, and of how many ports a network is generated, which the run then begins with: of its lines no reply is written, but one
/// line on its size. Where the arguments are not accepted, nothing is read, and what is written is the line
/// `usage: ovn_nd [--hops N] [--generate N]`.
///
/// Of a source or a sink that does not tell its bytes, the clause on content says how many there are, and that there are an input and an
/// output of which all of it holds.
pub fn run<S: Source, K: Sink>(
    alloc: Global,
    arguments: &[String],
    source: &mut S,
    sink: &mut K,
) -> Status
    // How the run ended, said of one input and one output, `given` and `written`, by the status: how long the input is, whether it was
    // read to its end, what was written, whether a line was refused, and why the run ended. Each trace of the input is answered by the lines
    // of events that are, hits left out, what the network does with the packet, from the state that earlier packets left; and it leaves the
    // state that this leaves. Pieces of at most 4,096 bytes are taken, each complete line is answered before the next take, an input is at
    // its end where a take gives nothing, and a call that fails is the last.
    ensures ends { Moved S.state K.state (source.old, sink.old) (source.new, sink.new) (λ given written.
        Ends (map string_bytes arguments.now) (S.state source.old, K.state sink.old) (S.state source.new, K.state sink.new) (given, written) result
        × TracesAreMeant (map string_bytes arguments.now) (lines_of (take input_limit given))
        × NothingFollowsAFault S.take_gives K.put_gives (start_at (opened (map string_bytes arguments.now)) source.old sink.old)
        (record { first = opened (map string_bytes arguments.now); source = source.new; sink = sink.new; given = given; written = written }) result) }

    // Arguments that are not accepted are refused before anything is read.
    ensures usage_comes { accepts (map string_bytes arguments.now) ≡ false
        → (result ≡ Status.Usage) ⊎ (result ≡ Status.WriteFault) ⊎ (result ≡ Status.OutOfMemory) }
    ensures usage_reads_nothing { accepts (map string_bytes arguments.now) ≡ false → source.new ≡ source.old }

    // Completeness: with arguments that are accepted, no fault and no more input than may be, only memory keeps the run from its end.
    ensures complete { accepts (map string_bytes arguments.now) ≡ true
        → (Rose (S.state source.old).faults (S.state source.new).faults → ⊥)
        → (Rose (K.state sink.old).faults (K.state sink.new).faults → ⊥)
        → IsSomeAnd (S.state source.old).left (λ input. length input ≤ input_limit)
        ⊎ ((S.state source.new).given < count_after (S.state source.old).given (input_limit + 1))
        → IsFinished result ⊎ (result ≡ Status.OutOfMemory) }
{
    serve(alloc, arguments, source, sink)
}

// All that a run promises, as one fact for each status.
fn serve<S: Source, K: Sink>(
    alloc: Global,
    arguments: &[String],
    source: &mut S,
    sink: &mut K,
) -> Status
    ensures ends { Moved S.state K.state (source.old, sink.old) (source.new, sink.new) (λ given written.
        Ends (map string_bytes arguments.now) (S.state source.old, K.state sink.old) (S.state source.new, K.state sink.new) (given, written) result
        × TracesAreMeant (map string_bytes arguments.now) (lines_of (take input_limit given))
        × NothingFollowsAFault S.take_gives K.put_gives (start_at (opened (map string_bytes arguments.now)) source.old sink.old)
        (record { first = opened (map string_bytes arguments.now); source = source.new; sink = sink.new; given = given; written = written }) result) }
    ensures arguments { accepts (map string_bytes arguments.now) ≡ false
        → (source.new ≡ source.old) × ((result ≡ Status.Usage) ⊎ (result ≡ Status.WriteFault) ⊎ (result ≡ Status.OutOfMemory)) }
{
    match accept_arguments(alloc, arguments) {
        Ok(options) => begin(alloc, options, source, sink),
        Err(ArgumentFault::Refused) => refuse_arguments(sink),
        Err(ArgumentFault::Memory) => Status::OutOfMemory,
    }
}

// Opens a run, and answers its input.
fn begin<S: Source, K: Sink>(
    alloc: Global,
    options: Options,
    source: &mut S,
    sink: &mut K,
) -> Status
    requires { IfSome options.generate (λ ports. ports ≤ most_ports) }
    ensures { Moved S.state K.state (source.old, sink.old) (source.new, sink.new) (λ given written.
        InputEnds (opening options.hops options.generate) (S.state source.old, K.state sink.old) (S.state source.new, K.state sink.new) (given, written) result
        × NothingFollowsAFault S.take_gives K.put_gives (start_at (opening options.hops options.generate) source.old sink.old)
        (record { first = opening options.hops options.generate; source = source.new; sink = sink.new; given = given; written = written }) result) }
{
    match open(alloc, options) {
        Ok(opening) => answer_input(alloc, opening, source, sink),
        Err(_) => Status::OutOfMemory,
    }
}

// Puts the line that tells how the program is called.
fn refuse_arguments<K: Sink>(sink: &mut K) -> Status
    ensures { Refuses (Wrote K.put_gives K.state sink.old sink.new) (PutFailed K.put_gives K.state sink.old sink.new) result }
{
    match put_all(sink, b"usage: ovn_nd [--hops N] [--generate N]\n") {
        Ok(()) => Status::Usage,
        Err(_) => Status::WriteFault,
    }
}
