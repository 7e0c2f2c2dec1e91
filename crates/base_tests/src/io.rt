ghost use Rattle.std.specs.Prelude.{◌<◌, length};

use nv_base::OutOfMemory;
use nv_io::{
    CleanSource, MemSink, MemSource, NullSink, Sink, SinkFailed, Source, SourceFailed, StdSink,
    StdSource,
};
use std::alloc::{AllocError, Global};
use std::io::{self, ErrorKind, Read, Write};
use std::test::Fail;

/// Appends what a take gives into four places, and a space after it, or `!` for a fault.
fn put_given<S: Source>(given: &mut Vec<u8>, source: &mut S) -> Result<(), AllocError> {
    let mut into = [0; 4];
    match source.take(&mut into) {
        Ok(count) => {
            given.extend_from_slice(&into[..count])?;
            given.push(b' ')?;
        }
        Err(SourceFailed) => given.push(b'!')?,
    }
    Ok(())
}

/// What this many takes give into four places, each with a space after it, and `!` for a fault.
fn given_by<S: Source>(alloc: Global, source: &mut S, calls: usize) -> Result<Vec<u8>, AllocError> {
    let mut given = Vec::new(alloc);
    for _ in 0..calls {
        put_given(&mut given, source)?;
    }
    Ok(given)
}

/// How many of these bytes each of this many puts takes, with 0 for a fault.
fn taken_by<S: Sink>(
    alloc: Global,
    sink: &mut S,
    bytes: &[u8],
    calls: usize,
) -> Result<Vec<usize>, AllocError>
    requires { 0 < length bytes.now }
{
    let mut taken = Vec::new(alloc);
    for _ in 0..calls {
        match sink.put(bytes) {
            Ok(count) => taken.push(count)?,
            Err(SinkFailed) => taken.push(0)?,
        }
    }
    Ok(taken)
}

/// Whether this many takes give these bytes, as `given_by` shows them.
fn gives<S: Source>(
    alloc: Global,
    source: &mut S,
    calls: usize,
    wanted: &[u8],
) -> Result<bool, AllocError> {
    let given = given_by(alloc, source, calls)?;
    Ok(given.as_slice() == wanted)
}

/// Whether the puts of these bytes take as many of them as this, one after the other.
fn takes<S: Sink>(
    alloc: Global,
    sink: &mut S,
    bytes: &[u8],
    wanted: &[usize],
) -> Result<bool, AllocError>
    requires { 0 < length bytes.now }
{
    let taken = taken_by(alloc, sink, bytes, wanted.len())?;
    Ok(taken.as_slice() == wanted)
}

/// A reader whose first read fails, and whose later reads give an `x` each.
#[derive(Drop)]
struct FailsOnce {
    reads: u64,
}

impl Read for FailsOnce {
    fn read(&mut self, buf: &mut [u8]) -> io::Result<usize> {
        self.reads = self.reads.saturating_add(1);
        if self.reads == 1 || buf.is_empty() {
            return Err(io::Error::from(ErrorKind::BrokenPipe));
        }
        buf[0] = b'x';
        Ok(1)
    }
}

/// A writer that takes nothing.
#[derive(Drop)]
struct Stuck;

impl Write for Stuck {
    fn write(&mut self, _buf: &[u8]) -> io::Result<usize> {
        Ok(0)
    }

    fn flush(&mut self) -> io::Result<()> {
        Ok(())
    }
}

/// Seven bytes, two a take, of which the third fails.
fn failing_source(alloc: Global) -> Result<MemSource, AllocError> {
    let bytes = Vec::from_slice(alloc, b"abcdefg")?;
    let fail = Vec::from_slice(alloc, &[3])?;
    Ok(MemSource::new(bytes, 2, fail))
}

/// Whether the third take fails, and those after it give what is left.
fn fails_once(source: &mut MemSource, alloc: Global) -> Result<bool, AllocError> {
    Ok(
        gives(alloc, source, 4, b"ab cd !ef ")?
            && source.left() == b"g".as_slice()
            && source.takes() == 4
            && source.faults() == 1
            && gives(alloc, source, 2, b"g  ")?,
    )
}

#[test]
fn third_take_fails(rt: HostRuntime) -> Result<(), Fail> {
    let mut source = failing_source(rt.alloc())?;
    assert!(rt; fails_once(&mut source, rt.alloc())?);
    Ok(())
}

/// Whether a take gives as many bytes as there are places.
fn gives_all(source: &mut CleanSource, alloc: Global) -> Result<bool, AllocError> {
    Ok(
        gives(alloc, source, 1, b"abcd ")?
            && source.left() == b"efg".as_slice()
            && source.takes() == 1,
    )
}

#[test]
fn clean_source_gives_all(rt: HostRuntime) -> Result<(), Fail> {
    let mut source = CleanSource::new(Vec::from_slice(rt.alloc(), b"abcdefg")?, 9);
    assert!(rt; gives_all(&mut source, rt.alloc())?);
    Ok(())
}

/// Five bytes of room, two a put, of which the first fails.
fn failing_sink(alloc: Global) -> Result<MemSink, OutOfMemory> {
    let fail = Vec::from_slice(alloc, &[1])?;
    MemSink::new(alloc, 5, 2, fail)
}

/// Whether the first put fails, and the last one after the room has ended.
fn fails_twice(sink: &mut MemSink, alloc: Global) -> Result<bool, AllocError> {
    Ok(
        takes(alloc, sink, b"abc", &[0, 2, 2, 1, 0])?
            && sink.as_slice() == b"ababa".as_slice()
            && sink.puts() == 5
            && sink.faults() == 2,
    )
}

#[test]
fn first_put_fails_and_the_room_ends(rt: HostRuntime) -> Result<(), Fail> {
    let mut sink = failing_sink(rt.alloc())?;
    assert!(rt; fails_twice(&mut sink, rt.alloc())?);
    assert!(rt; sink.into_items().as_slice() == b"ababa".as_slice());
    Ok(())
}

#[test]
fn null_sink_counts(rt: HostRuntime) -> Result<(), Fail> {
    let mut sink = NullSink::new();
    assert!(rt; sink.is_empty());
    assert!(rt; takes(rt.alloc(), &mut sink, b"abc", &[3, 3])?);
    assert!(rt; sink.len() == 6 && sink.puts() == 2);
    Ok(())
}

#[test]
fn a_standard_reader_is_read(rt: HostRuntime) -> Result<(), Fail> {
    let mut source = StdSource::new(b"abcdefg".as_slice());
    assert!(rt; gives(rt.alloc(), &mut source, 3, b"abcd efg  ")?);
    assert!(rt; source.given() == 7 && source.takes() == 3 && source.faults() == 0);
    assert!(rt; source.into_inner().len() == 0);
    Ok(())
}

// A fault is no end: the reader may give bytes after it.
#[test]
fn a_standard_reader_is_read_after_a_fault(rt: HostRuntime) -> Result<(), Fail> {
    let mut broken = StdSource::new(FailsOnce { reads: 0 });
    assert!(rt; gives(rt.alloc(), &mut broken, 2, b"!x ")?);
    assert!(rt; broken.given() == 1 && broken.takes() == 2 && broken.faults() == 1);
    Ok(())
}

/// Whether the writer takes all bytes of two puts.
fn takes_all(sink: &mut StdSink<Vec<u8>>, alloc: Global) -> Result<bool, AllocError> {
    Ok(
        takes(alloc, sink, b"abc", &[3, 3])?
            && sink.amount() == 6
            && sink.puts() == 2
            && sink.faults() == 0,
    )
}

#[test]
fn a_standard_writer_is_written_to(rt: HostRuntime) -> Result<(), Fail> {
    let mut sink = StdSink::new(Vec::new(rt.alloc()));
    assert!(rt; takes_all(&mut sink, rt.alloc())?);
    assert!(rt; sink.into_inner().as_slice() == b"abcabc".as_slice());
    Ok(())
}

/// Whether the writer takes nothing of two puts, which are faults.
fn takes_nothing(stuck: &mut StdSink<Stuck>, alloc: Global) -> Result<bool, AllocError> {
    Ok(takes(alloc, stuck, b"abc", &[0, 0])? && stuck.puts() == 2 && stuck.faults() == 2)
}

#[test]
fn a_stuck_writer_is_a_fault(rt: HostRuntime) -> Result<(), Fail> {
    let mut stuck = StdSink::new(Stuck);
    assert!(rt; takes_nothing(&mut stuck, rt.alloc())?);
    Ok(())
}
