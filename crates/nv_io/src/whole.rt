ghost use Rattle.std.specs.Prelude.{ℕ, List, OnOk, OnErr};
ghost use Rattle.nv_io.specs.Passed.{IsPrefix};
ghost use Rattle.nv_io.specs.Writing.{Wrote, PutFailed};

use crate::sink::{Sink, SinkFailed};

/// Puts all of the bytes, piece by piece (not from OVN). At `SinkFailed` a front of them was put.
pub fn put_all<K: Sink>(sink: &mut K, bytes: &[u8]) -> Result<(), SinkFailed>
    ensures ok { OnOk result (Wrote K.put_gives K.state sink.old sink.new bytes.now) }
    ensures err { OnErr result ((part : List ℕ) × IsPrefix part bytes.now × PutFailed K.put_gives K.state sink.old sink.new part) }
{
    let mut rest = bytes;
    while !rest.is_empty() {
        let count = sink.put(rest)?;
        rest = rest.split_at(count).1;
    }
    Ok(())
}
