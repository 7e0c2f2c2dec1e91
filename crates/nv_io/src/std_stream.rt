ghost use Rattle.std.specs.Prelude.{◌≡◌, ℕ, ◌<◌, ◌≤◌, [], length, take, IfOk, OnOk, OnErr};
ghost use Rattle.std.specs.Io.KnownBytes.{Appends, Consumes, IsAtEnd, Keeps};
ghost use Rattle.nv_io.specs.Counts.{Rose, next_count, count_after};
ghost use Rattle.nv_io.specs.Edge.{IsEdgeTake, IsEdgePut};

use crate::counts::{one_more, some_more};
use crate::sink::{Sink, SinkFailed};
use crate::source::{Source, SourceFailed};
use std::io::{Read, Write};
use std::marker::Model;

/// A standard reader as a source. Each `Err` of the reader is a fault. It tells how many bytes it gave
/// and not which, and gives what the reader gave.
#[derive(Drop)]
pub struct StdSource<R> {
    inner: R,
    given: u64,
    takes: u64,
    faults: u64,
}

impl<R> Model for StdSource<R> {
    ghost use Rattle.nv_io.specs.Edge.{Edge};

    ghost Value = { Edge R };

    ghost view = { λ s. record { inner = s.inner; amount = s.given; calls = s.takes; faults = s.faults } };
}

impl<R> StdSource<R> {
    /// A source over this reader that was not called yet.
    pub fn new(inner: R) -> Self
        ensures { result ≡ record { inner = inner; amount = 0; calls = 0; faults = 0 } }
    {
        StdSource {
            inner,
            given: 0,
            takes: 0,
            faults: 0,
        }
    }

    /// How many bytes were given. The count stays at the last value.
    pub fn given(&self) -> u64
        ensures { result ≡ self.now.amount }
    {
        self.given
    }

    /// How many takes there were.
    pub fn takes(&self) -> u64
        ensures { result ≡ self.now.calls }
    {
        self.takes
    }

    /// How many takes failed.
    pub fn faults(&self) -> u64
        ensures { result ≡ self.now.faults }
    {
        self.faults
    }

    /// The reader.
    pub fn into_inner(self) -> R
        ensures { result ≡ self.inner }
    {
        self.inner
    }
}

impl<R: Read + Drop> Source for StdSource<R> {
    ghost use Rattle.std.specs.Prelude.{None};
    ghost use Rattle.nv_io.specs.Edge.{IsEdgeTake};

    ghost state = { λ s. record { left = None; given = s.amount; takes = s.calls; faults = s.faults } };

    ghost take_gives = { IsEdgeTake R.remaining };

    fn take(&mut self, into: &mut [u8]) -> Result<usize, SourceFailed>
        requires { 0 < length into.old }
        ensures step { IsEdgeTake R.remaining self.old into.new result self.new }

        ensures within { IfOk result (λ n. n ≤ length into.new) }
        ensures amount { IfOk result (λ n. self.new.amount ≡ count_after self.old.amount n) }
        ensures quiet { OnOk result (self.new.faults ≡ self.old.faults) }

        ensures fault { OnErr result (Rose self.old.faults self.new.faults) }
        ensures none_given { OnErr result (self.new.amount ≡ self.old.amount) }

        ensures counted { self.new.calls ≡ next_count self.old.calls }

        // What the reader tells of its bytes.
        ensures inner_given { IfOk result (λ n. Consumes (R.remaining self.old.inner)
            (R.remaining self.new.inner) (take n into.new)) }
        ensures inner_end { IfOk result (λ n. n ≡ 0 → IsAtEnd (R.remaining self.new.inner)) }
        ensures inner_none_lost { OnErr result
            (Keeps (R.remaining self.old.inner) (R.remaining self.new.inner)) }
        ensures err { OnErr result (self.new.faults ≡ next_count self.old.faults) }
    {
        self.takes = one_more(self.takes);
        match self.inner.read(into) {
            Ok(count) => {
                self.given = some_more(self.given, count);
                Ok(count)
            }
            Err(_) => {
                self.faults = one_more(self.faults);
                Err(SourceFailed)
            }
        }
    }
}

/// A standard writer as a sink. Each `Err` of the writer is a fault, and so is a write that takes
/// nothing. It tells how many bytes it took and not which, and takes what the writer took.
#[derive(Drop)]
pub struct StdSink<W> {
    inner: W,
    amount: u64,
    puts: u64,
    faults: u64,
}

impl<W> Model for StdSink<W> {
    ghost use Rattle.nv_io.specs.Edge.{Edge};

    ghost Value = { Edge W };

    ghost view = { λ s. record { inner = s.inner; amount = s.amount; calls = s.puts; faults = s.faults } };
}

impl<W> StdSink<W> {
    /// A sink over this writer that was not called yet.
    pub fn new(inner: W) -> Self
        ensures { result ≡ record { inner = inner; amount = 0; calls = 0; faults = 0 } }
    {
        StdSink {
            inner,
            amount: 0,
            puts: 0,
            faults: 0,
        }
    }

    /// How many bytes were taken. The count stays at the last value.
    pub fn amount(&self) -> u64
        ensures { result ≡ self.now.amount }
    {
        self.amount
    }

    /// How many puts there were.
    pub fn puts(&self) -> u64
        ensures { result ≡ self.now.calls }
    {
        self.puts
    }

    /// How many puts failed.
    pub fn faults(&self) -> u64
        ensures { result ≡ self.now.faults }
    {
        self.faults
    }

    /// The writer.
    pub fn into_inner(self) -> W
        ensures { result ≡ self.inner }
    {
        self.inner
    }
}

impl<W: Write + Drop> Sink for StdSink<W> {
    ghost use Rattle.std.specs.Prelude.{None};
    ghost use Rattle.nv_io.specs.Edge.{IsEdgePut};

    ghost state = { λ s. record { taken = None; amount = s.amount; puts = s.calls; faults = s.faults } };

    ghost put_gives = { IsEdgePut W.contents };

    fn put(&mut self, bytes: &[u8]) -> Result<usize, SinkFailed>
        requires { 0 < length bytes.now }
        ensures step { IsEdgePut W.contents self.old bytes.now result self.new }

        ensures some { IfOk result (λ n. 0 < n) }
        ensures within { IfOk result (λ n. n ≤ length bytes.now) }
        ensures amount { IfOk result (λ n. self.new.amount ≡ count_after self.old.amount n) }
        ensures quiet { OnOk result (self.new.faults ≡ self.old.faults) }

        ensures fault { OnErr result (Rose self.old.faults self.new.faults) }
        ensures none_more { OnErr result (self.new.amount ≡ self.old.amount) }

        ensures counted { self.new.calls ≡ next_count self.old.calls }

        // What the writer tells of its bytes.
        ensures inner_kept { IfOk result (λ n. Appends (W.contents self.old.inner)
            (W.contents self.new.inner) (take n bytes.now)) }
        ensures inner_none_taken { OnErr result
            (Keeps (W.contents self.old.inner) (W.contents self.new.inner)) }
        ensures err { OnErr result (self.new.faults ≡ next_count self.old.faults) }
    {
        self.puts = one_more(self.puts);
        match self.inner.write(bytes) {
            Ok(count) if count > 0 => {
                self.amount = some_more(self.amount, count);
                Ok(count)
            }
            _ => {
                self.faults = one_more(self.faults);
                Err(SinkFailed)
            }
        }
    }
}
