ghost use Rattle.std.specs.Prelude.{◌≡◌, ℕ, ◌-◌, ◌<◌, ◌≤◌, ◌↔◌, List, [], ◌++◌, length, take, min, IfOk, OnOk, OnErr, IsOk, IsErr, IsTrue, ◌+◌};
ghost use Rattle.nv_io.specs.Counts.{Rose, next_count, count_after};
ghost use Rattle.nv_io.specs.Store.{NextPutFails, IsPut, IsCountedPut};

use crate::counts::{one_more, some_more};
use crate::sink::{Sink, SinkFailed};
use nv_base::OutOfMemory;
use std::alloc::Global;
use std::marker::Model;

/// Memory that takes bytes in pieces of at most `piece` bytes, and no more than `room` in all.
/// A put fails where its number, from 1, is in `fail`, or `room` bytes are kept already, and
/// nowhere else.
#[derive(Drop)]
pub struct MemSink {
    kept: Vec<u8>,
    room: usize,
    piece: usize,
    fail: Vec<u64>,
    puts: u64,
    faults: u64,
}

impl Model for MemSink {
    ghost use Rattle.std.specs.Prelude.{◌<◌, ◌≤◌, vec_len, vec_capacity};
    ghost use Rattle.nv_io.specs.Store.{Store};

    ghost Value = { Store };

    ghost view = { λ s. record {
      kept = s.kept.items;
      room = s.room;
      piece = s.piece;
      fail = s.fail.items;
      puts = s.puts;
      faults = s.faults;
    } };

    ghost invariant = { λ s.
        (vec_len s.kept ≤ s.room) × (s.room ≤ vec_capacity s.kept) × (0 < s.piece) };
}

impl MemSink {
    /// A sink that was not called yet. It takes the memory for `room` bytes here, and none later.
    /// With no memory for them it is `OutOfMemory`.
    pub fn new(
        alloc: Global,
        room: usize,
        piece: usize,
        fail: Vec<u64>,
    ) -> Result<Self, OutOfMemory>
        requires { 0 < piece }
        ensures succeeds { room ≡ 0 → IsOk result }
        ensures empty { IfOk result (λ sink. sink ≡ record {
          kept = [];
          room = room;
          piece = piece;
          fail = fail.items;
          puts = 0;
          faults = 0;
        }) }
    {
        let kept = Vec::with_capacity(alloc, room)?;
        Ok(MemSink {
            kept,
            room,
            piece,
            fail,
            puts: 0,
            faults: 0,
        })
    }

    /// The bytes put so far.
    pub fn as_slice(&self) -> &[u8]
        ensures { result.now ≡ self.now.kept }
    {
        self.kept.as_slice()
    }

    /// The bytes put so far, as a `Vec`.
    pub fn into_items(self) -> Vec<u8>
        ensures { result.items ≡ self.kept }
    {
        self.kept
    }

    /// How many puts there were.
    pub fn puts(&self) -> u64
        ensures { result ≡ self.now.puts }
    {
        self.puts
    }

    /// How many puts failed.
    pub fn faults(&self) -> u64
        ensures { result ≡ self.now.faults }
    {
        self.faults
    }

    /// Keeps these bytes, which fit.
    fn keep(&mut self, bytes: &[u8])
        requires { length self.old.kept + length bytes.now ≤ self.old.room }
        ensures { self.new ≡ record self.old { kept = self.old.kept ++ bytes.now } }
    {
        let kept = self.kept.extend_from_slice(bytes);
        prove!(kept.is_ok());
    }
}

impl Sink for MemSink {
    ghost use Rattle.std.specs.Prelude.{Some, length};
    ghost use Rattle.nv_io.specs.Store.{IsPut};

    ghost state = { λ s. record { taken = Some s.kept; amount = length s.kept; puts = s.puts; faults = s.faults } };

    ghost put_gives = { IsPut };

    fn put(&mut self, bytes: &[u8]) -> Result<usize, SinkFailed>
        requires { 0 < length bytes.now }
        ensures step { IsPut self.old bytes.now result self.new }

        ensures some { IfOk result (λ n. 0 < n) }
        ensures within { IfOk result (λ n. n ≤ length bytes.now) }
        ensures kept { IfOk result (λ n. self.new.kept ≡ self.old.kept ++ take n bytes.now) }
        ensures amount { IfOk result (λ n. length self.new.kept ≡ count_after (length self.old.kept) n) }
        ensures quiet { OnOk result (self.new.faults ≡ self.old.faults) }

        ensures fault { OnErr result (Rose self.old.faults self.new.faults) }
        ensures none_taken { OnErr result (self.new.kept ≡ self.old.kept) }
        ensures none_more { OnErr result (length self.new.kept ≡ length self.old.kept) }

        ensures counted { self.new.puts ≡ next_count self.old.puts }

        // Exactly what one put does.
        ensures fails { IsErr result ↔ NextPutFails self.old }
        ensures count { IfOk result (λ n. n ≡ min self.old.piece
            (min (length bytes.now) (self.old.room - length self.old.kept))) }
        ensures ok { IfOk result (λ n. self.new ≡ record self.old {
          kept = self.old.kept ++ take n bytes.now;
          puts = next_count self.old.puts;
        }) }
        ensures err { OnErr result (self.new ≡ record self.old {
          puts = next_count self.old.puts;
          faults = next_count self.old.faults;
        }) }
    {
        self.puts = one_more(self.puts);
        let free = self.room - self.kept.len();
        if free == 0 || self.fail.contains(&self.puts) {
            self.faults = one_more(self.faults);
            return Err(SinkFailed);
        }
        let count = self.piece.min(bytes.len()).min(free);
        self.keep(&bytes[..count]);
        Ok(count)
    }
}

/// Takes every byte, keeps none, and counts them. No put fails.
#[derive(Drop)]
pub struct NullSink {
    total: u64,
    puts: u64,
}

impl Model for NullSink {
    ghost use Rattle.nv_io.specs.Store.{Tally};

    ghost Value = { Tally };

    ghost view = { λ s. record { total = s.total; puts = s.puts } };
}

impl NullSink {
    /// A sink that was not called yet.
    pub fn new() -> Self
        ensures { result ≡ record { total = 0; puts = 0 } }
    {
        NullSink { total: 0, puts: 0 }
    }

    /// How many bytes were put. The count stays at the last value.
    pub fn len(&self) -> u64
        ensures { result ≡ self.now.total }
    {
        self.total
    }

    /// Whether no byte was put.
    pub fn is_empty(&self) -> bool
        ensures { IsTrue result ↔ (self.now.total ≡ 0) }
    {
        self.total == 0
    }

    /// How many puts there were.
    pub fn puts(&self) -> u64
        ensures { result ≡ self.now.puts }
    {
        self.puts
    }
}

impl Sink for NullSink {
    ghost use Rattle.std.specs.Prelude.{None};
    ghost use Rattle.nv_io.specs.Store.{IsCountedPut};

    ghost state = { λ s. record { taken = None; amount = s.total; puts = s.puts; faults = 0 } };

    ghost put_gives = { IsCountedPut };

    fn put(&mut self, bytes: &[u8]) -> Result<usize, SinkFailed>
        requires { 0 < length bytes.now }
        ensures step { IsCountedPut self.old bytes.now result self.new }

        ensures some { IfOk result (λ n. 0 < n) }
        ensures within { IfOk result (λ n. n ≤ length bytes.now) }
        ensures amount { IfOk result (λ n. self.new.total ≡ count_after self.old.total n) }

        ensures counted { self.new.puts ≡ next_count self.old.puts }

        // Exactly what one put does.
        ensures succeeds { IsOk result }
        ensures count { IfOk result (λ n. n ≡ length bytes.now) }
        ensures after { self.new ≡ record {
          total = count_after self.old.total (length bytes.now);
          puts = next_count self.old.puts;
        } }
    {
        self.puts = one_more(self.puts);
        self.total = some_more(self.total, bytes.len());
        Ok(bytes.len())
    }
}
