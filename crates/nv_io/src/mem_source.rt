ghost use Rattle.std.specs.Prelude.{◌≡◌, ℕ, ◌<◌, ◌≤◌, ◌↔◌, List, [], ◌++◌, length, take, drop, min, IfOk, OnOk, OnErr, IsOk, IsErr};
ghost use Rattle.nv_io.specs.Counts.{Rose, next_count, count_after};
ghost use Rattle.nv_io.specs.Feed.{NextTakeFails, IsTake, IsCleanTake};

use crate::counts::one_more;
use crate::source::{Source, SourceFailed};
use std::marker::Model;

/// Bytes in memory, given in pieces of at most `piece` bytes. The takes whose numbers, from 1,
/// are in `fail` fail, and no others.
#[derive(Drop)]
pub struct MemSource {
    bytes: Vec<u8>,
    position: usize,
    piece: usize,
    fail: Vec<u64>,
    takes: u64,
    faults: u64,
}

impl Model for MemSource {
    ghost use Rattle.std.specs.Prelude.{◌<◌, ◌≤◌, drop, length};
    ghost use Rattle.nv_io.specs.Feed.{Feed};

    ghost Value = { Feed };

    ghost view = { λ s. record {
      left = drop s.position s.bytes.items;
      given = s.position;
      piece = s.piece;
      fail = s.fail.items;
      takes = s.takes;
      faults = s.faults;
    } };

    ghost invariant = { λ s. (s.position ≤ length s.bytes.items) × (0 < s.piece) };
}

impl MemSource {
    /// A source of these bytes that was not called yet.
    pub fn new(bytes: Vec<u8>, piece: usize, fail: Vec<u64>) -> Self
        requires { 0 < piece }
        ensures { result ≡ record {
          left = bytes.items;
          given = 0;
          piece = piece;
          fail = fail.items;
          takes = 0;
          faults = 0;
        } }
    {
        MemSource {
            bytes,
            position: 0,
            piece,
            fail,
            takes: 0,
            faults: 0,
        }
    }

    /// The bytes still to come.
    pub fn left(&self) -> &[u8]
        ensures { result.now ≡ self.now.left }
    {
        &self.bytes[self.position..]
    }

    /// How many takes there were.
    pub fn takes(&self) -> u64
        ensures { result ≡ self.now.takes }
    {
        self.takes
    }

    /// How many takes failed.
    pub fn faults(&self) -> u64
        ensures { result ≡ self.now.faults }
    {
        self.faults
    }
}

impl Source for MemSource {
    ghost use Rattle.std.specs.Prelude.{Some};
    ghost use Rattle.nv_io.specs.Feed.{IsTake};

    ghost state = { λ s. record { left = Some s.left; given = s.given; takes = s.takes; faults = s.faults } };

    ghost take_gives = { IsTake };

    fn take(&mut self, into: &mut [u8]) -> Result<usize, SourceFailed>
        requires { 0 < length into.old }
        ensures step { IsTake self.old into.new result self.new }

        ensures within { IfOk result (λ n. n ≤ length into.new) }
        ensures given { IfOk result (λ n. self.old.left ≡ take n into.new ++ self.new.left) }
        ensures amount { IfOk result (λ n. self.new.given ≡ count_after self.old.given n) }
        ensures end { IfOk result (λ n. n ≡ 0 → self.new.left ≡ []) }
        ensures quiet { OnOk result (self.new.faults ≡ self.old.faults) }

        ensures fault { OnErr result (Rose self.old.faults self.new.faults) }
        ensures none_lost { OnErr result (self.new.left ≡ self.old.left) }
        ensures none_given { OnErr result (self.new.given ≡ self.old.given) }

        ensures counted { self.new.takes ≡ next_count self.old.takes }

        // Exactly what one take does.
        ensures fails { IsErr result ↔ NextTakeFails self.old }
        ensures count { IfOk result (λ n.
            n ≡ min self.old.piece (min (length into.old) (length self.old.left))) }
        ensures copied { IfOk result (λ n. into.new ≡ take n self.old.left ++ drop n into.old) }
        ensures ok { IfOk result (λ n. self.new ≡ record self.old {
          left = drop n self.old.left;
          given = count_after self.old.given n;
          takes = next_count self.old.takes;
        }) }
        ensures err { OnErr result (self.new ≡ record self.old {
          takes = next_count self.old.takes;
          faults = next_count self.old.faults;
        }) }
        ensures untouched { OnErr result (into.new ≡ into.old) }
    {
        self.takes = one_more(self.takes);
        if self.fail.contains(&self.takes) {
            self.faults = one_more(self.faults);
            return Err(SourceFailed);
        }
        let count = copy_piece(&self.bytes[self.position..], self.piece, into);
        self.position += count;
        Ok(count)
    }
}

/// Bytes in memory, given in pieces of at most `piece` bytes. No take fails.
#[derive(Drop)]
pub struct CleanSource {
    bytes: Vec<u8>,
    position: usize,
    piece: usize,
    takes: u64,
}

impl Model for CleanSource {
    ghost use Rattle.std.specs.Prelude.{◌<◌, ◌≤◌, drop, length};
    ghost use Rattle.nv_io.specs.Feed.{CleanFeed};

    ghost Value = { CleanFeed };

    ghost view = { λ s. record {
      left = drop s.position s.bytes.items;
      given = s.position;
      piece = s.piece;
      takes = s.takes;
    } };

    ghost invariant = { λ s. (s.position ≤ length s.bytes.items) × (0 < s.piece) };
}

impl CleanSource {
    /// A source of these bytes that was not called yet.
    pub fn new(bytes: Vec<u8>, piece: usize) -> Self
        requires { 0 < piece }
        ensures { result ≡ record { left = bytes.items; given = 0; piece = piece; takes = 0 } }
    {
        CleanSource {
            bytes,
            position: 0,
            piece,
            takes: 0,
        }
    }

    /// The bytes still to come.
    pub fn left(&self) -> &[u8]
        ensures { result.now ≡ self.now.left }
    {
        &self.bytes[self.position..]
    }

    /// How many takes there were.
    pub fn takes(&self) -> u64
        ensures { result ≡ self.now.takes }
    {
        self.takes
    }
}

impl Source for CleanSource {
    ghost use Rattle.std.specs.Prelude.{Some};
    ghost use Rattle.nv_io.specs.Feed.{IsCleanTake};

    ghost state = { λ s. record { left = Some s.left; given = s.given; takes = s.takes; faults = 0 } };

    ghost take_gives = { IsCleanTake };

    fn take(&mut self, into: &mut [u8]) -> Result<usize, SourceFailed>
        requires { 0 < length into.old }
        ensures step { IsCleanTake self.old into.new result self.new }

        ensures within { IfOk result (λ n. n ≤ length into.new) }
        ensures given { IfOk result (λ n. self.old.left ≡ take n into.new ++ self.new.left) }
        ensures amount { IfOk result (λ n. self.new.given ≡ count_after self.old.given n) }
        ensures end { IfOk result (λ n. n ≡ 0 → self.new.left ≡ []) }
        ensures counted { self.new.takes ≡ next_count self.old.takes }

        // Exactly what one take does.
        ensures succeeds { IsOk result }
        ensures count { IfOk result (λ n.
            n ≡ min self.old.piece (min (length into.old) (length self.old.left))) }
        ensures copied { IfOk result (λ n. into.new ≡ take n self.old.left ++ drop n into.old) }
        ensures ok { IfOk result (λ n. self.new ≡ record self.old {
          left = drop n self.old.left;
          given = count_after self.old.given n;
          takes = next_count self.old.takes;
        }) }
    {
        self.takes = one_more(self.takes);
        let count = copy_piece(&self.bytes[self.position..], self.piece, into);
        self.position += count;
        Ok(count)
    }
}

/// Copies bytes from the front of `from` to the front of `into`, at most `piece`, and answers how many.
fn copy_piece(from: &[u8], piece: usize, into: &mut [u8]) -> usize
    ensures count { result ≡ min piece (min (length into.old) (length from.now)) }
    ensures copied { into.new ≡ take result from.now ++ drop result into.old }
    ensures front { from.now ≡ take result into.new ++ drop result from.now }
{
    let count = piece.min(into.len()).min(from.len());
    into[..count].copy_from_slice(&from[..count]);
    count
}
