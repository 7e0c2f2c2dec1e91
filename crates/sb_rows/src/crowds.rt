//! What it is worth to tell rows by.
ghost use Rattle.std.specs.Prelude.{◌≡◌, ◌⊎◌};
ghost use Rattle.expr_core.specs.Lookup.{Lookup};
ghost use Rattle.pkt_core.specs.Packet.{Values};
ghost use Rattle.sb_rows.specs.inner.Asks.{HasAsked, bucket_of};
ghost use Rattle.sb_rows.specs.inner.Plain.{plain, short_of};

use crate::asks::Asks;
use crate::counts::Counts;
use nv_base::OutOfMemory;
use std::alloc::Global;

// So many rows may ask for the same in short. Where more do, each is told by all that its match asks.
const FEW: u8 = 8;

// How many rows ask for what is the same in short.
#[derive(Drop)]
pub(crate) struct Crowds {
    counts: Counts,
}

impl Crowds {
    // Nothing is noted yet, of so many rows.
    pub(crate) fn new(alloc: Global, rows: usize) -> Result<Crowds, OutOfMemory> {
        Ok(Crowds {
            counts: Counts::new(alloc, rows)?,
        })
    }

    // Notes what one row more asks.
    pub(crate) fn note(&mut self, asks: Asks<'_>) {
        self.counts.note(asks.in_short().bucket());
    }

    // What a row is told by: all that its match asks where many ask for the same in short, else that; and the bucket of this.
    pub(crate) fn chosen<'m>(&self, asks: Asks<'m>) -> (Asks<'m>, u64)
        ensures asked { (net : Lookup) (packet : Values) → HasAsked asks.entry net packet → HasAsked result.0 net packet }
        ensures bucket { result.1 ≡ bucket_of result.0 }
        ensures told { (plain result.0 ≡ plain asks.entry) ⊎ (plain result.0 ≡ short_of (plain asks.entry)) }
    {
        let short = asks.in_short();
        let bucket = short.bucket();
        if self.counts.are_at_most(FEW, bucket) {
            (short, bucket)
        } else {
            (asks, asks.bucket())
        }
    }

    // The same, once it is noted.
    pub(crate) fn join<'m>(&mut self, asks: Asks<'m>) -> (Asks<'m>, u64)
        ensures asked { (net : Lookup) (packet : Values) → HasAsked asks.entry net packet → HasAsked result.0 net packet }
        ensures bucket { result.1 ≡ bucket_of result.0 }
        ensures told { (plain result.0 ≡ plain asks.entry) ⊎ (plain result.0 ≡ short_of (plain asks.entry)) }
    {
        self.note(asks);
        self.chosen(asks)
    }
}
