ghost use Rattle.std.specs.Prelude.{◌≡◌, IfOk};

use nv_base::OutOfMemory;
use pkt_core::Packet;
use std::alloc::Global;
use std::marker::Model;

/// A packet that is kept apart, so that what holds it is small (not from OVN). A clause sees the packet.
#[derive(Drop)]
pub struct Parcel(Box<Packet>);

impl Model for Parcel {
    ghost use Rattle.std.specs.Prelude.{List, ℕ};

    ghost Value = { List ℕ };

    ghost view = { λ p. p.0.value };
}

impl Parcel {
    /// Keeps a packet apart, in 288 bytes of memory.
    pub fn new(alloc: Global, packet: Packet) -> Result<Self, OutOfMemory>
        ensures { IfOk result (λ parcel. parcel ≡ packet) }
    {
        Ok(Parcel(Box::new(alloc, packet)?))
    }

    /// The packet.
    pub fn packet(&self) -> &Packet
        ensures { result.now ≡ self.now }
    {
        &self.0
    }
}
