// What the tests share.
ghost use Rattle.std.specs.Prelude.{◌<◌, ◌^◌};

use nv_base::{Field, Name};
use pkt_core::Packet;
use std::alloc::Global;
use std::process::Abort;

pub(crate) fn name(text: &str, alloc: Global, rt: &impl Abort) -> Name {
    Name::from_slice(alloc, text.as_bytes()).expect(rt, "memory")
}

// A packet between these addresses.
pub(crate) fn packet(source: u64, destination: u64) -> Packet
    requires source { source < 2 ^ 48 }
    requires destination { destination < 2 ^ 48 }
{
    let mut packet = Packet::zero();
    packet.set(Field::EthSrc, u128::from(source));
    packet.set(Field::EthDst, u128::from(destination));
    packet
}
