// What the tests share.
ghost use Rattle.std.specs.Prelude.{◌<◌, ◌^◌};

use nv_base::{Field, ObjId};
use pkt_core::Packet;

pub(crate) const SWITCH: ObjId = ObjId(1);

// The port `p0`.
pub(crate) const PORT: ObjId = ObjId(2);

// The address of `p0`.
pub(crate) const ADDRESS: u64 = 0x0a00_0000_0002;

// An address that no port has.
pub(crate) const UNKNOWN: u64 = 0x0a00_0000_0007;

// A packet between these addresses.
pub(crate) fn packet(source: u64, destination: u64) -> Packet
    requires source { source < 2 ^ 48 }
    requires destination { destination < 2 ^ 48 }
{
    let mut packet = Packet::zero();
    packet.set(Field::EthSrc, u128::from(source));
    packet.set(Field::EthDst, u128::from(destination));
    packet
}
