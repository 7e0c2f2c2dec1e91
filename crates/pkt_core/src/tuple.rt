//! The addresses and ports that tell an IPv4 packet's connection.
ghost use Rattle.std.specs.Prelude.{◌≡◌};
ghost use Rattle.pkt_core.specs.Tuple.{sport_of, dport_of, swap, tuple, with_tuple};

use crate::Packet;
use nv_base::{Field, Ip4, Prerequisite};

/// Protocol, source and destination. Where the protocol has no ports they are 0.
#[derive(Clone, Copy, PartialEq, Eq)]
pub struct Tuple {
    /// The protocol.
    pub proto: u8,
    /// The source address.
    pub src: Ip4,
    /// The source port.
    pub sport: u16,
    /// The destination address.
    pub dst: Ip4,
    /// The destination port.
    pub dport: u16,
}

impl Tuple {
    /// The tuple with source and destination exchanged.
    pub fn swap(&self) -> Tuple
        ensures { result ≡ swap self.now }
    {
        Tuple {
            proto: self.proto,
            src: self.dst,
            sport: self.dport,
            dst: self.src,
            dport: self.sport,
        }
    }
}

impl Packet {
    /// The packet's tuple. The ports are those of TCP or UDP over IPv4, and else 0.
    pub fn tuple(&self) -> Tuple
        ensures { result ≡ tuple self.now }
    {
        Tuple {
            proto: self.get(Field::IpProto) as u8,
            src: Ip4(self.get(Field::Ip4Src) as u32),
            sport: self.sport(),
            dst: Ip4(self.get(Field::Ip4Dst) as u32),
            dport: self.dport(),
        }
    }

    // The source port.
    fn sport(&self) -> u16
        ensures { result ≡ sport_of self.now }
    {
        if self.meets(Prerequisite::Tcp) {
            self.get(Field::TcpSrc) as u16
        } else if self.meets(Prerequisite::Udp) {
            self.get(Field::UdpSrc) as u16
        } else {
            0
        }
    }

    // The destination port.
    fn dport(&self) -> u16
        ensures { result ≡ dport_of self.now }
    {
        if self.meets(Prerequisite::Tcp) {
            self.get(Field::TcpDst) as u16
        } else if self.meets(Prerequisite::Udp) {
            self.get(Field::UdpDst) as u16
        } else {
            0
        }
    }

    /// Gives the packet the addresses of a tuple, and its ports where the packet is TCP or UDP over IPv4. The protocol
    /// and all else stay.
    pub fn set_tuple(&mut self, tuple: Tuple)
        ensures { self.new ≡ with_tuple self.old tuple }
    {
        self.set(Field::Ip4Src, u128::from(tuple.src.0));
        self.set(Field::Ip4Dst, u128::from(tuple.dst.0));
        if self.meets(Prerequisite::Tcp) {
            self.set(Field::TcpSrc, u128::from(tuple.sport));
            self.set(Field::TcpDst, u128::from(tuple.dport));
        } else if self.meets(Prerequisite::Udp) {
            self.set(Field::UdpSrc, u128::from(tuple.sport));
            self.set(Field::UdpDst, u128::from(tuple.dport));
        }
    }
}
