//! What a packet is looked up by, and what is known of one that no connection has.
ghost use Rattle.std.specs.Prelude.{◌≡◌};
ghost use Rattle.pkt_core.specs.Replies.{is_reset};
ghost use Rattle.ct_core.specs.Look.{quoted, sought, unfound};

use crate::Look;
use nv_base::{Field, Ip4, Prerequisite};
use pkt_core::{Packet, Tuple};

/// The tuple by which a packet is looked up: its own, and for an ICMP error that which the packet that it quotes has on its
/// way back (RFC 792; ovn-sb(5), `ct.rel`).
pub fn sought(packet: &Packet) -> Tuple
    ensures { result ≡ sought packet.now }
{
    if packet.meets(Prerequisite::IcmpError) {
        quoted(packet).swap()
    } else {
        packet.tuple()
    }
}

/// What is known of a packet for which no entry is found: it may begin a connection, unless it is an ICMP error or a TCP
/// reset (ovn-sb(5), `ct.new` and `ct.inv`).
pub fn unfound(packet: &Packet) -> Look
    ensures { result ≡ unfound packet.now }
{
    if packet.meets(Prerequisite::IcmpError) || is_reset(packet) {
        Look::Invalid
    } else {
        Look::New
    }
}

// The tuple of the packet that an ICMP error quotes.
fn quoted(packet: &Packet) -> Tuple
    ensures { result ≡ quoted packet.now }
{
    Tuple {
        proto: packet.get(Field::QuoteProto) as u8,
        src: Ip4(packet.get(Field::QuoteSrc) as u32),
        sport: packet.get(Field::QuoteSport) as u16,
        dst: Ip4(packet.get(Field::QuoteDst) as u32),
        dport: packet.get(Field::QuoteDport) as u16,
    }
}

// Whether it is a TCP packet with the flag of a reset.
fn is_reset(packet: &Packet) -> bool
    ensures { result ≡ is_reset packet.now }
{
    packet.meets(Prerequisite::Tcp) && (packet.get(Field::TcpFlags) / 4) % 2 == 1
}
