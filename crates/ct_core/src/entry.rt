ghost use Rattle.std.specs.Prelude.{◌≡◌};
ghost use Rattle.pkt_core.specs.Replies.{with_quote};
ghost use Rattle.ct_core.specs.Entry.{tuple_on};
ghost use Rattle.ct_core.specs.Translation.{error_source, translated, translated_error};

use crate::{Side, Zone};
use nv_base::{Field, Prerequisite};
use pkt_core::{Packet, Tuple};

/// A connection that is tracked in a zone, with the tuples of its packets in both directions. Where nothing is translated,
/// each is the other's with source and destination exchanged.
#[derive(Clone, Copy, PartialEq, Eq)]
pub struct Entry {
    /// The zone.
    pub zone: Zone,
    /// The tuple of packets in the original direction, that of the packet that began the connection.
    pub orig: Tuple,
    /// The tuple of packets in the reply direction.
    pub reply: Tuple,
    /// Whether its packets are dropped (`ct_mark.blocked`, as in ovn-northd(8)).
    pub blocked: bool,
}

impl Entry {
    /// The tuple of its packets in a direction.
    pub fn tuple(&self, side: Side) -> Tuple
        ensures { result ≡ tuple_on side self.now }
    {
        match side {
            Side::Orig => self.orig,
            Side::Reply => self.reply,
        }
    }

    /// A packet that was found in a direction, as it is after translation: with the tuple of the other direction, turned
    /// round; of an ICMP error that which it quotes, and its addresses (modelled on `ct_dnat` and `ct_snat` of ovn-sb(5)).
    /// Its protocol stays.
    pub fn translate(&self, side: Side, packet: &Packet) -> Packet
        ensures { result ≡ translated self.now side packet.now }
    {
        let mut translated = *packet;
        let back = self.tuple(side.other());
        if packet.meets(Prerequisite::IcmpError) {
            translate_error(&mut translated, self.tuple(side), back);
        } else {
            translated.set_tuple(back.swap());
        }
        translated
    }
}

// Translates an ICMP error in a direction whose tuple is `own`. The tuple of the other one is `back`.
fn translate_error(packet: &mut Packet, own: Tuple, back: Tuple)
    ensures { packet.new ≡ translated_error own back packet.old }
{
    let source = error_source(packet, own, back);
    packet.set(Field::Ip4Src, u128::from(source));
    packet.set(Field::Ip4Dst, u128::from(back.src.0));
    set_quote(packet, back);
}

// The source of the error after it.
fn error_source(packet: &Packet, own: Tuple, back: Tuple) -> u32
    ensures { result ≡ error_source own back packet.now }
{
    let source = packet.get(Field::Ip4Src) as u32;
    if source == own.src.0 {
        back.dst.0
    } else {
        source
    }
}

// Gives the packet this tuple for its quote.
fn set_quote(packet: &mut Packet, tuple: Tuple)
    ensures { packet.new ≡ with_quote packet.old tuple }
{
    packet.set(Field::QuoteProto, u128::from(tuple.proto));
    packet.set(Field::QuoteSrc, u128::from(tuple.src.0));
    packet.set(Field::QuoteSport, u128::from(tuple.sport));
    packet.set(Field::QuoteDst, u128::from(tuple.dst.0));
    packet.set(Field::QuoteDport, u128::from(tuple.dport));
}
