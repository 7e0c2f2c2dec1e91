//! The packets that a datapath begins with, and those that it makes in answer to others.
ghost use Rattle.std.specs.Prelude.{◌≡◌};
ghost use Rattle.pkt_core.specs.Replies.{start, is_reset, is_answerable, turned, reset, error_type, error_code, with_quote, icmp_back, icmp_error, arp_reply, arp_request};

use crate::parts::{ARP, ICMP, IP4};
use crate::{Packet, Tuple};
use nv_base::{Field, Ip4, Mac, ObjId, Prerequisite};

/// Why a packet is answered by an ICMP error.
#[derive(Clone, Copy)]
pub enum IcmpReason {
    /// Nothing listens at the port.
    PortUnreachable,
    /// The packet may cross no further router.
    TtlExceeded,
}

impl IcmpReason {
    // The type of the error.
    fn kind(self) -> u8
        ensures { result ≡ error_type self }
    {
        match self {
            IcmpReason::PortUnreachable => 3,
            IcmpReason::TtlExceeded => 11,
        }
    }

    // Its code.
    fn code(self) -> u8
        ensures { result ≡ error_code self }
    {
        match self {
            IcmpReason::PortUnreachable => 3,
            IcmpReason::TtlExceeded => 0,
        }
    }
}

impl Packet {
    /// The packet as it comes into a datapath by a port: normal, with the port as `inport` and each other working
    /// field zero.
    pub fn start(&self, port: ObjId) -> Packet
        ensures { result ≡ start self.now port.0 }
    {
        let mut packet = self.headers();
        packet.set(Field::Inport, u128::from(port.0));
        packet.normal()
    }

    /// Whether the packet may be answered by a TCP reset or an ICMP error: it is IPv4, no TCP reset, and no ICMP error.
    pub fn is_answerable(&self) -> bool
        ensures { result ≡ is_answerable self.now }
    {
        self.meets(Prerequisite::Ip4) && !self.is_reset() && !self.meets(Prerequisite::IcmpError)
    }

    // Whether it is a TCP packet with the flag of a reset.
    fn is_reset(&self) -> bool
        ensures { result ≡ is_reset self.now }
    {
        self.meets(Prerequisite::Tcp) && (self.get(Field::TcpFlags) / 4) % 2 == 1
    }

    // The packet with its Ethernet and IPv4 addresses exchanged.
    fn turned(&self) -> Packet
        ensures { result ≡ turned self.now }
    {
        let mut turned = *self;
        turned.exchange(Field::EthSrc, Field::EthDst);
        turned.exchange(Field::Ip4Src, Field::Ip4Dst);
        turned
    }

    /// The TCP reset that answers a TCP packet (RFC 9293, 3.5.2; modelled on the actions `tcp_reset` and `reject` of
    /// ovn-sb(5), 'Logical_Flow TABLE'): addresses and ports exchanged, the flags RST and ACK, TTL 255. All else stays.
    pub fn reset(&self) -> Packet
        ensures { result ≡ reset self.now }
    {
        let mut reset = self.turned();
        reset.exchange(Field::TcpSrc, Field::TcpDst);
        reset.set(Field::TcpFlags, 0x14);
        reset.set(Field::IpTtl, 255);
        reset
    }

    /// The ICMP error that answers the packet, which it quotes (RFC 792; modelled on the actions `icmp4` and `reject` of
    /// ovn-sb(5), 'Logical_Flow TABLE'): IPv4, addresses exchanged, TTL 255, type and code of the reason. The working
    /// fields stay, and all else is zero.
    pub fn icmp_error(&self, reason: IcmpReason) -> Packet
        ensures { result ≡ icmp_error self.now reason }
    {
        let mut error = self.icmp_back();
        error.set(Field::Icmp4Type, u128::from(reason.kind()));
        error.set(Field::Icmp4Code, u128::from(reason.code()));
        error.set_quote(self.tuple());
        error
    }

    // An ICMP packet of TTL 255 back to where the packet came from. The working fields stay, and all else is zero.
    fn icmp_back(&self) -> Packet
        ensures { result ≡ icmp_back self.now }
    {
        let mut back = self.workings();
        back.set(Field::EthSrc, self.get(Field::EthDst));
        back.set(Field::EthDst, self.get(Field::EthSrc));
        back.set(Field::EthType, IP4);
        back.set(Field::IpProto, ICMP);
        back.set(Field::IpTtl, 255);
        back.set(Field::Ip4Src, self.get(Field::Ip4Dst));
        back.set(Field::Ip4Dst, self.get(Field::Ip4Src));
        back
    }

    // Gives the packet this tuple for its quote.
    fn set_quote(&mut self, tuple: Tuple)
        ensures { self.new ≡ with_quote self.old tuple }
    {
        self.set(Field::QuoteProto, u128::from(tuple.proto));
        self.set(Field::QuoteSrc, u128::from(tuple.src.0));
        self.set(Field::QuoteSport, u128::from(tuple.sport));
        self.set(Field::QuoteDst, u128::from(tuple.dst.0));
        self.set(Field::QuoteDport, u128::from(tuple.dport));
    }

    /// The reply to an ARP request, that this MAC has the address that it asks for (RFC 826; made as by the flows of
    /// ovn-northd(8), 'Ingress Table: ARP/ND responder'): to the sender, operation 2. All else stays.
    pub fn arp_reply(&self, mac: Mac) -> Packet
        ensures { result ≡ arp_reply self.now mac }
    {
        let mut reply = *self;
        reply.set(Field::EthDst, self.get(Field::EthSrc));
        reply.set(Field::EthSrc, u128::from(mac.0));
        reply.set(Field::ArpOp, 2);
        reply.set(Field::ArpSpa, self.get(Field::ArpTpa));
        reply.set(Field::ArpSha, u128::from(mac.0));
        reply.set(Field::ArpTpa, self.get(Field::ArpSpa));
        reply.set(Field::ArpTha, self.get(Field::ArpSha));
        reply
    }

    /// The broadcast ARP request, from this MAC and address, for the MAC of an address (RFC 826; modelled on the action
    /// `arp` of ovn-sb(5), 'Logical_Flow TABLE'): operation 1, the target's MAC zero. All else is zero.
    pub fn arp_request(mac: Mac, from: Ip4, wanted: Ip4) -> Packet
        ensures { result ≡ arp_request mac from wanted }
    {
        let mut request = Packet::zero();
        request.set(Field::EthSrc, u128::from(mac.0));
        request.set(Field::EthDst, 0xffff_ffff_ffff);
        request.set(Field::EthType, ARP);
        request.set(Field::ArpOp, 1);
        request.set(Field::ArpSpa, u128::from(from.0));
        request.set(Field::ArpSha, u128::from(mac.0));
        request.set(Field::ArpTpa, u128::from(wanted.0));
        request
    }
}
