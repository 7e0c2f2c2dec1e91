//! The fields of a packet, and the one table of what is known of each.
ghost use Rattle.std.specs.Prelude.{◌≡◌, ◌≤◌, ◌++◌, OnOk, OnErr};
ghost use Rattle.nv_base.specs.Field.{field_count, field_number, field_width, field_name, field_printed, field_prerequisite, is_header, all_fields, is_named, field_of};

use crate::OutOfMemory;
use Prerequisite::{Arp, Icmp4, IcmpError, Ip4, Nothing, Tcp, Udp};
use Printed::{Decimal, Hexadecimal, Ip4Address, MacAddress, PortName};

/// A field of a packet. The header fields have ovn-sb(5)'s names, but for the quotes. The quotes, and the working
/// fields, which a datapath keeps while a packet is in it, are not from OVN.
#[derive(Clone, Copy, Debug, PartialEq, Eq)]
pub enum Field {
    /// The number of the port that the packet came in by. 0 is none.
    Inport,
    /// The number of the port that the packet is to go out by. 0 is none.
    Outport,
    /// 1 where the packet may go out by the port that it came in by.
    FlagsLoopback,
    /// The Ethernet source.
    EthSrc,
    /// The Ethernet destination.
    EthDst,
    /// The Ethernet type.
    EthType,
    /// The protocol of an IPv4 packet.
    IpProto,
    /// How many routers an IPv4 packet may still cross.
    IpTtl,
    /// The IPv4 source.
    Ip4Src,
    /// The IPv4 destination.
    Ip4Dst,
    /// What an ARP packet is: 1 is a request, 2 a reply.
    ArpOp,
    /// The IPv4 address of an ARP packet's sender.
    ArpSpa,
    /// The MAC of an ARP packet's sender.
    ArpSha,
    /// The IPv4 address of an ARP packet's target.
    ArpTpa,
    /// The MAC of an ARP packet's target.
    ArpTha,
    /// The TCP source port.
    TcpSrc,
    /// The TCP destination port.
    TcpDst,
    /// The TCP flags.
    TcpFlags,
    /// The UDP source port.
    UdpSrc,
    /// The UDP destination port.
    UdpDst,
    /// The type of an ICMP message.
    Icmp4Type,
    /// The code of an ICMP message.
    Icmp4Code,
    /// Of an ICMP error: the protocol of the packet that it is about.
    QuoteProto,
    /// The IPv4 source of that packet.
    QuoteSrc,
    /// The source port of that packet.
    QuoteSport,
    /// The IPv4 destination of that packet.
    QuoteDst,
    /// The destination port of that packet.
    QuoteDport,
    /// What the last lookup among the connections found.
    CtState,
    /// 1 where the connection that it found is blocked.
    CtMarkBlocked,
    /// A register, for a number that a stage keeps for a later one.
    Reg0,
    /// A register.
    Reg1,
    /// A register.
    Reg2,
    /// A register.
    Reg3,
    /// A register.
    Reg4,
    /// A register.
    Reg5,
    /// A register that holds a MAC.
    Reg6,
}

/// How the numbers of a field are written.
#[derive(Clone, Copy)]
pub enum Printed {
    /// As the quoted name of the port of this number.
    PortName,
    /// In decimal.
    Decimal,
    /// In hexadecimal.
    Hexadecimal,
    /// As a MAC.
    MacAddress,
    /// As an IPv4 address.
    Ip4Address,
}

/// What a packet must be for a field to be there.
#[derive(Clone, Copy)]
pub enum Prerequisite {
    /// Anything.
    Nothing,
    /// An IPv4 packet.
    Ip4,
    /// An ARP packet.
    Arp,
    /// A TCP packet over IPv4.
    Tcp,
    /// A UDP packet over IPv4.
    Udp,
    /// An ICMP packet over IPv4.
    Icmp4,
    /// An ICMP packet of type 3 or 11, which is about another packet.
    IcmpError,
}

// What is known of a field.
#[derive(Clone, Copy)]
struct Facts {
    width: u8,
    name: &'static str,
    printed: Printed,
    prerequisite: Prerequisite,
}

/// How many fields there are.
pub const FIELD_COUNT: usize = 36;

// All the fields, in the order of their numbers.
static ALL: [Field; FIELD_COUNT] = [
    Field::Inport,
    Field::Outport,
    Field::FlagsLoopback,
    Field::EthSrc,
    Field::EthDst,
    Field::EthType,
    Field::IpProto,
    Field::IpTtl,
    Field::Ip4Src,
    Field::Ip4Dst,
    Field::ArpOp,
    Field::ArpSpa,
    Field::ArpSha,
    Field::ArpTpa,
    Field::ArpTha,
    Field::TcpSrc,
    Field::TcpDst,
    Field::TcpFlags,
    Field::UdpSrc,
    Field::UdpDst,
    Field::Icmp4Type,
    Field::Icmp4Code,
    Field::QuoteProto,
    Field::QuoteSrc,
    Field::QuoteSport,
    Field::QuoteDst,
    Field::QuoteDport,
    Field::CtState,
    Field::CtMarkBlocked,
    Field::Reg0,
    Field::Reg1,
    Field::Reg2,
    Field::Reg3,
    Field::Reg4,
    Field::Reg5,
    Field::Reg6,
];

// The table of the fields, in the order of their numbers: the width of each, its name, how its numbers are written,
// and its prerequisite.
static FACTS: [(u8, &str, Printed, Prerequisite); FIELD_COUNT] = [
    (32, "inport", PortName, Nothing),
    (32, "outport", PortName, Nothing),
    (1, "flags.loopback", Decimal, Nothing),
    (48, "eth.src", MacAddress, Nothing),
    (48, "eth.dst", MacAddress, Nothing),
    (16, "eth.type", Hexadecimal, Nothing),
    (8, "ip.proto", Decimal, Ip4),
    (8, "ip.ttl", Decimal, Ip4),
    (32, "ip4.src", Ip4Address, Ip4),
    (32, "ip4.dst", Ip4Address, Ip4),
    (16, "arp.op", Decimal, Arp),
    (32, "arp.spa", Ip4Address, Arp),
    (48, "arp.sha", MacAddress, Arp),
    (32, "arp.tpa", Ip4Address, Arp),
    (48, "arp.tha", MacAddress, Arp),
    (16, "tcp.src", Decimal, Tcp),
    (16, "tcp.dst", Decimal, Tcp),
    (12, "tcp.flags", Hexadecimal, Tcp),
    (16, "udp.src", Decimal, Udp),
    (16, "udp.dst", Decimal, Udp),
    (8, "icmp4.type", Decimal, Icmp4),
    (8, "icmp4.code", Decimal, Icmp4),
    (8, "quote.proto", Decimal, IcmpError),
    (32, "quote.src", Ip4Address, IcmpError),
    (16, "quote.sport", Decimal, IcmpError),
    (32, "quote.dst", Ip4Address, IcmpError),
    (16, "quote.dport", Decimal, IcmpError),
    (6, "ct_state", Decimal, Nothing),
    (1, "ct_mark.blocked", Decimal, Nothing),
    (32, "reg0", Decimal, Nothing),
    (32, "reg1", Decimal, Nothing),
    (32, "reg2", Decimal, Nothing),
    (32, "reg3", Decimal, Nothing),
    (32, "reg4", Decimal, Nothing),
    (32, "reg5", Decimal, Nothing),
    (48, "reg6", MacAddress, Nothing),
];

impl Field {
    /// All the fields, in the order of their numbers.
    #[tactic(auto, unfolding(crate::specs::Field::all_fields))]
    pub fn all() -> &'static [Field; FIELD_COUNT]
        ensures { result.now ≡ all_fields }
    {
        &ALL
    }

    // The field's row of the table.
    fn facts(self) -> Facts
        ensures width { result.width ≡ field_width self }
        ensures name { result.name.now ≡ field_name self }
        ensures printed { result.printed ≡ field_printed self }
        ensures prerequisite { result.prerequisite ≡ field_prerequisite self }
    {
        let row = FACTS[self as usize];
        let (width, name, printed, prerequisite) = row;
        Facts {
            width,
            name,
            printed,
            prerequisite,
        }
    }

    /// The field's number, from 1.
    pub fn number(self) -> u8
        ensures value { result ≡ field_number self }
        ensures first { 1 ≤ result }
        ensures last { result ≤ field_count }
    {
        self as u8 + 1
    }

    /// How many bits its numbers have.
    pub fn width(self) -> u8
        ensures value { result ≡ field_width self }
        ensures some { 1 ≤ result }
        ensures most { result ≤ 48 }
    {
        self.facts().width
    }

    /// Its name in a match.
    pub fn name(self) -> &'static str
        ensures { result.now ≡ field_name self }
    {
        self.facts().name
    }

    // Whether this is its name.
    fn is_named(self, text: &[u8]) -> bool
        ensures { result ≡ is_named self text.now }
    {
        self.name().as_bytes() == text
    }

    /// Whether it is a header field, which is on the wire. The others are working fields.
    pub fn is_header(self) -> bool
        ensures { result ≡ is_header self }
    {
        let number = self.number();
        4 <= number && number <= 27
    }

    /// How its numbers are written.
    pub fn printed(self) -> Printed
        ensures { result ≡ field_printed self }
    {
        self.facts().printed
    }

    /// What a packet must be for the field to be there.
    pub fn prerequisite(self) -> Prerequisite
        ensures { result ≡ field_prerequisite self }
    {
        self.facts().prerequisite
    }
}

/// The field with this name, if there is one.
pub fn field_of(text: &[u8]) -> Option<Field>
    ensures { result ≡ field_of text.now }
{
    Field::all()
        .iter()
        .find(|field| field.is_named(text))
        .copied()
}

/// Appends the field's name. After `OutOfMemory` the bytes are as before.
pub fn put_field(out: &mut Vec<u8>, field: Field) -> Result<(), OutOfMemory>
    ensures ok { OnOk result (out.new.items ≡ out.old.items ++ field_name field) }
    ensures err { OnErr result (out.new.items ≡ out.old.items) }
{
    out.extend_from_slice(field.name().as_bytes())?;
    Ok(())
}
