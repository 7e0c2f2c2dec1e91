//! The headers that packets are written with.
ghost use Rattle.std.specs.Prelude.{◌≡◌};
ghost use Rattle.pkt_frame.specs.Written.{ethernet_bytes, arp_bytes, bare_header, ip4_header, tcp_bytes, udp_bytes, icmp_bytes, quoted_bytes};

use crate::read::has_ports;
use crate::sum::{IP4_HEADER, checksum};
use byteorder::{BigEndian, ByteOrder};
use nv_base::Field;
use pkt_core::Packet;

#[tactic(auto, unfolding(crate::specs::Written::ethernet_bytes))]
pub(crate) fn ethernet_bytes(packet: &Packet) -> [u8; 14]
    ensures { result ≡ ethernet_bytes packet.now }
{
    let mut header = [0; 14];
    BigEndian::write_u48(&mut header, packet.get(Field::EthDst) as u64);
    BigEndian::write_u48(&mut header[6..], packet.get(Field::EthSrc) as u64);
    BigEndian::write_u16(&mut header[12..], packet.get(Field::EthType) as u16);
    header
}

#[tactic(auto, unfolding(crate::specs::Written::arp_bytes))]
pub(crate) fn arp_bytes(packet: &Packet) -> [u8; 28]
    ensures { result ≡ arp_bytes packet.now }
{
    let mut arp = [0; 28];
    BigEndian::write_u16(&mut arp, 1);
    BigEndian::write_u16(&mut arp[2..], 0x800);
    arp[4] = 6;
    arp[5] = 4;
    BigEndian::write_u16(&mut arp[6..], packet.get(Field::ArpOp) as u16);
    BigEndian::write_u48(&mut arp[8..], packet.get(Field::ArpSha) as u64);
    BigEndian::write_u32(&mut arp[14..], packet.get(Field::ArpSpa) as u32);
    BigEndian::write_u48(&mut arp[18..], packet.get(Field::ArpTha) as u64);
    BigEndian::write_u32(&mut arp[24..], packet.get(Field::ArpTpa) as u32);
    arp
}

/// An IPv4 header without options, with its sum.
pub(crate) fn ip4_header(
    total: u16,
    ttl: u8,
    protocol: u8,
    source: u32,
    destination: u32,
) -> [u8; IP4_HEADER]
    ensures { result ≡ ip4_header total ttl protocol source destination }
{
    let mut header = bare_header(total, ttl, protocol, source, destination);
    let sum = checksum(&header);
    BigEndian::write_u16(&mut header[10..], sum);
    header
}

// The header with zero for its sum.
#[tactic(auto, unfolding(crate::specs::Written::bare_header))]
fn bare_header(total: u16, ttl: u8, protocol: u8, source: u32, destination: u32) -> [u8; IP4_HEADER]
    ensures { result ≡ bare_header total ttl protocol source destination }
{
    let mut header = [0; IP4_HEADER];
    header[0] = 0x45;
    BigEndian::write_u16(&mut header[2..], total);
    header[8] = ttl;
    header[9] = protocol;
    BigEndian::write_u32(&mut header[12..], source);
    BigEndian::write_u32(&mut header[16..], destination);
    header
}

#[tactic(auto, unfolding(crate::specs::Written::tcp_bytes))]
pub(crate) fn tcp_bytes(packet: &Packet) -> [u8; 20]
    ensures { result ≡ tcp_bytes packet.now }
{
    let mut tcp = [0; 20];
    BigEndian::write_u16(&mut tcp, packet.get(Field::TcpSrc) as u16);
    BigEndian::write_u16(&mut tcp[2..], packet.get(Field::TcpDst) as u16);
    BigEndian::write_u16(&mut tcp[12..], 0x5000 + packet.get(Field::TcpFlags) as u16);
    tcp
}

#[tactic(auto, unfolding(crate::specs::Written::udp_bytes))]
pub(crate) fn udp_bytes(packet: &Packet) -> [u8; 8]
    ensures { result ≡ udp_bytes packet.now }
{
    let mut udp = [0; 8];
    BigEndian::write_u16(&mut udp, packet.get(Field::UdpSrc) as u16);
    BigEndian::write_u16(&mut udp[2..], packet.get(Field::UdpDst) as u16);
    BigEndian::write_u16(&mut udp[4..], 8);
    udp
}

#[tactic(auto, unfolding(crate::specs::Written::icmp_bytes))]
pub(crate) fn icmp_bytes(packet: &Packet) -> [u8; 8]
    ensures { result ≡ icmp_bytes packet.now }
{
    let mut icmp = [0; 8];
    icmp[0] = packet.get(Field::Icmp4Type) as u8;
    icmp[1] = packet.get(Field::Icmp4Code) as u8;
    icmp
}

/// The first 8 bytes of a quoted packet: its ports, where its protocol has them.
#[tactic(auto, unfolding(crate::specs::Written::quoted_bytes))]
pub(crate) fn quoted_bytes(packet: &Packet) -> [u8; 8]
    ensures { result ≡ quoted_bytes packet.now }
{
    let mut quoted = [0; 8];
    if has_ports(packet.get(Field::QuoteProto)) {
        BigEndian::write_u16(&mut quoted, packet.get(Field::QuoteSport) as u16);
        BigEndian::write_u16(&mut quoted[2..], packet.get(Field::QuoteDport) as u16);
    }
    quoted
}
