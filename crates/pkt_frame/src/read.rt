//! A frame as a packet.
ghost use Rattle.std.specs.Prelude.{◌≡◌, ◌≤◌, ◌&&◌, IsTrue, length, Some};
ghost use Rattle.pkt_core.specs.Packet.{with_values, zero_packet};
ghost use Rattle.pkt_frame.specs.Read.{ethernet_fields, arp_fields, ip4_fields, tcp_fields, udp_fields, icmp_fields, quote_fields, quoted_port_fields, is_arp_of_ip4, header_length, has_ip4_header, is_unfragmented, has_ports, is_error_type, with_header, with_quoted_ports, with_quote, with_icmp, with_transport, with_ip4, with_payload, frame};
ghost use Rattle.pkt_frame.specs.Bytes.{has};

use crate::bytes::{after, number_at};
use nv_base::Field;
use pkt_core::Packet;

/// The bytes of each header that is read.
const ETHERNET: usize = 14;

const ARP: usize = 28;

const IP4: usize = 20;

const TCP: usize = 20;

const UDP: usize = 8;

const ICMP: usize = 8;

const PORTS: usize = 4;

/// The packet that a frame is (IEEE 802.3; RFC 791, 9293, 768, 792, 826). `None` exactly where the bytes lack what their
/// headers need: 14 bytes of Ethernet; of type 0x800 a whole header of IPv4 with its options, of a packet that is no fragment, then 20
/// bytes of TCP, 8 of UDP or ICMP, and in an ICMP error another header of IPv4, of a fragment or not, with 4 bytes more for
/// TCP and UDP; of type 0x806 28 bytes of ARP for Ethernet and IPv4. Sums and total lengths are not looked at, nor
/// is what follows (not from OVN). Fields that are not in the frame are zero.
pub fn read_frame(bytes: &[u8]) -> Option<Packet>
    ensures { result ≡ frame bytes.now }
{
    if bytes.len() >= ETHERNET {
        with_payload(
            number_at(bytes, 12, 2),
            after(bytes, ETHERNET),
            ethernet(bytes),
        )
    } else {
        None
    }
}

// The packet that an Ethernet header alone is.
fn ethernet(bytes: &[u8]) -> Packet
    requires { 14 ≤ length bytes.now }
    ensures { result ≡ with_values zero_packet (ethernet_fields bytes.now) }
{
    let mut packet = Packet::zero();
    packet.set(Field::EthDst, number_at(bytes, 0, 6));
    packet.set(Field::EthSrc, number_at(bytes, 6, 6));
    packet.set(Field::EthType, number_at(bytes, 12, 2));
    packet
}

// The packet with what an Ethernet type carries.
fn with_payload(kind: u128, bytes: &[u8], packet: Packet) -> Option<Packet>
    ensures { result ≡ with_payload kind bytes.now packet }
{
    match kind {
        0x800 => with_ip4(bytes, packet),
        0x806 => with_arp(bytes, packet),
        _ => Some(packet),
    }
}

fn with_arp(bytes: &[u8], packet: Packet) -> Option<Packet>
    ensures { result ≡ with_header (has 28 bytes.now && is_arp_of_ip4 bytes.now) (arp_fields bytes.now) packet }
{
    if bytes.len() >= ARP && is_arp_of_ip4(bytes) {
        let mut told = packet;
        set_arp(&mut told, bytes);
        Some(told)
    } else {
        None
    }
}

fn is_arp_of_ip4(bytes: &[u8]) -> bool
    requires { 28 ≤ length bytes.now }
    ensures { result ≡ is_arp_of_ip4 bytes.now }
{
    number_at(bytes, 0, 2) == 1
        && number_at(bytes, 2, 2) == 0x800
        && number_at(bytes, 4, 1) == 6
        && number_at(bytes, 5, 1) == 4
}

fn set_arp(packet: &mut Packet, bytes: &[u8])
    requires { 28 ≤ length bytes.now }
    ensures { packet.new ≡ with_values packet.old (arp_fields bytes.now) }
{
    packet.set(Field::ArpOp, number_at(bytes, 6, 2));
    packet.set(Field::ArpSha, number_at(bytes, 8, 6));
    packet.set(Field::ArpSpa, number_at(bytes, 14, 4));
    packet.set(Field::ArpTha, number_at(bytes, 18, 6));
    packet.set(Field::ArpTpa, number_at(bytes, 24, 4));
}

// How many bytes an IPv4 header says that it has.
fn header_length(bytes: &[u8]) -> usize
    requires { 1 ≤ length bytes.now }
    ensures { result ≡ header_length bytes.now }
{
    (number_at(bytes, 0, 1) % 16 * 4) as usize
}

// Whether a whole IPv4 header is there.
fn has_ip4_header(bytes: &[u8]) -> bool
    ensures value { result ≡ has_ip4_header bytes.now }
    ensures there { IsTrue result → 20 ≤ length bytes.now }
    ensures whole { IsTrue result → header_length bytes.now ≤ length bytes.now }
{
    bytes.len() >= IP4
        && number_at(bytes, 0, 1) / 16 == 4
        && header_length(bytes) >= IP4
        && bytes.len() >= header_length(bytes)
}

// Whether the IPv4 packet is no fragment.
fn is_unfragmented(bytes: &[u8]) -> bool
    requires { 20 ≤ length bytes.now }
    ensures { result ≡ is_unfragmented bytes.now }
{
    number_at(bytes, 6, 2) % 0x4000 == 0
}

fn with_ip4(bytes: &[u8], packet: Packet) -> Option<Packet>
    ensures { result ≡ with_ip4 bytes.now packet }
{
    if has_ip4_header(bytes) && is_unfragmented(bytes) {
        let mut told = packet;
        set_ip4(&mut told, bytes);
        with_transport(
            number_at(bytes, 9, 1),
            after(bytes, header_length(bytes)),
            told,
        )
    } else {
        None
    }
}

fn set_ip4(packet: &mut Packet, bytes: &[u8])
    requires { 20 ≤ length bytes.now }
    ensures { packet.new ≡ with_values packet.old (ip4_fields bytes.now) }
{
    packet.set(Field::IpTtl, number_at(bytes, 8, 1));
    packet.set(Field::IpProto, number_at(bytes, 9, 1));
    packet.set(Field::Ip4Src, number_at(bytes, 12, 4));
    packet.set(Field::Ip4Dst, number_at(bytes, 16, 4));
}

// The packet with the fields of the protocol over IPv4.
fn with_transport(protocol: u128, bytes: &[u8], packet: Packet) -> Option<Packet>
    ensures { result ≡ with_transport protocol bytes.now packet }
{
    match protocol {
        1 => with_icmp(bytes, packet),
        6 => with_tcp(bytes, packet),
        17 => with_udp(bytes, packet),
        _ => Some(packet),
    }
}

fn with_tcp(bytes: &[u8], packet: Packet) -> Option<Packet>
    ensures { result ≡ with_header (has 20 bytes.now) (tcp_fields bytes.now) packet }
{
    if bytes.len() < TCP {
        return None;
    }
    let mut told = packet;
    told.set(Field::TcpSrc, number_at(bytes, 0, 2));
    told.set(Field::TcpDst, number_at(bytes, 2, 2));
    told.set(Field::TcpFlags, number_at(bytes, 12, 2) % 0x1000);
    Some(told)
}

fn with_udp(bytes: &[u8], packet: Packet) -> Option<Packet>
    ensures { result ≡ with_header (has 8 bytes.now) (udp_fields bytes.now) packet }
{
    if bytes.len() < UDP {
        return None;
    }
    let mut told = packet;
    told.set(Field::UdpSrc, number_at(bytes, 0, 2));
    told.set(Field::UdpDst, number_at(bytes, 2, 2));
    Some(told)
}

fn with_icmp(bytes: &[u8], packet: Packet) -> Option<Packet>
    ensures { result ≡ with_icmp bytes.now packet }
{
    if bytes.len() < ICMP {
        return None;
    }
    let mut told = packet;
    set_icmp(&mut told, bytes);
    if is_error_type(number_at(bytes, 0, 1)) {
        with_quote(after(bytes, ICMP), told)
    } else {
        Some(told)
    }
}

// Whether an ICMP packet of this type is an error: destination unreachable, time exceeded.
fn is_error_type(kind: u128) -> bool
    ensures { result ≡ is_error_type kind }
{
    kind == 3 || kind == 11
}

fn set_icmp(packet: &mut Packet, bytes: &[u8])
    requires { 8 ≤ length bytes.now }
    ensures { packet.new ≡ with_values packet.old (icmp_fields bytes.now) }
{
    packet.set(Field::Icmp4Type, number_at(bytes, 0, 1));
    packet.set(Field::Icmp4Code, number_at(bytes, 1, 1));
}

// The packet with its quote, which may be a fragment.
fn with_quote(bytes: &[u8], packet: Packet) -> Option<Packet>
    ensures { result ≡ with_quote bytes.now packet }
{
    if !has_ip4_header(bytes) {
        return None;
    }
    let mut told = packet;
    set_quote(&mut told, bytes);
    with_quoted_ports(
        number_at(bytes, 9, 1),
        after(bytes, header_length(bytes)),
        told,
    )
}

fn set_quote(packet: &mut Packet, bytes: &[u8])
    requires { 20 ≤ length bytes.now }
    ensures { packet.new ≡ with_values packet.old (quote_fields bytes.now) }
{
    packet.set(Field::QuoteProto, number_at(bytes, 9, 1));
    packet.set(Field::QuoteSrc, number_at(bytes, 12, 4));
    packet.set(Field::QuoteDst, number_at(bytes, 16, 4));
}

// The packet with the ports of the quoted one, where its protocol has them.
fn with_quoted_ports(protocol: u128, bytes: &[u8], packet: Packet) -> Option<Packet>
    ensures { result ≡ with_quoted_ports protocol bytes.now packet }
{
    if !has_ports(protocol) {
        return Some(packet);
    }
    if bytes.len() < PORTS {
        return None;
    }
    let mut told = packet;
    told.set(Field::QuoteSport, number_at(bytes, 0, 2));
    told.set(Field::QuoteDport, number_at(bytes, 2, 2));
    Some(told)
}

/// Whether a protocol over IPv4 has ports: TCP and UDP.
pub(crate) fn has_ports(protocol: u128) -> bool
    ensures { result ≡ has_ports protocol }
{
    protocol == 6 || protocol == 17
}
