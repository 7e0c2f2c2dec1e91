//! A packet as a frame.
ghost use Rattle.std.specs.Prelude.{◌≡◌, ◌≤◌, ◌++◌, length, OnOk, OnErr};
ghost use Rattle.nv_base.specs.Growth.{GrowsAtEnd};
ghost use Rattle.pkt_frame.specs.Written.{quote_bytes, transport_bytes, ip4_bytes, payload_bytes, frame_bytes};

use crate::headers::{
    arp_bytes, ethernet_bytes, icmp_bytes, ip4_header, quoted_bytes, tcp_bytes, udp_bytes,
};
use crate::sum::IP4_HEADER;
use nv_base::{Field, OutOfMemory, Prerequisite};
use pkt_core::Packet;

/// Appends the frame that the packet is (IEEE 802.3; RFC 791, 9293, 768, 792, 826): the headers of its fields, without
/// options and payload, and with no sum but that of IPv4 (not from OVN). After `OutOfMemory` the bytes are as before.
pub fn put_frame(out: &mut Vec<u8>, packet: &Packet) -> Result<(), OutOfMemory>
    ensures ok { OnOk result (out.new.items ≡ out.old.items ++ frame_bytes packet.now) }
    ensures err { OnErr result (out.new.items ≡ out.old.items) }
{
    let before = out.len();
    let put = put_headers(out, packet);
    if put.is_err() {
        out.truncate(before);
    }
    put
}

// Appends them. After `OutOfMemory` the bytes before are first, and a part of the frame may follow; so below.
fn put_headers(out: &mut Vec<u8>, packet: &Packet) -> Result<(), OutOfMemory>
    ensures ok { OnOk result (out.new.items ≡ out.old.items ++ frame_bytes packet.now) }
    ensures err { OnErr result (GrowsAtEnd out.old.items out.new.items) }
{
    out.extend_from_slice(&ethernet_bytes(packet))?;
    put_payload(out, packet)?;
    Ok(())
}

// Appends what follows the Ethernet header.
fn put_payload(out: &mut Vec<u8>, packet: &Packet) -> Result<(), OutOfMemory>
    ensures ok { OnOk result (out.new.items ≡ out.old.items ++ payload_bytes packet.now) }
    ensures err { OnErr result (GrowsAtEnd out.old.items out.new.items) }
{
    if packet.meets(Prerequisite::Ip4) {
        put_ip4(out, packet)?;
    } else if packet.meets(Prerequisite::Arp) {
        out.extend_from_slice(&arp_bytes(packet))?;
    }
    Ok(())
}

fn put_ip4(out: &mut Vec<u8>, packet: &Packet) -> Result<(), OutOfMemory>
    ensures ok { OnOk result (out.new.items ≡ out.old.items ++ ip4_bytes packet.now) }
    ensures err { OnErr result (GrowsAtEnd out.old.items out.new.items) }
{
    let header = ip4_header(
        (IP4_HEADER + transport_length(packet)) as u16,
        packet.get(Field::IpTtl) as u8,
        packet.get(Field::IpProto) as u8,
        packet.get(Field::Ip4Src) as u32,
        packet.get(Field::Ip4Dst) as u32,
    );
    out.extend_from_slice(&header)?;
    put_transport(out, packet)?;
    Ok(())
}

// How many bytes follow the IPv4 header.
#[tactic(auto, unfolding(crate::specs::Written::tcp_bytes, crate::specs::Written::udp_bytes, crate::specs::Written::icmp_bytes, crate::specs::Written::bare_header, crate::specs::Written::quoted_bytes))]
fn transport_length(packet: &Packet) -> usize
    ensures value { result ≡ length (transport_bytes packet.now) }
    ensures most { result ≤ 36 }
{
    if packet.meets(Prerequisite::Tcp) {
        20
    } else if packet.meets(Prerequisite::Udp) {
        8
    } else if packet.meets(Prerequisite::IcmpError) {
        36
    } else if packet.meets(Prerequisite::Icmp4) {
        8
    } else {
        0
    }
}

// Appends what follows the IPv4 header.
fn put_transport(out: &mut Vec<u8>, packet: &Packet) -> Result<(), OutOfMemory>
    ensures ok { OnOk result (out.new.items ≡ out.old.items ++ transport_bytes packet.now) }
    ensures err { OnErr result (GrowsAtEnd out.old.items out.new.items) }
{
    if packet.meets(Prerequisite::Tcp) {
        out.extend_from_slice(&tcp_bytes(packet))?;
    } else if packet.meets(Prerequisite::Udp) {
        out.extend_from_slice(&udp_bytes(packet))?;
    } else if packet.meets(Prerequisite::IcmpError) {
        out.extend_from_slice(&icmp_bytes(packet))?;
        put_quote(out, packet)?;
    } else if packet.meets(Prerequisite::Icmp4) {
        out.extend_from_slice(&icmp_bytes(packet))?;
    }
    Ok(())
}

// Appends the quote of an ICMP error.
fn put_quote(out: &mut Vec<u8>, packet: &Packet) -> Result<(), OutOfMemory>
    ensures ok { OnOk result (out.new.items ≡ out.old.items ++ quote_bytes packet.now) }
    ensures err { OnErr result (GrowsAtEnd out.old.items out.new.items) }
{
    let header = ip4_header(
        28,
        0,
        packet.get(Field::QuoteProto) as u8,
        packet.get(Field::QuoteSrc) as u32,
        packet.get(Field::QuoteDst) as u32,
    );
    out.extend_from_slice(&header)?;
    out.extend_from_slice(&quoted_bytes(packet))?;
    Ok(())
}
