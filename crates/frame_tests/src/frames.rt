// That the definitions are those of the frames on the wire: most of these frames, and all that are told to be written, were made by scapy 2.5.
use pkt_core::{Packet, put_packet};
use pkt_frame::{put_frame, read_frame};
use std::alloc::Global;
use std::test::Fail;

/// A frame, how many of its bytes a packet needs, and the packet.
type Told = (&'static str, usize, &'static str);

// The fields of each kind of header, with what stands between and after them.
static FRAMES: [Told; 12] = [
    // Another Ethernet type, and IPv6, of which nothing is looked at.
    (
        "00000000000200000000000188b5",
        14,
        "eth.src == 00:00:00:00:00:01 && eth.dst == 00:00:00:00:00:02 && eth.type == 0x88b5",
    ),
    (
        "00000000000200000000000186dd60000000000811400000000000000000000000000000000100000000000000000000000000000001003500350008ff72",
        14,
        "eth.src == 00:00:00:00:00:01 && eth.dst == 00:00:00:00:00:02 && eth.type == 0x86dd",
    ),
    // UDP with a payload, its sum, an identification, a type of service, and 'don't fragment'.
    (
        "00000000000200000000000108004510002112344000401114720a00000b0a00000c00050007000da7df68656c6c6f",
        42,
        "eth.src == 00:00:00:00:00:01 && eth.dst == 00:00:00:00:00:02 && eth.type == 0x800 && ip.proto == 17 && ip.ttl == 64 && ip4.src == 10.0.0.11 && ip4.dst == 10.0.0.12 && udp.src == 5 && udp.dst == 7",
    ),
    // UDP with the bit before 'don't fragment' too.
    (
        "00000000000200000000000108004500001c0000c0004011a6ba0a00000b0a00000c0005000700080000",
        42,
        "eth.src == 00:00:00:00:00:01 && eth.dst == 00:00:00:00:00:02 && eth.type == 0x800 && ip.proto == 17 && ip.ttl == 64 && ip4.src == 10.0.0.11 && ip4.dst == 10.0.0.12 && udp.src == 5 && udp.dst == 7",
    ),
    // TCP with an option of its own, which is not looked at.
    (
        "00000000000200000000000108004500002c00000000400666b60a00000b0a00000c9c400050000000000000000060022000c77f0000020405b4",
        54,
        "eth.src == 00:00:00:00:00:01 && eth.dst == 00:00:00:00:00:02 && eth.type == 0x800 && ip.proto == 6 && ip.ttl == 64 && ip4.src == 10.0.0.11 && ip4.dst == 10.0.0.12 && tcp.src == 40000 && tcp.dst == 80 && tcp.flags == 0x2",
    ),
    // TCP with all 12 flags.
    (
        "00000000000200000000000108004500002800000000400666ba0a00000b0a00000c9c40005000000000000000005fff2000cf3e0000",
        54,
        "eth.src == 00:00:00:00:00:01 && eth.dst == 00:00:00:00:00:02 && eth.type == 0x800 && ip.proto == 6 && ip.ttl == 64 && ip4.src == 10.0.0.11 && ip4.dst == 10.0.0.12 && tcp.src == 40000 && tcp.dst == 80 && tcp.flags == 0xfff",
    ),
    // TCP after 40 bytes of IPv4 options.
    (
        "00000000000200000000000108004f0000500000000040061b470a00000b0a00000c07270401020304010203040102030401020304010203040102030401020304010203040102030400000100020000000000000000501020007bbb0000",
        94,
        "eth.src == 00:00:00:00:00:01 && eth.dst == 00:00:00:00:00:02 && eth.type == 0x800 && ip.proto == 6 && ip.ttl == 64 && ip4.src == 10.0.0.11 && ip4.dst == 10.0.0.12 && tcp.src == 1 && tcp.dst == 2 && tcp.flags == 0x10",
    ),
    // ICMP that is no error.
    (
        "00000000000200000000000108004500001f00000000400166c80a00000b0a00000c0800339a00010002616263",
        42,
        "eth.src == 00:00:00:00:00:01 && eth.dst == 00:00:00:00:00:02 && eth.type == 0x800 && ip.proto == 1 && ip.ttl == 64 && ip4.src == 10.0.0.11 && ip4.dst == 10.0.0.12 && icmp4.type == 8",
    ),
    // An ICMP error that quotes UDP after 4 bytes of options: of its 8 bytes the first 4 are needed.
    (
        "00000000000200000000000108004500004200000000ff01a6b10a0000fe0a00000c0b0009360000000046000026000700000111a2a80a00000c0a00000b0101010104d20035000ea06671756f746564",
        70,
        "eth.src == 00:00:00:00:00:01 && eth.dst == 00:00:00:00:00:02 && eth.type == 0x800 && ip.proto == 1 && ip.ttl == 255 && ip4.src == 10.0.0.254 && ip4.dst == 10.0.0.12 && icmp4.type == 11 && quote.proto == 17 && quote.src == 10.0.0.12 && quote.sport == 1234 && quote.dst == 10.0.0.11 && quote.dport == 53",
    ),
    // One that quotes a later fragment of TCP, whose first bytes are read as ports.
    (
        "00000000000200000000000108004500004400000000ff01a6af0a0000fe0a00000c0304112d0000000045000028000720b9010684fa0a00000c0a00000b04d2003500000000000000005002200076c50000",
        66,
        "eth.src == 00:00:00:00:00:01 && eth.dst == 00:00:00:00:00:02 && eth.type == 0x800 && ip.proto == 1 && ip.ttl == 255 && ip4.src == 10.0.0.254 && ip4.dst == 10.0.0.12 && icmp4.type == 3 && icmp4.code == 4 && quote.proto == 6 && quote.src == 10.0.0.12 && quote.sport == 1234 && quote.dst == 10.0.0.11 && quote.dport == 53",
    ),
    // One that quotes a protocol without ports.
    (
        "00000000000200000000000108004500003000000000ff01a6c30a0000fe0a00000c0302fcfd000000004500001400070000012fa59e0a00000c0a00000b",
        62,
        "eth.src == 00:00:00:00:00:01 && eth.dst == 00:00:00:00:00:02 && eth.type == 0x800 && ip.proto == 1 && ip.ttl == 255 && ip4.src == 10.0.0.254 && ip4.dst == 10.0.0.12 && icmp4.type == 3 && icmp4.code == 2 && quote.proto == 47 && quote.src == 10.0.0.12 && quote.dst == 10.0.0.11",
    ),
    // An ARP request, with the padding of Ethernet.
    (
        "ffffffffffff000000000001080600010800060400010000000000010a00000b0000000000000a00000c000000000000000000000000000000000000",
        42,
        "eth.src == 00:00:00:00:00:01 && eth.dst == ff:ff:ff:ff:ff:ff && eth.type == 0x806 && arp.op == 1 && arp.spa == 10.0.0.11 && arp.sha == 00:00:00:00:00:01 && arp.tpa == 10.0.0.12",
    ),
];

// What is no frame, however long.
static OTHERS: [&str; 11] = [
    // The first fragment, a later one, and one whose offset is 8,191.
    "00000000000200000000000108004500001c00012000401146ba0a00000b0a00000c000500070008ebbb",
    "00000000000200000000000108004500001c00010001401166b90a00000b0a00000c000500070008ebbb",
    "00000000000200000000000108004500001c00011fff401146bb0a00000b0a00000c000500070008ebbb",
    // Version 6, and 4 words of header.
    "00000000000200000000000108006500001c00000000401166bb0a00000b0a00000c0005000700080000",
    "00000000000200000000000108004400001c00000000401166bb0a00000b0a00000c0005000700080000",
    // The quoted packet of version 6, and with 4 words of header.
    "00000000000200000000000108004500003000000000ff01a6c30a0000fe0a00000c0302fcfd000000006500001400070000012fa59e0a00000c0a00000b",
    "00000000000200000000000108004500003000000000ff01a6c30a0000fe0a00000c0302fcfd000000004400001400070000012fa59e0a00000c0a00000b",
    // ARP of other kinds and lengths of addresses.
    "ffffffffffff000000000001080600060800060400010000000000010a00000b0000000000000a00000c",
    "ffffffffffff000000000001080600010801060400010000000000010a00000b0000000000000a00000c",
    "ffffffffffff000000000001080600010800080400010000000000010a00000b0000000000000a00000c",
    "ffffffffffff000000000001080600010800061000010000000000010a00000b0000000000000a00000c",
];

// What is written of the packet that a frame is.
static WRITTEN: [(&str, &str); 8] = [
    (
        "00000000000200000000000188b5",
        "00000000000200000000000188b5",
    ),
    (
        "00000000000200000000000108004510002112344000401114720a00000b0a00000c00050007000da7df68656c6c6f",
        "00000000000200000000000108004500001c00000000401166bb0a00000b0a00000c0005000700080000",
    ),
    (
        "00000000000200000000000108004500002800000000400666ba0a00000b0a00000c9c40005000000000000000005fff2000cf3e0000",
        "00000000000200000000000108004500002800000000400666ba0a00000b0a00000c9c40005000000000000000005fff000000000000",
    ),
    (
        "00000000000200000000000108004500001f00000000400166c80a00000b0a00000c0800339a00010002616263",
        "00000000000200000000000108004500001c00000000400166cb0a00000b0a00000c0800000000000000",
    ),
    (
        "00000000000200000000000108004500004200000000ff01a6b10a0000fe0a00000c0b0009360000000046000026000700000111a2a80a00000c0a00000b0101010104d20035000ea06671756f746564",
        "00000000000200000000000108004500003800000000ff01a6bb0a0000fe0a00000c0b000000000000004500001c000000000011a6bb0a00000c0a00000b04d2003500000000",
    ),
    (
        "000000000002000000000001080045000014000000000159cf810a00000be0000005",
        "000000000002000000000001080045000014000000000159cf810a00000be0000005",
    ),
    (
        "ffffffffffff000000000001080600010800060400010000000000010a00000b0000000000000a00000c000000000000000000000000000000000000",
        "ffffffffffff000000000001080600010800060400010000000000010a00000b0000000000000a00000c",
    ),
    // A header whose words add up to 0x4fffc, which carries twice.
    (
        "00000000000200000000000108004500001c00000000ff110000ffffffffffffbbd20000000000080000",
        "00000000000200000000000108004500001c00000000ff11fffeffffffffffffbbd20000000000080000",
    ),
];

fn bytes_of(alloc: Global, text: &str) -> Result<Vec<u8>, Fail> {
    Ok(hex::decode(alloc, text)?)
}

fn has_text(alloc: Global, packet: &Packet, wanted: &str) -> Result<bool, Fail> {
    let mut out = Vec::new(alloc);
    put_packet(&mut out, packet)?;
    Ok(out.as_slice() == wanted.as_bytes())
}

// Whether the first bytes are a frame exactly where there are as many as it needs.
fn is_cut_below(bytes: &[u8], needed: usize) -> bool {
    for count in 0..=bytes.len() {
        if read_frame(&bytes[..count]).is_some() != (count >= needed) {
            return false;
        }
    }
    true
}

fn is_told(alloc: Global, told: &Told) -> Result<bool, Fail> {
    let bytes = bytes_of(alloc, told.0)?;
    match read_frame(&bytes) {
        Some(packet) => Ok(is_cut_below(&bytes, told.1) && has_text(alloc, &packet, told.2)?),
        None => Ok(false),
    }
}

fn is_written(alloc: Global, frame: &str, wanted: &str) -> Result<bool, Fail> {
    let bytes = bytes_of(alloc, frame)?;
    let wanted = bytes_of(alloc, wanted)?;
    let mut out = Vec::new(alloc);
    out.extend_from_slice(b"before")?;
    match read_frame(&bytes) {
        Some(packet) => {
            put_frame(&mut out, &packet)?;
            Ok(&out[..6] == b"before".as_slice() && &out[6..] == wanted.as_slice())
        }
        None => Ok(false),
    }
}

#[test]
fn each_kind_of_frame_is_read_and_none_that_is_cut(rt: HostRuntime) -> Result<(), Fail> {
    for told in &FRAMES {
        let is_so = is_told(rt.alloc(), told)?;
        assert!(rt; is_so);
    }
    Ok(())
}

#[test]
fn what_lacks_what_its_headers_need_is_no_frame(rt: HostRuntime) -> Result<(), Fail> {
    for text in &OTHERS {
        let bytes = bytes_of(rt.alloc(), text)?;
        assert!(rt; read_frame(&bytes).is_none());
    }
    Ok(())
}

#[test]
fn what_is_written_is_what_others_write(rt: HostRuntime) -> Result<(), Fail> {
    for (frame, wanted) in &WRITTEN {
        let is_so = is_written(rt.alloc(), frame, wanted)?;
        assert!(rt; is_so);
    }
    Ok(())
}
