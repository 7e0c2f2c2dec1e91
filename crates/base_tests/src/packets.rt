// What no clause says: that the definitions are those of the packets and texts that people write, and that a call can
// succeed.
use nv_base::{Field, Ip4, Kept, Mac, ObjId, Prerequisite};
use pkt_core::{IcmpReason, Packet, Tuple, put_packet};
use std::test::Fail;

fn has_text(packet: &Packet, wanted: &str, rt: &HostRuntime) -> bool {
    let mut out = Vec::new(rt.alloc());
    match put_packet(&mut out, packet) {
        Ok(()) => out.as_slice() == wanted.as_bytes(),
        Err(_) => false,
    }
}

// A UDP packet from 10.0.0.11, port 5, to 20.0.0.9, port 7.
fn udp_packet() -> Packet {
    let mut packet = Packet::zero();
    packet.set(Field::Inport, 2);
    packet.set(Field::Reg0, 9);
    packet.set(Field::EthSrc, 0x01);
    packet.set(Field::EthDst, 0x0101);
    packet.set(Field::EthType, 0x800);
    packet.set(Field::IpProto, 17);
    packet.set(Field::IpTtl, 1);
    packet.set(Field::Ip4Src, 0x0a00_000b);
    packet.set(Field::Ip4Dst, 0x1400_0009);
    packet.set(Field::UdpSrc, 5);
    packet.set(Field::UdpDst, 7);
    packet
}

// An ARP request of 10.0.0.11 for 10.0.0.12.
fn arp_packet() -> Packet {
    Packet::arp_request(Mac(0x01), Ip4(0x0a00_000b), Ip4(0x0a00_000c))
}

#[test]
fn a_field_keeps_its_number_and_the_others_stay(rt: HostRuntime) {
    for field in Field::all() {
        let mut packet = Packet::zero();
        packet.set(*field, 1);
        for other in Field::all() {
            let wanted = if other == field { 1 } else { 0 };
            assert!(rt; packet.get(*other) == wanted);
        }
    }
}

#[test]
fn each_form_is_written(rt: HostRuntime) {
    assert!(rt; has_text(&Packet::zero(), "1", &rt));
    assert!(rt;
        has_text(
            &udp_packet(),
            "eth.src == 00:00:00:00:00:01 && eth.dst == 00:00:00:00:01:01 && eth.type == 0x800 && \
             ip.proto == 17 && ip.ttl == 1 && ip4.src == 10.0.0.11 && ip4.dst == 20.0.0.9 && \
             udp.src == 5 && udp.dst == 7",
            &rt,
        )
    );
}

#[test]
fn a_text_goes_after_what_is_there(rt: HostRuntime) -> Result<(), Fail> {
    let mut packet = Packet::zero();
    packet.set(Field::TcpFlags, 0x14);
    let mut out = Vec::new(rt.alloc());
    out.extend_from_slice(b"# ")?;
    put_packet(&mut out, &packet)?;
    assert!(rt; out.as_slice() == b"# tcp.flags == 0x14".as_slice());
    Ok(())
}

#[test]
fn a_normal_packet_has_the_fields_of_its_kind(rt: HostRuntime) {
    let mut packet = udp_packet();
    packet.set(Field::TcpDst, 80);
    packet.set(Field::QuoteProto, 6);
    packet.set(Field::ArpOp, 1);
    assert!(rt; packet.meets(Prerequisite::Udp) && !packet.meets(Prerequisite::Tcp));
    let normal = packet.normal();
    assert!(rt; normal.get(Field::UdpDst) == 7 && normal.get(Field::Reg0) == 9);
    assert!(rt; normal.get(Field::TcpDst) == 0 && normal.get(Field::QuoteProto) == 0);
    assert!(rt; normal.get(Field::ArpOp) == 0);
    packet.set(Field::EthType, 0x806);
    let normal = packet.normal();
    assert!(rt; normal.get(Field::UdpDst) == 0 && normal.get(Field::IpProto) == 0);
    assert!(rt; normal.get(Field::ArpOp) == 1);
}

#[test]
fn a_tuple_has_addresses_and_ports(rt: HostRuntime) {
    let mut packet = udp_packet();
    let tuple = Tuple {
        proto: 17,
        src: Ip4(0x0a00_000b),
        sport: 5,
        dst: Ip4(0x1400_0009),
        dport: 7,
    };
    assert!(rt; packet.tuple() == tuple);
    assert!(rt; tuple.swap().src == tuple.dst && tuple.swap().sport == 7);
    assert!(rt; tuple.copy(rt.alloc()) == Ok(tuple));
    packet.set_tuple(tuple.swap());
    assert!(rt; packet.get(Field::UdpSrc) == 7 && packet.get(Field::Ip4Dst) == 0x0a00_000b);
    packet.set(Field::IpProto, 1);
    assert!(rt; packet.tuple().sport == 0 && packet.tuple().proto == 1);
}

#[test]
fn a_datapath_begins_without_registers(rt: HostRuntime) {
    let start = udp_packet().start(ObjId(7));
    assert!(rt; start.get(Field::Inport) == 7 && start.get(Field::Reg0) == 0);
    assert!(rt; start.get(Field::UdpDst) == 7);
}

#[test]
fn an_error_quotes_the_packet(rt: HostRuntime) {
    let packet = udp_packet();
    assert!(rt; packet.is_answerable());
    let error = packet.icmp_error(IcmpReason::TtlExceeded);
    assert!(rt;
        has_text(
            &error,
            "eth.src == 00:00:00:00:01:01 && eth.dst == 00:00:00:00:00:01 && eth.type == 0x800 && \
             ip.proto == 1 && ip.ttl == 255 && ip4.src == 20.0.0.9 && ip4.dst == 10.0.0.11 && \
             icmp4.type == 11 && quote.proto == 17 && quote.src == 10.0.0.11 && \
             quote.sport == 5 && quote.dst == 20.0.0.9 && quote.dport == 7",
            &rt,
        )
    );
    assert!(rt; error.get(Field::Inport) == 2);
    assert!(rt; !error.is_answerable());
}

#[test]
fn a_reset_is_not_answered(rt: HostRuntime) {
    let mut packet = udp_packet();
    packet.set(Field::IpProto, 6);
    packet.set(Field::TcpSrc, 1000);
    packet.set(Field::TcpDst, 80);
    let reset = packet.normal().reset();
    assert!(rt;
        has_text(
            &reset,
            "eth.src == 00:00:00:00:01:01 && eth.dst == 00:00:00:00:00:01 && eth.type == 0x800 && \
             ip.proto == 6 && ip.ttl == 255 && ip4.src == 20.0.0.9 && ip4.dst == 10.0.0.11 && \
             tcp.src == 80 && tcp.dst == 1000 && tcp.flags == 0x14",
            &rt,
        )
    );
    assert!(rt; packet.is_answerable() && !reset.is_answerable());
}

#[test]
fn an_arp_request_is_replied_to(rt: HostRuntime) {
    assert!(rt;
        has_text(
            &arp_packet(),
            "eth.src == 00:00:00:00:00:01 && eth.dst == ff:ff:ff:ff:ff:ff && eth.type == 0x806 && \
             arp.op == 1 && arp.spa == 10.0.0.11 && arp.sha == 00:00:00:00:00:01 && \
             arp.tpa == 10.0.0.12",
            &rt,
        )
    );
    assert!(rt;
        has_text(
            &arp_packet().arp_reply(Mac(0x02)),
            "eth.src == 00:00:00:00:00:02 && eth.dst == 00:00:00:00:00:01 && eth.type == 0x806 && \
             arp.op == 2 && arp.spa == 10.0.0.12 && arp.sha == 00:00:00:00:00:02 && \
             arp.tpa == 10.0.0.11 && arp.tha == 00:00:00:00:00:01",
            &rt,
        )
    );
    assert!(rt; !arp_packet().is_answerable());
}

#[test]
fn packets_are_compared_by_their_numbers(rt: HostRuntime) {
    let packet = udp_packet();
    assert!(rt; packet.copy(rt.alloc()) == Ok(packet));
    let mut other = packet;
    other.set(Field::UdpDst, 8);
    assert!(rt; packet != other && packet < other);
    other.set(Field::Inport, 1);
    assert!(rt; other < packet);
}
