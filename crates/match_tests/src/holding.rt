// That the meaning of matches is the one that people expect of them, and that the calls succeed.
use crate::network::Few;
use expr_check::{Role, check};
use expr_core::{Expr, Typed};
use expr_eval::holds;
use expr_parse::parse_match;
use nv_base::Field;
use pkt_core::Packet;
use std::alloc::Global;
use std::test::Fail;

// The match that the text is. No text here is as long as a match may not be.
pub(crate) fn parsed(alloc: Global, text: &str) -> Result<Expr, Fail> {
    if text.len() > 100 {
        return Err(Fail::new("too long"));
    }
    Ok(parse_match(alloc, text.as_bytes())?)
}

fn typed_of(alloc: Global, expr: &Expr) -> Result<Typed, Fail> {
    Ok(check(alloc, expr, Role::Row)?)
}

// The match that the text is, as a row may have it.
pub(crate) fn typed(alloc: Global, text: &str) -> Result<Typed, Fail> {
    let expr = parsed(alloc, text)?;
    typed_of(alloc, &expr)
}

// A TCP packet from 10.0.0.1, port 81, to 224.0.0.5, port 80, that came in by port 5.
fn tcp() -> Packet {
    let mut packet = Packet::zero();
    packet.set(Field::Inport, 5);
    packet.set(Field::EthSrc, 2);
    packet.set(Field::EthDst, 0x0100_5e00_0005);
    packet.set(Field::EthType, 0x800);
    packet.set(Field::IpProto, 6);
    packet.set(Field::IpTtl, 64);
    packet.set(Field::Ip4Src, 0x0a00_0001);
    packet.set(Field::Ip4Dst, 0xe000_0005);
    packet.set(Field::TcpSrc, 81);
    packet.set(Field::TcpDst, 80);
    packet
}

fn udp() -> Packet {
    let mut packet = tcp();
    packet.set(Field::IpProto, 17);
    packet
}

fn arp() -> Packet {
    let mut packet = tcp();
    packet.set(Field::EthType, 0x806);
    packet
}

// Whether the match that the text is holds of the packet.
fn is_met(alloc: Global, text: &str, packet: &Packet) -> Result<bool, Fail> {
    Ok(holds(&typed(alloc, text)?, packet, &Few))
}

#[test]
fn matches_hold_of_a_tcp_packet(rt: HostRuntime) -> Result<(), Fail> {
    for text in [
        "1",
        "ip4",
        "ip",
        "tcp",
        "eth.mcast",
        "ip4.mcast",
        "!udp",
        "!(tcp.src == 80)",
        "tcp.src != 80",
        "tcp.src > 80 && tcp.src < 82",
        "tcp.src >= 81 && tcp.src <= 81",
        "ip4.src == 10.0.0.0/8",
        "ip4.src == {10.0.0.9, 10.0.0.1}",
        "ip4.src == $s1",
        "ip4.dst != $s1",
        "ip4.src != $none",
        "ip.ttl[6]",
        "ip.ttl[4..7] == 4",
        "eth.src == 00:00:00:00:00:02",
        "eth.src == 0x2/0xff",
        "inport == \"p1\"",
        "inport == @g1",
        "outport != \"p1\"",
        "inport != \"_MC_flood\"",
        "udp || (tcp && !0)",
    ] {
        assert!(rt; is_met(rt.alloc(), text, &tcp())?, "{text}");
    }
    Ok(())
}

#[test]
fn matches_do_not_hold_of_a_tcp_packet(rt: HostRuntime) -> Result<(), Fail> {
    for text in [
        "0",
        "!ip",
        "arp",
        "!arp && !ip4",
        "udp.src == 81",
        "udp.src != 81",
        "!(udp.src == 81)",
        "icmp",
        "eth.bcast",
        "ip4.src == 10.0.0.0/8 && ip4.dst == 10.0.0.0/8",
        "ip4.dst == $s1",
        "ip4.src == $none",
        "ip4.src != $s1",
        "ip.ttl[0]",
        "tcp.src == {80, 82}",
        "tcp.src != {80, 81}",
        "inport == \"p2\"",
        "inport != @g1",
        "inport == @none",
        "ct.new",
    ] {
        assert!(rt; !is_met(rt.alloc(), text, &tcp())?, "{text}");
    }
    Ok(())
}

#[test]
fn a_negated_comparison_needs_its_field(rt: HostRuntime) -> Result<(), Fail> {
    assert!(rt; is_met(rt.alloc(), "!(tcp.src == 80)", &tcp())?);
    assert!(rt; !is_met(rt.alloc(), "!(tcp.src == 80)", &udp())?);
    Ok(())
}

#[test]
fn a_negated_predicate_needs_its_field(rt: HostRuntime) -> Result<(), Fail> {
    assert!(rt; is_met(rt.alloc(), "!tcp", &udp())?);
    assert!(rt; !is_met(rt.alloc(), "!tcp", &arp())?);
    Ok(())
}
