// What no clause says: that the rules of looking up are those of the packets that people write, and that calls can succeed.
ghost use Rattle.std.specs.Prelude.{◌≡◌, ◌<◌, ◌^◌, true};
ghost use Rattle.pkt_core.specs.Prerequisite.{is_ip4};

use ct_core::{Entry, Look, Side, Zone};
use ct_state::{State, Work};
use ct_table::{Conns, CtFault, balance};
use nv_base::{Field, Ip4, ObjId};
use pkt_core::{Packet, Tuple};
use std::alloc::Global;
use std::test::Fail;

const TCP: u8 = 6;

const RESET: u128 = 4;

const PORT: Zone = Zone::Port(ObjId(7));

// The tuple of a TCP packet between two hosts of 10.0.0.0/24.
fn tuple(from: u8, to: u8) -> Tuple {
    Tuple {
        proto: TCP,
        src: Ip4(0x0a00_0000 + u32::from(from)),
        sport: 1000,
        dst: Ip4(0x0a00_0000 + u32::from(to)),
        dport: 1000,
    }
}

// A TCP packet between them, with these flags.
fn tcp(from: u8, to: u8, flags: u128) -> Packet
    requires { flags < 2 ^ 12 }
    ensures { is_ip4 result ≡ true }
{
    let tuple = tuple(from, to);
    let mut packet = Packet::zero();
    packet.set(Field::IpProto, u128::from(TCP));
    packet.set(Field::Ip4Src, u128::from(tuple.src.0));
    packet.set(Field::Ip4Dst, u128::from(tuple.dst.0));
    packet.set(Field::TcpSrc, u128::from(tuple.sport));
    packet.set(Field::TcpDst, u128::from(tuple.dport));
    packet.set(Field::TcpFlags, flags);
    packet.set(Field::EthType, 0x800);
    packet
}

// An ICMP error about such a packet.
fn error_about(from: u8, to: u8) -> Packet
    ensures { is_ip4 result ≡ true }
{
    let quote = tuple(from, to);
    let mut packet = Packet::zero();
    packet.set(Field::IpProto, 1);
    packet.set(Field::Icmp4Type, 3);
    packet.set(Field::QuoteProto, u128::from(quote.proto));
    packet.set(Field::QuoteSrc, u128::from(quote.src.0));
    packet.set(Field::QuoteSport, u128::from(quote.sport));
    packet.set(Field::QuoteDst, u128::from(quote.dst.0));
    packet.set(Field::QuoteDport, u128::from(quote.dport));
    packet.set(Field::EthType, 0x800);
    packet
}

// A connection between them that is not translated.
fn entry(zone: Zone, from: u8, to: u8) -> Entry {
    let orig = tuple(from, to);
    Entry {
        zone,
        orig,
        reply: orig.swap(),
        blocked: false,
    }
}

fn found(place: u32, side: Side, related: bool, blocked: bool) -> Look {
    Look::Found {
        place,
        side,
        related,
        blocked,
    }
}

fn place_of(conns: &mut Conns, entry: Entry) -> Option<u32> {
    conns.commit(entry).ok()
}

fn block(conns: &mut Conns, place: u32) -> bool {
    let is_there = (place as usize) < conns.len();
    if is_there {
        conns.mark(place, true);
    }
    is_there
}

#[test]
fn a_packet_is_looked_up_by_the_rules(rt: HostRuntime) {
    let mut conns = Conns::new(rt.alloc());
    assert!(rt; conns.classify(PORT, &tcp(1, 2, 0)) == Look::New);
    assert!(rt; conns.classify(PORT, &tcp(1, 2, RESET)) == Look::Invalid);
    assert!(rt; conns.classify(PORT, &error_about(1, 2)) == Look::Invalid);
    assert!(rt; place_of(&mut conns, entry(PORT, 1, 2)) == Some(0));
    assert!(rt; conns.classify(PORT, &tcp(1, 2, RESET)) == found(0, Side::Orig, false, false));
    assert!(rt; conns.classify(PORT, &tcp(2, 1, 0)) == found(0, Side::Reply, false, false));
    assert!(rt; conns.classify(PORT, &error_about(2, 1)) == found(0, Side::Orig, true, false));
    assert!(rt; conns.classify(PORT, &error_about(1, 2)) == found(0, Side::Reply, true, false));
    assert!(rt; conns.classify(Zone::Dnat(ObjId(7)), &tcp(1, 2, 0)) == Look::New);
    assert!(rt; conns.classify(Zone::Port(ObjId(8)), &tcp(2, 1, 0)) == Look::New);
}

#[test]
fn an_original_direction_goes_before_any_reply(rt: HostRuntime) {
    let mut conns = Conns::new(rt.alloc());
    assert!(rt; place_of(&mut conns, entry(PORT, 1, 2)) == Some(0));
    assert!(rt; place_of(&mut conns, entry(Zone::Snat(ObjId(7)), 1, 2)) == Some(1));
    assert!(rt; place_of(&mut conns, entry(PORT, 2, 1)) == Some(2));
    assert!(rt; place_of(&mut conns, entry(PORT, 2, 1)) == Some(3));
    assert!(rt; block(&mut conns, 2));
    assert!(rt; conns.classify(PORT, &tcp(2, 1, 0)) == found(2, Side::Orig, false, true));
    conns.drop_zone(Zone::Snat(ObjId(7)));
    assert!(rt; conns.len() == 3);
    assert!(rt; conns.classify(PORT, &tcp(2, 1, 0)) == found(1, Side::Orig, false, true));
    assert!(rt; conns.classify(Zone::Snat(ObjId(7)), &tcp(1, 2, 0)) == Look::New);
    assert!(rt; conns.entry(2) == Some(entry(PORT, 2, 1)));
    conns.flush();
    assert!(rt; conns.is_empty());
    assert!(rt; conns.classify(PORT, &tcp(2, 1, 0)) == Look::New);
}

#[test]
fn bits_of_the_state_are_told(rt: HostRuntime) {
    assert!(rt; Look::Invalid.flags() == 48);
    assert!(rt; Look::New.flags() == 33);
    assert!(rt; found(0, Side::Orig, false, true).flags() == 34);
    assert!(rt; found(0, Side::Reply, false, true).flags() == 42);
    assert!(rt; found(0, Side::Orig, true, true).flags() == 36);
    assert!(rt; found(0, Side::Reply, true, true).flags() == 44);
}

#[test]
fn a_backend_is_the_sum_by_their_number(rt: HostRuntime) {
    // 10.0.0.1 and 10.0.0.2 are 335,544,323 together.
    assert!(rt; balance(tuple(1, 2), 2) == 1);
    assert!(rt; balance(tuple(1, 2), 10) == 9);
}

// Records so many connections, each of its own; how many were recorded.
fn fill(conns: &mut Conns, count: u32) -> u32 {
    let mut recorded = 0;
    for number in 0..count {
        let mut one = entry(PORT, 1, 2);
        one.orig.src = Ip4(number);
        one.reply.dst = Ip4(number);
        if conns.commit(one).is_ok() {
            recorded = number;
        }
    }
    recorded
}

#[test]
fn no_more_are_recorded_than_there_may_be(rt: HostRuntime) {
    let mut conns = Conns::new(rt.alloc());
    assert!(rt; fill(&mut conns, 65_536) == 65_535);
    assert!(rt; conns.commit(entry(PORT, 1, 2)) == Err(CtFault::Full));
    assert!(rt; conns.len() == 65_536);
    assert!(rt; conns.classify(PORT, &tcp(1, 2, 0)) == Look::New);
    conns.drop_zone(Zone::Port(ObjId(8)));
    conns.drop_zone(PORT);
    assert!(rt; place_of(&mut conns, entry(PORT, 1, 2)) == Some(0));
}

// Leaves the first connections, so many, if there are as many.
fn cut(conns: &mut Conns, len: usize) -> bool {
    let are_there = len <= conns.len();
    if are_there {
        conns.cut_back(len);
    }
    are_there
}

#[test]
fn what_is_cut_off_is_not_found(rt: HostRuntime) {
    let snat = Zone::Snat(ObjId(7));
    let mut conns = Conns::new(rt.alloc());
    assert!(rt; place_of(&mut conns, entry(PORT, 1, 2)) == Some(0));
    assert!(rt; place_of(&mut conns, entry(PORT, 2, 1)) == Some(1));
    assert!(rt; place_of(&mut conns, entry(PORT, 1, 2)) == Some(2));
    assert!(rt; place_of(&mut conns, entry(PORT, 1, 3)) == Some(3));
    assert!(rt; place_of(&mut conns, entry(PORT, 1, 3)) == Some(4));
    assert!(rt; place_of(&mut conns, entry(snat, 1, 2)) == Some(5));
    assert!(rt; cut(&mut conns, 2));
    assert!(rt; conns.len() == 2);
    assert!(rt; conns.classify(PORT, &tcp(1, 2, 0)) == found(0, Side::Orig, false, false));
    assert!(rt; conns.classify(PORT, &tcp(2, 1, 0)) == found(1, Side::Orig, false, false));
    assert!(rt; conns.classify(PORT, &tcp(1, 3, 0)) == Look::New);
    assert!(rt; conns.classify(snat, &tcp(1, 2, 0)) == Look::New);
    assert!(rt; cut(&mut conns, 1));
    assert!(rt; conns.classify(PORT, &tcp(2, 1, 0)) == found(0, Side::Reply, false, false));
    assert!(rt; place_of(&mut conns, entry(PORT, 1, 3)) == Some(1));
    assert!(rt; conns.classify(PORT, &tcp(3, 1, 0)) == found(1, Side::Reply, false, false));
    conns.drop_zone(snat);
    assert!(rt; conns.len() == 2);
    assert!(rt; cut(&mut conns, 0));
    assert!(rt; conns.is_empty());
    assert!(rt; conns.classify(PORT, &tcp(1, 2, 0)) == Look::New);
}

// Records a connection, blocks it and what is not there, and keeps this or comes back.
fn walk(alloc: Global, state: &mut State, keeps: bool) -> bool {
    let Ok(mut work) = Work::begin(alloc, state) else {
        return false;
    };
    let recorded = work.commit(entry(PORT, 1, 2)).is_ok();
    let marked = work.mark(0, true).is_ok() && work.mark(9, true).is_ok();
    if keeps {
        work.finish(state);
    } else {
        work.abandon(state);
    }
    recorded && marked
}

#[test]
fn what_a_walk_changes_is_kept_or_taken_back(rt: HostRuntime) {
    let mut state = State::new(rt.alloc());
    assert!(rt; walk(rt.alloc(), &mut state, false));
    assert!(rt; state.conns().is_empty());
    assert!(rt; walk(rt.alloc(), &mut state, true));
    assert!(rt; state.conns().classify(PORT, &tcp(1, 2, 0)) == found(0, Side::Orig, false, true));
    assert!(rt; walk(rt.alloc(), &mut state, false));
    assert!(rt; state.conns().len() == 1);
    assert!(rt; state.nbrs().is_empty());
}

// How many connections a copy of the state has.
fn copied(state: &State) -> Option<usize> {
    match state.copy() {
        Ok(copied) => Some(copied.conns().len()),
        Err(_) => None,
    }
}

// Marks a connection that was there to and fro, and so one that it records, which is of the same tuple, and comes back.
fn walk_back(alloc: Global, state: &mut State) -> bool {
    let Ok(mut work) = Work::begin(alloc, state) else {
        return false;
    };
    let before = work.mark(0, false).is_ok() && work.mark(0, true).is_ok();
    let recorded = work.commit(entry(PORT, 1, 2)).is_ok() && work.commit(entry(PORT, 1, 3)).is_ok();
    let after = work.mark(1, true).is_ok() && work.mark(0, false).is_ok();
    work.abandon(state);
    before && recorded && after
}

#[test]
fn marks_and_connections_come_back(rt: HostRuntime) {
    let mut state = State::new(rt.alloc());
    assert!(rt; walk(rt.alloc(), &mut state, true));
    assert!(rt; walk_back(rt.alloc(), &mut state));
    assert!(rt; state.conns().len() == 1);
    assert!(rt; state.conns().classify(PORT, &tcp(1, 2, 0)) == found(0, Side::Orig, false, true));
    assert!(rt; state.conns().classify(PORT, &tcp(1, 3, 0)) == Look::New);
    assert!(rt; walk_back(rt.alloc(), &mut state));
    assert!(rt; copied(&state) == Some(1));
}
