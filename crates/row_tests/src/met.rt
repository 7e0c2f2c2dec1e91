use crate::fixture::packet;
use crate::plain::{Does, Empty, Plain, Takes, pair, put_new, rows_of};
use crate::taken::is_taken;
use nv_base::{Field, ObjId};
use pkt_core::Packet;
use sb_model::{Row, Stage};
use sb_rows::Rows;

// The priority and the hint of a row.
fn rank(row: Option<&Row>) -> Option<(u16, u32)> {
    match row {
        Some(row) => Some((row.priority, row.hint.0)),
        None => None,
    }
}

// Whether the row that a packet meets has this priority and hint, also where it is looked for among those of its datapath.
pub(crate) fn is_met(
    rows: &Rows,
    dp: u32,
    stage: Stage,
    packet: &Packet,
    expected: Option<(u16, u32)>,
) -> bool {
    let dp = ObjId(dp);
    rank(rows.select(dp, stage, packet, &Empty)) == expected
        && rank(rows.datapath(dp).select(stage, packet, &Empty)) == expected
}

#[test]
fn a_packet_meets_the_first_row_of_its_table_that_takes_it(rt: HostRuntime) {
    let lookup = Stage::LsInL2Lkup;
    let security = Stage::LsInCheckPortSec;
    let table = [
        Plain(1, lookup, 0, 0, Takes::Each, Does::Next),
        Plain(1, lookup, 50, 9, Takes::To(0x0a), Does::OutBy("a")),
        Plain(1, lookup, 50, 8, Takes::To(0x0a), Does::OutBy("b")),
        Plain(
            1,
            lookup,
            70,
            0,
            Takes::ToMulticast,
            Does::OutBy("_MC_flood"),
        ),
        Plain(1, lookup, 80, 0, Takes::FromPort, Does::Drop),
        Plain(1, security, 100, 0, Takes::FromMulticast, Does::Drop),
        Plain(2, lookup, 99, 0, Takes::Each, Does::Drop),
    ];
    let rows = rows_of(&table, rt.alloc(), &rt);
    let to_all = packet(0, 0xffff_ffff_ffff);
    for (dp, stage, packet, expected) in [
        (1, lookup, packet(0, 0), Some((0, 0))),
        (1, lookup, packet(0, 0x0a00_0000_000a), Some((50, 8))),
        (1, lookup, to_all, Some((70, 0))),
        (2, lookup, to_all, Some((99, 0))),
        (1, security, to_all, None),
        (
            1,
            security,
            packet(0x0100_0000_0000, 0xffff_ffff_ffff),
            Some((100, 0)),
        ),
        (1, Stage::LsOutPreAcl, to_all, None),
        (3, lookup, to_all, None),
    ] {
        assert!(rt; is_met(&rows, dp, stage, &packet, expected));
    }
    drop(rows);
}

// So many pairs of MACs are asked for.
const PAIRS: u16 = 60;

// A row for a pair, with its number as the hint.
fn with_pair(at: u16) -> Plain {
    let hint = u32::from(at);
    Plain(
        1,
        Stage::LsInL2Lkup,
        50,
        hint,
        Takes::WithPair(at),
        Does::Next,
    )
}

// An ARP packet with a pair.
fn packet_with_pair(at: u16) -> Packet {
    let (to, sender) = pair(at);
    let mut packet = packet(1, to);
    packet.set(Field::EthType, 0x0806);
    packet.set(Field::ArpSha, u128::from(sender));
    packet
}

// Whether each packet with a pair meets its row, or none where that has one of the remainders that are gone.
fn are_met_but(rows: &Rows, gone: &[u16]) -> bool {
    (0..PAIRS).all(|at| {
        let expected = if gone.contains(&(at % 3)) {
            None
        } else {
            Some((50, u32::from(at)))
        };
        is_met(rows, 1, Stage::LsInL2Lkup, &packet_with_pair(at), expected)
    })
}

#[test]
fn rows_that_are_looked_for_in_one_place_are_met(rt: HostRuntime) {
    let mut rows = Rows::new(rt.alloc());
    for at in 0..PAIRS {
        put_new(&mut rows, with_pair(at), rt.alloc(), &rt);
    }
    assert!(rt; are_met_but(&rows, &[]));
    for remainder in 0..2 {
        for at in (0..PAIRS).filter(|at| at % 3 == remainder) {
            assert!(rt; is_taken(&mut rows, with_pair(at), rt.alloc(), &rt));
        }
    }
    assert!(rt; are_met_but(&rows, &[0, 1]));
    for at in (0..PAIRS).filter(|at| at % 3 == 1) {
        put_new(&mut rows, with_pair(at), rt.alloc(), &rt);
    }
    assert!(rt; are_met_but(&rows, &[0]));
    drop(rows);
}
