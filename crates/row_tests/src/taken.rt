use crate::plain::{Does, Plain, Takes, put_new, row_of};
use nv_base::Kept;
use sb_model::Stage;
use sb_rows::Rows;
use std::alloc::Global;
use std::process::Abort;

// A row to the MAC of this last byte, and out by this port.
fn to_port(last: u8, port: &'static str) -> Plain {
    Plain(
        1,
        Stage::LsInL2Lkup,
        50,
        9,
        Takes::To(last),
        Does::OutBy(port),
    )
}

// Whether the row was there to be taken.
pub(crate) fn is_taken(rows: &mut Rows, plain: Plain, alloc: Global, rt: &impl Abort) -> bool {
    rows.take(&row_of(plain, alloc, rt))
}

// Whether the row is there.
pub(crate) fn is_there(rows: &Rows, plain: Plain, alloc: Global, rt: &impl Abort) -> bool {
    rows.contains(&row_of(plain, alloc, rt))
}

#[test]
fn a_row_that_is_taken_is_gone(rt: HostRuntime) {
    let mut rows = Rows::new(rt.alloc());
    assert!(rt; rows.is_empty());
    for last in [1, 2, 3] {
        put_new(&mut rows, to_port(last, "a"), rt.alloc(), &rt);
    }
    for (last, port, expected) in [(2, "b", false), (2, "a", true), (2, "a", false)] {
        assert!(rt;
            is_taken(&mut rows, to_port(last, port), rt.alloc(), &rt) == expected,
            "out by {port}"
        );
    }
    assert!(rt; rows.len() == 2);
    for last in [1, 3] {
        assert!(rt; is_there(&rows, to_port(last, "a"), rt.alloc(), &rt));
    }
    drop(rows);
}

// Whether the copy of a row is equal to another one.
fn is_copied_as(plain: Plain, other: Plain, alloc: Global, rt: &impl Abort) -> bool {
    let copied = row_of(plain, alloc, rt).copy(alloc).expect(rt, "memory");
    copied == row_of(other, alloc, rt)
}

#[test]
fn a_copied_row_is_equal(rt: HostRuntime) {
    for (last, port, expected) in [(7, "vm-1", true), (7, "vm-2", false), (8, "vm-1", false)] {
        let other = to_port(last, port);
        assert!(rt; is_copied_as(to_port(7, "vm-1"), other, rt.alloc(), &rt) == expected);
    }
}

// A row of one priority and hint, to a MAC.
fn to_mac(mac: u64) -> Plain {
    Plain(1, Stage::LsInL2Lkup, 50, 9, Takes::ToMac(mac), Does::Next)
}

// Whether the row at a place is that to a MAC.
fn is_at(rows: &Rows, at: usize, mac: u64, alloc: Global, rt: &impl Abort) -> bool {
    match rows.get(at) {
        Some(row) => *row == row_of(to_mac(mac), alloc, rt),
        None => false,
    }
}

#[test]
fn each_row_that_comes_right_after_the_first_one_has_a_place(rt: HostRuntime) {
    let mut rows = Rows::new(rt.alloc());
    put_new(&mut rows, to_mac(0), rt.alloc(), &rt);
    for bit in 0..48_u32 {
        put_new(&mut rows, to_mac((1 << 47) >> bit), rt.alloc(), &rt);
    }
    assert!(rt; rows.len() == 49);
    assert!(rt; is_at(&rows, 0, 0, rt.alloc(), &rt));
    for bit in 0..48 {
        assert!(rt; is_at(&rows, bit + 1, 1 << bit, rt.alloc(), &rt));
    }
    drop(rows);
}
