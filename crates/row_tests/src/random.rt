ghost use Rattle.std.specs.Prelude.{◌<◌, ◌^◌, All};
ghost use Rattle.sb_rows.specs.Row.{HasTypedMatch};

use crate::fixture::packet;
use crate::met::is_met;
use crate::plain::{Does, Plain, Takes, put_new, row_of};
use crate::taken::{is_taken, is_there};
use sb_model::Stage;
use sb_rows::{NewRows, RowList, Rows};
use std::alloc::Global;
use std::process::Abort;

// Numbers that look random, one after the other (the generator of Marsaglia's xorshift).
#[derive(Drop)]
struct Random {
    state: u64,
}

impl Random {
    // A number below this one, which is not 0.
    fn below(&mut self, bound: u64) -> u64
        requires { 0 < bound }
        ensures { result < bound }
    {
        self.state ^= self.state << 13;
        self.state ^= self.state >> 7;
        self.state ^= self.state << 17;
        self.state % bound
    }
}

// One of few rows, so that many agree in some things.
fn some_row(random: &mut Random) -> Plain {
    let stage = if random.below(4) == 0 {
        Stage::LsInCheckPortSec
    } else {
        Stage::LsInL2Lkup
    };
    let takes = match random.below(16) {
        0 => Takes::Each,
        1 => Takes::ToMulticast,
        2 => Takes::FromMulticast,
        3 => Takes::FromPort,
        4 => Takes::ToOneOf,
        5 => Takes::ToNoneOf,
        6 => Takes::ToHoles,
        _ => Takes::To(random.below(6) as u8),
    };
    let does = if random.below(2) == 0 {
        Does::Next
    } else {
        Does::Drop
    };
    let dp = 1 + random.below(2) as u32;
    let priority = random.below(4) as u16;
    Plain(dp, stage, priority, random.below(3) as u32, takes, does)
}

// Whether a MAC is one of the two of which `ToOneOf` and `ToNoneOf` speak.
fn is_one_of_two(to: u64) -> bool {
    to == 0x0a00_0000_0001 || to == 0x0a00_0000_0003
}

// Whether a row takes the packets from and to these MACs, which come in by no port.
fn is_taking(takes: Takes, from: u64, to: u64) -> bool {
    match takes {
        Takes::Each => true,
        Takes::ToMulticast => (to >> 40) & 1 == 1,
        Takes::FromMulticast => (from >> 40) & 1 == 1,
        Takes::To(last) => to == 0x0a00_0000_0000 + u64::from(last),
        Takes::ToMac(mac) => to == mac,
        Takes::FromPort | Takes::WithPair(_) => false,
        Takes::ToOneOf => is_one_of_two(to),
        Takes::ToNoneOf => !is_one_of_two(to),
        Takes::ToHoles => to & 0xff00_0000_0005 == 0x0a00_0000_0004,
    }
}

// Whether a row of this priority and hint is before the one that was found.
fn is_first(priority: u16, hint: u32, found: Option<(u16, u32)>) -> bool {
    match found {
        None => true,
        Some((first, other)) => priority > first || (priority == first && hint < other),
    }
}

// The priority and the hint of the row that a packet meets, by a look at each row.
fn scanned(table: &[Plain], dp: u32, stage: Stage, from: u64, to: u64) -> Option<(u16, u32)> {
    let mut found = None;
    for Plain(own, at, priority, hint, takes, _) in table {
        if *own == dp
            && *at == stage
            && is_taking(*takes, from, to)
            && is_first(*priority, *hint, found)
        {
            found = Some((*priority, *hint));
        }
    }
    found
}

// A MAC that some row may ask for.
fn some_mac(random: &mut Random) -> u64
    ensures { result < 2 ^ 48 }
{
    match random.below(8) {
        0 | 1 => 1 << 40,
        last => 0x0a00_0000_0000 + last,
    }
}

// Whether a packet meets in a table the row that a look at each row tells.
fn is_met_as_scanned(
    rows: &Rows,
    table: &[Plain],
    dp: u32,
    stage: Stage,
    from: u64,
    to: u64,
) -> bool
    requires from { from < 2 ^ 48 }
    requires to { to < 2 ^ 48 }
{
    let expected = scanned(table, dp, stage, from, to);
    is_met(rows, dp, stage, &packet(from, to), expected)
}

// Whether some packet does so in both tables of a datapath.
fn is_some_met_as_scanned(rows: &Rows, table: &[Plain], random: &mut Random) -> bool {
    let from = some_mac(random);
    let to = some_mac(random);
    let dp = 1 + random.below(2) as u32;
    is_met_as_scanned(rows, table, dp, Stage::LsInL2Lkup, from, to)
        && is_met_as_scanned(rows, table, dp, Stage::LsInCheckPortSec, from, to)
}

#[test]
fn rows_that_come_and_go_are_met_as_a_scan_meets_them(rt: HostRuntime) {
    let mut random = Random { state: 20_261_201 };
    let mut rows = Rows::new(rt.alloc());
    let mut table = Vec::new(rt.alloc());
    for _ in 0..600 {
        let plain = some_row(&mut random);
        let there = table.contains(&plain);
        assert!(rt; is_there(&rows, plain, rt.alloc(), &rt) == there);
        if there {
            assert!(rt; is_taken(&mut rows, plain, rt.alloc(), &rt));
            table.retain(|other| *other != plain);
        } else {
            put_new(&mut rows, plain, rt.alloc(), &rt);
            table.push(plain).expect(&rt, "memory");
        }
        assert!(rt; rows.len() == table.len());
        assert!(rt; is_some_met_as_scanned(&rows, &table, &mut random));
    }
    drop(rows);
}

// A list of one row.
fn list_of(plain: Plain, alloc: Global, rt: &impl Abort) -> RowList
    ensures { All HasTypedMatch result }
{
    let mut new = NewRows::new(alloc);
    new.push(row_of(plain, alloc, rt)).expect(rt, "memory");
    new.into_list().expect(rt, "memory")
}

// Puts the row of a list where it is missing, or takes it out.
fn put_or_take(rows: &mut Rows, plain: Plain, is_put: bool, alloc: Global, rt: &impl Abort) {
    let list = list_of(plain, alloc, rt);
    if is_put {
        rows.put_missing(&list).expect(rt, "memory");
    } else {
        rows.take_all(&list);
    }
}

#[test]
fn rows_that_come_and_go_by_lists_are_those_of_a_plain_list(rt: HostRuntime) {
    let mut random = Random { state: 20_261_202 };
    let mut rows = Rows::new(rt.alloc());
    let mut table = Vec::new(rt.alloc());
    for _ in 0..400 {
        let plain = some_row(&mut random);
        let is_put = random.below(5) > 1;
        put_or_take(&mut rows, plain, is_put, rt.alloc(), &rt);
        table.retain(|other| *other != plain);
        if is_put {
            table.push(plain).expect(&rt, "memory");
        }
        assert!(rt; rows.len() == table.len());
        assert!(rt; is_there(&rows, plain, rt.alloc(), &rt) == is_put);
        assert!(rt; is_some_met_as_scanned(&rows, &table, &mut random));
    }
    drop(rows);
}
