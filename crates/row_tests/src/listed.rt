use crate::fixture::name;
use crate::plain::{Does, Plain, Takes, rows_of};
use nv_base::ObjId;
use sb_model::{DatapathKind, Pipeline, Stage};
use sb_rows::{Rows, put_listing};
use std::alloc::Global;
use std::process::Abort;

// The listing of the datapaths of these numbers and names, or of the one alone that has the number `only`.
fn listing(
    rows: &Rows,
    named: &[(u32, &'static str)],
    only: Option<ObjId>,
    alloc: Global,
    rt: &impl Abort,
) -> Vec<u8> {
    let mut names = Vec::new(alloc);
    for (number, text) in named {
        names
            .push((ObjId(*number), name(text, alloc, rt)))
            .expect(rt, "memory");
    }
    let mut out = Vec::new(alloc);
    put_listing(&mut out, rows, &names, only).expect(rt, "memory");
    out
}

#[test]
fn a_switch_is_listed_in_row_order(rt: HostRuntime) {
    let lookup = Stage::LsInL2Lkup;
    let security = Stage::LsInCheckPortSec;
    let table = [
        Plain(1, Stage::LsOutCheckPortSec, 0, 0, Takes::Each, Does::Output),
        Plain(
            1,
            lookup,
            70,
            0,
            Takes::ToMulticast,
            Does::OutBy("_MC_flood"),
        ),
        Plain(1, lookup, 50, 4, Takes::To(0x0b), Does::OutBy("vm-2")),
        Plain(1, lookup, 50, 3, Takes::To(0x0c), Does::OutBy("vm-1")),
        Plain(1, lookup, 50, 3, Takes::To(0x0a), Does::OutBy("vm-1")),
        Plain(1, security, 100, 2, Takes::FromMulticast, Does::Drop),
        Plain(1, security, 100, 2, Takes::ToMulticast, Does::Drop),
        Plain(1, security, 100, 2, Takes::ToMulticast, Does::Drop),
    ];
    let rows = rows_of(&table, rt.alloc(), &rt);
    assert!(rt; rows.len() == 7);
    let out = listing(&rows, &[(1, "sw0")], None, rt.alloc(), &rt);
    let want = "Datapath: sw0  Pipeline: ingress
  table=0 (ls_in_check_port_sec), priority=100, hint=2, match=(eth.mcast), action=(drop;)
  table=0 (ls_in_check_port_sec), priority=100, hint=2, match=(eth.src[40]), action=(drop;)
  table=7 (ls_in_l2_lkup), priority=70, hint=0, match=(eth.mcast), action=(outport = \"_MC_flood\"; output;)
  table=7 (ls_in_l2_lkup), priority=50, hint=3, match=(eth.dst == 0a:00:00:00:00:0a), action=(outport = \"vm-1\"; output;)
  table=7 (ls_in_l2_lkup), priority=50, hint=3, match=(eth.dst == 0a:00:00:00:00:0c), action=(outport = \"vm-1\"; output;)
  table=7 (ls_in_l2_lkup), priority=50, hint=4, match=(eth.dst == 0a:00:00:00:00:0b), action=(outport = \"vm-2\"; output;)
Datapath: sw0  Pipeline: egress
  table=4 (ls_out_check_port_sec), priority=0, hint=0, match=(1), action=(output;)
";
    drop(rows);
    assert!(rt; out.as_slice() == want.as_bytes());
}

#[test]
fn datapaths_are_listed_by_name_list_and_one_alone(rt: HostRuntime) {
    let table = [
        Plain(2, Stage::LrOutDelivery, 7, 0, Takes::Each, Does::Output),
        Plain(1, Stage::LsInL2Unknown, 7, 0, Takes::Each, Does::Output),
        Plain(3, Stage::LsInL2Unknown, 7, 0, Takes::Each, Does::Output),
    ];
    let rows = rows_of(&table, rt.alloc(), &rt);
    let names = [(2, "lr"), (1, "ls")];
    let one = listing(&rows, &names, Some(ObjId(1)), rt.alloc(), &rt);
    let both = listing(&rows, &names, None, rt.alloc(), &rt);
    drop(rows);
    let router = "Datapath: lr  Pipeline: ingress
Datapath: lr  Pipeline: egress
  table=2 (lr_out_delivery), priority=7, hint=0, match=(1), action=(output;)
";
    let switch = "Datapath: ls  Pipeline: ingress
  table=8 (ls_in_l2_unknown), priority=7, hint=0, match=(1), action=(output;)
Datapath: ls  Pipeline: egress
";
    assert!(rt; one.as_slice() == switch.as_bytes());
    assert!(rt; both.len() == router.len() + switch.len());
    assert!(rt; both.as_slice().starts_with(router.as_bytes()));
    assert!(rt; both.as_slice().ends_with(switch.as_bytes()));
}

#[test]
fn stages_have_their_table(rt: HostRuntime) {
    assert!(rt; Stage::LrInDnat.name() == "lr_in_dnat");
    assert!(rt; Stage::LrInDnat.table() == 5);
    assert!(rt; Stage::LrInDnat.pipeline() == Pipeline::Ingress);
    assert!(rt; Stage::LsInL2Unknown < Stage::LsOutPreAcl);
    assert!(rt; Stage::LrInDnat.next() == Some(Stage::LrInIpRouting));
    assert!(rt; Stage::LrOutDelivery.next().is_none());
    assert!(rt; Stage::LsInL2Unknown.next().is_none());
    let last = Stage::at(DatapathKind::Switch, Pipeline::Egress, 4);
    assert!(rt; last == Some(Stage::LsOutCheckPortSec));
    assert!(rt; Stage::first(DatapathKind::Router, Pipeline::Egress) == Stage::LrOutUndnat);
}
