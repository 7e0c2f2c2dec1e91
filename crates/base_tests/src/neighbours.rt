// What no clause says: that calls can succeed, that what is learnt again keeps its place, and that a walk comes back from what it learnt.
use ct_core::Neighbour;
use ct_nbrs::Neighbours;
use ct_state::{State, Work};
use nv_base::{Ip4, Mac, ObjId};
use std::alloc::Global;
use std::test::Fail;

fn neighbour(port: u32, addr: u32, mac: u8) -> Neighbour {
    Neighbour {
        port: ObjId(port),
        addr: Ip4(addr),
        mac: Mac(u64::from(mac)),
    }
}

#[test]
fn what_is_learnt_again_keeps_its_place(rt: HostRuntime) {
    let mut nbrs = Neighbours::new(rt.alloc());
    assert!(rt; nbrs.learn(neighbour(1, 10, 1)).is_ok());
    assert!(rt; nbrs.learn(neighbour(2, 10, 2)).is_ok());
    assert!(rt; nbrs.learn(neighbour(1, 11, 3)).is_ok());
    assert!(rt; nbrs.learn(neighbour(1, 10, 4)).is_ok());
    assert!(rt; nbrs.len() == 3);
    assert!(rt; nbrs.entry(0) == Some(neighbour(1, 10, 4)));
    assert!(rt; nbrs.find(ObjId(1), Ip4(11)) == Some(Mac(3)));
    assert!(rt; nbrs.find(ObjId(2), Ip4(11)).is_none());
    nbrs.drop_port(ObjId(1));
    assert!(rt; nbrs.entry(0) == Some(neighbour(2, 10, 2)));
    assert!(rt; nbrs.entry(1).is_none());
}

// Learns of two neighbours, of the first with this MAC, and keeps this or comes back. The answer is the MAC that was known in between.
fn learn_two(alloc: Global, state: &mut State, mac: u8, keeps: bool) -> Option<Mac> {
    let Ok(mut work) = Work::begin(alloc, state) else {
        return None;
    };
    let first = work.learn(neighbour(1, 10, mac)).is_ok();
    let second = work.learn(neighbour(1, 12, 5)).is_ok();
    let known = work.mac_of(ObjId(1), Ip4(10));
    if keeps {
        work.finish(state);
    } else {
        work.abandon(state);
    }
    if first && second { Some(known) } else { None }
}

#[test]
fn what_a_walk_learns_is_kept_or_taken_back(rt: HostRuntime) {
    let mut state = State::new(rt.alloc());
    assert!(rt; learn_two(rt.alloc(), &mut state, 3, false) == Some(Mac(3)));
    assert!(rt; state.nbrs().is_empty());
    assert!(rt; learn_two(rt.alloc(), &mut state, 4, true) == Some(Mac(4)));
    assert!(rt; learn_two(rt.alloc(), &mut state, 6, false) == Some(Mac(6)));
    assert!(rt; state.nbrs().find(ObjId(1), Ip4(10)) == Some(Mac(4)));
    assert!(rt; learn_two(rt.alloc(), &mut state, 7, true) == Some(Mac(7)));
    assert!(rt; state.nbrs().entry(0) == Some(neighbour(1, 10, 7)));
    assert!(rt; state.nbrs().len() == 2);
}
