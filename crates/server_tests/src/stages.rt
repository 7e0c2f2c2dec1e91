use crate::fixture::{ADDRESS, PORT, SWITCH, UNKNOWN, packet};
use nv_base::Kept;
use sb_model::Stage;
use tr_stage::{Cause, Hit, Outcome};

#[test]
fn hits_and_outcomes_are_copied(rt: HostRuntime) {
    let met = Hit {
        dp: SWITCH,
        stage: Stage::LsInL2Lkup,
        priority: 50,
        hint: PORT,
    };
    assert!(rt; met.copy(rt.alloc()) == Ok(met));
    let sent = Outcome::Leave(packet(ADDRESS, UNKNOWN), 0);
    assert!(rt; sent.copy(rt.alloc()) == Ok(sent));
    assert!(rt; sent != Outcome::Leave(packet(UNKNOWN, ADDRESS), 0));
    assert!(rt; sent != Outcome::Deliver(packet(ADDRESS, UNKNOWN)));
    assert!(rt; Cause::Unknown.copy(rt.alloc()) == Ok(Cause::Unknown));
}
