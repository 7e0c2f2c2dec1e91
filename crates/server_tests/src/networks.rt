use crate::fixture::{PORT, SWITCH};
use net_meaning::{Cause, PlainEvent};
use nv_base::Kept;
use pkt_core::Packet;

#[test]
fn events_are_copied(rt: HostRuntime) {
    let dropped = PlainEvent::Drop(SWITCH, Cause::Unknown);
    assert!(rt; dropped.copy(rt.alloc()) == Ok(dropped));
    assert!(rt; dropped != PlainEvent::Drop(PORT, Cause::Unknown));
    assert!(rt; dropped != PlainEvent::Output(SWITCH, Packet::zero()));
    assert!(rt; Cause::PortSec.copy(rt.alloc()) == Ok(Cause::PortSec));
}
