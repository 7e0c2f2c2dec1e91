//! Load balancers that are there, and the switches and routers that have them.
ghost use Rattle.std.specs.Prelude.{◌≡◌, Contains, IfOk, IfErr, None, Some, if◌then◌else◌, nat_le};
ghost use Rattle.std.specs.List.{list_any};
ghost use Rattle.nb_records.specs.declared.refusal.Refusal.TheVariants.{WrongKind};
ghost use Rattle.nv_base.specs.declared.object.ObjId as of_object;
ghost use Rattle.nb_model.specs.Belongs.{is_among, same_frontend};
ghost use Rattle.nb_model.specs.Network.{lb_named, lb_id};
ghost use Rattle.nv_table.specs.Table.{is_after};
ghost use Rattle.nb_model.specs.Tests.{other_protocol, wants_protocol, has_vip, is_attached, switch_lbs, router_lbs, wants_attached};

use crate::names::with_some;
use nb_records::{Frontend, Lb, Proto, Refusal, Router, Switch, Tag, Vip};
use nb_store::Records;
use nv_base::{Name, ObjId};

// Whether one of these VIPs is at the address and port.
fn has_frontend(at: Frontend, vips: &[Vip]) -> bool
    ensures { result ≡ list_any (λ vip. same_frontend at vip.at) vips.now }
{
    vips.iter().any(|vip| at == vip.at)
}

// Whether the load balancer takes another protocol.
fn other_protocol(proto: Option<Proto>, lb: &Lb) -> bool
    ensures { result ≡ other_protocol proto lb.now }
{
    match (proto, lb.proto) {
        (None, _) => false,
        (Some(Proto::Tcp), Proto::Tcp) => false,
        (Some(Proto::Udp), Proto::Udp) => false,
        (Some(Proto::Tcp), Proto::Udp) => true,
        (Some(Proto::Udp), Proto::Tcp) => true,
    }
}

// Whether a load balancer has the name and takes another protocol.
fn has_other_protocol(records: &Records, name: &Name, proto: Option<Proto>) -> bool
    ensures { wants_protocol name.now proto (lb_named records.now name.now) ≡ (if result then Some (WrongKind name.now) else None) }
{
    match records.lb_named(name) {
        None => false,
        Some(lb) => other_protocol(proto, lb),
    }
}

/// The name, whose load balancer takes the protocol if it is there, else the refusal.
pub fn wants_protocol(records: &Records, name: Name, proto: Option<Proto>) -> Result<Name, Refusal>
    ensures ok { IfOk result (λ passed. (passed ≡ name) × (wants_protocol name proto (lb_named records.now name) ≡ None)) }
    ensures refused { IfErr result (λ refusal. wants_protocol name proto (lb_named records.now name) ≡ Some refusal) }
{
    if has_other_protocol(records, &name, proto) {
        Err(Refusal::WrongKind(name))
    } else {
        Ok(name)
    }
}

/// Whether the load balancer of this name has a VIP at the address and port.
pub fn has_vip(records: &Records, at: Frontend, name: &Name) -> bool
    ensures { result ≡ has_vip at (lb_named records.now name.now) }
{
    match records.lb_named(name) {
        None => false,
        Some(lb) => has_frontend(at, lb.vips.as_slice()),
    }
}

// The number just below another one, if there is one.
fn below(number: ObjId) -> Option<ObjId>
    ensures { (other : of_object.ObjId) → is_after result other ≡ nat_le number.0 other.0 }
{
    match number.0 {
        0 => None,
        above => Some(ObjId(above - 1)),
    }
}

// Whether a switch of the tables has the load balancer. The tables know it, and its list is not gone through.
fn switch_has(records: &Records, switch: &Switch, lb: ObjId) -> bool
    requires { Contains records.now.switches switch.now }
    ensures { result ≡ is_among lb switch.now.lbs }
{
    let tag = Tag::Lists(lb);
    match records.switches().tagged(&tag, below(switch.id)) {
        Some(first) => first.id == switch.id,
        None => false,
    }
}

// The same of a router.
fn router_has(records: &Records, router: &Router, lb: ObjId) -> bool
    requires { Contains records.now.routers router.now }
    ensures { result ≡ is_among lb router.now.lbs }
{
    let tag = Tag::Lists(lb);
    match records.routers().tagged(&tag, below(router.id)) {
        Some(first) => first.id == router.id,
        None => false,
    }
}

/// Whether the load balancer is attached to the switch.
pub fn is_on_switch(records: &Records, lb: &Name, switch: &Name) -> bool
    ensures { result ≡ is_attached (lb_id records.now lb.now) (switch_lbs records.now switch.now) }
{
    match (records.lb_id(lb), records.switch_named(switch)) {
        (Some(lb), Some(switch)) => switch_has(records, switch, lb),
        (Some(_), None) => false,
        (None, _) => false,
    }
}

/// Whether the load balancer is attached to the router.
pub fn is_on_router(records: &Records, lb: &Name, router: &Name) -> bool
    ensures { result ≡ is_attached (lb_id records.now lb.now) (router_lbs records.now router.now) }
{
    match (records.lb_id(lb), records.router_named(router)) {
        (Some(lb), Some(router)) => router_has(records, router, lb),
        (Some(_), None) => false,
        (None, _) => false,
    }
}

/// The name that may be given, of a load balancer that is attached to the switch, else the refusal.
pub fn wants_on_switch(
    records: &Records,
    lb: Option<Name>,
    switch: &Name,
    given: bool,
) -> Result<Option<Name>, Refusal>
    ensures ok { IfOk result (λ passed. (passed ≡ lb) × (wants_attached records.now lb given (switch_lbs records.now switch.now) ≡ None)) }
    ensures refused { IfErr result (λ refusal. wants_attached records.now lb given (switch_lbs records.now switch.now) ≡ Some refusal) }
{
    match lb {
        None => Ok(None),
        Some(lb) => {
            let there = is_on_switch(records, &lb, switch);
            Ok(Some(with_some(lb, given, there)?))
        }
    }
}

/// The name that may be given, of a load balancer that is attached to the router, else the refusal.
pub fn wants_on_router(
    records: &Records,
    lb: Option<Name>,
    router: &Name,
    given: bool,
) -> Result<Option<Name>, Refusal>
    ensures ok { IfOk result (λ passed. (passed ≡ lb) × (wants_attached records.now lb given (router_lbs records.now router.now) ≡ None)) }
    ensures refused { IfErr result (λ refusal. wants_attached records.now lb given (router_lbs records.now router.now) ≡ Some refusal) }
{
    match lb {
        None => Ok(None),
        Some(lb) => {
            let there = is_on_router(records, &lb, router);
            Ok(Some(with_some(lb, given, there)?))
        }
    }
}
