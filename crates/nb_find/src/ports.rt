//! Ports that are there, on the datapath that is named.
ghost use Rattle.std.specs.Prelude.{◌≡◌};
ghost use Rattle.nb_model.specs.Belongs.{is_number};
ghost use Rattle.nb_model.specs.Network.{switch_id, router_id, port_named, router_port_named};
ghost use Rattle.nb_model.specs.Tests.{is_in_place};

use nb_store::Records;
use nv_base::{Name, ObjId};

// Whether the number is that of an object that is there.
fn is_number(object: Option<ObjId>, number: ObjId) -> bool
    ensures { result ≡ is_number object number }
{
    match object {
        None => false,
        Some(own) => own == number,
    }
}

/// Whether the port of this name is on the switch of that name, where it may be there.
pub fn is_port_in_place(records: &Records, switch: &Name, port: &Name, may_exist: bool) -> bool
    ensures { result ≡ is_in_place may_exist (λ own. is_number (switch_id records.now switch.now) own.switch) (port_named records.now port.now) }
{
    match records.port_named(port) {
        None => false,
        Some(port) => may_exist && is_number(records.switch_id(switch), port.switch),
    }
}

/// Whether the port of this name is on the router of that name, where it may be there.
pub fn is_router_port_in_place(
    records: &Records,
    router: &Name,
    port: &Name,
    may_exist: bool,
) -> bool
    ensures { result ≡ is_in_place may_exist (λ own. is_number (router_id records.now router.now) own.router) (router_port_named records.now port.now) }
{
    match records.router_port_named(port) {
        None => false,
        Some(port) => may_exist && is_number(records.router_id(router), port.router),
    }
}
