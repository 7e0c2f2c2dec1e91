//! The names of objects by their numbers.
ghost use Rattle.std.specs.Prelude.{◌≡◌};
ghost use Rattle.nb_dump.specs.Edits.{switch_name, port_name, router_name, router_port_name, lb_name, group_name};

use nb_store::Records;
use nv_base::ObjId;

/// The name of a switch, empty where there is none.
pub(crate) fn switch_name<'o>(records: &'o Records, number: ObjId) -> &'o [u8]
    ensures { result.now ≡ switch_name records.now number }
{
    match records.switches().get(number) {
        Some(switch) => switch.name.as_slice(),
        None => b"",
    }
}

/// The name of a switch port, empty where there is none.
pub(crate) fn port_name<'o>(records: &'o Records, number: ObjId) -> &'o [u8]
    ensures { result.now ≡ port_name records.now number }
{
    match records.ports().get(number) {
        Some(port) => port.name.as_slice(),
        None => b"",
    }
}

/// The name of a router, empty where there is none.
pub(crate) fn router_name<'o>(records: &'o Records, number: ObjId) -> &'o [u8]
    ensures { result.now ≡ router_name records.now number }
{
    match records.routers().get(number) {
        Some(router) => router.name.as_slice(),
        None => b"",
    }
}

/// The name of a router port, empty where there is none.
pub(crate) fn router_port_name<'o>(records: &'o Records, number: ObjId) -> &'o [u8]
    ensures { result.now ≡ router_port_name records.now number }
{
    match records.router_ports().get(number) {
        Some(port) => port.name.as_slice(),
        None => b"",
    }
}

/// The name of a load balancer, empty where there is none.
pub(crate) fn lb_name<'o>(records: &'o Records, number: ObjId) -> &'o [u8]
    ensures { result.now ≡ lb_name records.now number }
{
    match records.lbs().get(number) {
        Some(lb) => lb.name.as_slice(),
        None => b"",
    }
}

/// The name of a group, empty where there is none.
pub(crate) fn group_name<'o>(records: &'o Records, number: ObjId) -> &'o [u8]
    ensures { result.now ≡ group_name records.now number }
{
    match records.groups().get(number) {
        Some(group) => group.name.as_slice(),
        None => b"",
    }
}
