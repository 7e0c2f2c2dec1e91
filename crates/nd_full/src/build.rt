ghost use Rattle.std.specs.Prelude.{◌≡◌, ◌++◌, Some, IfOk, OnOk};
ghost use Rattle.std.specs.List.{flat_map};
ghost use Rattle.nb_model.specs.Applies.{tracks as switch_tracks};
ghost use Rattle.nb_model.specs.Sound.{IsSound};
ghost use Rattle.nv_table.specs.Table.{record_of};
ghost use Rattle.net_rows.specs.Build.{has_unknown};
ghost use Rattle.lr_units.specs.Network.{network_rows, rows_of_units};
ghost use Rattle.nd_router.specs.Members.{HaveSameRows};
ghost use Rattle.nd_full.specs.inner.Between.{rows_of_each};
ghost use Rattle.nd_full.specs.inner.Made.{datapath_rows, port_units};
ghost use Rattle.nd_full.specs.inner.Owners.{ports_on};

use crate::inputs::switch_acl_input;
use crate::made::MadeRows;
use crate::owners::owners_on;
use crate::ports::add_rows_of_port;
use crate::routers::add_rows_of_routers;
use crate::switches::add_rows_of_switch;
use nb_records::Switch;
use nb_store::Records;
use nd_inputs::is_for_unknown;
use nv_base::{ObjId, OutOfMemory};
use sb_rows::{NewRows, RowList, Rows};
use std::alloc::Global;

/// The rows of a sound network, made anew: those of each switch, of each port of a switch, of each ACL on each switch to which it
/// applies, and of each VIP on each switch to which its load balancer is attached; and those of each router, of its ports, routes, NAT
/// rules and load balancers, and of the hosts across its ports (modelled on ovn-northd(8)). Where memory runs out the answer is
/// `OutOfMemory`.
pub fn full(alloc: Global, records: &Records) -> Result<Rows, OutOfMemory>
    requires { IsSound records.now }
    ensures { IfOk result (λ built. built ≡ network_rows records.now) }
{
    Rows::of_all(alloc, rows_of_units(alloc, records)?)
}

// The rows of all units, some maybe twice, one datapath after the other, by rising number. Those of each are in the order of
// their keys, so that all are.
fn rows_of_units(alloc: Global, records: &Records) -> Result<NewRows, OutOfMemory>
    requires { IsSound records.now }
    ensures { IfOk result (λ made. HaveSameRows made (rows_of_units records.now)) }
{
    let mut made = NewRows::new(alloc);
    add_rows_of_datapaths(alloc, &mut made, records)?;
    Ok(made)
}

fn add_rows_of_datapaths(
    alloc: Global,
    made: &mut NewRows,
    records: &Records,
) -> Result<(), OutOfMemory>
    requires { IsSound records.now }
    ensures { OnOk result (HaveSameRows made.new (made.old ++ (flat_map (datapath_rows records.now) records.now.switches ++ rows_of_each records.now records.now.routers))) }
{
    let mut last = None;
    while let Some(switch) = records.switches().after(last) {
        add_rows_of_routers(alloc, made, records, last, Some(switch.id))?;
        made.append(rows_of_datapath(alloc, records, switch)?)?;
        last = Some(switch.id);
    }
    add_rows_of_routers(alloc, made, records, last, None)
}

// The rows of a switch, of the ACLs and the load balancers on it, and of its ports, in the order of their keys.
fn rows_of_datapath(
    alloc: Global,
    records: &Records,
    switch: &Switch,
) -> Result<RowList, OutOfMemory>
    requires sound { IsSound records.now }
    requires there { record_of (λ x. x.id) switch.now.id records.now.switches ≡ Some switch.now }
    ensures { IfOk result (λ list. HaveSameRows list (datapath_rows records.now switch.now)) }
{
    let mut made = MadeRows::new(alloc);
    let owners = owners_on(alloc, records, switch.id)?;
    let acl = switch_acl_input(records, switch, &owners);
    let unknown = add_rows_of_ports(alloc, &mut made, records, switch.id, acl.tracks)?;
    add_rows_of_switch(alloc, &mut made, records, switch, &owners, &acl, unknown)?;
    made.into_rows().into_list_by_key()
}

// The rows of the ports of a switch, which tracks connections or does not, come after the others. Whether an enabled port has the
// address `unknown` is returned.
fn add_rows_of_ports(
    alloc: Global,
    made: &mut MadeRows,
    records: &Records,
    switch: ObjId,
    tracks: bool,
) -> Result<bool, OutOfMemory>
    requires sound { IsSound records.now }
    requires tracks { tracks ≡ switch_tracks records.now switch }
    ensures rows { OnOk result (made.new ≡ made.old ++ flat_map (port_units records.now) (ports_on records.now switch)) }
    ensures unknown { IfOk result (λ unknown. unknown ≡ has_unknown records.now switch) }
{
    let mut unknown = false;
    let mut last = None;
    while let Some(port) = records.port_on(switch, last) {
        add_rows_of_port(alloc, made, records, port, tracks)?;
        unknown |= is_for_unknown(port);
        last = Some(port.id);
    }
    Ok(unknown)
}
