//! The rows of a port of a switch.
ghost use Rattle.std.specs.Prelude.{◌≡◌, Some, ◌++◌, IfOk, OnOk};
ghost use Rattle.nb_model.specs.Applies.{tracks as switch_tracks};
ghost use Rattle.nb_model.specs.Sound.{IsSound};
ghost use Rattle.nv_table.specs.Table.{record_of};
ghost use Rattle.net_rows.specs.Build.{port_sec_input};
ghost use Rattle.net_rows.specs.PortSecurity.{port_sec_rules};
ghost use Rattle.net_rows.specs.Unit.{unit_of, unit_rows};
ghost use Rattle.nd_full.specs.inner.Made.{acl_rules_where, port_units};

use crate::made::MadeRows;
use nb_records::Port;
use nb_store::Records;
use nd_inputs::{is_to_router, port_acl_input, port_l2_input, port_sec_input};
use nv_base::{Kept, Name, OutOfMemory};
use std::alloc::Global;

/// The rows of the units of a port, whose switch tracks connections or does not, come after the others.
pub(crate) fn add_rows_of_port(
    alloc: Global,
    made: &mut MadeRows,
    records: &Records,
    port: &Port,
    tracks: bool,
) -> Result<(), OutOfMemory>
    requires sound { IsSound records.now }
    requires there { record_of (λ x. x.id) port.now.id records.now.ports ≡ Some port.now }
    requires tracks { tracks ≡ switch_tracks records.now port.now.switch }
    ensures { OnOk result (made.new ≡ made.old ++ port_units records.now port.now) }
{
    let name = add_rows_of_security(alloc, made, port)?;
    add_rows_in_acl_stages(alloc, made, port, tracks)?;
    let lookup = port_l2_input(alloc, records, port, name)?;
    made.add_port_l2(alloc, port.id, &lookup)?;
    Ok(())
}

// The rows of the security of a port come after the others: none where it is enabled and has no guards. Its name is returned.
fn add_rows_of_security(
    alloc: Global,
    made: &mut MadeRows,
    port: &Port,
) -> Result<Name, OutOfMemory>
    ensures rows { OnOk result (made.new ≡ made.old ++ unit_rows (unit_of port.now.switch port.now.id) (port_sec_rules (port_sec_input port.now))) }
    ensures name { IfOk result (λ name. name ≡ port.now.name) }
{
    if port.enabled && port.security.as_slice().is_empty() {
        return port.name.copy(alloc);
    }
    let security = port_sec_input(alloc, port)?;
    made.add_port_sec(alloc, port.id, &security)?;
    Ok(security.name)
}

// The rows of a port in the stages of ACLs come after the others: none but where it leads to a router, and its switch tracks connections.
fn add_rows_in_acl_stages(
    alloc: Global,
    made: &mut MadeRows,
    port: &Port,
    tracks: bool,
) -> Result<(), OutOfMemory>
    ensures { OnOk result (made.new ≡ made.old ++ unit_rows (unit_of port.now.switch port.now.id) (acl_rules_where tracks port.now)) }
{
    if is_to_router(port) && tracks {
        let acl = port_acl_input(alloc, port)?;
        made.add_port_acl(alloc, port.id, &acl)?;
    }
    Ok(())
}
