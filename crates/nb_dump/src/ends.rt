//! What stands at the end of a dump: the ports of groups, and load balancers where they are attached.
ghost use Rattle.std.specs.Prelude.{◌≡◌, ◌++◌, map, OnOk, OnErr};
ghost use Rattle.nv_base.specs.Growth.{GrowsAtEnd};
ghost use Rattle.nb_records.specs.declared.edit.Edit.TheVariants as edit;
ghost use Rattle.nb_text.specs.Words.{each_spaced};
ghost use Rattle.nb_text.specs.Commands.{command_line, script};
ghost use Rattle.nb_dump.specs.Edits.{port_name, members_edits, switch_lb_edits, router_lb_edits};

use crate::names::{lb_name, port_name};
use nb_records::{Group, Numbers, Router, Switch};
use nb_store::Records;
use nb_text::{put_lr_lb_add, put_ls_lb_add, put_word};
use nv_base::OutOfMemory;

// The names of ports, each after a space.
fn put_port_names(out: &mut Vec<u8>, records: &Records, ports: &Numbers) -> Result<(), OutOfMemory>
    ensures ok { OnOk result (out.new.items ≡ out.old.items ++ each_spaced (port_name records.now) ports.now) }
    ensures err { OnErr result (GrowsAtEnd out.old.items out.new.items) }
{
    for at in 0..ports.len() {
        put_word(out, port_name(records, ports.number_at(at)))?;
    }
    Ok(())
}

// `pg-set-ports`
fn put_pg_set_ports(
    out: &mut Vec<u8>,
    records: &Records,
    name: &[u8],
    ports: &Numbers,
) -> Result<(), OutOfMemory>
    ensures ok { OnOk result (out.new.items ≡ out.old.items ++ command_line (edit.PgSetPorts name.now (map (port_name records.now) ports.now))) }
    ensures err { OnErr result (GrowsAtEnd out.old.items out.new.items) }
{
    out.extend_from_slice(b"pg-set-ports")?;
    put_word(out, name)?;
    put_port_names(out, records, ports)?;
    out.push(b'\n')?;
    Ok(())
}

/// The ports of a group that has any.
#[tactic(auto, using(crate::proofs::Scripts::no_members, crate::proofs::Scripts::some_members))]
pub(crate) fn put_members(
    out: &mut Vec<u8>,
    records: &Records,
    group: &Group,
) -> Result<(), OutOfMemory>
    ensures ok { OnOk result (out.new.items ≡ out.old.items ++ script (members_edits records.now group.now)) }
    ensures err { OnErr result (GrowsAtEnd out.old.items out.new.items) }
{
    if group.ports.is_empty() {
        Ok(())
    } else {
        put_pg_set_ports(out, records, group.name.as_slice(), &group.ports)
    }
}

/// The load balancers of a switch.
pub(crate) fn put_switch_lbs(
    out: &mut Vec<u8>,
    records: &Records,
    switch: &Switch,
) -> Result<(), OutOfMemory>
    ensures ok { OnOk result (out.new.items ≡ out.old.items ++ script (switch_lb_edits records.now switch.now)) }
    ensures err { OnErr result (GrowsAtEnd out.old.items out.new.items) }
{
    for lb in switch.lbs.as_slice() {
        put_ls_lb_add(out, switch.name.as_slice(), lb_name(records, *lb))?;
    }
    Ok(())
}

/// The load balancers of a router.
pub(crate) fn put_router_lbs(
    out: &mut Vec<u8>,
    records: &Records,
    router: &Router,
) -> Result<(), OutOfMemory>
    ensures ok { OnOk result (out.new.items ≡ out.old.items ++ script (router_lb_edits records.now router.now)) }
    ensures err { OnErr result (GrowsAtEnd out.old.items out.new.items) }
{
    for lb in router.lbs.as_slice() {
        put_lr_lb_add(out, router.name.as_slice(), lb_name(records, *lb))?;
    }
    Ok(())
}
