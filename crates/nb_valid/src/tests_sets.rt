//! The tests of the edits of port groups and of address sets.
ghost use Rattle.std.specs.Prelude.{◌≡◌, find, is_some, map, not, IfOk, IfErr, None, OnOk};
ghost use Rattle.std.specs.Option.{option_copied};
ghost use Rattle.nb_records.specs.declared.edit.Edit.TheVariants as edit;
ghost use Rattle.nb_model.specs.Network.{port_named};
ghost use Rattle.nb_model.specs.Tests.{first_refusal, wants_port};
ghost use Rattle.nb_words.specs.Fault.{IsFaultOf};
ghost use Rattle.nb_valid.specs.Tested.{tested, Passes};
ghost use Rattle.nb_valid.specs.inner.Refused.{Refuses};
ghost use Rattle.nb_valid.specs.inner.Refused.{IsFaultFor};

use nb_find::{Wanted, free, is_group, is_port, is_set, may_want, wants};
use nb_records::{Edit, Member, Refusal};
use nb_store::Records;
use nb_words::LineFault;
use nv_base::{Items, Kept, Name};
use std::alloc::Global;

// The first of the names that no port of a switch has.
fn first_other<'a>(records: &Records, names: &'a [Name]) -> Option<&'a Name>
    ensures { option_copied result ≡ find (λ name. not (is_some (port_named records.now name))) names.now }
{
    names.iter().find(|name| !is_port(records, name))
}

// Refuses a name that no port of a switch has.
fn want_port(records: &Records, name: Name) -> Result<(), LineFault>
    ensures ok { OnOk result (wants_port records.now name ≡ None) }
    ensures refused { IfErr result (IsFaultFor (wants_port records.now name)) }
{
    match wants(records, Wanted::Port, name) {
        Ok(_) => Ok(()),
        Err(refusal) => Err(LineFault::Refused(refusal)),
    }
}

// Refuses the first of the names that no port of a switch has.
fn want_ports(alloc: Global, records: &Records, names: &[Name]) -> Result<(), LineFault>
    ensures ok { OnOk result (first_refusal (map (wants_port records.now) names.now) ≡ None) }
    ensures refused { IfErr result (IsFaultFor (first_refusal (map (wants_port records.now) names.now))) }
{
    match first_other(records, names) {
        None => Ok(()),
        Some(name) => want_port(records, name.copy(alloc)?),
    }
}

/// `pg-add`: ports of switches have these names, and the group's is free.
pub(crate) fn test_pg_add(
    alloc: Global,
    records: &Records,
    name: Name,
    ports: Items<Name>,
) -> Result<Edit, LineFault>
    ensures ok { IfOk result (Passes records.now (edit.PgAdd name ports)) }
    ensures refused { IfErr result (IsFaultOf (tested records.now (edit.PgAdd name ports))) }
{
    want_ports(alloc, records, ports.as_slice())?;
    let taken = is_group(records, &name);
    let name = free(name, taken).map_err(LineFault::Refused)?;
    Ok(Edit::PgAdd { name, ports })
}

/// `pg-set-ports`: a port group has the name, and ports of switches have theirs.
pub(crate) fn test_pg_set_ports(
    alloc: Global,
    records: &Records,
    name: Name,
    ports: Items<Name>,
) -> Result<Edit, LineFault>
    ensures ok { IfOk result (Passes records.now (edit.PgSetPorts name ports)) }
    ensures refused { IfErr result (IsFaultOf (tested records.now (edit.PgSetPorts name ports))) }
{
    let name = wants(records, Wanted::Group, name).map_err(LineFault::Refused)?;
    want_ports(alloc, records, ports.as_slice())?;
    Ok(Edit::PgSetPorts { name, ports })
}

/// `pg-del`: a port group has the name.
pub(crate) fn test_pg_del(records: &Records, name: Name, if_exists: bool) -> Result<Edit, Refusal>
    ensures ok { IfOk result (Passes records.now (edit.PgDel name if_exists)) }
    ensures refused { IfErr result (Refuses records.now (edit.PgDel name if_exists)) }
{
    let name = may_want(records, Wanted::Group, name, if_exists)?;
    Ok(Edit::PgDel { name, if_exists })
}

/// `as-add`: the name is free.
pub(crate) fn test_as_add(
    records: &Records,
    name: Name,
    members: Items<Member>,
) -> Result<Edit, Refusal>
    ensures ok { IfOk result (Passes records.now (edit.AsAdd name members)) }
    ensures refused { IfErr result (Refuses records.now (edit.AsAdd name members)) }
{
    let taken = is_set(records, &name);
    let name = free(name, taken)?;
    Ok(Edit::AsAdd { name, members })
}

/// `as-set`: an address set has the name.
pub(crate) fn test_as_set(
    records: &Records,
    name: Name,
    members: Items<Member>,
) -> Result<Edit, Refusal>
    ensures ok { IfOk result (Passes records.now (edit.AsSet name members)) }
    ensures refused { IfErr result (Refuses records.now (edit.AsSet name members)) }
{
    let name = wants(records, Wanted::Set, name)?;
    Ok(Edit::AsSet { name, members })
}

/// `as-del`: an address set has the name.
pub(crate) fn test_as_del(records: &Records, name: Name, if_exists: bool) -> Result<Edit, Refusal>
    ensures ok { IfOk result (Passes records.now (edit.AsDel name if_exists)) }
    ensures refused { IfErr result (Refuses records.now (edit.AsDel name if_exists)) }
{
    let name = may_want(records, Wanted::Set, name, if_exists)?;
    Ok(Edit::AsDel { name, if_exists })
}
