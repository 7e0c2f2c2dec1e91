//! Edits of port groups.
ghost use Rattle.std.specs.Prelude.{◌≡◌, OnOk, IfOk};
ghost use Rattle.nb_records.specs.declared.edit.Edit.TheVariants as edit;
ghost use Rattle.nb_model.specs.Effect.{effect, named_port_ids, with_number};
ghost use Rattle.nb_model.specs.Sound.{IsSound};
ghost use Rattle.nb_change.specs.inner.Told.{IsTold};
ghost use Rattle.nb_store.specs.Undo.{back_steps};

use crate::owned::drop_all;
use nb_records::{Acl, Group, Numbers};
use nb_store::{Place, Records, Work};
use nv_base::{Items, Name, ObjId, OutOfMemory};
use std::alloc::Global;
use std::collections::BTreeSet;

/// `pg-add`
pub(crate) fn pg_add(
    work: &mut Work,
    alloc: Global,
    name: Name,
    ports: &Items<Name>,
) -> Result<(), OutOfMemory>
    requires sound { IsSound work.old.records }
    ensures ok { OnOk result (work.new.records ≡ effect work.old.records (edit.PgAdd name ports.now)) }
    ensures back { back_steps work.new.steps.items work.new.records ≡ back_steps work.old.steps.items work.old.records }
{
    let members = port_ids(&work.records, alloc, ports.as_slice())?;
    let id = work.take_number()?;
    work.store_group(
        alloc,
        Group {
            id,
            name,
            ports: members,
        },
    )
}

/// `pg-set-ports`
pub(crate) fn pg_set_ports(
    work: &mut Work,
    alloc: Global,
    name: Name,
    ports: &Items<Name>,
) -> Result<(), OutOfMemory>
    requires sound { IsSound work.old.records }
    ensures ok { OnOk result (work.new.records ≡ effect work.old.records (edit.PgSetPorts name ports.now)) }
    ensures back { back_steps work.new.steps.items work.new.records ≡ back_steps work.old.steps.items work.old.records }
{
    let Some(id) = work.records.group_id(&name) else {
        return Ok(());
    };
    let members = port_ids(&work.records, alloc, ports.as_slice())?;
    work.store_group(
        alloc,
        Group {
            id,
            name,
            ports: members,
        },
    )
}

/// `pg-del`
pub(crate) fn pg_del(work: &mut Work, name: &Name, if_exists: bool) -> Result<(), OutOfMemory>
    requires sound { IsSound work.old.records }
    ensures ok { OnOk result (work.new.records ≡ effect work.old.records (edit.PgDel name.now if_exists)) }
    ensures back { back_steps work.new.steps.items work.new.records ≡ back_steps work.old.steps.items work.old.records }
{
    let Some(group) = work.records.group_id(name) else {
        return Ok(());
    };
    drop_all::<Acl>(work, group)?;
    work.remove(Place::Group(group))
}

// The numbers of the ports of these names, each once.
fn port_ids(records: &Records, alloc: Global, names: &[Name]) -> Result<Numbers, OutOfMemory>
    ensures { IfOk result (λ ids. ids ≡ named_port_ids records.now names.now) }
{
    let mut ids = Items::new(alloc);
    let mut seen = BTreeSet::new(alloc);
    for name in names {
        if let Some(id) = records.port_id(name) {
            add_new(&mut ids, &mut seen, id)?;
        }
    }
    Numbers::from_slice(alloc, ids.as_slice())
}

// Puts a number last, where it is not there: a set tells which are.
fn add_new(ids: &mut Items<ObjId>, seen: &mut BTreeSet<u32>, id: ObjId) -> Result<(), OutOfMemory>
    requires told { IsTold ids.old seen.old }
    ensures ok { OnOk result (ids.new ≡ with_number id ids.old) }
    ensures told { OnOk result (IsTold ids.new seen.new) }
{
    let is_new = seen.insert(id.0)?;
    if is_new {
        ids.push(id)?;
    }
    Ok(())
}
