//! Routers and ports of routers that are removed, with what belongs to them.
ghost use Rattle.std.specs.Prelude.{◌≡◌, OnOk};
ghost use Rattle.nb_model.specs.Effect.{without_router_ports};
ghost use Rattle.nb_model.specs.Network.{same};
ghost use Rattle.nb_model.specs.Sound.{AreInOrder};
ghost use Rattle.nv_table.specs.Table.{NumbersRise};
ghost use Rattle.nb_store.specs.Undo.{back_steps};
ghost use Rattle.nb_change.specs.inner.Routers.{less_router_port, less_router};

use crate::owned::drop_all;
use nb_records::{Binding, Nat, Route};
use nb_store::{Place, Work};
use nv_base::{ObjId, OutOfMemory};

/// Removes a port of a router, with its static bindings.
pub(crate) fn remove_router_port(work: &mut Work, port: ObjId) -> Result<(), OutOfMemory>
    requires rise { NumbersRise (λ x. x.id) work.old.records.bindings }
    ensures ok { OnOk result (work.new.records ≡ less_router_port port work.old.records) }
    ensures back { back_steps work.new.steps.items work.new.records ≡ back_steps work.old.steps.items work.old.records }
{
    drop_all::<Binding>(work, port)?;
    work.remove(Place::RouterPort(port))
}

/// Removes a router, with its ports, its routes and its NAT rules.
pub(crate) fn remove_router(work: &mut Work, router: ObjId) -> Result<(), OutOfMemory>
    requires order { AreInOrder work.old.records }
    ensures ok { OnOk result (work.new.records ≡ less_router router work.old.records) }
    ensures back { back_steps work.new.steps.items work.new.records ≡ back_steps work.old.steps.items work.old.records }
{
    remove_router_ports(work, router)?;
    drop_all::<Route>(work, router)?;
    drop_all::<Nat>(work, router)?;
    work.remove(Place::Router(router))
}

// Removes the ports of a router, with their static bindings.
fn remove_router_ports(work: &mut Work, router: ObjId) -> Result<(), OutOfMemory>
    requires ports { NumbersRise (λ x. x.id) work.old.records.router_ports }
    requires bindings { NumbersRise (λ x. x.id) work.old.records.bindings }
    ensures ok { OnOk result (work.new.records ≡ without_router_ports (λ port. same router port.router) work.old.records) }
    ensures back { back_steps work.new.steps.items work.new.records ≡ back_steps work.old.steps.items work.old.records }
{
    while let Some(port) = work.records.router_port_on(router, None) {
        let number = port.id;
        remove_router_port(work, number)?;
    }
    Ok(())
}
