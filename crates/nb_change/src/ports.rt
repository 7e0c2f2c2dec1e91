//! Edits of the ports of switches.
ghost use Rattle.std.specs.Prelude.{◌≡◌, OnOk};
ghost use Rattle.nb_records.specs.declared.edit.Edit.TheVariants as edit;
ghost use Rattle.nb_change.specs.inner.Ports.{changed_by};
ghost use Rattle.nb_model.specs.Effect.{effect, set_port};
ghost use Rattle.nb_model.specs.Sound.{IsSound};
ghost use Rattle.nb_store.specs.Undo.{back_steps};

use crate::switch_removals::remove_port;
use nb_records::{Addr, Guard, Port, PortKind};
use nb_store::Work;
use nv_base::{Items, Kept, Name, OutOfMemory};
use std::alloc::Global;

/// `lsp-add`
pub(crate) fn lsp_add(
    work: &mut Work,
    alloc: Global,
    switch: &Name,
    port: Name,
    may_exist: bool,
) -> Result<(), OutOfMemory>
    requires sound { IsSound work.old.records }
    ensures ok { OnOk result (work.new.records ≡ effect work.old.records (edit.LspAdd switch.now port may_exist)) }
    ensures back { back_steps work.new.steps.items work.new.records ≡ back_steps work.old.steps.items work.old.records }
{
    if work.records.port_named(&port).is_some() {
        return Ok(());
    }
    let Some(switch) = work.records.switch_id(switch) else {
        return Ok(());
    };
    let id = work.take_number()?;
    work.store_port(
        alloc,
        Port {
            id,
            switch,
            name: port,
            kind: PortKind::Host,
            router_port: None,
            addresses: Items::new(alloc),
            security: Items::new(alloc),
            enabled: true,
        },
    )
}

/// What a command sets of a port.
#[derive(Drop)]
pub(crate) enum PortChange {
    /// `lsp-set-addresses`
    Addresses(Items<Addr>),
    /// `lsp-set-port-security`
    Security(Items<Guard>),
    /// `lsp-set-type`
    Kind(PortKind),
    /// `lsp-set-options`: the router port that it has for its peer.
    RouterPort(Option<Name>),
    /// `lsp-set-enabled`
    Enabled(bool),
}

// The port with what is set.
fn changed(port: Port, change: PortChange) -> Port
    ensures { result ≡ changed_by change port }
{
    match change {
        PortChange::Addresses(addresses) => Port { addresses, ..port },
        PortChange::Security(security) => Port { security, ..port },
        PortChange::Kind(kind) => Port { kind, ..port },
        PortChange::RouterPort(router_port) => Port {
            router_port,
            ..port
        },
        PortChange::Enabled(enabled) => Port { enabled, ..port },
    }
}

/// Sets something of a port. Where it is so already, nothing changes.
pub(crate) fn lsp_set(
    work: &mut Work,
    alloc: Global,
    port: &Name,
    change: PortChange,
) -> Result<(), OutOfMemory>
    requires sound { IsSound work.old.records }
    ensures ok { OnOk result (work.new.records ≡ set_port work.old.records port.now (changed_by change)) }
    ensures back { back_steps work.new.steps.items work.new.records ≡ back_steps work.old.steps.items work.old.records }
{
    let Some(old) = work.records.port_named(port) else {
        return Ok(());
    };
    let changed = changed(old.copy(alloc)?, change);
    if changed == *old {
        drop(changed);
        return Ok(());
    }
    work.store_port(alloc, changed)
}

/// `lsp-del`
pub(crate) fn lsp_del(
    work: &mut Work,
    alloc: Global,
    port: &Name,
    if_exists: bool,
) -> Result<(), OutOfMemory>
    requires sound { IsSound work.old.records }
    ensures ok { OnOk result (work.new.records ≡ effect work.old.records (edit.LspDel port.now if_exists)) }
    ensures back { back_steps work.new.steps.items work.new.records ≡ back_steps work.old.steps.items work.old.records }
{
    match work.records.port_id(port) {
        Some(number) => remove_port(work, alloc, number),
        None => Ok(()),
    }
}
