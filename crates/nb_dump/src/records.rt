//! The commands that make a record again.
ghost use Rattle.std.specs.Prelude.{◌≡◌, ◌++◌, OnOk, OnErr};
ghost use Rattle.nv_base.specs.Growth.{GrowsAtEnd};
ghost use Rattle.nb_text.specs.Commands.{script};
ghost use Rattle.nb_dump.specs.Edits.{kind_edits, option_edits, address_edits, guard_edits, port_state_edits, router_port_state_edits};

use crate::names::{group_name, router_name, router_port_name, switch_name};
use nb_records::{
    Acl, Addr, AddrSet, Binding, Group, Guard, Lb, Nat, Port, PortKind, Route, Router, RouterPort,
    Switch,
};
use nb_store::Records;
use nb_text::{
    put_as_add, put_group_acl, put_lb_add, put_lr_add, put_lr_nat_add, put_lr_route_add,
    put_lrp_add, put_ls_add, put_lsp_add, put_lsp_set_addresses, put_lsp_set_options,
    put_lsp_set_port_security, put_pg_add, put_port_disabled, put_router_port_disabled,
    put_smb_add, put_switch_acl, put_to_router,
};
use nv_base::{Name, OutOfMemory};
use nv_table::Record;

/// A record that commands make again.
pub(crate) trait Scripted: Record {
    ghost use Rattle.std.specs.Prelude.{◌≡◌, ◌++◌, List, OnOk, OnErr};
    ghost use Rattle.nv_base.specs.Growth.{GrowsAtEnd};
    ghost use Rattle.nb_records.specs.declared.edit.Edit.{Edit};
    ghost use Rattle.nb_model.specs.Network.{Network};
    ghost use Rattle.nb_text.specs.Commands.{script};

    ghost edits: { Network → Self → List Edit };

    /// Appends the commands that make it again.
    fn put(&self, out: &mut Vec<u8>, records: &Records) -> Result<(), OutOfMemory>
        ensures ok { OnOk result (out.new.items ≡ out.old.items ++ script (edits records.now self.now)) }
        ensures err { OnErr result (GrowsAtEnd out.old.items out.new.items) };
}

impl Scripted for Switch {
    ghost use Rattle.nb_dump.specs.Edits.{switch_edits};

    ghost edits = { switch_edits };

    fn put(&self, out: &mut Vec<u8>, _records: &Records) -> Result<(), OutOfMemory> {
        put_ls_add(out, self.name.as_slice())
    }
}

impl Scripted for Router {
    ghost use Rattle.nb_dump.specs.Edits.{router_edits};

    ghost edits = { router_edits };

    fn put(&self, out: &mut Vec<u8>, _records: &Records) -> Result<(), OutOfMemory> {
        put_lr_add(out, self.name.as_slice())
    }
}

// The type of a switch port, where it is not the first one.
fn put_kind(out: &mut Vec<u8>, port: &[u8], kind: PortKind) -> Result<(), OutOfMemory>
    ensures ok { OnOk result (out.new.items ≡ out.old.items ++ script (kind_edits port.now kind)) }
    ensures err { OnErr result (GrowsAtEnd out.old.items out.new.items) }
{
    match kind {
        PortKind::Host => Ok(()),
        PortKind::Router => put_to_router(out, port),
    }
}

// The options of a switch port that has any.
fn put_option(out: &mut Vec<u8>, port: &[u8], name: &Option<Name>) -> Result<(), OutOfMemory>
    ensures ok { OnOk result (out.new.items ≡ out.old.items ++ script (option_edits port.now name.now)) }
    ensures err { OnErr result (GrowsAtEnd out.old.items out.new.items) }
{
    match name {
        None => Ok(()),
        Some(name) => put_lsp_set_options(out, port, name.as_slice()),
    }
}

// The addresses of a switch port that has any.
#[tactic(auto, using(crate::proofs::Scripts::no_addresses, crate::proofs::Scripts::some_addresses))]
fn put_addresses(out: &mut Vec<u8>, port: &[u8], addresses: &[Addr]) -> Result<(), OutOfMemory>
    ensures ok { OnOk result (out.new.items ≡ out.old.items ++ script (address_edits port.now addresses.now)) }
    ensures err { OnErr result (GrowsAtEnd out.old.items out.new.items) }
{
    if addresses.is_empty() {
        Ok(())
    } else {
        put_lsp_set_addresses(out, port, addresses)
    }
}

// The security of a switch port that has any.
#[tactic(auto, using(crate::proofs::Scripts::no_guards, crate::proofs::Scripts::some_guards))]
fn put_guards(out: &mut Vec<u8>, port: &[u8], guards: &[Guard]) -> Result<(), OutOfMemory>
    ensures ok { OnOk result (out.new.items ≡ out.old.items ++ script (guard_edits port.now guards.now)) }
    ensures err { OnErr result (GrowsAtEnd out.old.items out.new.items) }
{
    if guards.is_empty() {
        Ok(())
    } else {
        put_lsp_set_port_security(out, port, guards)
    }
}

// The state of a switch port that is disabled.
fn put_port_state(out: &mut Vec<u8>, port: &[u8], enabled: bool) -> Result<(), OutOfMemory>
    ensures ok { OnOk result (out.new.items ≡ out.old.items ++ script (port_state_edits port.now enabled)) }
    ensures err { OnErr result (GrowsAtEnd out.old.items out.new.items) }
{
    if enabled {
        Ok(())
    } else {
        put_port_disabled(out, port)
    }
}

impl Scripted for Port {
    ghost use Rattle.nb_dump.specs.Edits.{port_edits};

    ghost edits = { port_edits };

    fn put(&self, out: &mut Vec<u8>, records: &Records) -> Result<(), OutOfMemory> {
        let name = self.name.as_slice();
        put_lsp_add(out, switch_name(records, self.switch), name)?;
        put_kind(out, name, self.kind)?;
        put_option(out, name, &self.router_port)?;
        put_addresses(out, name, self.addresses.as_slice())?;
        put_guards(out, name, self.security.as_slice())?;
        put_port_state(out, name, self.enabled)?;
        Ok(())
    }
}

// The state of a router port that is disabled.
fn put_router_port_state(out: &mut Vec<u8>, port: &[u8], enabled: bool) -> Result<(), OutOfMemory>
    ensures ok { OnOk result (out.new.items ≡ out.old.items ++ script (router_port_state_edits port.now enabled)) }
    ensures err { OnErr result (GrowsAtEnd out.old.items out.new.items) }
{
    if enabled {
        Ok(())
    } else {
        put_router_port_disabled(out, port)
    }
}

impl Scripted for RouterPort {
    ghost use Rattle.nb_dump.specs.Edits.{router_port_edits};

    ghost edits = { router_port_edits };

    fn put(&self, out: &mut Vec<u8>, records: &Records) -> Result<(), OutOfMemory> {
        put_lrp_add(out, router_name(records, self.router), self)?;
        put_router_port_state(out, self.name.as_slice(), self.enabled)?;
        Ok(())
    }
}

impl Scripted for Route {
    ghost use Rattle.nb_dump.specs.Edits.{route_edits};

    ghost edits = { route_edits };

    fn put(&self, out: &mut Vec<u8>, records: &Records) -> Result<(), OutOfMemory> {
        put_lr_route_add(out, router_name(records, self.router), self)
    }
}

impl Scripted for Nat {
    ghost use Rattle.nb_dump.specs.Edits.{nat_edits};

    ghost edits = { nat_edits };

    fn put(&self, out: &mut Vec<u8>, records: &Records) -> Result<(), OutOfMemory> {
        put_lr_nat_add(out, router_name(records, self.router), self)
    }
}

impl Scripted for Lb {
    ghost use Rattle.nb_dump.specs.Edits.{lb_edits};

    ghost edits = { lb_edits };

    fn put(&self, out: &mut Vec<u8>, _records: &Records) -> Result<(), OutOfMemory> {
        for vip in self.vips.as_slice() {
            put_lb_add(out, self.name.as_slice(), vip, self.proto)?;
        }
        Ok(())
    }
}

impl Scripted for Acl {
    ghost use Rattle.nb_dump.specs.Edits.{acl_edits};

    ghost edits = { acl_edits };

    fn put(&self, out: &mut Vec<u8>, records: &Records) -> Result<(), OutOfMemory> {
        match records.switches().get(self.owner) {
            Some(switch) => put_switch_acl(out, switch.name.as_slice(), self),
            None => put_group_acl(out, group_name(records, self.owner), self),
        }
    }
}

impl Scripted for AddrSet {
    ghost use Rattle.nb_dump.specs.Edits.{set_edits};

    ghost edits = { set_edits };

    fn put(&self, out: &mut Vec<u8>, _records: &Records) -> Result<(), OutOfMemory> {
        put_as_add(out, self)
    }
}

impl Scripted for Group {
    ghost use Rattle.nb_dump.specs.Edits.{group_edits};

    ghost edits = { group_edits };

    fn put(&self, out: &mut Vec<u8>, _records: &Records) -> Result<(), OutOfMemory> {
        put_pg_add(out, self.name.as_slice())
    }
}

impl Scripted for Binding {
    ghost use Rattle.nb_dump.specs.Edits.{binding_edits};

    ghost edits = { binding_edits };

    fn put(&self, out: &mut Vec<u8>, records: &Records) -> Result<(), OutOfMemory> {
        put_smb_add(out, router_port_name(records, self.port), self)
    }
}
