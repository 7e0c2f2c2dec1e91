//! The names that an edit wants: of an object that is there, or of none.
ghost use Rattle.std.specs.Prelude.{◌≡◌, IfOk, IfErr, OnOk, None, Some, is_some};
ghost use Rattle.nb_model.specs.Network.{switch_named, router_named, port_named, router_port_named, lb_named, set_named, group_named};
ghost use Rattle.nb_model.specs.Tests.{wants, if_exists, wants_free, wants_some, duplicate, duplicate_if, wants_owner, is_datapath, is_any_port};
ghost use Rattle.nb_find.specs.Wanted.{is_there, is_other, wants_of};

use nb_records::{OwnerKind, Refusal};
use nb_store::Records;
use nv_base::{Name, ObjId};

/// A kind of objects that commands name. Switches and routers share their names, and so do the ports of both.
#[derive(Clone, Copy)]
pub enum Wanted {
    Switch,
    Router,
    /// A port of a switch.
    Port,
    RouterPort,
    /// A load balancer.
    Lb,
    /// An address set.
    Set,
    /// A port group.
    Group,
}

// The name of an object that is there, else the refusal: another kind has the name, or none has.
fn named(name: Name, there: bool, other: bool) -> Result<Name, Refusal>
    ensures ok { IfOk result (λ passed. (passed ≡ name) × (wants name there other ≡ None)) }
    ensures refused { IfErr result (λ refusal. wants name there other ≡ Some refusal) }
{
    if there {
        Ok(name)
    } else if other {
        Err(Refusal::WrongKind(name))
    } else {
        Err(Refusal::NoSuchObject(name))
    }
}

// The same, where with `--if-exists` no object need be there.
fn wanted_if(given: bool, name: Name, there: bool, other: bool) -> Result<Name, Refusal>
    ensures ok { IfOk result (λ passed. (passed ≡ name) × (if_exists given (wants name there other) ≡ None)) }
    ensures refused { IfErr result (λ refusal. if_exists given (wants name there other) ≡ Some refusal) }
{
    if given && !there && !other {
        Ok(name)
    } else {
        named(name, there, other)
    }
}

/// The name, which is free, else the refusal.
pub fn free(name: Name, taken: bool) -> Result<Name, Refusal>
    ensures ok { IfOk result (λ passed. (passed ≡ name) × (wants_free name taken ≡ None)) }
    ensures refused { IfErr result (λ refusal. wants_free name taken ≡ Some refusal) }
{
    if taken {
        Err(Refusal::Exists(name))
    } else {
        Ok(name)
    }
}

/// The name of what has something to be taken away, else the refusal.
pub fn with_some(name: Name, given: bool, there: bool) -> Result<Name, Refusal>
    ensures ok { IfOk result (λ passed. (passed ≡ name) × (wants_some name given there ≡ None)) }
    ensures refused { IfErr result (λ refusal. wants_some name given there ≡ Some refusal) }
{
    if given || there {
        Ok(name)
    } else {
        Err(Refusal::NoSuchObject(name))
    }
}

/// Refuses an object where there is one like it.
pub fn no_duplicate(found: Option<ObjId>) -> Result<(), Refusal>
    ensures ok { OnOk result (duplicate found ≡ None) }
    ensures refused { IfErr result (λ refusal. duplicate found ≡ Some refusal) }
{
    match found {
        None => Ok(()),
        Some(number) => Err(Refusal::Duplicate(number)),
    }
}

/// Refuses what is there already, if it is.
pub fn duplicate_if(there: bool, number: Option<ObjId>) -> Result<(), Refusal>
    ensures ok { OnOk result (duplicate_if there number ≡ None) }
    ensures refused { IfErr result (λ refusal. duplicate_if there number ≡ Some refusal) }
{
    if there { no_duplicate(number) } else { Ok(()) }
}

/// Whether a switch has the name.
pub fn is_switch(records: &Records, name: &Name) -> bool
    ensures { result ≡ is_some (switch_named records.now name.now) }
{
    records.switch_named(name).is_some()
}

/// Whether a router has the name.
pub fn is_router(records: &Records, name: &Name) -> bool
    ensures { result ≡ is_some (router_named records.now name.now) }
{
    records.router_named(name).is_some()
}

/// Whether a port of a switch has the name.
pub fn is_port(records: &Records, name: &Name) -> bool
    ensures { result ≡ is_some (port_named records.now name.now) }
{
    records.port_named(name).is_some()
}

/// Whether a port of a router has the name.
pub fn is_router_port(records: &Records, name: &Name) -> bool
    ensures { result ≡ is_some (router_port_named records.now name.now) }
{
    records.router_port_named(name).is_some()
}

// Whether a load balancer has the name.
fn is_lb(records: &Records, name: &Name) -> bool
    ensures { result ≡ is_some (lb_named records.now name.now) }
{
    records.lb_named(name).is_some()
}

/// Whether an address set has the name.
pub fn is_set(records: &Records, name: &Name) -> bool
    ensures { result ≡ is_some (set_named records.now name.now) }
{
    records.set_named(name).is_some()
}

/// Whether a port group has the name.
pub fn is_group(records: &Records, name: &Name) -> bool
    ensures { result ≡ is_some (group_named records.now name.now) }
{
    records.group_named(name).is_some()
}

/// Whether a switch or a router has the name.
pub fn is_datapath(records: &Records, name: &Name) -> bool
    ensures { result ≡ is_datapath records.now name.now }
{
    is_switch(records, name) || is_router(records, name)
}

/// Whether a port of either kind has the name.
pub fn is_any_port(records: &Records, name: &Name) -> bool
    ensures { result ≡ is_any_port records.now name.now }
{
    is_port(records, name) || is_router_port(records, name)
}

// Whether an object of the kind has the name.
fn is_there(records: &Records, kind: Wanted, name: &Name) -> bool
    ensures { result ≡ is_there kind records.now name.now }
{
    match kind {
        Wanted::Switch => is_switch(records, name),
        Wanted::Router => is_router(records, name),
        Wanted::Port => is_port(records, name),
        Wanted::RouterPort => is_router_port(records, name),
        Wanted::Lb => is_lb(records, name),
        Wanted::Set => is_set(records, name),
        Wanted::Group => is_group(records, name),
    }
}

// Whether an object of the other kind that shares the names of this one has the name.
fn is_other(records: &Records, kind: Wanted, name: &Name) -> bool
    ensures { result ≡ is_other kind records.now name.now }
{
    match kind {
        Wanted::Switch => is_router(records, name),
        Wanted::Router => is_switch(records, name),
        Wanted::Port => is_router_port(records, name),
        Wanted::RouterPort => is_port(records, name),
        Wanted::Lb | Wanted::Set | Wanted::Group => false,
    }
}

/// The name, which an object of the kind has, else the refusal.
pub fn wants(records: &Records, kind: Wanted, name: Name) -> Result<Name, Refusal>
    ensures ok { IfOk result (λ passed. (passed ≡ name) × (wants_of kind records.now name ≡ None)) }
    ensures refused { IfErr result (λ refusal. wants_of kind records.now name ≡ Some refusal) }
{
    let there = is_there(records, kind, &name);
    let other = is_other(records, kind, &name);
    named(name, there, other)
}

/// The name, which an owner of ACLs has, else the refusal.
pub fn wants_owner(records: &Records, of: Option<OwnerKind>, name: Name) -> Result<Name, Refusal>
    ensures ok { IfOk result (λ passed. (passed ≡ name) × (wants_owner records.now of name ≡ None)) }
    ensures refused { IfErr result (λ refusal. wants_owner records.now of name ≡ Some refusal) }
{
    match of {
        Some(OwnerKind::Switch) => wants(records, Wanted::Switch, name),
        Some(OwnerKind::Group) => wants(records, Wanted::Group, name),
        None => {
            let there = records.owner_id(None, &name).is_some();
            let other = is_router(records, &name);
            named(name, there, other)
        }
    }
}

/// The name, which an object of the kind has or need not have, else the refusal.
pub fn may_want(records: &Records, kind: Wanted, name: Name, given: bool) -> Result<Name, Refusal>
    ensures ok { IfOk result (λ passed. (passed ≡ name) × (if_exists given (wants_of kind records.now name) ≡ None)) }
    ensures refused { IfErr result (λ refusal. if_exists given (wants_of kind records.now name) ≡ Some refusal) }
{
    let there = is_there(records, kind, &name);
    let other = is_other(records, kind, &name);
    wanted_if(given, name, there, other)
}
