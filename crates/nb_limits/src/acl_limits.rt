//! How many ACLs there are and how long they are, each counted once for each switch that it applies to (not from OVN).
ghost use Rattle.std.specs.Prelude.{◌≡◌, ◌*◌, IfOk};
ghost use Rattle.nb_limits.specs.Limitless.{IsSoundButLimits};
ghost use Rattle.nb_limits.specs.inner.GroupSwitches.{switch_count};
ghost use Rattle.nb_limits.specs.inner.Weights.{weight, acl_weight, of_owner, on_switch, on_group, on_switches, on_groups};
ghost use Rattle.nb_limits.specs.inner.Within.{up_to};
ghost use Rattle.nb_records.specs.declared.refusal.Kind.TheVariants as kind;
ghost use Rattle.nb_model.specs.Amounts.{amount, bound};

use crate::bounds::bound;
use crate::within::{add, add_times};
use expr_core::put_tree;
use nb_records::{Acl, Group, Kind};
use nb_store::Records;
use nv_base::{ObjId, OutOfMemory};
use std::alloc::Global;

/// What is added up of ACLs.
#[derive(Clone, Copy)]
pub(crate) enum Measure {
    /// One for each ACL.
    Count,
    /// The bytes of its match.
    Text,
}

/// How many ACLs there are, each counted once for each switch that it applies to, where there are no more than there may be.
pub(crate) fn acl_switches(alloc: Global, records: &Records) -> Result<Option<u64>, OutOfMemory>
    requires limitless { IsSoundButLimits records.now }
    ensures { IfOk result (λ sum. sum ≡ up_to (bound kind.AclSwitch) (amount records.now kind.AclSwitch)) }
{
    let most = u64::from(bound(Kind::AclSwitch));
    acl_weight(alloc, records, Measure::Count, most)
}

/// The bytes of their matches, each counted once for each switch that its ACL applies to, where they are no more than there may be.
pub(crate) fn match_text(alloc: Global, records: &Records) -> Result<Option<u64>, OutOfMemory>
    requires limitless { IsSoundButLimits records.now }
    ensures { IfOk result (λ sum. sum ≡ up_to (bound kind.MatchText) (amount records.now kind.MatchText)) }
{
    let most = u64::from(bound(Kind::MatchText));
    acl_weight(alloc, records, Measure::Text, most)
}

// The weight of all ACLs, each once for each switch that it applies to.
fn acl_weight(
    alloc: Global,
    records: &Records,
    measure: Measure,
    bound: u64,
) -> Result<Option<u64>, OutOfMemory>
    requires limitless { IsSoundButLimits records.now }
    ensures { IfOk result (λ sum. sum ≡ up_to bound (acl_weight measure records.now)) }
{
    let first = on_switches(alloc, records, measure, bound)?;
    let Some(owned) = first else {
        return Ok(None);
    };
    let second = on_groups(alloc, records, measure, bound)?;
    let Some(grouped) = second else {
        return Ok(None);
    };
    Ok(add(owned, grouped, bound))
}

// That of the ACLs that switches own.
fn on_switches(
    alloc: Global,
    records: &Records,
    measure: Measure,
    bound: u64,
) -> Result<Option<u64>, OutOfMemory>
    ensures { IfOk result (λ sum. sum ≡ up_to bound (on_switches measure records.now)) }
{
    let mut room = Vec::new(alloc);
    let mut sum = 0;
    let mut after = None;
    while let Some(acl) = records.acls().after(after) {
        let more = on_switch(records, acl, measure, &mut room)?;
        let Some(total) = add(sum, more, bound) else {
            return Ok(None);
        };
        sum = total;
        after = Some(acl.id);
    }
    Ok(Some(sum))
}

// That of an ACL, if a switch owns it.
fn on_switch(
    records: &Records,
    acl: &Acl,
    measure: Measure,
    room: &mut Vec<u8>,
) -> Result<u64, OutOfMemory>
    ensures { IfOk result (λ more. more ≡ on_switch measure records.now acl.now) }
{
    match records.switches().get(acl.owner) {
        Some(_) => weight(acl, measure, room),
        None => Ok(0),
    }
}

// What an ACL counts for. `room` is a place to write in, of which nothing stays.
fn weight(acl: &Acl, measure: Measure, room: &mut Vec<u8>) -> Result<u64, OutOfMemory>
    ensures { IfOk result (λ more. more ≡ weight measure acl.now) }
{
    match measure {
        Measure::Count => Ok(1),
        Measure::Text => {
            room.clear();
            put_tree(room, &acl.matching)?;
            Ok(room.len() as u64)
        }
    }
}

// The weight of the ACLs that groups own, each once for each switch of its group.
fn on_groups(
    alloc: Global,
    records: &Records,
    measure: Measure,
    bound: u64,
) -> Result<Option<u64>, OutOfMemory>
    requires limitless { IsSoundButLimits records.now }
    ensures { IfOk result (λ sum. sum ≡ up_to bound (on_groups measure records.now)) }
{
    let mut sum = 0;
    let mut after = None;
    while let Some(group) = records.groups().after(after) {
        let part = on_group(alloc, records, group, measure, bound)?;
        let Some(more) = part else {
            return Ok(None);
        };
        let Some(total) = add(sum, more, bound) else {
            return Ok(None);
        };
        sum = total;
        after = Some(group.id);
    }
    Ok(Some(sum))
}

// That of the ACLs that one group owns.
fn on_group(
    alloc: Global,
    records: &Records,
    group: &Group,
    measure: Measure,
    bound: u64,
) -> Result<Option<u64>, OutOfMemory>
    requires limitless { IsSoundButLimits records.now }
    ensures { IfOk result (λ sum. sum ≡ up_to bound (on_group measure records.now group.now)) }
{
    if records.acl_of(group.id, None).is_none() {
        return Ok(Some(0));
    }
    let switches = switch_count(alloc, records, group)?;
    of_owner(alloc, records, group.id, measure, switches, bound)
}

/// The weight of the ACLs of this owner, each so many times, where it is within the bound.
pub(crate) fn of_owner(
    alloc: Global,
    records: &Records,
    owner: ObjId,
    measure: Measure,
    times: u64,
    bound: u64,
) -> Result<Option<u64>, OutOfMemory>
    requires limitless { IsSoundButLimits records.now }
    ensures { IfOk result (λ sum. sum ≡ up_to bound (of_owner measure records.now owner times)) }
{
    let mut room = Vec::new(alloc);
    let mut sum = 0;
    let mut after = None;
    while let Some(acl) = records.acl_of(owner, after) {
        let weight = weight(acl, measure, &mut room)?;
        let Some(total) = add_times(sum, weight, times, bound) else {
            return Ok(None);
        };
        sum = total;
        after = Some(acl.id);
    }
    Ok(Some(sum))
}

/// How many switches have a port of the group: those of its ports, sorted, each once.
pub(crate) fn switch_count(
    alloc: Global,
    records: &Records,
    group: &Group,
) -> Result<u64, OutOfMemory>
    requires limitless { IsSoundButLimits records.now }
    ensures { IfOk result (λ count. count ≡ switch_count records.now group.now) }
{
    let mut switches = Vec::new(alloc);
    for at in 0..group.ports.len() {
        let number = group.ports.number_at(at);
        if let Some(port) = records.ports().get(number) {
            switches.push(port.switch)?;
        }
    }
    switches.sort_unstable();
    switches.dedup();
    Ok(switches.len() as u64)
}
