//! The commands of routers and what belongs to them.
ghost use Rattle.std.specs.Prelude.{◌≡◌, ◌≤◌, Ok, IfOk, IfErr, length};
ghost use Rattle.nb_words.specs.Fault.{IsFaultOf};
ghost use Rattle.nb_edit.specs.Edits.{edit_of};

use crate::at::{ip_at, mac_at, name_at, state_at};
use crate::call::Call;
use crate::maybe::{maybe_logical, maybe_name, maybe_nat_kind, maybe_network, no_more};
use crate::verb::Verb;
use nb_read::{logical, nat_kind, network, networks, nexthop};
use nb_records::Edit;
use nb_words::LineFault;
use std::alloc::Global;

/// `lr-add NAME`
pub(crate) fn lr_add(alloc: Global, call: &Call) -> Result<Edit, LineFault>
    requires { 1 ≤ length call.now.words }
    ensures read { IfOk result (λ edit. edit_of Verb.LrAdd call.now ≡ Ok edit) }
    ensures refused { IfErr result (λ fault. IsFaultOf (edit_of Verb.LrAdd call.now) fault) }
{
    let name = name_at(alloc, call, 0)?;
    Ok(Edit::LrAdd {
        name,
        may_exist: call.may_exist(),
    })
}

/// `lr-del NAME`
pub(crate) fn lr_del(alloc: Global, call: &Call) -> Result<Edit, LineFault>
    requires { 1 ≤ length call.now.words }
    ensures read { IfOk result (λ edit. edit_of Verb.LrDel call.now ≡ Ok edit) }
    ensures refused { IfErr result (λ fault. IsFaultOf (edit_of Verb.LrDel call.now) fault) }
{
    let name = name_at(alloc, call, 0)?;
    Ok(Edit::LrDel {
        name,
        if_exists: call.if_exists(),
    })
}

/// `lrp-add ROUTER PORT MAC NETWORK...`
pub(crate) fn lrp_add(alloc: Global, call: &Call) -> Result<Edit, LineFault>
    requires { 4 ≤ length call.now.words }
    ensures read { IfOk result (λ edit. edit_of Verb.LrpAdd call.now ≡ Ok edit) }
    ensures refused { IfErr result (λ fault. IsFaultOf (edit_of Verb.LrpAdd call.now) fault) }
{
    let router = name_at(alloc, call, 0)?;
    let port = name_at(alloc, call, 1)?;
    let mac = mac_at(call, 2)?;
    let nets = networks(alloc, call.number(3), call.from(3))?;
    Ok(Edit::LrpAdd {
        router,
        port,
        mac,
        nets,
        may_exist: call.may_exist(),
    })
}

/// `lrp-del PORT`
pub(crate) fn lrp_del(alloc: Global, call: &Call) -> Result<Edit, LineFault>
    requires { 1 ≤ length call.now.words }
    ensures read { IfOk result (λ edit. edit_of Verb.LrpDel call.now ≡ Ok edit) }
    ensures refused { IfErr result (λ fault. IsFaultOf (edit_of Verb.LrpDel call.now) fault) }
{
    let port = name_at(alloc, call, 0)?;
    Ok(Edit::LrpDel {
        port,
        if_exists: call.if_exists(),
    })
}

/// `lrp-set-enabled PORT enabled` or `disabled`
pub(crate) fn lrp_set_enabled(alloc: Global, call: &Call) -> Result<Edit, LineFault>
    requires { 2 ≤ length call.now.words }
    ensures read { IfOk result (λ edit. edit_of Verb.LrpSetEnabled call.now ≡ Ok edit) }
    ensures refused { IfErr result (λ fault. IsFaultOf (edit_of Verb.LrpSetEnabled call.now) fault) }
{
    let port = name_at(alloc, call, 0)?;
    let enabled = state_at(call, 1)?;
    Ok(Edit::LrpSetEnabled { port, enabled })
}

/// `[--policy=POLICY] lr-route-add ROUTER PREFIX NEXTHOP [PORT]`
pub(crate) fn lr_route_add(alloc: Global, call: &Call) -> Result<Edit, LineFault>
    requires { 3 ≤ length call.now.words }
    ensures read { IfOk result (λ edit. edit_of Verb.LrRouteAdd call.now ≡ Ok edit) }
    ensures refused { IfErr result (λ fault. IsFaultOf (edit_of Verb.LrRouteAdd call.now) fault) }
{
    let router = name_at(alloc, call, 0)?;
    let prefix = network(call.number(1), call.text(1))?;
    let nexthop = nexthop(call.number(2), call.text(2))?;
    let port = maybe_name(alloc, call, 3)?;
    Ok(Edit::LrRouteAdd {
        router,
        prefix,
        nexthop,
        port,
        by: call.policy(),
    })
}

/// `[--policy=POLICY] lr-route-del ROUTER [PREFIX]`
pub(crate) fn lr_route_del(alloc: Global, call: &Call) -> Result<Edit, LineFault>
    requires { 1 ≤ length call.now.words }
    ensures read { IfOk result (λ edit. edit_of Verb.LrRouteDel call.now ≡ Ok edit) }
    ensures refused { IfErr result (λ fault. IsFaultOf (edit_of Verb.LrRouteDel call.now) fault) }
{
    let router = name_at(alloc, call, 0)?;
    let prefix = maybe_network(call, 1)?;
    Ok(Edit::LrRouteDel {
        router,
        prefix,
        if_exists: call.if_exists(),
        by: call.policy(),
    })
}

/// `lr-nat-add ROUTER TYPE EXTERNAL LOGICAL`
pub(crate) fn lr_nat_add(alloc: Global, call: &Call) -> Result<Edit, LineFault>
    requires { 4 ≤ length call.now.words }
    ensures read { IfOk result (λ edit. edit_of Verb.LrNatAdd call.now ≡ Ok edit) }
    ensures refused { IfErr result (λ fault. IsFaultOf (edit_of Verb.LrNatAdd call.now) fault) }
{
    let router = name_at(alloc, call, 0)?;
    let kind = nat_kind(call.number(1), call.text(1))?;
    let external = ip_at(call, 2)?;
    let logical = logical(kind, call.number(3), call.text(3))?;
    no_more(call, 4)?;
    Ok(Edit::LrNatAdd {
        router,
        kind,
        external,
        logical,
    })
}

/// `lr-nat-del ROUTER [TYPE [IP]]`
pub(crate) fn lr_nat_del(alloc: Global, call: &Call) -> Result<Edit, LineFault>
    requires { 1 ≤ length call.now.words }
    ensures read { IfOk result (λ edit. edit_of Verb.LrNatDel call.now ≡ Ok edit) }
    ensures refused { IfErr result (λ fault. IsFaultOf (edit_of Verb.LrNatDel call.now) fault) }
{
    let router = name_at(alloc, call, 0)?;
    let kind = maybe_nat_kind(call, 1)?;
    let addr = maybe_logical(call, 2, kind)?;
    Ok(Edit::LrNatDel {
        router,
        kind,
        addr,
        if_exists: call.if_exists(),
    })
}

/// `smb-add LRP IP MAC`
pub(crate) fn smb_add(alloc: Global, call: &Call) -> Result<Edit, LineFault>
    requires { 3 ≤ length call.now.words }
    ensures read { IfOk result (λ edit. edit_of Verb.SmbAdd call.now ≡ Ok edit) }
    ensures refused { IfErr result (λ fault. IsFaultOf (edit_of Verb.SmbAdd call.now) fault) }
{
    let port = name_at(alloc, call, 0)?;
    let addr = ip_at(call, 1)?;
    let mac = mac_at(call, 2)?;
    Ok(Edit::SmbAdd { port, addr, mac })
}

/// `smb-del LRP IP`
pub(crate) fn smb_del(alloc: Global, call: &Call) -> Result<Edit, LineFault>
    requires { 2 ≤ length call.now.words }
    ensures read { IfOk result (λ edit. edit_of Verb.SmbDel call.now ≡ Ok edit) }
    ensures refused { IfErr result (λ fault. IsFaultOf (edit_of Verb.SmbDel call.now) fault) }
{
    let port = name_at(alloc, call, 0)?;
    let addr = ip_at(call, 1)?;
    Ok(Edit::SmbDel {
        port,
        addr,
        if_exists: call.if_exists(),
    })
}
