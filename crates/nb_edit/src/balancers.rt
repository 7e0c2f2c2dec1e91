//! The commands of load balancers.
ghost use Rattle.std.specs.Prelude.{◌≡◌, ◌≤◌, Ok, IfOk, IfErr, length};
ghost use Rattle.nb_words.specs.Fault.{IsFaultOf};
ghost use Rattle.nb_edit.specs.Edits.{edit_of};

use crate::at::name_at;
use crate::call::Call;
use crate::maybe::{maybe_name, maybe_proto, maybe_vip};
use crate::verb::Verb;
use nb_read::{backends, vip};
use nb_records::Edit;
use nb_words::LineFault;
use std::alloc::Global;

/// `lb-add LB VIP BACKENDS [PROTOCOL]`
pub(crate) fn lb_add(alloc: Global, call: &Call) -> Result<Edit, LineFault>
    requires { 3 ≤ length call.now.words }
    ensures read { IfOk result (λ edit. edit_of Verb.LbAdd call.now ≡ Ok edit) }
    ensures refused { IfErr result (λ fault. IsFaultOf (edit_of Verb.LbAdd call.now) fault) }
{
    let lb = name_at(alloc, call, 0)?;
    let at = vip(call.number(1), call.text(1))?;
    let backends = backends(alloc, at.port.is_some(), call.number(2), call.text(2))?;
    let proto = maybe_proto(call, 3)?;
    Ok(Edit::LbAdd {
        lb,
        at,
        backends,
        proto,
    })
}

/// `lb-del LB [VIP]`
pub(crate) fn lb_del(alloc: Global, call: &Call) -> Result<Edit, LineFault>
    requires { 1 ≤ length call.now.words }
    ensures read { IfOk result (λ edit. edit_of Verb.LbDel call.now ≡ Ok edit) }
    ensures refused { IfErr result (λ fault. IsFaultOf (edit_of Verb.LbDel call.now) fault) }
{
    let lb = name_at(alloc, call, 0)?;
    let at = maybe_vip(call, 1)?;
    Ok(Edit::LbDel {
        lb,
        at,
        if_exists: call.if_exists(),
    })
}

/// `ls-lb-add SWITCH LB`
pub(crate) fn ls_lb_add(alloc: Global, call: &Call) -> Result<Edit, LineFault>
    requires { 2 ≤ length call.now.words }
    ensures read { IfOk result (λ edit. edit_of Verb.LsLbAdd call.now ≡ Ok edit) }
    ensures refused { IfErr result (λ fault. IsFaultOf (edit_of Verb.LsLbAdd call.now) fault) }
{
    let switch = name_at(alloc, call, 0)?;
    let lb = name_at(alloc, call, 1)?;
    Ok(Edit::LsLbAdd {
        switch,
        lb,
        may_exist: call.may_exist(),
    })
}

/// `lr-lb-add ROUTER LB`
pub(crate) fn lr_lb_add(alloc: Global, call: &Call) -> Result<Edit, LineFault>
    requires { 2 ≤ length call.now.words }
    ensures read { IfOk result (λ edit. edit_of Verb.LrLbAdd call.now ≡ Ok edit) }
    ensures refused { IfErr result (λ fault. IsFaultOf (edit_of Verb.LrLbAdd call.now) fault) }
{
    let router = name_at(alloc, call, 0)?;
    let lb = name_at(alloc, call, 1)?;
    Ok(Edit::LrLbAdd {
        router,
        lb,
        may_exist: call.may_exist(),
    })
}

/// `ls-lb-del SWITCH [LB]`
pub(crate) fn ls_lb_del(alloc: Global, call: &Call) -> Result<Edit, LineFault>
    requires { 1 ≤ length call.now.words }
    ensures read { IfOk result (λ edit. edit_of Verb.LsLbDel call.now ≡ Ok edit) }
    ensures refused { IfErr result (λ fault. IsFaultOf (edit_of Verb.LsLbDel call.now) fault) }
{
    let switch = name_at(alloc, call, 0)?;
    let lb = maybe_name(alloc, call, 1)?;
    Ok(Edit::LsLbDel {
        switch,
        lb,
        if_exists: call.if_exists(),
    })
}

/// `lr-lb-del ROUTER [LB]`
pub(crate) fn lr_lb_del(alloc: Global, call: &Call) -> Result<Edit, LineFault>
    requires { 1 ≤ length call.now.words }
    ensures read { IfOk result (λ edit. edit_of Verb.LrLbDel call.now ≡ Ok edit) }
    ensures refused { IfErr result (λ fault. IsFaultOf (edit_of Verb.LrLbDel call.now) fault) }
{
    let router = name_at(alloc, call, 0)?;
    let lb = maybe_name(alloc, call, 1)?;
    Ok(Edit::LrLbDel {
        router,
        lb,
        if_exists: call.if_exists(),
    })
}
