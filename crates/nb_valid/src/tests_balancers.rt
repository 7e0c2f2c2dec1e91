//! The tests of the edits of load balancers.
ghost use Rattle.std.specs.Prelude.{IfOk, IfErr, None, Some};
ghost use Rattle.nb_records.specs.declared.edit.Edit.TheVariants as edit;
ghost use Rattle.nb_valid.specs.Tested.{Passes};
ghost use Rattle.nb_valid.specs.inner.Refused.{Refuses};

use nb_find::{
    Wanted, duplicate_if, has_vip, is_on_router, is_on_switch, may_want, wants, wants_on_router,
    wants_on_switch, wants_protocol, with_some,
};
use nb_records::{Backend, Edit, Frontend, Proto, Refusal};
use nb_store::Records;
use nv_base::{Items, Name};

/// `lb-add`: a load balancer of the name takes the protocol, and has no such VIP.
pub(crate) fn test_lb_add(
    records: &Records,
    lb: Name,
    at: Frontend,
    backends: Items<Backend>,
    proto: Option<Proto>,
) -> Result<Edit, Refusal>
    ensures ok { IfOk result (Passes records.now (edit.LbAdd lb at backends proto)) }
    ensures refused { IfErr result (Refuses records.now (edit.LbAdd lb at backends proto)) }
{
    let lb = wants_protocol(records, lb, proto)?;
    duplicate_if(has_vip(records, at, &lb), records.lb_id(&lb))?;
    Ok(Edit::LbAdd {
        lb,
        at,
        backends,
        proto,
    })
}

/// `lb-del`
pub(crate) fn test_lb_del(
    records: &Records,
    lb: Name,
    at: Option<Frontend>,
    if_exists: bool,
) -> Result<Edit, Refusal>
    ensures ok { IfOk result (Passes records.now (edit.LbDel lb at if_exists)) }
    ensures refused { IfErr result (Refuses records.now (edit.LbDel lb at if_exists)) }
{
    match at {
        None => test_vips_del(records, lb, if_exists),
        Some(at) => test_vip_del(records, lb, at, if_exists),
    }
}

// `lb-del` of a whole load balancer: it is there.
fn test_vips_del(records: &Records, lb: Name, if_exists: bool) -> Result<Edit, Refusal>
    ensures ok { IfOk result (Passes records.now (edit.LbDel lb None if_exists)) }
    ensures refused { IfErr result (Refuses records.now (edit.LbDel lb None if_exists)) }
{
    let lb = may_want(records, Wanted::Lb, lb, if_exists)?;
    Ok(Edit::LbDel {
        lb,
        at: None,
        if_exists,
    })
}

// `lb-del` of a VIP: the load balancer has it.
fn test_vip_del(records: &Records, lb: Name, at: Frontend, if_exists: bool) -> Result<Edit, Refusal>
    ensures ok { IfOk result (Passes records.now (edit.LbDel lb (Some at) if_exists)) }
    ensures refused { IfErr result (Refuses records.now (edit.LbDel lb (Some at) if_exists)) }
{
    let lb = wants(records, Wanted::Lb, lb)?;
    let there = has_vip(records, at, &lb);
    let lb = with_some(lb, if_exists, there)?;
    Ok(Edit::LbDel {
        lb,
        at: Some(at),
        if_exists,
    })
}

/// `ls-lb-add`: both are there, and the load balancer is not attached, or may be.
pub(crate) fn test_ls_lb_add(
    records: &Records,
    switch: Name,
    lb: Name,
    may_exist: bool,
) -> Result<Edit, Refusal>
    ensures ok { IfOk result (Passes records.now (edit.LsLbAdd switch lb may_exist)) }
    ensures refused { IfErr result (Refuses records.now (edit.LsLbAdd switch lb may_exist)) }
{
    let switch = wants(records, Wanted::Switch, switch)?;
    let lb = wants(records, Wanted::Lb, lb)?;
    let again = !may_exist && is_on_switch(records, &lb, &switch);
    duplicate_if(again, records.lb_id(&lb))?;
    Ok(Edit::LsLbAdd {
        switch,
        lb,
        may_exist,
    })
}

/// `lr-lb-add`: both are there, and the load balancer is not attached, or may be.
pub(crate) fn test_lr_lb_add(
    records: &Records,
    router: Name,
    lb: Name,
    may_exist: bool,
) -> Result<Edit, Refusal>
    ensures ok { IfOk result (Passes records.now (edit.LrLbAdd router lb may_exist)) }
    ensures refused { IfErr result (Refuses records.now (edit.LrLbAdd router lb may_exist)) }
{
    let router = wants(records, Wanted::Router, router)?;
    let lb = wants(records, Wanted::Lb, lb)?;
    let again = !may_exist && is_on_router(records, &lb, &router);
    duplicate_if(again, records.lb_id(&lb))?;
    Ok(Edit::LrLbAdd {
        router,
        lb,
        may_exist,
    })
}

/// `ls-lb-del`: the switch is there, and a load balancer that is named is attached.
pub(crate) fn test_ls_lb_del(
    records: &Records,
    switch: Name,
    lb: Option<Name>,
    if_exists: bool,
) -> Result<Edit, Refusal>
    ensures ok { IfOk result (Passes records.now (edit.LsLbDel switch lb if_exists)) }
    ensures refused { IfErr result (Refuses records.now (edit.LsLbDel switch lb if_exists)) }
{
    let switch = wants(records, Wanted::Switch, switch)?;
    let lb = wants_on_switch(records, lb, &switch, if_exists)?;
    Ok(Edit::LsLbDel {
        switch,
        lb,
        if_exists,
    })
}

/// `lr-lb-del`: the router is there, and a load balancer that is named is attached.
pub(crate) fn test_lr_lb_del(
    records: &Records,
    router: Name,
    lb: Option<Name>,
    if_exists: bool,
) -> Result<Edit, Refusal>
    ensures ok { IfOk result (Passes records.now (edit.LrLbDel router lb if_exists)) }
    ensures refused { IfErr result (Refuses records.now (edit.LrLbDel router lb if_exists)) }
{
    let router = wants(records, Wanted::Router, router)?;
    let lb = wants_on_router(records, lb, &router, if_exists)?;
    Ok(Edit::LrLbDel {
        router,
        lb,
        if_exists,
    })
}
