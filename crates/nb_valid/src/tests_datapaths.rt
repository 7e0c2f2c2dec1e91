//! The tests of the edits of switches and routers.
ghost use Rattle.std.specs.Prelude.{IfOk, IfErr};
ghost use Rattle.nb_records.specs.declared.edit.Edit.TheVariants as edit;
ghost use Rattle.nb_valid.specs.Tested.{Passes};
ghost use Rattle.nb_valid.specs.inner.Refused.{Refuses};

use nb_find::{Wanted, free, is_datapath, is_router, is_switch, may_want};
use nb_records::{Edit, Refusal};
use nb_store::Records;
use nv_base::Name;

/// `ls-add`: the name is free, or that of a switch which may exist.
pub(crate) fn test_ls_add(records: &Records, name: Name, may_exist: bool) -> Result<Edit, Refusal>
    ensures ok { IfOk result (Passes records.now (edit.LsAdd name may_exist)) }
    ensures refused { IfErr result (Refuses records.now (edit.LsAdd name may_exist)) }
{
    let taken = is_datapath(records, &name) && !(may_exist && is_switch(records, &name));
    let name = free(name, taken)?;
    Ok(Edit::LsAdd { name, may_exist })
}

/// `lr-add`: the name is free, or that of a router which may exist.
pub(crate) fn test_lr_add(records: &Records, name: Name, may_exist: bool) -> Result<Edit, Refusal>
    ensures ok { IfOk result (Passes records.now (edit.LrAdd name may_exist)) }
    ensures refused { IfErr result (Refuses records.now (edit.LrAdd name may_exist)) }
{
    let taken = is_datapath(records, &name) && !(may_exist && is_router(records, &name));
    let name = free(name, taken)?;
    Ok(Edit::LrAdd { name, may_exist })
}

/// `ls-del`: a switch has the name.
pub(crate) fn test_ls_del(records: &Records, name: Name, if_exists: bool) -> Result<Edit, Refusal>
    ensures ok { IfOk result (Passes records.now (edit.LsDel name if_exists)) }
    ensures refused { IfErr result (Refuses records.now (edit.LsDel name if_exists)) }
{
    let name = may_want(records, Wanted::Switch, name, if_exists)?;
    Ok(Edit::LsDel { name, if_exists })
}

/// `lr-del`: a router has the name.
pub(crate) fn test_lr_del(records: &Records, name: Name, if_exists: bool) -> Result<Edit, Refusal>
    ensures ok { IfOk result (Passes records.now (edit.LrDel name if_exists)) }
    ensures refused { IfErr result (Refuses records.now (edit.LrDel name if_exists)) }
{
    let name = may_want(records, Wanted::Router, name, if_exists)?;
    Ok(Edit::LrDel { name, if_exists })
}
