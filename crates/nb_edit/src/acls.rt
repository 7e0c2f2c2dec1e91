//! The commands of ACLs.
ghost use Rattle.std.specs.Prelude.{◌≡◌, ◌≤◌, Ok, IfOk, IfErr, length};
ghost use Rattle.nb_words.specs.Fault.{IsFaultOf};
ghost use Rattle.nb_edit.specs.Edits.{edit_of};

use crate::at::{owner_at, priority_at};
use crate::call::Call;
use crate::maybe::maybe_way;
use crate::rules::rule;
use crate::verb::Verb;
use nb_read::{acl_match, verdict, way};
use nb_records::Edit;
use nb_words::LineFault;
use std::alloc::Global;

/// `[--type=TYPE] acl-add OWNER DIRECTION PRIORITY MATCH VERDICT`
pub(crate) fn acl_add(alloc: Global, call: &Call) -> Result<Edit, LineFault>
    requires { 5 ≤ length call.now.words }
    ensures read { IfOk result (λ edit. edit_of Verb.AclAdd call.now ≡ Ok edit) }
    ensures refused { IfErr result (λ fault. IsFaultOf (edit_of Verb.AclAdd call.now) fault) }
{
    let owner = owner_at(alloc, call, 0)?;
    let way = way(call.number(1), call.text(1))?;
    let priority = priority_at(call, 2)?;
    let matching = acl_match(alloc, way, call.text(3))?;
    let verdict = verdict(call.number(4), call.text(4))?;
    Ok(Edit::AclAdd {
        owner,
        way,
        priority,
        matching,
        verdict,
        may_exist: call.may_exist(),
        of: call.owner_kind(),
    })
}

/// `[--type=TYPE] acl-del OWNER [DIRECTION [PRIORITY MATCH]]`
pub(crate) fn acl_del(alloc: Global, call: &Call) -> Result<Edit, LineFault>
    requires { 1 ≤ length call.now.words }
    ensures read { IfOk result (λ edit. edit_of Verb.AclDel call.now ≡ Ok edit) }
    ensures refused { IfErr result (λ fault. IsFaultOf (edit_of Verb.AclDel call.now) fault) }
{
    let owner = owner_at(alloc, call, 0)?;
    let way = maybe_way(call, 1)?;
    let rule = rule(alloc, call, way)?;
    Ok(Edit::AclDel {
        owner,
        way,
        rule,
        of: call.owner_kind(),
    })
}
