//! The commands of address sets and port groups.
ghost use Rattle.std.specs.Prelude.{◌≡◌, ◌≤◌, Ok, IfOk, IfErr, length};
ghost use Rattle.nb_words.specs.Fault.{IsFaultOf};
ghost use Rattle.nb_edit.specs.Edits.{edit_of};

use crate::at::set_name_at;
use crate::call::Call;
use crate::verb::Verb;
use nb_read::{members, names};
use nb_records::Edit;
use nb_words::LineFault;
use std::alloc::Global;

/// `pg-add NAME [PORT]...`
pub(crate) fn pg_add(alloc: Global, call: &Call) -> Result<Edit, LineFault>
    requires { 1 ≤ length call.now.words }
    ensures read { IfOk result (λ edit. edit_of Verb.PgAdd call.now ≡ Ok edit) }
    ensures refused { IfErr result (λ fault. IsFaultOf (edit_of Verb.PgAdd call.now) fault) }
{
    let name = set_name_at(alloc, call, 0)?;
    let ports = names(alloc, call.number(1), call.from(1))?;
    Ok(Edit::PgAdd { name, ports })
}

/// `pg-set-ports NAME [PORT]...`
pub(crate) fn pg_set_ports(alloc: Global, call: &Call) -> Result<Edit, LineFault>
    requires { 1 ≤ length call.now.words }
    ensures read { IfOk result (λ edit. edit_of Verb.PgSetPorts call.now ≡ Ok edit) }
    ensures refused { IfErr result (λ fault. IsFaultOf (edit_of Verb.PgSetPorts call.now) fault) }
{
    let name = set_name_at(alloc, call, 0)?;
    let ports = names(alloc, call.number(1), call.from(1))?;
    Ok(Edit::PgSetPorts { name, ports })
}

/// `pg-del NAME`
pub(crate) fn pg_del(alloc: Global, call: &Call) -> Result<Edit, LineFault>
    requires { 1 ≤ length call.now.words }
    ensures read { IfOk result (λ edit. edit_of Verb.PgDel call.now ≡ Ok edit) }
    ensures refused { IfErr result (λ fault. IsFaultOf (edit_of Verb.PgDel call.now) fault) }
{
    let name = set_name_at(alloc, call, 0)?;
    Ok(Edit::PgDel {
        name,
        if_exists: call.if_exists(),
    })
}

/// `as-add NAME [MEMBER]...`
pub(crate) fn as_add(alloc: Global, call: &Call) -> Result<Edit, LineFault>
    requires { 1 ≤ length call.now.words }
    ensures read { IfOk result (λ edit. edit_of Verb.AsAdd call.now ≡ Ok edit) }
    ensures refused { IfErr result (λ fault. IsFaultOf (edit_of Verb.AsAdd call.now) fault) }
{
    let name = set_name_at(alloc, call, 0)?;
    let members = members(alloc, call.number(1), call.from(1))?;
    Ok(Edit::AsAdd { name, members })
}

/// `as-set NAME [MEMBER]...`
pub(crate) fn as_set(alloc: Global, call: &Call) -> Result<Edit, LineFault>
    requires { 1 ≤ length call.now.words }
    ensures read { IfOk result (λ edit. edit_of Verb.AsSet call.now ≡ Ok edit) }
    ensures refused { IfErr result (λ fault. IsFaultOf (edit_of Verb.AsSet call.now) fault) }
{
    let name = set_name_at(alloc, call, 0)?;
    let members = members(alloc, call.number(1), call.from(1))?;
    Ok(Edit::AsSet { name, members })
}

/// `as-del NAME`
pub(crate) fn as_del(alloc: Global, call: &Call) -> Result<Edit, LineFault>
    requires { 1 ≤ length call.now.words }
    ensures read { IfOk result (λ edit. edit_of Verb.AsDel call.now ≡ Ok edit) }
    ensures refused { IfErr result (λ fault. IsFaultOf (edit_of Verb.AsDel call.now) fault) }
{
    let name = set_name_at(alloc, call, 0)?;
    Ok(Edit::AsDel {
        name,
        if_exists: call.if_exists(),
    })
}
