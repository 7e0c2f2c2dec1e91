//! The commands of switches and their ports.
ghost use Rattle.std.specs.Prelude.{◌≡◌, ◌≤◌, Ok, IfOk, IfErr, length};
ghost use Rattle.nb_words.specs.Fault.{IsFaultOf};
ghost use Rattle.nb_edit.specs.Edits.{edit_of};

use crate::at::{name_at, state_at};
use crate::call::Call;
use crate::maybe::router_port_once;
use crate::verb::Verb;
use nb_read::{addresses, guards, port_kind, port_options};
use nb_records::Edit;
use nb_words::LineFault;
use std::alloc::Global;

/// `ls-add NAME`
pub(crate) fn ls_add(alloc: Global, call: &Call) -> Result<Edit, LineFault>
    requires { 1 ≤ length call.now.words }
    ensures read { IfOk result (λ edit. edit_of Verb.LsAdd call.now ≡ Ok edit) }
    ensures refused { IfErr result (λ fault. IsFaultOf (edit_of Verb.LsAdd call.now) fault) }
{
    let name = name_at(alloc, call, 0)?;
    Ok(Edit::LsAdd {
        name,
        may_exist: call.may_exist(),
    })
}

/// `ls-del NAME`
pub(crate) fn ls_del(alloc: Global, call: &Call) -> Result<Edit, LineFault>
    requires { 1 ≤ length call.now.words }
    ensures read { IfOk result (λ edit. edit_of Verb.LsDel call.now ≡ Ok edit) }
    ensures refused { IfErr result (λ fault. IsFaultOf (edit_of Verb.LsDel call.now) fault) }
{
    let name = name_at(alloc, call, 0)?;
    Ok(Edit::LsDel {
        name,
        if_exists: call.if_exists(),
    })
}

/// `lsp-add SWITCH PORT`
pub(crate) fn lsp_add(alloc: Global, call: &Call) -> Result<Edit, LineFault>
    requires { 2 ≤ length call.now.words }
    ensures read { IfOk result (λ edit. edit_of Verb.LspAdd call.now ≡ Ok edit) }
    ensures refused { IfErr result (λ fault. IsFaultOf (edit_of Verb.LspAdd call.now) fault) }
{
    let switch = name_at(alloc, call, 0)?;
    let port = name_at(alloc, call, 1)?;
    Ok(Edit::LspAdd {
        switch,
        port,
        may_exist: call.may_exist(),
    })
}

/// `lsp-del PORT`
pub(crate) fn lsp_del(alloc: Global, call: &Call) -> Result<Edit, LineFault>
    requires { 1 ≤ length call.now.words }
    ensures read { IfOk result (λ edit. edit_of Verb.LspDel call.now ≡ Ok edit) }
    ensures refused { IfErr result (λ fault. IsFaultOf (edit_of Verb.LspDel call.now) fault) }
{
    let port = name_at(alloc, call, 0)?;
    Ok(Edit::LspDel {
        port,
        if_exists: call.if_exists(),
    })
}

/// `lsp-set-addresses PORT [ADDRESS]...`
pub(crate) fn lsp_set_addresses(alloc: Global, call: &Call) -> Result<Edit, LineFault>
    requires { 1 ≤ length call.now.words }
    ensures read { IfOk result (λ edit. edit_of Verb.LspSetAddresses call.now ≡ Ok edit) }
    ensures refused { IfErr result (λ fault. IsFaultOf (edit_of Verb.LspSetAddresses call.now) fault) }
{
    let port = name_at(alloc, call, 0)?;
    let addresses = addresses(alloc, call.number(1), call.from(1))?;
    Ok(Edit::LspSetAddresses { port, addresses })
}

/// `lsp-set-port-security PORT [GUARD]...`
pub(crate) fn lsp_set_port_security(alloc: Global, call: &Call) -> Result<Edit, LineFault>
    requires { 1 ≤ length call.now.words }
    ensures read { IfOk result (λ edit. edit_of Verb.LspSetPortSecurity call.now ≡ Ok edit) }
    ensures refused { IfErr result (λ fault. IsFaultOf (edit_of Verb.LspSetPortSecurity call.now) fault) }
{
    let port = name_at(alloc, call, 0)?;
    let guards = guards(alloc, call.number(1), call.from(1))?;
    Ok(Edit::LspSetPortSecurity { port, guards })
}

/// `lsp-set-type PORT TYPE`
pub(crate) fn lsp_set_type(alloc: Global, call: &Call) -> Result<Edit, LineFault>
    requires { 2 ≤ length call.now.words }
    ensures read { IfOk result (λ edit. edit_of Verb.LspSetType call.now ≡ Ok edit) }
    ensures refused { IfErr result (λ fault. IsFaultOf (edit_of Verb.LspSetType call.now) fault) }
{
    let port = name_at(alloc, call, 0)?;
    let kind = port_kind(call.number(1), call.text(1))?;
    Ok(Edit::LspSetType { port, kind })
}

/// `lsp-set-options PORT [router-port=NAME]`
pub(crate) fn lsp_set_options(alloc: Global, call: &Call) -> Result<Edit, LineFault>
    requires { 1 ≤ length call.now.words }
    ensures read { IfOk result (λ edit. edit_of Verb.LspSetOptions call.now ≡ Ok edit) }
    ensures refused { IfErr result (λ fault. IsFaultOf (edit_of Verb.LspSetOptions call.now) fault) }
{
    router_port_once(call)?;
    let port = name_at(alloc, call, 0)?;
    let router_port = port_options(alloc, call.number(1), call.from(1))?;
    Ok(Edit::LspSetOptions { port, router_port })
}

/// `lsp-set-enabled PORT enabled` or `disabled`
pub(crate) fn lsp_set_enabled(alloc: Global, call: &Call) -> Result<Edit, LineFault>
    requires { 2 ≤ length call.now.words }
    ensures read { IfOk result (λ edit. edit_of Verb.LspSetEnabled call.now ≡ Ok edit) }
    ensures refused { IfErr result (λ fault. IsFaultOf (edit_of Verb.LspSetEnabled call.now) fault) }
{
    let port = name_at(alloc, call, 0)?;
    let enabled = state_at(call, 1)?;
    Ok(Edit::LspSetEnabled { port, enabled })
}
