//! The tests of the edits of the ports of switches.
ghost use Rattle.std.specs.Prelude.{IfOk, IfErr};
ghost use Rattle.nb_records.specs.declared.edit.Edit.TheVariants as edit;
ghost use Rattle.nb_valid.specs.Tested.{Passes};
ghost use Rattle.nb_valid.specs.inner.Refused.{Refuses};

use nb_find::{
    Wanted, free, is_any_port, is_port_in_place, is_router_port_in_place, may_want, wants,
};
use nb_records::{Addr, Edit, Guard, PortKind, Refusal};
use nb_store::Records;
use nv_base::{Items, Mac, Name, Prefix};

/// `lsp-add`: a switch has the name, and the port's is free, or that of a port there which may exist.
pub(crate) fn test_lsp_add(
    records: &Records,
    switch: Name,
    port: Name,
    may_exist: bool,
) -> Result<Edit, Refusal>
    ensures ok { IfOk result (Passes records.now (edit.LspAdd switch port may_exist)) }
    ensures refused { IfErr result (Refuses records.now (edit.LspAdd switch port may_exist)) }
{
    let in_place = is_port_in_place(records, &switch, &port, may_exist);
    let switch = wants(records, Wanted::Switch, switch)?;
    let taken = is_any_port(records, &port) && !in_place;
    let port = free(port, taken)?;
    Ok(Edit::LspAdd {
        switch,
        port,
        may_exist,
    })
}

/// `lsp-del`: a port of a switch has the name.
pub(crate) fn test_lsp_del(records: &Records, port: Name, if_exists: bool) -> Result<Edit, Refusal>
    ensures ok { IfOk result (Passes records.now (edit.LspDel port if_exists)) }
    ensures refused { IfErr result (Refuses records.now (edit.LspDel port if_exists)) }
{
    let port = may_want(records, Wanted::Port, port, if_exists)?;
    Ok(Edit::LspDel { port, if_exists })
}

/// `lsp-set-addresses`: a port of a switch has the name.
pub(crate) fn test_lsp_set_addresses(
    records: &Records,
    port: Name,
    addresses: Items<Addr>,
) -> Result<Edit, Refusal>
    ensures ok { IfOk result (Passes records.now (edit.LspSetAddresses port addresses)) }
    ensures refused { IfErr result (Refuses records.now (edit.LspSetAddresses port addresses)) }
{
    let port = wants(records, Wanted::Port, port)?;
    Ok(Edit::LspSetAddresses { port, addresses })
}

/// `lsp-set-port-security`: a port of a switch has the name.
pub(crate) fn test_lsp_set_port_security(
    records: &Records,
    port: Name,
    guards: Items<Guard>,
) -> Result<Edit, Refusal>
    ensures ok { IfOk result (Passes records.now (edit.LspSetPortSecurity port guards)) }
    ensures refused { IfErr result (Refuses records.now (edit.LspSetPortSecurity port guards)) }
{
    let port = wants(records, Wanted::Port, port)?;
    Ok(Edit::LspSetPortSecurity { port, guards })
}

/// `lsp-set-type`: a port of a switch has the name.
pub(crate) fn test_lsp_set_type(
    records: &Records,
    port: Name,
    kind: PortKind,
) -> Result<Edit, Refusal>
    ensures ok { IfOk result (Passes records.now (edit.LspSetType port kind)) }
    ensures refused { IfErr result (Refuses records.now (edit.LspSetType port kind)) }
{
    let port = wants(records, Wanted::Port, port)?;
    Ok(Edit::LspSetType { port, kind })
}

/// `lsp-set-options`: a port of a switch has the name.
pub(crate) fn test_lsp_set_options(
    records: &Records,
    port: Name,
    router_port: Option<Name>,
) -> Result<Edit, Refusal>
    ensures ok { IfOk result (Passes records.now (edit.LspSetOptions port router_port)) }
    ensures refused { IfErr result (Refuses records.now (edit.LspSetOptions port router_port)) }
{
    let port = wants(records, Wanted::Port, port)?;
    Ok(Edit::LspSetOptions { port, router_port })
}

/// `lsp-set-enabled`: a port of a switch has the name.
pub(crate) fn test_lsp_set_enabled(
    records: &Records,
    port: Name,
    enabled: bool,
) -> Result<Edit, Refusal>
    ensures ok { IfOk result (Passes records.now (edit.LspSetEnabled port enabled)) }
    ensures refused { IfErr result (Refuses records.now (edit.LspSetEnabled port enabled)) }
{
    let port = wants(records, Wanted::Port, port)?;
    Ok(Edit::LspSetEnabled { port, enabled })
}

/// `lrp-add`: a router has the name, and the port's is free, or that of a port there which may exist.
pub(crate) fn test_lrp_add(
    records: &Records,
    router: Name,
    port: Name,
    mac: Mac,
    nets: Items<Prefix>,
    may_exist: bool,
) -> Result<Edit, Refusal>
    ensures ok { IfOk result (Passes records.now (edit.LrpAdd router port mac nets may_exist)) }
    ensures refused { IfErr result (Refuses records.now (edit.LrpAdd router port mac nets may_exist)) }
{
    let in_place = is_router_port_in_place(records, &router, &port, may_exist);
    let router = wants(records, Wanted::Router, router)?;
    let taken = is_any_port(records, &port) && !in_place;
    let port = free(port, taken)?;
    Ok(Edit::LrpAdd {
        router,
        port,
        mac,
        nets,
        may_exist,
    })
}

/// `lrp-del`: a port of a router has the name.
pub(crate) fn test_lrp_del(records: &Records, port: Name, if_exists: bool) -> Result<Edit, Refusal>
    ensures ok { IfOk result (Passes records.now (edit.LrpDel port if_exists)) }
    ensures refused { IfErr result (Refuses records.now (edit.LrpDel port if_exists)) }
{
    let port = may_want(records, Wanted::RouterPort, port, if_exists)?;
    Ok(Edit::LrpDel { port, if_exists })
}

/// `lrp-set-enabled`: a port of a router has the name.
pub(crate) fn test_lrp_set_enabled(
    records: &Records,
    port: Name,
    enabled: bool,
) -> Result<Edit, Refusal>
    ensures ok { IfOk result (Passes records.now (edit.LrpSetEnabled port enabled)) }
    ensures refused { IfErr result (Refuses records.now (edit.LrpSetEnabled port enabled)) }
{
    let port = wants(records, Wanted::RouterPort, port)?;
    Ok(Edit::LrpSetEnabled { port, enabled })
}
