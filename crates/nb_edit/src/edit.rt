//! The edit that a command of each name asks for.
ghost use Rattle.std.specs.Prelude.{◌≡◌, ◌≤◌, Ok, IfOk, IfErr, true, length};
ghost use Rattle.nb_words.specs.Fault.{IsFaultOf};
ghost use Rattle.nb_edit.specs.Commands.{fits};
ghost use Rattle.nb_edit.specs.Edits.{edit_of};
ghost use Rattle.nb_edit.specs.Forms.{form};

use crate::call::Call;
use crate::verb::Verb;
use crate::{acls, balancers, routers, sets, switches};
use nb_records::Edit;
use nb_words::LineFault;
use std::alloc::Global;

/// The edit that a command of this name asks for.
pub(crate) fn edit_of(alloc: Global, verb: Verb, call: &Call) -> Result<Edit, LineFault>
    requires { length (form verb).places ≤ length call.now.words }
    ensures read { IfOk result (λ edit. edit_of verb call.now ≡ Ok edit) }
    ensures refused { IfErr result (λ fault. IsFaultOf (edit_of verb call.now) fault) }
{
    match verb {
        Verb::LsAdd => switches::ls_add(alloc, call),
        Verb::LrAdd => routers::lr_add(alloc, call),
        Verb::LsDel => switches::ls_del(alloc, call),
        Verb::LrDel => routers::lr_del(alloc, call),
        Verb::LspAdd => switches::lsp_add(alloc, call),
        Verb::LspDel => switches::lsp_del(alloc, call),
        Verb::LspSetAddresses => switches::lsp_set_addresses(alloc, call),
        Verb::LspSetPortSecurity => switches::lsp_set_port_security(alloc, call),
        Verb::LspSetType => switches::lsp_set_type(alloc, call),
        Verb::LspSetOptions => switches::lsp_set_options(alloc, call),
        Verb::LspSetEnabled => switches::lsp_set_enabled(alloc, call),
        Verb::LrpSetEnabled => routers::lrp_set_enabled(alloc, call),
        Verb::LrpAdd => routers::lrp_add(alloc, call),
        Verb::LrpDel => routers::lrp_del(alloc, call),
        Verb::LrRouteAdd => routers::lr_route_add(alloc, call),
        Verb::LrRouteDel => routers::lr_route_del(alloc, call),
        Verb::LrNatAdd => routers::lr_nat_add(alloc, call),
        Verb::LrNatDel => routers::lr_nat_del(alloc, call),
        Verb::LbAdd => balancers::lb_add(alloc, call),
        Verb::LbDel => balancers::lb_del(alloc, call),
        Verb::LsLbAdd => balancers::ls_lb_add(alloc, call),
        Verb::LrLbAdd => balancers::lr_lb_add(alloc, call),
        Verb::LsLbDel => balancers::ls_lb_del(alloc, call),
        Verb::LrLbDel => balancers::lr_lb_del(alloc, call),
        Verb::AclAdd => acls::acl_add(alloc, call),
        Verb::AclDel => acls::acl_del(alloc, call),
        Verb::PgAdd => sets::pg_add(alloc, call),
        Verb::PgSetPorts => sets::pg_set_ports(alloc, call),
        Verb::PgDel => sets::pg_del(alloc, call),
        Verb::AsAdd => sets::as_add(alloc, call),
        Verb::AsSet => sets::as_set(alloc, call),
        Verb::AsDel => sets::as_del(alloc, call),
        Verb::SmbAdd => routers::smb_add(alloc, call),
        Verb::SmbDel => routers::smb_del(alloc, call),
    }
}
