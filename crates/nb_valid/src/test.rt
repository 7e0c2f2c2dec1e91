//! The tests of an edit, but that of the limits.
ghost use Rattle.std.specs.Prelude.{IfOk, IfErr};
ghost use Rattle.nb_records.specs.declared.edit.Edit.{Edit};
ghost use Rattle.nb_model.specs.Network.{Network};
ghost use Rattle.nb_model.specs.Readable.{IsReadable};
ghost use Rattle.nb_model.specs.Sound.{IsSound};
ghost use Rattle.nb_words.specs.Fault.{IsFaultOf};
ghost use Rattle.nb_valid.specs.Tested.{tested, Passes};
ghost use Rattle.nb_valid.specs.inner.Refused.{Refuses};

use crate::tests_acls::{test_acl_add, test_acl_del};
use crate::tests_balancers::{
    test_lb_add, test_lb_del, test_lr_lb_add, test_lr_lb_del, test_ls_lb_add, test_ls_lb_del,
};
use crate::tests_datapaths::{test_lr_add, test_lr_del, test_ls_add, test_ls_del};
use crate::tests_ports::{
    test_lrp_add, test_lrp_del, test_lrp_set_enabled, test_lsp_add, test_lsp_del,
    test_lsp_set_addresses, test_lsp_set_enabled, test_lsp_set_options, test_lsp_set_port_security,
    test_lsp_set_type,
};
use crate::tests_routes::{
    test_lr_nat_add, test_lr_nat_del, test_lr_route_add, test_lr_route_del, test_smb_add,
    test_smb_del,
};
use crate::tests_sets::{
    test_as_add, test_as_del, test_as_set, test_pg_add, test_pg_del, test_pg_set_ports,
};
use nb_records::{Edit, Refusal};
use nb_store::Records;
use nb_words::LineFault;
use std::alloc::Global;

// The same answer, its refusal as a fault of the line.
fn refused(answer: Result<Edit, Refusal>) -> Result<Edit, LineFault>
    ensures ok { (net : Network) (edit : Edit) → IfOk answer (Passes net edit) → IfOk result (Passes net edit) }
    ensures refused { (net : Network) (edit : Edit) → IfErr answer (Refuses net edit) → IfErr result (IsFaultOf (tested net edit)) }
{
    match answer {
        Ok(edit) => Ok(edit),
        Err(refusal) => Err(LineFault::Refused(refusal)),
    }
}

/// The edit, where no test refuses it but perhaps that of the limits; else, as `LineFault::Refused`, the refusal of the first test
/// that fails (ovn-nbctl(8)). Only to name a port of a group that is not there takes memory: where there is none, `LineFault::Memory`.
pub fn tested(alloc: Global, records: &Records, edit: Edit) -> Result<Edit, LineFault>
    requires sound { IsSound records.now }
    requires readable { IsReadable edit }
    ensures ok { IfOk result (λ passed. Passes records.now edit passed) }
    ensures refused { IfErr result (λ fault. IsFaultOf (tested records.now edit) fault) }
{
    match edit {
        Edit::LsAdd { name, may_exist } => refused(test_ls_add(records, name, may_exist)),
        Edit::LrAdd { name, may_exist } => refused(test_lr_add(records, name, may_exist)),
        Edit::LsDel { name, if_exists } => refused(test_ls_del(records, name, if_exists)),
        Edit::LrDel { name, if_exists } => refused(test_lr_del(records, name, if_exists)),
        Edit::LspAdd {
            switch,
            port,
            may_exist,
        } => refused(test_lsp_add(records, switch, port, may_exist)),
        Edit::LspDel { port, if_exists } => refused(test_lsp_del(records, port, if_exists)),
        Edit::LspSetAddresses { port, addresses } => refused(test_lsp_set_addresses(
            records, port, addresses,
        )),
        Edit::LspSetPortSecurity { port, guards } => refused(test_lsp_set_port_security(
            records, port, guards,
        )),
        Edit::LspSetType { port, kind } => refused(test_lsp_set_type(records, port, kind)),
        Edit::LspSetOptions { port, router_port } => refused(test_lsp_set_options(
            records,
            port,
            router_port,
        )),
        Edit::LspSetEnabled { port, enabled } => refused(test_lsp_set_enabled(
            records, port, enabled,
        )),
        Edit::LrpSetEnabled { port, enabled } => refused(test_lrp_set_enabled(
            records, port, enabled,
        )),
        Edit::LrpAdd {
            router,
            port,
            mac,
            nets,
            may_exist,
        } => refused(test_lrp_add(records, router, port, mac, nets, may_exist)),
        Edit::LrpDel { port, if_exists } => refused(test_lrp_del(records, port, if_exists)),
        Edit::LrRouteAdd {
            router,
            prefix,
            nexthop,
            port,
            by,
        } => refused(test_lr_route_add(records, router, prefix, nexthop, port, by)),
        Edit::LrRouteDel {
            router,
            prefix,
            if_exists,
            by,
        } => refused(test_lr_route_del(records, router, prefix, if_exists, by)),
        Edit::LrNatAdd {
            router,
            kind,
            external,
            logical,
        } => refused(test_lr_nat_add(records, router, kind, external, logical)),
        Edit::LrNatDel {
            router,
            kind,
            addr,
            if_exists,
        } => refused(test_lr_nat_del(records, router, kind, addr, if_exists)),
        Edit::LbAdd {
            lb,
            at,
            backends,
            proto,
        } => refused(test_lb_add(records, lb, at, backends, proto)),
        Edit::LbDel { lb, at, if_exists } => refused(test_lb_del(records, lb, at, if_exists)),
        Edit::LsLbAdd {
            switch,
            lb,
            may_exist,
        } => refused(test_ls_lb_add(records, switch, lb, may_exist)),
        Edit::LrLbAdd {
            router,
            lb,
            may_exist,
        } => refused(test_lr_lb_add(records, router, lb, may_exist)),
        Edit::LsLbDel {
            switch,
            lb,
            if_exists,
        } => refused(test_ls_lb_del(records, switch, lb, if_exists)),
        Edit::LrLbDel {
            router,
            lb,
            if_exists,
        } => refused(test_lr_lb_del(records, router, lb, if_exists)),
        Edit::AclAdd {
            owner,
            way,
            priority,
            matching,
            verdict,
            may_exist,
            of,
        } => refused(test_acl_add(
            records, owner, way, priority, matching, verdict, may_exist, of,
        )),
        Edit::AclDel {
            owner,
            way,
            rule,
            of,
        } => refused(test_acl_del(records, owner, way, rule, of)),
        Edit::PgAdd { name, ports } => test_pg_add(alloc, records, name, ports),
        Edit::PgSetPorts { name, ports } => test_pg_set_ports(alloc, records, name, ports),
        Edit::PgDel { name, if_exists } => refused(test_pg_del(records, name, if_exists)),
        Edit::AsAdd { name, members } => refused(test_as_add(records, name, members)),
        Edit::AsSet { name, members } => refused(test_as_set(records, name, members)),
        Edit::AsDel { name, if_exists } => refused(test_as_del(records, name, if_exists)),
        Edit::SmbAdd { port, addr, mac } => refused(test_smb_add(records, port, addr, mac)),
        Edit::SmbDel {
            port,
            addr,
            if_exists,
        } => refused(test_smb_del(records, port, addr, if_exists)),
    }
}
