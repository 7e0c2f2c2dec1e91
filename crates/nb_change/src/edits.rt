//! Edits of the network, each by its name.
ghost use Rattle.std.specs.Prelude.{◌≡◌, OnOk, OnErr, IfOk};
ghost use Rattle.nb_model.specs.Effect.{effect};
ghost use Rattle.nb_model.specs.Readable.{IsReadable};
ghost use Rattle.nb_model.specs.Sound.{IsSound};
ghost use Rattle.nb_store.specs.Undo.{back, back_steps};

use crate::acl_edits::acl_del;
use crate::acls::acl_add;
use crate::balancers::{lb_add, lb_del, lr_lb_add, lr_lb_del, ls_lb_add, ls_lb_del};
use crate::groups::{pg_add, pg_del, pg_set_ports};
use crate::ports::{PortChange, lsp_add, lsp_del, lsp_set};
use crate::routers::{lr_add, lr_del, lrp_add, lrp_del, lrp_set_enabled};
use crate::routes::{lr_nat_add, lr_nat_del, lr_route_add, lr_route_del, smb_add, smb_del};
use crate::sets::{as_add, as_del, as_set};
use crate::switches::{ls_add, ls_del};
use nb_records::Edit;
use nb_store::{Records, Undo, Work};
use nv_base::OutOfMemory;
use std::alloc::Global;
use std::mem;

/// Does what an edit of a sound network asks for, and answers what undoes it (ovn-nbctl(8)). Whether the edit is to be refused is
/// not asked here. After `OutOfMemory` the network is as before.
pub fn edit(alloc: Global, records: &mut Records, edit: Edit) -> Result<Undo, OutOfMemory>
    requires sound { IsSound records.old }
    requires readable { IsReadable edit }
    ensures ok { OnOk result (records.new ≡ effect records.old edit) }
    ensures back { IfOk result (λ undo. back undo records.new ≡ records.old) }
    ensures err { OnErr result (records.new ≡ records.old) }
{
    let old = mem::replace(records, Records::new());
    let (new, result) = edited(alloc, old, edit);
    drop(mem::replace(records, new));
    result
}

// The records after the edit and what undoes it, or as they were, where memory ran out.
fn edited(alloc: Global, records: Records, edit: Edit) -> (Records, Result<Undo, OutOfMemory>)
    requires sound { IsSound records }
    requires readable { IsReadable edit }
    ensures ok { OnOk result.1 (result.0 ≡ effect records edit) }
    ensures back { IfOk result.1 (λ undo. back undo result.0 ≡ records) }
    ensures err { OnErr result.1 (result.0 ≡ records) }
{
    let mut work = Work::new(alloc, records);
    match run(&mut work, alloc, edit) {
        Ok(()) => {
            let (records, undo) = work.finish();
            (records, Ok(undo))
        }
        Err(_) => (work.abandon(), Err(OutOfMemory)),
    }
}

// Does what the edit asks for.
fn run(work: &mut Work, alloc: Global, edit: Edit) -> Result<(), OutOfMemory>
    requires sound { IsSound work.old.records }
    requires readable { IsReadable edit }
    ensures ok { OnOk result (work.new.records ≡ effect work.old.records edit) }
    ensures back { back_steps work.new.steps.items work.new.records ≡ back_steps work.old.steps.items work.old.records }
{
    match edit {
        Edit::LsAdd { name, may_exist } => ls_add(work, alloc, name, may_exist),
        Edit::LrAdd { name, may_exist } => lr_add(work, alloc, name, may_exist),
        Edit::LsDel { name, if_exists } => ls_del(work, alloc, &name, if_exists),
        Edit::LrDel { name, if_exists } => lr_del(work, &name, if_exists),
        Edit::LspAdd {
            switch,
            port,
            may_exist,
        } => lsp_add(work, alloc, &switch, port, may_exist),
        Edit::LspDel { port, if_exists } => lsp_del(work, alloc, &port, if_exists),
        Edit::LspSetAddresses { port, addresses } => lsp_set(
            work,
            alloc,
            &port,
            PortChange::Addresses(addresses),
        ),
        Edit::LspSetPortSecurity { port, guards } => lsp_set(
            work,
            alloc,
            &port,
            PortChange::Security(guards),
        ),
        Edit::LspSetType { port, kind } => lsp_set(work, alloc, &port, PortChange::Kind(kind)),
        Edit::LspSetOptions { port, router_port } => lsp_set(
            work,
            alloc,
            &port,
            PortChange::RouterPort(router_port),
        ),
        Edit::LspSetEnabled { port, enabled } => lsp_set(
            work,
            alloc,
            &port,
            PortChange::Enabled(enabled),
        ),
        Edit::LrpSetEnabled { port, enabled } => lrp_set_enabled(work, alloc, port, enabled),
        Edit::LrpAdd {
            router,
            port,
            mac,
            nets,
            may_exist,
        } => lrp_add(work, alloc, &router, port, mac, nets, may_exist),
        Edit::LrpDel { port, if_exists } => lrp_del(work, &port, if_exists),
        Edit::LrRouteAdd {
            router,
            prefix,
            nexthop,
            port,
            by,
        } => lr_route_add(work, alloc, &router, prefix, nexthop, port, by),
        Edit::LrRouteDel {
            router,
            prefix,
            if_exists,
            by,
        } => lr_route_del(work, &router, prefix, if_exists, by),
        Edit::LrNatAdd {
            router,
            kind,
            external,
            logical,
        } => lr_nat_add(work, alloc, &router, kind, external, logical),
        Edit::LrNatDel {
            router,
            kind,
            addr,
            if_exists,
        } => lr_nat_del(work, &router, kind, addr, if_exists),
        Edit::LbAdd {
            lb,
            at,
            backends,
            proto,
        } => lb_add(work, alloc, lb, at, backends, proto),
        Edit::LbDel { lb, at, if_exists } => lb_del(work, alloc, &lb, at, if_exists),
        Edit::LsLbAdd {
            switch,
            lb,
            may_exist,
        } => ls_lb_add(work, alloc, &switch, &lb, may_exist),
        Edit::LrLbAdd {
            router,
            lb,
            may_exist,
        } => lr_lb_add(work, alloc, &router, &lb, may_exist),
        Edit::LsLbDel {
            switch,
            lb,
            if_exists,
        } => ls_lb_del(work, alloc, switch, &lb, if_exists),
        Edit::LrLbDel {
            router,
            lb,
            if_exists,
        } => lr_lb_del(work, alloc, router, &lb, if_exists),
        Edit::AclAdd {
            owner,
            way,
            priority,
            matching,
            verdict,
            may_exist,
            of,
        } => acl_add(
            work, alloc, &owner, way, priority, matching, verdict, may_exist, of,
        ),
        Edit::AclDel {
            owner,
            way,
            rule,
            of,
        } => acl_del(work, &owner, way, &rule, of),
        Edit::PgAdd { name, ports } => pg_add(work, alloc, name, &ports),
        Edit::PgSetPorts { name, ports } => pg_set_ports(work, alloc, name, &ports),
        Edit::PgDel { name, if_exists } => pg_del(work, &name, if_exists),
        Edit::AsAdd { name, members } => as_add(work, alloc, name, members),
        Edit::AsSet { name, members } => as_set(work, alloc, name, members),
        Edit::AsDel { name, if_exists } => as_del(work, &name, if_exists),
        Edit::SmbAdd { port, addr, mac } => smb_add(work, alloc, &port, addr, mac),
        Edit::SmbDel {
            port,
            addr,
            if_exists,
        } => smb_del(work, &port, addr, if_exists),
    }
}
