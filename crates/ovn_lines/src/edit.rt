use crate::parts::{
    put_addresses, put_backends, put_frontend, put_guards, put_if, put_maybe_frontend,
    put_maybe_name, put_maybe_nat_kind, put_maybe_net, put_maybe_rule, put_maybe_way, put_members,
    put_name, put_names, put_nat_kind, put_net, put_nets, put_owner_kind, put_policy, put_proto,
    put_rule, put_spaced_ip, put_spaced_mac, put_verdict, put_way,
};
use nb_records::{Edit, Member, OwnerKind, PortKind, Verdict};
use nv_base::{Mac, Name, OutOfMemory, Prefix};

// A variant, and the name of what it edits.
fn put_named(out: &mut Vec<u8>, variant: &[u8], name: &Name) -> Result<(), OutOfMemory> {
    out.extend_from_slice(variant)?;
    put_name(out, name)
}

// A variant, a name, and a word where it holds.
fn put_flagged(
    out: &mut Vec<u8>,
    variant: &[u8],
    name: &Name,
    holds: bool,
    word: &[u8],
) -> Result<(), OutOfMemory> {
    put_named(out, variant, name)?;
    put_if(out, holds, word)
}

// A variant, two names, and a word where it holds.
fn put_pair(
    out: &mut Vec<u8>,
    variant: &[u8],
    owner: &Name,
    name: &Name,
    holds: bool,
    word: &[u8],
) -> Result<(), OutOfMemory> {
    put_named(out, variant, owner)?;
    put_name(out, name)?;
    put_if(out, holds, word)
}

// A variant, a name and names.
fn put_list(
    out: &mut Vec<u8>,
    variant: &[u8],
    name: &Name,
    names: &[Name],
) -> Result<(), OutOfMemory> {
    put_named(out, variant, name)?;
    put_names(out, names)
}

// A variant, the name of an address set, and its members.
fn put_set(
    out: &mut Vec<u8>,
    variant: &[u8],
    name: &Name,
    members: &[Member],
) -> Result<(), OutOfMemory> {
    put_named(out, variant, name)?;
    put_members(out, members)
}

// A variant, the name of a switch or a router, and the load balancer that it leaves.
fn put_left_balancer(
    out: &mut Vec<u8>,
    variant: &[u8],
    owner: &Name,
    lb: &Option<Name>,
    if_exists: bool,
) -> Result<(), OutOfMemory> {
    put_named(out, variant, owner)?;
    put_maybe_name(out, lb)?;
    put_if(out, if_exists, b"if-exists")
}

/// Appends the edit: its variant, and its parts.
pub(crate) fn put_edit(out: &mut Vec<u8>, edit: &Edit) -> Result<(), OutOfMemory> {
    put_switch_edit(out, edit)
}

fn put_switch_edit(out: &mut Vec<u8>, edit: &Edit) -> Result<(), OutOfMemory> {
    match edit {
        Edit::LsAdd { name, may_exist } => {
            put_flagged(out, b"LsAdd", name, *may_exist, b"may-exist")
        }
        Edit::LsDel { name, if_exists } => {
            put_flagged(out, b"LsDel", name, *if_exists, b"if-exists")
        }
        Edit::LspAdd {
            switch,
            port,
            may_exist,
        } => { put_pair(out, b"LspAdd", switch, port, *may_exist, b"may-exist") }
        Edit::LspDel { port, if_exists } => {
            put_flagged(out, b"LspDel", port, *if_exists, b"if-exists")
        }
        Edit::LspSetAddresses { port, addresses } => {
            put_named(out, b"LspSetAddresses", port)?;
            put_addresses(out, addresses.as_slice())
        }
        Edit::LspSetPortSecurity { port, guards } => {
            put_named(out, b"LspSetPortSecurity", port)?;
            put_guards(out, guards.as_slice())
        }
        Edit::LspSetType { port, kind } => {
            put_flagged(
                out,
                b"LspSetType",
                port,
                *kind == PortKind::Router,
                b"router",
            )
        }
        Edit::LspSetOptions { port, router_port } => {
            put_named(out, b"LspSetOptions", port)?;
            put_maybe_name(out, router_port)
        }
        Edit::LspSetEnabled { port, enabled } => {
            put_flagged(out, b"LspSetEnabled", port, *enabled, b"enabled")
        }
        _ => put_router_edit(out, edit),
    }
}

// The addresses of a router's port, and whether it may be there.
fn put_addressed(
    out: &mut Vec<u8>,
    mac: Mac,
    nets: &[Prefix],
    may_exist: bool,
) -> Result<(), OutOfMemory> {
    put_spaced_mac(out, mac)?;
    put_nets(out, nets)?;
    put_if(out, may_exist, b"may-exist")
}

fn put_router_edit(out: &mut Vec<u8>, edit: &Edit) -> Result<(), OutOfMemory> {
    match edit {
        Edit::LrAdd { name, may_exist } => {
            put_flagged(out, b"LrAdd", name, *may_exist, b"may-exist")
        }
        Edit::LrDel { name, if_exists } => {
            put_flagged(out, b"LrDel", name, *if_exists, b"if-exists")
        }
        Edit::LrpSetEnabled { port, enabled } => {
            put_flagged(out, b"LrpSetEnabled", port, *enabled, b"enabled")
        }
        Edit::LrpAdd {
            router,
            port,
            mac,
            nets,
            may_exist,
        } => {
            put_named(out, b"LrpAdd", router)?;
            put_name(out, port)?;
            put_addressed(out, *mac, nets.as_slice(), *may_exist)
        }
        Edit::LrpDel { port, if_exists } => {
            put_flagged(out, b"LrpDel", port, *if_exists, b"if-exists")
        }
        Edit::SmbAdd { port, addr, mac } => {
            put_named(out, b"SmbAdd", port)?;
            put_spaced_ip(out, *addr)?;
            put_spaced_mac(out, *mac)
        }
        Edit::SmbDel {
            port,
            addr,
            if_exists,
        } => {
            put_named(out, b"SmbDel", port)?;
            put_spaced_ip(out, *addr)?;
            put_if(out, *if_exists, b"if-exists")
        }
        _ => put_route_edit(out, edit),
    }
}

fn put_route_edit(out: &mut Vec<u8>, edit: &Edit) -> Result<(), OutOfMemory> {
    match edit {
        Edit::LrRouteAdd {
            router,
            prefix,
            nexthop,
            port,
            by,
        } => {
            put_named(out, b"LrRouteAdd", router)?;
            put_net(out, *prefix)?;
            put_spaced_ip(out, *nexthop)?;
            put_maybe_name(out, port)?;
            put_policy(out, *by)
        }
        Edit::LrRouteDel {
            router,
            prefix,
            if_exists,
            by,
        } => {
            put_named(out, b"LrRouteDel", router)?;
            put_maybe_net(out, *prefix)?;
            put_if(out, *if_exists, b"if-exists")?;
            put_policy(out, *by)
        }
        Edit::LrNatAdd {
            router,
            kind,
            external,
            logical,
        } => {
            put_named(out, b"LrNatAdd", router)?;
            put_nat_kind(out, *kind)?;
            put_spaced_ip(out, *external)?;
            put_net(out, *logical)
        }
        Edit::LrNatDel {
            router,
            kind,
            addr,
            if_exists,
        } => {
            put_named(out, b"LrNatDel", router)?;
            put_maybe_nat_kind(out, *kind)?;
            put_maybe_net(out, *addr)?;
            put_if(out, *if_exists, b"if-exists")
        }
        _ => put_balancer_edit(out, edit),
    }
}

fn put_balancer_edit(out: &mut Vec<u8>, edit: &Edit) -> Result<(), OutOfMemory> {
    match edit {
        Edit::LbAdd {
            lb,
            at,
            backends,
            proto,
        } => {
            put_named(out, b"LbAdd", lb)?;
            put_frontend(out, *at)?;
            put_backends(out, backends.as_slice())?;
            put_proto(out, *proto)
        }
        Edit::LbDel { lb, at, if_exists } => {
            put_named(out, b"LbDel", lb)?;
            put_maybe_frontend(out, *at)?;
            put_if(out, *if_exists, b"if-exists")
        }
        Edit::LsLbAdd {
            switch,
            lb,
            may_exist,
        } => { put_pair(out, b"LsLbAdd", switch, lb, *may_exist, b"may-exist") }
        Edit::LrLbAdd {
            router,
            lb,
            may_exist,
        } => { put_pair(out, b"LrLbAdd", router, lb, *may_exist, b"may-exist") }
        Edit::LsLbDel {
            switch,
            lb,
            if_exists,
        } => { put_left_balancer(out, b"LsLbDel", switch, lb, *if_exists) }
        Edit::LrLbDel {
            router,
            lb,
            if_exists,
        } => { put_left_balancer(out, b"LrLbDel", router, lb, *if_exists) }
        _ => put_acl_edit(out, edit),
    }
}

// What an ACL does, whether it may be there, and what it is of.
fn put_outcome(
    out: &mut Vec<u8>,
    verdict: Verdict,
    may_exist: bool,
    of: Option<OwnerKind>,
) -> Result<(), OutOfMemory> {
    put_verdict(out, verdict)?;
    put_if(out, may_exist, b"may-exist")?;
    put_owner_kind(out, of)
}

fn put_acl_edit(out: &mut Vec<u8>, edit: &Edit) -> Result<(), OutOfMemory> {
    match edit {
        Edit::AclAdd {
            owner,
            way,
            priority,
            matching,
            verdict,
            may_exist,
            of,
        } => {
            put_named(out, b"AclAdd", owner)?;
            put_way(out, *way)?;
            put_rule(out, *priority, matching)?;
            put_outcome(out, *verdict, *may_exist, *of)
        }
        Edit::AclDel {
            owner,
            way,
            rule,
            of,
        } => {
            put_named(out, b"AclDel", owner)?;
            put_maybe_way(out, *way)?;
            put_maybe_rule(out, rule)?;
            put_owner_kind(out, *of)
        }
        _ => put_set_edit(out, edit),
    }
}

fn put_set_edit(out: &mut Vec<u8>, edit: &Edit) -> Result<(), OutOfMemory> {
    match edit {
        Edit::PgAdd { name, ports } => { put_list(out, b"PgAdd", name, ports.as_slice()) }
        Edit::PgSetPorts { name, ports } => { put_list(out, b"PgSetPorts", name, ports.as_slice()) }
        Edit::PgDel { name, if_exists } => {
            put_flagged(out, b"PgDel", name, *if_exists, b"if-exists")
        }
        Edit::AsAdd { name, members } => { put_set(out, b"AsAdd", name, members.as_slice()) }
        Edit::AsSet { name, members } => { put_set(out, b"AsSet", name, members.as_slice()) }
        Edit::AsDel { name, if_exists } => {
            put_flagged(out, b"AsDel", name, *if_exists, b"if-exists")
        }
        _ => Ok(()),
    }
}
