//! What the editing commands of ovn-nbctl(8) ask for.
use crate::{
    Addr, Backend, Frontend, Guard, Member, NatKind, PortKind, Proto, RouteBy, Verdict, Way,
};
use expr_core::Typed;
use nv_base::{Ip4, Items, Mac, Name, Prefix};

/// Whose ACLs a command is about (ovn-nbctl(8), `--type`).
#[derive(Clone, Copy)]
pub enum OwnerKind {
    /// `switch`
    Switch,
    /// `port-group`
    Group,
}

/// One editing command. `may_exist` and `if_exists` say whether the option of that name stands.
#[derive(Drop)]
pub enum Edit {
    /// `ls-add NAME`
    LsAdd {
        name: Name,
        may_exist: bool,
    },
    /// `lr-add NAME`
    LrAdd {
        name: Name,
        may_exist: bool,
    },
    /// `ls-del NAME`
    LsDel {
        name: Name,
        if_exists: bool,
    },
    /// `lr-del NAME`
    LrDel {
        name: Name,
        if_exists: bool,
    },
    /// `lsp-add SWITCH PORT`
    LspAdd {
        switch: Name,
        port: Name,
        may_exist: bool,
    },
    /// `lsp-del PORT`
    LspDel {
        port: Name,
        if_exists: bool,
    },
    /// `lsp-set-addresses PORT [ADDRESS]...`
    LspSetAddresses {
        port: Name,
        addresses: Items<Addr>,
    },
    /// `lsp-set-port-security PORT [GUARD]...`
    LspSetPortSecurity {
        port: Name,
        guards: Items<Guard>,
    },
    /// `lsp-set-type PORT TYPE`
    LspSetType {
        port: Name,
        kind: PortKind,
    },
    /// `lsp-set-options PORT [router-port=NAME]`
    LspSetOptions {
        port: Name,
        router_port: Option<Name>,
    },
    /// `lsp-set-enabled PORT enabled` or `disabled`
    LspSetEnabled {
        port: Name,
        enabled: bool,
    },
    /// `lrp-set-enabled PORT enabled` or `disabled`
    LrpSetEnabled {
        port: Name,
        enabled: bool,
    },
    /// `lrp-add ROUTER PORT MAC NETWORK...`
    LrpAdd {
        router: Name,
        port: Name,
        mac: Mac,
        nets: Items<Prefix>,
        may_exist: bool,
    },
    /// `lrp-del PORT`
    LrpDel {
        port: Name,
        if_exists: bool,
    },
    /// `[--policy=POLICY] lr-route-add ROUTER PREFIX NEXTHOP [PORT]`
    LrRouteAdd {
        router: Name,
        prefix: Prefix,
        nexthop: Ip4,
        port: Option<Name>,
        by: Option<RouteBy>,
    },
    /// `[--policy=POLICY] lr-route-del ROUTER [PREFIX]`
    LrRouteDel {
        router: Name,
        prefix: Option<Prefix>,
        if_exists: bool,
        by: Option<RouteBy>,
    },
    /// `lr-nat-add ROUTER TYPE EXTERNAL LOGICAL`
    LrNatAdd {
        router: Name,
        kind: NatKind,
        external: Ip4,
        logical: Prefix,
    },
    /// `lr-nat-del ROUTER [TYPE [IP]]`: the address is the external one or, for `snat`, the logical prefix.
    LrNatDel {
        router: Name,
        kind: Option<NatKind>,
        addr: Option<Prefix>,
        if_exists: bool,
    },
    /// `lb-add LB VIP BACKENDS [PROTOCOL]`
    LbAdd {
        lb: Name,
        at: Frontend,
        backends: Items<Backend>,
        proto: Option<Proto>,
    },
    /// `lb-del LB [VIP]`
    LbDel {
        lb: Name,
        at: Option<Frontend>,
        if_exists: bool,
    },
    /// `ls-lb-add SWITCH LB`
    LsLbAdd {
        switch: Name,
        lb: Name,
        may_exist: bool,
    },
    /// `lr-lb-add ROUTER LB`
    LrLbAdd {
        router: Name,
        lb: Name,
        may_exist: bool,
    },
    /// `ls-lb-del SWITCH [LB]`
    LsLbDel {
        switch: Name,
        lb: Option<Name>,
        if_exists: bool,
    },
    /// `lr-lb-del ROUTER [LB]`
    LrLbDel {
        router: Name,
        lb: Option<Name>,
        if_exists: bool,
    },
    /// `[--type=TYPE] acl-add OWNER DIRECTION PRIORITY MATCH VERDICT`
    AclAdd {
        owner: Name,
        way: Way,
        priority: u16,
        matching: Typed,
        verdict: Verdict,
        may_exist: bool,
        of: Option<OwnerKind>,
    },
    /// `[--type=TYPE] acl-del OWNER [DIRECTION [PRIORITY MATCH]]`
    AclDel {
        owner: Name,
        way: Option<Way>,
        /// The priority and the match.
        rule: Option<(u16, Typed)>,
        of: Option<OwnerKind>,
    },
    /// `pg-add NAME [PORT]...`
    PgAdd {
        name: Name,
        ports: Items<Name>,
    },
    /// `pg-set-ports NAME [PORT]...`
    PgSetPorts {
        name: Name,
        ports: Items<Name>,
    },
    /// `pg-del NAME`
    PgDel {
        name: Name,
        if_exists: bool,
    },
    /// `as-add NAME [MEMBER]...`
    AsAdd {
        name: Name,
        members: Items<Member>,
    },
    /// `as-set NAME [MEMBER]...`
    AsSet {
        name: Name,
        members: Items<Member>,
    },
    /// `as-del NAME`
    AsDel {
        name: Name,
        if_exists: bool,
    },
    /// `smb-add LRP IP MAC`
    SmbAdd {
        port: Name,
        addr: Ip4,
        mac: Mac,
    },
    /// `smb-del LRP IP`
    SmbDel {
        port: Name,
        addr: Ip4,
        if_exists: bool,
    },
}
