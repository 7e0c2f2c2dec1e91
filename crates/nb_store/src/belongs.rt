//! Records by what they belong to, and by what they list. Each is looked for above a number, where one is given, so that a loop
//! goes over all of them.
ghost use Rattle.std.specs.Prelude.{◌≡◌, ◌&&◌, ◌==◌, not, if◌then◌else◌, find};
ghost use Rattle.std.specs.Option.{option_copied};
ghost use Rattle.expr_digest.specs.Digest.{digest as digest_of};
ghost use Rattle.nb_model.specs.Belongs.{is_among, same_policy, same_block, same_way, is_snat};
ghost use Rattle.nb_model.specs.Network.{same};
ghost use Rattle.nb_records.specs.declared.tag.Rule.TheVariants as rule;
ghost use Rattle.nv_table.specs.Table.{is_after};

use crate::records::Records;
use nb_records::{
    Acl, Binding, Group, Nat, NatKind, Port, Route, RouteBy, Router, RouterPort, Rule, Switch, Tag,
    Way,
};
use nv_base::{Ip4, ObjId, Prefix};

impl Records {
    /// The first port of a switch, above a number where one is given.
    pub fn port_on(&self, switch: ObjId, after: Option<ObjId>) -> Option<&Port>
        ensures { option_copied result ≡ find (λ port. is_after after port.id && same switch port.switch) self.now.ports }
    {
        // The ports of a switch mostly come one after the other: then the index is not needed.
        match self.ports.after(after) {
            Some(port) if switch.0 == port.switch.0 => Some(port),
            _ => self.ports.tagged(&Tag::Of(switch), after),
        }
    }

    /// The first port of a router, above a number where one is given.
    pub fn router_port_on(&self, router: ObjId, after: Option<ObjId>) -> Option<&RouterPort>
        ensures { option_copied result ≡ find (λ port. is_after after port.id && same router port.router) self.now.router_ports }
    {
        self.router_ports.tagged(&Tag::Of(router), after)
    }

    /// The first route of a router, above a number where one is given.
    pub fn route_of(&self, router: ObjId, after: Option<ObjId>) -> Option<&Route>
        ensures { option_copied result ≡ find (λ route. is_after after route.id && same router route.router) self.now.routes }
    {
        self.routes.tagged(&Tag::Of(router), after)
    }

    /// The first NAT rule of a router, above a number where one is given.
    pub fn nat_of(&self, router: ObjId, after: Option<ObjId>) -> Option<&Nat>
        ensures { option_copied result ≡ find (λ nat. is_after after nat.id && same router nat.router) self.now.nats }
    {
        self.nats.tagged(&Tag::Of(router), after)
    }

    /// The first ACL of a switch or a group, above a number where one is given.
    pub fn acl_of(&self, owner: ObjId, after: Option<ObjId>) -> Option<&Acl>
        ensures { option_copied result ≡ find (λ acl. is_after after acl.id && same owner acl.owner) self.now.acls }
    {
        self.acls.tagged(&Tag::Of(owner), after)
    }

    /// The first static binding of a router port, above a number where one is given.
    pub fn binding_of(&self, port: ObjId, after: Option<ObjId>) -> Option<&Binding>
        ensures { option_copied result ≡ find (λ binding. is_after after binding.id && same port binding.port) self.now.bindings }
    {
        self.bindings.tagged(&Tag::Of(port), after)
    }

    /// The first switch that has a load balancer, above a number where one is given.
    pub fn switch_with(&self, lb: ObjId, after: Option<ObjId>) -> Option<&Switch>
        ensures { option_copied result ≡ find (λ switch. is_after after switch.id && is_among lb switch.lbs) self.now.switches }
    {
        self.switches.tagged(&Tag::Lists(lb), after)
    }

    /// The first router that has a load balancer, above a number where one is given.
    pub fn router_with(&self, lb: ObjId, after: Option<ObjId>) -> Option<&Router>
        ensures { option_copied result ≡ find (λ router. is_after after router.id && is_among lb router.lbs) self.now.routers }
    {
        self.routers.tagged(&Tag::Lists(lb), after)
    }

    /// The first group that has a port, above a number where one is given.
    pub fn group_with(&self, port: ObjId, after: Option<ObjId>) -> Option<&Group>
        ensures { option_copied result ≡ find (λ group. is_after after group.id && is_among port group.ports) self.now.groups }
    {
        self.groups.tagged(&Tag::Lists(port), after)
    }

    /// The route of a router that has this policy and is for this prefix.
    pub fn route_saying(&self, router: ObjId, by: RouteBy, prefix: Prefix) -> Option<&Route>
        ensures { option_copied result ≡ find (λ route. same router route.router && same_policy by route.by && same_block prefix route.prefix) self.now.routes }
    {
        let rule = route_rule(by, prefix);
        self.routes.tagged(&Tag::Says(router, rule), None)
    }

    /// The first ACL of an owner of this direction and priority whose match has this digest, above a number where one is given.
    pub(crate) fn acl_saying(
        &self,
        owner: ObjId,
        way: Way,
        priority: u16,
        digest: u64,
        after: Option<ObjId>,
    ) -> Option<&Acl>
        ensures { option_copied result ≡ find (λ acl. is_after after acl.id && (same owner acl.owner && (same_way way acl.way && ((priority == acl.priority) && (digest == digest_of acl.matching))))) self.now.acls }
    {
        let rule = Rule::Acl {
            way,
            priority,
            digest,
        };
        self.acls.tagged(&Tag::Says(owner, rule), after)
    }

    /// The static binding of a router port for this address.
    pub fn binding_saying(&self, port: ObjId, addr: Ip4) -> Option<&Binding>
        ensures { option_copied result ≡ find (λ binding. same port binding.port && (addr.0 == binding.addr.0)) self.now.bindings }
    {
        self.bindings
            .tagged(&Tag::Says(port, Rule::Binding(addr)), None)
    }

    /// The NAT rule of a router that a rule of this kind and with these addresses would repeat.
    pub fn nat_saying(
        &self,
        router: ObjId,
        kind: NatKind,
        external: Ip4,
        logical: Prefix,
    ) -> Option<&Nat>
        ensures { option_copied result ≡ find (λ nat. same router nat.router && (if is_snat kind then is_snat nat.kind && same_block logical nat.logical else not (is_snat nat.kind) && (external.0 == nat.external.0))) self.now.nats }
    {
        let rule = nat_rule(kind, external, logical);
        self.nats.tagged(&Tag::Says(router, rule), None)
    }
}

// What a route of this policy, for this prefix, says of its router.
fn route_rule(by: RouteBy, prefix: Prefix) -> Rule
    ensures { result ≡ rule.Route by prefix.base prefix.len }
{
    Rule::Route {
        by,
        base: prefix.base,
        len: prefix.len,
    }
}

// What a NAT rule of this kind says of its router.
fn nat_rule(kind: NatKind, external: Ip4, logical: Prefix) -> Rule
    ensures { result ≡ (if is_snat kind then rule.Snat logical.base logical.len else rule.Dnat external) }
{
    match kind {
        NatKind::Snat => Rule::Snat {
            base: logical.base,
            len: logical.len,
        },
        NatKind::Dnat | NatKind::DnatAndSnat => Rule::Dnat(external),
    }
}
