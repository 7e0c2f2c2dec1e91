ghost use Rattle.std.specs.Prelude.{◌≡◌, IfOk};
ghost use Rattle.nb_records.specs.inner.Exact as tells;

use crate::{
    Acl, Addr, AddrSet, Backend, Binding, Frontend, Group, Guard, Lb, Member, Nat, NatKind, Port,
    PortKind, Proto, Route, RouteBy, Router, RouterPort, Rule, Switch, Tag, Verdict, Vip, Way,
};
use nv_base::{Kept, OutOfMemory};
use std::alloc::Global;

impl Kept for PortKind {
    ghost exact = { tells.port_kind };

    fn copy(&self, _alloc: Global) -> Result<Self, OutOfMemory> {
        Ok(*self)
    }
}

impl Kept for RouteBy {
    ghost exact = { tells.route_by };

    fn copy(&self, _alloc: Global) -> Result<Self, OutOfMemory> {
        Ok(*self)
    }
}

impl Kept for NatKind {
    ghost exact = { tells.nat_kind };

    fn copy(&self, _alloc: Global) -> Result<Self, OutOfMemory> {
        Ok(*self)
    }
}

impl Kept for Proto {
    ghost exact = { tells.proto };

    fn copy(&self, _alloc: Global) -> Result<Self, OutOfMemory> {
        Ok(*self)
    }
}

impl Kept for Way {
    ghost exact = { tells.way };

    fn copy(&self, _alloc: Global) -> Result<Self, OutOfMemory> {
        Ok(*self)
    }
}

impl Kept for Verdict {
    ghost exact = { tells.verdict };

    fn copy(&self, _alloc: Global) -> Result<Self, OutOfMemory> {
        Ok(*self)
    }
}

impl Kept for Frontend {
    ghost exact = { tells.frontend };

    fn copy(&self, _alloc: Global) -> Result<Self, OutOfMemory> {
        Ok(*self)
    }
}

impl Kept for Backend {
    ghost exact = { tells.backend };

    fn copy(&self, _alloc: Global) -> Result<Self, OutOfMemory> {
        Ok(*self)
    }
}

impl Kept for Addr {
    ghost exact = { tells.addr };

    fn copy(&self, alloc: Global) -> Result<Self, OutOfMemory> {
        Ok(match self {
            Addr::Unknown => Addr::Unknown,
            Addr::Router => Addr::Router,
            Addr::Host { mac, ips } => Addr::Host {
                mac: *mac,
                ips: ips.copy(alloc)?,
            },
        })
    }
}

impl Kept for Guard {
    ghost exact = { tells.guard };

    fn copy(&self, alloc: Global) -> Result<Self, OutOfMemory> {
        Ok(Guard {
            mac: self.mac,
            nets: self.nets.copy(alloc)?,
        })
    }
}

impl Kept for Member {
    ghost exact = { tells.member };

    fn copy(&self, _alloc: Global) -> Result<Self, OutOfMemory> {
        Ok(*self)
    }
}

impl Kept for Vip {
    ghost exact = { tells.vip };

    fn copy(&self, alloc: Global) -> Result<Self, OutOfMemory> {
        Ok(Vip {
            at: self.at,
            backends: self.backends.copy(alloc)?,
        })
    }
}

impl Kept for Switch {
    ghost exact = { tells.switch };

    fn copy(&self, alloc: Global) -> Result<Self, OutOfMemory> {
        Ok(Switch {
            id: self.id,
            name: self.name.copy(alloc)?,
            lbs: self.lbs.copy(alloc)?,
        })
    }
}

impl Kept for Port {
    ghost exact = { tells.port };

    fn copy(&self, alloc: Global) -> Result<Self, OutOfMemory> {
        Ok(Port {
            id: self.id,
            switch: self.switch,
            name: self.name.copy(alloc)?,
            kind: self.kind,
            router_port: self.router_port.copy(alloc)?,
            addresses: self.addresses.copy(alloc)?,
            security: self.security.copy(alloc)?,
            enabled: self.enabled,
        })
    }
}

impl Kept for Router {
    ghost exact = { tells.router };

    fn copy(&self, alloc: Global) -> Result<Self, OutOfMemory> {
        Ok(Router {
            id: self.id,
            name: self.name.copy(alloc)?,
            lbs: self.lbs.copy(alloc)?,
        })
    }
}

impl Kept for RouterPort {
    ghost exact = { tells.router_port };

    fn copy(&self, alloc: Global) -> Result<Self, OutOfMemory> {
        Ok(RouterPort {
            id: self.id,
            router: self.router,
            name: self.name.copy(alloc)?,
            mac: self.mac,
            nets: self.nets.copy(alloc)?,
            enabled: self.enabled,
        })
    }
}

impl Kept for Route {
    ghost exact = { tells.route };

    fn copy(&self, alloc: Global) -> Result<Self, OutOfMemory> {
        Ok(Route {
            id: self.id,
            router: self.router,
            by: self.by,
            prefix: self.prefix,
            nexthop: self.nexthop,
            port: self.port.copy(alloc)?,
        })
    }
}

impl Kept for Nat {
    ghost exact = { tells.nat };

    fn copy(&self, alloc: Global) -> Result<Self, OutOfMemory> {
        Ok(Nat {
            id: self.id,
            router: self.router,
            kind: self.kind,
            external: self.external,
            logical: self.logical,
        })
    }
}

impl Kept for Binding {
    ghost exact = { tells.binding };

    fn copy(&self, alloc: Global) -> Result<Self, OutOfMemory> {
        Ok(Binding {
            id: self.id,
            port: self.port,
            addr: self.addr,
            mac: self.mac,
        })
    }
}

impl Kept for Lb {
    ghost exact = { tells.lb };

    fn copy(&self, alloc: Global) -> Result<Self, OutOfMemory> {
        Ok(Lb {
            id: self.id,
            name: self.name.copy(alloc)?,
            proto: self.proto,
            vips: self.vips.copy(alloc)?,
        })
    }
}

impl Kept for Acl {
    ghost exact = { tells.acl };

    fn copy(&self, alloc: Global) -> Result<Self, OutOfMemory> {
        Ok(Acl {
            id: self.id,
            owner: self.owner,
            way: self.way,
            priority: self.priority,
            matching: self.matching.copy(alloc)?,
            verdict: self.verdict,
        })
    }
}

impl Kept for AddrSet {
    ghost exact = { tells.addr_set };

    fn copy(&self, alloc: Global) -> Result<Self, OutOfMemory> {
        Ok(AddrSet {
            id: self.id,
            name: self.name.copy(alloc)?,
            members: self.members.copy(alloc)?,
        })
    }
}

impl Kept for Group {
    ghost exact = { tells.group };

    fn copy(&self, alloc: Global) -> Result<Self, OutOfMemory> {
        Ok(Group {
            id: self.id,
            name: self.name.copy(alloc)?,
            ports: self.ports.copy(alloc)?,
        })
    }
}

impl Kept for Rule {
    ghost exact = { tells.rule };

    fn copy(&self, _alloc: Global) -> Result<Self, OutOfMemory> {
        Ok(*self)
    }
}

impl Kept for Tag {
    ghost exact = { tells.tag };

    fn copy(&self, alloc: Global) -> Result<Self, OutOfMemory> {
        Ok(match self {
            Tag::Named(name) => Tag::Named(name.copy(alloc)?),
            Tag::Of(owner) => Tag::Of(*owner),
            Tag::Names(name) => Tag::Names(name.copy(alloc)?),
            Tag::Lists(object) => Tag::Lists(*object),
            Tag::Says(owner, rule) => Tag::Says(*owner, *rule),
            Tag::Has(ip) => Tag::Has(*ip),
            Tag::HasMany => Tag::HasMany,
        })
    }
}
