ghost use Rattle.std.specs.Prelude.{◌≡◌, IfOk};
ghost use Rattle.lr_rows.specs.inner.Exact as tells;

use crate::{
    BindingInput, Exit, Host, NatRuleInput, NeighbourInput, PortInInput, PortRouteInput,
    RouterNatInput, StaticRouteInput, VipAddrInput,
};
use nv_base::{Kept, OutOfMemory};
use std::alloc::Global;

impl Kept for PortInInput {
    ghost exact = { tells.port_in };

    fn copy(&self, alloc: Global) -> Result<Self, OutOfMemory> {
        Ok(PortInInput {
            dp: self.dp,
            name: self.name.copy(alloc)?,
            enabled: self.enabled,
            mac: self.mac,
            nets: self.nets.copy(alloc)?,
            free: self.free.copy(alloc)?,
        })
    }
}

impl Kept for PortRouteInput {
    ghost exact = { tells.port_route };

    fn copy(&self, alloc: Global) -> Result<Self, OutOfMemory> {
        Ok(PortRouteInput {
            dp: self.dp,
            name: self.name.copy(alloc)?,
            enabled: self.enabled,
            mac: self.mac,
            nets: self.nets.copy(alloc)?,
        })
    }
}

impl Kept for Exit {
    ghost exact = { tells.exit };

    fn copy(&self, alloc: Global) -> Result<Self, OutOfMemory> {
        Ok(Exit {
            name: self.name.copy(alloc)?,
            mac: self.mac,
            addr: self.addr,
        })
    }
}

impl Kept for StaticRouteInput {
    ghost exact = { tells.static_route };

    fn copy(&self, alloc: Global) -> Result<Self, OutOfMemory> {
        Ok(StaticRouteInput {
            dp: self.dp,
            by: self.by,
            prefix: self.prefix,
            nexthop: self.nexthop,
            found: self.found.copy(alloc)?,
        })
    }
}

impl Kept for Host {
    ghost exact = { tells.host };

    fn copy(&self, _alloc: Global) -> Result<Self, OutOfMemory> {
        Ok(*self)
    }
}

impl Kept for BindingInput {
    ghost exact = { tells.binding };

    fn copy(&self, alloc: Global) -> Result<Self, OutOfMemory> {
        Ok(BindingInput {
            dp: self.dp,
            name: self.name.copy(alloc)?,
            host: self.host,
        })
    }
}

impl Kept for NeighbourInput {
    ghost exact = { tells.neighbour };

    fn copy(&self, alloc: Global) -> Result<Self, OutOfMemory> {
        Ok(NeighbourInput {
            dp: self.dp,
            name: self.name.copy(alloc)?,
            hosts: self.hosts.copy(alloc)?,
        })
    }
}

impl Kept for RouterNatInput {
    ghost exact = { tells.router_nat };

    fn copy(&self, _alloc: Global) -> Result<Self, OutOfMemory> {
        Ok(*self)
    }
}

impl Kept for NatRuleInput {
    ghost exact = { tells.nat_rule };

    fn copy(&self, _alloc: Global) -> Result<Self, OutOfMemory> {
        Ok(*self)
    }
}

impl Kept for VipAddrInput {
    ghost exact = { tells.vip_addr };

    fn copy(&self, _alloc: Global) -> Result<Self, OutOfMemory> {
        Ok(*self)
    }
}
