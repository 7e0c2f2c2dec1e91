ghost use Rattle.std.specs.Prelude.{◌≡◌, IfOk};
ghost use Rattle.net_rows.specs.inner.Exact as tells;

use crate::{
    AclOnInput, PortAclInput, PortL2Input, PortSecInput, SwitchAclInput, SwitchL2Input, VipInput,
};
use nv_base::{Kept, OutOfMemory};
use std::alloc::Global;

impl Kept for PortSecInput {
    ghost exact = { tells.port_sec };

    fn copy(&self, alloc: Global) -> Result<Self, OutOfMemory> {
        Ok(PortSecInput {
            dp: self.dp,
            name: self.name.copy(alloc)?,
            enabled: self.enabled,
            security: self.security.copy(alloc)?,
        })
    }
}

impl Kept for SwitchAclInput {
    ghost exact = { tells.switch_acl };

    fn copy(&self, _alloc: Global) -> Result<Self, OutOfMemory> {
        Ok(*self)
    }
}

impl Kept for PortAclInput {
    ghost exact = { tells.port_acl };

    fn copy(&self, alloc: Global) -> Result<Self, OutOfMemory> {
        Ok(PortAclInput {
            dp: self.dp,
            name: self.name.copy(alloc)?,
        })
    }
}

impl Kept for AclOnInput {
    ghost exact = { tells.acl_on };

    fn copy(&self, alloc: Global) -> Result<Self, OutOfMemory> {
        Ok(AclOnInput {
            way: self.way,
            priority: self.priority,
            matching: self.matching.copy(alloc)?,
            verdict: self.verdict,
            tracks: self.tracks,
        })
    }
}

impl Kept for SwitchL2Input {
    ghost exact = { tells.switch_l2 };

    fn copy(&self, _alloc: Global) -> Result<Self, OutOfMemory> {
        Ok(*self)
    }
}

impl Kept for PortL2Input {
    ghost exact = { tells.port_l2 };

    fn copy(&self, alloc: Global) -> Result<Self, OutOfMemory> {
        Ok(PortL2Input {
            dp: self.dp,
            name: self.name.copy(alloc)?,
            enabled: self.enabled,
            kind: self.kind,
            addresses: self.addresses.copy(alloc)?,
            peer_mac: self.peer_mac.copy(alloc)?,
        })
    }
}

impl Kept for VipInput {
    ghost exact = { tells.vip };

    fn copy(&self, alloc: Global) -> Result<Self, OutOfMemory> {
        Ok(VipInput {
            at: self.at,
            proto: self.proto,
            backends: self.backends.copy(alloc)?,
        })
    }
}
