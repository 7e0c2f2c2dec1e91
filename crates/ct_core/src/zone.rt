ghost use Rattle.std.proofs.Common.{rules};
ghost use Rattle.std.specs.Cmp.Rules.{hashing};
ghost use Rattle.ct_core.specs.inner.Zone.{zone_writes};
ghost use Rattle.ct_core.specs.inner.Exact as tells;

use nv_base::ObjId;
use std::hash::{Hash, Hasher};

/// A zone of connections, in which packets are looked up by themselves (ovn-sb(5), `ct_next`, `ct_dnat` and `ct_snat`): that
/// of a switch's port, and the two of a router.
#[derive(Clone, Copy, PartialEq, Eq)]
pub enum Zone {
    /// The zone of a port of a switch.
    Port(ObjId),
    /// The zone of a router in which destinations are translated.
    Dnat(ObjId),
    /// The zone of a router in which sources are translated.
    Snat(ObjId),
}

impl Hash for Zone {
    ghost hash_input = { zone_writes };

    ghost respects_eq = { tells.alike };

    fn hash<H: Hasher>(&self, state: &mut H) {
        match self {
            Zone::Port(port) => {
                state.write_u8(0);
                state.write_u32(port.0);
            }
            Zone::Dnat(router) => {
                state.write_u8(1);
                state.write_u32(router.0);
            }
            Zone::Snat(router) => {
                state.write_u8(2);
                state.write_u32(router.0);
            }
        }
    }
}
