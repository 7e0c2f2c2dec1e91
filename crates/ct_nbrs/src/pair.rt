ghost use Rattle.ct_nbrs.specs.inner.Pair.{pair_alike, pair_writes};

use nv_base::{Ip4, ObjId};
use std::hash::{Hash, Hasher};

/// What a neighbour is found by: the router's port that knows it, and its address.
#[derive(Clone, Copy, PartialEq, Eq)]
pub(crate) struct Pair {
    pub(crate) port: ObjId,
    pub(crate) addr: Ip4,
}

impl Hash for Pair {
    ghost hash_input = { pair_writes };

    ghost respects_eq = { pair_alike };

    fn hash<H: Hasher>(&self, state: &mut H) {
        state.write_u32(self.port.0);
        state.write_u32(self.addr.0);
    }
}
