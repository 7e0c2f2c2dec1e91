ghost use Rattle.std.specs.Prelude.{◌≡◌};
ghost use Rattle.pkt_micro.specs.declared.fault.MicroFault.TheVariants.{Memory};

use nv_base::{Field, OutOfMemory};
use thiserror::Error;

/// Why a match is no microflow.
#[derive(Clone, Copy, Debug, Error)]
pub enum MicroFault {
    /// It is no conjunction of equalities with one number each, of the predicates `ip4`, `arp`, `tcp`, `udp`, `icmp4`,
    /// and of `1`.
    #[error("no conjunction of equalities")]
    NotConjunction,
    /// The first field that is given two values, in the order of the fields' numbers.
    #[error("two values of {0:?}")]
    Contradiction(Field),
    /// It does not say by which port the packet comes in.
    #[error("no inport")]
    NoInport,
    /// Memory ran out.
    #[error("out of memory")]
    Memory,
}

impl From<OutOfMemory> for MicroFault {
    ghost from_gives = { λ _ fault. fault ≡ Memory };

    fn from(_: OutOfMemory) -> Self {
        MicroFault::Memory
    }
}
