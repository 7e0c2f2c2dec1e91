ghost use Rattle.std.specs.Prelude.{◌≡◌};
ghost use Rattle.expr_check.specs.declared.fault.TypeFault.TheVariants.{Memory};

use nv_base::OutOfMemory;
use thiserror::Error;

/// Why a match is not allowed in its role. The offset is that of the part's name, in bytes from the beginning of the
/// text.
#[derive(Clone, Copy, Debug, Error)]
pub enum TypeFault {
    /// The name is no field's and no predicate's.
    #[error("unknown field at byte {0}")]
    UnknownField(u32),
    /// A bit, a constant, a mask or the length of a prefix is too large.
    #[error("too wide at byte {0}")]
    WrongWidth(u32),
    /// The field or predicate is not used so.
    #[error("wrong form at byte {0}")]
    WrongForm(u32),
    /// The field or predicate may not be asked for in this role.
    #[error("not allowed here, at byte {0}")]
    NotAllowedHere(u32),
    /// There was no memory for the match.
    #[error("out of memory")]
    Memory,
}

impl From<OutOfMemory> for TypeFault {
    ghost from_gives = { λ _ fault. fault ≡ Memory };

    fn from(_: OutOfMemory) -> Self {
        TypeFault::Memory
    }
}
