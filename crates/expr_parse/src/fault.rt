ghost use Rattle.std.specs.Prelude.{◌≡◌};

use nv_base::OutOfMemory;
use std::alloc::AllocFailed;
use thiserror::Error;

/// Why a text is no match. An offset is in bytes from the beginning of the text.
#[derive(Clone, Copy, Debug, PartialEq, Eq, Error)]
pub enum MatchFault {
    /// No reading of the tokens before continues with the token at this offset, or no token begins there.
    #[error("syntax error at byte {0}")]
    Syntax(u32),
    /// `&&` or `||` at this offset, after units that the other operator joined.
    #[error("&& and || without parentheses at byte {0}")]
    Mixed(u32),
    /// `(` or `!` at this offset opens the 65th level.
    #[error("more than 64 levels at byte {0}")]
    TooDeep(u32),
    /// There was no memory for the tree.
    #[error("out of memory")]
    Memory,
}

impl From<OutOfMemory> for MatchFault {
    ghost use Rattle.expr_parse.specs.declared.fault.MatchFault.TheVariants.{Memory};

    ghost from_gives = { λ _ fault. fault ≡ Memory };

    fn from(_error: OutOfMemory) -> MatchFault {
        MatchFault::Memory
    }
}

impl<T: Drop> From<AllocFailed<T>> for MatchFault {
    ghost use Rattle.expr_parse.specs.declared.fault.MatchFault.TheVariants.{Memory};

    ghost from_gives = { λ _ fault. fault ≡ Memory };

    fn from(_error: AllocFailed<T>) -> MatchFault {
        MatchFault::Memory
    }
}
