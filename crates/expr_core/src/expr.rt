ghost use Rattle.expr_core.specs.Text.{expr_writing};

use crate::text::put_read_atom;
use crate::{Part, Rel, Right, TreeAtom};
use nv_base::{Kept, OutOfMemory};
use std::alloc::Global;

/// A match without operators, as it was read.
#[derive(PartialEq, Eq, Drop)]
pub enum Atom {
    /// `0` or `1`.
    Truth(bool),
    /// A part alone.
    Bare(Part),
    /// A comparison.
    Compare(Part, Rel, Right),
}

impl TreeAtom for Atom {
    ghost writing = { expr_writing };

    fn copy_atom(&self, alloc: Global) -> Result<Self, OutOfMemory> {
        Ok(match self {
            Atom::Truth(holds) => Atom::Truth(*holds),
            Atom::Bare(part) => Atom::Bare(part.copy(alloc)?),
            Atom::Compare(part, rel, right) => {
                Atom::Compare(part.copy(alloc)?, *rel, right.copy(alloc)?)
            }
        })
    }

    fn is_comparison(&self) -> bool {
        matches!(self, Atom::Compare(..))
    }

    fn put(&self, out: &mut Vec<u8>) -> Result<(), OutOfMemory> {
        put_read_atom(out, self)
    }
}
