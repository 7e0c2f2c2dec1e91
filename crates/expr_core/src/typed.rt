ghost use Rattle.expr_core.specs.Text.{typed_writing};

use crate::text::put_typed_atom;
use crate::{Bits, Pred, Rel, Right, TreeAtom};
use nv_base::{Field, Kept, OutOfMemory};
use std::alloc::Global;

/// A match without operators, whose part is known.
#[derive(PartialEq, Eq, Drop)]
pub enum TypedAtom {
    /// `0` or `1`.
    Truth(bool),
    /// A part of a field, which is one bit wide.
    Bare(Field, Bits),
    /// A predicate.
    Holds(Pred),
    /// A comparison of a part of a field.
    Compare(Field, Bits, Rel, Right),
}

impl TreeAtom for TypedAtom {
    ghost writing = { typed_writing };

    fn copy_atom(&self, alloc: Global) -> Result<Self, OutOfMemory> {
        Ok(match self {
            TypedAtom::Truth(holds) => TypedAtom::Truth(*holds),
            TypedAtom::Bare(field, bits) => TypedAtom::Bare(*field, *bits),
            TypedAtom::Holds(predicate) => TypedAtom::Holds(*predicate),
            TypedAtom::Compare(field, bits, rel, right) => {
                TypedAtom::Compare(*field, *bits, *rel, right.copy(alloc)?)
            }
        })
    }

    fn is_comparison(&self) -> bool {
        matches!(self, TypedAtom::Compare(..))
    }

    fn put(&self, out: &mut Vec<u8>) -> Result<(), OutOfMemory> {
        put_typed_atom(out, self)
    }
}
