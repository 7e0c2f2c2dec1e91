ghost use Rattle.expr_core.specs.inner.Exact as tells;

use crate::tree::copy_tree;
use crate::{Bits, Const, Item, Pred, Rel, Right, Tree, TreeAtom, TypedAtom};
use nv_base::{Kept, OutOfMemory};
use std::alloc::Global;

impl Kept for Rel {
    ghost exact = { tells.rel };

    fn copy(&self, _alloc: Global) -> Result<Self, OutOfMemory> {
        Ok(*self)
    }
}

impl Kept for Pred {
    ghost exact = { tells.predicate };

    fn copy(&self, _alloc: Global) -> Result<Self, OutOfMemory> {
        Ok(*self)
    }
}

impl Kept for Bits {
    ghost exact = { tells.bits };

    fn copy(&self, _alloc: Global) -> Result<Self, OutOfMemory> {
        Ok(*self)
    }
}

impl Kept for Const {
    ghost exact = { tells.constant };

    fn copy(&self, _alloc: Global) -> Result<Self, OutOfMemory> {
        Ok(*self)
    }
}

impl Kept for Item {
    ghost exact = { tells.item };

    fn copy(&self, alloc: Global) -> Result<Self, OutOfMemory> {
        Ok(match self {
            Item::One(constant) => Item::One(*constant),
            Item::Masked(constant, mask) => Item::Masked(*constant, *mask),
            Item::Text(name) => Item::Text(name.copy(alloc)?),
            Item::AddrSet(name) => Item::AddrSet(name.copy(alloc)?),
            Item::Group(name) => Item::Group(name.copy(alloc)?),
        })
    }
}

impl Kept for Right {
    ghost exact = { tells.right };

    fn copy(&self, alloc: Global) -> Result<Self, OutOfMemory> {
        Ok(match self {
            Right::Item(item) => Right::Item(item.copy(alloc)?),
            Right::Set(items) => Right::Set(items.copy(alloc)?),
        })
    }
}

impl Kept for TypedAtom {
    ghost exact = { tells.typed_atom };

    fn copy(&self, alloc: Global) -> Result<Self, OutOfMemory> {
        self.copy_atom(alloc)
    }
}

impl<A: Kept + TreeAtom + Drop> Kept for Tree<A> {
    ghost exact = { tells.formula A.eq A.exact };

    fn copy(&self, alloc: Global) -> Result<Self, OutOfMemory> {
        copy_tree(alloc, self)
    }
}
