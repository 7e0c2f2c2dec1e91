//! Records with two kinds of tags, for the tests of tables.
ghost use Rattle.std.specs.Prelude.{◌≡◌, IfOk};

use nv_base::{Items, Kept, Name, ObjId, OutOfMemory};
use nv_map::Probe;
use nv_table::Record;
use std::alloc::Global;
use std::cmp::Ordering;

/// What a port is found by.
#[derive(Drop, PartialEq, Eq, PartialOrd, Ord)]
pub enum PortTag {
    Named(Name),
    On(ObjId),
}

impl Kept for PortTag {
    ghost use Rattle.base_tests.specs.inner.Tags.{exact_tags};

    ghost exact = { exact_tags };

    fn copy(&self, alloc: Global) -> Result<Self, OutOfMemory> {
        match self {
            PortTag::Named(name) => Ok(PortTag::Named(name.copy(alloc)?)),
            PortTag::On(switch) => Ok(PortTag::On(*switch)),
        }
    }
}

/// A tag whose name is borrowed.
#[derive(Clone, Copy)]
pub enum TagRef<'a> {
    Named(&'a Name),
    On(ObjId),
}

impl<'a> Probe<PortTag> for TagRef<'a> {
    ghost use Rattle.nv_map.specs.inner.Keys.{keys_part};
    ghost use Rattle.base_tests.specs.contracts.ports.PortTagOrd.TheImpl.Laws.{total-law};
    ghost use Rattle.base_tests.specs.inner.Tags.{tag_of};

    ghost order = { λ tag. ⟦<PortTag as Ord>⟧.cmp (tag_of tag) };

    ghost parts = { λ tag. keys_part total-law (tag_of tag) };

    fn compare(&self, key: &PortTag) -> Ordering {
        match (*self, key) {
            (TagRef::Named(name), PortTag::Named(other)) => name.cmp(other),
            (TagRef::Named(_), PortTag::On(_)) => Ordering::Less,
            (TagRef::On(_), PortTag::Named(_)) => Ordering::Greater,
            (TagRef::On(switch), PortTag::On(other)) => switch.cmp(other),
        }
    }
}

/// A port of a switch. Its name is a tag that it has twice.
#[derive(Drop, PartialEq, Eq)]
pub struct Port {
    pub id: ObjId,
    pub name: Name,
    pub switch: ObjId,
    pub size: u64,
}

impl Record for Port {
    ghost use Rattle.base_tests.specs.inner.Tags.{tags_of};

    type Tag = PortTag;

    ghost number = { λ port. port.id };

    ghost tags = { tags_of };

    ghost weight = { λ port. (port.size, 1) };

    fn number(&self) -> ObjId {
        self.id
    }

    fn tags(&self, alloc: Global) -> Result<Items<PortTag>, OutOfMemory> {
        let first = PortTag::Named(self.name.copy(alloc)?);
        let last = PortTag::Named(self.name.copy(alloc)?);
        let tags = vec![in alloc; first, PortTag::On(self.switch), last]?;
        Ok(Items::from_items(tags))
    }

    fn tag_count(&self) -> usize {
        3
    }

    fn compare_tag(&self, place: usize, tag: &PortTag) -> Ordering {
        match place {
            1 => TagRef::On(self.switch).compare(tag),
            _ => TagRef::Named(&self.name).compare(tag),
        }
    }

    fn weight(&self) -> (u64, u64) {
        (self.size, 1)
    }
}
