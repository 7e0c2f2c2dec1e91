ghost use Rattle.std.specs.Prelude.{◌≡◌};
ghost use Rattle.ct_table.specs.inner.Key.{key_alike, key_on, key_writes};

use ct_core::{Entry, Side, Zone};
use pkt_core::Tuple;
use std::hash::{Hash, Hasher};

/// What an entry is found by: its zone, and the tuple of a direction.
#[derive(Clone, Copy, PartialEq, Eq)]
pub(crate) struct Key {
    pub(crate) zone: Zone,
    pub(crate) tuple: Tuple,
}

impl Key {
    /// That of an entry, in a direction.
    pub(crate) fn of(entry: &Entry, side: Side) -> Key
        ensures { result ≡ key_on side entry.now }
    {
        Key {
            zone: entry.zone,
            tuple: entry.tuple(side),
        }
    }
}

impl Hash for Key {
    ghost hash_input = { key_writes };

    ghost respects_eq = { key_alike };

    fn hash<H: Hasher>(&self, state: &mut H) {
        self.zone.hash(state);
        state.write_u8(self.tuple.proto);
        state.write_u32(self.tuple.src.0);
        state.write_u16(self.tuple.sport);
        state.write_u32(self.tuple.dst.0);
        state.write_u16(self.tuple.dport);
    }
}
