ghost use Rattle.std.specs.Prelude.{◌≡◌, ◌==◌, ◌||◌, ◌-◌, ◌<◌, ◌≤◌, ◌↔◌, ◌++◌, ◌∷◌, [], true, not, length, take, slice_get, IfOk, OnOk, OnErr, IsTrue, Some, Err};
ghost use Rattle.std.specs.List.{find, position};
ghost use Rattle.pkt_core.specs.Prerequisite.{is_ip4};
ghost use Rattle.ct_core.specs.declared.look.Look.TheVariants.{Found};
ghost use Rattle.ct_core.specs.Changes.{AreConnections, connection_limit, marked, recorded, without_zone};
ghost use Rattle.ct_core.specs.declared.look.Side.TheVariants.{Orig, Reply};
ghost use Rattle.ct_core.specs.Entry.{has};
ghost use Rattle.ct_core.specs.Look.{blocked_at, look};
ghost use Rattle.ct_core.specs.Translation.{is_free, ports, snat_port};
ghost use Rattle.ct_core.specs.inner.Exact.{zones_equal};
ghost use Rattle.ct_table.specs.declared.conns.CtFault.TheVariants.{Full};

use crate::index::{put_first, put_zone, renumber, take_place, take_zone};
use crate::key::Key;
use ct_core::{Entry, Look, Side, Zone, sought, unfound};
use indexmap::{IndexMap, IndexSet};
use nv_base::{Ip4, OutOfMemory, Prerequisite};
use pkt_core::{Packet, Tuple};
use std::alloc::Global;
use std::marker::Model;
use thiserror::Error;

/// How many connections there may be (not from OVN).
const CONNECTION_LIMIT: usize = 65_536;

// The protocols over IPv4 that have ports.
const TCP: u8 = 6;

const UDP: u8 = 17;

/// Why no entry is recorded.
#[derive(Clone, Copy, Debug, PartialEq, Eq, Error)]
pub enum CtFault {
    /// There are as many connections as there may be.
    #[error("the list of connections is full")]
    Full,
    /// Memory ran out.
    #[error("out of memory")]
    Memory,
}

/// The connections that are tracked, in the order in which they were recorded. A clause sees the list of their entries.
#[derive(Drop)]
pub struct Conns {
    entries: Vec<Entry>,
    // The first place of each key of either direction, and zones, those that have an entry among them.
    origs: IndexMap<Key, u32>,
    replies: IndexMap<Key, u32>,
    zones: IndexSet<Zone>,
}

impl Model for Conns {
    ghost use Rattle.std.specs.Prelude.{List};
    ghost use Rattle.ct_core.specs.declared.entry.Entry.{Entry};
    ghost use Rattle.ct_table.specs.inner.Index.{IsIndexed};

    ghost Value = { List Entry };

    ghost view = { λ conns. conns.entries.items };

    ghost invariant = { λ conns. IsIndexed conns.entries.items conns.origs conns.replies conns.zones };
}

impl Conns {
    /// No connections. It takes no memory.
    pub fn new(alloc: Global) -> Self
        ensures { result ≡ [] }
    {
        Conns {
            entries: Vec::new(alloc),
            origs: IndexMap::new(alloc),
            replies: IndexMap::new(alloc),
            zones: IndexSet::new(alloc),
        }
    }

    /// How many connections there are, at most 65,536.
    pub fn len(&self) -> usize
        ensures count { result ≡ length self.now }
        ensures connections { AreConnections self.now }
    {
        self.entries.len()
    }

    /// Whether there are none.
    pub fn is_empty(&self) -> bool
        ensures { IsTrue result ↔ (self.now ≡ []) }
    {
        self.entries.is_empty()
    }

    /// What is known of an IPv4 packet in a zone (ovn-sb(5), `ct_next`). Its cost does not grow with the list.
    pub fn classify(&self, zone: Zone, packet: &Packet) -> Look
        requires { is_ip4 packet.now ≡ true }
        ensures { result ≡ look self.now zone packet.now }
    {
        let key = Key {
            zone,
            tuple: sought(packet),
        };
        let related = packet.meets(Prerequisite::IcmpError);
        match self.origs.get(&key) {
            Some(place) => self.found(*place, Side::Orig, related),
            None => match self.replies.get(&key) {
                Some(place) => self.found(*place, Side::Reply, related),
                None => unfound(packet),
            },
        }
    }

    /// The place of the first entry of a zone whose original direction has the tuple. `None` exactly where there is none.
    pub fn first_orig(&self, zone: Zone, tuple: &Tuple) -> Option<u32>
        ensures { result ≡ position (has Orig zone tuple.now) self.now }
    {
        let key = Key {
            zone,
            tuple: *tuple,
        };
        self.origs.get(&key).copied()
    }

    /// The place of the first entry of a zone whose reply direction has the tuple. `None` exactly where there is none.
    pub fn first_reply(&self, zone: Zone, tuple: &Tuple) -> Option<u32>
        ensures { result ≡ position (has Reply zone tuple.now) self.now }
    {
        let key = Key {
            zone,
            tuple: *tuple,
        };
        self.replies.get(&key).copied()
    }

    // The entry at a place is found.
    fn found(&self, place: u32, side: Side, related: bool) -> Look
        requires { place < length self.now }
        ensures { result ≡ Found place side related (blocked_at self.now place) }
    {
        Look::Found {
            place,
            side,
            related,
            blocked: self.entries[place as usize].blocked,
        }
    }

    /// Records an entry, last in the list, and answers its place (ovn-sb(5), `ct_commit`). `Full` exactly where there are
    /// 65,536 entries. After either fault the list is as before.
    pub fn commit(&mut self, entry: Entry) -> Result<u32, CtFault>
        ensures ok { OnOk result (recorded entry self.old ≡ Some self.new) }
        ensures place { IfOk result (λ place. place ≡ length self.old) }
        ensures full { (result ≡ Err Full) ↔ (length self.old ≡ connection_limit) }
        ensures err { OnErr result (self.new ≡ self.old) }
    {
        if self.entries.len() >= CONNECTION_LIMIT {
            return Err(CtFault::Full);
        }
        match self.record(entry) {
            Ok(place) => Ok(place),
            Err(OutOfMemory) => Err(CtFault::Memory),
        }
    }

    // Puts an entry last. There is room for it among the connections. All memory is taken before anything is changed.
    fn record(&mut self, entry: Entry) -> Result<u32, OutOfMemory>
        requires { length self.old < connection_limit }
        ensures ok { OnOk result (self.new ≡ self.old ++ entry ∷ []) }
        ensures place { IfOk result (λ place. place ≡ length self.old) }
        ensures err { OnErr result (self.new ≡ self.old) }
    {
        entry.fits();
        self.entries.reserve(1)?;
        self.origs.reserve(1)?;
        self.replies.reserve(1)?;
        self.zones.reserve(1)?;
        let place = self.entries.len() as u32;
        put_first(&mut self.origs, Key::of(&entry, Side::Orig), place);
        put_first(&mut self.replies, Key::of(&entry, Side::Reply), place);
        put_zone(&mut self.zones, entry.zone);
        self.entries.push_reserved(entry);
        Ok(place)
    }

    /// Marks the entry at a place, which is there, as blocked or not (ovn-sb(5), `ct_commit` with `ct_mark`).
    pub fn mark(&mut self, place: u32, blocked: bool)
        requires { place < length self.old }
        ensures { self.new ≡ marked place blocked self.old }
    {
        self.entries[place as usize].blocked = blocked;
    }

    /// The entry at a place, counted from 0. `None` exactly where the list has no such place.
    pub fn entry(&self, place: u32) -> Option<Entry>
        ensures { result ≡ slice_get self.now place }
    {
        self.entries.get(place as usize).copied()
    }

    /// The source port that a new connection of this tuple gets with an external address (modelled on `ct_snat` of ovn-sb(5);
    /// which one is not from OVN): its own where no connection of the zone has the reply that this gives, else for TCP and
    /// UDP the least such port from 1024 to 65535. `None` exactly where there is none.
    pub fn snat_port(&self, zone: Zone, tuple: Tuple, external: Ip4) -> Option<u16>
        ensures { result ≡ snat_port self.now zone tuple external }
    {
        if self.is_free(zone, tuple, external, tuple.sport) {
            Some(tuple.sport)
        } else if has_ports(tuple.proto) {
            self.least_free(zone, tuple, external)
        } else {
            None
        }
    }

    // The least port that is free.
    fn least_free(&self, zone: Zone, tuple: Tuple, external: Ip4) -> Option<u16>
        ensures { result ≡ find (is_free self.now zone external tuple) (ports 1024 (65536 - 1024)) }
    {
        for port in 1024..65_536_u32 {
            if self.is_free(zone, tuple, external, port as u16) {
                return Some(port as u16);
            }
        }
        None
    }

    // Whether no connection of the zone has the reply that this source gives.
    fn is_free(&self, zone: Zone, tuple: Tuple, external: Ip4, port: u16) -> bool
        ensures { result ≡ is_free self.now zone external tuple port }
    {
        let translated = Tuple {
            src: external,
            sport: port,
            ..tuple
        };
        self.first_reply(zone, &translated.swap()).is_none()
    }

    /// Takes the entries of a zone out; those after them move up. Where none of the zone was recorded since it was last taken out,
    /// it costs one look.
    pub fn drop_zone(&mut self, zone: Zone)
        ensures { self.new ≡ without_zone zone self.old }
    {
        if !self.zones.swap_remove(&zone) {
            return;
        }
        self.entries.retain(
            |entry: &Entry| -> bool
                ensures { result ≡ not (zones_equal entry.now.zone zone) }
            { entry.zone != zone },
        );
        take_zone(&mut self.origs, zone);
        take_zone(&mut self.replies, zone);
        renumber(&mut self.origs, &self.entries, Side::Orig);
        renumber(&mut self.replies, &self.entries, Side::Reply);
    }

    /// Leaves the first entries, so many, and takes those after them out; there are as many. It takes no memory, and costs by the
    /// number of entries that go.
    pub fn cut_back(&mut self, len: usize)
        requires { len ≤ length self.old }
        ensures { self.new ≡ take len self.old }
    {
        while self.entries.len() > len {
            self.take_last();
        }
    }

    // Takes the last entry out, where there is one, and its keys where no entry before it has them. Its zone stays among the zones.
    fn take_last(&mut self)
        ensures { self.new ≡ take (length self.old - 1) self.old }
    {
        if let Some(entry) = self.entries.pop() {
            let place = self.entries.len() as u32;
            take_place(&mut self.origs, Key::of(&entry, Side::Orig), place);
            take_place(&mut self.replies, Key::of(&entry, Side::Reply), place);
        }
    }

    /// Takes all entries out (modelled on `dpctl/flush-conntrack` of ovs-appctl(8)).
    pub fn flush(&mut self)
        ensures { self.new ≡ [] }
    {
        self.entries.clear();
        self.origs.clear();
        self.replies.clear();
        self.zones.clear();
    }

    /// An equal list. Where memory runs out the answer is `OutOfMemory`.
    pub fn copy(&self) -> Result<Conns, OutOfMemory>
        ensures { IfOk result (λ copied. copied ≡ self.now) }
    {
        let mut copied = Conns::new(*self.entries.allocator());
        for entry in &self.entries {
            copied.record(*entry)?;
        }
        Ok(copied)
    }
}

// Whether it is a protocol that has ports.
fn has_ports(protocol: u8) -> bool
    ensures { result ≡ ((protocol == 6) || (protocol == 17)) }
{
    protocol == TCP || protocol == UDP
}
