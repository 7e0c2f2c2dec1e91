ghost use Rattle.std.specs.Prelude.{◌≡◌, ◌↔◌, [], not, ◌==◌, ◌||◌, nat_lt, length, take, slice_get, IfOk, OnOk, OnErr, IsTrue};
ghost use Rattle.std.specs.Option.{option_map};
ghost use Rattle.ct_core.specs.Neighbours.{AreNeighbours, is_known, learnt, neighbour_limit, neighbour_of, without_port};
ghost use Rattle.ct_nbrs.specs.Back.{put_back};

use crate::pair::Pair;
use ct_core::Neighbour;
use indexmap::IndexMap;
use nv_base::{Ip4, Mac, ObjId, OutOfMemory};
use std::alloc::Global;
use std::marker::Model;

/// How many neighbours may be known (not from OVN).
const NEIGHBOUR_LIMIT: usize = 65_536;

/// What routers' ports have learnt of their neighbours, in the order in which they first learnt it. A clause sees the list.
#[derive(Drop)]
pub struct Neighbours {
    macs: IndexMap<Pair, Mac>,
}

impl Model for Neighbours {
    ghost use Rattle.std.specs.Prelude.{List};
    ghost use Rattle.ct_core.specs.declared.neighbour.Neighbour.{Neighbour};
    ghost use Rattle.ct_core.specs.Neighbours.{AreNeighbours};
    ghost use Rattle.ct_nbrs.specs.Held.{neighbours_of};

    ghost Value = { List Neighbour };

    ghost view = { λ nbrs. neighbours_of nbrs.macs.entries };

    ghost invariant = { λ nbrs. AreNeighbours (neighbours_of nbrs.macs.entries) };
}

impl Neighbours {
    /// No neighbours. It takes no memory.
    pub fn new(alloc: Global) -> Self
        ensures { result ≡ [] }
    {
        Neighbours {
            macs: IndexMap::new(alloc),
        }
    }

    /// How many neighbours are known, at most 65,536.
    pub fn len(&self) -> usize
        ensures count { result ≡ length self.now }
        ensures neighbours { AreNeighbours self.now }
    {
        self.macs.len()
    }

    /// Whether none are known.
    pub fn is_empty(&self) -> bool
        ensures { IsTrue result ↔ (self.now ≡ []) }
    {
        self.macs.is_empty()
    }

    /// Notes what a port learns (ovn-sb(5), `put_arp`), in the place of what it knew of the address, else last. Where 65,536
    /// neighbours are known, none of another address or port is learnt. After `OutOfMemory` the list is as before.
    pub fn learn(&mut self, neighbour: Neighbour) -> Result<(), OutOfMemory>
        ensures ok { OnOk result (self.new ≡ learnt neighbour self.old) }
        ensures err { OnErr result (self.new ≡ self.old) }
    {
        let Neighbour { port, addr, mac } = neighbour;
        let pair = Pair { port, addr };
        if self.has_place(&pair) {
            neighbour.fits();
            self.macs.insert(pair, mac)?;
        }
        Ok(())
    }

    // Whether there is a place for what a port learns: it knows something of the address, or there is room for one more.
    fn has_place(&self, pair: &Pair) -> bool
        ensures { result ≡ (is_known pair.now.port pair.now.addr self.now || nat_lt (length self.now) neighbour_limit) }
    {
        let known = self.knows(pair);
        let room = self.macs.len() < NEIGHBOUR_LIMIT;
        known || room
    }

    // Whether the port knows something of the address.
    fn knows(&self, pair: &Pair) -> bool
        ensures { result ≡ is_known pair.now.port pair.now.addr self.now }
    {
        self.macs.contains_key(pair)
    }

    /// The MAC that a port knows of an address (ovn-sb(5), `get_arp`). `None` exactly where it knows none.
    pub fn find(&self, port: ObjId, addr: Ip4) -> Option<Mac>
        ensures { result ≡ option_map (λ n. n.mac) (neighbour_of self.now port addr) }
    {
        self.macs.get(&Pair { port, addr }).copied()
    }

    /// What stands at a place, counted from 0. `None` exactly where the list has no such place.
    pub fn entry(&self, place: u32) -> Option<Neighbour>
        ensures { result ≡ slice_get self.now place }
    {
        match self.macs.get_index(place as usize) {
            None => None,
            Some((pair, mac)) => Some(Neighbour {
                port: pair.port,
                addr: pair.addr,
                mac: *mac,
            }),
        }
    }

    /// Takes out what a port knows; what stands after it moves up.
    pub fn drop_port(&mut self, port: ObjId)
        ensures { self.new ≡ without_port port self.old }
    {
        self.macs.retain(
            |pair: &Pair, mac: &mut Mac| -> bool
                ensures { (result ≡ not (pair.now.port.0 == port.0)) × (mac.new ≡ mac.old) }
            { pair.port != port },
        );
    }

    /// Leaves the first neighbours, so many, and takes those after them out. It takes no memory, and costs by the number of those
    /// that go.
    pub fn cut_back(&mut self, len: usize)
        ensures { self.new ≡ take len self.old }
    {
        self.macs.truncate(len);
    }

    /// Puts a neighbour back as it was, in the place of what its port knows of the address; where it knows nothing, nothing changes.
    /// It takes no memory.
    pub fn put_back(&mut self, old: Neighbour)
        ensures { self.new ≡ put_back old self.old }
    {
        let Neighbour { port, addr, mac } = old;
        let pair = Pair { port, addr };
        if self.knows(&pair) {
            old.fits();
            match self.macs.insert(pair, mac) {
                Ok(_) => {}
                Err(_) => unreachable!(),
            }
        }
    }

    /// Takes all out.
    pub fn flush(&mut self)
        ensures { self.new ≡ [] }
    {
        self.macs.clear();
    }

    /// An equal list. Where memory runs out the answer is `OutOfMemory`.
    pub fn copy(&self) -> Result<Neighbours, OutOfMemory>
        ensures { IfOk result (λ copied. copied ≡ self.now) }
    {
        Ok(Neighbours {
            macs: self.macs.clone()?,
        })
    }
}
