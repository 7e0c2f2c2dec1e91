ghost use Rattle.std.specs.Prelude.{◌≡◌, ◌↔◌, ◌≤◌, ◌++◌, true, length, slice_get, take, Some, Err, IfOk, OnOk, OnErr};
ghost use Rattle.std.specs.List.{AllByRecursion};
ghost use Rattle.pkt_core.specs.Prerequisite.{is_ip4};
ghost use Rattle.ct_core.specs.Changes.{connection_limit, marked, recorded};
ghost use Rattle.ct_core.specs.Look.{look};
ghost use Rattle.ct_core.specs.Neighbours.{learnt, mac_of};
ghost use Rattle.ct_core.specs.State.{with_conns};
ghost use Rattle.ct_core.specs.Translation.{snat_port};
ghost use Rattle.ct_state.specs.Work.{unlearnt, unmarked, with_nbrs};
ghost use Rattle.ct_state.specs.inner.Noted.{IsWithin, known_as, noted};
ghost use Rattle.ct_table.specs.declared.conns.CtFault.TheVariants.{Full};

use crate::State;
use ct_core::{Entry, Look, Neighbour, Zone};
use ct_nbrs::Neighbours;
use ct_table::{Conns, CtFault};
use nv_base::{Ip4, Mac, ObjId, OutOfMemory};
use pkt_core::{Packet, Tuple};
use std::alloc::Global;
use std::marker::Model;
use std::mem;

/// The mark that an entry had before it was marked.
#[derive(Clone, Copy, Drop)]
pub(crate) struct OldMark {
    place: u32,
    blocked: bool,
}

/// A state that the packets of a walk change, and from which one may come back to what it was before the walk. A clause
/// sees both.
#[derive(Drop)]
pub struct Work {
    state: State,
    // How many connections and neighbours there were before the walk; of the connections that were marked since the old marks, and the
    // neighbours that were learnt anew as they were, in the order in which it happened. What came since goes where the lists are cut
    // back.
    began: usize,
    known: usize,
    marks: Vec<OldMark>,
    olds: Vec<Neighbour>,
}

impl Model for Work {
    ghost use Rattle.std.specs.Prelude.{◌≤◌, length};
    ghost use Rattle.std.specs.List.{AllByRecursion};
    ghost use Rattle.ct_state.specs.Work as value;
    ghost use Rattle.ct_state.specs.Work.{before};
    ghost use Rattle.ct_state.specs.inner.Noted.{IsWithin};

    ghost Value = { value.Work };

    ghost view = { λ w. record { state = w.state; back = before w.began w.known w.marks.items w.olds.items w.state } };

    ghost invariant = { λ w. (w.began ≤ length w.state.conns) × AllByRecursion (IsWithin w.began) w.marks.items × (w.known ≤ length w.state.nbrs) };
}

impl Work {
    /// Takes a state to change it; in its place an empty one is left, until what becomes of it is put back. Its cost does not grow
    /// with the state. Where memory runs out the answer is `OutOfMemory`, and the state is as before.
    pub fn begin(alloc: Global, state: &mut State) -> Result<Work, OutOfMemory>
        ensures state { IfOk result (λ work. work.state ≡ state.old) }
        ensures back { IfOk result (λ work. work.back ≡ state.old) }
        ensures err { OnErr result (state.new ≡ state.old) }
    {
        let began = state.conns.len();
        let known = state.nbrs.len();
        Ok(Work {
            state: mem::replace(state, State::new(alloc)),
            began,
            known,
            marks: Vec::new(alloc),
            olds: Vec::new(alloc),
        })
    }

    /// Puts the state as it is now in the place that it was taken from.
    pub fn finish(self, state: &mut State)
        ensures { state.new ≡ self.state }
    {
        let Work {
            state: now,
            marks,
            olds,
            ..
        } = self;
        drop(mem::replace(state, now));
        drop(marks);
        drop(olds);
    }

    /// Puts the state as it was before the walk in its place again. It takes no memory.
    pub fn abandon(self, state: &mut State)
        ensures { state.new ≡ self.back }
    {
        let Work {
            state: mut now,
            began,
            known,
            marks,
            olds,
        } = self;
        take_back(&mut now.conns, began, marks);
        forget(&mut now.nbrs, known, olds);
        drop(mem::replace(state, now));
    }

    /// What is known of an IPv4 packet in a zone (ovn-sb(5), `ct_next`).
    pub fn classify(&self, zone: Zone, packet: &Packet) -> Look
        requires { is_ip4 packet.now ≡ true }
        ensures { result ≡ look self.now.state.conns zone packet.now }
    {
        self.state.conns.classify(zone, packet)
    }

    /// The entry at a place, counted from 0. `None` exactly where the list of connections has no such place.
    pub fn entry(&self, place: u32) -> Option<Entry>
        ensures { result ≡ slice_get self.now.state.conns place }
    {
        self.state.conns.entry(place)
    }

    /// The source port that a new connection of this tuple gets with an external address (modelled on `ct_snat` of ovn-sb(5); which one is
    /// not from OVN): its own where no connection of the zone has the reply that this gives, else for TCP and UDP the least such port from
    /// 1024 to 65535. `None` exactly where there is none.
    pub fn snat_port(&self, zone: Zone, tuple: Tuple, external: Ip4) -> Option<u16>
        ensures { result ≡ snat_port self.now.state.conns zone tuple external }
    {
        self.state.conns.snat_port(zone, tuple, external)
    }

    /// Records an entry, last in the list of connections (ovn-sb(5), `ct_commit`). `Full` exactly where there are 65,536
    /// entries. After either fault the state is as before.
    pub fn commit(&mut self, entry: Entry) -> Result<(), CtFault>
        ensures ok { OnOk result (recorded entry self.old.state.conns ≡ Some self.new.state.conns) }
        ensures nbrs { self.new.state.nbrs ≡ self.old.state.nbrs }
        ensures full { (result ≡ Err Full) ↔ (length self.old.state.conns ≡ connection_limit) }
        ensures err { OnErr result (self.new.state ≡ self.old.state) }
        ensures back { self.new.back ≡ self.old.back }
    {
        self.state.conns.commit(entry)?;
        Ok(())
    }

    /// Marks the entry at a place as blocked or not (ovn-sb(5), `ct_commit` with `ct_mark`). A place that is not there changes
    /// nothing. After `OutOfMemory` the state is as before.
    pub fn mark(&mut self, place: u32, blocked: bool) -> Result<(), OutOfMemory>
        ensures ok { OnOk result (self.new.state ≡ with_conns (marked place blocked self.old.state.conns) self.old.state) }
        ensures err { OnErr result (self.new.state ≡ self.old.state) }
        ensures back { self.new.back ≡ self.old.back }
    {
        let Some(entry) = self.state.conns.entry(place) else {
            return Ok(());
        };
        if entry.blocked == blocked {
            return Ok(());
        }
        let old = OldMark {
            place,
            blocked: entry.blocked,
        };
        note(&mut self.marks, self.began, old)?;
        self.state.conns.mark(place, blocked);
        Ok(())
    }

    /// Notes what a router's port learns of a neighbour (ovn-sb(5), `put_arp`), in the place of what it knew of the address, else last.
    /// Where 65,536 neighbours are known, none of another address or port is learnt. After `OutOfMemory` the state is as before.
    pub fn learn(&mut self, neighbour: Neighbour) -> Result<(), OutOfMemory>
        ensures ok { OnOk result (self.new.state ≡ with_nbrs (learnt neighbour self.old.state.nbrs) self.old.state) }
        ensures err { OnErr result (self.new.state ≡ self.old.state) }
        ensures back { self.new.back ≡ self.old.back }
    {
        let old = self.state.nbrs.find(neighbour.port, neighbour.addr);
        note_old(&mut self.olds, &neighbour, old)?;
        self.state.nbrs.learn(neighbour)?;
        Ok(())
    }

    /// The MAC that a router's port knows of an address (ovn-sb(5), `get_arp`), zero where it knows none.
    pub fn mac_of(&self, port: ObjId, addr: Ip4) -> Mac
        ensures { result ≡ mac_of self.now.state.nbrs port addr }
    {
        self.state.nbrs.find(port, addr).unwrap_or(Mac(0))
    }
}

// Notes an old mark, if it is one of the first entries, so many. After `OutOfMemory` it is not noted.
fn note(marks: &mut Vec<OldMark>, began: usize, old: OldMark) -> Result<(), OutOfMemory>
    ensures ok { OnOk result (marks.new.items ≡ noted began old marks.old.items) }
    ensures err { OnErr result (marks.new.items ≡ marks.old.items) }
{
    if (old.place as usize) < began {
        marks.push(old)?;
    }
    Ok(())
}

// Leaves the first connections, so many, and gives them the marks that they had, from the last that was changed to the first.
fn take_back(conns: &mut Conns, began: usize, mut marks: Vec<OldMark>)
    requires there { began ≤ length conns.old }
    requires within { AllByRecursion (IsWithin began) marks.items }
    ensures { conns.new ≡ unmarked marks.items (take began conns.old) }
{
    conns.cut_back(began);
    while let Some(old) = marks.pop() {
        conns.mark(old.place, old.blocked);
    }
}

// Notes a neighbour with the MAC that its port knows, if it knows one. After `OutOfMemory` it is not noted.
fn note_old(
    olds: &mut Vec<Neighbour>,
    neighbour: &Neighbour,
    mac: Option<Mac>,
) -> Result<(), OutOfMemory>
    ensures ok { OnOk result (olds.new.items ≡ olds.old.items ++ known_as neighbour.now mac) }
    ensures err { OnErr result (olds.new.items ≡ olds.old.items) }
{
    if let Some(mac) = mac {
        olds.push(Neighbour {
            port: neighbour.port,
            addr: neighbour.addr,
            mac,
        })?;
    }
    Ok(())
}

// Leaves the first neighbours, so many, as they were, from the last that was learnt anew to the first.
fn forget(nbrs: &mut Neighbours, known: usize, mut olds: Vec<Neighbour>)
    ensures { nbrs.new ≡ unlearnt olds.items (take known nbrs.old) }
{
    nbrs.cut_back(known);
    while let Some(old) = olds.pop() {
        nbrs.put_back(old);
    }
}
