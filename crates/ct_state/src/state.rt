ghost use Rattle.std.specs.Prelude.{◌≡◌, [], IfOk};
ghost use Rattle.ct_core.specs.declared.zone.Zone.TheVariants.{Port, Dnat, Snat};
ghost use Rattle.ct_core.specs.Changes.{without_zone};
ghost use Rattle.ct_core.specs.Neighbours.{without_port};
ghost use Rattle.ct_core.specs.State.{empty_state, with_conns};
ghost use Rattle.ct_state.specs.Work.{with_nbrs};

use ct_core::Zone;
use ct_nbrs::Neighbours;
use ct_table::Conns;
use nv_base::{ObjId, OutOfMemory};
use std::alloc::Global;
use std::marker::Model;

/// What packets leave for later ones (ovn-sb(5), `ct_commit` and `put_arp`): the connections that are tracked, and what
/// routers' ports have learnt of their neighbours. A clause sees the two lists.
#[derive(Drop)]
pub struct State {
    pub(crate) conns: Conns,
    pub(crate) nbrs: Neighbours,
}

impl Model for State {
    ghost use Rattle.ct_core.specs.State as value;

    ghost Value = { value.State };

    ghost view = { λ s. record { conns = s.conns; nbrs = s.nbrs } };
}

impl State {
    /// No connections and no neighbours. It takes no memory.
    pub fn new(alloc: Global) -> Self
        ensures { result ≡ empty_state }
    {
        State {
            conns: Conns::new(alloc),
            nbrs: Neighbours::new(alloc),
        }
    }

    /// The connections.
    pub fn conns(&self) -> &Conns
        ensures { result.now ≡ self.now.conns }
    {
        &self.conns
    }

    /// The neighbours.
    pub fn nbrs(&self) -> &Neighbours
        ensures { result.now ≡ self.now.nbrs }
    {
        &self.nbrs
    }

    /// Strikes out the connections of the zone of a switch's port (not from OVN). It takes no memory; where none of the zone was
    /// recorded since it was last struck out, it costs one look.
    pub fn strike_port(&mut self, port: ObjId)
        ensures { self.new ≡ with_conns (without_zone (Port port) self.old.conns) self.old }
    {
        self.conns.drop_zone(Zone::Port(port));
    }

    /// Strikes out the connections of the two zones of a router (not from OVN). It takes no memory; where none of a zone was recorded
    /// since it was last struck out, it costs one look.
    pub fn strike_router(&mut self, router: ObjId)
        ensures { self.new ≡ with_conns (without_zone (Snat router) (without_zone (Dnat router) self.old.conns)) self.old }
    {
        self.conns.drop_zone(Zone::Dnat(router));
        self.conns.drop_zone(Zone::Snat(router));
    }

    /// Strikes out what a router's port has learnt of its neighbours (not from OVN). It takes no memory, and costs by the number of
    /// neighbours that are known.
    pub fn strike_router_port(&mut self, port: ObjId)
        ensures { self.new ≡ with_nbrs (without_port port self.old.nbrs) self.old }
    {
        self.nbrs.drop_port(port);
    }

    /// Takes all connections out (modelled on `dpctl/flush-conntrack` of ovs-appctl(8)). Neighbours stay.
    pub fn flush_conns(&mut self)
        ensures { self.new ≡ with_conns [] self.old }
    {
        self.conns.flush();
    }

    /// Takes all neighbours out (not from OVN). Connections stay.
    pub fn flush_nbrs(&mut self)
        ensures { self.new ≡ with_nbrs [] self.old }
    {
        self.nbrs.flush();
    }

    /// An equal state. Where memory runs out the answer is `OutOfMemory`.
    pub fn copy(&self) -> Result<State, OutOfMemory>
        ensures { IfOk result (λ copied. copied ≡ self.now) }
    {
        let conns = self.conns.copy()?;
        let nbrs = self.nbrs.copy()?;
        Ok(State { conns, nbrs })
    }
}
