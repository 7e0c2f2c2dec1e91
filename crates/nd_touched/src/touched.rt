//! What a line touched.
ghost use Rattle.std.specs.Prelude.{IfOk};
ghost use Rattle.nb_model.specs.Network.{Network};
ghost use Rattle.nb_store.specs.Touched.{AreSameBut};
ghost use Rattle.nd_touched.specs.Touched.{AreSameButFor};

use crate::picks::{
    Acls, Bindings, Groups, InGroups, Lbs, Nats, OnRouters, OnSwitches, Ports, RouterPorts,
    Routers, Routes, Switches, picked,
};
use inc_feed::Keys;
use nb_store::Touch;
use nv_base::{ObjId, OutOfMemory};
use std::alloc::Global;

/// What a line of edits touched, kind by kind, each by its number: the records that came, went or changed, and the numbers that came to
/// the lists of a record or went from them while all else of it stayed. Address sets are left out: no unit depends on one.
#[derive(Drop)]
pub struct Touched {
    /// Switches.
    pub switches: Keys<ObjId>,
    /// Ports of switches.
    pub ports: Keys<ObjId>,
    /// Routers.
    pub routers: Keys<ObjId>,
    /// Ports of routers.
    pub router_ports: Keys<ObjId>,
    /// Static routes.
    pub routes: Keys<ObjId>,
    /// NAT rules.
    pub nats: Keys<ObjId>,
    /// Load balancers.
    pub lbs: Keys<ObjId>,
    /// ACLs.
    pub acls: Keys<ObjId>,
    /// Port groups.
    pub groups: Keys<ObjId>,
    /// Static bindings.
    pub bindings: Keys<ObjId>,
    /// Switches, each with a load balancer that came to its list or went from it.
    pub on_switches: Keys<(ObjId, ObjId)>,
    /// Routers, each with a load balancer that came to its list or went from it.
    pub on_routers: Keys<(ObjId, ObjId)>,
    /// Port groups, each with a port that came to its list or went from it.
    pub in_groups: Keys<(ObjId, ObjId)>,
}

impl Touched {
    /// What these touches say. Where memory runs out the answer is `OutOfMemory`.
    pub fn of(alloc: Global, touches: &[Touch]) -> Result<Self, OutOfMemory>
        ensures { IfOk result (λ touched. (old new : Network) → AreSameBut touches.now old new → AreSameButFor touched old new) }
    {
        Ok(Touched {
            switches: picked(alloc, &Switches, touches)?,
            ports: picked(alloc, &Ports, touches)?,
            routers: picked(alloc, &Routers, touches)?,
            router_ports: picked(alloc, &RouterPorts, touches)?,
            routes: picked(alloc, &Routes, touches)?,
            nats: picked(alloc, &Nats, touches)?,
            lbs: picked(alloc, &Lbs, touches)?,
            acls: picked(alloc, &Acls, touches)?,
            groups: picked(alloc, &Groups, touches)?,
            bindings: picked(alloc, &Bindings, touches)?,
            on_switches: picked(alloc, &OnSwitches, touches)?,
            on_routers: picked(alloc, &OnRouters, touches)?,
            in_groups: picked(alloc, &InGroups, touches)?,
        })
    }
}
