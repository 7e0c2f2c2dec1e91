//! Which touches are of a kind.
ghost use Rattle.std.specs.Prelude.{◌≡◌, ◌++◌, [], IfOk, OnOk};
ghost use Rattle.std.specs.List.{cons_option, filter_map};
ghost use Rattle.inc_feed.specs.Feed.{has_key};

use inc_feed::Keys;
use nb_store::{Place, Touch};
use nv_base::{Kept, ObjId, OutOfMemory};
use std::alloc::Global;

/// What picks the touches of a kind, each by a key.
pub(crate) trait Picks {
    ghost use Rattle.std.specs.Prelude.{◌≡◌, Option};
    ghost use Rattle.nb_store.specs.declared.step.Touch.{Touch};

    /// What tells a touch of the kind from others.
    type Key: Kept + Ord + Copy;

    /// The key of a touch, where it is of the kind.
    ghost key_of: { Touch → Option Self.Key };

    /// The key of a touch, where it is of the kind.
    fn key(&self, touch: Touch) -> Option<Self::Key>
        ensures { result ≡ key_of touch };
}

/// The keys of the touches of a kind.
pub(crate) fn picked<P: Picks>(
    alloc: Global,
    picks: &P,
    touches: &[Touch],
) -> Result<Keys<P::Key>, OutOfMemory>
where
    P::Key: Drop,
    ensures { IfOk result (λ keys. (key : P.Key) → has_key P.Key.cmp key keys ≡ has_key P.Key.cmp key (filter_map P.key_of touches.now)) }
{
    let mut keys = Vec::new(alloc);
    for touch in touches {
        add(picks, *touch, &mut keys)?;
    }
    Ok(Keys::new(keys))
}

// The key of a touch comes after the others, where the touch is of the kind.
fn add<P: Picks>(picks: &P, touch: Touch, keys: &mut Vec<P::Key>) -> Result<(), OutOfMemory>
    ensures { OnOk result (keys.new.items ≡ keys.old.items ++ cons_option (P.key_of touch) []) }
{
    if let Some(key) = picks.key(touch) {
        keys.push(key)?;
    }
    Ok(())
}

/// Those of a whole switch, by its number.
pub(crate) struct Switches;

impl Picks for Switches {
    ghost use Rattle.nd_touched.specs.inner.Picks.{whole_switch};

    type Key = ObjId;

    ghost key_of = { whole_switch };

    fn key(&self, touch: Touch) -> Option<ObjId> {
        match touch {
            Touch::Whole(Place::Switch(number)) => Some(number),
            _ => None,
        }
    }
}

/// Those of a whole port, by its number.
pub(crate) struct Ports;

impl Picks for Ports {
    ghost use Rattle.nd_touched.specs.inner.Picks.{whole_port};

    type Key = ObjId;

    ghost key_of = { whole_port };

    fn key(&self, touch: Touch) -> Option<ObjId> {
        match touch {
            Touch::Whole(Place::Port(number)) => Some(number),
            _ => None,
        }
    }
}

/// Those of a whole router, by its number.
pub(crate) struct Routers;

impl Picks for Routers {
    ghost use Rattle.nd_touched.specs.inner.Picks.{whole_router};

    type Key = ObjId;

    ghost key_of = { whole_router };

    fn key(&self, touch: Touch) -> Option<ObjId> {
        match touch {
            Touch::Whole(Place::Router(number)) => Some(number),
            _ => None,
        }
    }
}

/// Those of a whole router port, by its number.
pub(crate) struct RouterPorts;

impl Picks for RouterPorts {
    ghost use Rattle.nd_touched.specs.inner.Picks.{whole_router_port};

    type Key = ObjId;

    ghost key_of = { whole_router_port };

    fn key(&self, touch: Touch) -> Option<ObjId> {
        match touch {
            Touch::Whole(Place::RouterPort(number)) => Some(number),
            _ => None,
        }
    }
}

/// Those of a whole route, by its number.
pub(crate) struct Routes;

impl Picks for Routes {
    ghost use Rattle.nd_touched.specs.inner.Picks.{whole_route};

    type Key = ObjId;

    ghost key_of = { whole_route };

    fn key(&self, touch: Touch) -> Option<ObjId> {
        match touch {
            Touch::Whole(Place::Route(number)) => Some(number),
            _ => None,
        }
    }
}

/// Those of a whole nat, by its number.
pub(crate) struct Nats;

impl Picks for Nats {
    ghost use Rattle.nd_touched.specs.inner.Picks.{whole_nat};

    type Key = ObjId;

    ghost key_of = { whole_nat };

    fn key(&self, touch: Touch) -> Option<ObjId> {
        match touch {
            Touch::Whole(Place::Nat(number)) => Some(number),
            _ => None,
        }
    }
}

/// Those of a whole lb, by its number.
pub(crate) struct Lbs;

impl Picks for Lbs {
    ghost use Rattle.nd_touched.specs.inner.Picks.{whole_lb};

    type Key = ObjId;

    ghost key_of = { whole_lb };

    fn key(&self, touch: Touch) -> Option<ObjId> {
        match touch {
            Touch::Whole(Place::Lb(number)) => Some(number),
            _ => None,
        }
    }
}

/// Those of a whole acl, by its number.
pub(crate) struct Acls;

impl Picks for Acls {
    ghost use Rattle.nd_touched.specs.inner.Picks.{whole_acl};

    type Key = ObjId;

    ghost key_of = { whole_acl };

    fn key(&self, touch: Touch) -> Option<ObjId> {
        match touch {
            Touch::Whole(Place::Acl(number)) => Some(number),
            _ => None,
        }
    }
}

/// Those of a whole group, by its number.
pub(crate) struct Groups;

impl Picks for Groups {
    ghost use Rattle.nd_touched.specs.inner.Picks.{whole_group};

    type Key = ObjId;

    ghost key_of = { whole_group };

    fn key(&self, touch: Touch) -> Option<ObjId> {
        match touch {
            Touch::Whole(Place::Group(number)) => Some(number),
            _ => None,
        }
    }
}

/// Those of a whole binding, by its number.
pub(crate) struct Bindings;

impl Picks for Bindings {
    ghost use Rattle.nd_touched.specs.inner.Picks.{whole_binding};

    type Key = ObjId;

    ghost key_of = { whole_binding };

    fn key(&self, touch: Touch) -> Option<ObjId> {
        match touch {
            Touch::Whole(Place::Binding(number)) => Some(number),
            _ => None,
        }
    }
}

/// Those of a load balancer of a switch, by the numbers of the switch and of the load balancer.
pub(crate) struct OnSwitches;

impl Picks for OnSwitches {
    ghost use Rattle.nd_touched.specs.inner.Picks.{listed_on_switches};

    type Key = (ObjId, ObjId);

    ghost key_of = { listed_on_switches };

    fn key(&self, touch: Touch) -> Option<(ObjId, ObjId)> {
        match touch {
            Touch::Listed(Place::Switch(owner), number) => Some((owner, number)),
            _ => None,
        }
    }
}

/// Those of a load balancer of a router, by the numbers of the router and of the load balancer.
pub(crate) struct OnRouters;

impl Picks for OnRouters {
    ghost use Rattle.nd_touched.specs.inner.Picks.{listed_on_routers};

    type Key = (ObjId, ObjId);

    ghost key_of = { listed_on_routers };

    fn key(&self, touch: Touch) -> Option<(ObjId, ObjId)> {
        match touch {
            Touch::Listed(Place::Router(owner), number) => Some((owner, number)),
            _ => None,
        }
    }
}

/// Those of a port of a group, by the numbers of the group and of the port.
pub(crate) struct InGroups;

impl Picks for InGroups {
    ghost use Rattle.nd_touched.specs.inner.Picks.{listed_in_groups};

    type Key = (ObjId, ObjId);

    ghost key_of = { listed_in_groups };

    fn key(&self, touch: Touch) -> Option<(ObjId, ObjId)> {
        match touch {
            Touch::Listed(Place::Group(owner), number) => Some((owner, number)),
            _ => None,
        }
    }
}
