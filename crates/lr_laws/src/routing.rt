//! Routing.
ghost use Rattle.lr_laws.specs.Steps.{Routes};

/// A packet of IPv4 goes on by the best way: of the longest prefix, and of equals first by networks of ports, then by routes of
/// destinations, then by those of sources, each by rising number; with its next host in `reg0` and the address from which that is asked
/// for in `reg1`. Without one, or to the router itself, it is dropped.
pub fn lr_in_ip_routing()
    ensures { Routes }
{}
