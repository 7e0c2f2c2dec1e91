//! What arrives at a router.
ghost use Rattle.lr_nat_laws.specs.Steps.{Defrags, Redirects, Unsnats};

/// A packet of IPv4 to the external address of a rule that changes sources gets its destination back, where it is a reply to a connection
/// whose source was changed.
pub fn lr_in_unsnat()
    ensures { Unsnats }
{}

/// Where the router changes destinations, a packet of IPv4 is looked up, and gets the destination of its connection.
pub fn lr_in_defrag()
    ensures { Defrags }
{}

/// A packet of IPv4 that begins a connection to a VIP goes to one of its backends: to a VIP with a port before one without, and of equals to
/// that of the load balancer with the lowest number; else one to the external address of a rule goes to the logical address of the rule
/// with the lowest number. It is dropped where there is no room for a connection. Any other packet goes on as it is.
pub fn lr_in_dnat()
    ensures { Redirects }
{}
