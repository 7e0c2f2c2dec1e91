//! What leaves by a router.
ghost use Rattle.lr_nat_laws.specs.Steps.{Hides, Undnats};

/// Where the router changes destinations, a packet of IPv4 is looked up, and a reply comes from what its connection was sent to.
pub fn lr_out_undnat()
    ensures { Undnats }
{}

/// A packet of IPv4 that was not found to be a reply, and whose source is in the logical network of a rule, gets the external address of
/// the rule with the longest such prefix, and of equals of the one with the lowest number: with a source port that is free, where it begins a
/// connection. It is dropped where no port is free, or there is no room for a connection. Any other packet goes on as it is.
pub fn lr_out_snat()
    ensures { Hides }
{}
