//! ACLs, load balancers and connections, where a switch tracks connections.
ghost use Rattle.nb_records.specs.declared.acl.Way.{Way};
ghost use Rattle.ls_ct_laws.specs.Tracking.{Asks, Balances, Keeps, LooksUp, Rules};

/// What is to be tracked is noted: packets of IPv4 for one receiver at the ports of hosts, unless an `allow-stateless` ACL takes them.
pub fn packets_are_asked_for()
    ensures { (way : Way) → Asks way }
{}

/// A packet that is to be tracked is looked up in the zone of its port. Where load balancers are attached to the switch, one of a connection
/// gets the addresses that this gives it.
pub fn packets_are_looked_up()
    ensures { (way : Way) → LooksUp way }
{}

/// The ACLs of a direction decide on what is not tracked, new, or in the original direction of a connection, which is blocked where they
/// refuse it; a reply, or an ICMP error, goes with its connection.
pub fn acls_rule_tracked_packets()
    ensures { (way : Way) → Rules way }
{}

/// A packet that begins a connection to a VIP of a load balancer of the switch goes to one of its backends: that connection is recorded.
/// Where there is no room the packet is dropped.
pub fn connections_are_balanced()
    ensures { Balances }
{}

/// The connection of a packet that is to be kept is recorded, or no longer blocked; where there is no room the packet is dropped.
pub fn packets_are_kept()
    ensures { (way : Way) → Keeps way }
{}
