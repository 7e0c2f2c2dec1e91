//! Neighbours: what is learnt of them, and what is asked.
ghost use Rattle.lr_laws.specs.Steps.{Asks, Learns, Resolves};

/// What an ARP packet tells of a neighbour, of an address of the port's networks and with the MAC of one sender, is learnt for the port,
/// and each packet goes on.
pub fn lr_in_learn_neighbor()
    ensures { Learns }
{}

/// A packet gets the MAC of the next host, whose address is in `reg0`: of a static binding of the port by which it goes out, else of the
/// lowest-numbered port across it that has the address, else what was learnt, else 0.
pub fn lr_in_arp_resolve()
    ensures { Resolves }
{}

/// A packet to MAC 0 gives way to an ARP request for the next host; any other leaves.
pub fn lr_in_arp_request()
    ensures { Asks }
{}
