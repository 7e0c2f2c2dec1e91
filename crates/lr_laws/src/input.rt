//! What a router does with packets itself: those that no router passes on, and those that are for it.
ghost use Rattle.lr_laws.specs.Steps.{TakesIn};

/// What no router passes on is dropped; an ARP request for an address of the port, or for an external one, and an echo request to the
/// router are answered; of what is to an address of the router that is not external TCP is reset, UDP gets an ICMP error and the rest is
/// dropped; what came in with its time to live used up gets an ICMP error too; all other IPv4 goes on.
pub fn lr_in_ip_input()
    ensures { TakesIn }
{}
