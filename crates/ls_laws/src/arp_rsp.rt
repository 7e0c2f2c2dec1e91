//! ARP replies.
ghost use Rattle.ls_laws.specs.Steps.{Answers};

/// A request for the address of a host is answered for the host, but not its own.
pub fn ls_in_arp_rsp()
    ensures { Answers }
{}
