/// A packet that a datapath makes in the place of another.
#[derive(Clone, Copy, PartialEq, Eq)]
pub enum Answer {
    /// A reset or an ICMP error, which goes back to where the packet came from.
    Reject,
    /// An ARP request for the MAC of the next hop.
    Arp,
}
