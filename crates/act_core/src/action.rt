use crate::Step;
use nv_base::Items;

/// An action (ovn-sb(5), 'Logical_Flow TABLE', actions). A block has no block in it.
#[derive(PartialEq, Eq, Drop)]
pub enum Action {
    /// An action without a block.
    Step(Step),
    /// `arp { .. };`: the block runs on an ARP packet that is made of the packet.
    Arp(Items<Step>),
    /// `icmp4 { .. };`: the block runs on an ICMP error about the packet.
    Icmp4(Items<Step>),
    /// `tcp_reset { .. };`: the block runs on a TCP reset that answers the packet.
    TcpReset(Items<Step>),
    /// `reject { .. };`: `tcp_reset` for TCP, and else `icmp4`.
    Reject(Items<Step>),
}
