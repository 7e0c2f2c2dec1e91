ghost use Rattle.std.specs.Prelude.{◌≡◌};
ghost use Rattle.expr_core.specs.Predicate.{pred_name, pred_of};

/// A predicate: a name for a comparison that is often made (ovn-sb(5), 'Logical_Flow TABLE', predicates).
#[derive(Clone, Copy, PartialEq, Eq)]
pub enum Pred {
    /// `eth.mcast`
    EthMcast,
    /// `eth.bcast`
    EthBcast,
    /// `ip4`
    Ip4,
    /// `arp`
    Arp,
    /// `ip6`
    Ip6,
    /// `ip`
    Ip,
    /// `tcp`
    Tcp,
    /// `udp`
    Udp,
    /// `icmp4`
    Icmp4,
    /// `icmp`
    Icmp,
    /// `ip4.mcast`
    Ip4Mcast,
    /// `ct.new`
    CtNew,
    /// `ct.est`
    CtEst,
    /// `ct.rel`
    CtRel,
    /// `ct.rpl`
    CtRpl,
    /// `ct.inv`
    CtInv,
    /// `ct.trk`
    CtTrk,
}

// All predicates, in the order of the manual.
const PREDICATES: [Pred; 17] = [
    Pred::EthMcast,
    Pred::EthBcast,
    Pred::Ip4,
    Pred::Arp,
    Pred::Ip6,
    Pred::Ip,
    Pred::Tcp,
    Pred::Udp,
    Pred::Icmp4,
    Pred::Icmp,
    Pred::Ip4Mcast,
    Pred::CtNew,
    Pred::CtEst,
    Pred::CtRel,
    Pred::CtRpl,
    Pred::CtInv,
    Pred::CtTrk,
];

impl Pred {
    /// Its name in a match.
    pub fn name(self) -> &'static str
        ensures { result.now ≡ pred_name self }
    {
        match self {
            Pred::EthMcast => "eth.mcast",
            Pred::EthBcast => "eth.bcast",
            Pred::Ip4 => "ip4",
            Pred::Arp => "arp",
            Pred::Ip6 => "ip6",
            Pred::Ip => "ip",
            Pred::Tcp => "tcp",
            Pred::Udp => "udp",
            Pred::Icmp4 => "icmp4",
            Pred::Icmp => "icmp",
            Pred::Ip4Mcast => "ip4.mcast",
            Pred::CtNew => "ct.new",
            Pred::CtEst => "ct.est",
            Pred::CtRel => "ct.rel",
            Pred::CtRpl => "ct.rpl",
            Pred::CtInv => "ct.inv",
            Pred::CtTrk => "ct.trk",
        }
    }
}

/// The predicate of this name. None exactly where the text is no predicate's name.
pub fn pred_of(text: &[u8]) -> Option<Pred>
    ensures { result ≡ pred_of text.now }
{
    PREDICATES
        .iter()
        .copied()
        .find(|predicate| predicate.name().as_bytes() == text)
}
