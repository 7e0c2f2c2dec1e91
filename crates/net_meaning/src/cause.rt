ghost use Rattle.std.specs.Prelude.{◌≡◌};
ghost use Rattle.net_meaning.specs.Cause.{cause_name};

/// Why a packet is dropped. The last six are of connections and of routers.
#[derive(Clone, Copy, PartialEq, Eq)]
pub enum Cause {
    /// Port security lets it not in, or not out.
    PortSec,
    /// An ACL drops it, or rejects it and it may not be answered.
    Acl,
    /// No port is known to have its destination.
    Unknown,
    /// It would go out by the port that it came in by.
    SamePort,
    /// The port that it would go out by has nothing at its other side.
    NoPeer,
    /// It would begin a connection, and there are as many as there may be.
    CtFull,
    /// No source port is left for its connection.
    NoPort,
    /// It is not for the router's port at which it arrives.
    Admission,
    /// A router takes no such packet.
    IpInput,
    /// A router has no route for it.
    NoRoute,
    /// The router's port that it would go out by is disabled.
    Delivery,
}

impl Cause {
    /// The name, as a trace gives it (not from OVN).
    pub fn name(self) -> &'static str
        ensures { result.now ≡ cause_name self }
    {
        match self {
            Cause::PortSec => "port_sec",
            Cause::Acl => "acl",
            Cause::Unknown => "unknown",
            Cause::SamePort => "same_port",
            Cause::NoPeer => "no_peer",
            Cause::CtFull => "ct_full",
            Cause::NoPort => "no_port",
            Cause::Admission => "admission",
            Cause::IpInput => "ip_input",
            Cause::NoRoute => "no_route",
            Cause::Delivery => "delivery",
        }
    }
}
