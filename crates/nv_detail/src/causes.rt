use net_meaning::Cause;

/// Why a packet is dropped, in words.
pub(crate) fn sentence(cause: Cause) -> &'static [u8] {
    match cause {
        Cause::PortSec => b"port security does not let it pass",
        Cause::Acl => b"an ACL drops it, or rejects it and nothing may answer it",
        Cause::Unknown =>
            b"no port is known to have its destination, and none takes what is unknown",
        Cause::SamePort => b"it would go out by the port that it came in by",
        Cause::NoPeer => b"the port that it would go out by leads to no other port",
        Cause::CtFull => b"it would begin a connection, and there are as many as there may be",
        Cause::NoPort => b"no source port is left for its connection",
        Cause::Admission => b"it is not for the router's port at which it arrives",
        Cause::IpInput => b"the router takes no such packet",
        Cause::NoRoute => b"the router has no route for it",
        Cause::Delivery => b"the router's port that it would go out by is disabled",
    }
}
