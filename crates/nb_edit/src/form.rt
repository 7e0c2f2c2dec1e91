//! What a command is made of: options, and words in their places.

/// An option.
#[derive(Clone, Copy)]
pub enum Flag {
    /// `--may-exist`
    MayExist,
    /// `--if-exists`
    IfExists,
    /// `--policy=dst-ip` or `--policy=src-ip`
    Policy,
    /// `--type=switch` or `--type=port-group`
    OwnerType,
}

/// What stands at a place of a command.
#[derive(Clone, Copy)]
pub enum Place {
    /// The name of a switch.
    Switch,
    /// The name of a router.
    Router,
    /// The name of a port of a switch or of a router.
    Port,
    /// The name of a load balancer.
    Lb,
    /// The name of a port group.
    Group,
    /// The name of an address set.
    Set,
    /// The name of a switch or of a port group.
    Owner,
    /// `unknown`, `router`, or a MAC and IPv4 addresses, in one word.
    Address,
    /// A MAC and IPv4 addresses or networks, in one word.
    Guard,
    /// `''` or `router`.
    PortType,
    /// `router-port=NAME`.
    PortOption,
    /// `enabled` or `disabled`.
    State,
    /// A MAC.
    Mac,
    /// An IPv4 address.
    Ip,
    /// The address of a router port, with the length of its network.
    Network,
    /// A network.
    Prefix,
    /// The address of the next router.
    Nexthop,
    /// `snat`, `dnat` or `dnat_and_snat`.
    NatType,
    /// An address, or for `snat` a network.
    Logical,
    /// A word of distributed NAT, which is not taken here.
    Distributed,
    /// An address, or an address and a port.
    Vip,
    /// Addresses, or addresses and ports, with commas between.
    Backends,
    /// `tcp` or `udp`.
    Protocol,
    /// `from-lport` or `to-lport`.
    Direction,
    /// A number up to 32,767.
    Priority,
    /// A match.
    Match,
    /// `allow`, `allow-related`, `allow-stateless`, `drop` or `reject`.
    Verdict,
    /// A MAC, an address or a network.
    Member,
}

/// What may follow the words that a command needs.
#[derive(Clone, Copy)]
pub enum Tail {
    /// Nothing.
    Ends,
    /// A word, or none.
    May(Place),
    /// A word, or two, or none.
    MayThen(Place, Place),
    /// A word, or three, or none.
    MayThenBoth(Place, Place, Place),
    /// Any number of words.
    Repeats(Place),
}
