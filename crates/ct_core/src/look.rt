ghost use Rattle.std.specs.Prelude.{◌≡◌};
ghost use Rattle.ct_core.specs.Look.{flags_of, is_marked, kind_flag, place_of, side_flag};
ghost use Rattle.ct_core.specs.Translation.{other};

/// A direction of a connection.
#[derive(Clone, Copy, PartialEq, Eq)]
pub enum Side {
    /// That of the packet that began it.
    Orig,
    /// That of the replies.
    Reply,
}

impl Side {
    /// The direction against it.
    pub fn other(&self) -> Side
        ensures { result ≡ other self.now }
    {
        match self {
            Side::Orig => Side::Reply,
            Side::Reply => Side::Orig,
        }
    }
}

/// What is known of a packet that is looked up in a zone (ovn-sb(5), `ct_next`).
#[derive(Clone, Copy, PartialEq, Eq)]
pub enum Look {
    /// It is of no connection, and begins none.
    Invalid,
    /// It may begin a connection.
    New,
    /// It is of a connection, or an ICMP error about a packet of one.
    Found {
        /// The place of its entry in the list of connections, from 0.
        place: u32,
        /// The direction that it goes in.
        side: Side,
        /// Whether it is an ICMP error.
        related: bool,
        /// The mark of the entry.
        blocked: bool,
    },
}

impl Look {
    /// The bits of `ct_state`, 0 to 5: `new`, `est`, `rel`, `rpl`, `inv` and `trk`.
    pub fn flags(&self) -> u8
        ensures { result ≡ flags_of self.now }
    {
        match self {
            Look::Invalid => 0b11_0000,
            Look::New => 0b10_0001,
            Look::Found { side, related, .. } => 0b10_0000 + kind_flag(*related) + side_flag(*side),
        }
    }

    /// Whether the packet is of a connection that is blocked: its `ct_mark.blocked`.
    pub fn is_marked(&self) -> bool
        ensures { result ≡ is_marked self.now }
    {
        match self {
            Look::Invalid | Look::New => false,
            Look::Found { blocked, .. } => *blocked,
        }
    }

    /// The place of the entry that is found.
    pub fn place(&self) -> Option<u32>
        ensures { result ≡ place_of self.now }
    {
        match self {
            Look::Invalid | Look::New => None,
            Look::Found { place, .. } => Some(*place),
        }
    }
}

// `rel` of an ICMP error, and `est` of another packet of a connection.
fn kind_flag(related: bool) -> u8
    ensures { result ≡ kind_flag related }
{
    if related { 0b100 } else { 0b10 }
}

// `rpl` of the reply direction.
fn side_flag(side: Side) -> u8
    ensures { result ≡ side_flag side }
{
    match side {
        Side::Orig => 0,
        Side::Reply => 0b1000,
    }
}
