//! The reasons for which a word is refused.

/// Why a word is refused for a MAC or for an address.
#[derive(Clone, Copy)]
pub enum Reason {
    NoMac,
    ZeroMac,
    MulticastMac,
    NoAddress,
    WithLength,
    NoNetwork,
    NoMember,
    NoVip,
    NoBackend,
    BackendWithoutPort,
    BackendWithPort,
    ZeroNexthop,
    RepeatedMac,
    RepeatedAddress,
    RepeatedNetwork,
}

// The reasons that are of MACs are the first ones, so many.
const OF_MACS: usize = 3;

// What is said of each reason. W is the word.
static REASONS: [&str; 15] = [
    "word W has no MAC where one is wanted",
    "word W has a MAC that is zero",
    "word W has a multicast MAC, whose first byte is odd",
    "word W has no IPv4 address where one is wanted",
    "word W has an IPv4 address with a length, where one without is wanted",
    "word W has no IPv4 address or network where one is wanted",
    "word W is no member of an address set",
    "word W is no VIP",
    "word W has no backend where one is wanted",
    "word W has a backend without a port, and the VIP has one",
    "word W has a backend with a port, and the VIP has none",
    "word W is the next hop 0.0.0.0",
    "word W repeats a MAC of the list",
    "word W repeats an address of the list",
    "word W repeats an address or a network of the router port",
];

impl Reason {
    /// What is said of it, where W stands for the word.
    pub fn says(self) -> &'static str {
        REASONS.get(self as usize).copied().unwrap_or("")
    }
}

/// What is said of each reason for which a word is refused as `BadMac`.
pub fn mac_reasons() -> &'static [&'static str] {
    REASONS.get(..OF_MACS).unwrap_or(&[])
}

/// What is said of each reason for which a word is refused as `BadAddress`.
pub fn address_reasons() -> &'static [&'static str] {
    REASONS.get(OF_MACS..).unwrap_or(&[])
}
