//! The amounts that a table adds up, each at most the greatest `u64`.
ghost use Rattle.std.specs.Prelude.{◌≡◌, ◌+◌, ◌-◌, ◌^◌, min, length, map, sum};
ghost use Rattle.nb_records.specs.Tags.{address_count, guard_count};

use crate::{Addr, Guard};

/// The MACs and the IPv4 addresses of addresses.
pub(crate) fn address_weight(addresses: &[Addr]) -> u64
    ensures { result ≡ min (sum (map address_count addresses.now)) (2 ^ 64 - 1) }
{
    let mut total = 0u64;
    for addr in addresses {
        total = total.saturating_add(address_count(addr));
    }
    total
}

// The MAC and the IPv4 addresses of one address.
fn address_count(addr: &Addr) -> u64
    ensures { result ≡ address_count addr.now }
{
    match addr {
        Addr::Unknown | Addr::Router => 0,
        Addr::Host { ips, .. } => 1 + ips.as_slice().len() as u64,
    }
}

/// The MACs and the networks of security.
pub(crate) fn security_weight(security: &[Guard]) -> u64
    ensures { result ≡ min (sum (map guard_count security.now)) (2 ^ 64 - 1) }
{
    let mut total = 0u64;
    for guard in security {
        total = total.saturating_add(guard_count(guard));
    }
    total
}

// The MAC and the networks of one guard.
fn guard_count(guard: &Guard) -> u64
    ensures { result ≡ guard_count guard.now }
{
    1 + guard.nets.as_slice().len() as u64
}
