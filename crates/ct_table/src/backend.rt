//! Which backend a packet goes to.
ghost use Rattle.std.specs.Prelude.{◌≡◌, ◌<◌};
ghost use Rattle.ct_core.specs.Translation.{balance};

use pkt_core::Tuple;

/// The number, from 0, of the backend that a packet of this tuple goes to, of so many; there is one (modelled on `ct_lb` of
/// ovn-sb(5); which one is not from OVN).
pub fn balance(tuple: Tuple, count: usize) -> usize
    requires { 0 < count }
    ensures number { result ≡ balance tuple count }
    ensures within { result < count }
{
    let sum = u64::from(tuple.src.0)
        + u64::from(tuple.dst.0)
        + u64::from(tuple.sport)
        + u64::from(tuple.dport)
        + u64::from(tuple.proto);
    (sum % count as u64) as usize
}
