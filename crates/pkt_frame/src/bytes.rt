//! Numbers in the bytes of a header.
ghost use Rattle.std.specs.Prelude.{◌≡◌, ◌+◌, ◌<◌, ◌≤◌, ◌^◌, drop, length};
ghost use Rattle.pkt_frame.specs.Bytes.{number_at};

use byteorder::{BigEndian, ByteOrder};

/// The number in so many bytes, 1 to 8, from a place on, the highest first.
pub(crate) fn number_at(bytes: &[u8], place: usize, count: usize) -> u128
    requires some { 1 ≤ count }
    requires most { count ≤ 8 }
    requires within { place + count ≤ length bytes.now }
    ensures value { result ≡ number_at place count bytes.now }
    ensures fits { result < 256 ^ count }
{
    u128::from(BigEndian::read_uint(&bytes[place..], count))
}

/// What follows so many bytes.
pub(crate) fn after(bytes: &[u8], count: usize) -> &[u8]
    requires { count ≤ length bytes.now }
    ensures { result.now ≡ drop count bytes.now }
{
    &bytes[count..]
}
