//! The sum of an IPv4 header.
ghost use Rattle.std.specs.Prelude.{◌≡◌, ◌≤◌, ◌*◌, length};
ghost use Rattle.pkt_frame.specs.Checksum.{word_sum, carried, checksum};

use byteorder::{BigEndian, ByteOrder};

/// The bytes of an IPv4 header without options.
pub(crate) const IP4_HEADER: usize = 20;

/// The sum that an IPv4 header has, of which the sum is zero yet (RFC 1071).
#[tactic(auto, unfolding(crate::specs::Checksum::checksum))]
pub(crate) fn checksum(header: &[u8; IP4_HEADER]) -> u16
    ensures { result ≡ checksum header.now }
{
    let sum = carried(carried(word_sum(header)));
    0xffff - sum as u16
}

// The sum of its 16-bit words.
fn word_sum(header: &[u8; IP4_HEADER]) -> u32
    ensures value { result ≡ word_sum header.now }
    ensures fits { result ≤ 10 * 0xffff }
{
    let mut sum = 0;
    for word in 0..IP4_HEADER / 2 {
        sum += u32::from(BigEndian::read_u16(&header[2 * word..]));
    }
    sum
}

// The sum with what is above its lowest 16 bits added to them.
fn carried(sum: u32) -> u32
    ensures { result ≡ carried sum }
{
    sum % 0x1_0000 + sum / 0x1_0000
}
