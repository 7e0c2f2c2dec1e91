//! Numbers in a capture.
ghost use Rattle.std.specs.Prelude.{◌≡◌, ◌+◌, ◌≤◌, length};
ghost use Rattle.pcap_file.specs.Numbers.{number_in};

use byteorder::{BigEndian, ByteOrder, LittleEndian};

/// The order of the bytes of a capture's numbers: that of the machine that wrote it.
#[derive(Clone, Copy, PartialEq, Eq)]
pub enum Order {
    /// The highest byte first.
    Big,
    /// The lowest byte first.
    Little,
}

/// The number in 2 bytes from a place on.
pub(crate) fn short_in(order: Order, bytes: &[u8], place: usize) -> u16
    requires { place + 2 ≤ length bytes.now }
    ensures { result ≡ number_in order place 2 bytes.now }
{
    match order {
        Order::Big => BigEndian::read_u16(&bytes[place..]),
        Order::Little => LittleEndian::read_u16(&bytes[place..]),
    }
}

/// The number in 4 bytes from a place on.
pub(crate) fn long_in(order: Order, bytes: &[u8], place: usize) -> u32
    requires { place + 4 ≤ length bytes.now }
    ensures { result ≡ number_in order place 4 bytes.now }
{
    match order {
        Order::Big => BigEndian::read_u32(&bytes[place..]),
        Order::Little => LittleEndian::read_u32(&bytes[place..]),
    }
}
