//! The header of a capture.
ghost use Rattle.std.specs.Prelude.{◌≡◌, ◌++◌, OnOk, OnErr};
ghost use Rattle.pcap_file.specs.Header.{has_header, capture_order, header_bytes};

use crate::Order;
use crate::numbers::{long_in, short_in};
use byteorder::{ByteOrder, LittleEndian};
use nv_base::OutOfMemory;

/// The bytes of the header of a capture.
pub const HEADER_LENGTH: usize = 24;

/// The most bytes of a frame that a record keeps.
pub const KEPT_LIMIT: u32 = 262_144;

/// The number that a capture begins with, whose times have microseconds.
const MAGIC: u32 = 0xa1b2_c3d4;

/// The link type of Ethernet.
const ETHERNET: u32 = 1;

/// The order of the numbers of a capture, by the header that it begins with (pcap-savefile(5)): the magic number of captures with
/// microseconds, version 2.4, link type 1, which is Ethernet. `None` exactly where there is no such header of 24 bytes.
/// Its other 12 bytes, with the time zone, the accuracy and the limit on what is kept, are not looked at.
pub fn read_header(bytes: &[u8]) -> Option<Order>
    ensures { result ≡ capture_order bytes.now }
{
    if has_header(Order::Big, bytes) {
        Some(Order::Big)
    } else if has_header(Order::Little, bytes) {
        Some(Order::Little)
    } else {
        None
    }
}

// Whether the bytes begin with a header in this order.
fn has_header(order: Order, bytes: &[u8]) -> bool
    ensures { result ≡ has_header order bytes.now }
{
    bytes.len() >= HEADER_LENGTH
        && long_in(order, bytes, 0) == MAGIC
        && short_in(order, bytes, 4) == 2
        && short_in(order, bytes, 6) == 4
        && long_in(order, bytes, 20) == ETHERNET
}

/// Appends the header of a capture: in little-endian order, version 2.4, with 262,144 as the most bytes that are kept and
/// link type 1; its other numbers are zero. After `OutOfMemory` the bytes are as before.
pub fn put_header(out: &mut Vec<u8>) -> Result<(), OutOfMemory>
    ensures ok { OnOk result (out.new.items ≡ out.old.items ++ header_bytes) }
    ensures err { OnErr result (out.new.items ≡ out.old.items) }
{
    out.extend_from_slice(&header_bytes())?;
    Ok(())
}

fn header_bytes() -> [u8; HEADER_LENGTH]
    ensures { result ≡ header_bytes }
{
    let mut header = [0; HEADER_LENGTH];
    LittleEndian::write_u32(&mut header, MAGIC);
    LittleEndian::write_u16(&mut header[4..], 2);
    LittleEndian::write_u16(&mut header[6..], 4);
    LittleEndian::write_u32(&mut header[16..], KEPT_LIMIT);
    LittleEndian::write_u32(&mut header[20..], ETHERNET);
    header
}
