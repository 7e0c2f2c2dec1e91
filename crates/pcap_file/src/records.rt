//! The records of a capture.
ghost use Rattle.std.specs.Prelude.{◌≡◌, ◌+◌, ◌≤◌, ◌++◌, length, OnOk, OnErr};
ghost use Rattle.nv_base.specs.Growth.{GrowsAtEnd};
ghost use Rattle.pcap_file.specs.Header.{kept_limit};
ghost use Rattle.pcap_file.specs.Records.{record_at, begun_record, next_record, record_front, record_bytes};

use crate::Order;
use crate::header::KEPT_LIMIT;
use crate::numbers::long_in;
use byteorder::{ByteOrder, LittleEndian};
use nv_base::OutOfMemory;

/// The bytes of a record in front of its frame.
pub const RECORD_LENGTH: usize = 16;

/// What a record says of its frame.
#[derive(Clone, Copy, PartialEq, Eq)]
pub struct Record {
    /// When the frame was captured: seconds since 1970 began, in UTC.
    pub seconds: u32,
    /// The microseconds after them.
    pub microseconds: u32,
    /// How many bytes of the frame the record keeps.
    pub kept: u32,
    /// How many bytes the frame had.
    pub original: u32,
}

/// What stands next in a capture, after its header or a record.
#[derive(Clone, Copy, PartialEq, Eq)]
pub enum Next {
    /// Nothing: the capture ends here.
    End,
    /// A whole record, whose frame follows the record's 16 bytes.
    Whole(Record),
    /// A record that is cut: bytes of it are missing.
    Cut,
    /// No record: it would keep more than 262,144 bytes.
    TooLong,
}

/// The first record of these bytes of a capture (pcap-savefile(5)), whose numbers have this order. `End` exactly where there are no
/// bytes; `Cut` where fewer than 16 are there, or fewer than it keeps after them; `TooLong` exactly where the first 16 say that it
/// keeps more than 262,144 bytes, however many are there.
pub fn next_record(order: Order, bytes: &[u8]) -> Next
    ensures { result ≡ next_record order bytes.now }
{
    if bytes.is_empty() {
        Next::End
    } else if bytes.len() < RECORD_LENGTH {
        Next::Cut
    } else {
        begun_record(record_at(order, bytes), bytes)
    }
}

// What a record says in its first 16 bytes.
fn record_at(order: Order, bytes: &[u8]) -> Record
    requires { 16 ≤ length bytes.now }
    ensures { result ≡ record_at order bytes.now }
{
    Record {
        seconds: long_in(order, bytes, 0),
        microseconds: long_in(order, bytes, 4),
        kept: long_in(order, bytes, 8),
        original: long_in(order, bytes, 12),
    }
}

// The record of which the first 16 bytes are there and say this.
fn begun_record(said: Record, bytes: &[u8]) -> Next
    ensures { result ≡ begun_record said bytes.now }
{
    if said.kept > KEPT_LIMIT {
        Next::TooLong
    } else if bytes.len() < RECORD_LENGTH + said.kept as usize {
        Next::Cut
    } else {
        Next::Whole(said)
    }
}

/// Appends the record of a frame of at most 262,144 bytes that was captured at this time and is kept whole, in little-endian
/// order. After `OutOfMemory` the bytes are as before.
pub fn put_record(
    out: &mut Vec<u8>,
    seconds: u32,
    microseconds: u32,
    frame: &[u8],
) -> Result<(), OutOfMemory>
    requires { length frame.now ≤ kept_limit }
    ensures ok { OnOk result (out.new.items ≡ out.old.items ++ record_bytes seconds microseconds frame.now) }
    ensures err { OnErr result (out.new.items ≡ out.old.items) }
{
    let before = out.len();
    let put = put_parts(
        out,
        record_front(seconds, microseconds, frame.len() as u32),
        frame,
    );
    if put.is_err() {
        out.truncate(before);
    }
    put
}

// Appends the record's own bytes and the frame. After `OutOfMemory` the bytes before are first.
fn put_parts(out: &mut Vec<u8>, front: [u8; RECORD_LENGTH], frame: &[u8]) -> Result<(), OutOfMemory>
    ensures ok { OnOk result (out.new.items ≡ out.old.items ++ front ++ frame.now) }
    ensures err { OnErr result (GrowsAtEnd out.old.items out.new.items) }
{
    out.extend_from_slice(&front)?;
    out.extend_from_slice(frame)?;
    Ok(())
}

// The bytes in front of a frame of this length that is kept whole.
#[tactic(auto, unfolding(crate::specs::Records::record_front))]
fn record_front(seconds: u32, microseconds: u32, size: u32) -> [u8; RECORD_LENGTH]
    ensures { result ≡ record_front seconds microseconds size }
{
    let mut front = [0; RECORD_LENGTH];
    LittleEndian::write_u32(&mut front, seconds);
    LittleEndian::write_u32(&mut front[4..], microseconds);
    LittleEndian::write_u32(&mut front[8..], size);
    LittleEndian::write_u32(&mut front[12..], size);
    front
}
