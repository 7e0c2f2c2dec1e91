// That the definitions are those of files that scapy 2.5 writes in either order.
ghost use Rattle.std.specs.Prelude.{◌≡◌, ◌<◌, ◌≤◌, length};

use pcap_file::{
    HEADER_LENGTH, KEPT_LIMIT, Next, Order, RECORD_LENGTH, Record, next_record, put_header,
    put_record, read_header,
};
use std::alloc::Global;
use std::test::Fail;

// Two records, the second of a frame of 1,500 bytes of which 42 are kept, in each order.
static LITTLE: &str =
    "d4c3b2a1020004000000000000000000000004000100000001000000020000000e0000000e00000000000000000200000000000188b5040302013f420f002a000000dc05000000000000000200000000000108004500001c00000000401166bb0a00000b0a00000c0005000700080000";

static BIG: &str =
    "a1b2c3d4000200040000000000000000000400000000000100000001000000020000000e0000000e00000000000200000000000188b501020304000f423f0000002a000005dc00000000000200000000000108004500001c00000000401166bb0a00000b0a00000c0005000700080000";

// Where its two records end.
const FIRST_END: usize = 54;

const SECOND_END: usize = 112;

// Headers that are none: of microseconds in mixed order, nanoseconds in both orders, pcapng, version 2.3, version 1.4, version 4.2, link
// types 101 (raw IP) and 0x01000000, and a link type of Ethernet with the length of the frame check sequence.
static OTHERS: [&str; 10] = [
    "b2a1d4c3020004000000000000000000000004000100000000",
    "4d3cb2a1020004000000000000000000000004000100000000",
    "a1b23c4d000200040000000000000000000400000000000100",
    "0a0d0d0a1c0000004d3c2b1a01000000ffffffffffffffff00",
    "d4c3b2a1020003000000000000000000000004000100000000",
    "d4c3b2a1010004000000000000000000000004000100000000",
    "d4c3b2a1040002000000000000000000000004000100000000",
    "d4c3b2a1020004000000000000000000000004006500000000",
    "d4c3b2a1020004000000000000000000000004000000000100",
    "d4c3b2a1020004000000000000000000000004000100002400",
];

fn bytes_of(alloc: Global, text: &str) -> Result<Vec<u8>, Fail> {
    Ok(hex::decode(alloc, text)?)
}

// Whether the bytes after these are a record of this time, kept and original length.
fn is_record(order: Order, bytes: &[u8], told: (u32, u32, u32, u32)) -> bool {
    let (seconds, microseconds, kept, original) = told;
    let wanted = Record {
        seconds,
        microseconds,
        kept,
        original,
    };
    next_record(order, bytes) == Next::Whole(wanted)
}

// Whether a capture of the two records has them, whole where they are and cut at each byte between.
fn has_both(order: Order, bytes: &[u8]) -> bool
    requires { length bytes.now ≡ 112 }
{
    is_record(order, &bytes[HEADER_LENGTH..], (1, 2, 14, 14))
        && is_record(order, &bytes[FIRST_END..], (0x0102_0304, 999_999, 42, 1500))
        && next_record(order, &bytes[SECOND_END..]) == Next::End
        && is_cut_between(order, bytes, HEADER_LENGTH, FIRST_END)
        && is_cut_between(order, bytes, FIRST_END, SECOND_END)
}

// Whether the record from a place on is cut at each place before its end, and there is none where it begins.
fn is_cut_between(order: Order, bytes: &[u8], start: usize, end: usize) -> bool
    requires within { end ≤ length bytes.now }
    requires order { start < end }
{
    if next_record(order, &bytes[start..start]) != Next::End {
        return false;
    }
    for cut in start + 1..end {
        if next_record(order, &bytes[start..cut]) != Next::Cut {
            return false;
        }
    }
    true
}

#[test]
fn captures_of_both_orders_are_read_and_cut_anywhere(rt: HostRuntime) -> Result<(), Fail> {
    let little = bytes_of(rt.alloc(), LITTLE)?;
    let big = bytes_of(rt.alloc(), BIG)?;
    assert!(rt; little.len() == 112 && big.len() == 112);
    assert!(rt;
        read_header(&little) == Some(Order::Little) && read_header(&big) == Some(Order::Big)
    );
    assert!(rt; has_both(Order::Little, &little) && has_both(Order::Big, &big));
    Ok(())
}

#[test]
fn a_header_is_24_bytes_of_this_format(rt: HostRuntime) -> Result<(), Fail> {
    let little = bytes_of(rt.alloc(), LITTLE)?;
    for count in 0..little.len() {
        assert!(rt; read_header(&little[..count]).is_some() == (count >= HEADER_LENGTH));
    }
    for text in &OTHERS {
        let bytes = bytes_of(rt.alloc(), text)?;
        assert!(rt; read_header(&bytes).is_none());
    }
    Ok(())
}

#[test]
fn a_record_keeps_262144_bytes_and_no_more(rt: HostRuntime) -> Result<(), Fail> {
    let mut bytes = bytes_of(rt.alloc(), "00000000000000000000040000000400")?;
    assert!(rt; next_record(Order::Little, &bytes) == Next::Cut);
    bytes.resize(RECORD_LENGTH + KEPT_LIMIT as usize, 0)?;
    assert!(rt; is_record(Order::Little, &bytes, (0, 0, 0x0004_0000, 0x0004_0000)));
    let more = bytes_of(rt.alloc(), "0000000000000000010004000100040000")?;
    assert!(rt; next_record(Order::Little, &more) == Next::TooLong);
    assert!(rt; next_record(Order::Little, &more[..RECORD_LENGTH]) == Next::TooLong);
    assert!(rt; next_record(Order::Little, &more[..RECORD_LENGTH - 1]) == Next::Cut);
    Ok(())
}

#[test]
fn a_capture_is_written_as_others_write_it(rt: HostRuntime) -> Result<(), Fail> {
    let wanted = bytes_of(rt.alloc(), LITTLE)?;
    let frame = bytes_of(rt.alloc(), "00000000000200000000000188b5")?;
    let mut out = Vec::new(rt.alloc());
    put_header(&mut out)?;
    assert!(rt; frame.len() <= KEPT_LIMIT as usize);
    put_record(&mut out, 1, 2, &frame)?;
    assert!(rt; out.len() == FIRST_END && wanted.starts_with(&out));
    Ok(())
}
