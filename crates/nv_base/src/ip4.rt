//! IPv4 addresses (RFC 791) as four decimals joined by `.`.
ghost use Rattle.std.specs.Prelude.{◌≡◌, ◌+◌, ◌≤◌, ◌∷◌, ◌++◌, ok_or, drop, decimal, OnOk, OnErr};
ghost use Rattle.nv_base.specs.Ip4.{ip4_of, ip4_text};
ghost use Rattle.nv_base.specs.Text.{bad_text};

use crate::bytes::{Spelling, number_of_parts};
use crate::{BadText, OutOfMemory};
use itoa::write_digits;

/// An IPv4 address, its first byte the highest of the number.
#[derive(Clone, Copy, PartialEq, Eq, PartialOrd, Ord)]
pub struct Ip4(pub u32);

/// Reads an IPv4 address (RFC 791): four decimals 0 to 255 without leading zeros, joined by `.`. `BadText` exactly where
/// the text is none.
pub fn read_ip4(text: &[u8]) -> Result<Ip4, BadText>
    ensures { result ≡ ok_or (ip4_of text.now) bad_text }
{
    match number_of_parts(text, b'.', Spelling::Decimal, 4) {
        Some(number) => Ok(Ip4(number as u32)),
        None => Err(BadText),
    }
}

/// Writes a byte in decimal so that it ends at `end`, and returns where it begins.
fn write_octet(text: &mut [u8; 15], byte: u8, end: usize) -> usize
    requires { (3 ≤ end) × (end ≤ 15) }
    ensures begins { end ≤ result + 3 }
    ensures within { result ≤ end }
    ensures written { drop result text.new ≡ decimal byte ++ drop end text.old }
{
    write_digits(u64::from(byte), text, end)
}

/// Writes a byte in decimal after `.` so that it ends at `end`, and returns where the `.` is.
fn write_next_octet(text: &mut [u8; 15], byte: u8, end: usize) -> usize
    requires { (4 ≤ end) × (end ≤ 15) }
    ensures begins { end ≤ result + 4 }
    ensures within { result ≤ end }
    ensures written { drop result text.new ≡ 46 ∷ decimal byte ++ drop end text.old }
{
    let at = write_octet(text, byte, end) - 1;
    text[at] = b'.';
    at
}

/// Writes the address at the end of the text, and returns where it begins.
fn write_ip4(text: &mut [u8; 15], addr: Ip4) -> usize
    ensures within { result ≤ 15 }
    ensures written { drop result text.new ≡ ip4_text addr }
{
    let [first, second, third, fourth] = addr.0.to_be_bytes();
    let at = write_next_octet(text, fourth, 15);
    let at = write_next_octet(text, third, at);
    let at = write_next_octet(text, second, at);
    write_octet(text, first, at)
}

/// Appends the address, as four decimals joined by `.`. After `OutOfMemory` the bytes are as before.
pub fn put_ip4(out: &mut Vec<u8>, addr: Ip4) -> Result<(), OutOfMemory>
    ensures ok { OnOk result (out.new.items ≡ out.old.items ++ ip4_text addr) }
    ensures err { OnErr result (out.new.items ≡ out.old.items) }
{
    let mut text = [0; 15];
    let start = write_ip4(&mut text, addr);
    out.extend_from_slice(&text[start..])?;
    Ok(())
}
