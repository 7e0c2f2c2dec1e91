//! MAC addresses as six pairs of hexadecimal digits joined by `:`.
ghost use Rattle.std.specs.Prelude.{◌≡◌, ◌++◌, ◌<◌, ◌^◌, ℕ, ok_or, OnOk, OnErr};
ghost use Rattle.nv_base.specs.Bytes.{pair_text};
ghost use Rattle.nv_base.specs.Mac.{mac_of, mac_text};
ghost use Rattle.nv_base.specs.Text.{bad_text};

use crate::bytes::{Spelling, number_of_parts};
use crate::number::hex_digit;
use crate::{BadText, OutOfMemory};
use std::marker::Model;

/// A MAC address, its first byte the highest of the number. A clause sees the number.
#[derive(Clone, Copy, PartialEq, Eq)]
pub struct Mac(pub u64);

impl Model for Mac {
    ghost use Rattle.std.specs.Prelude.{ℕ, ◌<◌, ◌^◌};

    ghost Value = { ℕ };

    ghost view = { λ m. m.0 };

    ghost invariant = { λ m. m.0 < 2 ^ 48 };

    ghost inverse = { λ n. record { 0 = n } };
}

/// Reads a MAC (ovn-nb(5), `addresses`): six pairs of hexadecimal digits of either case, joined by `:`. `BadText` exactly
/// where the text is none.
pub fn read_mac(text: &[u8]) -> Result<Mac, BadText>
    ensures { result ≡ ok_or (mac_of text.now) bad_text }
{
    match number_of_parts(text, b':', Spelling::Pair, 6) {
        Some(number) => Ok(Mac(number)),
        None => Err(BadText),
    }
}

/// The two lower case hexadecimal digits of a byte.
fn pair_text(byte: u8) -> [u8; 2]
    ensures { result ≡ pair_text byte }
{
    [hex_digit(byte / 16), hex_digit(byte % 16)]
}

/// The text of a MAC: two lower case digits a byte, joined by `:`.
pub fn mac_text(mac: Mac) -> [u8; 17]
    ensures { result ≡ mac_text mac }
{
    let [_, _, b1, b2, b3, b4, b5, b6] = mac.0.to_be_bytes();
    let [a, b] = pair_text(b1);
    let [c, d] = pair_text(b2);
    let [e, f] = pair_text(b3);
    let [g, h] = pair_text(b4);
    let [i, j] = pair_text(b5);
    let [k, l] = pair_text(b6);
    [
        a, b, b':', c, d, b':', e, f, b':', g, h, b':', i, j, b':', k, l,
    ]
}

/// Appends the MAC, two lower case digits a byte. After `OutOfMemory` the bytes are as before.
pub fn put_mac(out: &mut Vec<u8>, mac: Mac) -> Result<(), OutOfMemory>
    ensures ok { OnOk result (out.new.items ≡ out.old.items ++ mac_text mac) }
    ensures err { OnErr result (out.new.items ≡ out.old.items) }
{
    out.extend_from_slice(&mac_text(mac))?;
    Ok(())
}
