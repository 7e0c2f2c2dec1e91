//! Numbers, MACs and addresses, as a text spells them.
ghost use Rattle.std.specs.Prelude.{◌≡◌, ◌≤◌, length, take, nat_le, option_map, IfSome, None, if◌then◌else◌};
ghost use Rattle.std.specs.List.{prefix_len};
ghost use Rattle.nv_base.specs.Ip4.{ip4_of};
ghost use Rattle.nv_base.specs.Mac.{mac_of};
ghost use Rattle.nv_base.specs.Number.{decimal_of};
ghost use Rattle.expr_const.specs.Constant.{constant_in, constant_of, number_after_0x, or_else, longest};
ghost use Rattle.expr_const.specs.inner.Bytes.{is_in_constant};

use expr_core::{Const, Form};
use nv_base::{read_ip4, read_mac, read_number};

// How many bytes the longest constant takes, the greatest decimal below 2^128.
const LONGEST: usize = 39;

// How many bytes the longest address takes.
const LONGEST_IP4: usize = 15;

/// How many bytes a MAC takes.
pub const MAC_LEN: usize = 17;

// Whether this byte may be in a constant.
fn is_in_constant(byte: u8) -> bool
    ensures { result ≡ is_in_constant byte }
{
    char::from(byte).is_digit(16) || matches!(byte, b'x' | b'.' | b':')
}

// How many bytes that may be in a constant the text begins with.
fn constant_run(text: &[u8]) -> usize
    ensures { result ≡ prefix_len is_in_constant text.now }
{
    text.iter()
        .take_while(|byte| is_in_constant(**byte))
        .count()
}

// The decimal that the text is, or the number after `0x`.
fn number_of(text: &[u8]) -> Option<Const>
    ensures { result ≡ or_else (option_map (constant_in Form.Dec) (decimal_of text.now)) (option_map (constant_in Form.Hex) (number_after_0x text.now)) }
{
    let form = if text.starts_with(b"0x") {
        Form::Hex
    } else {
        Form::Dec
    };
    let value = read_number(text).ok()?;
    Some(Const::new(form, value))
}

// The MAC that the text is.
fn mac_of(text: &[u8]) -> Option<Const>
    ensures { result ≡ option_map (constant_in Form.Mac) (mac_of text.now) }
{
    if text.len() != MAC_LEN {
        return None;
    }
    let mac = read_mac(text).ok()?;
    Some(Const::new(Form::Mac, u128::from(mac.0)))
}

// The address that the text is.
fn ip4_of(text: &[u8]) -> Option<Const>
    ensures { result ≡ option_map (λ a. constant_in Form.Ip4 a.0) (ip4_of text.now) }
{
    if text.len() > LONGEST_IP4 {
        return None;
    }
    let addr = read_ip4(text).ok()?;
    Some(Const::new(Form::Ip4, u128::from(addr.0)))
}

// The constant that the text is.
fn constant_of(text: &[u8]) -> Option<Const>
    ensures { result ≡ constant_of text.now }
{
    if let Some(number) = number_of(text) {
        return Some(number);
    }
    if let Some(mac) = mac_of(text) {
        return Some(mac);
    }
    ip4_of(text)
}

/// The MAC that the text begins with: that of its first 17 bytes (after the constants of ovn-sb(5), 'Logical_Flow TABLE', match).
pub fn mac_front(text: &[u8]) -> Option<Const>
    ensures { result ≡ (if nat_le MAC_LEN (length text.now) then option_map (constant_in Form.Mac) (mac_of (take MAC_LEN text.now)) else None) }
{
    if text.len() < MAC_LEN {
        return None;
    }
    mac_of(&text[..MAC_LEN])
}

/// The longest constant that the text begins with, and how many bytes it takes: a decimal below 2^128, `0x` and up to 32
/// hexadecimal digits, a MAC or an IPv4 address (after the constants of ovn-sb(5), 'Logical_Flow TABLE', match). The work does
/// not grow with the text: no constant has more than 39 bytes.
pub fn longest(text: &[u8]) -> Option<(Const, usize)>
    ensures found { result ≡ longest (length text.now) text.now }
    ensures within { IfSome result (λ x. x.1 ≤ length text.now) }
{
    let mut len = constant_run(&text[..text.len().min(LONGEST)]);
    while len > 0 {
        if let Some(constant) = constant_of(&text[..len]) {
            return Some((constant, len));
        }
        len -= 1;
    }
    None
}
