//! Prefixes of IPv4 addresses: an address and how many of its bits count (RFC 4632).
ghost use Rattle.std.specs.Prelude.{◌≡◌, ◌++◌, ◌≤◌, ok_or, take, vec_len, OnOk, OnErr};
ghost use Rattle.nv_base.specs.Block.{Block};
ghost use Rattle.nv_base.specs.Prefix.{block_of, length_of, prefix_of, prefix_text};
ghost use Rattle.nv_base.specs.Text.{bad_text};

use crate::bytes::around_first;
use crate::ip4::{put_ip4, read_ip4};
use crate::number::{decimal_below, put_dec};
use crate::{BadText, Ip4, OutOfMemory};
use std::marker::Model;

/// A prefix: the addresses that agree with the base in the first `len` bits, at most 32. The base keeps its host part.
#[derive(Clone, Copy, PartialEq, Eq)]
pub struct Prefix {
    pub base: Ip4,
    pub len: u8,
}

impl Model for Prefix {
    ghost use Rattle.std.specs.Prelude.{◌≤◌};
    ghost use Rattle.nv_base.specs.Block.{Block};

    ghost Value = { Block };

    ghost view = { λ p. record { base = p.base; len = p.len } };

    ghost invariant = { λ p. p.len ≤ 32 };

    ghost inverse = { λ b. record { base = b.base; len = b.len } };
}

/// The prefix of this address, of the length that the text spells.
fn with_length(base: Ip4, text: &[u8]) -> Result<Prefix, BadText>
    ensures { result ≡ ok_or (block_of (Some base) (length_of text.now)) bad_text }
{
    match decimal_below(text, 33) {
        Some(len) => Ok(Prefix {
            base,
            len: len as u8,
        }),
        None => Err(BadText),
    }
}

/// Reads a prefix (RFC 4632): an address, alone (then the length is 32) or before `/` and a decimal 0 to 32 without
/// leading zeros. `BadText` exactly where the text is none.
pub fn read_prefix(text: &[u8]) -> Result<Prefix, BadText>
    ensures { result ≡ ok_or (prefix_of text.now) bad_text }
{
    match around_first(text, b'/') {
        Some((addr, len)) => with_length(read_ip4(addr)?, len),
        None => Ok(Prefix {
            base: read_ip4(text)?,
            len: 32,
        }),
    }
}

/// Appends the prefix. After `OutOfMemory` the bytes before are first, and part of the prefix may follow.
fn append_prefix(out: &mut Vec<u8>, prefix: Prefix) -> Result<(), OutOfMemory>
    ensures ok { OnOk result (out.new.items ≡ out.old.items ++ prefix_text prefix) }
    ensures err { OnErr result (take (vec_len out.old) out.new.items ≡ out.old.items) }
{
    put_ip4(out, prefix.base)?;
    out.push(b'/')?;
    put_dec(out, u128::from(prefix.len))
}

/// Appends the prefix, always with its length. After `OutOfMemory` the bytes are as before.
pub fn put_prefix(out: &mut Vec<u8>, prefix: Prefix) -> Result<(), OutOfMemory>
    ensures ok { OnOk result (out.new.items ≡ out.old.items ++ prefix_text prefix) }
    ensures err { OnErr result (out.new.items ≡ out.old.items) }
{
    let before = out.len();
    let appended = append_prefix(out, prefix);
    if appended.is_err() {
        out.truncate(before);
    }
    appended
}
