ghost use Rattle.std.specs.Prelude.{◌≡◌, ◌++◌, ◌%◌, ◌^◌, OnOk, OnErr};
ghost use Rattle.nv_base.specs.Mac.{mac_text};
ghost use Rattle.nv_base.specs.Ip4.{address, ip4_text};
ghost use Rattle.expr_core.specs.Text.{const_text};

use crate::{Const, Form};
use nv_base::{Ip4, Mac, OutOfMemory, put_dec, put_hex, put_ip4, put_mac};

/// Appends a constant as its form spells it. After `OutOfMemory` the bytes are as before.
pub fn put_const(out: &mut Vec<u8>, constant: Const) -> Result<(), OutOfMemory>
    ensures ok { OnOk result (out.new.items ≡ out.old.items ++ const_text constant) }
    ensures err { OnErr result (out.new.items ≡ out.old.items) }
{
    match constant.form() {
        Form::Dec => put_dec(out, constant.value()),
        Form::Hex => put_hex(out, constant.value()),
        Form::Mac => put_mac_of(out, constant.value()),
        Form::Ip4 => put_ip4_of(out, constant.value()),
    }
}

// The MAC of the 48 lowest bits.
fn put_mac_of(out: &mut Vec<u8>, value: u128) -> Result<(), OutOfMemory>
    ensures ok { OnOk result (out.new.items ≡ out.old.items ++ mac_text (value % 2 ^ 48)) }
    ensures err { OnErr result (out.new.items ≡ out.old.items) }
{
    put_mac(out, Mac((value % (1 << 48)) as u64))
}

// The address of the 32 lowest bits.
fn put_ip4_of(out: &mut Vec<u8>, value: u128) -> Result<(), OutOfMemory>
    ensures ok { OnOk result (out.new.items ≡ out.old.items ++ ip4_text (address (value % 2 ^ 32))) }
    ensures err { OnErr result (out.new.items ≡ out.old.items) }
{
    put_ip4(out, Ip4((value % (1 << 32)) as u32))
}
