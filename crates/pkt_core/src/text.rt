//! A packet as text: the match of ovn-sb(5) that says its header fields.
ghost use Rattle.std.specs.Prelude.{◌≡◌, ◌<◌, ◌^◌, ◌++◌, false, OnOk, OnErr};
ghost use Rattle.nv_base.specs.Field.{field_width, field_printed};
ghost use Rattle.pkt_core.specs.Text.{header_fields, number_text, condition_text, separator, ending, conditions, packet_text};
ghost use Rattle.nv_base.specs.Growth.{GrowsAtEnd};

use crate::Packet;
use nv_base::{Field, Ip4, Mac, OutOfMemory, Printed, put_dec, put_hex, put_ip4, put_mac};

/// Appends `FIELD == VALUE` for each header field whose number is not zero, joined by ` && `, or `1` where all are
/// zero. After `OutOfMemory` the bytes are as before.
pub fn put_packet(out: &mut Vec<u8>, packet: &Packet) -> Result<(), OutOfMemory>
    ensures ok { OnOk result (out.new.items ≡ out.old.items ++ packet_text packet.now) }
    ensures err { OnErr result (out.new.items ≡ out.old.items) }
{
    let before = out.len();
    let put = put_conditions(out, packet, header_fields());
    if put.is_err() {
        out.truncate(before);
    }
    put
}

// The fields that the text says, in their order.
#[tactic(auto, unfolding(nv_base::specs::Field::all_fields, crate::specs::Text::header_fields))]
fn header_fields() -> &'static [Field]
    ensures { result.now ≡ header_fields }
{
    &Field::all()[3..27]
}

// Appends a condition for each of the fields whose number is not zero, or `1`. After `OutOfMemory` the
// bytes before are first, and a part of the text may follow.
fn put_conditions(out: &mut Vec<u8>, packet: &Packet, fields: &[Field]) -> Result<(), OutOfMemory>
    ensures ok { OnOk result (out.new.items ≡ out.old.items ++ conditions packet.now fields.now false) }
    ensures err { OnErr result (GrowsAtEnd out.old.items out.new.items) }
{
    let mut before = false;
    for field in fields {
        let number = packet.get(*field);
        let is_said = number != 0;
        if is_said {
            out.extend_from_slice(separator(before).as_bytes())?;
            put_condition(out, *field, number)?;
            before = true;
        }
    }
    out.extend_from_slice(ending(before).as_bytes())?;
    Ok(())
}

// The text in front of a condition.
fn separator(before: bool) -> &'static str
    ensures { result.now ≡ separator before }
{
    if before { " && " } else { "" }
}

// The text at the end.
fn ending(before: bool) -> &'static str
    ensures { result.now ≡ ending before }
{
    if before { "" } else { "1" }
}

fn put_condition(out: &mut Vec<u8>, field: Field, number: u128) -> Result<(), OutOfMemory>
    requires { number < 2 ^ field_width field }
    ensures ok { OnOk result (out.new.items ≡ out.old.items ++ condition_text field number) }
    ensures err { OnErr result (GrowsAtEnd out.old.items out.new.items) }
{
    out.extend_from_slice(field.name().as_bytes())?;
    out.extend_from_slice(b" == ")?;
    put_number(out, field, number)?;
    Ok(())
}

fn put_number(out: &mut Vec<u8>, field: Field, number: u128) -> Result<(), OutOfMemory>
    requires { number < 2 ^ field_width field }
    ensures ok { OnOk result (out.new.items ≡ out.old.items ++ number_text (field_printed field) number) }
    ensures err { OnErr result (out.new.items ≡ out.old.items) }
{
    match field.printed() {
        Printed::PortName | Printed::Decimal => put_dec(out, number),
        Printed::Hexadecimal => put_hex(out, number),
        Printed::MacAddress => put_mac(out, Mac(number as u64)),
        Printed::Ip4Address => put_ip4(out, Ip4(number as u32)),
    }
}
