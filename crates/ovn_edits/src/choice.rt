use nb_check::Tables;
use nb_records::{Refusal, Way};
use nb_words::{LineFault, Word};
use net_choice::acl_first;
use nv_base::{Field, Mac, Name, OutOfMemory, put_dec, read_mac};
use pkt_core::Packet;
use std::alloc::Global;

// A packet from one MAC to another.
fn packet_between(source: Mac, destination: Mac) -> Packet {
    let mut packet = Packet::zero();
    packet.set(Field::EthSrc, u128::from(source.0));
    packet.set(Field::EthDst, u128::from(destination.0));
    packet
}

// The MAC of the word of this number, or `BadMac`.
fn mac_of(word: &Word, number: u32) -> Result<Mac, LineFault> {
    match read_mac(word.text.as_slice()) {
        Ok(mac) => Ok(mac),
        Err(_) => Err(LineFault::Refused(Refusal::BadMac(number))),
    }
}

// Appends a direction and the number of the ACL that decides in it, or `none`.
fn put_choice(out: &mut Vec<u8>, way: &[u8], acl: Option<u32>) -> Result<(), OutOfMemory> {
    out.extend_from_slice(way)?;
    out.push(b' ')?;
    match acl {
        Some(number) => put_dec(out, u128::from(number))?,
        None => out.extend_from_slice(b"none")?,
    }
    out.push(b'\n')?;
    Ok(())
}

/// Appends the ACL of a switch that decides on a packet from one MAC to another, in each direction. The words are the second to the
/// fourth of the line: a switch that is not there is `NoSuchObject`, and a MAC that is none `BadMac`.
pub(crate) fn put_deciding(
    alloc: Global,
    tables: &Tables,
    out: &mut Vec<u8>,
    switch: &Word,
    source: &Word,
    destination: &Word,
) -> Result<(), LineFault> {
    let records = tables.records();
    let source = mac_of(source, 3)?;
    let destination = mac_of(destination, 4)?;
    let name = Name::from_slice(alloc, switch.text.as_slice())?;
    let Some(switch) = records.switch_id(&name) else {
        return Err(LineFault::Refused(Refusal::NoSuchObject(name)));
    };
    let packet = packet_between(source, destination);
    let from = acl_first(records, switch, Way::From, &packet);
    put_choice(out, b"from-lport", from.map(|acl| acl.0))?;
    let to = acl_first(records, switch, Way::To, &packet);
    put_choice(out, b"to-lport", to.map(|acl| acl.0))?;
    Ok(())
}
