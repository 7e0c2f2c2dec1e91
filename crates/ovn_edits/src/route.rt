use nb_check::Tables;
use nb_records::Refusal;
use nb_words::{LineFault, Word};
use net_choice::{Hop, route_of};
use nv_base::{Ip4, Name, OutOfMemory, put_dec, put_ip4, read_ip4};
use std::alloc::Global;

// The address of the word of this number, or `BadAddress`.
fn address_of(word: &Word, number: u32) -> Result<Ip4, LineFault> {
    match read_ip4(word.text.as_slice()) {
        Ok(addr) => Ok(addr),
        Err(_) => Err(LineFault::Refused(Refusal::BadAddress(number))),
    }
}

// Appends the number of the port, the address of the next host, and the one from which its MAC is asked for; or `none`.
fn put_hop(out: &mut Vec<u8>, hop: Option<Hop>) -> Result<(), OutOfMemory> {
    match hop {
        Some(hop) => {
            put_dec(out, u128::from(hop.port.0))?;
            out.push(b' ')?;
            put_ip4(out, hop.via)?;
            out.push(b' ')?;
            put_ip4(out, hop.from)?;
        }
        None => out.extend_from_slice(b"none")?,
    }
    out.push(b'\n')?;
    Ok(())
}

/// Appends the hop by which a router passes a packet from one address to another on, or `none`. The words are the second to the fourth
/// of the line: a router that is not there is `NoSuchObject`, and an address that is none `BadAddress`.
pub(crate) fn put_route(
    alloc: Global,
    tables: &Tables,
    out: &mut Vec<u8>,
    router: &Word,
    source: &Word,
    destination: &Word,
) -> Result<(), LineFault> {
    let records = tables.records();
    let source = address_of(source, 3)?;
    let destination = address_of(destination, 4)?;
    let name = Name::from_slice(alloc, router.text.as_slice())?;
    let Some(router) = records.router_id(&name) else {
        return Err(LineFault::Refused(Refusal::NoSuchObject(name)));
    };
    Ok(put_hop(out, route_of(records, router, source, destination))?)
}
