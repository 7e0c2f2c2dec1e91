ghost use Rattle.std.specs.Prelude.{◌≡◌, ◌++◌, [], OnOk, slice_get};
ghost use Rattle.std.specs.Option.{option_map_or};
ghost use Rattle.nv_reply.specs.Connections.{connection_line, connection_lines, entry_text, mark_text, tuple_text, tuples_text, zone_text};

use crate::events::{put_datapath_name, put_port_name};
use ct_core::{Entry, Zone};
use ct_table::Conns;
use nb_store::Records;
use nv_base::{OutOfMemory, put_dec, put_ip4};
use pkt_core::Tuple;

/// Writes the lines of connections (modelled on `dpctl/dump-conntrack` of ovs-appctl(8)). After `OutOfMemory` nothing is said of what
/// is written.
pub fn put_connections(
    records: &Records,
    conns: &Conns,
    out: &mut Vec<u8>,
) -> Result<(), OutOfMemory>
    ensures { OnOk result (out.new.items ≡ out.old.items ++ connection_lines records.now conns.now) }
{
    let count = conns.len();
    let mut place = 0;
    while place < count {
        put_entry_at(records, conns, place as u32, out)?;
        place += 1;
    }
    Ok(())
}

// The line of the entry at a place, if there is one.
fn put_entry_at(
    records: &Records,
    conns: &Conns,
    place: u32,
    out: &mut Vec<u8>,
) -> Result<(), OutOfMemory>
    ensures { OnOk result (out.new.items ≡ out.old.items ++ option_map_or (connection_line records.now) (slice_get conns.now place) []) }
{
    match conns.entry(place) {
        Some(entry) => put_connection(records, &entry, out),
        None => Ok(()),
    }
}

fn put_connection(records: &Records, entry: &Entry, out: &mut Vec<u8>) -> Result<(), OutOfMemory>
    ensures { OnOk result (out.new.items ≡ out.old.items ++ connection_line records.now entry.now) }
{
    put_zone(records, entry.zone, out)?;
    put_entry(entry, out)
}

fn put_zone(records: &Records, zone: Zone, out: &mut Vec<u8>) -> Result<(), OutOfMemory>
    ensures { OnOk result (out.new.items ≡ out.old.items ++ zone_text records.now zone) }
{
    match zone {
        Zone::Port(port) => {
            out.extend_from_slice(b"port:")?;
            put_port_name(records, port, out)
        }
        Zone::Dnat(router) => {
            out.extend_from_slice(b"dnat:")?;
            put_datapath_name(records, router, out)
        }
        Zone::Snat(router) => {
            out.extend_from_slice(b"snat:")?;
            put_datapath_name(records, router, out)
        }
    }
}

// What the line of an entry says after its zone.
fn put_entry(entry: &Entry, out: &mut Vec<u8>) -> Result<(), OutOfMemory>
    ensures { OnOk result (out.new.items ≡ out.old.items ++ entry_text entry.now) }
{
    out.extend_from_slice(b" proto=")?;
    put_dec(out, u128::from(entry.orig.proto))?;
    put_tuples(entry, out)?;
    out.extend_from_slice(b" blocked=")?;
    out.extend_from_slice(mark_text(entry.blocked))?;
    out.push(b'\n')?;
    Ok(())
}

fn put_tuples(entry: &Entry, out: &mut Vec<u8>) -> Result<(), OutOfMemory>
    ensures { OnOk result (out.new.items ≡ out.old.items ++ tuples_text entry.now) }
{
    out.extend_from_slice(b" orig=")?;
    put_tuple(entry.orig, out)?;
    out.extend_from_slice(b" reply=")?;
    put_tuple(entry.reply, out)?;
    Ok(())
}

fn put_tuple(tuple: Tuple, out: &mut Vec<u8>) -> Result<(), OutOfMemory>
    ensures { OnOk result (out.new.items ≡ out.old.items ++ tuple_text tuple) }
{
    put_ip4(out, tuple.src)?;
    out.push(b':')?;
    put_dec(out, u128::from(tuple.sport))?;
    out.push(b'>')?;
    put_ip4(out, tuple.dst)?;
    out.push(b':')?;
    put_dec(out, u128::from(tuple.dport))?;
    Ok(())
}

fn mark_text(blocked: bool) -> &'static [u8]
    ensures { result.now ≡ mark_text blocked }
{
    if blocked { b"1" } else { b"0" }
}
