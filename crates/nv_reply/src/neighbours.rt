ghost use Rattle.std.specs.Prelude.{◌≡◌, ◌++◌, [], OnOk, slice_get};
ghost use Rattle.std.specs.Option.{option_map_or};
ghost use Rattle.nv_reply.specs.Neighbours.{learnt_text, neighbour_line, neighbour_lines};

use crate::events::put_port_name;
use ct_core::Neighbour;
use ct_nbrs::Neighbours;
use nb_store::Records;
use nv_base::{OutOfMemory, put_ip4, put_mac};

/// Writes the lines of neighbours (modelled on the table MAC_Binding of ovn-sb(5)). After `OutOfMemory` nothing is said of what is
/// written.
pub fn put_neighbours(
    records: &Records,
    nbrs: &Neighbours,
    out: &mut Vec<u8>,
) -> Result<(), OutOfMemory>
    ensures { OnOk result (out.new.items ≡ out.old.items ++ neighbour_lines records.now nbrs.now) }
{
    let count = nbrs.len();
    let mut place = 0;
    while place < count {
        put_neighbour_at(records, nbrs, place as u32, out)?;
        place += 1;
    }
    Ok(())
}

// The line of the neighbour at a place, if there is one.
fn put_neighbour_at(
    records: &Records,
    nbrs: &Neighbours,
    place: u32,
    out: &mut Vec<u8>,
) -> Result<(), OutOfMemory>
    ensures { OnOk result (out.new.items ≡ out.old.items ++ option_map_or (neighbour_line records.now) (slice_get nbrs.now place) []) }
{
    match nbrs.entry(place) {
        Some(neighbour) => put_neighbour(records, &neighbour, out),
        None => Ok(()),
    }
}

fn put_neighbour(
    records: &Records,
    neighbour: &Neighbour,
    out: &mut Vec<u8>,
) -> Result<(), OutOfMemory>
    ensures { OnOk result (out.new.items ≡ out.old.items ++ neighbour_line records.now neighbour.now) }
{
    put_port_name(records, neighbour.port, out)?;
    put_learnt(neighbour, out)
}

// What the line of a neighbour says after the port.
fn put_learnt(neighbour: &Neighbour, out: &mut Vec<u8>) -> Result<(), OutOfMemory>
    ensures { OnOk result (out.new.items ≡ out.old.items ++ learnt_text neighbour.now) }
{
    out.push(b' ')?;
    put_ip4(out, neighbour.addr)?;
    out.push(b' ')?;
    put_mac(out, neighbour.mac)?;
    out.push(b'\n')?;
    Ok(())
}
