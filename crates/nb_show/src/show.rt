//! All that there is.
ghost use Rattle.std.specs.Prelude.{◌≡◌, OnOk, OnErr};
ghost use Rattle.nv_base.specs.Growth.{GrowsAtEnd};

use crate::balancers::put_lbs;
use crate::routers::put_routers;
use crate::sets::{put_groups, put_sets};
use crate::switches::put_switches;
use nb_store::Records;
use nv_base::OutOfMemory;
use std::alloc::Global;

/// Appends the network: switches, routers, load balancers, address sets and port groups, each by rising number, with what belongs
/// to it (ovn-nbctl(8), `show`, `acl-list`, `lr-route-list`, `lr-nat-list` and `lb-list`; where these print an object's UUID or
/// nothing, its number stands). After `OutOfMemory` the bytes are as before.
pub fn put_network(alloc: Global, out: &mut Vec<u8>, records: &Records) -> Result<(), OutOfMemory>
    ensures ok { OnOk result (GrowsAtEnd out.old.items out.new.items) }
    ensures err { OnErr result (out.new.items ≡ out.old.items) }
{
    let text = shown(alloc, records)?;
    out.extend_from_slice(&text)?;
    Ok(())
}

// The text of the network.
fn shown(alloc: Global, records: &Records) -> Result<Vec<u8>, OutOfMemory> {
    let mut text = Vec::new(alloc);
    put_switches(alloc, &mut text, records)?;
    put_routers(alloc, &mut text, records)?;
    put_lbs(&mut text, records)?;
    put_sets(&mut text, records)?;
    put_groups(alloc, &mut text, records)?;
    Ok(text)
}
