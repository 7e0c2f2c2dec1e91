//! That numbers fit their types, said to proofs: these functions do nothing.
ghost use Rattle.std.specs.Prelude.{◌<◌, ◌^◌};
ghost use Rattle.ct_core.specs.Changes.{IsEntry, IsTuple, object_of};
ghost use Rattle.ct_core.specs.Neighbours.{IsNeighbour};

use crate::{Entry, Neighbour, Zone};
use nv_base::Mac;
use pkt_core::Tuple;

impl Entry {
    /// That its numbers fit, as those of each entry do.
    pub fn fits(&self)
        ensures { IsEntry self.now }
    {
        zone_fits(self.zone);
        tuple_fits(self.orig);
        tuple_fits(self.reply);
    }
}

impl Neighbour {
    /// That its numbers fit, as those of each neighbour do.
    pub fn fits(&self)
        ensures { IsNeighbour self.now }
    {
        fits_32(self.port.0);
        fits_32(self.addr.0);
        mac_fits(self.mac);
    }
}

fn zone_fits(zone: Zone)
    ensures { (object_of zone).0 < 2 ^ 32 }
{
    match zone {
        Zone::Port(object) | Zone::Dnat(object) | Zone::Snat(object) => fits_32(object.0),
    }
}

fn tuple_fits(tuple: Tuple)
    ensures { IsTuple tuple }
{
    fits_8(tuple.proto);
    fits_32(tuple.src.0);
    fits_16(tuple.sport);
    fits_32(tuple.dst.0);
    fits_16(tuple.dport);
}

fn mac_fits(mac: Mac)
    ensures { mac < 2 ^ 48 }
{
    let _number = mac.0;
}

fn fits_8(number: u8)
    ensures { number < 2 ^ 8 }
{}

fn fits_16(number: u16)
    ensures { number < 2 ^ 16 }
{}

fn fits_32(number: u32)
    ensures { number < 2 ^ 32 }
{}
