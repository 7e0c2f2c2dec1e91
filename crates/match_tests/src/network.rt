ghost use Rattle.std.specs.Prelude.{◌&&◌, ◌==◌, false, Some, None, [], ◌∷◌, codes, nat_eq, refl, if◌then◌else◌};
ghost use Rattle.std.specs.Cmp.Lexicographic.{pointwise};

use expr_core::Env;
use expr_sets::{Masked, SetMembers};
use nv_base::{Items, Name, ObjId, OutOfMemory};
use std::alloc::Global;

/// A network of the port `p1` of number 5, the address set `s1` of 10.0.0.1, and the port group `g1` of port 5.
pub(crate) struct Few;

impl Env for Few {
    ghost lookup = { λ _. record {
      port = λ name. if pointwise nat_eq name (codes "p1") then Some (record { 0 = 5 }) else None;
      in_set = λ name width value. pointwise nat_eq name (codes "s1") && (width == 32) && (value == 0x0a000001);
      in_group = λ name port. pointwise nat_eq name (codes "g1") && (port.0 == 5);
      is_switch = λ _. false;
    } };

    fn port(&self, name: &Name) -> Option<ObjId> {
        if name.as_slice() == b"p1".as_slice() {
            Some(ObjId(5))
        } else {
            None
        }
    }

    fn in_set(&self, name: &[u8], width: u8, value: u128) -> bool {
        name == b"s1".as_slice() && width == 32 && value == 0x0a00_0001
    }

    fn in_group(&self, name: &[u8], port: ObjId) -> bool {
        name == b"g1".as_slice() && port.0 == 5
    }

    fn is_switch(&self, _dp: ObjId) -> bool {
        false
    }

    ghost multicast_is_no_port = { λ _. (refl, refl) };
}

impl SetMembers for Few {
    ghost members = { λ _. record {
      of_set = λ name width. if pointwise nat_eq name (codes "s1") && (width == 32) then record { number = 0x0a000001; mask = 0xffffffff } ∷ [] else [];
      of_group = λ name. if pointwise nat_eq name (codes "g1") then record { 0 = 5 } ∷ [] else [];
    } };

    fn members_of_set(
        &self,
        alloc: Global,
        name: &[u8],
        width: u8,
    ) -> Result<Items<Masked>, OutOfMemory> {
        let mut members = Items::new(alloc);
        if name == b"s1".as_slice() && width == 32 {
            members.push(Masked {
                number: 0x0a00_0001,
                mask: 0xffff_ffff,
            })?;
        }
        Ok(members)
    }

    fn ports_of_group(&self, alloc: Global, name: &[u8]) -> Result<Items<ObjId>, OutOfMemory> {
        let mut ports = Items::new(alloc);
        if name == b"g1".as_slice() {
            ports.push(ObjId(5))?;
        }
        Ok(ports)
    }
}
