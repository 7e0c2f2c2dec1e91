ghost use Rattle.std.specs.Prelude.{◌≡◌, false, Ok, Err, IfOk, IfErr};
ghost use Rattle.expr_core.specs.WellTyped.{IsTyped};
ghost use Rattle.expr_core.specs.declared.role.Role.TheVariants as role;
ghost use Rattle.pkt_micro.specs.Microflow.{microflow, is_memory};

use crate::MicroFault;
use crate::judge::{contradiction, inport_of, packet_with};
use crate::said::put_said;
use expr_core::Typed;
use nv_base::{Items, Name};
use pkt_core::Packet;
use std::alloc::Global;

/// A packet, and the port that it comes in by.
#[derive(Drop)]
pub struct Micro {
    /// The name of the port.
    pub inport: Name,
    /// The packet. Its `inport` is zero: the port has a number where it is looked up by its name.
    pub packet: Packet,
}

/// The packet that the match says, which is well-typed in a microflow, and the port that it comes in by
/// (ovn-trace(8), the argument `microflow`; which matches are microflows is not from OVN).
///
/// The match is a conjunction, nested at will, of `f == c` with one number without a mask on a whole field, or with the
/// name of a port; of the predicates `ip4`, `arp`, `tcp`, `udp` and `icmp4`; and of `1`. What a field or predicate needs
/// to be there is added, and each field that is not given is zero. The first fault is the answer:
///
/// - `NotConjunction`, where the match is none such;
/// - `Contradiction`, with the first field by its number that is given two values;
/// - `NoInport`, where no port is said.
///
/// After `Memory` nothing is said of the match.
pub fn packet_of(alloc: Global, typed: &Typed) -> Result<Micro, MicroFault>
    requires { IsTyped role.Micro typed.now }
    ensures micro { IfOk result (λ m. microflow typed.now ≡ Ok m) }
    ensures fault { IfErr result (λ f. is_memory f ≡ false → microflow typed.now ≡ Err f) }
{
    let mut list = Items::new(alloc);
    put_said(alloc, &mut list, typed)?;
    let equalities = list.as_slice();
    if let Some(field) = contradiction(equalities) {
        return Err(MicroFault::Contradiction(field));
    }
    let Some(inport) = inport_of(alloc, equalities)? else {
        return Err(MicroFault::NoInport);
    };
    Ok(Micro {
        inport,
        packet: packet_with(equalities),
    })
}
