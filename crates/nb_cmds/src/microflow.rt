//! The word MICROFLOW of `trace`.
ghost use Rattle.std.specs.Prelude.{◌≡◌, ◌<◌, ◌^◌, Ok, IfOk, IfErr, length};
ghost use Rattle.nb_words.specs.Fault.{IsFaultOf};
ghost use Rattle.nb_cmds.specs.Microflows.{micro_of};
ghost use Rattle.nb_cmds.specs.inner.Faults.{micro_fault};

use expr_core::Role;
use nb_read::typed_match;
use nb_records::{MicroRule, Refusal};
use nb_words::LineFault;
use pkt_micro::{Micro, MicroFault, packet_of};
use std::alloc::Global;

// The refusal of a match that is no microflow.
fn micro_fault(fault: MicroFault) -> LineFault
    ensures { result ≡ micro_fault fault }
{
    let rule = match fault {
        MicroFault::NotConjunction => MicroRule::NotConjunction,
        MicroFault::Contradiction(field) => MicroRule::Contradiction(field),
        MicroFault::NoInport => MicroRule::NoInport,
        MicroFault::Memory => return LineFault::Memory,
    };
    LineFault::Refused(Refusal::BadMicroflow(rule))
}

/// The packet that the text says, and the port that it comes in by.
#[tactic(auto, unfolding(crate::specs::Microflows::micro_of))]
pub(crate) fn micro_of(alloc: Global, text: &[u8]) -> Result<Micro, LineFault>
    requires { length text.now < 2 ^ 32 }
    ensures read { IfOk result (λ micro. micro_of text.now ≡ Ok micro) }
    ensures refused { IfErr result (λ fault. IsFaultOf (micro_of text.now) fault) }
{
    let typed = typed_match(alloc, Role::Micro, text)?;
    match packet_of(alloc, &typed) {
        Ok(micro) => Ok(micro),
        Err(fault) => Err(micro_fault(fault)),
    }
}
