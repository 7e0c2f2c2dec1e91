//! Microflows: which packet comes in by which port, as a conjunction of equalities says it.
#![tactic(auto)]

mod equality;
mod fault;
mod judge;
mod laws;
mod microflow;
mod said;

pub use fault::MicroFault;
pub use laws::{a_microflow_holds_of_its_packet, a_packet_has_what_is_said};
pub use microflow::{Micro, packet_of};
