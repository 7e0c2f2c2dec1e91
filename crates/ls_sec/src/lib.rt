//! The rows of port security: those of switches, and those of their ports.
#![tactic(auto)]

mod addresses;
mod guard;
mod one_step;
mod port_sec;
mod switch_sec;

pub use port_sec::PortSec;
pub use switch_sec::SwitchSec;
