//! The rows of the units of a network, as definitions, and their laws; the inputs of the units, what puts a row of one among others,
//! and their kinds.
#![tactic(auto)]

mod inputs;
mod kept;
mod kind;
mod laws;
mod rule;
mod vip;

pub use inputs::{
    AclOnInput, PortAclInput, PortL2Input, PortSecInput, SwitchAclInput, SwitchL2Input, VipInput,
};
pub use kind::UnitKind;
pub use laws::{rows_of_sound_networks_are_apart, rows_of_sound_networks_are_typed};
pub use rule::{Rule, Unit};
pub use vip::{balances_to, opens, priority_of_vip, vip_input};
