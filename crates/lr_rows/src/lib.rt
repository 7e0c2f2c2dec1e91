//! The rows of the units of routers, as definitions; the inputs of the units, and the matches and actions that their rows are made
//! of.
#![tactic(auto)]

mod inputs;
mod kept;
mod make;

pub use inputs::{
    BindingInput, Exit, Host, NatRuleInput, NeighbourInput, PortInInput, PortRouteInput,
    RouterNatInput, StaticRouteInput, VipAddrInput,
};
pub use make::{
    addresses_of, answers_arp, arp_rule_for, as_address, as_network, becomes, cleared, is_within,
    networks_of, one_step_rule, put_becomes, put_takes_over, put_turn_back_late, takes_over,
};
