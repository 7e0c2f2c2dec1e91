//! The rows of load balancing on switches.
#![tactic(auto)]

mod switch_lb;
mod vip_switch;

pub use switch_lb::SwitchLb;
pub use vip_switch::VipSwitch;
