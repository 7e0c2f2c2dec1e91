//! The rows of ACLs: those that each switch has, those of ports that lead to routers, and those of each ACL on a switch.
#![tactic(auto)]

mod acl_on;
mod actions;
mod both;
mod port_acl;
mod switch_acl;

pub use acl_on::AclOn;
pub use port_acl::PortAcl;
pub use switch_acl::SwitchAcl;
