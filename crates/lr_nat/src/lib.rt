//! The rows of network address translation and of load balancing at routers: those of routers, of NAT rules, of VIPs, and of their
//! addresses.
#![tactic(auto)]

mod nat_rule;
mod router_nat;
mod vip_addr;
mod vip_router;

pub use nat_rule::NatRule;
pub use router_nat::RouterNat;
pub use vip_addr::VipAddr;
pub use vip_router::VipRouter;
