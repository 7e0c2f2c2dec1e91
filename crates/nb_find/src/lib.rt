//! What an edit looks up in the network (ovn-nbctl(8)): the names that it wants, and the records like the one that it makes or removes.
//! A name that is wanted comes back, or the refusal in its place. No call takes memory.
#![tactic(auto)]

mod acls;
mod balancers;
mod names;
mod ports;
mod routes;

pub use acls::acl_number;
pub use balancers::{
    has_vip, is_on_router, is_on_switch, wants_on_router, wants_on_switch, wants_protocol,
};
pub use names::{
    Wanted, duplicate_if, free, is_any_port, is_datapath, is_group, is_port, is_router, is_set,
    is_switch, may_want, no_duplicate, wants, wants_owner, with_some,
};
pub use ports::{is_port_in_place, is_router_port_in_place};
pub use routes::{
    binding_like, has_nat, has_route, may_name_router_port, nat_like, policy_or, route_like,
};
