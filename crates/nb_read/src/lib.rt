//! What the words of commands mean: names, keywords, addresses, matches, and lists of these. Each reading gets the number of the
//! word in its line, by which a refusal names it.
#![tactic(auto)]

mod balancing;
mod hosts;
mod keywords;
mod matching;
mod naming;
mod options;
mod router_networks;
mod security;
mod sets;
mod split;
mod words;

pub use balancing::{backends, vip};
pub use hosts::addresses;
pub use keywords::{nat_kind_of, proto_of, state_of, verdict_of, way_of};
pub use matching::{acl_match, typed_match};
pub use naming::{names, object_name, owner_name, set_name};
pub use options::{is_router_port, port_options};
pub use router_networks::networks;
pub use security::guards;
pub use sets::members;
pub use split::parts;
pub use words::{
    ip, logical, mac, nat_kind, network, nexthop, port_kind, priority, proto, state, verdict, way,
};
