//! The stage laws of switches that track connections: what each stage of ACLs, of load balancers and of connections does with a packet and the state, on
//! the full build of each sound network.
#![tactic(auto)]

mod tracking;

pub use tracking::{
    acls_rule_tracked_packets, connections_are_balanced, packets_are_asked_for, packets_are_kept,
    packets_are_looked_up,
};
