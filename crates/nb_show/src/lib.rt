//! The network as ovn-nbctl(8) shows it, each object with its number. A reader of the records: what it writes is tested, and not
//! proved.
#![tactic(auto)]

mod acls;
mod balancers;
mod columns;
mod objects;
mod quoted;
mod routers;
mod rules;
mod sets;
mod show;
mod switches;

pub use show::put_network;
