//! The northbound database (ovn-nb(5)): its records, the edits that commands ask for, and why a line is refused.
#![tactic(auto)]

mod acl;
mod balancer;
mod edit;
mod ips;
mod kept;
mod lists;
mod named;
mod numbers;
mod owned;
mod ports;
mod probes;
mod refusal;
mod router;
mod sets;
mod switch;
mod tag;
mod weights;

pub use acl::{Acl, Verdict, Way};
pub use balancer::{Backend, Frontend, Lb, Proto, Vip};
pub use edit::{Edit, OwnerKind};
pub use numbers::Numbers;
pub use probes::{HasValue, Named, Names};
pub use refusal::{Kind, MatchRule, MicroRule, Refusal};
pub use router::{Binding, Nat, NatKind, Route, RouteBy, Router, RouterPort};
pub use sets::{AddrSet, Group, Member};
pub use switch::{Addr, Guard, Port, PortKind, Switch};
pub use tag::{Rule, Tag};
