//! The stage laws of switches: what each stage does with a packet, on the full build of each sound network.
#![tactic(auto)]

mod acl_eval;
mod arp_rsp;
mod check_port_sec;
mod l2_lkup;
mod passing;

pub use acl_eval::{ls_in_acl_eval, ls_out_acl_eval};
pub use arp_rsp::ls_in_arp_rsp;
pub use check_port_sec::{ls_in_check_port_sec, ls_out_check_port_sec};
pub use l2_lkup::{ls_in_l2_lkup, ls_in_l2_unknown};
pub use passing::stages_without_connections_pass;
