//! The commands that edit as text, each on its line, and how their words are written (not from OVN; the commands are those of
//! ovn-nbctl(8)).
#![tactic(auto)]

mod commands;
mod rules;
mod words;

pub use commands::{
    put_lr_add, put_lr_nat_add, put_lr_route_add, put_lrp_add, put_ls_add, put_lsp_add,
    put_lsp_set_addresses, put_lsp_set_options, put_lsp_set_port_security, put_port_disabled,
    put_router_port_disabled, put_smb_add, put_to_router,
};
pub use rules::{
    put_as_add, put_group_acl, put_lb_add, put_lr_lb_add, put_ls_lb_add, put_pg_add, put_switch_acl,
};
pub use words::{
    Word, nat_kind_text, proto_text, put_backends, put_each, put_ip4_word, put_mac_word,
    put_net_word, put_network, put_networks, put_service, put_word, verdict_text, way_text,
};
