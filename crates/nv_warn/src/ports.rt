//! Ports of switches that are to lead to routers.
use crate::told::Matter;
use nb_records::{Addr, Port, PortKind};
use nb_store::Records;

/// What is said of a port.
pub(crate) struct PortWarning {
    pub matter: Matter,
    /// After `port NAME`.
    pub says: &'static str,
    pub hint: &'static str,
    /// The command whose line is shown, and how the word of it begins that is marked.
    pub command: &'static [u8],
    pub word: &'static [u8],
}

static NO_OPTION: PortWarning = PortWarning {
    matter: Matter::NoOption,
    says: " has the address router, and no option router-port",
    hint: "lsp-set-type PORT router and lsp-set-options PORT router-port=NAME lead it to the port NAME of a router",
    command: b"lsp-set-addresses",
    word: b"router",
};

static NO_TYPE: PortWarning = PortWarning {
    matter: Matter::NoType,
    says: " has the option router-port, and not the type router, without which it leads nowhere",
    hint: "write lsp-set-type PORT router",
    command: b"lsp-set-options",
    word: b"router-port=",
};

static NO_PEER: PortWarning = PortWarning {
    matter: Matter::NoPeer,
    says: " leads to a port of a router that is not there",
    hint: "mend the name by lsp-set-options, or add the port by lrp-add",
    command: b"lsp-set-options",
    word: b"router-port=",
};

static NO_ADDRESS: PortWarning = PortWarning {
    matter: Matter::NoAddress,
    says: " leads to a router, and has no address, so what is for the router is dropped as unknown",
    hint: "write lsp-set-addresses PORT router",
    command: b"lsp-set-type",
    word: b"router",
};

fn is_router(addr: &Addr) -> bool {
    matches!(addr, Addr::Router)
}

fn has_router_address(port: &Port) -> bool {
    port.addresses.as_slice().iter().any(is_router)
}

// Whether the port of a router is there that the option names.
fn has_peer(records: &Records, port: &Port) -> bool {
    match &port.router_port {
        Some(name) => records.router_port_named(name).is_some(),
        None => false,
    }
}

/// What there is to warn of a port, if there is anything.
pub(crate) fn port_warning(records: &Records, port: &Port) -> Option<&'static PortWarning> {
    let is_router = port.kind == PortKind::Router;
    if port.router_port.is_none() {
        return if has_router_address(port) {
            Some(&NO_OPTION)
        } else {
            None
        };
    }
    if !is_router {
        Some(&NO_TYPE)
    } else if !has_peer(records, port) {
        Some(&NO_PEER)
    } else if port.addresses.as_slice().is_empty() {
        Some(&NO_ADDRESS)
    } else {
        None
    }
}
