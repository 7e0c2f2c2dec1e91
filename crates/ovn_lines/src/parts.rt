//! The parts of edits as text, each after a space.
use expr_core::{Typed, put_tree};
use nb_records::{
    Addr, Backend, Frontend, Guard, Member, NatKind, OwnerKind, Proto, RouteBy, Verdict, Way,
};
use nv_base::{Ip4, Mac, Name, OutOfMemory, Prefix, put_dec, put_ip4, put_mac, put_prefix};

pub(crate) fn put_word(out: &mut Vec<u8>, word: &[u8]) -> Result<(), OutOfMemory> {
    out.push(b' ')?;
    out.extend_from_slice(word)?;
    Ok(())
}

/// The word, where it holds.
pub(crate) fn put_if(out: &mut Vec<u8>, holds: bool, word: &[u8]) -> Result<(), OutOfMemory> {
    if holds {
        put_word(out, word)?;
    }
    Ok(())
}

pub(crate) fn put_name(out: &mut Vec<u8>, name: &Name) -> Result<(), OutOfMemory> {
    put_word(out, name.as_slice())
}

pub(crate) fn put_names(out: &mut Vec<u8>, names: &[Name]) -> Result<(), OutOfMemory> {
    for name in names {
        put_name(out, name)?;
    }
    Ok(())
}

pub(crate) fn put_maybe_name(out: &mut Vec<u8>, name: &Option<Name>) -> Result<(), OutOfMemory> {
    match name {
        Some(name) => put_name(out, name),
        None => put_word(out, b"-"),
    }
}

pub(crate) fn put_spaced_mac(out: &mut Vec<u8>, mac: Mac) -> Result<(), OutOfMemory> {
    out.push(b' ')?;
    put_mac(out, mac)
}

pub(crate) fn put_spaced_ip(out: &mut Vec<u8>, addr: Ip4) -> Result<(), OutOfMemory> {
    out.push(b' ')?;
    put_ip4(out, addr)
}

pub(crate) fn put_net(out: &mut Vec<u8>, net: Prefix) -> Result<(), OutOfMemory> {
    out.push(b' ')?;
    put_prefix(out, net)
}

pub(crate) fn put_nets(out: &mut Vec<u8>, nets: &[Prefix]) -> Result<(), OutOfMemory> {
    for net in nets {
        put_net(out, *net)?;
    }
    Ok(())
}

pub(crate) fn put_maybe_net(out: &mut Vec<u8>, net: Option<Prefix>) -> Result<(), OutOfMemory> {
    match net {
        Some(net) => put_net(out, net),
        None => put_word(out, b"-"),
    }
}

fn put_address(out: &mut Vec<u8>, addr: &Addr) -> Result<(), OutOfMemory> {
    match addr {
        Addr::Unknown => put_word(out, b"unknown"),
        Addr::Router => put_word(out, b"router"),
        Addr::Host { mac, ips } => {
            put_spaced_mac(out, *mac)?;
            for addr in ips.as_slice() {
                put_spaced_ip(out, *addr)?;
            }
            Ok(())
        }
    }
}

pub(crate) fn put_addresses(out: &mut Vec<u8>, list: &[Addr]) -> Result<(), OutOfMemory> {
    for addr in list {
        put_address(out, addr)?;
        out.push(b',')?;
    }
    Ok(())
}

pub(crate) fn put_guards(out: &mut Vec<u8>, guards: &[Guard]) -> Result<(), OutOfMemory> {
    for guard in guards {
        put_spaced_mac(out, guard.mac)?;
        put_nets(out, guard.nets.as_slice())?;
        out.push(b',')?;
    }
    Ok(())
}

pub(crate) fn put_members(out: &mut Vec<u8>, members: &[Member]) -> Result<(), OutOfMemory> {
    for member in members {
        match member {
            Member::Mac(mac) => put_spaced_mac(out, *mac)?,
            Member::Net(net) => put_net(out, *net)?,
        }
    }
    Ok(())
}

fn put_port(out: &mut Vec<u8>, port: Option<u16>) -> Result<(), OutOfMemory> {
    if let Some(port) = port {
        out.push(b':')?;
        put_dec(out, u128::from(port))?;
    }
    Ok(())
}

pub(crate) fn put_frontend(out: &mut Vec<u8>, at: Frontend) -> Result<(), OutOfMemory> {
    put_spaced_ip(out, at.addr)?;
    put_port(out, at.port)
}

pub(crate) fn put_backends(out: &mut Vec<u8>, backends: &[Backend]) -> Result<(), OutOfMemory> {
    for backend in backends {
        put_spaced_ip(out, backend.addr)?;
        put_port(out, backend.port)?;
    }
    Ok(())
}

pub(crate) fn put_policy(out: &mut Vec<u8>, by: Option<RouteBy>) -> Result<(), OutOfMemory> {
    match by {
        Some(RouteBy::Dst) => put_word(out, b"dst-ip"),
        Some(RouteBy::Src) => put_word(out, b"src-ip"),
        None => Ok(()),
    }
}

pub(crate) fn put_owner_kind(out: &mut Vec<u8>, of: Option<OwnerKind>) -> Result<(), OutOfMemory> {
    match of {
        Some(OwnerKind::Switch) => put_word(out, b"switch"),
        Some(OwnerKind::Group) => put_word(out, b"port-group"),
        None => Ok(()),
    }
}

pub(crate) fn put_nat_kind(out: &mut Vec<u8>, kind: NatKind) -> Result<(), OutOfMemory> {
    match kind {
        NatKind::Snat => put_word(out, b"snat"),
        NatKind::Dnat => put_word(out, b"dnat"),
        NatKind::DnatAndSnat => put_word(out, b"dnat_and_snat"),
    }
}

pub(crate) fn put_way(out: &mut Vec<u8>, way: Way) -> Result<(), OutOfMemory> {
    match way {
        Way::From => put_word(out, b"from-lport"),
        Way::To => put_word(out, b"to-lport"),
    }
}

pub(crate) fn put_verdict(out: &mut Vec<u8>, verdict: Verdict) -> Result<(), OutOfMemory> {
    match verdict {
        Verdict::Allow => put_word(out, b"allow"),
        Verdict::AllowRelated => put_word(out, b"allow-related"),
        Verdict::AllowStateless => put_word(out, b"allow-stateless"),
        Verdict::Drop => put_word(out, b"drop"),
        Verdict::Reject => put_word(out, b"reject"),
    }
}

pub(crate) fn put_rule(
    out: &mut Vec<u8>,
    priority: u16,
    matching: &Typed,
) -> Result<(), OutOfMemory> {
    out.push(b' ')?;
    put_dec(out, u128::from(priority))?;
    out.extend_from_slice(b" '")?;
    put_tree(out, matching)?;
    out.push(b'\'')?;
    Ok(())
}

pub(crate) fn put_maybe_nat_kind(
    out: &mut Vec<u8>,
    kind: Option<NatKind>,
) -> Result<(), OutOfMemory> {
    match kind {
        Some(kind) => put_nat_kind(out, kind),
        None => Ok(()),
    }
}

pub(crate) fn put_proto(out: &mut Vec<u8>, proto: Option<Proto>) -> Result<(), OutOfMemory> {
    match proto {
        Some(Proto::Tcp) => put_word(out, b"tcp"),
        Some(Proto::Udp) => put_word(out, b"udp"),
        None => Ok(()),
    }
}

pub(crate) fn put_maybe_frontend(
    out: &mut Vec<u8>,
    at: Option<Frontend>,
) -> Result<(), OutOfMemory> {
    match at {
        Some(at) => put_frontend(out, at),
        None => put_word(out, b"-"),
    }
}

pub(crate) fn put_maybe_way(out: &mut Vec<u8>, way: Option<Way>) -> Result<(), OutOfMemory> {
    match way {
        Some(way) => put_way(out, way),
        None => Ok(()),
    }
}

pub(crate) fn put_maybe_rule(
    out: &mut Vec<u8>,
    rule: &Option<(u16, Typed)>,
) -> Result<(), OutOfMemory> {
    match rule {
        Some((priority, matching)) => put_rule(out, *priority, matching),
        None => Ok(()),
    }
}
