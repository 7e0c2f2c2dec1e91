//! The commands of switches, ports, routers and what belongs to them, each on its line.
ghost use Rattle.std.specs.Prelude.{◌≡◌, [], false, Some, ◌++◌, OnOk, OnErr};
ghost use Rattle.nv_base.specs.Growth.{GrowsAtEnd};
ghost use Rattle.nb_records.specs.Refusal.{spaced};
ghost use Rattle.nb_records.specs.declared.edit.Edit.TheVariants as edit;
ghost use Rattle.nb_records.specs.declared.switch.PortKind.TheVariants as kind;
ghost use Rattle.nb_text.specs.Words.{policy_text, maybe_spaced, nat_kind_text};
ghost use Rattle.nb_text.specs.Commands.{command_line, router_port_text, policy};

use crate::words::{
    nat_kind_text, put_each, put_ip4_word, put_mac_word, put_net_word, put_network, put_networks,
    put_word,
};
use nb_records::{Addr, Binding, Guard, Nat, NatKind, Route, RouteBy, RouterPort};
use nv_base::{Name, OutOfMemory};

/// Appends the line of `ls-add`. After `OutOfMemory` more bytes may follow what was there.
pub fn put_ls_add(out: &mut Vec<u8>, name: &[u8]) -> Result<(), OutOfMemory>
    ensures ok { OnOk result (out.new.items ≡ out.old.items ++ command_line (edit.LsAdd name.now false)) }
    ensures err { OnErr result (GrowsAtEnd out.old.items out.new.items) }
{
    out.extend_from_slice(b"ls-add")?;
    put_word(out, name)?;
    out.push(b'\n')?;
    Ok(())
}

/// Appends the line of `lsp-add`. After `OutOfMemory` more bytes may follow what was there.
pub fn put_lsp_add(out: &mut Vec<u8>, switch: &[u8], port: &[u8]) -> Result<(), OutOfMemory>
    ensures ok { OnOk result (out.new.items ≡ out.old.items ++ command_line (edit.LspAdd switch.now port.now false)) }
    ensures err { OnErr result (GrowsAtEnd out.old.items out.new.items) }
{
    out.extend_from_slice(b"lsp-add")?;
    put_word(out, switch)?;
    put_word(out, port)?;
    out.push(b'\n')?;
    Ok(())
}

/// Appends the line of `lsp-set-type` to `router`. After `OutOfMemory` more bytes may follow what was there.
pub fn put_to_router(out: &mut Vec<u8>, port: &[u8]) -> Result<(), OutOfMemory>
    ensures ok { OnOk result (out.new.items ≡ out.old.items ++ command_line (edit.LspSetType port.now kind.Router)) }
    ensures err { OnErr result (GrowsAtEnd out.old.items out.new.items) }
{
    out.extend_from_slice(b"lsp-set-type")?;
    put_word(out, port)?;
    out.extend_from_slice(b" router\n")?;
    Ok(())
}

/// Appends the line of `lsp-set-options` with a router port. After `OutOfMemory` more bytes may follow what was there.
pub fn put_lsp_set_options(
    out: &mut Vec<u8>,
    port: &[u8],
    router_port: &[u8],
) -> Result<(), OutOfMemory>
    ensures ok { OnOk result (out.new.items ≡ out.old.items ++ command_line (edit.LspSetOptions port.now (Some router_port.now))) }
    ensures err { OnErr result (GrowsAtEnd out.old.items out.new.items) }
{
    out.extend_from_slice(b"lsp-set-options")?;
    put_word(out, port)?;
    out.extend_from_slice(b" router-port=")?;
    out.extend_from_slice(router_port)?;
    out.push(b'\n')?;
    Ok(())
}

/// Appends the line of `lsp-set-addresses`. After `OutOfMemory` more bytes may follow what was there.
pub fn put_lsp_set_addresses(
    out: &mut Vec<u8>,
    port: &[u8],
    addresses: &[Addr],
) -> Result<(), OutOfMemory>
    ensures ok { OnOk result (out.new.items ≡ out.old.items ++ command_line (edit.LspSetAddresses port.now addresses.now)) }
    ensures err { OnErr result (GrowsAtEnd out.old.items out.new.items) }
{
    out.extend_from_slice(b"lsp-set-addresses")?;
    put_word(out, port)?;
    put_each(out, addresses)?;
    out.push(b'\n')?;
    Ok(())
}

/// Appends the line of `lsp-set-port-security`. After `OutOfMemory` more bytes may follow what was there.
pub fn put_lsp_set_port_security(
    out: &mut Vec<u8>,
    port: &[u8],
    guards: &[Guard],
) -> Result<(), OutOfMemory>
    ensures ok { OnOk result (out.new.items ≡ out.old.items ++ command_line (edit.LspSetPortSecurity port.now guards.now)) }
    ensures err { OnErr result (GrowsAtEnd out.old.items out.new.items) }
{
    out.extend_from_slice(b"lsp-set-port-security")?;
    put_word(out, port)?;
    put_each(out, guards)?;
    out.push(b'\n')?;
    Ok(())
}

/// Appends the line of `lsp-set-enabled` to `disabled`. After `OutOfMemory` more bytes may follow what was there.
pub fn put_port_disabled(out: &mut Vec<u8>, port: &[u8]) -> Result<(), OutOfMemory>
    ensures ok { OnOk result (out.new.items ≡ out.old.items ++ command_line (edit.LspSetEnabled port.now false)) }
    ensures err { OnErr result (GrowsAtEnd out.old.items out.new.items) }
{
    out.extend_from_slice(b"lsp-set-enabled")?;
    put_word(out, port)?;
    put_word(out, b"disabled")?;
    out.push(b'\n')?;
    Ok(())
}

/// Appends the line of `lr-add`. After `OutOfMemory` more bytes may follow what was there.
pub fn put_lr_add(out: &mut Vec<u8>, name: &[u8]) -> Result<(), OutOfMemory>
    ensures ok { OnOk result (out.new.items ≡ out.old.items ++ command_line (edit.LrAdd name.now false)) }
    ensures err { OnErr result (GrowsAtEnd out.old.items out.new.items) }
{
    out.extend_from_slice(b"lr-add")?;
    put_word(out, name)?;
    out.push(b'\n')?;
    Ok(())
}

/// Appends the line of `lrp-add` of a router port. After `OutOfMemory` more bytes may follow what was there.
pub fn put_lrp_add(out: &mut Vec<u8>, router: &[u8], port: &RouterPort) -> Result<(), OutOfMemory>
    ensures ok { OnOk result (out.new.items ≡ out.old.items ++ command_line (edit.LrpAdd router.now port.now.name port.now.mac port.now.nets false)) }
    ensures err { OnErr result (GrowsAtEnd out.old.items out.new.items) }
{
    out.extend_from_slice(b"lrp-add")?;
    put_word(out, router)?;
    put_word(out, port.name.as_slice())?;
    put_mac_word(out, port.mac)?;
    put_networks(out, port.nets.as_slice())?;
    out.push(b'\n')?;
    Ok(())
}

/// Appends the line of `lrp-set-enabled` to `disabled`. After `OutOfMemory` more bytes may follow what was there.
pub fn put_router_port_disabled(out: &mut Vec<u8>, port: &[u8]) -> Result<(), OutOfMemory>
    ensures ok { OnOk result (out.new.items ≡ out.old.items ++ command_line (edit.LrpSetEnabled port.now false)) }
    ensures err { OnErr result (GrowsAtEnd out.old.items out.new.items) }
{
    out.extend_from_slice(b"lrp-set-enabled")?;
    put_word(out, port)?;
    put_word(out, b"disabled")?;
    out.push(b'\n')?;
    Ok(())
}

// The option for a policy that is not the first one.
fn put_policy(out: &mut Vec<u8>, by: RouteBy) -> Result<(), OutOfMemory>
    ensures ok { OnOk result (out.new.items ≡ out.old.items ++ policy_text (policy by)) }
    ensures err { OnErr result (GrowsAtEnd out.old.items out.new.items) }
{
    match by {
        RouteBy::Dst => Ok(()),
        RouteBy::Src => Ok(out.extend_from_slice(b"--policy=src-ip ")?),
    }
}

// A router port of a route, after a space, where there is one.
fn put_port_of_route(out: &mut Vec<u8>, port: &Option<Name>) -> Result<(), OutOfMemory>
    ensures ok { OnOk result (out.new.items ≡ out.old.items ++ maybe_spaced port.now) }
    ensures err { OnErr result (GrowsAtEnd out.old.items out.new.items) }
{
    match port {
        Some(name) => put_word(out, name.as_slice()),
        None => Ok(()),
    }
}

/// Appends the line of `lr-route-add` of a route. After `OutOfMemory` more bytes may follow what was there.
pub fn put_lr_route_add(out: &mut Vec<u8>, router: &[u8], route: &Route) -> Result<(), OutOfMemory>
    ensures ok { OnOk result (out.new.items ≡ out.old.items
        ++ command_line (edit.LrRouteAdd router.now route.now.prefix route.now.nexthop route.now.port (policy route.now.by))) }
    ensures err { OnErr result (GrowsAtEnd out.old.items out.new.items) }
{
    put_policy(out, route.by)?;
    out.extend_from_slice(b"lr-route-add")?;
    put_word(out, router)?;
    put_network(out, route.prefix)?;
    put_ip4_word(out, route.nexthop)?;
    put_port_of_route(out, &route.port)?;
    out.push(b'\n')?;
    Ok(())
}

// The type of a NAT rule, after a space.
fn put_nat_kind(out: &mut Vec<u8>, kind: NatKind) -> Result<(), OutOfMemory>
    ensures ok { OnOk result (out.new.items ≡ out.old.items ++ spaced (nat_kind_text kind)) }
    ensures err { OnErr result (GrowsAtEnd out.old.items out.new.items) }
{
    put_word(out, nat_kind_text(kind).as_bytes())
}

/// Appends the line of `lr-nat-add` of a NAT rule. After `OutOfMemory` more bytes may follow what was there.
pub fn put_lr_nat_add(out: &mut Vec<u8>, router: &[u8], nat: &Nat) -> Result<(), OutOfMemory>
    ensures ok { OnOk result (out.new.items ≡ out.old.items
        ++ command_line (edit.LrNatAdd router.now nat.now.kind nat.now.external nat.now.logical)) }
    ensures err { OnErr result (GrowsAtEnd out.old.items out.new.items) }
{
    out.extend_from_slice(b"lr-nat-add")?;
    put_word(out, router)?;
    put_nat_kind(out, nat.kind)?;
    put_ip4_word(out, nat.external)?;
    put_net_word(out, nat.logical)?;
    out.push(b'\n')?;
    Ok(())
}

/// Appends the line of `smb-add` of a binding. After `OutOfMemory` more bytes may follow what was there.
pub fn put_smb_add(out: &mut Vec<u8>, port: &[u8], binding: &Binding) -> Result<(), OutOfMemory>
    ensures ok { OnOk result (out.new.items ≡ out.old.items ++ command_line (edit.SmbAdd port.now binding.now.addr binding.now.mac)) }
    ensures err { OnErr result (GrowsAtEnd out.old.items out.new.items) }
{
    out.extend_from_slice(b"smb-add")?;
    put_word(out, port)?;
    put_ip4_word(out, binding.addr)?;
    put_mac_word(out, binding.mac)?;
    out.push(b'\n')?;
    Ok(())
}
