ghost use Rattle.std.specs.Prelude.{◌≡◌, ◌++◌, ◌&&◌, ◌==◌, map, IfOk, OnOk};
ghost use Rattle.std.specs.List.{flat_map, list_any};
ghost use Rattle.nb_model.specs.Belongs.{is_router_kind};
ghost use Rattle.nb_model.specs.Readable.{macs_of};
ghost use Rattle.nb_model.specs.Ports.{is_router_word};
ghost use Rattle.net_rows.specs.Lookup.{arp_rules, arp_rules_of, lookup_rule, more_macs, looked_up, host_rules, port_l2_rules};
ghost use Rattle.net_rows.specs.Unit.{said_by, unit_of};
ghost use Rattle.ls_l2.specs.inner.Macs.{own_macs, peer_macs};

use crate::arp::put_arp_rules;
use nb_records::{Addr, PortKind};
use net_rows::{PortL2Input, Rule, Unit, UnitKind};
use nv_base::{Field, Ip4, Kept, Mac, Name, ObjId, OutOfMemory};
use sb_model::{Stage, as_mac, equals, goes_out_by};
use sb_rows::NewRows;
use std::alloc::Global;

/// A switch port in the stages of ARP replies and of the lookup: a host is answered for, and a packet for a MAC of the port goes out by
/// it (ovn-northd(8), 'Ingress Table: ARP/ND responder' and 'Ingress Table: Destination Lookup'). The key is the port.
#[derive(Drop)]
pub struct PortL2;

impl UnitKind for PortL2 {
    type Key = ObjId;

    type Input = PortL2Input;

    ghost unit_for = { λ port input. unit_of input.dp port };

    ghost rules_of = { port_l2_rules };

    fn unit(&self, key: &ObjId, input: &PortL2Input) -> Unit {
        Unit::of(input.dp, *key)
    }

    fn put(
        &self,
        alloc: Global,
        rows: &mut NewRows,
        unit: Unit,
        input: &PortL2Input,
    ) -> Result<(), OutOfMemory> {
        put_port_l2_rules(alloc, rows, unit, input)
    }
}

#[tactic(auto, unfolding(net_rows::specs::Lookup::port_l2_rules))]
fn put_port_l2_rules(
    alloc: Global,
    rows: &mut NewRows,
    unit: Unit,
    input: &PortL2Input,
) -> Result<(), OutOfMemory>
    ensures { OnOk result (rows.new ≡ rows.old ++ said_by unit (port_l2_rules input.now)) }
{
    if !input.enabled {
        return Ok(());
    }
    put_host_rules(alloc, rows, unit, input)?;
    put_lookup_rules(alloc, rows, unit, input)?;
    Ok(())
}

// A host is answered for.
fn put_host_rules(
    alloc: Global,
    rows: &mut NewRows,
    unit: Unit,
    input: &PortL2Input,
) -> Result<(), OutOfMemory>
    ensures { OnOk result (rows.new ≡ rows.old ++ said_by unit (host_rules input.now)) }
{
    match input.kind {
        PortKind::Router => Ok(()),
        PortKind::Host => {
            put_rules_of_addresses(alloc, rows, unit, &input.name, input.addresses.as_slice())
        }
    }
}

fn put_rules_of_addresses(
    alloc: Global,
    rows: &mut NewRows,
    unit: Unit,
    name: &Name,
    addresses: &[Addr],
) -> Result<(), OutOfMemory>
    ensures { OnOk result (rows.new ≡ rows.old ++ said_by unit (flat_map (arp_rules_of name.now) addresses.now)) }
{
    for addr in addresses {
        put_rules_of_address(alloc, rows, unit, name, addr)?;
    }
    Ok(())
}

fn put_rules_of_address(
    alloc: Global,
    rows: &mut NewRows,
    unit: Unit,
    name: &Name,
    addr: &Addr,
) -> Result<(), OutOfMemory>
    ensures { OnOk result (rows.new ≡ rows.old ++ said_by unit (arp_rules_of name.now addr.now)) }
{
    match addr {
        Addr::Unknown | Addr::Router => Ok(()),
        Addr::Host { mac, ips } => {
            put_rules_of_ips(alloc, rows, unit, name, *mac, ips.as_slice())
        }
    }
}

fn put_rules_of_ips(
    alloc: Global,
    rows: &mut NewRows,
    unit: Unit,
    name: &Name,
    mac: Mac,
    ips: &[Ip4],
) -> Result<(), OutOfMemory>
    ensures { OnOk result (rows.new ≡ rows.old ++ said_by unit (flat_map (arp_rules name.now mac) ips.now)) }
{
    for ip in ips {
        put_arp_rules(alloc, rows, unit, name, mac, *ip)?;
    }
    Ok(())
}

// A packet for a MAC that the port takes goes out by it.
fn put_lookup_rules(
    alloc: Global,
    rows: &mut NewRows,
    unit: Unit,
    input: &PortL2Input,
) -> Result<(), OutOfMemory>
    ensures { OnOk result (rows.new ≡ rows.old ++ said_by unit (map (lookup_rule input.now.name) (looked_up input.now))) }
{
    put_own_lookup_rules(alloc, rows, unit, input)?;
    put_peer_lookup_rules(alloc, rows, unit, input)?;
    Ok(())
}

// What is for the MACs of its addresses.
fn put_own_lookup_rules(
    alloc: Global,
    rows: &mut NewRows,
    unit: Unit,
    input: &PortL2Input,
) -> Result<(), OutOfMemory>
    ensures { OnOk result (rows.new ≡ rows.old ++ said_by unit (map (lookup_rule input.now.name) (own_macs input.now))) }
{
    for addr in input.addresses.as_slice() {
        put_lookup_rules_of(alloc, rows, unit, &input.name, addr)?;
    }
    Ok(())
}

fn put_lookup_rules_of(
    alloc: Global,
    rows: &mut NewRows,
    unit: Unit,
    name: &Name,
    addr: &Addr,
) -> Result<(), OutOfMemory>
    ensures { OnOk result (rows.new ≡ rows.old ++ said_by unit (map (lookup_rule name.now) (macs_of addr.now))) }
{
    match addr {
        Addr::Unknown | Addr::Router => Ok(()),
        Addr::Host { mac, .. } => unit.put(rows, lookup_rule(alloc, name, *mac)?),
    }
}

// What is for the MAC of its peer, where it stands for a router.
fn put_peer_lookup_rules(
    alloc: Global,
    rows: &mut NewRows,
    unit: Unit,
    input: &PortL2Input,
) -> Result<(), OutOfMemory>
    ensures { OnOk result (rows.new ≡ rows.old ++ said_by unit (map (lookup_rule input.now.name) (peer_macs input.now))) }
{
    if stands_for_router(input) {
        put_more_lookup_rules(alloc, rows, unit, input)
    } else {
        Ok(())
    }
}

// Whether a port is of kind Router and has the word `router` among its addresses.
fn stands_for_router(input: &PortL2Input) -> bool
    ensures { result ≡ (is_router_kind input.now.kind && list_any is_router_word input.now.addresses) }
{
    is_router_kind(input.kind) && has_router_word(input.addresses.as_slice())
}

fn is_router_kind(kind: PortKind) -> bool
    ensures { result ≡ is_router_kind kind }
{
    match kind {
        PortKind::Host => false,
        PortKind::Router => true,
    }
}

fn has_router_word(addresses: &[Addr]) -> bool
    ensures { result ≡ list_any is_router_word addresses.now }
{
    addresses.iter().any(|addr| is_router_word(addr))
}

fn is_router_word(addr: &Addr) -> bool
    ensures { result ≡ is_router_word addr.now }
{
    matches!(addr, Addr::Router)
}

// A MAC that the port has itself too has one row.
fn put_more_lookup_rules(
    alloc: Global,
    rows: &mut NewRows,
    unit: Unit,
    input: &PortL2Input,
) -> Result<(), OutOfMemory>
    ensures { OnOk result (rows.new ≡ rows.old ++ said_by unit (map (lookup_rule input.now.name) (more_macs input.now.peer_mac (own_macs input.now)))) }
{
    match input.peer_mac {
        None => Ok(()),
        Some(mac) => {
            if has_mac(input.addresses.as_slice(), mac) {
                Ok(())
            } else {
                unit.put(rows, lookup_rule(alloc, &input.name, mac)?)
            }
        }
    }
}

fn has_mac(addresses: &[Addr], mac: Mac) -> bool
    ensures { result ≡ list_any (λ addr. list_any (λ own. own == mac) (macs_of addr)) addresses.now }
{
    addresses.iter().any(|addr| is_mac_of(addr, mac))
}

fn is_mac_of(addr: &Addr, mac: Mac) -> bool
    ensures { result ≡ list_any (λ own. own == mac) (macs_of addr.now) }
{
    match addr {
        Addr::Unknown | Addr::Router => false,
        Addr::Host { mac: own, .. } => own.0 == mac.0,
    }
}

fn lookup_rule(alloc: Global, name: &Name, mac: Mac) -> Result<Rule, OutOfMemory>
    ensures { IfOk result (λ r. r ≡ lookup_rule name.now mac) }
{
    let actions = goes_out_by(alloc, name.copy(alloc)?)?;
    Ok(Rule {
        stage: Stage::LsInL2Lkup,
        priority: 50,
        matching: equals(Field::EthDst, as_mac(mac)),
        actions,
    })
}
