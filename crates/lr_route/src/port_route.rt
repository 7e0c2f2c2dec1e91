ghost use Rattle.std.specs.Prelude.{◌≡◌, ◌++◌, map, IfOk, OnOk};
ghost use Rattle.net_rows.specs.Unit.{said_by, unit_of};
ghost use Rattle.lr_rows.specs.Routes.{
  priority_of_network,
  own_address_rules,
  exit_to,
  network_rule,
  delivery_rules,
  port_route_rules_of,
  port_route_rules,
};

use crate::leaving::routes_directly;
use act_core::Step;
use lr_rows::{Exit, PortRouteInput, addresses_of, cleared, is_within, one_step_rule};
use net_rows::{Rule, Unit, UnitKind};
use nv_base::{Field, Kept, Name, ObjId, OutOfMemory, Prefix};
use sb_model::{Stage, is_one_of, is_port};
use sb_rows::NewRows;
use std::alloc::Global;

/// A router port in the stages of routing and delivery: what is for its networks leaves by it (ovn-northd(8), 'IP Routing' and
/// 'Delivery'). The key is the port.
#[derive(Drop)]
pub struct PortRoute;

impl UnitKind for PortRoute {
    type Key = ObjId;

    type Input = PortRouteInput;

    ghost unit_for = { λ port input. unit_of input.dp port };

    ghost rules_of = { port_route_rules };

    fn unit(&self, key: &ObjId, input: &PortRouteInput) -> Unit {
        Unit::of(input.dp, *key)
    }

    fn put(
        &self,
        alloc: Global,
        rows: &mut NewRows,
        unit: Unit,
        input: &PortRouteInput,
    ) -> Result<(), OutOfMemory> {
        put_port_route_rules(alloc, rows, unit, input)
    }
}

// A port without networks has none.
#[tactic(auto, unfolding(lr_rows::specs::Routes::port_route_rules))]
fn put_port_route_rules(
    alloc: Global,
    rows: &mut NewRows,
    unit: Unit,
    input: &PortRouteInput,
) -> Result<(), OutOfMemory>
    ensures { OnOk result (rows.new ≡ rows.old ++ said_by unit (port_route_rules input.now)) }
{
    if input.nets.as_slice().is_empty() {
        return Ok(());
    }
    put_rules_of(alloc, rows, unit, input)
}

fn put_rules_of(
    alloc: Global,
    rows: &mut NewRows,
    unit: Unit,
    input: &PortRouteInput,
) -> Result<(), OutOfMemory>
    ensures { OnOk result (rows.new ≡ rows.old ++ said_by unit (port_route_rules_of input.now)) }
{
    put_own_address_rules(alloc, rows, unit, input)?;
    put_network_rules(alloc, rows, unit, input)?;
    put_delivery_rules(alloc, rows, unit, input.enabled, &input.name)?;
    Ok(())
}

// Nothing is routed to an address of the port.
fn put_own_address_rules(
    alloc: Global,
    rows: &mut NewRows,
    unit: Unit,
    input: &PortRouteInput,
) -> Result<(), OutOfMemory>
    ensures { OnOk result (rows.new ≡ rows.old ++ said_by unit (own_address_rules input.now)) }
{
    let is_own = is_one_of(Field::Ip4Dst, addresses_of(alloc, input.nets.as_slice())?);
    unit.put(
        rows,
        one_step_rule(alloc, Stage::LrInIpRouting, 200, is_own, Step::Drop)?,
    )
}

// What is for a network of the port leaves by it.
fn put_network_rules(
    alloc: Global,
    rows: &mut NewRows,
    unit: Unit,
    input: &PortRouteInput,
) -> Result<(), OutOfMemory>
    ensures { OnOk result (rows.new ≡ rows.old ++ said_by unit (map (network_rule input.now) input.now.nets)) }
{
    for net in input.nets.as_slice() {
        unit.put(rows, network_rule(alloc, input, *net)?)?;
    }
    Ok(())
}

fn network_rule(alloc: Global, input: &PortRouteInput, net: Prefix) -> Result<Rule, OutOfMemory>
    ensures { IfOk result (λ r. r ≡ network_rule input.now net) }
{
    Ok(Rule {
        stage: Stage::LrInIpRouting,
        priority: priority_of_network(net),
        matching: is_within(Field::Ip4Dst, cleared(net)),
        actions: routes_directly(alloc, exit_to(alloc, input, net)?)?,
    })
}

fn priority_of_network(net: Prefix) -> u16
    ensures { result ≡ priority_of_network net }
{
    4 * u16::from(net.len) + 3
}

// By which a packet leaves for this network of the port.
fn exit_to(alloc: Global, input: &PortRouteInput, net: Prefix) -> Result<Exit, OutOfMemory>
    ensures { IfOk result (λ exit. exit ≡ exit_to input.now net) }
{
    Ok(Exit {
        name: input.name.copy(alloc)?,
        mac: input.mac,
        addr: net.base,
    })
}

// An enabled port delivers.
fn put_delivery_rules(
    alloc: Global,
    rows: &mut NewRows,
    unit: Unit,
    enabled: bool,
    name: &Name,
) -> Result<(), OutOfMemory>
    ensures { OnOk result (rows.new ≡ rows.old ++ said_by unit (delivery_rules enabled name.now)) }
{
    if !enabled {
        return Ok(());
    }
    let to_port = is_port(Field::Outport, name.copy(alloc)?);
    unit.put(
        rows,
        one_step_rule(alloc, Stage::LrOutDelivery, 100, to_port, Step::Output)?,
    )?;
    Ok(())
}
