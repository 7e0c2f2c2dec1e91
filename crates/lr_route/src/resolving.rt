ghost use Rattle.std.specs.Prelude.{◌≡◌, [], ◌∷◌, ◌++◌, map, IfOk, OnOk};
ghost use Rattle.net_rows.specs.Unit.{said_by, unit_of};
ghost use Rattle.sb_model.specs.Make.{as_mac, steps};
ghost use Rattle.lr_rows.specs.Make.{becomes};
ghost use Rattle.lr_rows.specs.Neighbours.{resolving_rule, binding_rules, neighbour_rules};

use act_core::{Action, Step};
use lr_rows::{BindingInput, Host, NeighbourInput, becomes};
use net_rows::{Rule, Unit, UnitKind};
use nv_base::{Field, Items, Kept, Name, ObjId, OutOfMemory};
use sb_model::{Stage, as_ip4, as_mac, both, equals, is_port};
use sb_rows::NewRows;
use std::alloc::Global;

/// A static MAC binding: the MAC of an address at the other side of a router port (ovn-northd(8), 'ARP/ND Resolution'). The key is the
/// binding.
#[derive(Drop)]
pub struct Binding;

impl UnitKind for Binding {
    type Key = ObjId;

    type Input = BindingInput;

    ghost unit_for = { λ binding input. unit_of input.dp binding };

    ghost rules_of = { binding_rules };

    fn unit(&self, key: &ObjId, input: &BindingInput) -> Unit {
        Unit::of(input.dp, *key)
    }

    fn put(
        &self,
        alloc: Global,
        rows: &mut NewRows,
        unit: Unit,
        input: &BindingInput,
    ) -> Result<(), OutOfMemory> {
        put_binding_rules(alloc, rows, unit, input)
    }
}

#[tactic(auto, unfolding(lr_rows::specs::Neighbours::binding_rules))]
fn put_binding_rules(
    alloc: Global,
    rows: &mut NewRows,
    unit: Unit,
    input: &BindingInput,
) -> Result<(), OutOfMemory>
    ensures { OnOk result (rows.new ≡ rows.old ++ said_by unit (binding_rules input.now)) }
{
    unit.put(rows, resolving_rule(alloc, 150, &input.name, input.host)?)
}

/// What a router port knows of a port of the switch at its other side: the MACs of its addresses (ovn-northd(8), 'ARP/ND Resolution').
/// The key is both, the router port first; the rows are made for the other port.
#[derive(Drop)]
pub struct Neighbour;

impl UnitKind for Neighbour {
    type Key = (ObjId, ObjId);

    type Input = NeighbourInput;

    ghost unit_for = { λ key input. unit_of input.dp key.1 };

    ghost rules_of = { neighbour_rules };

    fn unit(&self, key: &(ObjId, ObjId), input: &NeighbourInput) -> Unit {
        Unit::of(input.dp, key.1)
    }

    fn put(
        &self,
        alloc: Global,
        rows: &mut NewRows,
        unit: Unit,
        input: &NeighbourInput,
    ) -> Result<(), OutOfMemory> {
        put_neighbour_rules(alloc, rows, unit, input)
    }
}

#[tactic(auto, unfolding(lr_rows::specs::Neighbours::neighbour_rules))]
fn put_neighbour_rules(
    alloc: Global,
    rows: &mut NewRows,
    unit: Unit,
    input: &NeighbourInput,
) -> Result<(), OutOfMemory>
    ensures { OnOk result (rows.new ≡ rows.old ++ said_by unit (neighbour_rules input.now)) }
{
    put_rules_of_hosts(alloc, rows, unit, &input.name, input.hosts.as_slice())
}

fn put_rules_of_hosts(
    alloc: Global,
    rows: &mut NewRows,
    unit: Unit,
    name: &Name,
    hosts: &[Host],
) -> Result<(), OutOfMemory>
    ensures { OnOk result (rows.new ≡ rows.old ++ said_by unit (map (resolving_rule 100 name.now) hosts.now)) }
{
    for host in hosts {
        unit.put(rows, resolving_rule(alloc, 100, name, *host)?)?;
    }
    Ok(())
}

// What leaves by the port of this name for the address of a host is for its MAC.
fn resolving_rule(
    alloc: Global,
    priority: u16,
    name: &Name,
    host: Host,
) -> Result<Rule, OutOfMemory>
    ensures { IfOk result (λ r. r ≡ resolving_rule priority name.now host) }
{
    let actions = resolves(alloc, host)?;
    let by_port = is_port(Field::Outport, name.copy(alloc)?);
    let to_host = equals(Field::Reg0, as_ip4(host.addr));
    Ok(Rule {
        stage: Stage::LrInArpResolve,
        priority,
        matching: both(alloc, by_port, to_host)?,
        actions,
    })
}

fn resolves(alloc: Global, host: Host) -> Result<Items<Action>, OutOfMemory>
    ensures { IfOk result (λ actions. actions ≡ steps (becomes Field.EthDst (as_mac host.mac) ∷ Step.Next ∷ [])) }
{
    let known = becomes(Field::EthDst, as_mac(host.mac));
    Ok(Items::from_items(vec![in alloc; Action::Step(known), Action::Step(Step::Next)]?))
}
