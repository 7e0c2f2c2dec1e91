ghost use Rattle.std.specs.Prelude.{◌≡◌, [], ◌∷◌, ◌++◌, IfOk, OnOk};
ghost use Rattle.sb_model.specs.Make.{is_predicate, one_of, drops};
ghost use Rattle.net_rows.specs.Unit.{rule, said_by, unit_of_datapath};
ghost use Rattle.lr_rows.specs.Input.{
  admission_rules,
  is_from_many,
  eight_bits,
  is_from_no_host,
  is_to_no_host,
  input_rules,
  router_in_rules,
};

use act_core::Step;
use expr_core::{Bits, Item, Pred, Rel, Right, Typed, TypedAtom};
use lr_rows::{as_address, as_network, one_step_rule};
use net_rows::{Rule, Unit, UnitKind};
use nv_base::{Field, Ip4, Items, ObjId, OutOfMemory, Prefix};
use sb_model::{Stage, bit, either, in_hexadecimal, is_one_of, predicate, takes_each};
use sb_rows::NewRows;
use std::alloc::Global;

/// What each router has in the stages of admission, of learning neighbours and of input (ovn-northd(8), 'Ingress Table 0: L2 Admission
/// Control', 'Neighbor learning' and 'IP Input'). The key is the router.
#[derive(Drop)]
pub struct RouterIn;

impl UnitKind for RouterIn {
    type Key = ObjId;

    type Input = ();

    ghost unit_for = { λ router input. unit_of_datapath router };

    ghost rules_of = { λ input. router_in_rules };

    fn unit(&self, key: &ObjId, _input: &()) -> Unit {
        Unit::of_datapath(*key)
    }

    fn put(
        &self,
        alloc: Global,
        rows: &mut NewRows,
        unit: Unit,
        _input: &(),
    ) -> Result<(), OutOfMemory> {
        put_router_in_rules(alloc, rows, unit)
    }
}

fn put_router_in_rules(alloc: Global, rows: &mut NewRows, unit: Unit) -> Result<(), OutOfMemory>
    ensures { OnOk result (rows.new ≡ rows.old ++ said_by unit router_in_rules) }
{
    put_admission_rules(alloc, rows, unit)?;
    put_input_rules(alloc, rows, unit)?;
    Ok(())
}

// No sender has a multicast MAC; a port admits the rest, and what tells no neighbour goes on.
fn put_admission_rules(alloc: Global, rows: &mut NewRows, unit: Unit) -> Result<(), OutOfMemory>
    ensures { OnOk result (rows.new ≡ rows.old ++ said_by unit admission_rules) }
{
    let from_many = bit(Field::EthSrc, 40);
    unit.put(
        rows,
        one_step_rule(alloc, Stage::LrInAdmission, 100, from_many, Step::Drop)?,
    )?;
    unit.put(
        rows,
        one_step_rule(alloc, Stage::LrInAdmission, 0, takes_each(), Step::Drop)?,
    )?;
    unit.put(
        rows,
        one_step_rule(alloc, Stage::LrInLearnNeighbor, 0, takes_each(), Step::Next)?,
    )?;
    Ok(())
}

// What no router passes on is dropped, and other IPv4 goes on.
fn put_input_rules(alloc: Global, rows: &mut NewRows, unit: Unit) -> Result<(), OutOfMemory>
    ensures { OnOk result (rows.new ≡ rows.old ++ said_by unit input_rules) }
{
    unit.put(rows, martian_rule(alloc)?)?;
    let is_arp = predicate(Pred::Arp);
    unit.put(
        rows,
        one_step_rule(alloc, Stage::LrInIpInput, 85, is_arp, Step::Drop)?,
    )?;
    unit.put(rows, rule_for_many(alloc)?)?;
    let is_ip4 = predicate(Pred::Ip4);
    unit.put(
        rows,
        one_step_rule(alloc, Stage::LrInIpInput, 10, is_ip4, Step::Next)?,
    )?;
    unit.put(
        rows,
        one_step_rule(alloc, Stage::LrInIpInput, 0, takes_each(), Step::Drop)?,
    )?;
    Ok(())
}

// What comes from no host or is for none is dropped.
fn martian_rule(alloc: Global) -> Result<Rule, OutOfMemory>
    ensures { IfOk result (λ r. r ≡ rule Stage.LrInIpInput 100 (one_of (is_from_many ∷ is_from_no_host ∷ is_to_no_host ∷ [])) drops) }
{
    let from_no_host = is_from_no_host(alloc)?;
    let to_no_host = is_to_no_host(alloc)?;
    let kinds = vec![in alloc; is_from_many(), from_no_host, to_no_host]?;
    let is_martian = Typed::disjunction(Items::from_items(kinds));
    one_step_rule(alloc, Stage::LrInIpInput, 100, is_martian, Step::Drop)
}

// The source is a multicast address.
fn is_from_many() -> Typed
    ensures { result ≡ is_from_many }
{
    Typed::atom(TypedAtom::Compare(
        Field::Ip4Src,
        Bits::Range(28, 31),
        Rel::Eq,
        Right::Item(Item::One(in_hexadecimal(0xe))),
    ))
}

// The source is the broadcast address, a loopback address, or of no network.
fn is_from_no_host(alloc: Global) -> Result<Typed, OutOfMemory>
    ensures { IfOk result (λ t. t ≡ is_from_no_host) }
{
    let items = vec![in alloc;
        as_address(Ip4(0xffff_ffff)),
        eight_bits(0x7f00_0000),
        eight_bits(0),
    ]?;
    Ok(is_one_of(Field::Ip4Src, Items::from_items(items)))
}

// The destination is a loopback address, or of no network.
fn is_to_no_host(alloc: Global) -> Result<Typed, OutOfMemory>
    ensures { IfOk result (λ t. t ≡ is_to_no_host) }
{
    let items = vec![in alloc; eight_bits(0x7f00_0000), eight_bits(0)]?;
    Ok(is_one_of(Field::Ip4Dst, Items::from_items(items)))
}

// A network of eight bits.
fn eight_bits(base: u32) -> Item
    ensures { result ≡ eight_bits base }
{
    as_network(Prefix {
        base: Ip4(base),
        len: 8,
    })
}

// What is for many is dropped.
fn rule_for_many(alloc: Global) -> Result<Rule, OutOfMemory>
    ensures { IfOk result (λ r. r ≡ rule Stage.LrInIpInput 50 (one_of (is_predicate Pred.EthBcast ∷ is_predicate Pred.Ip4Mcast ∷ [])) drops) }
{
    let for_many = either(alloc, predicate(Pred::EthBcast), predicate(Pred::Ip4Mcast))?;
    one_step_rule(alloc, Stage::LrInIpInput, 50, for_many, Step::Drop)
}
