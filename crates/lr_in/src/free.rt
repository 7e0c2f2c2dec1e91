//! The rows of the addresses of a router port that neither NAT nor load balancing uses: no service is there.
ghost use Rattle.std.specs.Prelude.{◌≡◌, [], ◌∷◌, ◌++◌, map, IfOk, OnOk};
ghost use Rattle.sb_model.specs.Make.{is_predicate, all_of, drops};
ghost use Rattle.net_rows.specs.Unit.{rule, said_by};
ghost use Rattle.lr_rows.specs.Make.{as_address};
ghost use Rattle.lr_rows.specs.Input.{is_for, answers_from_port, service_rules, free_rules};

use crate::answers::answers_plainly;
use act_core::{Action, Step};
use expr_core::{Item, Pred, Typed};
use lr_rows::{as_address, one_step_rule};
use net_rows::{Rule, Unit};
use nv_base::{Field, Ip4, Items, OutOfMemory};
use sb_model::{Stage, both, is_one_of, predicate};
use sb_rows::NewRows;
use std::alloc::Global;

/// Where there is such an address.
pub(crate) fn put_free_rules(
    alloc: Global,
    rows: &mut NewRows,
    unit: Unit,
    addrs: &[Ip4],
) -> Result<(), OutOfMemory>
    ensures { OnOk result (rows.new ≡ rows.old ++ said_by unit (free_rules addrs.now)) }
{
    if addrs.is_empty() {
        return Ok(());
    }
    put_service_rules(alloc, rows, unit, addrs)
}

// TCP is reset, UDP gets an ICMP error, and the rest is dropped.
fn put_service_rules(
    alloc: Global,
    rows: &mut NewRows,
    unit: Unit,
    addrs: &[Ip4],
) -> Result<(), OutOfMemory>
    ensures { OnOk result (rows.new ≡ rows.old ++ said_by unit (service_rules addrs.now)) }
{
    unit.put(rows, reset_rule(alloc, addrs)?)?;
    unit.put(rows, unreachable_rule(alloc, addrs)?)?;
    let rest = is_for(alloc, addrs)?;
    unit.put(
        rows,
        one_step_rule(alloc, Stage::LrInIpInput, 60, rest, Step::Drop)?,
    )?;
    Ok(())
}

// What is for one of these addresses.
fn is_for(alloc: Global, addrs: &[Ip4]) -> Result<Typed, OutOfMemory>
    ensures { IfOk result (λ t. t ≡ is_for addrs.now) }
{
    Ok(is_one_of(Field::Ip4Dst, items_of(alloc, addrs)?))
}

fn items_of(alloc: Global, addrs: &[Ip4]) -> Result<Items<Item>, OutOfMemory>
    ensures { IfOk result (λ items. items ≡ map as_address addrs.now) }
{
    let mut items = Items::with_capacity(alloc, addrs.len())?;
    for addr in addrs {
        items.push(as_address(*addr))?;
    }
    Ok(items)
}

// TCP is reset.
fn reset_rule(alloc: Global, addrs: &[Ip4]) -> Result<Rule, OutOfMemory>
    ensures { IfOk result (λ r. r ≡ rule Stage.LrInIpInput 80 (all_of (is_for addrs.now ∷ is_predicate Pred.Tcp ∷ [])) (Action.TcpReset (answers_from_port []) ∷ [])) }
{
    let block = answers_plainly(alloc)?;
    let actions = vec![in alloc; Action::TcpReset(block)]?;
    let is_for = is_for(alloc, addrs)?;
    Ok(Rule {
        stage: Stage::LrInIpInput,
        priority: 80,
        matching: both(alloc, is_for, predicate(Pred::Tcp))?,
        actions: Items::from_items(actions),
    })
}

// UDP gets an ICMP error.
fn unreachable_rule(alloc: Global, addrs: &[Ip4]) -> Result<Rule, OutOfMemory>
    ensures { IfOk result (λ r. r ≡ rule Stage.LrInIpInput 80 (all_of (is_for addrs.now ∷ is_predicate Pred.Udp ∷ [])) (Action.Icmp4 (answers_from_port []) ∷ [])) }
{
    let block = answers_plainly(alloc)?;
    let actions = vec![in alloc; Action::Icmp4(block)]?;
    let is_for = is_for(alloc, addrs)?;
    Ok(Rule {
        stage: Stage::LrInIpInput,
        priority: 80,
        matching: both(alloc, is_for, predicate(Pred::Udp))?,
        actions: Items::from_items(actions),
    })
}
