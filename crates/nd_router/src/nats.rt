//! The rows of the NAT rules of a router.
ghost use Rattle.std.specs.Prelude.{◌≡◌, ◌++◌, OnOk};
ghost use Rattle.std.specs.List.{flat_map};
ghost use Rattle.nb_model.specs.Sound.{IsSound};
ghost use Rattle.nb_router.specs.Vocabulary.{nats_of};
ghost use Rattle.nd_router.specs.inner.Made.{nat_rows};

use crate::unit::put_unit;
use lr_nat::NatRule;
use nb_records::Nat;
use nb_store::Records;
use nd_inputs::nat_rule_input;
use nv_base::{ObjId, OutOfMemory};
use sb_rows::NewRows;
use std::alloc::Global;

/// The rows of the NAT rules of a router come after the others.
pub(crate) fn put_nats(
    alloc: Global,
    rows: &mut NewRows,
    records: &Records,
    router: ObjId,
) -> Result<(), OutOfMemory>
    requires { IsSound records.now }
    ensures { OnOk result (rows.new ≡ rows.old ++ flat_map nat_rows (nats_of records.now router)) }
{
    let mut last = None;
    while let Some(nat) = records.nat_of(router, last) {
        put_nat(alloc, rows, nat)?;
        last = Some(nat.id);
    }
    Ok(())
}

#[tactic(auto, unfolding(crate::specs::inner::Made::nat_rows))]
fn put_nat(alloc: Global, rows: &mut NewRows, nat: &Nat) -> Result<(), OutOfMemory>
    ensures { OnOk result (rows.new ≡ rows.old ++ nat_rows nat.now) }
{
    put_unit(alloc, rows, &NatRule, &nat.id, &nat_rule_input(nat))
}
