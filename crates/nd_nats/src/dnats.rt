//! NAT rules that change destinations, each with its router.
ghost use Rattle.std.specs.Prelude.{◌≡◌, not, IfOk, IsTrue};
ghost use Rattle.inc_table.specs.Delta.{IsDifference, alters_each};
ghost use Rattle.nb_model.specs.Belongs.{is_snat};
ghost use Rattle.nb_model.specs.Network.{Network};
ghost use Rattle.nb_model.specs.Sound.{IsSound};
ghost use Rattle.nd_nats.specs.Dnats.{dnat_rules, is_dnat};
ghost use Rattle.nd_touched.specs.Touched.{AreSameButFor};
ghost use Rattle.nd_touched.specs.Units.{HasUnits};
ghost use Rattle.net_units.specs.Keys.{by_number};
ghost use Rattle.nv_base.specs.contracts.object.ObjIdPartialEq.TheImpl as number;
ghost use Rattle.nv_map.specs.Map.{KeysRise};

use inc_feed::{Wanted, delta_of};
use inc_table::{Delta, Owned};
use nb_records::{Nat, NatKind};
use nb_store::Records;
use nd_touched::Touched;
use nv_base::{ObjId, OutOfMemory};
use std::alloc::Global;

// The NAT rules of a network that change destinations.
#[derive(Drop)]
struct DnatRules<'a> {
    records: &'a Records,
}

impl Wanted for DnatRules<'_> {
    ghost use Rattle.nd_nats.specs.Dnats.{is_dnat};
    ghost use Rattle.nd_owners.specs.inner.Found.{owner_where};
    ghost use Rattle.nv_table.specs.Table.{record_of};

    type Key = ObjId;

    type Value = ObjId;

    ghost wanted_of = { λ rules key. owner_where (λ nat. nat.router) is_dnat (record_of (λ x. x.id) key rules.records.now.nats) };

    fn wanted(&self, _alloc: Global, key: &ObjId) -> Result<Option<ObjId>, OutOfMemory> {
        match self.records.nats().get(*key) {
            Some(nat) if is_dnat(nat) => Ok(Some(nat.router)),
            _ => Ok(None),
        }
    }
}

fn is_dnat(nat: &Nat) -> bool
    ensures { result ≡ is_dnat nat.now }
{
    !matches!(nat.kind, NatKind::Snat)
}

/// What changed of the NAT rules that change destinations, each with its router, where this was touched. Where memory runs out the
/// answer is `OutOfMemory`.
pub fn dnat_delta(
    alloc: Global,
    records: &Records,
    touched: &Touched,
    there: &Owned<ObjId, ObjId>,
) -> Result<Delta<ObjId, ObjId>, OutOfMemory>
    requires sound { IsSound records.now }
    ensures tells { IfOk result (λ delta. (old : Network) → IsSound old → AreSameButFor touched.now old records.now → HasUnits by_number (dnat_rules old) there.now → IsDifference by_number (number.ghosts).eq there.now (dnat_rules records.now) delta) }
    ensures rise { IfOk result (λ delta. KeysRise by_number delta) }
    ensures alters { IfOk result (λ delta. IsTrue (alters_each by_number (number.ghosts).eq delta there.now)) }
{
    Ok(delta_of(alloc, &DnatRules { records }, &touched.nats, there)?)
}
