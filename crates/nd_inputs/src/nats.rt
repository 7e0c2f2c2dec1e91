//! The inputs of the units of address translation.
ghost use Rattle.std.specs.Prelude.{◌≡◌, not, Some};
ghost use Rattle.std.specs.List.{list_any};
ghost use Rattle.lr_units.specs.Units.{nat_rule_input, router_nat_input};
ghost use Rattle.nb_model.specs.Belongs.{is_snat};
ghost use Rattle.nb_model.specs.Sound.{IsSound};
ghost use Rattle.nb_router.specs.Vocabulary.{dnats, nats_of};
ghost use Rattle.nv_table.specs.Table.{record_of};

use lr_rows::{NatRuleInput, RouterNatInput};
use nb_records::{Nat, NatKind, Router};
use nb_store::Records;
use nv_base::ObjId;

/// The input of a NAT rule.
pub fn nat_rule_input(nat: &Nat) -> NatRuleInput
    ensures { result ≡ nat_rule_input nat.now }
{
    NatRuleInput {
        dp: nat.router,
        kind: nat.kind,
        external: nat.external,
        logical: nat.logical,
    }
}

/// The input of the stages in which a router translates addresses.
pub fn router_nat_input(records: &Records, router: &Router) -> RouterNatInput
    requires sound { IsSound records.now }
    requires there { record_of (λ x. x.id) router.now.id records.now.routers ≡ Some router.now }
    ensures { result ≡ router_nat_input records.now router.now }
{
    RouterNatInput {
        dnats: changes_destinations(records, router),
    }
}

// Whether a NAT rule or a load balancer of a router changes destinations.
fn changes_destinations(records: &Records, router: &Router) -> bool
    requires sound { IsSound records.now }
    requires there { record_of (λ x. x.id) router.now.id records.now.routers ≡ Some router.now }
    ensures { result ≡ dnats records.now router.now.id }
{
    has_dnat(records, router.id) || !router.lbs.as_slice().is_empty()
}

// Whether a NAT rule of the router changes destinations.
fn has_dnat(records: &Records, router: ObjId) -> bool
    requires { IsSound records.now }
    ensures { result ≡ list_any (λ nat. not (is_snat nat.kind)) (nats_of records.now router) }
{
    let mut last = None;
    while let Some(nat) = records.nat_of(router, last) {
        if !is_snat(nat.kind) {
            return true;
        }
        last = Some(nat.id);
    }
    false
}

fn is_snat(kind: NatKind) -> bool
    ensures { result ≡ is_snat kind }
{
    matches!(kind, NatKind::Snat)
}
