ghost use Rattle.std.specs.Prelude.{◌≡◌, ◌++◌, OnOk};
ghost use Rattle.net_rows.specs.Unit.{said_by, unit_of};
ghost use Rattle.lr_rows.specs.Balancers.{vip_addr_rules};

use lr_rows::{VipAddrInput, arp_rule_for};
use net_rows::{Unit, UnitKind};
use nv_base::{Ip4, ObjId, OutOfMemory};
use sb_rows::NewRows;
use std::alloc::Global;

/// An address of the VIPs of a load balancer at a router: who asks for it is answered (ovn-northd(8), 'IP Input'). The key is the load
/// balancer, the address and the router; the rows are made for the load balancer.
#[derive(Drop)]
pub struct VipAddr;

impl UnitKind for VipAddr {
    type Key = (ObjId, Ip4, ObjId);

    type Input = VipAddrInput;

    ghost unit_for = { λ key input. unit_of key.2 key.0 };

    ghost rules_of = { vip_addr_rules };

    fn unit(&self, key: &(ObjId, Ip4, ObjId), _input: &VipAddrInput) -> Unit {
        Unit::of(key.2, key.0)
    }

    fn put(
        &self,
        alloc: Global,
        rows: &mut NewRows,
        unit: Unit,
        input: &VipAddrInput,
    ) -> Result<(), OutOfMemory> {
        put_vip_addr_rules(alloc, rows, unit, *input)
    }
}

#[tactic(auto, unfolding(lr_rows::specs::Balancers::vip_addr_rules))]
fn put_vip_addr_rules(
    alloc: Global,
    rows: &mut NewRows,
    unit: Unit,
    input: VipAddrInput,
) -> Result<(), OutOfMemory>
    ensures { OnOk result (rows.new ≡ rows.old ++ said_by unit (vip_addr_rules input)) }
{
    unit.put(rows, arp_rule_for(alloc, input.addr)?)
}
