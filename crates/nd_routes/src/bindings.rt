//! The units of static bindings.
ghost use Rattle.std.specs.Prelude.{◌≡◌, ◌++◌, IfOk, IsTrue, OnOk};
ghost use Rattle.std.specs.List.{flat_map};
ghost use Rattle.inc_feed.specs.Feed.{has_key};
ghost use Rattle.inc_table.specs.Delta.{IsDifference, alters_each};
ghost use Rattle.lr_rows.specs.contracts.inputs.BindingInputPartialEq.TheImpl as input;
ghost use Rattle.lr_units.specs.Units.{binding_units};
ghost use Rattle.nb_model.specs.Network.{Network};
ghost use Rattle.nb_model.specs.Sound.{IsSound};
ghost use Rattle.nd_routes.specs.inner.Bindings.{numbers_at};
ghost use Rattle.nd_touched.specs.Touched.{AreSameButFor};
ghost use Rattle.nd_touched.specs.Units.{HasUnits};
ghost use Rattle.net_units.specs.Keys.{by_number};
ghost use Rattle.nv_base.specs.declared.object.ObjId.{ObjId};
ghost use Rattle.nv_map.specs.Map.{KeysRise};

use inc_feed::{Keys, Wanted, delta_of};
use inc_table::{Delta, Owned};
use lr_rows::BindingInput;
use nb_store::Records;
use nd_inputs::binding_input;
use nd_touched::Touched;
use nv_base::{ObjId, OutOfMemory};
use std::alloc::Global;

// The units of static bindings of a network.
#[derive(Drop)]
struct BindingUnits<'a> {
    records: &'a Records,
}

impl Wanted for BindingUnits<'_> {
    ghost use Rattle.nd_routes.specs.inner.Bindings.{binding_where};
    ghost use Rattle.nv_table.specs.Table.{record_of};

    type Key = ObjId;

    type Value = BindingInput;

    ghost wanted_of = { λ units key. binding_where units.records.now.router_ports (record_of (λ x. x.id) key units.records.now.bindings) };

    fn wanted(&self, alloc: Global, key: &ObjId) -> Result<Option<BindingInput>, OutOfMemory> {
        let Some(binding) = self.records.bindings().get(*key) else {
            return Ok(None);
        };
        match self.records.router_ports().get(binding.port) {
            Some(port) => Ok(Some(binding_input(alloc, port, binding)?)),
            None => Ok(None),
        }
    }
}

/// What changed of the units of static bindings, where this was touched. Where memory runs out the answer is `OutOfMemory`.
pub fn binding_delta(
    alloc: Global,
    records: &Records,
    touched: &Touched,
    there: &Owned<ObjId, BindingInput>,
) -> Result<Delta<ObjId, BindingInput>, OutOfMemory>
    requires sound { IsSound records.now }
    ensures tells { IfOk result (λ delta. (old : Network) → IsSound old → AreSameButFor touched.now old records.now → HasUnits by_number (binding_units old) there.now → IsDifference by_number (input.ghosts).eq there.now (binding_units records.now) delta) }
    ensures rise { IfOk result (λ delta. KeysRise by_number delta) }
    ensures alters { IfOk result (λ delta. IsTrue (alters_each by_number (input.ghosts).eq delta there.now)) }
{
    let keys = touched_bindings(alloc, records, touched)?;
    Ok(delta_of(alloc, &BindingUnits { records }, &keys, there)?)
}

// The bindings that were touched, and those of the ports that were.
fn touched_bindings(
    alloc: Global,
    records: &Records,
    touched: &Touched,
) -> Result<Keys<ObjId>, OutOfMemory>
    requires { IsSound records.now }
    ensures { IfOk result (λ keys. (key : ObjId) → has_key by_number key keys ≡ has_key by_number key (touched.now.bindings ++ flat_map (numbers_at records.now) touched.now.router_ports)) }
{
    let mut keys = Vec::new(alloc);
    keys.extend_from_slice(touched.bindings.as_slice())?;
    for port in touched.router_ports.as_slice() {
        add_bindings(&mut keys, records, *port)?;
    }
    Ok(Keys::new(keys))
}

// The numbers of the bindings of a port come after the others.
fn add_bindings(keys: &mut Vec<ObjId>, records: &Records, port: ObjId) -> Result<(), OutOfMemory>
    requires { IsSound records.now }
    ensures { OnOk result (keys.new.items ≡ keys.old.items ++ numbers_at records.now port) }
{
    let mut last = None;
    while let Some(binding) = records.binding_of(port, last) {
        keys.push(binding.id)?;
        last = Some(binding.id);
    }
    Ok(())
}
