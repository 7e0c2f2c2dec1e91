//! Records that list one number more, or one less, than those of their numbers.
ghost use Rattle.std.specs.Prelude.{◌≡◌, true, IfOk, IfErr};
ghost use Rattle.nv_table.specs.Table.{with_exchanged};
ghost use Rattle.nb_store.specs.Undo.{swapped};
ghost use Rattle.nb_store.specs.inner.Held.{is_fitting};

use crate::records::Records;
use crate::step::LeanObject;
use nb_records::{Group, Router, Switch};
use nv_base::OutOfMemory;
use std::alloc::Global;

impl Records {
    /// A switch, with room for what it lists more than the one of its number, where the two differ by one number; else the switch alone.
    pub(crate) fn lean_switch(
        &self,
        alloc: Global,
        switch: Switch,
    ) -> Result<Result<LeanObject, Switch>, OutOfMemory>
        ensures lean { IfOk result (λ left. IfOk left (λ lean. swapped lean self.now ≡ record self.now { switches = with_exchanged (λ x. x.id) switch self.now.switches })) }
        ensures fits { IfOk result (λ left. IfOk left (λ lean. is_fitting lean self.now ≡ true)) }
        ensures alone { IfOk result (λ left. IfErr left (λ alone. alone ≡ switch)) }
    {
        match self.switches.lean(alloc, switch)? {
            Ok(lean) => Ok(Ok(LeanObject::Switch(lean))),
            Err(alone) => Ok(Err(alone)),
        }
    }

    /// A router, with room for what it lists more than the one of its number, where the two differ by one number; else the router alone.
    pub(crate) fn lean_router(
        &self,
        alloc: Global,
        router: Router,
    ) -> Result<Result<LeanObject, Router>, OutOfMemory>
        ensures lean { IfOk result (λ left. IfOk left (λ lean. swapped lean self.now ≡ record self.now { routers = with_exchanged (λ x. x.id) router self.now.routers })) }
        ensures fits { IfOk result (λ left. IfOk left (λ lean. is_fitting lean self.now ≡ true)) }
        ensures alone { IfOk result (λ left. IfErr left (λ alone. alone ≡ router)) }
    {
        match self.routers.lean(alloc, router)? {
            Ok(lean) => Ok(Ok(LeanObject::Router(lean))),
            Err(alone) => Ok(Err(alone)),
        }
    }

    /// A port group, with room for what it lists more than the one of its number, where the two differ by one number; else the group alone.
    pub(crate) fn lean_group(
        &self,
        alloc: Global,
        group: Group,
    ) -> Result<Result<LeanObject, Group>, OutOfMemory>
        ensures lean { IfOk result (λ left. IfOk left (λ lean. swapped lean self.now ≡ record self.now { groups = with_exchanged (λ x. x.id) group self.now.groups })) }
        ensures fits { IfOk result (λ left. IfOk left (λ lean. is_fitting lean self.now ≡ true)) }
        ensures alone { IfOk result (λ left. IfErr left (λ alone. alone ≡ group)) }
    {
        match self.groups.lean(alloc, group)? {
            Ok(lean) => Ok(Ok(LeanObject::Group(lean))),
            Err(alone) => Ok(Err(alone)),
        }
    }
}
