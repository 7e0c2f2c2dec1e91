use inc_group::Groups;
use nv_base::{ObjId, OutOfMemory};
use std::alloc::Global;

/// Numbers of records with those of their owners, grouped by these.
#[derive(Drop)]
pub struct ByOwner;

impl Groups for ByOwner {
    ghost use Rattle.nd_owners.specs.Owners.{of_owner};

    type Key = ObjId;

    type Value = ObjId;

    type Group = ObjId;

    ghost groups_of = { of_owner };

    fn groups(
        &self,
        alloc: Global,
        _number: &ObjId,
        owner: &ObjId,
    ) -> Result<Vec<ObjId>, OutOfMemory> {
        let mut groups = Vec::new(alloc);
        groups.push(*owner)?;
        Ok(groups)
    }
}
