ghost use Rattle.std.specs.Prelude.{◌≡◌, ◌==◌, [], ◌∷◌, ◌++◌, OnOk, if◌then◌else◌};

use inc_group::Groups;
use nv_base::OutOfMemory;
use std::alloc::Global;
use std::cell::Cell;

/// A number is in the group of its hundreds and in that of what is left, where these are not 0. One of its calls may be refused memory.
#[derive(Drop)]
pub(crate) struct Hundreds {
    calls: Cell<u64>,
    /// The number of the call that is refused memory, from 1, or 0.
    refused: u64,
}

impl Hundreds {
    pub(crate) fn new(refused: u64) -> Self {
        Hundreds {
            calls: Cell::new(0),
            refused,
        }
    }
}

impl Groups for Hundreds {
    ghost use Rattle.std.specs.Prelude.{◌/◌, ◌%◌, ◌==◌, [], ◌∷◌, ◌++◌, if◌then◌else◌};

    type Key = u32;

    type Value = u32;

    type Group = u32;

    ghost groups_of = { λ key value. (if value / 100 == 0 then [] else value / 100 ∷ []) ++ (if value % 100 == 0 then [] else value % 100 ∷ []) };

    fn groups(&self, alloc: Global, _key: &u32, value: &u32) -> Result<Vec<u32>, OutOfMemory> {
        let calls = self.calls.get().saturating_add(1);
        self.calls.set(calls);
        if calls == self.refused {
            return Err(OutOfMemory);
        }
        let mut groups = Vec::new(alloc);
        add(&mut groups, *value / 100)?;
        add(&mut groups, *value % 100)?;
        Ok(groups)
    }
}

// Adds the group with this number, where it is not 0.
fn add(groups: &mut Vec<u32>, number: u32) -> Result<(), OutOfMemory>
    ensures { OnOk result (groups.new.items ≡ groups.old.items ++ (if number == 0 then [] else number ∷ [])) }
{
    if number == 0 {
        return Ok(());
    }
    groups.push(number)?;
    Ok(())
}
