ghost use Rattle.std.specs.Prelude.{◌≡◌, ◌++◌, OnOk};
ghost use Rattle.nb_store.specs.Touched.{touched};
ghost use Rattle.nb_store.specs.Undo.{changes_nothing};

use crate::step::{Step, Touch};
use nv_base::OutOfMemory;

/// What undoes an edit, with all the room that it takes.
#[derive(Drop)]
pub struct Undo {
    pub(crate) steps: Vec<Step>,
}

impl Undo {
    /// Whether there is nothing to be undone, as the edit changed nothing.
    pub fn changes_nothing(&self) -> bool
        ensures { result ≡ changes_nothing self.now }
    {
        self.steps.is_empty()
    }

    /// Puts what the edit touched after what is there, once for each change (not from OVN). After `OutOfMemory` some may be there.
    pub fn put_touches(&self, touches: &mut Vec<Touch>) -> Result<(), OutOfMemory>
        ensures { OnOk result (touches.new.items ≡ touches.old.items ++ touched self.now) }
    {
        for step in &self.steps {
            if let Some(touch) = step.touched() {
                touches.push(touch)?;
            }
        }
        Ok(())
    }
}
