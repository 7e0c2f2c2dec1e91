ghost use Rattle.std.specs.Prelude.{◌≡◌, ◌⊎◌, ℕ, List, Some};
ghost use Rattle.std.specs.Option.{option_copied};

use expr_core::Env;
use nv_base::{Name, ObjId};

/// What a match looks up, where the names of a port are found by its number.
pub trait PortNames: Env {
    /// The names that the port of a number may have: each name of the port of this number is one of them. It takes no memory.
    fn port_names(&self, port: ObjId) -> (Option<&Name>, Option<&Name>)
        ensures { (name : List ℕ) → (Self.lookup self.now).port name ≡ Some port
            → (option_copied result.0 ≡ Some name) ⊎ (option_copied result.1 ≡ Some name) };
}
