ghost use Rattle.std.specs.Prelude.{false, None, refl};

use expr_core::Env;
use nv_base::{Name, ObjId};

/// A network of nothing: no name is a port's, and sets and groups are empty.
pub(crate) struct Nothing;

impl Env for Nothing {
    ghost lookup = { λ _. record { port = λ _. None; in_set = λ _ _ _. false; in_group = λ _ _. false; is_switch = λ _. false } };

    fn port(&self, _name: &Name) -> Option<ObjId> {
        None
    }

    fn in_set(&self, _name: &[u8], _width: u8, _value: u128) -> bool {
        false
    }

    fn in_group(&self, _name: &[u8], _port: ObjId) -> bool {
        false
    }

    fn is_switch(&self, _dp: ObjId) -> bool {
        false
    }

    ghost multicast_is_no_port = { λ _. (refl, refl) };
}
