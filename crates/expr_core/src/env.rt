ghost use Rattle.std.specs.Prelude.{◌≡◌, None, codes};
ghost use Rattle.expr_core.specs.Lookup.{Lookup};

use nv_base::{Name, ObjId};

/// What a match looks up: the ports of the network, and its address sets and port groups. None of these takes memory.
pub trait Env {
    /// What is looked up, as a value.
    ghost lookup: { Self → Lookup };

    /// The port of this name.
    fn port(&self, name: &Name) -> Option<ObjId>
        ensures { result ≡ (lookup self.now).port name.now };

    /// Whether the address set of this name has a value, of a field that is so many bits wide.
    fn in_set(&self, name: &[u8], width: u8, value: u128) -> bool
        ensures { result ≡ (lookup self.now).in_set name.now width value };

    /// Whether the port group of this name has the port.
    fn in_group(&self, name: &[u8], port: ObjId) -> bool
        ensures { result ≡ (lookup self.now).in_group name.now port };

    /// Whether the datapath is a switch.
    fn is_switch(&self, dp: ObjId) -> bool
        ensures { result ≡ (lookup self.now).is_switch dp };

    /// The names of multicast groups are no port's.
    ghost multicast_is_no_port: { (env : Self) → ((lookup env).port (codes "_MC_flood") ≡ None) × ((lookup env).port (codes "_MC_unknown") ≡ None) };
}
