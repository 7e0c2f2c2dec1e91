//! Words that a command has, each at its place.
ghost use Rattle.std.specs.Prelude.{◌≡◌, ◌<◌, Ok, IfOk, IfErr, length};
ghost use Rattle.nb_words.specs.Fault.{IsFaultOf};
ghost use Rattle.nb_read.specs.Readings as readings;
ghost use Rattle.nb_edit.specs.Call.{at};
ghost use Rattle.nb_edit.specs.Edits.{owner_kind};

use crate::call::Call;
use nb_read::{ip, mac, object_name, owner_name, priority, set_name, state};
use nb_words::LineFault;
use nv_base::{Ip4, Mac, Name};
use std::alloc::Global;

/// The name of a port, a datapath or a load balancer.
pub(crate) fn name_at(alloc: Global, call: &Call, place: usize) -> Result<Name, LineFault>
    requires { place < length call.now.words }
    ensures read { IfOk result (λ name. at call.now place readings.object_name ≡ Ok name) }
    ensures refused { IfErr result (λ fault. IsFaultOf (at call.now place readings.object_name) fault) }
{
    object_name(alloc, call.number(place), call.text(place))
}

/// The name of an address set or a port group.
pub(crate) fn set_name_at(alloc: Global, call: &Call, place: usize) -> Result<Name, LineFault>
    requires { place < length call.now.words }
    ensures read { IfOk result (λ name. at call.now place readings.set_name ≡ Ok name) }
    ensures refused { IfErr result (λ fault. IsFaultOf (at call.now place readings.set_name) fault) }
{
    set_name(alloc, call.number(place), call.text(place))
}

/// The name of the owner of an ACL, of the kind that `--type` says.
pub(crate) fn owner_at(alloc: Global, call: &Call, place: usize) -> Result<Name, LineFault>
    requires { place < length call.now.words }
    ensures read { IfOk result (λ name. at call.now place (readings.owner_name (owner_kind call.now)) ≡ Ok name) }
    ensures refused { IfErr result (λ fault. IsFaultOf (at call.now place (readings.owner_name (owner_kind call.now))) fault) }
{
    owner_name(
        alloc,
        call.owner_kind(),
        call.number(place),
        call.text(place),
    )
}

/// An IPv4 address.
pub(crate) fn ip_at(call: &Call, place: usize) -> Result<Ip4, LineFault>
    requires { place < length call.now.words }
    ensures read { IfOk result (λ value. at call.now place readings.ip ≡ Ok value) }
    ensures refused { IfErr result (λ fault. IsFaultOf (at call.now place readings.ip) fault) }
{
    ip(call.number(place), call.text(place))
}

/// A MAC.
pub(crate) fn mac_at(call: &Call, place: usize) -> Result<Mac, LineFault>
    requires { place < length call.now.words }
    ensures read { IfOk result (λ value. at call.now place readings.mac ≡ Ok value) }
    ensures refused { IfErr result (λ fault. IsFaultOf (at call.now place readings.mac) fault) }
{
    mac(call.number(place), call.text(place))
}

/// Whether a port is to be enabled.
pub(crate) fn state_at(call: &Call, place: usize) -> Result<bool, LineFault>
    requires { place < length call.now.words }
    ensures read { IfOk result (λ value. at call.now place readings.state ≡ Ok value) }
    ensures refused { IfErr result (λ fault. IsFaultOf (at call.now place readings.state) fault) }
{
    state(call.number(place), call.text(place))
}

/// The priority of an ACL.
pub(crate) fn priority_at(call: &Call, place: usize) -> Result<u16, LineFault>
    requires { place < length call.now.words }
    ensures read { IfOk result (λ value. at call.now place readings.priority ≡ Ok value) }
    ensures refused { IfErr result (λ fault. IsFaultOf (at call.now place readings.priority) fault) }
{
    priority(call.number(place), call.text(place))
}
