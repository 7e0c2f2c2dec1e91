//! Words that a command may have, and those that it may not.
ghost use Rattle.std.specs.Prelude.{◌≡◌, ◌≤◌, Ok, IfOk, IfErr, length};
ghost use Rattle.nb_words.specs.Fault.{IsFaultOf};
ghost use Rattle.nb_read.specs.Readings as readings;
ghost use Rattle.nb_edit.specs.Call.{maybe};
ghost use Rattle.nb_edit.specs.Edits.{no_more, logical_of, router_port_once};

use crate::call::Call;
use nb_read::{is_router_port, logical, nat_kind, network, object_name, proto, vip, way};
use nb_records::{Frontend, NatKind, Proto, Refusal, Way};
use nb_words::LineFault;
use nv_base::{Name, Prefix};
use std::alloc::Global;

/// The network at this place, where there is one.
pub(crate) fn maybe_network(call: &Call, place: usize) -> Result<Option<Prefix>, LineFault>
    ensures read { IfOk result (λ value. maybe call.now place readings.network ≡ Ok value) }
    ensures refused { IfErr result (λ fault. IsFaultOf (maybe call.now place readings.network) fault) }
{
    if !call.is_there(place) {
        return Ok(None);
    }
    let value = network(call.number(place), call.text(place))?;
    Ok(Some(value))
}

/// The type of a NAT rule at this place, where there is one.
pub(crate) fn maybe_nat_kind(call: &Call, place: usize) -> Result<Option<NatKind>, LineFault>
    ensures read { IfOk result (λ value. maybe call.now place readings.nat_kind ≡ Ok value) }
    ensures refused { IfErr result (λ fault. IsFaultOf (maybe call.now place readings.nat_kind) fault) }
{
    if !call.is_there(place) {
        return Ok(None);
    }
    let value = nat_kind(call.number(place), call.text(place))?;
    Ok(Some(value))
}

// What a NAT rule of this kind changes.
fn logical_of(kind: Option<NatKind>, number: u32, text: &[u8]) -> Result<Prefix, LineFault>
    ensures read { IfOk result (λ value. logical_of kind number text.now ≡ Ok value) }
    ensures refused { IfErr result (λ fault. IsFaultOf (logical_of kind number text.now) fault) }
{
    match kind {
        None => Err(LineFault::Refused(Refusal::WrongWords)),
        Some(kind) => logical(kind, number, text),
    }
}

/// What a NAT rule of this kind changes, where there is such a word.
pub(crate) fn maybe_logical(
    call: &Call,
    place: usize,
    kind: Option<NatKind>,
) -> Result<Option<Prefix>, LineFault>
    ensures read { IfOk result (λ value. maybe call.now place (logical_of kind) ≡ Ok value) }
    ensures refused { IfErr result (λ fault. IsFaultOf (maybe call.now place (logical_of kind)) fault) }
{
    if !call.is_there(place) {
        return Ok(None);
    }
    let value = logical_of(kind, call.number(place), call.text(place))?;
    Ok(Some(value))
}

/// Refuses a word at this place.
pub(crate) fn no_more(call: &Call, place: usize) -> Result<(), LineFault>
    ensures read { IfOk result (λ value. no_more call.now place ≡ Ok value) }
    ensures refused { IfErr result (λ fault. IsFaultOf (no_more call.now place) fault) }
{
    if call.is_there(place) {
        return Err(LineFault::Refused(Refusal::NotInProfile(call.number(place))));
    }
    Ok(())
}

/// The name at this place, where there is one.
pub(crate) fn maybe_name(
    alloc: Global,
    call: &Call,
    place: usize,
) -> Result<Option<Name>, LineFault>
    ensures read { IfOk result (λ name. maybe call.now place readings.object_name ≡ Ok name) }
    ensures refused { IfErr result (λ fault. IsFaultOf (maybe call.now place readings.object_name) fault) }
{
    if !call.is_there(place) {
        return Ok(None);
    }
    let name = object_name(alloc, call.number(place), call.text(place))?;
    Ok(Some(name))
}

/// The VIP at this place, where there is one.
pub(crate) fn maybe_vip(call: &Call, place: usize) -> Result<Option<Frontend>, LineFault>
    ensures read { IfOk result (λ value. maybe call.now place readings.vip ≡ Ok value) }
    ensures refused { IfErr result (λ fault. IsFaultOf (maybe call.now place readings.vip) fault) }
{
    if !call.is_there(place) {
        return Ok(None);
    }
    let value = vip(call.number(place), call.text(place))?;
    Ok(Some(value))
}

/// The protocol at this place, where there is one.
pub(crate) fn maybe_proto(call: &Call, place: usize) -> Result<Option<Proto>, LineFault>
    ensures read { IfOk result (λ value. maybe call.now place readings.proto ≡ Ok value) }
    ensures refused { IfErr result (λ fault. IsFaultOf (maybe call.now place readings.proto) fault) }
{
    if !call.is_there(place) {
        return Ok(None);
    }
    let value = proto(call.number(place), call.text(place))?;
    Ok(Some(value))
}

/// Refuses two words that set `router-port`.
pub(crate) fn router_port_once(call: &Call) -> Result<(), LineFault>
    requires { 1 ≤ length call.now.words }
    ensures read { IfOk result (λ value. router_port_once call.now ≡ Ok value) }
    ensures refused { IfErr result (λ fault. IsFaultOf (router_port_once call.now) fault) }
{
    let count = call
        .from(1)
        .iter()
        .filter(|word| is_router_port(word))
        .count();
    if 1 < count {
        return Err(LineFault::Refused(Refusal::WrongWords));
    }
    Ok(())
}

/// The direction at this place, where there is one.
pub(crate) fn maybe_way(call: &Call, place: usize) -> Result<Option<Way>, LineFault>
    ensures read { IfOk result (λ value. maybe call.now place readings.way ≡ Ok value) }
    ensures refused { IfErr result (λ fault. IsFaultOf (maybe call.now place readings.way) fault) }
{
    if !call.is_there(place) {
        return Ok(None);
    }
    let value = way(call.number(place), call.text(place))?;
    Ok(Some(value))
}
