ghost use Rattle.std.specs.Prelude.{◌≡◌, ◌++◌, ℕ, List, [], ◌∷◌, Some, OnOk, IfErr, IfSome, IfNone};
ghost use Rattle.nv_base.specs.declared.object.ObjId.{ObjId};
ghost use Rattle.sb_rows.specs.Listing.{listing};
ghost use Rattle.nb_model.specs.Sound.{IsSound};
ghost use Rattle.nv_reply.specs.Reply.{datapaths};
ghost use Rattle.nv_reply.specs.inner.Left.{left};
ghost use Rattle.nv_io.specs.Writing.{Wrote, PutFailed};
ghost use Rattle.nv_reply.specs.Stops.{StopsWithin};

use crate::stop::Stop;
use nb_store::Records;
use nv_base::{Kept, Name, ObjId, OutOfMemory};
use nv_io::{Sink, put_all};
use sb_rows::{Rows, put_listing};
use std::alloc::Global;

// So many datapaths are listed at a time.
const DATAPATHS: usize = 8;

/// Puts the listing of one of the switches and routers, or of all, some at a time: no more than the listing of these is in memory
/// (ovn-sbctl(8), `lflow-list`). `Stop` where the sink fails or memory runs out: a front of the listing was put.
pub fn put_datapaths<K: Sink>(
    alloc: Global,
    rows: &Rows,
    records: &Records,
    only: Option<ObjId>,
    sink: &mut K,
) -> Result<(), Stop>
    requires { IsSound records.now }
    ensures put { OnOk result (Wrote K.put_gives K.state sink.old sink.new (listing rows.now (datapaths records.now.switches records.now.routers) only)) }
    ensures stop { IfErr result (StopsWithin
        (Wrote K.put_gives K.state sink.old sink.new) (PutFailed K.put_gives K.state sink.old sink.new)
        (listing rows.now (datapaths records.now.switches records.now.routers) only)) }
{
    let mut text = Vec::new(alloc);
    let mut some = Vec::new(alloc);
    let mut last = None;
    while let Some((number, name)) = next_datapath(records, last) {
        add(alloc, &mut some, number, name)?;
        put_full(rows, only, &mut some, &mut text, sink)?;
        last = Some(number);
    }
    put_some(rows, only, &mut some, &mut text, sink)
}

// A datapath more to be listed.
fn add(
    alloc: Global,
    some: &mut Vec<(ObjId, Name)>,
    number: ObjId,
    name: &Name,
) -> Result<(), OutOfMemory>
    ensures { OnOk result (some.new.items ≡ some.old.items ++ (number, name.now) ∷ []) }
{
    let name = name.copy(alloc)?;
    some.push((number, name))?;
    Ok(())
}

// The datapath of the least number above the last one.
fn next_datapath(records: &Records, last: Option<ObjId>) -> Option<(ObjId, &Name)>
    requires { IsSound records.now }
    ensures none { IfNone result (left last records.now ≡ []) }
    ensures next { IfSome result (λ dp. left last records.now ≡ (dp.0, dp.1.now) ∷ left (Some dp.0) records.now) }
{
    match (
        records.switches().after(last),
        records.routers().after(last),
    ) {
        (None, None) => None,
        (None, Some(router)) => Some((router.id, &router.name)),
        (Some(switch), None) => Some((switch.id, &switch.name)),
        (Some(switch), Some(router)) => {
            if switch.id.0 < router.id.0 {
                Some((switch.id, &switch.name))
            } else {
                Some((router.id, &router.name))
            }
        }
    }
}

// Puts the listing of these datapaths where they are as many as are listed at a time, and lets them go.
fn put_full<K: Sink>(
    rows: &Rows,
    only: Option<ObjId>,
    some: &mut Vec<(ObjId, Name)>,
    text: &mut Vec<u8>,
    sink: &mut K,
) -> Result<(), Stop>
    ensures put { OnOk result ((part : List (ObjId × List ℕ)) × (some.old.items ≡ part ++ some.new.items)
        × Wrote K.put_gives K.state sink.old sink.new (listing rows.now part only)) }
    ensures stop { IfErr result (StopsWithin
        (Wrote K.put_gives K.state sink.old sink.new) (PutFailed K.put_gives K.state sink.old sink.new)
        (listing rows.now some.old.items only)) }
{
    if some.len() < DATAPATHS {
        return Ok(());
    }
    put_some(rows, only, some, text, sink)
}

// Puts the listing of these datapaths, which is formed in this room, and lets them go.
fn put_some<K: Sink>(
    rows: &Rows,
    only: Option<ObjId>,
    some: &mut Vec<(ObjId, Name)>,
    text: &mut Vec<u8>,
    sink: &mut K,
) -> Result<(), Stop>
    ensures none { OnOk result (some.new.items ≡ []) }
    ensures put { OnOk result (Wrote K.put_gives K.state sink.old sink.new (listing rows.now some.old.items only)) }
    ensures stop { IfErr result (StopsWithin
        (Wrote K.put_gives K.state sink.old sink.new) (PutFailed K.put_gives K.state sink.old sink.new)
        (listing rows.now some.old.items only)) }
{
    text.clear();
    put_listing(text, rows, some, only)?;
    put_all(sink, text)?;
    some.clear();
    Ok(())
}
