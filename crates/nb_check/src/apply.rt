//! Edits of the records of a sound network, one by one: each is done, or changes nothing.
ghost use Rattle.std.specs.Prelude.{◌≡◌, ◌+◌, ◌<◌, ◌≤◌, ◌++◌, [], Ok, None, OnOk, OnErr, IfOk, IfErr, length};
ghost use Rattle.std.specs.List.{AllByRecursion, list_all};
ghost use Rattle.nb_model.specs.Amounts.{first_over};
ghost use Rattle.nb_model.specs.Effect.{effect};
ghost use Rattle.nb_model.specs.Readable.{IsReadable};
ghost use Rattle.nb_model.specs.Sound.{IsSound};
ghost use Rattle.nb_model.specs.Tests.{refusal};
ghost use Rattle.nb_model.specs.Transactions.{unless, applied, edited};
ghost use Rattle.nb_store.specs.Undo.{back, changes_nothing};
ghost use Rattle.nb_words.specs.Fault.{IsFaultOf};
ghost use Rattle.nb_limits.specs.Ceilings.{AreCeilings};
ghost use Rattle.nb_check.specs.inner.Going.{AreSince, no_objects, with_removed};
ghost use Rattle.nb_check.specs.Undone.{back_all};
ghost use Rattle.nb_check.specs.inner.Undone.{AreTouched};
ghost use Rattle.nb_limits.specs.Limitless.{IsSoundButLimits};
ghost use Rattle.nv_base.specs.Object.{number_limit};

use crate::gone::Gone;
use nb_limits::{Ceilings, first_over, may_rise};
use nb_records::{Edit, Kind};
use nb_store::{Records, Touch, Undo};
use nb_valid::tested;
use nb_words::LineFault;
use nv_base::{Items, OutOfMemory};
use std::alloc::Global;

/// Does what an edit asks for, where no test refuses it, and answers what undoes it (ovn-nbctl(8)). A refused edit changes nothing,
/// nor does one for which memory ran out.
pub(crate) fn apply(
    alloc: Global,
    records: &mut Records,
    known: &mut Ceilings,
    edit: Edit,
) -> Result<Undo, LineFault>
    requires sound { IsSound records.old }
    requires known { AreCeilings records.old known.old }
    requires readable { IsReadable edit }
    requires room { records.old.next + 1 < number_limit }
    ensures accepted { OnOk result (refusal records.old edit ≡ None) }
    ensures done { OnOk result (records.new ≡ effect records.old edit) }
    ensures back { IfOk result (λ undo. back undo records.new ≡ records.old) }
    ensures refused { IfErr result (λ fault. IsFaultOf (applied records.old edit) fault) }
    ensures same { OnErr result (records.new ≡ records.old) }
    ensures sound { IsSound records.new }
    ensures known { AreCeilings records.new known.new }
{
    let edit = tested(alloc, records, edit)?;
    let kinds = may_rise(&edit);
    let Ok(mut after) = known.after(alloc, records, &edit) else {
        drop(edit);
        return Err(LineFault::Memory);
    };
    let done = nb_change::edit(alloc, records, edit)?;
    let undo = keep(alloc, records, &mut after, kinds, done)?;
    *known = after;
    Ok(undo)
}

// Keeps what an edit did where it broke none of these limits; else undoes it.
fn keep(
    alloc: Global,
    records: &mut Records,
    known: &mut Ceilings,
    kinds: &[Kind],
    undo: Undo,
) -> Result<Undo, LineFault>
    requires limitless { IsSoundButLimits records.old }
    requires known { AreCeilings records.old known.old }
    ensures within { OnOk result (first_over kinds.now records.old ≡ None) }
    ensures same { OnOk result (records.new ≡ records.old) }
    ensures back { IfOk result (λ kept. back kept records.new ≡ back undo records.old) }
    ensures refused { IfErr result (λ fault. IsFaultOf (unless (first_over kinds.now records.old) records.old) fault) }
    ensures undone { OnErr result (records.new ≡ back undo records.old) }
    ensures known { OnOk result (AreCeilings records.new known.new) }
{
    match first_over(alloc, records, known, kinds) {
        Ok(None) => Ok(undo),
        Ok(Some(refusal)) => {
            records.undo(undo);
            Err(LineFault::Refused(refusal))
        }
        Err(_) => {
            records.undo(undo);
            Err(LineFault::Memory)
        }
    }
}

/// Does what the edits of a line ask for, in order, up to the first that is refused or for which memory runs out, and notes what undoes
/// each, and which objects are gone then; the answer is what they touched (not from OVN).
pub(crate) fn apply_each(
    alloc: Global,
    records: &mut Records,
    known: &mut Ceilings,
    edits: Vec<Edit>,
    undos: &mut Vec<Undo>,
    gone: &mut Gone,
) -> Result<Items<Touch>, LineFault>
    requires sound { IsSound records.old }
    requires known { AreCeilings records.old known.old }
    requires readable { AllByRecursion IsReadable edits.items }
    requires room { records.old.next + length edits.items < number_limit }
    requires first { gone.old.first ≡ records.old.next }
    requires none { gone.old.objects ≡ no_objects }
    ensures done { OnOk result (edited records.old edits.items ≡ Ok records.new) }
    ensures refused { IfErr result (λ fault. IsFaultOf (edited records.old edits.items) fault) }
    ensures back { back_all undos.new.items records.new ≡ back_all undos.old.items records.old }
    ensures sound { IsSound records.new }
    ensures known { OnOk result (AreCeilings records.new known.new) }
    ensures gone { OnOk result (AreSince records.old records.new gone.new.objects) }
    ensures touched { IfOk result (λ touches. AreTouched undos.new.items touches) }
{
    for edit in edits {
        apply_next(alloc, records, known, edit, undos, gone)?;
    }
    Ok(touched(alloc, undos)?)
}

// Does what one edit more asks for, and notes what undoes it and which objects it removes. Where it is refused or memory runs out, nothing changes.
fn apply_next(
    alloc: Global,
    records: &mut Records,
    known: &mut Ceilings,
    edit: Edit,
    undos: &mut Vec<Undo>,
    gone: &mut Gone,
) -> Result<(), LineFault>
    requires sound { IsSound records.old }
    requires known { AreCeilings records.old known.old }
    requires readable { IsReadable edit }
    requires room { records.old.next + 1 < number_limit }
    ensures done { OnOk result (applied records.old edit ≡ Ok records.new) }
    ensures room { records.new.next ≤ records.old.next + 1 }
    ensures refused { IfErr result (λ fault. IsFaultOf (applied records.old edit) fault) }
    ensures back { back_all undos.new.items records.new ≡ back_all undos.old.items records.old }
    ensures sound { IsSound records.new }
    ensures known { OnOk result (AreCeilings records.new known.new) }
    ensures gone { OnOk result (gone.new.objects ≡ with_removed gone.old.first records.old edit gone.old.objects) }
    ensures first { gone.new.first ≡ gone.old.first }
{
    gone.note(records, &edit)?;
    let undo = apply(alloc, records, known, edit)?;
    match undos.push(undo) {
        Ok(()) => Ok(()),
        Err(failed) => {
            records.undo(failed.value);
            Err(LineFault::Memory)
        }
    }
}

/// What edits touched, in order, each once (not from OVN).
pub(crate) fn touched(alloc: Global, undos: &[Undo]) -> Result<Items<Touch>, OutOfMemory>
    ensures { IfOk result (λ touches. AreTouched undos.now touches) }
{
    let mut touches = Vec::new(alloc);
    for undo in undos {
        undo.put_touches(&mut touches)?;
    }
    touches.sort_unstable();
    touches.dedup();
    Ok(Items::from_items(touches))
}

/// Whether none of these edits changed anything.
pub(crate) fn change_nothing(undos: &[Undo]) -> bool
    ensures { result ≡ list_all changes_nothing undos.now }
{
    undos.iter().all(|undo| undo.changes_nothing())
}

/// Undoes edits, the last one first (not from OVN). It takes no memory.
pub(crate) fn undo_all(records: &mut Records, mut undos: Vec<Undo>)
    ensures { records.new ≡ back_all undos.items records.old }
{
    while let Some(undo) = undos.pop() {
        records.undo(undo);
    }
}
