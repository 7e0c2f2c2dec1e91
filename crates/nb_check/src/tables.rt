ghost use Rattle.std.specs.Prelude.{◌≡◌, ◌+◌, ◌<◌, ◌⊎◌, false, None, Ok, OnOk, OnErr, IfOk, IfErr, length};
ghost use Rattle.std.specs.List.{AllByRecursion};
ghost use Rattle.nb_records.specs.declared.refusal.Kind.TheVariants as kinds;
ghost use Rattle.nb_model.specs.Amounts.{amount};
ghost use Rattle.nb_model.specs.Belongs.{is_among};
ghost use Rattle.nb_model.specs.Effect.{effect};
ghost use Rattle.nb_model.specs.Network.{empty_network};
ghost use Rattle.nb_model.specs.Readable.{IsReadable};
ghost use Rattle.nb_model.specs.Sound.{IsSound, port_ids, router_ids, router_port_ids};
ghost use Rattle.nb_model.specs.Tests.{refusal};
ghost use Rattle.nb_model.specs.Transactions.{applied, edited};
ghost use Rattle.nb_store.specs.Touched.{AreSameBut, TouchesRise};
ghost use Rattle.nb_store.specs.Undo.{back};
ghost use Rattle.nb_check.specs.Gone.{is_gone};
ghost use Rattle.nb_check.specs.Undone.{taken_back};
ghost use Rattle.nb_limits.specs.Ceilings.{AreCeilings};
ghost use Rattle.nb_words.specs.Fault.{IsFaultOf};
ghost use Rattle.nv_base.specs.Object.{number_limit};
ghost use Rattle.nv_base.specs.declared.object.ObjId.{ObjId};

use crate::apply::{apply, apply_each, change_nothing, undo_all};
use crate::changes::Changes;
use crate::gone::Gone;
use crate::line_undo::LineUndo;
use nb_limits::{Ceilings, amount};
use nb_records::{Edit, Kind};
use nb_store::{Records, Undo};
use nb_words::LineFault;
use nv_base::{Items, OutOfMemory};
use std::alloc::Global;
use std::marker::Model;

/// The network, each kind of record in a table, and what is known of how much there is. A clause sees the network, which is sound.
#[derive(Drop)]
pub struct Tables {
    records: Records,
    known: Ceilings,
}

impl Model for Tables {
    ghost use Rattle.nb_records.specs.contracts.acl.Acl as acl;
    ghost use Rattle.nb_model.specs.Network.{Network};
    ghost use Rattle.nb_model.specs.Sound.{IsSound};
    ghost use Rattle.nb_limits.specs.Ceilings.{AreCeilings};
    ghost use Rattle.std.specs.Coded.{codes};

    ghost Value = { Network };

    ghost coded = { Prim.hlevel (codes, acl.the_row.coded) };

    ghost view = { λ tables. tables.records };

    ghost invariant = { λ tables. IsSound tables.records × AreCeilings tables.records tables.known };
}

impl Tables {
    /// The network without objects. It takes no memory.
    pub fn new() -> Self
        ensures { result ≡ empty_network }
    {
        Tables {
            records: Records::new(),
            known: Ceilings::of_nothing(),
        }
    }

    /// The records of the network.
    pub fn records(&self) -> &Records
        ensures records { result.now ≡ self.now }
        ensures sound { IsSound self.now }
    {
        &self.records
    }

    /// How much of a kind the network has, as the limits count it; of VIPs and backends the most that one load balancer, or one VIP, has
    /// (not from OVN). Only what is counted once for each switch of an ACL takes memory.
    pub fn count(&self, alloc: Global, kind: Kind) -> Result<u64, OutOfMemory>
        ensures amount { IfOk result (λ count. count ≡ amount self.now kind) }
        ensures memory { OnErr result ((kind ≡ kinds.AclSwitch) ⊎ (kind ≡ kinds.MatchText)) }
    {
        amount(alloc, &self.records, kind)
    }

    /// Does what an edit asks for, where no test refuses it, and answers what undoes it; else it is refused as the first
    /// test that fails says (ovn-nbctl(8)). A refused edit changes nothing, nor does one for which memory ran out.
    pub fn apply(&mut self, alloc: Global, edit: Edit) -> Result<Undo, LineFault>
        requires readable { IsReadable edit }
        requires room { self.old.next + 1 < number_limit }
        ensures accepted { OnOk result (refusal self.old edit ≡ None) }
        ensures done { OnOk result (self.new ≡ effect self.old edit) }
        ensures back { IfOk result (λ undo. back undo self.new ≡ self.old) }
        ensures refused { IfErr result (λ fault. IsFaultOf (applied self.old edit) fault) }
        ensures same { OnErr result (self.new ≡ self.old) }
    {
        apply(alloc, &mut self.records, &mut self.known, edit)
    }

    /// Undoes an edit. It takes no memory.
    pub fn undo(&mut self, undo: Undo)
        requires { IsSound (back undo self.old) }
        ensures { self.new ≡ back undo self.old }
    {
        self.records.undo(undo);
        self.known = Ceilings::unknown();
    }

    /// Does what all edits of a line ask for, each of the network that those before it leave; at the first that is
    /// refused the line is refused as that one (not from OVN: ovn-nbctl(8) runs the commands of one call as one
    /// transaction). Then, or where memory runs out, none is done. The answer is whether there may be a change, which
    /// objects are gone, and what of the records may have changed.
    pub fn apply_all(&mut self, alloc: Global, edits: Items<Edit>) -> Result<Changes, LineFault>
        requires readable { AllByRecursion IsReadable edits }
        requires room { self.old.next + length edits < number_limit }
        ensures done { OnOk result (edited self.old edits ≡ Ok self.new) }
        ensures unchanged { IfOk result (λ changes. changes.any ≡ false → self.new ≡ self.old) }
        ensures gone_ports { IfOk result (λ changes. (n : ObjId) → is_among n changes.gone.ports ≡ is_gone (port_ids self.old) (port_ids self.new) n) }
        ensures gone_router_ports { IfOk result (λ changes. (n : ObjId) → is_among n changes.gone.router_ports ≡ is_gone (router_port_ids self.old) (router_port_ids self.new) n) }
        ensures gone_routers { IfOk result (λ changes. (n : ObjId) → is_among n changes.gone.routers ≡ is_gone (router_ids self.old) (router_ids self.new) n) }
        ensures touched { IfOk result (λ changes. AreSameBut changes.touched self.old self.new) }
        ensures rising { IfOk result (λ changes. TouchesRise changes.touched) }
        ensures refused { IfErr result (λ fault. IsFaultOf (edited self.old edits) fault) }
        ensures same { OnErr result (self.new ≡ self.old) }
    {
        let (changes, undo) = self.apply_kept(alloc, edits)?;
        drop(undo);
        Ok(changes)
    }

    /// The same, with what takes the line back.
    #[tactic(auto, using(crate::proofs::Undone::nothing_undone, crate::proofs::Undone::touched_alone))]
    pub fn apply_kept(
        &mut self,
        alloc: Global,
        edits: Items<Edit>,
    ) -> Result<(Changes, LineUndo), LineFault>
        requires readable { AllByRecursion IsReadable edits }
        requires room { self.old.next + length edits < number_limit }
        ensures done { OnOk result (edited self.old edits ≡ Ok self.new) }
        ensures unchanged { IfOk result (λ kept. kept.0.any ≡ false → self.new ≡ self.old) }
        ensures gone_ports { IfOk result (λ kept. (n : ObjId) → is_among n kept.0.gone.ports ≡ is_gone (port_ids self.old) (port_ids self.new) n) }
        ensures gone_router_ports { IfOk result (λ kept. (n : ObjId) → is_among n kept.0.gone.router_ports ≡ is_gone (router_port_ids self.old) (router_port_ids self.new) n) }
        ensures gone_routers { IfOk result (λ kept. (n : ObjId) → is_among n kept.0.gone.routers ≡ is_gone (router_ids self.old) (router_ids self.new) n) }
        ensures touched { IfOk result (λ kept. AreSameBut kept.0.touched self.old self.new) }
        ensures rising { IfOk result (λ kept. TouchesRise kept.0.touched) }
        ensures back { IfOk result (λ kept. taken_back kept.1 self.new ≡ self.old) }
        ensures known { IfOk result (λ kept. AreCeilings self.old kept.1.known) }
        ensures sound { IsSound self.old }
        ensures refused { IfErr result (λ fault. IsFaultOf (edited self.old edits) fault) }
        ensures same { OnErr result (self.new ≡ self.old) }
    {
        let mut undos = Vec::new(alloc);
        let mut gone = Gone::new(alloc, &self.records);
        let known = self.known;
        let edits = edits.into_items();
        match apply_each(
            alloc,
            &mut self.records,
            &mut self.known,
            edits,
            &mut undos,
            &mut gone,
        ) {
            Ok(touched) => {
                let changes = Changes {
                    any: !change_nothing(&undos),
                    gone: gone.objects,
                    touched,
                };
                Ok((changes, LineUndo { undos, known }))
            }
            Err(fault) => {
                undo_all(&mut self.records, undos);
                self.known = known;
                Err(fault)
            }
        }
    }

    /// Takes a line back that was done last. It takes no memory.
    pub fn take_back(&mut self, line: LineUndo)
        requires sound { IsSound (taken_back line self.old) }
        requires known { AreCeilings (taken_back line self.old) line.known }
        ensures { self.new ≡ taken_back line self.old }
    {
        let LineUndo { undos, known } = line;
        undo_all(&mut self.records, undos);
        self.known = known;
    }
}
