ghost use Rattle.std.specs.Prelude.{◌≡◌, ◌+◌, ◌<◌, Ok, OnOk, OnErr, IfOk, IfErr, length};
ghost use Rattle.std.specs.List.{AllByRecursion};
ghost use Rattle.nb_words.specs.Fault.{IsFaultOf};
ghost use Rattle.nb_model.specs.Readable.{IsReadable};
ghost use Rattle.nb_model.specs.Sound.{IsSound};
ghost use Rattle.nb_model.specs.Transactions.{edited};
ghost use Rattle.tr_walk.specs.Events.{told_only};
ghost use Rattle.tr_walk.specs.Refined.{IsMeant};
ghost use Rattle.nv_reply.specs.Events.{event_lines};
ghost use Rattle.nv_reply.specs.Reply.{after_trace, flows, flushed, forgotten, row_count, traced};
ghost use Rattle.nv_reply.specs.Session.{new_session};
ghost use Rattle.nv_reply.specs.Struck.{struck};
ghost use Rattle.nv_reply.specs.inner.KeptRows.{AreRowsOf};
ghost use Rattle.nv_io.specs.Writing.{Wrote, PutFailed};
ghost use Rattle.nv_reply.specs.Stops.{StopsWithin};
ghost use Rattle.nv_base.specs.Object.{number_limit};

use crate::events::put_events;
use crate::listing::put_datapaths;
use crate::stop::Stop;
use crate::strike::strike_objects;
use ct_nbrs::Neighbours;
use ct_state::State;
use ct_table::Conns;
use nb_check::Tables;
use nb_records::Edit;
use nb_store::Records;
use nb_words::LineFault;
use nd_full::full;
use nv_base::{Items, ObjId, OutOfMemory};
use nv_io::Sink;
use pkt_core::Packet;
use sb_rows::Rows;
use std::alloc::Global;
use std::marker::Model;
use tr_pipe::Watch;
use tr_walk::{Event, trace};

/// What a run keeps from line to line: the network, its rows where they were made since it last changed, how many hops a traced packet
/// may take, and what traced packets left for later ones (not from OVN). A clause sees the network, which is sound, the hops and the
/// state.
#[derive(Drop)]
pub struct Session {
    tables: Tables,
    rows: Option<Rows>,
    hops: u8,
    state: State,
}

impl Model for Session {
    ghost use Rattle.std.specs.Coded.{codes};
    ghost use Rattle.nb_records.specs.contracts.acl.Acl as acl;
    ghost use Rattle.nv_reply.specs.Session as value;
    ghost use Rattle.nv_reply.specs.inner.KeptRows.{AreKept};

    ghost Value = { value.Session };

    ghost coded = { Prim.hlevel (codes, acl.the_row.coded) };

    ghost view = { λ s. record { network = s.tables; hops = s.hops; state = s.state } };

    ghost invariant = { λ s. AreKept s.rows s.tables };
}

impl Session {
    /// The session before the first line: the network without objects, where a traced packet may take so many hops, and no
    /// connection is tracked (not from OVN). It takes no memory.
    pub fn new(alloc: Global, hops: u8) -> Self
        ensures { result ≡ new_session hops }
    {
        Session {
            tables: Tables::new(),
            rows: None,
            hops,
            state: State::new(alloc),
        }
    }

    /// The records of the network.
    pub fn records(&self) -> &Records
        ensures records { result.now ≡ self.now.network }
        ensures sound { IsSound self.now.network }
    {
        self.tables.records()
    }

    /// The connections that are tracked.
    pub fn conns(&self) -> &Conns
        ensures { result.now ≡ self.now.state.conns }
    {
        self.state.conns()
    }

    /// Does what all edits of a line ask for, or nothing where one is refused or memory runs out (not from OVN:
    /// ovn-nbctl(8) runs the commands of one call as one transaction). What the state holds of objects that are gone is struck out.
    #[tactic(auto, using(crate::proofs::Struck::struck_after))]
    pub fn apply_all(&mut self, alloc: Global, edits: Items<Edit>) -> Result<(), LineFault>
        requires readable { AllByRecursion IsReadable edits }
        requires room { self.old.network.next + length edits < number_limit }
        ensures done { OnOk result (edited self.old.network edits ≡ Ok self.new.network) }
        ensures hops { self.new.hops ≡ self.old.hops }
        ensures state { OnOk result (self.new.state ≡ struck self.old.network self.new.network self.old.state) }
        ensures refused { IfErr result (λ fault. IsFaultOf (edited self.old.network edits) fault) }
        ensures same { OnErr result (self.new ≡ self.old) }
    {
        let changes = self.tables.apply_all(alloc, edits)?;
        if changes.any {
            self.rows = None;
        }
        strike_objects(&mut self.state, &changes.gone);
        Ok(())
    }

    /// What the rows do with a packet that comes in by a port (ovn-trace(8)), without hits where the trace is minimal, from the state that
    /// earlier packets left; what it leaves is kept. `watch` is told of it as it happens. The rows are made where the network has changed, and kept. Where memory runs out the answer is
    /// `OutOfMemory`, and the session is as before.
    pub fn trace<W: Watch<Records>>(
        &mut self,
        alloc: Global,
        port: ObjId,
        packet: &Packet,
        minimal: bool,
        watch: &mut W,
    ) -> Result<Vec<Event>, OutOfMemory>
        ensures events { IfOk result (λ events. events.items ≡ told_only minimal (traced self.old port packet.now)) }
        ensures after { OnOk result (self.new ≡ after_trace self.old port packet.now) }
        ensures refinement { IfOk result (λ events. IsMeant self.old.network self.old.hops port packet.now
            (record { before = self.old.state; told = events.items; after = self.new.state })) }
        ensures same { OnErr result (self.new ≡ self.old) }
    {
        let rows = self.take_rows(alloc)?;
        let hops = u32::from(self.hops);
        let records = self.tables.records();
        let events = trace(
            alloc,
            &rows,
            records,
            &mut self.state,
            port,
            packet,
            hops,
            minimal,
            watch,
        )?;
        self.rows = Some(rows);
        Ok(events)
    }

    /// Takes all connections out (modelled on `dpctl/flush-conntrack` of ovs-appctl(8)).
    pub fn flush_conns(&mut self)
        ensures { self.new ≡ flushed self.old }
    {
        self.state.flush_conns();
    }

    /// What routers' ports have learnt of their neighbours.
    pub fn nbrs(&self) -> &Neighbours
        ensures { result.now ≡ self.now.state.nbrs }
    {
        self.state.nbrs()
    }

    /// Takes out all that routers' ports have learnt of their neighbours (modelled on the table MAC_Binding of ovn-sb(5)).
    pub fn flush_nbrs(&mut self)
        ensures { self.new ≡ forgotten self.old }
    {
        self.state.flush_nbrs();
    }

    /// Puts the listing of the flows of one datapath, or of all (ovn-sbctl(8), `lflow-list`). The rows are made where the
    /// network has changed, and kept. `Stop` where the sink fails or memory runs out: a front of the listing was put.
    #[tactic(auto, unfolding(crate::specs::Reply::flows), using(crate::proofs::Stops::stopped_first))]
    pub fn put_flows<K: Sink>(
        &mut self,
        alloc: Global,
        only: Option<ObjId>,
        sink: &mut K,
    ) -> Result<(), Stop>
        ensures put { OnOk result (Wrote K.put_gives K.state sink.old sink.new (flows self.old.network only)) }
        ensures stop { IfErr result (StopsWithin
            (Wrote K.put_gives K.state sink.old sink.new) (PutFailed K.put_gives K.state sink.old sink.new)
            (flows self.old.network only)) }
        ensures same { self.new ≡ self.old }
    {
        let rows = self.take_rows(alloc)?;
        put_datapaths(alloc, &rows, self.tables.records(), only, sink)?;
        self.rows = Some(rows);
        Ok(())
    }

    /// Puts the lines of the events of a trace, piece by piece (ovn-trace(8); their form is not from OVN). `Stop` where the sink fails or
    /// memory runs out: a front of the lines was put.
    pub fn put_trace<K: Sink>(
        &self,
        alloc: Global,
        events: &[Event],
        sink: &mut K,
    ) -> Result<(), Stop>
        ensures put { OnOk result (Wrote K.put_gives K.state sink.old sink.new (event_lines self.now.network events.now)) }
        ensures stop { IfErr result (StopsWithin
            (Wrote K.put_gives K.state sink.old sink.new) (PutFailed K.put_gives K.state sink.old sink.new)
            (event_lines self.now.network events.now)) }
    {
        put_events(alloc, self.records(), events, sink)
    }

    /// How many rows the network has (not from OVN). They are made where the network has changed, and kept. Where memory runs out the
    /// answer is `OutOfMemory`, and the session is as before.
    #[tactic(auto, unfolding(crate::specs::Reply::row_count))]
    pub fn count_rows(&mut self, alloc: Global) -> Result<usize, OutOfMemory>
        ensures count { IfOk result (λ count. count ≡ row_count self.old.network) }
        ensures same { self.new ≡ self.old }
    {
        let rows = self.take_rows(alloc)?;
        let count = rows.len();
        self.rows = Some(rows);
        Ok(count)
    }

    // The rows, made anew where the network has changed. They are no longer kept. It stays a function of its own, in which the
    // bench counts instructions.
    #[inline(never)]
    fn take_rows(&mut self, alloc: Global) -> Result<Rows, OutOfMemory>
        ensures rows { IfOk result (λ rows. AreRowsOf rows self.old.network) }
        ensures same { self.new ≡ self.old }
    {
        if let Some(rows) = self.rows.take() {
            return Ok(rows);
        }
        rows_of(alloc, self.tables.records())
    }
}

// The rows of a network.
fn rows_of(alloc: Global, records: &Records) -> Result<Rows, OutOfMemory>
    requires { IsSound records.now }
    ensures { IfOk result (λ rows. AreRowsOf rows records.now) }
{
    full(alloc, records)
}
