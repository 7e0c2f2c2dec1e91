//! Where ports are, and what is at their other side.
ghost use Rattle.std.specs.Prelude.{◌≡◌};
ghost use Rattle.net_meaning.specs.Places.{datapath_at, peer_side, side_of};
ghost use Rattle.ls_laws.specs.Steps.{flows_at};
ghost use Rattle.tr_stage.specs.Machine.{kind_of};
ghost use Rattle.tr_walk.specs.Machine.{late_table};
ghost use Rattle.tr_walk.specs.inner.Sides.{side};

use expr_core::Env;
use nb_records::PortKind;
use nb_store::Records;
use nv_base::ObjId;
use sb_model::DatapathKind;

/// What is at the other side of a port.
#[derive(Clone, Copy)]
pub(crate) enum Side {
    Host,
    /// The port of another datapath.
    Peer(ObjId),
    NoPeer,
}

/// The switch or the router of a port, 0 where there is no such port.
#[tactic(auto, using(crate::proofs::PortNumbers::datapath_is))]
pub(crate) fn datapath_at(records: &Records, port: ObjId) -> ObjId
    ensures { result ≡ datapath_at records.now port }
{
    records.on_datapath(port).unwrap_or(ObjId(0))
}

/// What a datapath is.
pub(crate) fn kind_at(records: &Records, dp: ObjId) -> DatapathKind
    ensures { result ≡ kind_of (flows_at records.now dp) }
{
    if records.is_switch(dp) {
        DatapathKind::Switch
    } else {
        DatapathKind::Router
    }
}

/// The table of egress by which packets leave a datapath late.
pub(crate) fn late_table(records: &Records, dp: ObjId) -> u8
    ensures { result ≡ late_table records.now dp }
{
    kind_at(records, dp).last_table()
}

pub(crate) fn side_of(records: &Records, port: ObjId) -> Side
    ensures { side result ≡ side_of records.now port }
{
    match records.ports().get(port) {
        Some(own) => match own.kind {
            PortKind::Host => Side::Host,
            PortKind::Router => peer_side(records.peer_of_port(port)),
        },
        None => peer_side(records.peer_of_router_port(port)),
    }
}

fn peer_side(peer: Option<ObjId>) -> Side
    ensures { side result ≡ peer_side peer }
{
    match peer {
        Some(peer) => Side::Peer(peer),
        None => Side::NoPeer,
    }
}
