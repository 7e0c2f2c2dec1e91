//! The rows of one datapath.
ghost use Rattle.std.specs.Prelude.{◌≡◌};
ghost use Rattle.std.specs.Option.{option_copied};
ghost use Rattle.sb_rows.specs.Match.{select};

use crate::Rows;
use crate::table::Table;
use expr_ports::PortNames;
use nv_base::ObjId;
use pkt_core::Packet;
use sb_model::{Row, Stage};
use std::marker::Model;

// So many places stages have.
pub(crate) const STAGES: usize = 32;

/// The rows of one datapath, each of whose tables is found at once. A clause sees the datapath, and all the rows.
#[derive(Drop)]
pub struct DatapathRows<'r> {
    pub(crate) dp: ObjId,
    pub(crate) all: &'r Rows,
    pub(crate) tables: [Option<&'r Table>; STAGES],
}

impl<'r> Model for DatapathRows<'r> {
    ghost use Rattle.std.specs.Prelude.{List};
    ghost use Rattle.nv_base.specs.declared.object.ObjId.{ObjId};
    ghost use Rattle.sb_model.specs.declared.row.Row.{Row};
    ghost use Rattle.sb_model.specs.contracts.row.Row as row_of;
    ghost use Rattle.std.specs.Coded.{codes};
    ghost use Rattle.sb_rows.specs.inner.OfDatapath.{AreTablesOf};

    ghost Value = { ObjId × List Row };

    ghost coded = { Prim.hlevel (codes, row_of.the_row.coded) };

    ghost view = { λ d. (d.dp, d.all.now) };

    ghost invariant = { λ d. AreTablesOf d.dp d.tables d.all.now };
}

impl<'r> DatapathRows<'r> {
    /// The row that acts on a packet in a table of the datapath: the first one in row order whose match holds. Of a table of many rows it looks
    /// at those that ask for what the packet has. It takes no memory.
    pub fn select<E: PortNames>(&self, stage: Stage, packet: &Packet, env: &E) -> Option<&'r Row>
        ensures { option_copied result ≡ select self.now.0 stage (E.lookup env.now) packet.now self.now.1 }
    {
        let tables = &self.tables[..];
        let table = tables[usize::from(stage.place())];
        table?.first(packet, env)
    }
}
