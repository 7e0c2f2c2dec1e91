//! The laws of lines.
ghost use Rattle.std.specs.Prelude.{◌≡◌, ◌≤◌, ℕ, Bool, List, Some, Ok, IsTrue, length, true};
ghost use Rattle.std.specs.List.{AllByRecursion};
ghost use Rattle.nb_records.specs.declared.edit.Edit.{Edit};
ghost use Rattle.nb_model.specs.Readable.{IsReadable};
ghost use Rattle.nv_base.specs.Name.{is_object_name, is_quotable};
ghost use Rattle.nb_cmds.specs.Lines.{read_line};
ghost use Rattle.nb_cmds.specs.declared.line.Line.TheVariants.{Edits, Query};
ghost use Rattle.nb_cmds.specs.declared.query.Query.TheVariants.{FlowList, Trace};
ghost use Rattle.pkt_core.specs.Packet.{IsPacket};
ghost use Rattle.pkt_micro.specs.declared.microflow.Micro.{Micro};

/// Each edit that a line asks for is readable: its names, addresses, numbers and match are as the readings of words leave them.
#[tactic(auto, using(crate::proofs::ReadableLines::line_readable))]
pub fn lines_ask_for_readable_edits()
    ensures { (text : List ℕ) (list : List Edit) → read_line text ≡ Ok (Edits list) → AllByRecursion IsReadable list }
{}

/// A line asks for no more edits than it has bytes.
#[tactic(auto, using(crate::proofs::ShortLines::line_short))]
pub fn lines_have_no_more_edits_than_bytes()
    ensures { (text : List ℕ) (list : List Edit) → read_line text ≡ Ok (Edits list) → length list ≤ length text }
{}

/// A datapath in a query has a name that objects may have. The port of a microflow has one too, or that of a multicast group,
/// and its packet has a number for each field that fits the field's width.
pub fn queries_have_well_read_words()
    ensures flow_list { (text dp : List ℕ) → read_line text ≡ Ok (Query (FlowList (Some dp))) → IsTrue (is_object_name dp) }
    ensures trace { (text dp : List ℕ) (minimal : Bool) (micro : Micro) → read_line text ≡ Ok (Query (Trace minimal dp micro))
        → IsTrue (is_object_name dp) × IsTrue (is_quotable micro.inport) × IsPacket micro.packet }
{}
