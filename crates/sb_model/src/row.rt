use crate::Stage;
use act_core::Action;
use expr_core::Typed;
use nv_base::{Items, ObjId};

/// A row of the logical flow table (ovn-sb(5), 'Logical_Flow TABLE').
#[derive(Drop, PartialEq, Eq)]
pub struct Row {
    /// The datapath's number.
    pub dp: ObjId,
    pub stage: Stage,
    /// Among the rows of a stage that take a packet, the one of the highest priority acts.
    pub priority: u16,
    /// The number of the object that the row was made for, or 0.
    pub hint: ObjId,
    /// The packets that the row takes.
    pub matching: Typed,
    /// What the row does to the packets that it takes.
    pub actions: Items<Action>,
}
