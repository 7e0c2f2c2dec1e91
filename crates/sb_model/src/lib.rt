//! The logical flow table as data: the stages of the pipelines, the rows, and the matches and actions that rows are
//! made of.
#![tactic(auto)]

mod kept;
mod make;
mod row;
mod stage;

pub use make::{
    as_ip4, as_mac, bit, bit_is_set, both, differs, either, equals, goes_out_by, in_decimal,
    in_hexadecimal, is_none_of, is_one_of, is_port, one_step, predicate, takes_each,
};
pub use row::Row;
pub use stage::{DatapathKind, Pipeline, Stage};
