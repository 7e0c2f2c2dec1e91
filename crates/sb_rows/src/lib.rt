//! The rows of the logical flow table: their order, the store that keeps them in it, and the listing that a reader of
//! flows sees.
#![tactic(auto)]

mod asks;
mod by_text;
mod counts;
mod crowds;
mod datapath_rows;
mod filled;
mod finding;
mod fold;
mod index;
mod laws;
mod listing;
mod new_rows;
mod own;
mod row_list;
mod rows;
mod spacing;
mod store;
mod stored;
mod table;

pub use datapath_rows::DatapathRows;
pub use laws::{rows_are_told_by_their_members, rows_that_are_put_are_in_order};
pub use listing::put_listing;
pub use new_rows::NewRows;
pub use row_list::RowList;
pub use rows::Rows;
