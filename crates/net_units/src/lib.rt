//! The units of the switches of a network, kind by kind, the rows of all units of a network by their kinds, and how many units a change of
//! the network makes, as definitions, with their laws. It is what the flows that are kept by units are to be measured by.
#![tactic(auto)]

mod laws;

pub use laws::{
    differences_make_what_is_counted, keys_of_units_stand_once, no_change_makes_no_unit,
    rows_are_of_one_unit, rows_by_kind_are_those_of_the_units,
};
