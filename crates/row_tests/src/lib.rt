//! Tests of the public calls that keep the rows of datapaths: what their clauses do not say.
#![tactic(auto)]

#[cfg(test)]
mod fixture;
#[cfg(test)]
mod listed;
#[cfg(test)]
mod met;
#[cfg(test)]
mod plain;
#[cfg(test)]
mod random;
#[cfg(test)]
mod taken;
