//! Tests of the match language's public calls.
#![tactic(auto)]

#[cfg(test)]
mod copies;
#[cfg(test)]
mod covering;
#[cfg(test)]
mod holding;
#[cfg(test)]
mod network;
#[cfg(test)]
mod reading;
