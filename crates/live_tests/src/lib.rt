//! Tests of the crates whose threads wait for each other.
//!
//! They stand in a crate of their own, since no other test may wait.
#![tactic(auto)]

#[cfg(test)]
mod actors;
#[cfg(test)]
mod gated;
#[cfg(test)]
mod group;
#[cfg(test)]
mod inbox;
#[cfg(test)]
mod inputs;
#[cfg(test)]
mod limits;
#[cfg(test)]
mod member;
#[cfg(test)]
mod memory;
#[cfg(test)]
mod settle;
