//! Tests of the crates that a member of a group is made of, of the member, of mirrors, and of those that fetch in
//! threads.
//!
//! They stand in a crate of their own, since a library is proved once more for the tests that stand in it.
#![tactic(auto)]

#[cfg(test)]
mod board;
#[cfg(test)]
mod catalog;
#[cfg(test)]
mod command;
#[cfg(test)]
mod expect;
#[cfg(test)]
mod member;
#[cfg(test)]
mod mirror;
#[cfg(test)]
mod mirrors;
#[cfg(test)]
mod net;
#[cfg(test)]
mod object;
#[cfg(test)]
mod plan;
#[cfg(test)]
mod process;
#[cfg(test)]
mod store;
#[cfg(test)]
mod surface;
#[cfg(test)]
mod watch;
#[cfg(test)]
mod work;
#[cfg(test)]
mod worked;
#[cfg(test)]
mod world;
