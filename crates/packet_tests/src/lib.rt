//! Tests of the crates that read, write and check packets, vectors and sync Interests, and of those that read the
//! lines of a script and write those of its report.
//!
//! They stand in a crate of their own, since a library is proved once more for the tests that stand in it.
#![tactic(auto)]

#[cfg(test)]
mod data;
#[cfg(test)]
mod expect;
#[cfg(test)]
mod inspect;
#[cfg(test)]
mod interest;
#[cfg(test)]
mod lines;
#[cfg(test)]
mod name;
#[cfg(test)]
mod reports;
#[cfg(test)]
mod sign;
#[cfg(test)]
mod surface;
#[cfg(test)]
mod sync;
#[cfg(test)]
mod tlv;
#[cfg(test)]
mod vector;
