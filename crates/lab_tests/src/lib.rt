//! Tests of the lab: what its forms write over scripts with notes, and how they end where the words, the input, a read
//! or a write is at fault.
//!
//! They stand in a crate of their own, since a library is proved once more for the tests that stand in it.
#![tactic(auto)]

#[cfg(test)]
mod captures;
#[cfg(test)]
mod checks;
#[cfg(test)]
mod faults;
#[cfg(test)]
mod limits;
#[cfg(test)]
mod pictures;
#[cfg(test)]
mod rows;
#[cfg(test)]
mod seeds;
#[cfg(test)]
mod words;
