//! Sets of numbers in a tree whose nodes the caller keeps ready, so that a number is put in and taken out without
//! memory.
#![tactic(auto)]

mod numbers;
#[cfg(test)]
mod tests;
mod tree;

pub use numbers::{Numbers, Slot};
