//! A map whose keys are in order and that takes no memory but where room is made, and laws of lists about a cut.
#![tactic(auto)]

mod map;
#[cfg(test)]
mod tests;

pub use map::SortedMap;
