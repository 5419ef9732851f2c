//! A map from names that is in the order of the names and takes no memory but where room is made.
#![tactic(auto)]

mod map;
#[cfg(test)]
mod tests;

pub use map::NameMap;
