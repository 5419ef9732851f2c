//! Names that each have a list of their own, by number, and marks.
#![tactic(auto)]

mod lists;
#[cfg(test)]
mod tests;

pub use lists::NamedLists;
