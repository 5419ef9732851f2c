//! The copies of all queues, found by number, by queue and by who holds them.
#![tactic(auto)]

mod copies;
mod entry;
mod iter;
mod shelf;
#[cfg(test)]
mod tests;

pub use copies::Copies;
pub use entry::{Holder, QueueCopy};
pub use iter::CopiesIter;
