//! The copies of all queues, and which of them each session holds.
#![tactic(auto)]

mod copies;
mod lanes;
#[cfg(test)]
mod tests;

pub use copies::HeldCopies;
pub use queue_copies::{CopiesIter, Holder, QueueCopy};
