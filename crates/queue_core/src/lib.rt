//! Queues by name, with their copies and who holds them.
#![tactic(auto)]

mod marks;
mod names;
mod queues;
#[cfg(test)]
mod tests;

pub use held_copies::{CopiesIter as QueueCopies, Holder, QueueCopy};
pub use marks::QueueMarks;
pub use names::QueueNames;
pub use queues::Queues;
