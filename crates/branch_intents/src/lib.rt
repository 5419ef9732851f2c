//! What a transaction will do when it is committed.
#![tactic(auto)]

mod intents;
#[cfg(test)]
mod tests;

pub use intents::{Intent, Intents};
