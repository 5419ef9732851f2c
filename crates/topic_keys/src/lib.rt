//! Topic patterns: which routing keys a binding key stands for.
#![tactic(auto)]

#[cfg(test)]
mod tests;
mod topic;

pub use topic::topic_matches;
