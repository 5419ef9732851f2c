//! Lists of nodes in one slab, linked by key. A node lies in one list, and may lie in one holder's list besides, which
//! keeps the order of holding.
#![tactic(auto)]

mod links;
mod lists;
mod steps;
#[cfg(test)]
mod tests;

pub use lists::Lists;
pub use steps::Steps;
