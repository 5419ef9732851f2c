//! Bindings of exchanges, found by queue and by key.
#![tactic(auto)]

mod order;
mod row;
mod rows;
mod table;
#[cfg(test)]
mod tests;

pub use row::{Binding, Row};
pub use rows::Rows;
pub use table::Bindings;
