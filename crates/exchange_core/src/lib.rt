//! Exchanges by name, their bindings, and what they route where.
#![tactic(auto)]

mod exchanges;
mod iter;
mod marks;
mod routes;
#[cfg(test)]
mod tests;

pub use exchanges::Exchanges;
pub use iter::{ExchangeBindings, ExchangeNames};
pub use marks::{Binding, BoundBits, ExchangeMarks, Kind, Names};
