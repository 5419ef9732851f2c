//! Equality of values, and which headers a binding of a headers exchange asks for.
#![tactic(auto)]

mod equality;
mod headers;
#[cfg(test)]
mod tests;

pub use equality::{same, same_arguments};
pub use headers::headers_match;
