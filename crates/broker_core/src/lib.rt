//! The broker's objects, and what each command does to them: decided first, then room is made, then done.
#![tactic(auto)]

mod acts;
mod answer;
mod broker;
mod edit;
mod exchange;
mod plan;
mod queue;
mod room;
mod session;
#[cfg(test)]
mod tests;

pub use broker::Broker;
pub use edit::Edit;
pub use plan::{Entry, Given, Moment, Numbers, Plan};
pub use session::Session;
