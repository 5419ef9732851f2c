//! The subscriptions of a session: whose turn it is, and how much each may still be sent.
#![tactic(auto)]

mod credit;
mod offers;
mod sub;
mod subs;
#[cfg(test)]
mod tests;

pub use credit::Credit;
pub use offers::Offers;
pub use sub::{Sub, SubState};
pub use subs::Subs;
