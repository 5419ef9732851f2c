//! Both halves of a session: which commands of the peer are new, and which of one's own are kept for it.
#![tactic(auto)]

mod fault;
mod receiver;
mod sender;
#[cfg(test)]
mod tests;

pub use fault::{UnknownIds, UnknownSent};
pub use receiver::{Arrival, Receiver};
pub use sender::Sender;
