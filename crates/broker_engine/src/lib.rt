//! Octets of a connection to units for the hub, and the hub's answers to octets.
#![tactic(auto)]

mod conn;
mod intake;
mod write;

pub use conn::Conn;
pub use intake::{Closing, Fed};
