//! Sessions and broker as one state, which takes one event after another.
#![tactic(auto)]

mod answers;
mod covers;
mod hub;
mod places;
mod report;
mod session;
mod state;

pub use history_model::{HubEvent, Out, Outs};
pub use hub::Hub;
