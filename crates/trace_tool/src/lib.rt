//! The tools: `replay` runs the broker over a written trace.
#![tactic(auto)]

mod hearing;
mod line;
mod replay;
mod status;
mod tool;
mod wire;

pub use replay::{Replay, run_replay};
pub use status::Status;
pub use tool::run_tool;
