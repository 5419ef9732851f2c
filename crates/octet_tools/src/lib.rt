//! Tools over the octets of one direction of a connection: `show` and `reframe`.
#![tactic(auto)]

mod course;
mod field;
mod run;
mod text;
mod tool;
mod unit;
mod words;

pub use run::{OctetsEnded, run_octets};
pub use tool::OctetTool;
