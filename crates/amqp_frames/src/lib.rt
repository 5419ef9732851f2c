//! Frames of AMQP 0-10, "transport": octets to assemblies in any cut, and assemblies to octets.
#![tactic(auto)]

mod assembler;
mod assembly;
mod done;
mod frames;
mod gathered;
mod header;
mod lane;
mod partial;
#[cfg(test)]
mod tests;
mod touched;

pub use assembler::Assembler;
pub use assembly::{Assembly, Segment};
pub use done::{Done, Fed, FrameError, FrameFault};
pub use frames::write_frames;
