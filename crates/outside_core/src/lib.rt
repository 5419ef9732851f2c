//! The outside as traits: where octets come from and where they go, with implementations in memory.
#![tactic(auto)]

mod calls;
mod sink;
mod source;

pub use calls::Calls;
pub use sink::{MemSink, Sink, WriteAnswer};
pub use source::{MemSource, ReadAnswer, Source};
