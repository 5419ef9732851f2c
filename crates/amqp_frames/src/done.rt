//! What an assembler hands out.
use crate::assembly::Assembly;
use octet_reading::Why;

/// A whole assembly. Places count the connection's octets.
#[derive(Debug, Drop)]
pub struct Done {
    pub channel: u16,
    pub assembly: Assembly,
    /// The place of its first octet.
    pub at: u64,
    /// The place after its last octet.
    pub end: u64,
}

/// What came of a piece.
#[derive(Debug, Drop)]
pub struct Fed {
    /// The octets that were taken: those up to an assembly's end, else all.
    pub taken: usize,
    pub done: Option<Done>,
}

/// The first fault of the frames.
#[derive(Clone, Copy, Debug, PartialEq, Eq)]
pub struct FrameFault {
    /// The place of the frame's first octet.
    pub at: u64,
    pub why: Why,
}

/// A piece isn't taken.
#[derive(Clone, Copy, Debug, PartialEq, Eq)]
pub enum FrameError {
    /// The octets are refused, and so are all that follow.
    Bad(FrameFault),
    /// The assembler is as it was before the piece.
    NoMemory,
}
