//! Why an assembly is no unit.
use amqp_values::Why;

/// The first fault of an assembly's segments.
#[derive(Clone, Copy, Debug, PartialEq, Eq)]
pub struct UnitFault {
    /// The segment, counted from 0.
    pub segment: u32,
    /// The index within the segment, from 0.
    pub at: u64,
    pub why: Why,
}

/// An assembly isn't read. Nothing is handed out.
#[derive(Clone, Copy, Debug, PartialEq, Eq)]
pub enum UnitError {
    Bad(UnitFault),
    NoMemory,
}
