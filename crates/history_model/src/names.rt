//! How a trace numbers the connections that the hub numbers.

/// A connection's number in the hub, and in the trace.
#[derive(Clone, Copy, Debug, PartialEq, Eq)]
pub struct ConnName {
    pub number: u64,
    pub name: u32,
}
