//! Why octets spell no value.

use octet_reading::Why;

/// The first fault from left to right.
#[derive(Clone, Copy, Debug, PartialEq, Eq)]
pub struct ValueFault {
    /// The index of the first octet of the smallest item that it concerns.
    pub at: usize,
    pub why: Why,
}

/// Why no value was read.
#[derive(Clone, Copy, Debug, PartialEq, Eq)]
pub enum ValueError {
    Bad(ValueFault),
    NoMemory,
}
