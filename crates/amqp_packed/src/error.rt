//! Why octets spell no fields.

use amqp_values::ValueFault;

/// Why no fields were read.
#[derive(Clone, Copy, Debug, PartialEq, Eq)]
pub enum PackError {
    /// The first fault from left to right.
    Bad(ValueFault),
    NoMemory,
}
