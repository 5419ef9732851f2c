//! Why a header segment is refused.
use amqp_values::ValueFault;

/// A header segment isn't read. Nothing is handed out.
#[derive(Clone, Copy, Debug, PartialEq, Eq)]
pub enum HeaderError {
    /// The index within the segment, from 0, and the reason of the first fault.
    Bad(ValueFault),
    NoMemory,
}
