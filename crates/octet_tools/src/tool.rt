//! Which tool takes the octets.

/// A tool over the octets of one direction of a connection.
#[derive(Clone, Copy, Debug, PartialEq, Eq)]
pub enum OctetTool {
    /// A line for each unit.
    Show,
    /// Each assembly again, in frames of so many octets at most; at least 4,096.
    Reframe { max_frame: u16 },
}
