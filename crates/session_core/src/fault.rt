//! Numbers that a peer may not name.

/// A command-point with an offset, or past the next number, or below 0 (AMQP 0-10, "session.command-point"). Nothing
/// was changed.
#[derive(Clone, Copy, Debug, PartialEq, Eq)]
pub struct UnknownIds {
    /// The least number that no command had and no gap named.
    pub next: u64,
    /// What came.
    pub got: u32,
    pub offset: u64,
}

/// An expected number below the first kept command, or beyond the last one sent (AMQP 0-10, "session.expected").
/// Nothing was changed.
#[derive(Clone, Copy, Debug, PartialEq, Eq)]
pub struct UnknownSent {
    /// The number of the first command that is kept.
    pub base: u64,
    /// How many commands were given.
    pub sent: u64,
    /// What came.
    pub got: u64,
}
