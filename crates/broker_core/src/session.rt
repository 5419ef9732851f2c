//! What the broker knows of a session.

/// A session that has begun and has not ended.
#[derive(Debug, Drop)]
pub struct Session {
    /// It had an exception: its commands have no effect, and nothing is delivered to it.
    pub failed: bool,
    /// It may be delivered to, as its connection stands.
    pub ready: bool,
    /// How many commands were given to it, which is the number of the next one.
    pub given: u64,
    /// How many of them its peer didn't complete yet.
    pub uncompleted: u64,
}
