//! The events of a written trace, of connections that the trace numbers.

use amqp_values::Octets;

/// A line of a trace.
#[derive(Debug, Drop)]
pub enum TraceEvent {
    /// A connection whose negotiation is done.
    Ready { connection: u32 },
    /// A connection that begins with its protocol header.
    Open { connection: u32 },
    /// Octets of the peer, 1 to 65,536.
    Bytes { connection: u32, octets: Octets },
    /// The end of a connection.
    Lose { connection: u32 },
    /// A moment in which deliveries may go out.
    Quiet { connection: u32 },
    /// The time, in seconds.
    Tick { now: u64 },
    /// The end of the broker, and a new one over the same store.
    Restart,
}
