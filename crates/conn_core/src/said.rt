//! What an end of a connection says.
use amqp_terms::Units;
use octet_reading::Why;

/// The answers to what an end heard, and where it then stands.
#[derive(Debug, Drop)]
pub struct Said {
    /// The answers on channel 0, in order.
    pub units: Units,
    /// Whether the end's own protocol header, eight octets, is written before them.
    pub echo: bool,
    /// The largest frame from then on, in octets.
    pub max_frame: u16,
    /// Present exactly where the connection was closed by this: for a reason, or for none where the peer closed it.
    pub closed: Option<Option<Why>>,
    /// Whether the unit goes on to the sessions.
    pub pass: bool,
}
