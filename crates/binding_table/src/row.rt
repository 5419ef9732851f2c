//! A binding, and the exchange that it is of.
use octet_reading::Text;

/// What ties a queue to an exchange (AMQP 0-10, "exchange.bind").
#[derive(Debug, Drop)]
pub struct Binding<A> {
    pub queue: Text,
    /// The binding key.
    pub key: Text,
    pub arguments: A,
}

/// A binding of the exchange with this number.
#[derive(Debug, Drop)]
pub struct Row<A> {
    pub exchange: usize,
    pub binding: Binding<A>,
}
