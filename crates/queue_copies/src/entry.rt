//! Copies and who holds them.

use amqp_terms::Header;
use amqp_values::Xid;
use bytes::Bytes;
use number_tree::Slot;
use octet_reading::Text;

/// A copy of a message in a queue.
#[derive(Debug, Drop)]
pub struct QueueCopy {
    /// Its number among the copies of all queues.
    pub number: u64,
    /// It may have been given to somebody before.
    pub redelivered: bool,
    /// The exchange that the message was published to.
    pub exchange: Text,
    pub header: Option<Header>,
    pub body: Option<Bytes>,
}

/// Who holds a copy.
#[derive(Debug, Drop)]
pub enum Holder {
    /// A session, by the number of the transfer that gave it.
    Session { session: u64, transfer: u64 },
    /// A branch of a distributed transaction.
    Branch { xid: Xid },
}

/// How a copy is held.
#[derive(Debug, Drop)]
pub(crate) struct Held {
    pub(crate) holder: Holder,
    /// The number of the holder's list.
    pub(crate) lane: usize,
    /// The room for its number, should it be available again.
    pub(crate) slot: Slot,
}

/// A copy in the list of its queue.
#[derive(Debug, Drop)]
pub(crate) struct Entry {
    pub(crate) list: usize,
    pub(crate) copy: QueueCopy,
    pub(crate) held: Option<Held>,
}
