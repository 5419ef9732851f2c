//! What rows keep.
use amqp_values::{Octets, Text, Value, Xid};

/// A message as a row has it.
#[derive(Debug, Drop)]
pub struct RowCopy {
    /// The exchange that it was published to.
    pub exchange: Text,
    /// The octets of its header segment.
    pub header: Option<Octets>,
    pub body: Option<Octets>,
}

/// What one row keeps.
#[derive(Debug, Drop)]
pub enum Kept {
    /// A prepared branch, and how many intents it has.
    Branch {
        xid: Xid,
        count: u32,
    },
    /// One intent of a prepared branch, its index counted from 0. The number of a publish is 0.
    Intent {
        xid: Xid,
        index: u32,
        accept: bool,
        queue: Text,
        number: u64,
        copy: RowCopy,
    },
    /// A copy in a queue.
    Message {
        queue: Text,
        number: u64,
        copy: RowCopy,
    },
    Queue {
        name: Text,
        alternate: Text,
        arguments: Option<Value>,
    },
    /// The kind is 0 for direct, 1 for fanout, 2 for topic, 3 for headers.
    Exchange {
        name: Text,
        kind: u8,
        alternate: Text,
        arguments: Option<Value>,
    },
    Binding {
        exchange: Text,
        queue: Text,
        key: Text,
        arguments: Option<Value>,
    },
}

/// Why nothing was read.
#[derive(Clone, Copy, Debug, PartialEq, Eq)]
pub enum RowError {
    /// The key or the content isn't of the form.
    BadRow,
    NoMemory,
}
