//! The single changes that plans are made of.
use exchange_core::{Binding, ExchangeMarks};
use octet_reading::Text;
use queue_core::QueueMarks;

/// One change of what the broker holds. It owns all that it puts in.
#[derive(Debug, Drop)]
pub enum Edit {
    /// A session fails.
    Fail {
        session: u64,
    },
    /// The peer completed so many of a session's commands.
    Complete {
        session: u64,
        count: u64,
    },
    /// An exchange is there, without bindings.
    PlaceExchange {
        name: Text,
        marks: ExchangeMarks,
    },
    /// An exchange is gone, with its bindings.
    DropExchange {
        name: Text,
    },
    /// A queue is bound.
    Bind {
        exchange: Text,
        binding: Binding,
    },
    /// A binding is gone, and its exchange where it ends so.
    Unbind {
        exchange: Text,
        queue: Text,
        key: Text,
    },
    /// A queue is there, without copies.
    PlaceQueue {
        name: Text,
        marks: QueueMarks,
    },
    /// A queue that is one session's own is there, without copies; its name comes twice.
    PlaceOwn {
        name: Text,
        again: Text,
        session: u64,
        marks: QueueMarks,
    },
    /// A queue is gone, with its copies and bindings.
    DropQueue {
        name: Text,
    },
    /// The copies of a queue that nobody holds are gone.
    Purge {
        name: Text,
    },
}
