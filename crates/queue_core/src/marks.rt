//! What a queue was declared with.
ghost use Rattle.std.specs.Prelude.{◌≡◌};
ghost use Rattle.queue_core.specs.Queues.{plain_marks};

use amqp_values::Value;
use octet_reading::Text;

/// What a queue was declared with.
#[derive(Debug, Drop)]
pub struct QueueMarks {
    /// It is there again after a restart.
    pub durable: bool,
    /// The session that it belongs to alone.
    pub exclusive: Option<u64>,
    /// It ends with its last subscription.
    pub auto_delete: bool,
    /// The exchange that takes what is rejected; empty for none.
    pub alternate: Text,
    /// The arguments that it was declared with, a map.
    pub arguments: Option<Value>,
}

impl QueueMarks {
    /// The same without the durable, exclusive and auto-delete marks.
    pub(crate) fn plain(self) -> QueueMarks
        ensures { result ≡ plain_marks self }
    {
        QueueMarks {
            durable: false,
            exclusive: None,
            auto_delete: false,
            ..self
        }
    }
}
