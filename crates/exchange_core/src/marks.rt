//! What an exchange was declared with, and what is asked of its bindings.
use amqp_values::Value;
use octet_reading::Text;

/// How an exchange routes (AMQP 0-10, "exchange").
#[derive(Clone, Copy, Debug, PartialEq, Eq)]
pub enum Kind {
    /// The binding key is the routing key.
    Direct,
    /// To all queues that are bound.
    Fanout,
    /// The binding key is a pattern of words.
    Topic,
    /// The binding's arguments are asked of the message's application-headers.
    Headers,
}

/// What an exchange was declared with.
#[derive(Debug, Drop)]
pub struct ExchangeMarks {
    pub kind: Kind,
    /// It is there again after a restart.
    pub durable: bool,
    /// It ends with its last binding.
    pub auto_delete: bool,
    /// The exchange that routes what found no queue; empty for none.
    pub alternate: Text,
    /// The arguments that it was declared with, a map.
    pub arguments: Option<Value>,
}

/// A queue's binding, with the arguments that it was made with, a map.
pub type Binding = binding_table::Binding<Option<Value>>;

/// Names of queues.
pub type Names = Vec<Text>;

/// What exchange.bound answers (AMQP 0-10, "exchange.exchange-bound-result").
#[derive(Clone, Copy, Debug, PartialEq, Eq)]
pub struct BoundBits {
    pub exchange_not_found: bool,
    pub queue_not_found: bool,
    pub queue_not_matched: bool,
    pub key_not_matched: bool,
    pub args_not_matched: bool,
}
