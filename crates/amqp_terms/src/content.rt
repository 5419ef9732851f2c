//! The content of a message: header structs and a body (AMQP 0-10, "message").
ghost use Rattle.std.specs.Prelude.{◌≡◌, ◌++◌, ◌∷◌, [], IfOk, OnOk, OnErr};

use crate::field::{octets_copied, reply_to_copied, text_copied, value_copied};
use amqp_values::{NoMemory, Octets, ReplyTo, Text, Value};
use std::alloc::Global;
use std::marker::Model;

/// 4,1 delivery-properties.
#[derive(Debug, Drop)]
pub struct DeliveryProperties {
    pub discard_unroutable: bool,
    pub immediate: bool,
    pub redelivered: bool,
    pub priority: Option<u8>,
    pub delivery_mode: Option<u8>,
    pub ttl: Option<u64>,
    pub timestamp: Option<u64>,
    pub expiration: Option<u64>,
    pub exchange: Option<Text>,
    pub routing_key: Option<Text>,
    pub resume_id: Option<Text>,
    pub resume_ttl: Option<u64>,
}

/// 4,3 message-properties.
#[derive(Debug, Drop)]
pub struct MessageProperties {
    pub content_length: Option<u64>,
    pub message_id: Option<Octets>,
    pub correlation_id: Option<Octets>,
    pub reply_to: Option<ReplyTo>,
    pub content_type: Option<Text>,
    pub content_encoding: Option<Text>,
    pub user_id: Option<Octets>,
    pub app_id: Option<Octets>,
    pub application_headers: Option<Value>,
}

/// A struct of a header segment.
#[derive(Debug, Drop)]
pub enum HeaderItem {
    Delivery(DeliveryProperties),
    Message(MessageProperties),
    /// Another struct, as its octets after class and code.
    Other { class: u8, code: u8, octets: Octets },
}

/// The structs of a header segment, in order.
#[derive(Debug, Drop)]
pub struct Header {
    items: Vec<HeaderItem>,
}

impl Model for Header {
    ghost use Rattle.std.specs.Prelude.{List};
    ghost use Rattle.std.specs.Coded.{codes};
    ghost use Rattle.amqp_values.specs.contracts.value.Value as e;
    ghost use Rattle.amqp_terms.specs.declared.content.HeaderItem.{HeaderItem};

    ghost Value = { List HeaderItem };

    ghost coded = { Prim.hlevel (codes, e.the_row.coded) };

    ghost view = { λ h. h.items.items };
}

impl Header {
    /// No structs. Takes no memory.
    pub fn new(alloc: Global) -> Header
        ensures { result ≡ [] }
    {
        Header {
            items: Vec::new(alloc),
        }
    }

    /// Puts a struct last. Without memory it is let go, and the header stays.
    pub fn push(&mut self, item: HeaderItem) -> Result<(), NoMemory>
        ensures ok { OnOk result (self.new ≡ self.old ++ item ∷ []) }
        ensures err { OnErr result (self.new ≡ self.old) }
    {
        self.items.push(item)?;
        Ok(())
    }

    /// The structs, lent.
    pub fn as_slice(&self) -> &[HeaderItem]
        ensures { result.now ≡ self.now }
    {
        self.items.as_slice()
    }

    /// A copy, equal to its source.
    pub fn copied(&self, alloc: Global) -> Result<Header, NoMemory>
        ensures { IfOk result (λ copy. copy ≡ self.now) }
    {
        let mut copy = Header::new(alloc);
        for item in self.items.as_slice() {
            copy.push(item.copied(alloc)?)?;
        }
        Ok(copy)
    }
}

/// What follows a command: a header segment, a body segment, or both.
#[derive(Debug, Drop)]
pub struct Content {
    pub header: Option<Header>,
    pub body: Option<Octets>,
}

impl DeliveryProperties {
    /// A copy, equal to its source.
    pub fn copied(&self, alloc: Global) -> Result<DeliveryProperties, NoMemory>
        ensures { IfOk result (λ copy. copy ≡ self.now) }
    {
        Ok(DeliveryProperties {
            discard_unroutable: self.discard_unroutable,
            immediate: self.immediate,
            redelivered: self.redelivered,
            priority: self.priority,
            delivery_mode: self.delivery_mode,
            ttl: self.ttl,
            timestamp: self.timestamp,
            expiration: self.expiration,
            exchange: text_copied(alloc, &self.exchange)?,
            routing_key: text_copied(alloc, &self.routing_key)?,
            resume_id: text_copied(alloc, &self.resume_id)?,
            resume_ttl: self.resume_ttl,
        })
    }
}

impl MessageProperties {
    /// A copy, equal to its source.
    pub fn copied(&self, alloc: Global) -> Result<MessageProperties, NoMemory>
        ensures { IfOk result (λ copy. copy ≡ self.now) }
    {
        Ok(MessageProperties {
            content_length: self.content_length,
            message_id: octets_copied(alloc, &self.message_id)?,
            correlation_id: octets_copied(alloc, &self.correlation_id)?,
            reply_to: reply_to_copied(alloc, &self.reply_to)?,
            content_type: text_copied(alloc, &self.content_type)?,
            content_encoding: text_copied(alloc, &self.content_encoding)?,
            user_id: octets_copied(alloc, &self.user_id)?,
            app_id: octets_copied(alloc, &self.app_id)?,
            application_headers: value_copied(alloc, &self.application_headers)?,
        })
    }
}

impl HeaderItem {
    /// A copy, equal to its source.
    pub fn copied(&self, alloc: Global) -> Result<HeaderItem, NoMemory>
        ensures { IfOk result (λ copy. copy ≡ self.now) }
    {
        match self {
            HeaderItem::Delivery(properties) => Ok(HeaderItem::Delivery(properties.copied(alloc)?)),
            HeaderItem::Message(properties) => Ok(HeaderItem::Message(properties.copied(alloc)?)),
            HeaderItem::Other {
                class,
                code,
                octets,
            } => Ok(HeaderItem::Other {
                class: *class,
                code: *code,
                octets: octets.copied(alloc)?,
            }),
        }
    }
}

impl Content {
    /// A copy, equal to its source. A body that is shared is shared once more.
    pub fn copied(&self, alloc: Global) -> Result<Content, NoMemory>
        ensures { IfOk result (λ copy. copy ≡ self.now) }
    {
        let header = match &self.header {
            Some(header) => Some(header.copied(alloc)?),
            None => None,
        };
        let body = octets_copied(alloc, &self.body)?;
        Ok(Content { header, body })
    }
}
