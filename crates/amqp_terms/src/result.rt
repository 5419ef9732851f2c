//! The values of execution.result (AMQP 0-10, "message", "dtx", "exchange", "queue").
ghost use Rattle.std.specs.Prelude.{◌≡◌, IfOk};

use crate::field::{ranges_copied, text_copied, value_copied};
use amqp_values::{NoMemory, Ranges, Text, Value};
use std::alloc::Global;

/// What a command gave: a struct with its fields, each there or absent, a bit set or not.
#[derive(Debug, Drop)]
pub enum ResultValue {
    /// 4,4 acquired.
    Acquired {
        transfers: Option<Ranges>,
    },
    /// 6,1 xa-result.
    XaResult {
        status: Option<u16>,
    },
    /// 6,2 get-timeout-result.
    GetTimeoutResult {
        setting: Option<u32>,
    },
    /// 6,3 recover-result.
    RecoverResult {
        in_doubt: Option<Value>,
    },
    /// 7,1 exchange-query-result.
    ExchangeQueryResult {
        kind: Option<Text>,
        durable: bool,
        not_found: bool,
        arguments: Option<Value>,
    },
    /// 7,2 exchange-bound-result.
    ExchangeBoundResult {
        exchange_not_found: bool,
        queue_not_found: bool,
        queue_not_matched: bool,
        key_not_matched: bool,
        args_not_matched: bool,
    },
    /// 8,1 queue-query-result.
    QueueQueryResult {
        queue: Option<Text>,
        alternate_exchange: Option<Text>,
        durable: bool,
        exclusive: bool,
        auto_delete: bool,
        arguments: Option<Value>,
        message_count: Option<u32>,
        subscriber_count: Option<u32>,
    },
}

impl ResultValue {
    /// A copy, equal to its source.
    pub fn copied(&self, alloc: Global) -> Result<ResultValue, NoMemory>
        ensures { IfOk result (λ copy. copy ≡ self.now) }
    {
        match self {
            ResultValue::Acquired { transfers } => Ok(ResultValue::Acquired {
                transfers: ranges_copied(alloc, transfers)?,
            }),
            ResultValue::XaResult { status } => Ok(ResultValue::XaResult { status: *status }),
            ResultValue::GetTimeoutResult { setting } => Ok(ResultValue::GetTimeoutResult {
                setting: *setting,
            }),
            ResultValue::RecoverResult { in_doubt } => Ok(ResultValue::RecoverResult {
                in_doubt: value_copied(alloc, in_doubt)?,
            }),
            ResultValue::ExchangeQueryResult {
                kind,
                durable,
                not_found,
                arguments,
            } => Ok(ResultValue::ExchangeQueryResult {
                kind: text_copied(alloc, kind)?,
                durable: *durable,
                not_found: *not_found,
                arguments: value_copied(alloc, arguments)?,
            }),
            ResultValue::ExchangeBoundResult {
                exchange_not_found,
                queue_not_found,
                queue_not_matched,
                key_not_matched,
                args_not_matched,
            } => Ok(ResultValue::ExchangeBoundResult {
                exchange_not_found: *exchange_not_found,
                queue_not_found: *queue_not_found,
                queue_not_matched: *queue_not_matched,
                key_not_matched: *key_not_matched,
                args_not_matched: *args_not_matched,
            }),
            ResultValue::QueueQueryResult {
                queue,
                alternate_exchange,
                durable,
                exclusive,
                auto_delete,
                arguments,
                message_count,
                subscriber_count,
            } => Ok(ResultValue::QueueQueryResult {
                queue: text_copied(alloc, queue)?,
                alternate_exchange: text_copied(alloc, alternate_exchange)?,
                durable: *durable,
                exclusive: *exclusive,
                auto_delete: *auto_delete,
                arguments: value_copied(alloc, arguments)?,
                message_count: *message_count,
                subscriber_count: *subscriber_count,
            }),
        }
    }
}
