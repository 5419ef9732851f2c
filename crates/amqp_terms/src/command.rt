//! The commands of the classes execution to queue (AMQP 0-10, chapters of these names).
ghost use Rattle.std.specs.Prelude.{◌≡◌, IfOk};

use crate::field::{octets_copied, ranges_copied, text_copied, value_copied, xid_copied};
use amqp_values::{NoMemory, Octets, Ranges, Text, Value, Xid};
use std::alloc::Global;

/// A command with its fields: a bit is set or not, another field is there or absent.
#[derive(Debug, Drop)]
pub enum Command {
    /// 3,1 execution.sync.
    ExecutionSync,
    /// 3,2 execution.result.
    ExecutionResult {
        command_id: Option<u32>,
        value: Option<Octets>,
    },
    /// 3,3 execution.exception.
    ExecutionException {
        error_code: Option<u16>,
        command_id: Option<u32>,
        class_code: Option<u8>,
        command_code: Option<u8>,
        field_index: Option<u8>,
        description: Option<Text>,
        error_info: Option<Value>,
    },
    /// 4,1 message.transfer.
    MessageTransfer {
        destination: Option<Text>,
        accept_mode: Option<u8>,
        acquire_mode: Option<u8>,
    },
    /// 4,2 message.accept.
    MessageAccept {
        transfers: Option<Ranges>,
    },
    /// 4,3 message.reject.
    MessageReject {
        transfers: Option<Ranges>,
        code: Option<u16>,
        text: Option<Text>,
    },
    /// 4,4 message.release.
    MessageRelease {
        transfers: Option<Ranges>,
        set_redelivered: bool,
    },
    /// 4,5 message.acquire.
    MessageAcquire {
        transfers: Option<Ranges>,
    },
    /// 4,7 message.subscribe.
    MessageSubscribe {
        queue: Option<Text>,
        destination: Option<Text>,
        accept_mode: Option<u8>,
        acquire_mode: Option<u8>,
        exclusive: bool,
        resume_id: Option<Text>,
        resume_ttl: Option<u64>,
        arguments: Option<Value>,
    },
    /// 4,8 message.cancel.
    MessageCancel {
        destination: Option<Text>,
    },
    /// 4,9 message.set-flow-mode.
    MessageSetFlowMode {
        destination: Option<Text>,
        flow_mode: Option<u8>,
    },
    /// 4,10 message.flow.
    MessageFlow {
        destination: Option<Text>,
        unit: Option<u8>,
        value: Option<u32>,
    },
    /// 4,11 message.flush.
    MessageFlush {
        destination: Option<Text>,
    },
    /// 4,12 message.stop.
    MessageStop {
        destination: Option<Text>,
    },
    /// 5,1 tx.select.
    TxSelect,
    /// 5,2 tx.commit.
    TxCommit,
    /// 5,3 tx.rollback.
    TxRollback,
    /// 6,1 dtx.select.
    DtxSelect,
    /// 6,2 dtx.start.
    DtxStart {
        xid: Option<Xid>,
        join: bool,
        resume: bool,
    },
    /// 6,3 dtx.end.
    DtxEnd {
        xid: Option<Xid>,
        fail: bool,
        suspend: bool,
    },
    /// 6,4 dtx.commit.
    DtxCommit {
        xid: Option<Xid>,
        one_phase: bool,
    },
    /// 6,5 dtx.forget.
    DtxForget {
        xid: Option<Xid>,
    },
    /// 6,6 dtx.get-timeout.
    DtxGetTimeout {
        xid: Option<Xid>,
    },
    /// 6,7 dtx.prepare.
    DtxPrepare {
        xid: Option<Xid>,
    },
    /// 6,9 dtx.rollback.
    DtxRollback {
        xid: Option<Xid>,
    },
    /// 6,8 dtx.recover.
    DtxRecover,
    /// 6,10 dtx.set-timeout.
    DtxSetTimeout {
        xid: Option<Xid>,
        timeout: Option<u32>,
    },
    /// 7,1 exchange.declare.
    ExchangeDeclare {
        exchange: Option<Text>,
        kind: Option<Text>,
        alternate_exchange: Option<Text>,
        passive: bool,
        durable: bool,
        auto_delete: bool,
        arguments: Option<Value>,
    },
    /// 7,2 exchange.delete.
    ExchangeDelete {
        exchange: Option<Text>,
        if_unused: bool,
    },
    /// 7,3 exchange.query.
    ExchangeQuery {
        name: Option<Text>,
    },
    /// 7,4 exchange.bind.
    ExchangeBind {
        queue: Option<Text>,
        exchange: Option<Text>,
        binding_key: Option<Text>,
        arguments: Option<Value>,
    },
    /// 7,5 exchange.unbind.
    ExchangeUnbind {
        queue: Option<Text>,
        exchange: Option<Text>,
        binding_key: Option<Text>,
    },
    /// 7,6 exchange.bound.
    ExchangeBound {
        exchange: Option<Text>,
        queue: Option<Text>,
        binding_key: Option<Text>,
        arguments: Option<Value>,
    },
    /// 8,1 queue.declare.
    QueueDeclare {
        queue: Option<Text>,
        alternate_exchange: Option<Text>,
        passive: bool,
        durable: bool,
        exclusive: bool,
        auto_delete: bool,
        arguments: Option<Value>,
    },
    /// 8,2 queue.delete.
    QueueDelete {
        queue: Option<Text>,
        if_unused: bool,
        if_empty: bool,
    },
    /// 8,3 queue.purge.
    QueuePurge {
        queue: Option<Text>,
    },
    /// 8,4 queue.query.
    QueueQuery {
        queue: Option<Text>,
    },
    /// A command of a listed class whose code isn't listed, with all that follows its session header.
    Unknown {
        class: u8,
        code: u8,
        rest: Octets,
    },
}

impl Command {
    /// A copy, equal to its source.
    pub fn copied(&self, alloc: Global) -> Result<Command, NoMemory>
        ensures { IfOk result (λ copy. copy ≡ self.now) }
    {
        match self {
            Command::ExecutionSync => Ok(Command::ExecutionSync),
            Command::ExecutionResult { command_id, value } => Ok(Command::ExecutionResult {
                command_id: *command_id,
                value: octets_copied(alloc, value)?,
            }),
            Command::ExecutionException {
                error_code,
                command_id,
                class_code,
                command_code,
                field_index,
                description,
                error_info,
            } => Ok(Command::ExecutionException {
                error_code: *error_code,
                command_id: *command_id,
                class_code: *class_code,
                command_code: *command_code,
                field_index: *field_index,
                description: text_copied(alloc, description)?,
                error_info: value_copied(alloc, error_info)?,
            }),
            Command::MessageTransfer {
                destination,
                accept_mode,
                acquire_mode,
            } => Ok(Command::MessageTransfer {
                destination: text_copied(alloc, destination)?,
                accept_mode: *accept_mode,
                acquire_mode: *acquire_mode,
            }),
            Command::MessageAccept { transfers } => Ok(Command::MessageAccept {
                transfers: ranges_copied(alloc, transfers)?,
            }),
            Command::MessageReject {
                transfers,
                code,
                text,
            } => Ok(Command::MessageReject {
                transfers: ranges_copied(alloc, transfers)?,
                code: *code,
                text: text_copied(alloc, text)?,
            }),
            Command::MessageRelease {
                transfers,
                set_redelivered,
            } => Ok(Command::MessageRelease {
                transfers: ranges_copied(alloc, transfers)?,
                set_redelivered: *set_redelivered,
            }),
            Command::MessageAcquire { transfers } => Ok(Command::MessageAcquire {
                transfers: ranges_copied(alloc, transfers)?,
            }),
            Command::MessageSubscribe {
                queue,
                destination,
                accept_mode,
                acquire_mode,
                exclusive,
                resume_id,
                resume_ttl,
                arguments,
            } => Ok(Command::MessageSubscribe {
                queue: text_copied(alloc, queue)?,
                destination: text_copied(alloc, destination)?,
                accept_mode: *accept_mode,
                acquire_mode: *acquire_mode,
                exclusive: *exclusive,
                resume_id: text_copied(alloc, resume_id)?,
                resume_ttl: *resume_ttl,
                arguments: value_copied(alloc, arguments)?,
            }),
            Command::MessageCancel { destination } => Ok(Command::MessageCancel {
                destination: text_copied(alloc, destination)?,
            }),
            Command::MessageSetFlowMode {
                destination,
                flow_mode,
            } => Ok(Command::MessageSetFlowMode {
                destination: text_copied(alloc, destination)?,
                flow_mode: *flow_mode,
            }),
            Command::MessageFlow {
                destination,
                unit,
                value,
            } => Ok(Command::MessageFlow {
                destination: text_copied(alloc, destination)?,
                unit: *unit,
                value: *value,
            }),
            Command::MessageFlush { destination } => Ok(Command::MessageFlush {
                destination: text_copied(alloc, destination)?,
            }),
            Command::MessageStop { destination } => Ok(Command::MessageStop {
                destination: text_copied(alloc, destination)?,
            }),
            Command::TxSelect => Ok(Command::TxSelect),
            Command::TxCommit => Ok(Command::TxCommit),
            Command::TxRollback => Ok(Command::TxRollback),
            Command::DtxSelect => Ok(Command::DtxSelect),
            Command::DtxStart { xid, join, resume } => Ok(Command::DtxStart {
                xid: xid_copied(alloc, xid)?,
                join: *join,
                resume: *resume,
            }),
            Command::DtxEnd { xid, fail, suspend } => Ok(Command::DtxEnd {
                xid: xid_copied(alloc, xid)?,
                fail: *fail,
                suspend: *suspend,
            }),
            Command::DtxCommit { xid, one_phase } => Ok(Command::DtxCommit {
                xid: xid_copied(alloc, xid)?,
                one_phase: *one_phase,
            }),
            Command::DtxForget { xid } => Ok(Command::DtxForget {
                xid: xid_copied(alloc, xid)?,
            }),
            Command::DtxGetTimeout { xid } => Ok(Command::DtxGetTimeout {
                xid: xid_copied(alloc, xid)?,
            }),
            Command::DtxPrepare { xid } => Ok(Command::DtxPrepare {
                xid: xid_copied(alloc, xid)?,
            }),
            Command::DtxRollback { xid } => Ok(Command::DtxRollback {
                xid: xid_copied(alloc, xid)?,
            }),
            Command::DtxRecover => Ok(Command::DtxRecover),
            Command::DtxSetTimeout { xid, timeout } => Ok(Command::DtxSetTimeout {
                xid: xid_copied(alloc, xid)?,
                timeout: *timeout,
            }),
            Command::ExchangeDeclare {
                exchange,
                kind,
                alternate_exchange,
                passive,
                durable,
                auto_delete,
                arguments,
            } => Ok(Command::ExchangeDeclare {
                exchange: text_copied(alloc, exchange)?,
                kind: text_copied(alloc, kind)?,
                alternate_exchange: text_copied(alloc, alternate_exchange)?,
                passive: *passive,
                durable: *durable,
                auto_delete: *auto_delete,
                arguments: value_copied(alloc, arguments)?,
            }),
            Command::ExchangeDelete {
                exchange,
                if_unused,
            } => Ok(Command::ExchangeDelete {
                exchange: text_copied(alloc, exchange)?,
                if_unused: *if_unused,
            }),
            Command::ExchangeQuery { name } => Ok(Command::ExchangeQuery {
                name: text_copied(alloc, name)?,
            }),
            Command::ExchangeBind {
                queue,
                exchange,
                binding_key,
                arguments,
            } => Ok(Command::ExchangeBind {
                queue: text_copied(alloc, queue)?,
                exchange: text_copied(alloc, exchange)?,
                binding_key: text_copied(alloc, binding_key)?,
                arguments: value_copied(alloc, arguments)?,
            }),
            Command::ExchangeUnbind {
                queue,
                exchange,
                binding_key,
            } => Ok(Command::ExchangeUnbind {
                queue: text_copied(alloc, queue)?,
                exchange: text_copied(alloc, exchange)?,
                binding_key: text_copied(alloc, binding_key)?,
            }),
            Command::ExchangeBound {
                exchange,
                queue,
                binding_key,
                arguments,
            } => Ok(Command::ExchangeBound {
                exchange: text_copied(alloc, exchange)?,
                queue: text_copied(alloc, queue)?,
                binding_key: text_copied(alloc, binding_key)?,
                arguments: value_copied(alloc, arguments)?,
            }),
            Command::QueueDeclare {
                queue,
                alternate_exchange,
                passive,
                durable,
                exclusive,
                auto_delete,
                arguments,
            } => Ok(Command::QueueDeclare {
                queue: text_copied(alloc, queue)?,
                alternate_exchange: text_copied(alloc, alternate_exchange)?,
                passive: *passive,
                durable: *durable,
                exclusive: *exclusive,
                auto_delete: *auto_delete,
                arguments: value_copied(alloc, arguments)?,
            }),
            Command::QueueDelete {
                queue,
                if_unused,
                if_empty,
            } => Ok(Command::QueueDelete {
                queue: text_copied(alloc, queue)?,
                if_unused: *if_unused,
                if_empty: *if_empty,
            }),
            Command::QueuePurge { queue } => Ok(Command::QueuePurge {
                queue: text_copied(alloc, queue)?,
            }),
            Command::QueueQuery { queue } => Ok(Command::QueueQuery {
                queue: text_copied(alloc, queue)?,
            }),
            Command::Unknown { class, code, rest } => Ok(Command::Unknown {
                class: *class,
                code: *code,
                rest: rest.copied(alloc)?,
            }),
        }
    }
}
