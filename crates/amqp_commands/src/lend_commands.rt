//! The fields of commands, lent.
ghost use Rattle.std.specs.Prelude.{◌≡◌, ◌≤◌, length, map, IfOk};
ghost use Rattle.amqp_packed.specs.Lent.{lent};
ghost use Rattle.amqp_commands.specs.Terms.{command_fields};

use crate::refs::refs_of;
use amqp_packed::FieldRef;
use amqp_terms::Command;
use amqp_values::NoMemory;
use std::alloc::Global;

/// The fields of a command in the order of its table, absent ones too; none of an unknown one.
pub fn command_refs(alloc: Global, command: &Command) -> Result<Vec<FieldRef<'_>>, NoMemory>
    ensures fields { IfOk result (λ refs. map lent refs.items ≡ command_fields command.now) }
    ensures few { IfOk result (λ refs. length refs.items ≤ 16) }
{
    match command {
        Command::ExecutionSync => { refs_of(alloc, &[]) }
        Command::ExecutionResult { command_id, value } => {
            refs_of(
                alloc,
                &[FieldRef::of_u32(command_id), FieldRef::of_struct32(value)],
            )
        }
        Command::ExecutionException {
            error_code,
            command_id,
            class_code,
            command_code,
            field_index,
            description,
            error_info,
        } => {
            refs_of(
                alloc,
                &[
                    FieldRef::of_u16(error_code),
                    FieldRef::of_u32(command_id),
                    FieldRef::of_u8(class_code),
                    FieldRef::of_u8(command_code),
                    FieldRef::of_u8(field_index),
                    FieldRef::of_str16(description),
                    FieldRef::of_map(error_info),
                ],
            )
        }
        Command::MessageTransfer {
            destination,
            accept_mode,
            acquire_mode,
        } => {
            refs_of(
                alloc,
                &[
                    FieldRef::of_str8(destination),
                    FieldRef::of_u8(accept_mode),
                    FieldRef::of_u8(acquire_mode),
                ],
            )
        }
        Command::MessageAccept { transfers } => {
            refs_of(alloc, &[FieldRef::of_ranges(transfers)])
        }
        Command::MessageReject {
            transfers,
            code,
            text,
        } => {
            refs_of(
                alloc,
                &[
                    FieldRef::of_ranges(transfers),
                    FieldRef::of_u16(code),
                    FieldRef::of_str8(text),
                ],
            )
        }
        Command::MessageRelease {
            transfers,
            set_redelivered,
        } => {
            refs_of(
                alloc,
                &[
                    FieldRef::of_ranges(transfers),
                    FieldRef::of_bit(*set_redelivered),
                ],
            )
        }
        Command::MessageAcquire { transfers } => {
            refs_of(alloc, &[FieldRef::of_ranges(transfers)])
        }
        Command::MessageSubscribe {
            queue,
            destination,
            accept_mode,
            acquire_mode,
            exclusive,
            resume_id,
            resume_ttl,
            arguments,
        } => {
            refs_of(
                alloc,
                &[
                    FieldRef::of_str8(queue),
                    FieldRef::of_str8(destination),
                    FieldRef::of_u8(accept_mode),
                    FieldRef::of_u8(acquire_mode),
                    FieldRef::of_bit(*exclusive),
                    FieldRef::of_str16(resume_id),
                    FieldRef::of_u64(resume_ttl),
                    FieldRef::of_map(arguments),
                ],
            )
        }
        Command::MessageCancel { destination } => {
            refs_of(alloc, &[FieldRef::of_str8(destination)])
        }
        Command::MessageSetFlowMode {
            destination,
            flow_mode,
        } => {
            refs_of(
                alloc,
                &[FieldRef::of_str8(destination), FieldRef::of_u8(flow_mode)],
            )
        }
        Command::MessageFlow {
            destination,
            unit,
            value,
        } => {
            refs_of(
                alloc,
                &[
                    FieldRef::of_str8(destination),
                    FieldRef::of_u8(unit),
                    FieldRef::of_u32(value),
                ],
            )
        }
        Command::MessageFlush { destination } => {
            refs_of(alloc, &[FieldRef::of_str8(destination)])
        }
        Command::MessageStop { destination } => {
            refs_of(alloc, &[FieldRef::of_str8(destination)])
        }
        Command::TxSelect => { refs_of(alloc, &[]) }
        Command::TxCommit => { refs_of(alloc, &[]) }
        Command::TxRollback => { refs_of(alloc, &[]) }
        Command::DtxSelect => { refs_of(alloc, &[]) }
        Command::DtxStart { xid, join, resume } => {
            refs_of(
                alloc,
                &[
                    FieldRef::of_xid(xid),
                    FieldRef::of_bit(*join),
                    FieldRef::of_bit(*resume),
                ],
            )
        }
        Command::DtxEnd { xid, fail, suspend } => {
            refs_of(
                alloc,
                &[
                    FieldRef::of_xid(xid),
                    FieldRef::of_bit(*fail),
                    FieldRef::of_bit(*suspend),
                ],
            )
        }
        Command::DtxCommit { xid, one_phase } => {
            refs_of(
                alloc,
                &[FieldRef::of_xid(xid), FieldRef::of_bit(*one_phase)],
            )
        }
        Command::DtxForget { xid } => { refs_of(alloc, &[FieldRef::of_xid(xid)]) }
        Command::DtxGetTimeout { xid } => { refs_of(alloc, &[FieldRef::of_xid(xid)]) }
        Command::DtxPrepare { xid } => { refs_of(alloc, &[FieldRef::of_xid(xid)]) }
        Command::DtxRollback { xid } => { refs_of(alloc, &[FieldRef::of_xid(xid)]) }
        Command::DtxRecover => { refs_of(alloc, &[]) }
        Command::DtxSetTimeout { xid, timeout } => {
            refs_of(alloc, &[FieldRef::of_xid(xid), FieldRef::of_u32(timeout)])
        }
        Command::ExchangeDeclare {
            exchange,
            kind,
            alternate_exchange,
            passive,
            durable,
            auto_delete,
            arguments,
        } => {
            refs_of(
                alloc,
                &[
                    FieldRef::of_str8(exchange),
                    FieldRef::of_str8(kind),
                    FieldRef::of_str8(alternate_exchange),
                    FieldRef::of_bit(*passive),
                    FieldRef::of_bit(*durable),
                    FieldRef::of_bit(*auto_delete),
                    FieldRef::of_map(arguments),
                ],
            )
        }
        Command::ExchangeDelete {
            exchange,
            if_unused,
        } => {
            refs_of(
                alloc,
                &[FieldRef::of_str8(exchange), FieldRef::of_bit(*if_unused)],
            )
        }
        Command::ExchangeQuery { name } => { refs_of(alloc, &[FieldRef::of_str8(name)]) }
        Command::ExchangeBind {
            queue,
            exchange,
            binding_key,
            arguments,
        } => {
            refs_of(
                alloc,
                &[
                    FieldRef::of_str8(queue),
                    FieldRef::of_str8(exchange),
                    FieldRef::of_str8(binding_key),
                    FieldRef::of_map(arguments),
                ],
            )
        }
        Command::ExchangeUnbind {
            queue,
            exchange,
            binding_key,
        } => {
            refs_of(
                alloc,
                &[
                    FieldRef::of_str8(queue),
                    FieldRef::of_str8(exchange),
                    FieldRef::of_str8(binding_key),
                ],
            )
        }
        Command::ExchangeBound {
            exchange,
            queue,
            binding_key,
            arguments,
        } => {
            refs_of(
                alloc,
                &[
                    FieldRef::of_str8(exchange),
                    FieldRef::of_str8(queue),
                    FieldRef::of_str8(binding_key),
                    FieldRef::of_map(arguments),
                ],
            )
        }
        Command::QueueDeclare {
            queue,
            alternate_exchange,
            passive,
            durable,
            exclusive,
            auto_delete,
            arguments,
        } => {
            refs_of(
                alloc,
                &[
                    FieldRef::of_str8(queue),
                    FieldRef::of_str8(alternate_exchange),
                    FieldRef::of_bit(*passive),
                    FieldRef::of_bit(*durable),
                    FieldRef::of_bit(*exclusive),
                    FieldRef::of_bit(*auto_delete),
                    FieldRef::of_map(arguments),
                ],
            )
        }
        Command::QueueDelete {
            queue,
            if_unused,
            if_empty,
        } => {
            refs_of(
                alloc,
                &[
                    FieldRef::of_str8(queue),
                    FieldRef::of_bit(*if_unused),
                    FieldRef::of_bit(*if_empty),
                ],
            )
        }
        Command::QueuePurge { queue } => { refs_of(alloc, &[FieldRef::of_str8(queue)]) }
        Command::QueueQuery { queue } => { refs_of(alloc, &[FieldRef::of_str8(queue)]) }
        Command::Unknown {
            class: _,
            code: _,
            rest: _,
        } => refs_of(alloc, &[]),
    }
}
