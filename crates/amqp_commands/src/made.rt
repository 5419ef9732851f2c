//! Controls and commands out of their fields.
ghost use Rattle.std.specs.Prelude.{◌≡◌};
ghost use Rattle.amqp_commands.specs.Terms.{control_by, command_by};

use crate::commands::CommandKind;
use crate::controls::ControlKind;
use amqp_packed::{
    Fields, take_array, take_bit, take_map, take_ranges, take_str8, take_str16, take_struct32,
    take_u8, take_u16, take_u32, take_u64, take_vbin16, take_vbin32, take_xid,
};
use amqp_terms::{Command, Control};

/// The control of a kind that fields make; past their end every field is absent.
pub(crate) fn control_by(kind: ControlKind, fields: &mut Fields) -> Control
    ensures { result ≡ control_by kind fields.old }
{
    match kind {
        ControlKind::ConnectionStart => Control::ConnectionStart {
            server_properties: take_map(fields),
            mechanisms: take_array(fields),
            locales: take_array(fields),
        },
        ControlKind::ConnectionStartOk => Control::ConnectionStartOk {
            client_properties: take_map(fields),
            mechanism: take_str8(fields),
            response: take_vbin32(fields),
            locale: take_str8(fields),
        },
        ControlKind::ConnectionSecure => Control::ConnectionSecure {
            challenge: take_vbin32(fields),
        },
        ControlKind::ConnectionSecureOk => Control::ConnectionSecureOk {
            response: take_vbin32(fields),
        },
        ControlKind::ConnectionTune => Control::ConnectionTune {
            channel_max: take_u16(fields),
            max_frame_size: take_u16(fields),
            heartbeat_min: take_u16(fields),
            heartbeat_max: take_u16(fields),
        },
        ControlKind::ConnectionTuneOk => Control::ConnectionTuneOk {
            channel_max: take_u16(fields),
            max_frame_size: take_u16(fields),
            heartbeat: take_u16(fields),
        },
        ControlKind::ConnectionOpen => Control::ConnectionOpen {
            virtual_host: take_str8(fields),
            capabilities: take_array(fields),
            insist: take_bit(fields),
        },
        ControlKind::ConnectionOpenOk => Control::ConnectionOpenOk {
            known_hosts: take_array(fields),
        },
        ControlKind::ConnectionHeartbeat => Control::ConnectionHeartbeat,
        ControlKind::ConnectionClose => Control::ConnectionClose {
            reply_code: take_u16(fields),
            reply_text: take_str8(fields),
        },
        ControlKind::ConnectionCloseOk => Control::ConnectionCloseOk,
        ControlKind::SessionAttach => Control::SessionAttach {
            name: take_vbin16(fields),
            force: take_bit(fields),
        },
        ControlKind::SessionAttached => Control::SessionAttached {
            name: take_vbin16(fields),
        },
        ControlKind::SessionDetach => Control::SessionDetach {
            name: take_vbin16(fields),
        },
        ControlKind::SessionDetached => Control::SessionDetached {
            name: take_vbin16(fields),
            code: take_u8(fields),
        },
        ControlKind::SessionRequestTimeout => Control::SessionRequestTimeout {
            timeout: take_u32(fields),
        },
        ControlKind::SessionTimeout => Control::SessionTimeout {
            timeout: take_u32(fields),
        },
        ControlKind::SessionCommandPoint => Control::SessionCommandPoint {
            command_id: take_u32(fields),
            command_offset: take_u64(fields),
        },
        ControlKind::SessionExpected => Control::SessionExpected {
            commands: take_ranges(fields),
            fragments: take_array(fields),
        },
        ControlKind::SessionConfirmed => Control::SessionConfirmed {
            commands: take_ranges(fields),
            fragments: take_array(fields),
        },
        ControlKind::SessionCompleted => Control::SessionCompleted {
            commands: take_ranges(fields),
            timely_reply: take_bit(fields),
        },
        ControlKind::SessionKnownCompleted => Control::SessionKnownCompleted {
            commands: take_ranges(fields),
        },
        ControlKind::SessionFlush => Control::SessionFlush {
            expected: take_bit(fields),
            confirmed: take_bit(fields),
            completed: take_bit(fields),
        },
        ControlKind::SessionGap => Control::SessionGap {
            commands: take_ranges(fields),
        },
    }
}

/// The command of a kind that fields make; past their end every field is absent.
pub(crate) fn command_by(kind: CommandKind, fields: &mut Fields) -> Command
    ensures { result ≡ command_by kind fields.old }
{
    match kind {
        CommandKind::ExecutionSync => Command::ExecutionSync,
        CommandKind::ExecutionResult => Command::ExecutionResult {
            command_id: take_u32(fields),
            value: take_struct32(fields),
        },
        CommandKind::ExecutionException => Command::ExecutionException {
            error_code: take_u16(fields),
            command_id: take_u32(fields),
            class_code: take_u8(fields),
            command_code: take_u8(fields),
            field_index: take_u8(fields),
            description: take_str16(fields),
            error_info: take_map(fields),
        },
        CommandKind::MessageTransfer => Command::MessageTransfer {
            destination: take_str8(fields),
            accept_mode: take_u8(fields),
            acquire_mode: take_u8(fields),
        },
        CommandKind::MessageAccept => Command::MessageAccept {
            transfers: take_ranges(fields),
        },
        CommandKind::MessageReject => Command::MessageReject {
            transfers: take_ranges(fields),
            code: take_u16(fields),
            text: take_str8(fields),
        },
        CommandKind::MessageRelease => Command::MessageRelease {
            transfers: take_ranges(fields),
            set_redelivered: take_bit(fields),
        },
        CommandKind::MessageAcquire => Command::MessageAcquire {
            transfers: take_ranges(fields),
        },
        CommandKind::MessageSubscribe => Command::MessageSubscribe {
            queue: take_str8(fields),
            destination: take_str8(fields),
            accept_mode: take_u8(fields),
            acquire_mode: take_u8(fields),
            exclusive: take_bit(fields),
            resume_id: take_str16(fields),
            resume_ttl: take_u64(fields),
            arguments: take_map(fields),
        },
        CommandKind::MessageCancel => Command::MessageCancel {
            destination: take_str8(fields),
        },
        CommandKind::MessageSetFlowMode => Command::MessageSetFlowMode {
            destination: take_str8(fields),
            flow_mode: take_u8(fields),
        },
        CommandKind::MessageFlow => Command::MessageFlow {
            destination: take_str8(fields),
            unit: take_u8(fields),
            value: take_u32(fields),
        },
        CommandKind::MessageFlush => Command::MessageFlush {
            destination: take_str8(fields),
        },
        CommandKind::MessageStop => Command::MessageStop {
            destination: take_str8(fields),
        },
        CommandKind::TxSelect => Command::TxSelect,
        CommandKind::TxCommit => Command::TxCommit,
        CommandKind::TxRollback => Command::TxRollback,
        CommandKind::DtxSelect => Command::DtxSelect,
        CommandKind::DtxStart => Command::DtxStart {
            xid: take_xid(fields),
            join: take_bit(fields),
            resume: take_bit(fields),
        },
        CommandKind::DtxEnd => Command::DtxEnd {
            xid: take_xid(fields),
            fail: take_bit(fields),
            suspend: take_bit(fields),
        },
        CommandKind::DtxCommit => Command::DtxCommit {
            xid: take_xid(fields),
            one_phase: take_bit(fields),
        },
        CommandKind::DtxForget => Command::DtxForget {
            xid: take_xid(fields),
        },
        CommandKind::DtxGetTimeout => Command::DtxGetTimeout {
            xid: take_xid(fields),
        },
        CommandKind::DtxPrepare => Command::DtxPrepare {
            xid: take_xid(fields),
        },
        CommandKind::DtxRollback => Command::DtxRollback {
            xid: take_xid(fields),
        },
        CommandKind::DtxRecover => Command::DtxRecover,
        CommandKind::DtxSetTimeout => Command::DtxSetTimeout {
            xid: take_xid(fields),
            timeout: take_u32(fields),
        },
        CommandKind::ExchangeDeclare => Command::ExchangeDeclare {
            exchange: take_str8(fields),
            kind: take_str8(fields),
            alternate_exchange: take_str8(fields),
            passive: take_bit(fields),
            durable: take_bit(fields),
            auto_delete: take_bit(fields),
            arguments: take_map(fields),
        },
        CommandKind::ExchangeDelete => Command::ExchangeDelete {
            exchange: take_str8(fields),
            if_unused: take_bit(fields),
        },
        CommandKind::ExchangeQuery => Command::ExchangeQuery {
            name: take_str8(fields),
        },
        CommandKind::ExchangeBind => Command::ExchangeBind {
            queue: take_str8(fields),
            exchange: take_str8(fields),
            binding_key: take_str8(fields),
            arguments: take_map(fields),
        },
        CommandKind::ExchangeUnbind => Command::ExchangeUnbind {
            queue: take_str8(fields),
            exchange: take_str8(fields),
            binding_key: take_str8(fields),
        },
        CommandKind::ExchangeBound => Command::ExchangeBound {
            exchange: take_str8(fields),
            queue: take_str8(fields),
            binding_key: take_str8(fields),
            arguments: take_map(fields),
        },
        CommandKind::QueueDeclare => Command::QueueDeclare {
            queue: take_str8(fields),
            alternate_exchange: take_str8(fields),
            passive: take_bit(fields),
            durable: take_bit(fields),
            exclusive: take_bit(fields),
            auto_delete: take_bit(fields),
            arguments: take_map(fields),
        },
        CommandKind::QueueDelete => Command::QueueDelete {
            queue: take_str8(fields),
            if_unused: take_bit(fields),
            if_empty: take_bit(fields),
        },
        CommandKind::QueuePurge => Command::QueuePurge {
            queue: take_str8(fields),
        },
        CommandKind::QueueQuery => Command::QueueQuery {
            queue: take_str8(fields),
        },
    }
}
