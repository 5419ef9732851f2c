//! The kinds of commands, by class and code.
ghost use Rattle.std.specs.Prelude.{◌≡◌, ◌≤◌, length};
ghost use Rattle.amqp_commands.specs.Kinds.{is_command_class, command_class, command_code, command_table, command_kind};
ghost use Rattle.amqp_commands.specs.Terms.{command_kind_of};

use amqp_packed::FieldKind;
use amqp_terms::Command;

/// What a command is, without its fields (AMQP 0-10, "execution" to "queue").
#[derive(Clone, Copy, Debug, PartialEq, Eq)]
pub enum CommandKind {
    /// 3,1 execution.sync.
    ExecutionSync,
    /// 3,2 execution.result.
    ExecutionResult,
    /// 3,3 execution.exception.
    ExecutionException,
    /// 4,1 message.transfer.
    MessageTransfer,
    /// 4,2 message.accept.
    MessageAccept,
    /// 4,3 message.reject.
    MessageReject,
    /// 4,4 message.release.
    MessageRelease,
    /// 4,5 message.acquire.
    MessageAcquire,
    /// 4,7 message.subscribe.
    MessageSubscribe,
    /// 4,8 message.cancel.
    MessageCancel,
    /// 4,9 message.set-flow-mode.
    MessageSetFlowMode,
    /// 4,10 message.flow.
    MessageFlow,
    /// 4,11 message.flush.
    MessageFlush,
    /// 4,12 message.stop.
    MessageStop,
    /// 5,1 tx.select.
    TxSelect,
    /// 5,2 tx.commit.
    TxCommit,
    /// 5,3 tx.rollback.
    TxRollback,
    /// 6,1 dtx.select.
    DtxSelect,
    /// 6,2 dtx.start.
    DtxStart,
    /// 6,3 dtx.end.
    DtxEnd,
    /// 6,4 dtx.commit.
    DtxCommit,
    /// 6,5 dtx.forget.
    DtxForget,
    /// 6,6 dtx.get-timeout.
    DtxGetTimeout,
    /// 6,7 dtx.prepare.
    DtxPrepare,
    /// 6,9 dtx.rollback.
    DtxRollback,
    /// 6,8 dtx.recover.
    DtxRecover,
    /// 6,10 dtx.set-timeout.
    DtxSetTimeout,
    /// 7,1 exchange.declare.
    ExchangeDeclare,
    /// 7,2 exchange.delete.
    ExchangeDelete,
    /// 7,3 exchange.query.
    ExchangeQuery,
    /// 7,4 exchange.bind.
    ExchangeBind,
    /// 7,5 exchange.unbind.
    ExchangeUnbind,
    /// 7,6 exchange.bound.
    ExchangeBound,
    /// 8,1 queue.declare.
    QueueDeclare,
    /// 8,2 queue.delete.
    QueueDelete,
    /// 8,3 queue.purge.
    QueuePurge,
    /// 8,4 queue.query.
    QueueQuery,
}

impl CommandKind {
    /// The kind of a command; none of an unknown one.
    pub fn of(command: &Command) -> Option<CommandKind>
        ensures { result ≡ command_kind_of command.now }
    {
        match command {
            Command::ExecutionSync => Some(CommandKind::ExecutionSync),
            Command::ExecutionResult { .. } => Some(CommandKind::ExecutionResult),
            Command::ExecutionException { .. } => Some(CommandKind::ExecutionException),
            Command::MessageTransfer { .. } => Some(CommandKind::MessageTransfer),
            Command::MessageAccept { .. } => Some(CommandKind::MessageAccept),
            Command::MessageReject { .. } => Some(CommandKind::MessageReject),
            Command::MessageRelease { .. } => Some(CommandKind::MessageRelease),
            Command::MessageAcquire { .. } => Some(CommandKind::MessageAcquire),
            Command::MessageSubscribe { .. } => Some(CommandKind::MessageSubscribe),
            Command::MessageCancel { .. } => Some(CommandKind::MessageCancel),
            Command::MessageSetFlowMode { .. } => Some(CommandKind::MessageSetFlowMode),
            Command::MessageFlow { .. } => Some(CommandKind::MessageFlow),
            Command::MessageFlush { .. } => Some(CommandKind::MessageFlush),
            Command::MessageStop { .. } => Some(CommandKind::MessageStop),
            Command::TxSelect => Some(CommandKind::TxSelect),
            Command::TxCommit => Some(CommandKind::TxCommit),
            Command::TxRollback => Some(CommandKind::TxRollback),
            Command::DtxSelect => Some(CommandKind::DtxSelect),
            Command::DtxStart { .. } => Some(CommandKind::DtxStart),
            Command::DtxEnd { .. } => Some(CommandKind::DtxEnd),
            Command::DtxCommit { .. } => Some(CommandKind::DtxCommit),
            Command::DtxForget { .. } => Some(CommandKind::DtxForget),
            Command::DtxGetTimeout { .. } => Some(CommandKind::DtxGetTimeout),
            Command::DtxPrepare { .. } => Some(CommandKind::DtxPrepare),
            Command::DtxRollback { .. } => Some(CommandKind::DtxRollback),
            Command::DtxRecover => Some(CommandKind::DtxRecover),
            Command::DtxSetTimeout { .. } => Some(CommandKind::DtxSetTimeout),
            Command::ExchangeDeclare { .. } => Some(CommandKind::ExchangeDeclare),
            Command::ExchangeDelete { .. } => Some(CommandKind::ExchangeDelete),
            Command::ExchangeQuery { .. } => Some(CommandKind::ExchangeQuery),
            Command::ExchangeBind { .. } => Some(CommandKind::ExchangeBind),
            Command::ExchangeUnbind { .. } => Some(CommandKind::ExchangeUnbind),
            Command::ExchangeBound { .. } => Some(CommandKind::ExchangeBound),
            Command::QueueDeclare { .. } => Some(CommandKind::QueueDeclare),
            Command::QueueDelete { .. } => Some(CommandKind::QueueDelete),
            Command::QueuePurge { .. } => Some(CommandKind::QueuePurge),
            Command::QueueQuery { .. } => Some(CommandKind::QueueQuery),
            Command::Unknown { .. } => None,
        }
    }

    /// Its class octet.
    pub fn class(self) -> u8
        ensures { result ≡ command_class self }
    {
        match self {
            CommandKind::ExecutionSync
            | CommandKind::ExecutionResult
            | CommandKind::ExecutionException => 3,
            CommandKind::MessageTransfer
            | CommandKind::MessageAccept
            | CommandKind::MessageReject
            | CommandKind::MessageRelease
            | CommandKind::MessageAcquire
            | CommandKind::MessageSubscribe
            | CommandKind::MessageCancel
            | CommandKind::MessageSetFlowMode
            | CommandKind::MessageFlow
            | CommandKind::MessageFlush
            | CommandKind::MessageStop => 4,
            CommandKind::TxSelect | CommandKind::TxCommit | CommandKind::TxRollback => 5,
            CommandKind::DtxSelect
            | CommandKind::DtxStart
            | CommandKind::DtxEnd
            | CommandKind::DtxCommit
            | CommandKind::DtxForget
            | CommandKind::DtxGetTimeout
            | CommandKind::DtxPrepare
            | CommandKind::DtxRollback
            | CommandKind::DtxRecover
            | CommandKind::DtxSetTimeout => 6,
            CommandKind::ExchangeDeclare
            | CommandKind::ExchangeDelete
            | CommandKind::ExchangeQuery
            | CommandKind::ExchangeBind
            | CommandKind::ExchangeUnbind
            | CommandKind::ExchangeBound => 7,
            CommandKind::QueueDeclare
            | CommandKind::QueueDelete
            | CommandKind::QueuePurge
            | CommandKind::QueueQuery => 8,
        }
    }

    /// Its code octet, within the class.
    pub fn code(self) -> u8
        ensures { result ≡ command_code self }
    {
        match self {
            CommandKind::ExecutionSync => 1,
            CommandKind::ExecutionResult => 2,
            CommandKind::ExecutionException => 3,
            CommandKind::MessageTransfer => 1,
            CommandKind::MessageAccept => 2,
            CommandKind::MessageReject => 3,
            CommandKind::MessageRelease => 4,
            CommandKind::MessageAcquire => 5,
            CommandKind::MessageSubscribe => 7,
            CommandKind::MessageCancel => 8,
            CommandKind::MessageSetFlowMode => 9,
            CommandKind::MessageFlow => 10,
            CommandKind::MessageFlush => 11,
            CommandKind::MessageStop => 12,
            CommandKind::TxSelect => 1,
            CommandKind::TxCommit => 2,
            CommandKind::TxRollback => 3,
            CommandKind::DtxSelect => 1,
            CommandKind::DtxStart => 2,
            CommandKind::DtxEnd => 3,
            CommandKind::DtxCommit => 4,
            CommandKind::DtxForget => 5,
            CommandKind::DtxGetTimeout => 6,
            CommandKind::DtxPrepare => 7,
            CommandKind::DtxRollback => 9,
            CommandKind::DtxRecover => 8,
            CommandKind::DtxSetTimeout => 10,
            CommandKind::ExchangeDeclare => 1,
            CommandKind::ExchangeDelete => 2,
            CommandKind::ExchangeQuery => 3,
            CommandKind::ExchangeBind => 4,
            CommandKind::ExchangeUnbind => 5,
            CommandKind::ExchangeBound => 6,
            CommandKind::QueueDeclare => 1,
            CommandKind::QueueDelete => 2,
            CommandKind::QueuePurge => 3,
            CommandKind::QueueQuery => 4,
        }
    }

    /// The kinds of its fields, in order.
    pub fn table(self) -> &'static [FieldKind]
        ensures fields { result.now ≡ command_table self }
        ensures few { length result.now ≤ 16 }
    {
        match self {
            CommandKind::ExecutionSync => &[],
            CommandKind::ExecutionResult => &[FieldKind::U32, FieldKind::Struct32],
            CommandKind::ExecutionException => &[
                FieldKind::U16,
                FieldKind::U32,
                FieldKind::U8,
                FieldKind::U8,
                FieldKind::U8,
                FieldKind::Str16,
                FieldKind::Map,
            ],
            CommandKind::MessageTransfer => &[FieldKind::Str8, FieldKind::U8, FieldKind::U8],
            CommandKind::MessageAccept => &[FieldKind::Ranges],
            CommandKind::MessageReject => &[FieldKind::Ranges, FieldKind::U16, FieldKind::Str8],
            CommandKind::MessageRelease => &[FieldKind::Ranges, FieldKind::Bit],
            CommandKind::MessageAcquire => &[FieldKind::Ranges],
            CommandKind::MessageSubscribe => &[
                FieldKind::Str8,
                FieldKind::Str8,
                FieldKind::U8,
                FieldKind::U8,
                FieldKind::Bit,
                FieldKind::Str16,
                FieldKind::U64,
                FieldKind::Map,
            ],
            CommandKind::MessageCancel => &[FieldKind::Str8],
            CommandKind::MessageSetFlowMode => &[FieldKind::Str8, FieldKind::U8],
            CommandKind::MessageFlow => &[FieldKind::Str8, FieldKind::U8, FieldKind::U32],
            CommandKind::MessageFlush => &[FieldKind::Str8],
            CommandKind::MessageStop => &[FieldKind::Str8],
            CommandKind::TxSelect => &[],
            CommandKind::TxCommit => &[],
            CommandKind::TxRollback => &[],
            CommandKind::DtxSelect => &[],
            CommandKind::DtxStart => &[FieldKind::Xid, FieldKind::Bit, FieldKind::Bit],
            CommandKind::DtxEnd => &[FieldKind::Xid, FieldKind::Bit, FieldKind::Bit],
            CommandKind::DtxCommit => &[FieldKind::Xid, FieldKind::Bit],
            CommandKind::DtxForget => &[FieldKind::Xid],
            CommandKind::DtxGetTimeout => &[FieldKind::Xid],
            CommandKind::DtxPrepare => &[FieldKind::Xid],
            CommandKind::DtxRollback => &[FieldKind::Xid],
            CommandKind::DtxRecover => &[],
            CommandKind::DtxSetTimeout => &[FieldKind::Xid, FieldKind::U32],
            CommandKind::ExchangeDeclare => &[
                FieldKind::Str8,
                FieldKind::Str8,
                FieldKind::Str8,
                FieldKind::Bit,
                FieldKind::Bit,
                FieldKind::Bit,
                FieldKind::Map,
            ],
            CommandKind::ExchangeDelete => &[FieldKind::Str8, FieldKind::Bit],
            CommandKind::ExchangeQuery => &[FieldKind::Str8],
            CommandKind::ExchangeBind => &[
                FieldKind::Str8,
                FieldKind::Str8,
                FieldKind::Str8,
                FieldKind::Map,
            ],
            CommandKind::ExchangeUnbind => &[FieldKind::Str8, FieldKind::Str8, FieldKind::Str8],
            CommandKind::ExchangeBound => &[
                FieldKind::Str8,
                FieldKind::Str8,
                FieldKind::Str8,
                FieldKind::Map,
            ],
            CommandKind::QueueDeclare => &[
                FieldKind::Str8,
                FieldKind::Str8,
                FieldKind::Bit,
                FieldKind::Bit,
                FieldKind::Bit,
                FieldKind::Bit,
                FieldKind::Map,
            ],
            CommandKind::QueueDelete => &[FieldKind::Str8, FieldKind::Bit, FieldKind::Bit],
            CommandKind::QueuePurge => &[FieldKind::Str8],
            CommandKind::QueueQuery => &[FieldKind::Str8],
        }
    }
}

/// Whether a class has commands.
pub(crate) fn is_command_class(class: u8) -> bool
    ensures { result ≡ is_command_class class }
{
    3 <= class && class <= 10
}

/// The kind of a class and code, if one has them.
#[tactic(auto, unfolding(crate::specs::Kinds::command_kind))]
pub fn command_kind(class: u8, code: u8) -> Option<CommandKind>
    ensures { result ≡ command_kind class code }
{
    match class {
        3 => match code {
            1 => Some(CommandKind::ExecutionSync),
            2 => Some(CommandKind::ExecutionResult),
            3 => Some(CommandKind::ExecutionException),
            _ => None,
        },
        4 => match code {
            1 => Some(CommandKind::MessageTransfer),
            2 => Some(CommandKind::MessageAccept),
            3 => Some(CommandKind::MessageReject),
            4 => Some(CommandKind::MessageRelease),
            5 => Some(CommandKind::MessageAcquire),
            7 => Some(CommandKind::MessageSubscribe),
            8 => Some(CommandKind::MessageCancel),
            9 => Some(CommandKind::MessageSetFlowMode),
            10 => Some(CommandKind::MessageFlow),
            11 => Some(CommandKind::MessageFlush),
            12 => Some(CommandKind::MessageStop),
            _ => None,
        },
        5 => match code {
            1 => Some(CommandKind::TxSelect),
            2 => Some(CommandKind::TxCommit),
            3 => Some(CommandKind::TxRollback),
            _ => None,
        },
        6 => match code {
            1 => Some(CommandKind::DtxSelect),
            2 => Some(CommandKind::DtxStart),
            3 => Some(CommandKind::DtxEnd),
            4 => Some(CommandKind::DtxCommit),
            5 => Some(CommandKind::DtxForget),
            6 => Some(CommandKind::DtxGetTimeout),
            7 => Some(CommandKind::DtxPrepare),
            8 => Some(CommandKind::DtxRecover),
            9 => Some(CommandKind::DtxRollback),
            10 => Some(CommandKind::DtxSetTimeout),
            _ => None,
        },
        7 => match code {
            1 => Some(CommandKind::ExchangeDeclare),
            2 => Some(CommandKind::ExchangeDelete),
            3 => Some(CommandKind::ExchangeQuery),
            4 => Some(CommandKind::ExchangeBind),
            5 => Some(CommandKind::ExchangeUnbind),
            6 => Some(CommandKind::ExchangeBound),
            _ => None,
        },
        8 => match code {
            1 => Some(CommandKind::QueueDeclare),
            2 => Some(CommandKind::QueueDelete),
            3 => Some(CommandKind::QueuePurge),
            4 => Some(CommandKind::QueueQuery),
            _ => None,
        },
        _ => None,
    }
}
