//! The names of controls, commands and structs, each with those of its fields.
ghost use Rattle.std.specs.Prelude.{◌≡◌};
ghost use Rattle.octet_tools.specs.Words.{control_words, command_words, delivery_words, message_words};

use amqp_commands::{CommandKind, ControlKind};

/// The name of a control and those of its fields, in order, parted by blanks.
pub(crate) fn control_words(kind: ControlKind) -> &'static [u8]
    ensures { result.now ≡ control_words kind }
{
    match kind {
        ControlKind::ConnectionStart => b"connection.start server-properties mechanisms locales",
        ControlKind::ConnectionStartOk =>
            b"connection.start-ok client-properties mechanism response locale",
        ControlKind::ConnectionSecure => b"connection.secure challenge",
        ControlKind::ConnectionSecureOk => b"connection.secure-ok response",
        ControlKind::ConnectionTune =>
            b"connection.tune channel-max max-frame-size heartbeat-min heartbeat-max",
        ControlKind::ConnectionTuneOk => b"connection.tune-ok channel-max max-frame-size heartbeat",
        ControlKind::ConnectionOpen => b"connection.open virtual-host capabilities insist",
        ControlKind::ConnectionOpenOk => b"connection.open-ok known-hosts",
        ControlKind::ConnectionHeartbeat => b"connection.heartbeat",
        ControlKind::ConnectionClose => b"connection.close reply-code reply-text",
        ControlKind::ConnectionCloseOk => b"connection.close-ok",
        ControlKind::SessionAttach => b"session.attach name force",
        ControlKind::SessionAttached => b"session.attached name",
        ControlKind::SessionDetach => b"session.detach name",
        ControlKind::SessionDetached => b"session.detached name code",
        ControlKind::SessionRequestTimeout => b"session.request-timeout timeout",
        ControlKind::SessionTimeout => b"session.timeout timeout",
        ControlKind::SessionCommandPoint => b"session.command-point command-id command-offset",
        ControlKind::SessionExpected => b"session.expected commands fragments",
        ControlKind::SessionConfirmed => b"session.confirmed commands fragments",
        ControlKind::SessionCompleted => b"session.completed commands timely-reply",
        ControlKind::SessionKnownCompleted => b"session.known-completed commands",
        ControlKind::SessionFlush => b"session.flush expected confirmed completed",
        ControlKind::SessionGap => b"session.gap commands",
    }
}

/// The name of a command and those of its fields, in order, parted by blanks.
pub(crate) fn command_words(kind: CommandKind) -> &'static [u8]
    ensures { result.now ≡ command_words kind }
{
    match kind {
        CommandKind::ExecutionSync => b"execution.sync",
        CommandKind::ExecutionResult => b"execution.result command-id value",
        CommandKind::ExecutionException =>
            b"execution.exception error-code command-id class-code command-code field-index description error-info",
        CommandKind::MessageTransfer => b"message.transfer destination accept-mode acquire-mode",
        CommandKind::MessageAccept => b"message.accept transfers",
        CommandKind::MessageReject => b"message.reject transfers code text",
        CommandKind::MessageRelease => b"message.release transfers set-redelivered",
        CommandKind::MessageAcquire => b"message.acquire transfers",
        CommandKind::MessageSubscribe =>
            b"message.subscribe queue destination accept-mode acquire-mode exclusive resume-id resume-ttl arguments",
        CommandKind::MessageCancel => b"message.cancel destination",
        CommandKind::MessageSetFlowMode => b"message.set-flow-mode destination flow-mode",
        CommandKind::MessageFlow => b"message.flow destination unit value",
        CommandKind::MessageFlush => b"message.flush destination",
        CommandKind::MessageStop => b"message.stop destination",
        CommandKind::TxSelect => b"tx.select",
        CommandKind::TxCommit => b"tx.commit",
        CommandKind::TxRollback => b"tx.rollback",
        CommandKind::DtxSelect => b"dtx.select",
        CommandKind::DtxStart => b"dtx.start xid join resume",
        CommandKind::DtxEnd => b"dtx.end xid fail suspend",
        CommandKind::DtxCommit => b"dtx.commit xid one-phase",
        CommandKind::DtxForget => b"dtx.forget xid",
        CommandKind::DtxGetTimeout => b"dtx.get-timeout xid",
        CommandKind::DtxPrepare => b"dtx.prepare xid",
        CommandKind::DtxRollback => b"dtx.rollback xid",
        CommandKind::DtxRecover => b"dtx.recover",
        CommandKind::DtxSetTimeout => b"dtx.set-timeout xid timeout",
        CommandKind::ExchangeDeclare =>
            b"exchange.declare exchange type alternate-exchange passive durable auto-delete arguments",
        CommandKind::ExchangeDelete => b"exchange.delete exchange if-unused",
        CommandKind::ExchangeQuery => b"exchange.query name",
        CommandKind::ExchangeBind => b"exchange.bind queue exchange binding-key arguments",
        CommandKind::ExchangeUnbind => b"exchange.unbind queue exchange binding-key",
        CommandKind::ExchangeBound => b"exchange.bound exchange queue binding-key arguments",
        CommandKind::QueueDeclare =>
            b"queue.declare queue alternate-exchange passive durable exclusive auto-delete arguments",
        CommandKind::QueueDelete => b"queue.delete queue if-unused if-empty",
        CommandKind::QueuePurge => b"queue.purge queue",
        CommandKind::QueueQuery => b"queue.query queue",
    }
}

/// Those of 4,1.
pub(crate) fn delivery_words() -> &'static [u8]
    ensures { result.now ≡ delivery_words }
{
    b"delivery-properties discard-unroutable immediate redelivered priority delivery-mode ttl timestamp expiration exchange routing-key resume-id resume-ttl"
}

/// Those of 4,3.
pub(crate) fn message_words() -> &'static [u8]
    ensures { result.now ≡ message_words }
{
    b"message-properties content-length message-id correlation-id reply-to content-type content-encoding user-id app-id application-headers"
}
