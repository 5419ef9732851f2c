//! The kinds of controls, by class and code.
ghost use Rattle.std.specs.Prelude.{◌≡◌, ◌≤◌, length};
ghost use Rattle.amqp_commands.specs.Kinds.{is_control_class, control_class, control_code, control_table, control_kind};
ghost use Rattle.amqp_commands.specs.Terms.{control_kind_of};

use amqp_packed::FieldKind;
use amqp_terms::Control;

/// What a control is, without its fields (AMQP 0-10, "connection", "session").
#[derive(Clone, Copy, Debug, PartialEq, Eq)]
pub enum ControlKind {
    /// 1,1 connection.start.
    ConnectionStart,
    /// 1,2 connection.start-ok.
    ConnectionStartOk,
    /// 1,3 connection.secure.
    ConnectionSecure,
    /// 1,4 connection.secure-ok.
    ConnectionSecureOk,
    /// 1,5 connection.tune.
    ConnectionTune,
    /// 1,6 connection.tune-ok.
    ConnectionTuneOk,
    /// 1,7 connection.open.
    ConnectionOpen,
    /// 1,8 connection.open-ok.
    ConnectionOpenOk,
    /// 1,10 connection.heartbeat.
    ConnectionHeartbeat,
    /// 1,11 connection.close.
    ConnectionClose,
    /// 1,12 connection.close-ok.
    ConnectionCloseOk,
    /// 2,1 session.attach.
    SessionAttach,
    /// 2,2 session.attached.
    SessionAttached,
    /// 2,3 session.detach.
    SessionDetach,
    /// 2,4 session.detached.
    SessionDetached,
    /// 2,5 session.request-timeout.
    SessionRequestTimeout,
    /// 2,6 session.timeout.
    SessionTimeout,
    /// 2,7 session.command-point.
    SessionCommandPoint,
    /// 2,8 session.expected.
    SessionExpected,
    /// 2,9 session.confirmed.
    SessionConfirmed,
    /// 2,10 session.completed.
    SessionCompleted,
    /// 2,11 session.known-completed.
    SessionKnownCompleted,
    /// 2,12 session.flush.
    SessionFlush,
    /// 2,13 session.gap.
    SessionGap,
}

impl ControlKind {
    /// The kind of a control.
    pub fn of(control: &Control) -> ControlKind
        ensures { result ≡ control_kind_of control.now }
    {
        match control {
            Control::ConnectionStart { .. } => ControlKind::ConnectionStart,
            Control::ConnectionStartOk { .. } => ControlKind::ConnectionStartOk,
            Control::ConnectionSecure { .. } => ControlKind::ConnectionSecure,
            Control::ConnectionSecureOk { .. } => ControlKind::ConnectionSecureOk,
            Control::ConnectionTune { .. } => ControlKind::ConnectionTune,
            Control::ConnectionTuneOk { .. } => ControlKind::ConnectionTuneOk,
            Control::ConnectionOpen { .. } => ControlKind::ConnectionOpen,
            Control::ConnectionOpenOk { .. } => ControlKind::ConnectionOpenOk,
            Control::ConnectionHeartbeat => ControlKind::ConnectionHeartbeat,
            Control::ConnectionClose { .. } => ControlKind::ConnectionClose,
            Control::ConnectionCloseOk => ControlKind::ConnectionCloseOk,
            Control::SessionAttach { .. } => ControlKind::SessionAttach,
            Control::SessionAttached { .. } => ControlKind::SessionAttached,
            Control::SessionDetach { .. } => ControlKind::SessionDetach,
            Control::SessionDetached { .. } => ControlKind::SessionDetached,
            Control::SessionRequestTimeout { .. } => ControlKind::SessionRequestTimeout,
            Control::SessionTimeout { .. } => ControlKind::SessionTimeout,
            Control::SessionCommandPoint { .. } => ControlKind::SessionCommandPoint,
            Control::SessionExpected { .. } => ControlKind::SessionExpected,
            Control::SessionConfirmed { .. } => ControlKind::SessionConfirmed,
            Control::SessionCompleted { .. } => ControlKind::SessionCompleted,
            Control::SessionKnownCompleted { .. } => ControlKind::SessionKnownCompleted,
            Control::SessionFlush { .. } => ControlKind::SessionFlush,
            Control::SessionGap { .. } => ControlKind::SessionGap,
        }
    }

    /// Its class octet.
    pub fn class(self) -> u8
        ensures { result ≡ control_class self }
    {
        match self {
            ControlKind::ConnectionStart
            | ControlKind::ConnectionStartOk
            | ControlKind::ConnectionSecure
            | ControlKind::ConnectionSecureOk
            | ControlKind::ConnectionTune
            | ControlKind::ConnectionTuneOk
            | ControlKind::ConnectionOpen
            | ControlKind::ConnectionOpenOk
            | ControlKind::ConnectionHeartbeat
            | ControlKind::ConnectionClose
            | ControlKind::ConnectionCloseOk => 1,
            ControlKind::SessionAttach
            | ControlKind::SessionAttached
            | ControlKind::SessionDetach
            | ControlKind::SessionDetached
            | ControlKind::SessionRequestTimeout
            | ControlKind::SessionTimeout
            | ControlKind::SessionCommandPoint
            | ControlKind::SessionExpected
            | ControlKind::SessionConfirmed
            | ControlKind::SessionCompleted
            | ControlKind::SessionKnownCompleted
            | ControlKind::SessionFlush
            | ControlKind::SessionGap => 2,
        }
    }

    /// Its code octet, within the class.
    pub fn code(self) -> u8
        ensures { result ≡ control_code self }
    {
        match self {
            ControlKind::ConnectionStart => 1,
            ControlKind::ConnectionStartOk => 2,
            ControlKind::ConnectionSecure => 3,
            ControlKind::ConnectionSecureOk => 4,
            ControlKind::ConnectionTune => 5,
            ControlKind::ConnectionTuneOk => 6,
            ControlKind::ConnectionOpen => 7,
            ControlKind::ConnectionOpenOk => 8,
            ControlKind::ConnectionHeartbeat => 10,
            ControlKind::ConnectionClose => 11,
            ControlKind::ConnectionCloseOk => 12,
            ControlKind::SessionAttach => 1,
            ControlKind::SessionAttached => 2,
            ControlKind::SessionDetach => 3,
            ControlKind::SessionDetached => 4,
            ControlKind::SessionRequestTimeout => 5,
            ControlKind::SessionTimeout => 6,
            ControlKind::SessionCommandPoint => 7,
            ControlKind::SessionExpected => 8,
            ControlKind::SessionConfirmed => 9,
            ControlKind::SessionCompleted => 10,
            ControlKind::SessionKnownCompleted => 11,
            ControlKind::SessionFlush => 12,
            ControlKind::SessionGap => 13,
        }
    }

    /// The kinds of its fields, in order.
    pub fn table(self) -> &'static [FieldKind]
        ensures fields { result.now ≡ control_table self }
        ensures few { length result.now ≤ 16 }
    {
        match self {
            ControlKind::ConnectionStart => &[FieldKind::Map, FieldKind::Array, FieldKind::Array],
            ControlKind::ConnectionStartOk => &[
                FieldKind::Map,
                FieldKind::Str8,
                FieldKind::Vbin32,
                FieldKind::Str8,
            ],
            ControlKind::ConnectionSecure => &[FieldKind::Vbin32],
            ControlKind::ConnectionSecureOk => &[FieldKind::Vbin32],
            ControlKind::ConnectionTune => &[
                FieldKind::U16,
                FieldKind::U16,
                FieldKind::U16,
                FieldKind::U16,
            ],
            ControlKind::ConnectionTuneOk => &[FieldKind::U16, FieldKind::U16, FieldKind::U16],
            ControlKind::ConnectionOpen => &[FieldKind::Str8, FieldKind::Array, FieldKind::Bit],
            ControlKind::ConnectionOpenOk => &[FieldKind::Array],
            ControlKind::ConnectionHeartbeat => &[],
            ControlKind::ConnectionClose => &[FieldKind::U16, FieldKind::Str8],
            ControlKind::ConnectionCloseOk => &[],
            ControlKind::SessionAttach => &[FieldKind::Vbin16, FieldKind::Bit],
            ControlKind::SessionAttached => &[FieldKind::Vbin16],
            ControlKind::SessionDetach => &[FieldKind::Vbin16],
            ControlKind::SessionDetached => &[FieldKind::Vbin16, FieldKind::U8],
            ControlKind::SessionRequestTimeout => &[FieldKind::U32],
            ControlKind::SessionTimeout => &[FieldKind::U32],
            ControlKind::SessionCommandPoint => &[FieldKind::U32, FieldKind::U64],
            ControlKind::SessionExpected => &[FieldKind::Ranges, FieldKind::Array],
            ControlKind::SessionConfirmed => &[FieldKind::Ranges, FieldKind::Array],
            ControlKind::SessionCompleted => &[FieldKind::Ranges, FieldKind::Bit],
            ControlKind::SessionKnownCompleted => &[FieldKind::Ranges],
            ControlKind::SessionFlush => &[FieldKind::Bit, FieldKind::Bit, FieldKind::Bit],
            ControlKind::SessionGap => &[FieldKind::Ranges],
        }
    }
}

/// Whether a class has controls.
pub(crate) fn is_control_class(class: u8) -> bool
    ensures { result ≡ is_control_class class }
{
    class == 1 || class == 2
}

/// The kind of a class and code, if one has them.
#[tactic(auto, unfolding(crate::specs::Kinds::control_kind))]
pub fn control_kind(class: u8, code: u8) -> Option<ControlKind>
    ensures { result ≡ control_kind class code }
{
    match class {
        1 => match code {
            1 => Some(ControlKind::ConnectionStart),
            2 => Some(ControlKind::ConnectionStartOk),
            3 => Some(ControlKind::ConnectionSecure),
            4 => Some(ControlKind::ConnectionSecureOk),
            5 => Some(ControlKind::ConnectionTune),
            6 => Some(ControlKind::ConnectionTuneOk),
            7 => Some(ControlKind::ConnectionOpen),
            8 => Some(ControlKind::ConnectionOpenOk),
            10 => Some(ControlKind::ConnectionHeartbeat),
            11 => Some(ControlKind::ConnectionClose),
            12 => Some(ControlKind::ConnectionCloseOk),
            _ => None,
        },
        2 => match code {
            1 => Some(ControlKind::SessionAttach),
            2 => Some(ControlKind::SessionAttached),
            3 => Some(ControlKind::SessionDetach),
            4 => Some(ControlKind::SessionDetached),
            5 => Some(ControlKind::SessionRequestTimeout),
            6 => Some(ControlKind::SessionTimeout),
            7 => Some(ControlKind::SessionCommandPoint),
            8 => Some(ControlKind::SessionExpected),
            9 => Some(ControlKind::SessionConfirmed),
            10 => Some(ControlKind::SessionCompleted),
            11 => Some(ControlKind::SessionKnownCompleted),
            12 => Some(ControlKind::SessionFlush),
            13 => Some(ControlKind::SessionGap),
            _ => None,
        },
        _ => None,
    }
}
