//! The controls of the classes connection and session (AMQP 0-10, "connection", "session").
ghost use Rattle.std.specs.Prelude.{◌≡◌, IfOk};

use crate::field::{octets_copied, ranges_copied, text_copied, value_copied};
use amqp_values::{NoMemory, Octets, Ranges, Text, Value};
use std::alloc::Global;

/// A control with its fields: a bit is set or not, another field is there or absent.
#[derive(Debug, Drop)]
pub enum Control {
    /// 1,1 connection.start.
    ConnectionStart {
        server_properties: Option<Value>,
        mechanisms: Option<Value>,
        locales: Option<Value>,
    },
    /// 1,2 connection.start-ok.
    ConnectionStartOk {
        client_properties: Option<Value>,
        mechanism: Option<Text>,
        response: Option<Octets>,
        locale: Option<Text>,
    },
    /// 1,3 connection.secure.
    ConnectionSecure {
        challenge: Option<Octets>,
    },
    /// 1,4 connection.secure-ok.
    ConnectionSecureOk {
        response: Option<Octets>,
    },
    /// 1,5 connection.tune.
    ConnectionTune {
        channel_max: Option<u16>,
        max_frame_size: Option<u16>,
        heartbeat_min: Option<u16>,
        heartbeat_max: Option<u16>,
    },
    /// 1,6 connection.tune-ok.
    ConnectionTuneOk {
        channel_max: Option<u16>,
        max_frame_size: Option<u16>,
        heartbeat: Option<u16>,
    },
    /// 1,7 connection.open.
    ConnectionOpen {
        virtual_host: Option<Text>,
        capabilities: Option<Value>,
        insist: bool,
    },
    /// 1,8 connection.open-ok.
    ConnectionOpenOk {
        known_hosts: Option<Value>,
    },
    /// 1,10 connection.heartbeat.
    ConnectionHeartbeat,
    /// 1,11 connection.close.
    ConnectionClose {
        reply_code: Option<u16>,
        reply_text: Option<Text>,
    },
    /// 1,12 connection.close-ok.
    ConnectionCloseOk,
    /// 2,1 session.attach.
    SessionAttach {
        name: Option<Octets>,
        force: bool,
    },
    /// 2,2 session.attached.
    SessionAttached {
        name: Option<Octets>,
    },
    /// 2,3 session.detach.
    SessionDetach {
        name: Option<Octets>,
    },
    /// 2,4 session.detached.
    SessionDetached {
        name: Option<Octets>,
        code: Option<u8>,
    },
    /// 2,5 session.request-timeout.
    SessionRequestTimeout {
        timeout: Option<u32>,
    },
    /// 2,6 session.timeout.
    SessionTimeout {
        timeout: Option<u32>,
    },
    /// 2,7 session.command-point.
    SessionCommandPoint {
        command_id: Option<u32>,
        command_offset: Option<u64>,
    },
    /// 2,8 session.expected.
    SessionExpected {
        commands: Option<Ranges>,
        fragments: Option<Value>,
    },
    /// 2,9 session.confirmed.
    SessionConfirmed {
        commands: Option<Ranges>,
        fragments: Option<Value>,
    },
    /// 2,10 session.completed.
    SessionCompleted {
        commands: Option<Ranges>,
        timely_reply: bool,
    },
    /// 2,11 session.known-completed.
    SessionKnownCompleted {
        commands: Option<Ranges>,
    },
    /// 2,12 session.flush.
    SessionFlush {
        expected: bool,
        confirmed: bool,
        completed: bool,
    },
    /// 2,13 session.gap.
    SessionGap {
        commands: Option<Ranges>,
    },
}

impl Control {
    /// A copy, equal to its source.
    pub fn copied(&self, alloc: Global) -> Result<Control, NoMemory>
        ensures { IfOk result (λ copy. copy ≡ self.now) }
    {
        match self {
            Control::ConnectionStart {
                server_properties,
                mechanisms,
                locales,
            } => Ok(Control::ConnectionStart {
                server_properties: value_copied(alloc, server_properties)?,
                mechanisms: value_copied(alloc, mechanisms)?,
                locales: value_copied(alloc, locales)?,
            }),
            Control::ConnectionStartOk {
                client_properties,
                mechanism,
                response,
                locale,
            } => Ok(Control::ConnectionStartOk {
                client_properties: value_copied(alloc, client_properties)?,
                mechanism: text_copied(alloc, mechanism)?,
                response: octets_copied(alloc, response)?,
                locale: text_copied(alloc, locale)?,
            }),
            Control::ConnectionSecure { challenge } => Ok(Control::ConnectionSecure {
                challenge: octets_copied(alloc, challenge)?,
            }),
            Control::ConnectionSecureOk { response } => Ok(Control::ConnectionSecureOk {
                response: octets_copied(alloc, response)?,
            }),
            Control::ConnectionTune {
                channel_max,
                max_frame_size,
                heartbeat_min,
                heartbeat_max,
            } => Ok(Control::ConnectionTune {
                channel_max: *channel_max,
                max_frame_size: *max_frame_size,
                heartbeat_min: *heartbeat_min,
                heartbeat_max: *heartbeat_max,
            }),
            Control::ConnectionTuneOk {
                channel_max,
                max_frame_size,
                heartbeat,
            } => Ok(Control::ConnectionTuneOk {
                channel_max: *channel_max,
                max_frame_size: *max_frame_size,
                heartbeat: *heartbeat,
            }),
            Control::ConnectionOpen {
                virtual_host,
                capabilities,
                insist,
            } => Ok(Control::ConnectionOpen {
                virtual_host: text_copied(alloc, virtual_host)?,
                capabilities: value_copied(alloc, capabilities)?,
                insist: *insist,
            }),
            Control::ConnectionOpenOk { known_hosts } => Ok(Control::ConnectionOpenOk {
                known_hosts: value_copied(alloc, known_hosts)?,
            }),
            Control::ConnectionHeartbeat => Ok(Control::ConnectionHeartbeat),
            Control::ConnectionClose {
                reply_code,
                reply_text,
            } => Ok(Control::ConnectionClose {
                reply_code: *reply_code,
                reply_text: text_copied(alloc, reply_text)?,
            }),
            Control::ConnectionCloseOk => Ok(Control::ConnectionCloseOk),
            Control::SessionAttach { name, force } => Ok(Control::SessionAttach {
                name: octets_copied(alloc, name)?,
                force: *force,
            }),
            Control::SessionAttached { name } => Ok(Control::SessionAttached {
                name: octets_copied(alloc, name)?,
            }),
            Control::SessionDetach { name } => Ok(Control::SessionDetach {
                name: octets_copied(alloc, name)?,
            }),
            Control::SessionDetached { name, code } => Ok(Control::SessionDetached {
                name: octets_copied(alloc, name)?,
                code: *code,
            }),
            Control::SessionRequestTimeout { timeout } => Ok(Control::SessionRequestTimeout {
                timeout: *timeout,
            }),
            Control::SessionTimeout { timeout } => Ok(Control::SessionTimeout {
                timeout: *timeout,
            }),
            Control::SessionCommandPoint {
                command_id,
                command_offset,
            } => Ok(Control::SessionCommandPoint {
                command_id: *command_id,
                command_offset: *command_offset,
            }),
            Control::SessionExpected {
                commands,
                fragments,
            } => Ok(Control::SessionExpected {
                commands: ranges_copied(alloc, commands)?,
                fragments: value_copied(alloc, fragments)?,
            }),
            Control::SessionConfirmed {
                commands,
                fragments,
            } => Ok(Control::SessionConfirmed {
                commands: ranges_copied(alloc, commands)?,
                fragments: value_copied(alloc, fragments)?,
            }),
            Control::SessionCompleted {
                commands,
                timely_reply,
            } => Ok(Control::SessionCompleted {
                commands: ranges_copied(alloc, commands)?,
                timely_reply: *timely_reply,
            }),
            Control::SessionKnownCompleted { commands } => Ok(Control::SessionKnownCompleted {
                commands: ranges_copied(alloc, commands)?,
            }),
            Control::SessionFlush {
                expected,
                confirmed,
                completed,
            } => Ok(Control::SessionFlush {
                expected: *expected,
                confirmed: *confirmed,
                completed: *completed,
            }),
            Control::SessionGap { commands } => Ok(Control::SessionGap {
                commands: ranges_copied(alloc, commands)?,
            }),
        }
    }
}
