//! The client's end of a connection.
ghost use Rattle.std.specs.Prelude.{◌≡◌, IfOk, OnOk, OnErr};
ghost use Rattle.conn_core.specs.declared.client.Wait.TheVariants as wait;
ghost use Rattle.conn_core.specs.Client.{goes, closes, header_step, step_of, heard_step, control_step, connection_step, started, tuned, opened, passes, after, said};

use crate::answers::{Reply, replies_of};
use crate::said::Said;
use crate::server::PROTOCOL;
use crate::turn::{CHANNELS, LEAST_FRAME, MOST_FRAME, is_of_connection};
use amqp_terms::{Control, Unit};
use octet_reading::{NoMemory, Why};
use std::alloc::Global;
use std::marker::Model;

/// What the end waits for.
#[derive(Clone, Copy, Debug, PartialEq, Eq)]
pub(crate) enum Wait {
    Header,
    Start,
    Tune,
    OpenOk,
    Nothing,
    Closed,
}

/// A step of its table.
#[derive(Clone, Copy, Debug, PartialEq, Eq)]
pub(crate) struct Step {
    pub(crate) wait: Wait,
    pub(crate) reply: Reply,
    pub(crate) closed: Option<Option<Why>>,
    pub(crate) pass: bool,
    /// The largest frame, present where it is agreed by it.
    pub(crate) agreed: Option<u16>,
}

/// The client's end of a connection: it asks for the mechanism ANONYMOUS, takes what is offered, and no heartbeat.
#[derive(Debug, Drop)]
pub struct ClientEnd {
    alloc: Global,
    wait: Wait,
    max_frame: u16,
}

impl Model for ClientEnd {
    ghost use Rattle.conn_core.specs.Client.{Client};

    ghost Value = { Client };

    ghost view = { λ e. record { wait = e.wait; max_frame = e.max_frame } };
}

impl ClientEnd {
    /// An end that needs no negotiation: it is open, with frames of up to 65,535 octets. Takes no memory.
    pub fn ready(alloc: Global) -> ClientEnd
        ensures { result ≡ record { wait = wait.Nothing; max_frame = 65535 } }
    {
        ClientEnd {
            alloc,
            wait: Wait::Nothing,
            max_frame: MOST_FRAME,
        }
    }

    /// An end that wrote its protocol header, and waits for that of the server. Takes no memory.
    pub fn waiting(alloc: Global) -> ClientEnd
        ensures { result ≡ record { wait = wait.Header; max_frame = 4096 } }
    {
        ClientEnd {
            alloc,
            wait: Wait::Header,
            max_frame: LEAST_FRAME,
        }
    }

    /// Hears the protocol header, for which it waits; else nothing. It says nothing to it.
    pub fn header(&mut self, octets: [u8; 8]) -> Result<Said, NoMemory>
        ensures said { IfOk result (λ answer. answer ≡ said self.old (header_step self.old.wait octets)) }
        ensures ok { OnOk result (self.new ≡ after self.old (header_step self.old.wait octets)) }
        ensures err { OnErr result (self.new ≡ self.old) }
    {
        self.go(header_step(self.wait, octets))
    }

    /// Hears a unit on a channel.
    pub fn hear(&mut self, channel: u16, unit: &Unit) -> Result<Said, NoMemory>
        ensures said { IfOk result (λ answer. answer ≡ said self.old (step_of self.old.wait channel unit.now)) }
        ensures ok { OnOk result (self.new ≡ after self.old (step_of self.old.wait channel unit.now)) }
        ensures err { OnErr result (self.new ≡ self.old) }
    {
        self.go(step_of(self.wait, channel, unit))
    }

    /// Goes on by a step, and says what it answers.
    fn go(&mut self, step: Step) -> Result<Said, NoMemory>
        ensures said { IfOk result (λ answer. answer ≡ said self.old step) }
        ensures ok { OnOk result (self.new ≡ after self.old step) }
        ensures err { OnErr result (self.new ≡ self.old) }
    {
        let units = replies_of(self.alloc, step.reply)?;
        self.wait = step.wait;
        if let Some(max_frame) = step.agreed {
            self.max_frame = max_frame;
        }
        Ok(Said {
            units,
            echo: false,
            max_frame: self.max_frame,
            closed: step.closed,
            pass: step.pass,
        })
    }
}

/// Nothing but what it waits for next.
fn goes(wait: Wait, reply: Reply) -> Step
    ensures { result ≡ goes wait reply }
{
    Step {
        wait,
        reply,
        closed: None,
        pass: false,
        agreed: None,
    }
}

/// The connection is closed.
fn closes(reply: Reply, why: Option<Why>) -> Step
    ensures { result ≡ closes reply why }
{
    Step {
        wait: Wait::Closed,
        reply,
        closed: Some(why),
        pass: false,
        agreed: None,
    }
}

/// The step for a protocol header.
fn header_step(wait: Wait, octets: [u8; 8]) -> Step
    ensures { result ≡ header_step wait octets }
{
    if wait != Wait::Header {
        return goes(wait, Reply::Nothing);
    }
    if octets == PROTOCOL {
        goes(Wait::Start, Reply::Nothing)
    } else {
        closes(Reply::Nothing, Some(Why::BadHeader))
    }
}

/// The step for a unit on a channel.
fn step_of(wait: Wait, channel: u16, unit: &Unit) -> Step
    ensures { result ≡ step_of wait channel unit.now }
{
    match wait {
        Wait::Header | Wait::Closed => goes(wait, Reply::Nothing),
        Wait::Start | Wait::Tune | Wait::OpenOk | Wait::Nothing => {
            heard_step(wait, channel, unit)
        }
    }
}

/// The step for a unit that is heard.
fn heard_step(wait: Wait, channel: u16, unit: &Unit) -> Step
    ensures { result ≡ heard_step wait channel unit.now }
{
    match unit {
        Unit::Control(control) => control_step(wait, channel, control),
        Unit::Command { .. } => passes(wait),
    }
}

/// The step for what is meant for the session: it goes on once the connection is open.
fn passes(wait: Wait) -> Step
    ensures { result ≡ passes wait }
{
    Step {
        wait,
        reply: Reply::Nothing,
        closed: None,
        pass: wait == Wait::Nothing,
        agreed: None,
    }
}

/// The step for a control.
fn control_step(wait: Wait, channel: u16, control: &Control) -> Step
    ensures { result ≡ control_step wait channel control.now }
{
    if !is_of_connection(control) {
        return passes(wait);
    }
    if channel != 0 {
        return closes(Reply::Nothing, Some(Why::OutOfOrder));
    }
    connection_step(wait, control)
}

/// The step for a control of class connection on channel 0.
fn connection_step(wait: Wait, control: &Control) -> Step
    ensures { result ≡ connection_step wait control.now }
{
    match control {
        Control::ConnectionHeartbeat | Control::ConnectionCloseOk => goes(wait, Reply::Nothing),
        Control::ConnectionClose { .. } => closes(Reply::CloseOk, None),
        Control::ConnectionStart { .. } => started(wait),
        Control::ConnectionTune {
            channel_max,
            max_frame_size,
            ..
        } => tuned(
            wait,
            channel_max.unwrap_or(CHANNELS),
            max_frame_size.unwrap_or(MOST_FRAME),
        ),
        Control::ConnectionOpenOk { .. } => opened(wait),
        _ => closes(Reply::Nothing, Some(Why::OutOfOrder)),
    }
}

/// The step for start.
fn started(wait: Wait) -> Step
    ensures { result ≡ started wait }
{
    if wait == Wait::Start {
        goes(Wait::Tune, Reply::StartOk)
    } else {
        closes(Reply::Nothing, Some(Why::OutOfOrder))
    }
}

/// The step for tune. Frames smaller than the standard's least can't be agreed on.
fn tuned(wait: Wait, channels: u16, max_frame: u16) -> Step
    ensures { result ≡ tuned wait channels max_frame }
{
    if wait != Wait::Tune || max_frame < LEAST_FRAME {
        return closes(Reply::Nothing, Some(Why::OutOfOrder));
    }
    Step {
        wait: Wait::OpenOk,
        reply: Reply::TuneOkAndOpen {
            channels,
            max_frame,
        },
        closed: None,
        pass: false,
        agreed: Some(max_frame),
    }
}

/// The step for open-ok.
fn opened(wait: Wait) -> Step
    ensures { result ≡ opened wait }
{
    if wait == Wait::OpenOk {
        goes(Wait::Nothing, Reply::Nothing)
    } else {
        closes(Reply::Nothing, Some(Why::OutOfOrder))
    }
}
