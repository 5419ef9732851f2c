//! The table of the server's end: what it answers in each state, and which state is the next.
ghost use Rattle.std.specs.Prelude.{◌≡◌, Some};
ghost use Rattle.conn_core.specs.declared.turn.Answer.TheVariants as answer;
ghost use Rattle.conn_core.specs.Server.{goes, closes, turn_of, unit_turn, session_turn, control_turn, is_of_connection, connection_turn, start_turn, tune_turn, open_turn, is_host};

use crate::mechanism::takes_start;
use amqp_terms::{Control, Unit};
use octet_reading::{Octets, Text, Why};

/// What the end waits for.
#[derive(Clone, Copy, Debug, PartialEq, Eq)]
pub(crate) enum State {
    Header,
    StartOk,
    TuneOk,
    OpenWait,
    Open,
    Closed,
}

/// What it answers.
#[derive(Clone, Copy, Debug, PartialEq, Eq)]
pub(crate) enum Answer {
    Nothing,
    Start,
    Tune,
    OpenOk,
    Heartbeat,
    Close { code: u16, why: Why },
    CloseOk,
}

/// A step of the table.
#[derive(Clone, Copy, Debug, PartialEq, Eq)]
pub(crate) struct Turn {
    pub(crate) state: State,
    pub(crate) answer: Answer,
    /// Present where the connection is closed by it.
    pub(crate) closed: Option<Option<Why>>,
    /// Whether the unit goes on to the sessions.
    pub(crate) pass: bool,
    /// The largest frame and the heartbeat, present where they are agreed by it.
    pub(crate) agreed: Option<(u16, u16)>,
}

/// The channels that are offered: 0 to 63.
pub(crate) const CHANNELS: u16 = 64;

/// The least largest frame of the standard, and the greatest.
pub(crate) const LEAST_FRAME: u16 = 4096;

pub(crate) const MOST_FRAME: u16 = 65535;

/// The most seconds between heartbeats.
const MOST_HEARTBEAT: u16 = 120;

/// The connection was forced to close, its path is unknown, and a control came out of order (AMQP 0-10, "connection",
/// close-code).
const FORCED: u16 = 320;

const INVALID_PATH: u16 = 402;

const FRAMING_ERROR: u16 = 501;

/// Nothing but the next state.
pub(crate) fn goes(state: State, answer: Answer) -> Turn
    ensures { result ≡ goes state answer }
{
    Turn {
        state,
        answer,
        closed: None,
        pass: false,
        agreed: None,
    }
}

/// The connection is closed.
pub(crate) fn closes(answer: Answer, why: Option<Why>) -> Turn
    ensures { result ≡ closes answer why }
{
    Turn {
        state: State::Closed,
        answer,
        closed: Some(why),
        pass: false,
        agreed: None,
    }
}

/// The connection is closed, and says why.
fn closes_by(code: u16, why: Why) -> Turn
    ensures { result ≡ closes (answer.Close code why) (Some why) }
{
    closes(Answer::Close { code, why }, Some(why))
}

/// The turn for a unit on a channel.
pub(crate) fn turn_of(state: State, channel: u16, unit: &Unit) -> Turn
    ensures { result ≡ turn_of state channel unit.now }
{
    match state {
        State::Header | State::Closed => goes(state, Answer::Nothing),
        State::StartOk | State::TuneOk | State::OpenWait | State::Open => {
            unit_turn(state, channel, unit)
        }
    }
}

/// The turn for a unit that is heard.
fn unit_turn(state: State, channel: u16, unit: &Unit) -> Turn
    ensures { result ≡ unit_turn state channel unit.now }
{
    match unit {
        Unit::Control(control) => control_turn(state, channel, control),
        Unit::Command { .. } => session_turn(state),
    }
}

/// The turn for what is meant for a session.
fn session_turn(state: State) -> Turn
    ensures { result ≡ session_turn state }
{
    if state != State::Open {
        return closes_by(FRAMING_ERROR, Why::OutOfOrder);
    }
    Turn {
        state,
        answer: Answer::Nothing,
        closed: None,
        pass: true,
        agreed: None,
    }
}

/// The turn for a control.
fn control_turn(state: State, channel: u16, control: &Control) -> Turn
    ensures { result ≡ control_turn state channel control.now }
{
    if !is_of_connection(control) {
        return session_turn(state);
    }
    if channel != 0 {
        return closes_by(FRAMING_ERROR, Why::OutOfOrder);
    }
    connection_turn(state, control)
}

/// Whether a control is one of class connection.
pub(crate) fn is_of_connection(control: &Control) -> bool
    ensures { result ≡ is_of_connection control.now }
{
    matches!(
        control,
        Control::ConnectionStart { .. }
            | Control::ConnectionStartOk { .. }
            | Control::ConnectionSecure { .. }
            | Control::ConnectionSecureOk { .. }
            | Control::ConnectionTune { .. }
            | Control::ConnectionTuneOk { .. }
            | Control::ConnectionOpen { .. }
            | Control::ConnectionOpenOk { .. }
            | Control::ConnectionHeartbeat
            | Control::ConnectionClose { .. }
            | Control::ConnectionCloseOk
    )
}

/// The turn for a control of class connection on channel 0.
fn connection_turn(state: State, control: &Control) -> Turn
    ensures { result ≡ connection_turn state control.now }
{
    match control {
        Control::ConnectionHeartbeat | Control::ConnectionCloseOk => goes(state, Answer::Nothing),
        Control::ConnectionClose { .. } => closes(Answer::CloseOk, None),
        Control::ConnectionStartOk {
            mechanism,
            response,
            ..
        } => start_turn(state, mechanism, response),
        Control::ConnectionTuneOk {
            channel_max,
            max_frame_size,
            heartbeat,
        } => tune_turn(state, *channel_max, *max_frame_size, *heartbeat),
        Control::ConnectionOpen { virtual_host, .. } => open_turn(state, virtual_host),
        _ => closes_by(FRAMING_ERROR, Why::OutOfOrder),
    }
}

/// The turn for start-ok.
fn start_turn(state: State, mechanism: &Option<Text>, response: &Option<Octets>) -> Turn
    ensures { result ≡ start_turn state mechanism.now response.now }
{
    if state != State::StartOk {
        return closes_by(FRAMING_ERROR, Why::OutOfOrder);
    }
    if takes_start(mechanism, response) {
        goes(State::TuneOk, Answer::Tune)
    } else {
        closes_by(FORCED, Why::Mechanism)
    }
}

/// The turn for tune-ok; an absent field is what was offered, and an absent heartbeat 0.
fn tune_turn(
    state: State,
    channel_max: Option<u16>,
    max_frame_size: Option<u16>,
    heartbeat: Option<u16>,
) -> Turn
    ensures { result ≡ tune_turn state channel_max max_frame_size heartbeat }
{
    if state != State::TuneOk {
        return closes_by(FRAMING_ERROR, Why::OutOfOrder);
    }
    let max_frame = max_frame_size.unwrap_or(MOST_FRAME);
    let heartbeat = heartbeat.unwrap_or(0);
    if channel_max.unwrap_or(CHANNELS) > CHANNELS
        || max_frame < LEAST_FRAME
        || heartbeat > MOST_HEARTBEAT
    {
        return closes(Answer::Nothing, Some(Why::TuneRange));
    }
    Turn {
        state: State::OpenWait,
        answer: Answer::Nothing,
        closed: None,
        pass: false,
        agreed: Some((max_frame, heartbeat)),
    }
}

/// The turn for open.
fn open_turn(state: State, virtual_host: &Option<Text>) -> Turn
    ensures { result ≡ open_turn state virtual_host.now }
{
    if state != State::OpenWait {
        return closes_by(FRAMING_ERROR, Why::OutOfOrder);
    }
    if is_host(virtual_host) {
        goes(State::Open, Answer::OpenOk)
    } else {
        closes_by(INVALID_PATH, Why::VirtualHost)
    }
}

/// Whether a virtual host is the one there is: none, the empty one or `/`.
fn is_host(virtual_host: &Option<Text>) -> bool
    ensures { result ≡ is_host virtual_host.now }
{
    match virtual_host {
        Some(host) => host.as_slice().is_empty() || host.as_slice() == b"/".as_slice(),
        None => true,
    }
}
