//! The server's end of a connection.
ghost use Rattle.std.specs.Prelude.{◌≡◌, ℕ, false, IfOk, OnOk, OnErr};
ghost use Rattle.conn_core.specs.Server.{turn_of};
ghost use Rattle.conn_core.specs.Standing.{began, told, heard_now, awaits_header, header_turn, moment_turn, after, said, frame_by};
ghost use Rattle.conn_core.specs.Answers.{units_of};
ghost use Rattle.conn_core.specs.declared.turn.State.TheVariants as state;

use crate::answers::units_of;
use crate::said::Said;
use crate::turn::{Answer, State, Turn, closes, goes, turn_of};
use amqp_terms::Unit;
use octet_reading::{NoMemory, Why};
use std::alloc::Global;
use std::marker::Model;

/// The protocol header of AMQP 0-10.
pub(crate) const PROTOCOL: [u8; 8] = [0x41, 0x4d, 0x51, 0x50, 1, 1, 0, 10];

/// The largest frame before another one is agreed, in octets.
const FIRST_FRAME: u16 = 4096;

/// The server's end of a connection. Times are seconds.
#[derive(Debug, Drop)]
pub struct ServerEnd {
    alloc: Global,
    state: State,
    max_frame: u16,
    /// 0 for none.
    heartbeat: u16,
    now: u64,
    /// When octets came last.
    heard: u64,
    /// When the heartbeat was agreed, or one was written last.
    beat: u64,
}

impl Model for ServerEnd {
    ghost use Rattle.conn_core.specs.Standing.{Standing};

    ghost Value = { Standing };

    ghost view = { λ e. record { state = e.state; max_frame = e.max_frame; heartbeat = e.heartbeat; now = e.now; heard = e.heard; beat = e.beat } };
}

impl ServerEnd {
    /// An end that needs no negotiation: it is open, with frames of up to 65,535 octets and no heartbeat. Takes no
    /// memory.
    pub fn ready(alloc: Global) -> ServerEnd
        ensures { result ≡ began state.Open 65535 }
    {
        began(alloc, State::Open, 65535)
    }

    /// An end that waits for the protocol header. Takes no memory.
    pub fn waiting(alloc: Global) -> ServerEnd
        ensures { result ≡ began state.Header 4096 }
    {
        began(alloc, State::Header, FIRST_FRAME)
    }

    /// Hears the protocol header, for which it waits; else nothing.
    pub fn header(&mut self, octets: [u8; 8]) -> Result<Said, NoMemory>
        ensures said { IfOk result (λ answer. answer ≡ said (awaits_header self.old.state) self.old (header_turn self.old.state octets)) }
        ensures ok { OnOk result (self.new ≡ after self.old (header_turn self.old.state octets)) }
        ensures err { OnErr result (self.new ≡ self.old) }
    {
        let echo = self.state == State::Header;
        let turn = header_turn(self.state, octets);
        let answer = said(self.alloc, echo, turn, self.max_frame)?;
        self.go(turn);
        Ok(answer)
    }

    /// Hears a unit on a channel.
    pub fn hear(&mut self, channel: u16, unit: &Unit) -> Result<Said, NoMemory>
        ensures said { IfOk result (λ answer. answer ≡ said false self.old (turn_of self.old.state channel unit.now)) }
        ensures ok { OnOk result (self.new ≡ after self.old (turn_of self.old.state channel unit.now)) }
        ensures err { OnErr result (self.new ≡ self.old) }
    {
        let turn = turn_of(self.state, channel, unit);
        let answer = said(self.alloc, false, turn, self.max_frame)?;
        self.go(turn);
        Ok(answer)
    }

    /// Notes that octets came. Takes no memory.
    pub fn octets_came(&mut self)
        ensures { self.new ≡ heard_now self.old }
    {
        self.heard = self.now;
    }

    /// Is told the time, which never goes back: where the peer was silent for two heartbeats the connection is closed,
    /// and where none was written for one, one is written.
    pub fn moment(&mut self, now: u64) -> Result<Said, NoMemory>
        ensures said { IfOk result (λ answer. answer ≡ said false self.old (moment_turn (told self.old now) self.old.state)) }
        ensures ok { OnOk result (self.new ≡ after (told self.old now) (moment_turn (told self.old now) self.old.state)) }
        ensures err { OnErr result (self.new ≡ self.old) }
    {
        let now = self.now.max(now);
        let turn = moment_turn(self.state, self.heartbeat, now, self.heard, self.beat);
        let answer = said(self.alloc, false, turn, self.max_frame)?;
        self.now = now;
        self.go(turn);
        Ok(answer)
    }

    /// Goes on by a turn. Takes no memory.
    fn go(&mut self, turn: Turn)
        ensures { self.new ≡ after self.old turn }
    {
        self.state = turn.state;
        if let Some((max_frame, heartbeat)) = turn.agreed {
            self.max_frame = max_frame;
            self.heartbeat = heartbeat;
            self.beat = self.now;
        }
        if turn.answer == Answer::Heartbeat {
            self.beat = self.now;
        }
    }
}

/// An end at its beginning.
fn began(alloc: Global, state: State, max_frame: u16) -> ServerEnd
    ensures { result ≡ began state max_frame }
{
    ServerEnd {
        alloc,
        state,
        max_frame,
        heartbeat: 0,
        now: 0,
        heard: 0,
        beat: 0,
    }
}

/// What is said at a turn; `max_frame` is the largest frame before it.
fn said(alloc: Global, echo: bool, turn: Turn, max_frame: u16) -> Result<Said, NoMemory>
    ensures { IfOk result (λ answer. answer ≡ record { units = units_of turn.answer; echo = echo; max_frame = frame_by max_frame turn.agreed; closed = turn.closed; pass = turn.pass }) }
{
    let units = units_of(alloc, turn.answer)?;
    let max_frame = match turn.agreed {
        Some((agreed, _)) => agreed,
        None => max_frame,
    };
    Ok(Said {
        units,
        echo,
        max_frame,
        closed: turn.closed,
        pass: turn.pass,
    })
}

/// The turn for a protocol header.
fn header_turn(state: State, octets: [u8; 8]) -> Turn
    ensures { result ≡ header_turn state octets }
{
    if state != State::Header {
        return goes(state, Answer::Nothing);
    }
    if octets == PROTOCOL {
        goes(State::StartOk, Answer::Start)
    } else {
        closes(Answer::Nothing, Some(Why::BadHeader))
    }
}

/// The turn for a moment.
fn moment_turn(state: State, heartbeat: u16, now: u64, heard: u64, beat: u64) -> Turn
    ensures { (frame : ℕ) → result ≡ moment_turn (record { state = state; max_frame = frame; heartbeat = heartbeat; now = now; heard = heard; beat = beat }) state }
{
    if state == State::Closed || heartbeat == 0 {
        return goes(state, Answer::Nothing);
    }
    let heartbeat = u64::from(heartbeat);
    if now.saturating_sub(heard) >= heartbeat * 2 {
        return closes(Answer::Nothing, Some(Why::Silent));
    }
    if now.saturating_sub(beat) >= heartbeat {
        goes(state, Answer::Heartbeat)
    } else {
        goes(state, Answer::Nothing)
    }
}
