//! What may be done, as the state stands, and what is built.
ghost use Rattle.std.specs.Prelude.{◌≡◌, true, ℕ, ◌==◌, ◌&&◌, ◌||◌, not, nat_lt, nat_eq, codes, is_some, length, List};
ghost use Rattle.std.specs.List.{list_any, starts_with};
ghost use Rattle.std.specs.Map.{lookup};
ghost use Rattle.history_model.specs.Standing.{World, life_at, may_attach, is_name};
ghost use Rattle.history_model.specs.State.{may_declare, may_arrive, may_point, declares, covers_control, covers_unit, covered};
ghost use Rattle.hub_core.specs.Stands.{StandsAs};

use crate::session::Session;
use crate::state::State;
use amqp_terms::{Command, Control, Unit};
use amqp_values::{Octets, Text};
use history_model::HubEvent;
use std::collections::{BTreeMap, BTreeSet};

/// The most sessions that live at once.
const MOST_SESSIONS: usize = 1024;

/// The most queues.
const MOST_QUEUES: usize = 65_536;

/// Whether a name may be a queue's: not empty, and not one that the standard reserves.
fn is_free(name: &Text) -> bool
    ensures { result ≡ (not (length name.now == 0) && not (starts_with nat_eq name.now (codes "amq."))) }
{
    let octets = name.as_slice();
    !octets.is_empty() && !octets.starts_with(b"amq.".as_slice())
}

/// Whether a queue of this name is there or may be made.
fn is_declarable(queues: &BTreeSet<Text>, name: &Text) -> bool
    ensures { result ≡ may_declare (record { queues = queues.now.keys }) name.now }
{
    is_free(name) && has_room(queues, name)
}

/// Whether a queue of this name is there, or there is room for one.
fn has_room(queues: &BTreeSet<Text>, name: &Text) -> bool
    ensures { result ≡ (list_any (is_name name.now) queues.now.keys || nat_lt (length queues.now.keys) 65536) }
{
    queues.contains(name) || queues.len() < MOST_QUEUES
}

/// Whether the name is free, and there is room for a session.
fn is_new_name(sessions: &BTreeMap<Octets, Session>, name: &Octets) -> bool
    ensures { result ≡ (not (is_some (lookup (is_name name.now) sessions.now.entries)) && nat_lt (length sessions.now.entries) 1024) }
{
    !sessions.contains_key(name) && sessions.len() < MOST_SESSIONS
}

impl State {
    /// Whether the name and the channel are free, and there is room for a session.
    pub(crate) fn may_attach(&self, connection: u64, channel: u16, name: &Octets) -> bool
        ensures { (w : World) (queues : List (List ℕ)) → StandsAs self.now w queues → result ≡ may_attach w connection channel name.now }
    {
        let free = self.places.get(connection, channel).is_none();
        let new = is_new_name(&self.sessions, name);
        free && new
    }

    /// Whether the command-point is within what the session received.
    pub(crate) fn may_point(&self, connection: u64, channel: u16, id: u32, offset: u64) -> bool
        ensures { (w : World) (queues : List (List ℕ)) → StandsAs self.now w queues
            → result ≡ may_point (life_at w (w.holder connection channel)) id offset }
    {
        match self.session_at(connection, channel) {
            Some(session) => match session.receiver.pointed(id, offset) {
                Some(number) => number <= session.receiver.next(),
                None => false,
            },
            None => false,
        }
    }

    /// Whether the session on a channel takes a command.
    pub(crate) fn takes_command(&self, connection: u64, channel: u16) -> bool
        ensures { (w : World) (queues : List (List ℕ)) → StandsAs self.now w queues
            → result ≡ may_arrive (life_at w (w.holder connection channel)) }
    {
        match self.session_at(connection, channel) {
            Some(session) => session.takes_command(),
            None => false,
        }
    }

    /// Whether a command on a channel would act.
    fn acts(&self, connection: u64, channel: u16) -> bool {
        match self.session_at(connection, channel) {
            Some(session) => session.takes_command() && session.receiver.coming().new,
            None => false,
        }
    }

    /// Whether an event is built.
    pub(crate) fn builds(&self, event: &HubEvent) -> bool
        ensures { (w : World) (queues : List (List ℕ)) → StandsAs self.now w queues → covered w (record { queues = queues }) event.now ≡ true → result ≡ true }
    {
        match event {
            HubEvent::Unit {
                conn,
                channel,
                unit,
            } => self.builds_unit(*conn, *channel, unit),
            _ => true,
        }
    }

    fn builds_unit(&self, connection: u64, channel: u16, unit: &Unit) -> bool
        ensures { (w : World) (queues : List (List ℕ)) → StandsAs self.now w queues → covers_unit w (record { queues = queues }) connection channel unit.now ≡ true → result ≡ true }
    {
        match unit {
            Unit::Control(control) => is_of_session(control),
            Unit::Command { command, .. } => self.builds_command(connection, channel, command),
        }
    }

    /// Whether what a command does is built: the declare of a queue by its name alone, and what acts no more.
    fn builds_command(&self, connection: u64, channel: u16, command: &Command) -> bool
        ensures { (w : World) (queues : List (List ℕ)) → StandsAs self.now w queues → declares (record { queues = queues }) command.now ≡ true → result ≡ true }
    {
        declares(&self.queues, command) || !self.acts(connection, channel)
    }
}

/// Whether a command declares a queue by its name alone, which is there or may be made.
fn declares(queues: &BTreeSet<Text>, command: &Command) -> bool
    ensures { result ≡ declares (record { queues = queues.now.keys }) command.now }
{
    match command {
        Command::QueueDeclare {
            queue: Some(name),
            alternate_exchange: None,
            passive: false,
            durable: false,
            exclusive: false,
            auto_delete: false,
            arguments: None,
        } => is_declarable(queues, name),
        _ => false,
    }
}

/// Whether a control is one of the class session (AMQP 0-10, "session").
fn is_of_session(control: &Control) -> bool
    ensures { (w : World) (connection channel : ℕ) → covers_control w connection channel control.now ≡ true → result ≡ true }
{
    match control {
        Control::SessionAttach { .. }
        | Control::SessionAttached { .. }
        | Control::SessionDetach { .. }
        | Control::SessionDetached { .. }
        | Control::SessionRequestTimeout { .. }
        | Control::SessionTimeout { .. }
        | Control::SessionCommandPoint { .. }
        | Control::SessionExpected { .. }
        | Control::SessionConfirmed { .. }
        | Control::SessionCompleted { .. }
        | Control::SessionKnownCompleted { .. }
        | Control::SessionFlush { .. }
        | Control::SessionGap { .. } => true,
        _ => false,
    }
}
