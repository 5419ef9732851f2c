//! A session that lives, and what becomes of it by the controls that it hears.
ghost use Rattle.std.specs.Prelude.{◌≡◌, Some, List, [], ◌∷◌};
ghost use Rattle.history_model.specs.Life.{Heard};
ghost use Rattle.history_model.specs.State.{may_arrive};
ghost use Rattle.hub_core.specs.Stands.{Sits};

use crate::answers::{Why, all_completed, commands_from, confirmed, detached, expected};
use amqp_terms::{Control, send};
use amqp_values::{NoMemory, Octets, Range, Ranges, Value};
use history_model::Out;
use serial_ranges::unwrap;
use session_core::{Receiver, Sender};
use sqlite_items::Items;
use std::alloc::Global;

/// Where the numbers of a session, and of connections, end.
pub(crate) const FAR_END: u64 = 4_611_686_018_427_387_904;

/// The longest time, in seconds, that a session lives without a connection.
const LONGEST_TIMEOUT: u32 = 3600;

/// Where the session stands, and both of its halves.
#[derive(Debug, Drop)]
pub(crate) struct Session {
    /// The connection and the channel that it is attached to, or was last.
    pub(crate) connection: u64,
    pub(crate) channel: u16,
    /// The time since which it is attached to none.
    pub(crate) loose: Option<u64>,
    /// How long, in seconds, it lives without a connection.
    pub(crate) timeout: u32,
    /// The number of the peer's next command is known in this attachment.
    pub(crate) pointed: bool,
    /// The attachment waits for the peer's expected.
    pub(crate) waits: bool,
    pub(crate) receiver: Receiver,
    pub(crate) sender: Sender,
}

/// What becomes of a session.
#[derive(Clone, Copy, Debug, PartialEq, Eq)]
pub(crate) enum Course {
    Stays,
    /// It is no longer attached.
    Parts,
    /// The peer named numbers that it doesn't know.
    Unknown,
}

/// The ranges of a field; none where it is absent.
fn ranges_of(field: &Option<Ranges>) -> &[Range] {
    match field {
        Some(ranges) => ranges.as_slice(),
        None => &[],
    }
}

/// Whether a field of fragments names none.
fn names_none(fragments: &Option<Value>) -> bool {
    match fragments {
        None => true,
        Some(Value::Bare { .. }) => true,
        Some(Value::Array { items, .. }) => items.is_empty(),
        Some(_) => false,
    }
}

impl Session {
    /// A life that begins on a channel.
    pub(crate) fn begun(alloc: Global, connection: u64, channel: u16) -> Session
        ensures { Sits result (Heard.Attach connection channel ∷ []) }
    {
        Session {
            connection,
            channel,
            loose: None,
            timeout: 0,
            pointed: true,
            waits: false,
            receiver: Receiver::new(alloc),
            sender: Sender::new(alloc),
        }
    }

    /// Whether it is attached.
    pub(crate) fn is_attached(&self) -> bool {
        self.loose.is_none()
    }

    /// Whether it takes a command: it knows its number, and numbers aren't at their end.
    pub(crate) fn takes_command(&self) -> bool
        ensures { (h : List Heard) → Sits self.now h → result ≡ may_arrive (Some h) }
    {
        self.pointed && self.receiver.next() < FAR_END && self.receiver.after_arrive() < FAR_END
    }

    /// Attaches it to another channel, as a resumption.
    pub(crate) fn move_to(&mut self, connection: u64, channel: u16) {
        self.connection = connection;
        self.channel = channel;
        self.loose = None;
        self.pointed = false;
        self.waits = true;
    }

    /// Whether its time without a connection is over.
    pub(crate) fn is_due(&self, now: u64) -> bool {
        match self.loose {
            Some(since) => since.saturating_add(u64::from(self.timeout)) <= now,
            None => false,
        }
    }

    /// Takes a control on its channel; attach and command-point aside.
    pub(crate) fn hear(
        &mut self,
        alloc: Global,
        units: Items<Out>,
        name: &Octets,
        control: &Control,
    ) -> Result<(Items<Out>, Course), NoMemory> {
        match control {
            Control::SessionDetach { name: asked } => self.detach(alloc, units, name, asked),
            Control::SessionDetached { .. } => Ok((units, Course::Parts)),
            Control::SessionRequestTimeout { timeout } => self.ask_timeout(units, *timeout),
            Control::SessionExpected {
                commands,
                fragments,
            } => {
                if !names_none(fragments) {
                    return Ok((units, Course::Unknown));
                }
                match ranges_of(commands).first() {
                    Some(range) => match unwrap(self.sender.sent(), range.lower) {
                        Some(number) => self.expect(alloc, units, number),
                        None => Ok((units, Course::Unknown)),
                    },
                    None => self.expect(alloc, units, 0),
                }
            }
            Control::SessionConfirmed {
                commands,
                fragments,
            } => {
                if !names_none(fragments) {
                    return Ok((units, Course::Unknown));
                }
                if let Some(ranges) = commands {
                    self.sender.confirmed(ranges);
                }
                Ok((units, Course::Stays))
            }
            Control::SessionCompleted {
                commands,
                timely_reply,
            } => self.complete(alloc, units, commands, *timely_reply),
            Control::SessionFlush {
                expected,
                confirmed,
                completed,
            } => self.flush(alloc, units, *expected, *confirmed, *completed),
            Control::SessionGap { commands } => match commands {
                Some(ranges) => self.gap(units, ranges),
                None => Ok((units, Course::Stays)),
            },
            _ => Ok((units, Course::Stays)),
        }
    }

    /// The peer detaches.
    fn detach(
        &self,
        alloc: Global,
        units: Items<Out>,
        name: &Octets,
        asked: &Option<Octets>,
    ) -> Result<(Items<Out>, Course), NoMemory> {
        let empty = Octets::new(alloc);
        let asked = match asked {
            Some(asked) => asked,
            None => &empty,
        };
        if asked != name {
            let units = detached(alloc, units, self.channel, asked, Why::Missing)?;
            return Ok((units, Course::Stays));
        }
        let units = detached(alloc, units, self.channel, name, Why::Normal)?;
        Ok((units, Course::Parts))
    }

    /// The peer asks for a timeout.
    fn ask_timeout(
        &mut self,
        units: Items<Out>,
        timeout: Option<u32>,
    ) -> Result<(Items<Out>, Course), NoMemory> {
        let timeout = timeout.unwrap_or(LONGEST_TIMEOUT).min(LONGEST_TIMEOUT);
        let answer = Control::SessionTimeout {
            timeout: Some(timeout),
        };
        let units = send(units, self.channel, answer)?;
        self.timeout = timeout;
        Ok((units, Course::Stays))
    }

    /// The peer says which command it expects next. Where the attachment waited for it, the kept ones go out from there on.
    fn expect(
        &mut self,
        alloc: Global,
        units: Items<Out>,
        number: u64,
    ) -> Result<(Items<Out>, Course), NoMemory> {
        let sent = self.sender.sent();
        let base = sent - self.sender.kept();
        if number < base || sent < number {
            return Ok((units, Course::Unknown));
        }
        let mut units = units;
        if self.waits {
            let commands = self.sender.from(number)?;
            units = commands_from(alloc, units, self.channel, number, &commands)?;
        }
        let _ = self.sender.expected(number);
        self.waits = false;
        Ok((units, Course::Stays))
    }

    /// The peer completed commands.
    fn complete(
        &mut self,
        alloc: Global,
        units: Items<Out>,
        commands: &Option<Ranges>,
        timely_reply: bool,
    ) -> Result<(Items<Out>, Course), NoMemory> {
        let empty = Ranges::from_vec(Vec::new(alloc));
        let ranges = match commands {
            Some(ranges) => ranges,
            None => &empty,
        };
        let mut units = units;
        if timely_reply {
            let commands = Some(ranges.copied(alloc)?);
            units = send(
                units,
                self.channel,
                Control::SessionKnownCompleted { commands },
            )?;
        }
        let firsts = self.sender.firsts(ranges)?;
        self.sender.completed(ranges, &firsts);
        Ok((units, Course::Stays))
    }

    /// The peer asks what was received.
    fn flush(
        &self,
        alloc: Global,
        units: Items<Out>,
        expects: bool,
        confirms: bool,
        completes: bool,
    ) -> Result<(Items<Out>, Course), NoMemory> {
        let next = self.receiver.next();
        let mut units = units;
        if expects {
            units = expected(alloc, units, self.channel, next)?;
        }
        if confirms {
            units = confirmed(alloc, units, self.channel, next)?;
        }
        if completes {
            units = all_completed(alloc, units, self.channel, next)?;
        }
        Ok((units, Course::Stays))
    }

    /// The peer will never send commands of these numbers.
    fn gap(
        &mut self,
        units: Items<Out>,
        ranges: &Ranges,
    ) -> Result<(Items<Out>, Course), NoMemory> {
        if self.receiver.next() >= FAR_END || self.receiver.after_gap(ranges) >= FAR_END {
            return Ok((units, Course::Unknown));
        }
        self.receiver.gap(ranges)?;
        Ok((units, Course::Stays))
    }
}
