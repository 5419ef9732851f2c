//! A subscription, and how it stands.
ghost use Rattle.std.specs.Prelude.{◌≡◌, true};
ghost use Rattle.credit_core.specs.Turns.{changed_by, flowed, emptied, restored, spent_by, can_take, takes_offer};

use crate::credit::Credit;
use octet_reading::Text;

/// A subscription as it was asked for (AMQP 0-10, "message.subscribe").
#[derive(Debug, Drop)]
pub struct Sub {
    /// Its name within the session.
    pub destination: Text,
    pub queue: Text,
    /// 0 where messages are accepted explicitly, 1 where they need not be.
    pub accept_mode: u8,
    /// 0 where messages are acquired before they are sent, 1 where they are not.
    pub acquire_mode: u8,
    pub exclusive: bool,
}

/// A subscription with its credit.
#[derive(Debug, Drop)]
pub struct SubState {
    pub sub: Sub,
    /// 0 in credit mode, 1 in window mode (AMQP 0-10, "message.set-flow-mode").
    pub mode: u8,
    pub messages: Credit,
    /// Octets of bodies.
    pub octets: Credit,
    /// The greatest number of a copy that was browsed; 0 for none.
    pub browsed: u64,
    /// How often it was stopped or its mode was set. What was sent before gives no credit back after it.
    pub epoch: u64,
}

/// What is changed of a subscription in its place.
#[derive(Clone, Copy, Debug)]
pub(crate) enum Change {
    Flow { unit: u8, value: u32 },
    Stop,
    Mode { mode: u8 },
    Empty,
    Restore { epoch: u64, octets: u64 },
    Browse { number: u64 },
}

impl SubState {
    /// Whether its credit suffices for what its queue offers.
    pub(crate) fn takes(&self, offer: Option<u64>) -> bool
        ensures { result ≡ takes_offer self.now offer }
    {
        match offer {
            Some(octets) => self.messages.suffices(1) && self.octets.suffices(octets),
            None => false,
        }
    }

    /// The same with less credit, for a message with a body of so many octets.
    pub(crate) fn spent(self, octets: u64) -> SubState
        requires { can_take octets self ≡ true }
        ensures { result ≡ spent_by octets self }
    {
        SubState {
            messages: self.messages.spent(1),
            octets: self.octets.spent(octets),
            ..self
        }
    }

    /// Makes a change.
    pub(crate) fn change(&mut self, change: Change)
        ensures { self.new ≡ changed_by change self.old }
    {
        match change {
            Change::Flow { unit, value } => self.flow(unit, value),
            Change::Stop => {
                self.empty();
                self.epoch = self.epoch.saturating_add(1);
            }
            Change::Mode { mode } => {
                self.empty();
                self.epoch = self.epoch.saturating_add(1);
                self.mode = mode;
            }
            Change::Empty => self.empty(),
            Change::Restore { epoch, octets } => self.restore(epoch, octets),
            Change::Browse { number } => self.browsed = number,
        }
    }

    fn flow(&mut self, unit: u8, value: u32)
        ensures { self.new ≡ flowed unit value self.old }
    {
        if unit == 0 {
            self.messages = self.messages.added(u64::from(value));
        } else {
            self.octets = self.octets.added(u64::from(value));
        }
    }

    fn empty(&mut self)
        ensures { self.new ≡ emptied self.old }
    {
        self.messages = Credit::Left(0);
        self.octets = Credit::Left(0);
    }

    fn restore(&mut self, epoch: u64, octets: u64)
        ensures { self.new ≡ restored epoch octets self.old }
    {
        if self.mode == 1 && self.epoch == epoch {
            self.messages = self.messages.added(1);
            self.octets = self.octets.added(octets);
        }
    }
}
