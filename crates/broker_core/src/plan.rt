//! What the broker is told, and what it decides to do.
ghost use Rattle.std.specs.Prelude.{◌≡◌, IfOk, OnOk};
ghost use Rattle.broker_core.specs.State.{nothing, only, at, with_given};
ghost use Rattle.broker_core.specs.Sound.{EditFine};

use crate::edit::Edit;
use amqp_terms::{Command, Content, Unit};
use amqp_values::NoMemory;
use serial_ranges::RangeSet;
use std::alloc::Global;
use std::marker::Model;

/// Numbers of sessions.
pub type Numbers = Vec<u64>;

/// The commands that are given to sessions, by the number of each session, in order.
pub type Given = Vec<(u64, Unit)>;

/// What the broker is told.
#[derive(Debug, Drop)]
pub enum Entry {
    /// A session does a new command, whose number is counted from 0 in its life.
    Do {
        session: u64,
        number: u64,
        command: Command,
        content: Option<Content>,
    },
    /// The sessions of one connection, by rising channel, can take messages.
    Drain {
        sessions: Numbers,
    },
    /// The peer completed these of a session's commands, all for the first time.
    Done {
        session: u64,
        numbers: RangeSet,
    },
    /// A session ends.
    End {
        session: u64,
    },
    /// The time, in seconds.
    Tick {
        now: u64,
    },
}

/// What needs no decision.
#[derive(Clone, Copy, Debug)]
pub enum Moment {
    /// A session ends.
    End { session: u64 },
    /// The time, in seconds.
    Tick { now: u64 },
}

/// What the broker decided: changes, and the commands that it gives.
#[derive(Debug, Drop)]
pub struct Plan {
    pub(crate) edits: Vec<Edit>,
    pub(crate) given: Given,
    pub(crate) moment: Option<Moment>,
}

impl Model for Plan {
    ghost use Rattle.std.specs.Coded.{codes};
    ghost use Rattle.amqp_values.specs.contracts.value.Value as e;
    ghost use Rattle.broker_core.specs.State.{Planned};
    ghost use Rattle.broker_core.specs.Sound.{AllFine};

    ghost Value = { Planned };

    ghost coded = { Prim.hlevel (codes, e.the_row.coded) };

    ghost view = { λ p. record { edits = p.edits.items; given = p.given.items; moment = p.moment } };

    ghost invariant = { λ p. AllFine p.edits.items };
}

impl Plan {
    /// Nothing. Takes no memory.
    pub(crate) fn nothing(alloc: Global) -> Plan
        ensures { result ≡ nothing }
    {
        Plan {
            edits: Vec::new(alloc),
            given: Vec::new(alloc),
            moment: None,
        }
    }

    /// One change alone. Without memory it is let go.
    pub(crate) fn only(alloc: Global, edit: Edit) -> Result<Plan, NoMemory>
        requires { EditFine edit }
        ensures { IfOk result (λ plan. plan ≡ only edit) }
    {
        let mut plan = Plan::nothing(alloc);
        plan.edits.push(edit)?;
        Ok(plan)
    }

    /// What needs no decision. Takes no memory.
    pub(crate) fn at(alloc: Global, moment: Moment) -> Plan
        ensures { result ≡ at moment }
    {
        Plan {
            edits: Vec::new(alloc),
            given: Vec::new(alloc),
            moment: Some(moment),
        }
    }

    /// Gives a session a command. Without memory it is let go.
    pub(crate) fn give(&mut self, session: u64, unit: Unit) -> Result<(), NoMemory>
        ensures { OnOk result (self.new ≡ with_given session unit self.old) }
    {
        self.given.push((session, unit))?;
        Ok(())
    }

    /// The commands that it gives. Takes no memory.
    pub fn given(&self) -> &Given
        ensures { result.now.items ≡ self.now.given }
    {
        &self.given
    }
}
