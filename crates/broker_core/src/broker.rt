//! The broker.
ghost use Rattle.std.specs.Prelude.{◌≡◌, ◌≤◌, ◌<◌, ◌+◌, ℕ, [], true, false, None, Some, max, is_some, IfOk, OnOk, OnErr, IsOk};
ghost use Rattle.std.specs.Ordering.{nat_cmp};
ghost use Rattle.sorted_map.specs.Map.{put, changed};
ghost use Rattle.broker_core.specs.Edits.{as_ready};
ghost use Rattle.amqp_commands.specs.Units.{command_fine};
ghost use Rattle.broker_core.specs.State.{session_of, exchange_marks, queue_marks, is_foreign};
ghost use Rattle.broker_core.specs.Commands.{IsFine, decision_of, commanded, planned, count_of, asker_of, unknown_code};
ghost use Rattle.broker_core.specs.Verdict.{before, unless};

use crate::answer::{Asker, Stop, or_empty};
use crate::edit::Edit;
use crate::plan::{Entry, Moment, Plan};
use crate::session::Session;
use crate::{exchange, queue};
use amqp_terms::Command;
use exchange_core::Exchanges;
use name_map::NameMap;
use octet_reading::{NoMemory, Text};
use queue_core::Queues;
use serial_ranges::RangeSet;
use sorted_map::SortedMap;
use std::alloc::Global;
use std::marker::Model;

/// How many of its commands a session may leave uncompleted before it can do none.
const MOST_UNCOMPLETED: u64 = 8_192;

/// Exchanges, queues and what sessions stand with them. What it is told it first decides, then makes room for, then does.
#[derive(Debug, Drop)]
pub struct Broker {
    pub(crate) alloc: Global,
    pub(crate) exchanges: Exchanges,
    pub(crate) queues: Queues,
    pub(crate) sessions: SortedMap<u64, Session>,
    /// The queues that are one session's own, by name.
    pub(crate) owned: NameMap<u64>,
    pub(crate) time: u64,
}

impl Model for Broker {
    ghost use Rattle.std.specs.Coded.{codes};
    ghost use Rattle.amqp_values.specs.contracts.value.Value as e;
    ghost use Rattle.broker_core.specs.State.{Stand};
    ghost use Rattle.broker_core.specs.Sound.{Sound};

    ghost Value = { Stand };

    ghost coded = { Prim.hlevel (codes, e.the_row.coded) };

    ghost view = { λ b. record { exchanges = b.exchanges; queues = b.queues; sessions = b.sessions; owned = b.owned; time = b.time } };

    ghost invariant = { λ b. Sound (record { exchanges = b.exchanges; queues = b.queues; sessions = b.sessions; owned = b.owned; time = b.time }) };
}

impl Broker {
    /// The exchanges that are there from the start, no queue and no session, at time 0.
    pub fn new(alloc: Global) -> Result<Broker, NoMemory>
        ensures queues { IfOk result (λ made. made.queues.entries ≡ []) }
        ensures rows { IfOk result (λ made. made.exchanges.rows ≡ []) }
        ensures sessions { IfOk result (λ made. made.sessions.entries ≡ []) }
        ensures owned { IfOk result (λ made. made.owned.entries ≡ []) }
        ensures time { IfOk result (λ made. made.time ≡ 0) }
    {
        Ok(Broker {
            alloc,
            exchanges: Exchanges::new(alloc)?,
            queues: Queues::new(alloc)?,
            sessions: SortedMap::new(alloc),
            owned: NameMap::new(alloc),
            time: 0,
        })
    }

    /// Begins a session, by a number that none has. No command was given to it, and nothing is delivered to it yet.
    pub fn begin(&mut self, session: u64) -> Result<(), NoMemory>
        requires { session_of session self.old ≡ None }
        ensures ok { OnOk result (self.new.sessions.entries ≡ put nat_cmp session (record { failed = false; ready = false; given = 0; uncompleted = 0 }) self.old.sessions.entries) }
        ensures err { OnErr result (self.new.sessions.entries ≡ self.old.sessions.entries) }
        ensures exchanges { self.new.exchanges ≡ self.old.exchanges }
        ensures queues { self.new.queues ≡ self.old.queues }
        ensures owned { self.new.owned ≡ self.old.owned }
        ensures time { self.new.time ≡ self.old.time }
    {
        self.sessions.reserve(1)?;
        let _ = self.sessions.put(
            session,
            Session {
                failed: false,
                ready: false,
                given: 0,
                uncompleted: 0,
            },
        );
        Ok(())
    }

    /// Whether a session may be delivered to. Takes no memory.
    pub fn stand(&mut self, session: u64, ready: bool)
        ensures sessions { self.new.sessions.entries ≡ changed nat_cmp session (as_ready ready) self.old.sessions.entries }
        ensures exchanges { self.new.exchanges ≡ self.old.exchanges }
        ensures queues { self.new.queues ≡ self.old.queues }
        ensures owned { self.new.owned ≡ self.old.owned }
        ensures time { self.new.time ≡ self.old.time }
    {
        set_ready(&mut self.sessions, session, ready);
    }

    /// What an entry does, decided and not done yet. The time and a session's end take no memory.
    pub fn decide(&self, entry: &Entry) -> Result<Plan, NoMemory>
        requires { IsFine entry.now }
        ensures { IfOk result (λ plan. plan ≡ decision_of entry.now self.now) }
    {
        match entry {
            Entry::Do {
                session,
                number,
                command,
                ..
            } => self.command(Asker::of(*session, *number, command), command),
            Entry::Drain { .. } => Ok(Plan::nothing(self.alloc)),
            Entry::Done { session, numbers } => {
                let edit = Edit::Complete {
                    session: *session,
                    count: count_of(numbers),
                };
                Plan::only(self.alloc, edit)
            }
            Entry::End { session } => {
                Ok(Plan::at(self.alloc, Moment::End { session: *session }))
            }
            Entry::Tick { now } => Ok(Plan::at(self.alloc, Moment::Tick { now: *now })),
        }
    }

    /// What a command does.
    fn command(&self, asker: Asker, command: &Command) -> Result<Plan, NoMemory>
        requires { command_fine command.now ≡ true }
        ensures { IfOk result (λ plan. plan ≡ commanded asker command.now self.now) }
    {
        match self.before(asker.session) {
            Some(stop) => asker.stopped(self.alloc, stop),
            None => self.planned(asker, command),
        }
    }

    /// What a command does where its session may do any.
    fn planned(&self, asker: Asker, command: &Command) -> Result<Plan, NoMemory>
        requires { command_fine command.now ≡ true }
        ensures { IfOk result (λ plan. plan ≡ planned asker self.now command.now) }
    {
        let empty = Text::from_string(String::new(self.alloc));
        match command {
            Command::ExecutionSync | Command::ExecutionResult { .. } => {
                Ok(Plan::nothing(self.alloc))
            }
            Command::ExecutionException { .. } => {
                let session = asker.session;
                Plan::only(self.alloc, Edit::Fail { session })
            }
            Command::ExchangeDeclare {
                exchange,
                kind,
                alternate_exchange,
                passive,
                durable,
                auto_delete,
                arguments,
            } => {
                let asked = exchange::Asked {
                    name: or_empty(exchange, &empty),
                    kind: or_empty(kind, &empty),
                    alternate: or_empty(alternate_exchange, &empty),
                    passive: *passive,
                    durable: *durable,
                    auto_delete: *auto_delete,
                    arguments,
                };
                self.exchange_declare(asker, asked)
            }
            Command::ExchangeDelete {
                exchange,
                if_unused,
            } => self.exchange_delete(asker, or_empty(exchange, &empty), *if_unused),
            Command::ExchangeQuery { name } => self.exchange_query(asker, or_empty(name, &empty)),
            Command::ExchangeBind {
                queue,
                exchange,
                binding_key,
                arguments,
            } => self.exchange_bind(
                asker,
                or_empty(exchange, &empty),
                or_empty(queue, &empty),
                or_empty(binding_key, &empty),
                arguments,
            ),
            Command::ExchangeUnbind {
                queue,
                exchange,
                binding_key,
            } => self.exchange_unbind(
                asker,
                or_empty(exchange, &empty),
                or_empty(queue, &empty),
                or_empty(binding_key, &empty),
            ),
            Command::ExchangeBound {
                exchange,
                queue,
                binding_key,
                arguments,
            } => self.exchange_bound(
                asker,
                or_empty(exchange, &empty),
                or_empty(queue, &empty),
                binding_key.as_ref(),
                arguments.as_ref(),
            ),
            Command::QueueDeclare {
                queue,
                alternate_exchange,
                passive,
                durable,
                exclusive,
                auto_delete,
                arguments,
            } => {
                let asked = queue::Asked {
                    name: or_empty(queue, &empty),
                    alternate: or_empty(alternate_exchange, &empty),
                    passive: *passive,
                    durable: *durable,
                    exclusive: *exclusive,
                    auto_delete: *auto_delete,
                    arguments,
                };
                self.queue_declare(asker, asked)
            }
            Command::QueueDelete {
                queue,
                if_empty,
                ..
            } => self.queue_delete(asker, or_empty(queue, &empty), *if_empty),
            Command::QueuePurge { queue } => self.queue_purge(asker, or_empty(queue, &empty)),
            Command::QueueQuery { queue } => self.queue_query(asker, or_empty(queue, &empty)),
            Command::Unknown { class, code, .. } => {
                asker.refused(self.alloc, unknown_code(*class, *code))
            }
            _ => asker.refused(self.alloc, 540),
        }
    }

    /// Why a session may do no command.
    fn before(&self, session: u64) -> Option<Stop>
        ensures { result ≡ before (session_of session self.now) }
    {
        match self.sessions.get(&session) {
            Some(state) => {
                if state.failed {
                    return Some(Stop::Skip);
                }
                if state.uncompleted >= MOST_UNCOMPLETED {
                    return Some(Stop::Refuse(506));
                }
                None
            }
            None => Some(Stop::Skip),
        }
    }
}

/// How many numbers there are.
fn count_of(numbers: &RangeSet) -> u64
    ensures { result ≡ count_of numbers.now }
{
    let mut count: u64 = 0;
    for (lower, upper) in numbers.iter() {
        count += upper + 1 - lower;
    }
    count
}

/// The error code of a command that isn't known by its class and code.
fn unknown_code(class: u8, code: u8) -> u16
    ensures { result ≡ unknown_code class code }
{
    if (class == 9 || class == 10) || (class == 4 && code == 6) {
        540
    } else {
        503
    }
}

/// A session may be delivered to, or not.
fn set_ready(sessions: &mut SortedMap<u64, Session>, session: u64, ready: bool)
    ensures { sessions.new.entries ≡ changed nat_cmp session (as_ready ready) sessions.old.entries }
{
    if let Some(index) = sessions.index_of(&session) {
        sessions.value_mut(index).ready = ready;
    }
}
