//! One branch.
ghost use Rattle.std.specs.Prelude.{◌≡◌, ◌<◌, ◌+◌, false};
ghost use Rattle.number_tree.specs.Numbers.{has};
ghost use Rattle.branch_core.specs.Held.{held, fresh, joined, marked, parted, is_due, deadline_of, given, emptied, is_undone, names_queue, changed_by};

use crate::marks::Status;
use branch_intents::{Intent, Intents};
use number_tree::{Numbers, Slot};
use octet_reading::Text;
use std::alloc::Global;

/// What is done to a branch.
#[derive(Clone, Copy, Debug)]
pub(crate) enum Change<'a> {
    /// The session's association ends; where it failed, the branch is marked.
    Part {
        session: u64,
        fails: bool,
    },
    /// The session ends: its branch is marked.
    Leave {
        session: u64,
    },
    /// Time has come so far: what is due is marked.
    Expire {
        now: u64,
    },
    /// The branch is given so many seconds, none where 0.
    Time {
        seconds: u32,
        now: u64,
    },
    Prepare,
    /// A copy, by its number, or a whole queue is gone.
    Gone {
        queue: &'a Text,
        number: Option<u64>,
    },
}

/// A branch.
#[derive(Debug, Drop)]
pub(crate) struct Branch {
    /// The sessions that are associated with it, be the association active or suspended.
    pub(crate) sessions: Numbers,
    /// 0, or the mark that it has.
    pub(crate) status: Status,
    pub(crate) prepared: bool,
    pub(crate) intents: Intents,
    /// The time that it was given, 0 for none.
    pub(crate) seconds: u32,
    /// The time at which it is due.
    pub(crate) deadline: Option<u64>,
}

/// Whether the time has come.
fn is_due(deadline: Option<u64>, now: u64) -> bool
    ensures { result ≡ is_due now deadline }
{
    match deadline {
        Some(deadline) => deadline <= now,
        None => false,
    }
}

/// The time that comes so many seconds from now; none for 0 seconds, or where there is no such time.
fn deadline_of(seconds: u32, now: u64) -> Option<u64>
    ensures { result ≡ deadline_of seconds now }
{
    if seconds == 0 {
        return None;
    }
    now.checked_add(u64::from(seconds))
}

impl Branch {
    /// A branch that a session has begun.
    pub(crate) fn new(alloc: Global, session: u64, slot: Slot) -> Branch
        ensures { held result ≡ fresh session }
    {
        let mut sessions = Numbers::new();
        sessions.put(session, slot);
        Branch {
            sessions,
            status: 0,
            prepared: false,
            intents: Intents::new(alloc),
            seconds: 0,
            deadline: None,
        }
    }

    pub(crate) fn join(&mut self, session: u64, slot: Slot)
        requires { has session self.old.sessions ≡ false }
        ensures { held self.new ≡ joined session (held self.old) }
    {
        self.sessions.put(session, slot);
    }

    /// The first mark stays.
    fn mark(&mut self, status: Status)
        ensures { held self.new ≡ marked status (held self.old) }
    {
        if self.status == 0 && !self.prepared {
            self.status = status;
        }
    }

    fn part(&mut self, session: u64, fails: bool)
        ensures { held self.new ≡ parted fails session (held self.old) }
    {
        drop(self.sessions.take(session));
        if fails {
            self.mark(1);
        }
    }

    pub(crate) fn change(&mut self, change: Change<'_>)
        ensures { held self.new ≡ changed_by change.entry (held self.old) }
    {
        match change {
            Change::Part { session, fails } => self.part(session, fails),
            Change::Leave { session } => {
                if self.sessions.has(session) {
                    self.part(session, true);
                }
            }
            Change::Expire { now } => {
                if is_due(self.deadline, now) {
                    self.mark(2);
                }
            }
            Change::Time { seconds, now } => {
                self.seconds = seconds;
                self.deadline = deadline_of(seconds, now);
            }
            Change::Prepare => self.prepared = true,
            Change::Gone { queue, number } => {
                if !self.prepared {
                    self.intents.gone(queue, number);
                }
            }
        }
    }

    pub(crate) fn put(&mut self, intent: Intent)
        requires { 0 < self.old.intents.room }
        ensures held { held self.new ≡ given intent (held self.old) }
        ensures room { self.new.intents.room + 1 ≡ self.old.intents.room }
    {
        self.intents.put(intent);
    }

    pub(crate) fn take(&mut self, alloc: Global) -> Intents
        ensures intents { result.items ≡ (held self.old).intents }
        ensures held { held self.new ≡ emptied (held self.old) }
    {
        self.intents.take(alloc)
    }

    /// Whether it is marked and has intents.
    pub(crate) fn is_undone(&self) -> bool
        ensures { result ≡ is_undone (held self.now) }
    {
        self.status != 0 && !self.intents.as_slice().is_empty()
    }

    /// Whether it is prepared and names a queue.
    pub(crate) fn names(&self, queue: &Text) -> bool
        ensures { result ≡ names_queue queue.now (held self.now) }
    {
        self.prepared && self.intents.names(queue)
    }
}
