//! The list of copies of each session that holds some.
ghost use Rattle.std.specs.Prelude.{◌≡◌, ◌+◌, ◌<◌, ◌≤◌, ◌≢◌, ◌==◌, ◌^◌, ℕ, false, None, Some, OnOk, IfSome};
ghost use Rattle.held_copies.specs.Lanes.{lane_in, Lies, session_in};

use indexmap::IndexMap;
use octet_reading::NoMemory;
use queue_copies::Holder;
use std::alloc::Global;
use std::marker::Model;

/// Sessions and the numbers of their lists: each session has one of its own. List 0 is no session's.
#[derive(Debug, Drop)]
pub(crate) struct Lanes {
    of: IndexMap<u64, usize>,
    /// Lists that no session has.
    free: Vec<usize>,
    /// How many lists there are.
    count: usize,
    /// How many more sessions can have a list without memory.
    ready: usize,
}

impl Model for Lanes {
    ghost use Rattle.std.specs.Prelude.{◌+◌, ◌-◌, ◌≤◌, nat_eq, length};
    ghost use Rattle.std.specs.Vec.{vec_len, vec_capacity};
    ghost use Rattle.indexmap.specs.IndexMap.{get, index_map_len, spare};
    ghost use Rattle.held_copies.specs.Lanes.{Laned, Apart, IsReady};

    ghost Value = { Laned };

    ghost view = { λ l. record { of = l.of.entries; ready = l.ready; count = l.count; free = length l.free.items; keys = spare l.of; room = vec_capacity l.free - (index_map_len l.of + length l.free.items) } };

    ghost invariant = { λ l. record { apart : Apart (get nat_eq l.of) l.free.items l.count; ready : IsReady l.ready (length l.free.items) (spare l.of) (index_map_len l.of) (vec_capacity l.free) } };
}

impl Lanes {
    pub(crate) fn new(alloc: Global) -> Lanes
        ensures lanes { (session : ℕ) → lane_in result session ≡ None }
        ensures ready { result.ready ≡ 0 }
        ensures count { result.count ≡ 1 }
    {
        Lanes {
            of: IndexMap::new(alloc),
            free: Vec::new(alloc),
            count: 1,
            ready: 0,
        }
    }

    /// How many lists are lacking for so many more sessions.
    pub(crate) fn short(&self, sessions: usize) -> usize
        ensures { sessions ≤ self.now.free + result }
    {
        sessions.saturating_sub(self.free.len())
    }

    /// Makes room for so many more sessions, and for so many lists more.
    pub(crate) fn reserve(&mut self, sessions: usize, lists: usize) -> Result<(), NoMemory>
        ensures of { self.new.of ≡ self.old.of }
        ensures ready { self.new.ready ≡ self.old.ready }
        ensures count { self.new.count ≡ self.old.count }
        ensures free { self.new.free ≡ self.old.free }
        ensures keys { OnOk result (sessions ≤ self.new.keys) }
        ensures room { OnOk result (lists ≤ self.new.room) }
    {
        self.of.reserve(sessions)?;
        self.free.reserve(self.of.len().saturating_add(lists))?;
        Ok(())
    }

    /// Takes in that there are so many lists, so that so many sessions can have one.
    pub(crate) fn widen(&mut self, sessions: usize, lists: usize)
        requires keys { sessions ≤ self.old.keys }
        requires more { self.old.count ≤ lists }
        requires room { lists ≤ self.old.count + self.old.room }
        requires free { self.old.count + sessions ≤ self.old.free + lists }
        ensures of { self.new.of ≡ self.old.of }
        ensures sessions { sessions ≤ self.new.ready }
        ensures ready { self.old.ready ≤ self.new.ready }
        ensures count { self.new.count ≡ lists }
    {
        for list in self.count..lists {
            self.free.push_reserved(list);
        }
        self.count = lists;
        self.ready = self.ready.max(sessions);
    }

    /// The list of a session.
    pub(crate) fn lane(&self, session: u64) -> Option<usize>
        ensures lane { result ≡ lane_in self.now session }
        ensures above { IfSome result (λ lane. lane ≢ 0) }
        ensures below { IfSome result (λ lane. lane < self.now.count) }
        ensures own { IfSome result (λ lane. (other : ℕ) → lane_in self.now other ≡ Some lane → other ≡ session) }
    {
        match self.of.get(&session) {
            Some(lane) => Some(*lane),
            None => None,
        }
    }

    /// Gives a session a list that nobody has.
    fn take(&mut self, session: u64) -> usize
        requires new { lane_in self.old session ≡ None }
        requires ready { 0 < self.old.ready }
        ensures lane { lane_in self.new session ≡ Some result }
        ensures others { (other : ℕ) → (other == session) ≡ false → lane_in self.new other ≡ lane_in self.old other }
        ensures below { result < self.old.count }
        ensures ready { self.new.ready + 1 ≡ self.old.ready }
        ensures count { self.new.count ≡ self.old.count }
    {
        match self.free.pop() {
            Some(lane) => {
                match self.of.insert(session, lane) {
                    Ok(_) => (),
                    Err(_) => unreachable!(),
                }
                self.ready -= 1;
                lane
            }
            None => unreachable!(),
        }
    }

    /// The list of a holder, for a session that has none one that nobody has; branches share list 0.
    pub(crate) fn lane_for(&mut self, holder: &Holder) -> usize
        requires count { 0 < self.old.count }
        requires ready { (session : ℕ) → session_in holder.now ≡ Some session → lane_in self.old session ≡ None → 0 < self.old.ready }
        ensures lies { Lies self.new holder.now result }
        ensures kept { (session lane : ℕ) → lane_in self.old session ≡ Some lane → lane_in self.new session ≡ Some lane }
        ensures below { result < self.old.count }
        ensures ready { self.old.ready ≤ self.new.ready + 1 }
        ensures had { (session lane : ℕ) → session_in holder.now ≡ Some session → lane_in self.old session ≡ Some lane → self.new.ready ≡ self.old.ready }
        ensures count { self.new.count ≡ self.old.count }
    {
        match holder {
            Holder::Session { session, .. } => match self.lane(*session) {
                Some(lane) => lane,
                None => self.take(*session),
            },
            Holder::Branch { .. } => 0,
        }
    }

    /// Takes a session's list back.
    pub(crate) fn give_back(&mut self, session: u64)
        ensures gone { lane_in self.new session ≡ None }
        ensures others { (other : ℕ) → (other == session) ≡ false → lane_in self.new other ≡ lane_in self.old other }
        ensures ready { self.new.ready ≡ self.old.ready }
        ensures count { self.new.count ≡ self.old.count }
    {
        if let Some(lane) = self.of.swap_remove(&session) {
            self.free.push_reserved(lane);
        }
    }
}
