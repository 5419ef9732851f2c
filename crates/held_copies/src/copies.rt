//! Copies by list, number and session.
ghost use Rattle.std.specs.Prelude.{◌≡◌, ◌+◌, ◌<◌, ◌≤◌, ◌++◌, ◌∷◌, ℕ, [], map, length, replicate, is_some, None, Some, OnOk, OnErr, IfOk, IfSome, IfNone, slice_set};
ghost use Rattle.std.specs.Option.{option_copied};
ghost use Rattle.number_tree.specs.Numbers.{first_of, first_above};
ghost use Rattle.queue_copies.specs.Iter.{pair};
ghost use Rattle.queue_copies.specs.Copied.{Ordered, copies_at, numbers, find_in, IsThere, IsGreatest, copy_of, hold_of, changed, removed, held_by, released, available, held_only};
ghost use Rattle.held_copies.specs.Lanes.{session_in};
ghost use Rattle.held_copies.specs.Holding.{session_of, Fits};

use crate::lanes::Lanes;
use node_list::Steps;
use octet_reading::NoMemory;
use queue_copies::{Copies, CopiesIter, Holder, QueueCopy};
use std::alloc::Global;
use std::marker::Model;
use std::sync::ledger::Ledger;

/// The copies of all queues, by the numbers of their lists, which are counted from 0; and for each session what it holds.
#[derive(Debug, Drop)]
pub struct HeldCopies {
    copies: Copies,
    lanes: Lanes,
}

impl Model for HeldCopies {
    ghost use Rattle.std.specs.Prelude.{◌≡◌, ◌<◌, length};
    ghost use Rattle.std.specs.Coded.{codes};
    ghost use Rattle.amqp_values.specs.contracts.value.Value as e;
    ghost use Rattle.held_copies.specs.Holding.{HeldStock, Fits};

    ghost Value = { HeldStock };

    ghost coded = { Prim.hlevel (codes, e.the_row.coded) };

    ghost view = { λ h. record { lists = h.copies.lists; spare = h.copies.spare; sessions = h.lanes.ready } };

    ghost invariant = { λ h. record { fits : Fits h.lanes h.copies.lists; count : h.lanes.count ≡ length h.copies.lists; some : 0 < h.lanes.count } };
}

/// Takes a session's list back once it holds nothing.
fn forget<L: Ledger>(
    copies: &Copies,
    lanes: &mut Lanes,
    holder: Option<Holder>,
    steps: &mut Steps<L>,
)
    requires fits { Fits lanes.old copies.now.lists }
    requires count { lanes.old.count ≡ length copies.now.lists }
    ensures fits { Fits lanes.new copies.now.lists }
    ensures count { lanes.new.count ≡ lanes.old.count }
    ensures ready { lanes.new.ready ≡ lanes.old.ready }
    ensures steps { steps.new ≤ steps.old + 1 }
{
    match holder {
        Some(Holder::Session { session, .. }) => {
            if let Some(lane) = lanes.lane(session) {
                if copies.first_held(lane, steps).is_none() {
                    lanes.give_back(session);
                }
            }
        }
        Some(Holder::Branch { xid }) => drop(xid),
        None => (),
    }
}

impl HeldCopies {
    /// One empty list.
    pub fn new(alloc: Global) -> Result<HeldCopies, NoMemory>
        ensures lists { IfOk result (λ made. made.lists ≡ [] ∷ []) }
        ensures spare { IfOk result (λ made. made.spare ≡ 0) }
        ensures sessions { IfOk result (λ made. made.sessions ≡ 0) }
    {
        let copies = Copies::new(alloc, 1)?;
        Ok(HeldCopies {
            copies,
            lanes: Lanes::new(alloc),
        })
    }

    /// Makes room for so many more copies. Nothing else changes.
    pub fn reserve(&mut self, more: usize) -> Result<(), NoMemory>
        ensures room { OnOk result (more ≤ self.new.spare) }
        ensures spare { self.old.spare ≤ self.new.spare }
        ensures lists { self.new.lists ≡ self.old.lists }
        ensures sessions { self.new.sessions ≡ self.old.sessions }
    {
        self.copies.reserve(more)
    }

    /// Adds empty lists, at least so many, and makes room for so many sessions that hold nothing yet. Where memory is
    /// wanting nothing changes.
    pub fn room(&mut self, lists: usize, sessions: usize) -> Result<(), NoMemory>
        ensures lists { OnOk result ((more : ℕ) × (lists ≤ more) × (self.new.lists ≡ self.old.lists ++ replicate more [])) }
        ensures sessions { OnOk result (sessions ≤ self.new.sessions) }
        ensures kept { self.old.sessions ≤ self.new.sessions }
        ensures spare { self.new.spare ≡ self.old.spare }
        ensures err { OnErr result (self.new ≡ self.old) }
    {
        let more = lists.max(self.lanes.short(sessions));
        self.lanes.reserve(sessions, more)?;
        self.copies.widen(more)?;
        self.lanes.widen(sessions, self.copies.lists());
        Ok(())
    }

    /// How many lists there are. Takes no memory.
    pub fn lists(&self) -> usize
        ensures lists { result ≡ length self.now.lists }
        ensures ordered { Ordered self.now.lists }
    {
        self.copies.lists()
    }

    /// Puts a copy last in a list; nobody holds it. Takes no memory.
    pub fn add<L: Ledger>(&mut self, list: usize, copy: QueueCopy, steps: &mut Steps<L>)
        requires list { list < length self.old.lists }
        requires spare { 1 ≤ self.old.spare }
        requires greatest { IsGreatest copy.number self.old.lists }
        ensures lists { self.new.lists ≡ slice_set self.old.lists list (copies_at self.old.lists list ++ record { copy = copy; hold = None } ∷ []) }
        ensures spare { self.new.spare + 1 ≡ self.old.spare }
        ensures sessions { self.new.sessions ≡ self.old.sessions }
        ensures steps { steps.new ≡ steps.old + 1 }
    {
        self.copies.add(list, copy, steps);
    }

    /// A number that no copy's is above: 0, or that of the last copy added. Takes no memory.
    pub fn greatest(&self) -> u64
        ensures { (number : ℕ) → IsThere number self.now.lists → number ≤ result }
    {
        self.copies.greatest()
    }

    /// Whether a list has a copy with this number. Takes no memory.
    pub fn contains(&self, number: u64) -> bool
        ensures { result ≡ is_some (find_in number self.now.lists) }
    {
        self.copies.contains(number)
    }

    /// The copy with a number; none where no list has it. Takes no memory.
    pub fn get<L: Ledger>(&self, number: u64, steps: &mut Steps<L>) -> Option<&QueueCopy>
        ensures copy { option_copied result ≡ copy_of (find_in number self.now.lists) }
        ensures steps { steps.new ≤ steps.old + 1 }
    {
        self.copies.get(number, steps)
    }

    /// Gives a copy to a holder, in place of the one that it had. Takes no memory.
    pub fn acquire<L: Ledger>(&mut self, number: u64, holder: Holder, steps: &mut Steps<L>)
        requires there { IsThere number self.old.lists }
        requires room { (session : ℕ) → session_in holder ≡ Some session → ((other : ℕ) → session_of (hold_of (find_in other self.old.lists)) ≡ Some session → ⊥) → 0 < self.old.sessions }
        ensures lists { (lane : ℕ) × (self.new.lists ≡ map (changed number (held_by holder lane)) self.old.lists) }
        ensures spare { self.new.spare ≡ self.old.spare }
        ensures sessions { self.old.sessions ≤ self.new.sessions + 1 }
        ensures had { (session other : ℕ) → session_in holder ≡ Some session → session_of (hold_of (find_in other self.old.lists)) ≡ Some session → self.new.sessions ≡ self.old.sessions }
        ensures steps { steps.new ≤ steps.old + 4 }
    {
        let lane = self.lanes.lane_for(&holder);
        let before = self.copies.hold(number, holder, lane, steps);
        forget(&self.copies, &mut self.lanes, before, steps);
    }

    /// Makes a copy available at its old place, marked as given before where asked. Takes no memory.
    pub fn release<L: Ledger>(&mut self, number: u64, redelivered: bool, steps: &mut Steps<L>)
        requires { IsThere number self.old.lists }
        ensures lists { self.new.lists ≡ map (changed number (released redelivered)) self.old.lists }
        ensures spare { self.new.spare ≡ self.old.spare }
        ensures sessions { self.new.sessions ≡ self.old.sessions }
        ensures steps { steps.new ≤ steps.old + 3 }
    {
        let before = self.copies.let_go(number, redelivered, steps);
        forget(&self.copies, &mut self.lanes, before, steps);
    }

    /// Takes a copy out of its list. Takes no memory.
    pub fn accept<L: Ledger>(&mut self, number: u64, steps: &mut Steps<L>)
        requires { IsThere number self.old.lists }
        ensures lists { self.new.lists ≡ map (removed number) self.old.lists }
        ensures spare { self.new.spare ≡ self.old.spare }
        ensures sessions { self.new.sessions ≡ self.old.sessions }
        ensures steps { steps.new ≤ steps.old + 2 }
    {
        let before = self.copies.remove(number, steps);
        forget(&self.copies, &mut self.lanes, before, steps);
    }

    /// The number of a copy that a session holds. Takes no memory.
    pub fn first_held<L: Ledger>(&self, session: u64, steps: &mut Steps<L>) -> Option<u64>
        ensures some { IfSome result (λ number. session_of (hold_of (find_in number self.now.lists)) ≡ Some session) }
        ensures none { IfNone result ((number : ℕ) → session_of (hold_of (find_in number self.now.lists)) ≡ Some session → ⊥) }
        ensures steps { steps.new ≤ steps.old + 1 }
    {
        match self.lanes.lane(session) {
            Some(lane) => self.copies.first_held(lane, steps),
            None => None,
        }
    }

    /// The number of a list's first copy. Takes no memory.
    pub fn first<L: Ledger>(&self, list: usize, steps: &mut Steps<L>) -> Option<u64>
        requires { list < length self.now.lists }
        ensures first { result ≡ first_of (numbers (copies_at self.now.lists list)) }
        ensures ordered { Ordered self.now.lists }
        ensures steps { steps.new ≤ steps.old + 1 }
    {
        self.copies.first(list, steps)
    }

    /// The first available copy of a list whose number is above this one. Takes no memory.
    pub fn first_available(&self, list: usize, above: u64) -> Option<u64>
        requires { list < length self.now.lists }
        ensures { result ≡ first_above above (available (copies_at self.now.lists list)) }
    {
        self.copies.first_available(list, above)
    }

    /// The copies of a list by rising number, each with its holder. Takes no memory.
    pub fn iter(&self, list: usize) -> CopiesIter<'_>
        requires { list < length self.now.lists }
        ensures { result ≡ map pair (copies_at self.now.lists list) }
    {
        self.copies.iter(list)
    }

    /// How many copies of a list are available, and how many are held. Takes no memory.
    pub fn counts(&self, list: usize) -> (u64, u64)
        requires { list < length self.now.lists }
        ensures available { result.0 ≡ length (available (copies_at self.now.lists list)) }
        ensures held { result.1 ≡ length (held_only (copies_at self.now.lists list)) }
    {
        self.copies.counts(list)
    }

    /// Takes all copies of a list out that nobody holds, and answers how many those are. Takes no memory.
    pub fn purge<L: Ledger>(&mut self, list: usize, steps: &mut Steps<L>) -> u64
        requires { list < length self.old.lists }
        ensures lists { self.new.lists ≡ slice_set self.old.lists list (held_only (copies_at self.old.lists list)) }
        ensures count { result ≡ length (available (copies_at self.old.lists list)) }
        ensures spare { self.new.spare ≡ self.old.spare }
        ensures sessions { self.new.sessions ≡ self.old.sessions }
    {
        self.copies.purge(list, steps)
    }

    /// Takes all copies of a list out, whoever holds them. Takes no memory.
    pub fn clear<L: Ledger>(&mut self, list: usize, steps: &mut Steps<L>)
        requires { list < length self.old.lists }
        ensures lists { self.new.lists ≡ slice_set self.old.lists list [] }
        ensures spare { self.new.spare ≡ self.old.spare }
        ensures sessions { self.new.sessions ≡ self.old.sessions }
    {
        while let Some(number) = self.first(list, steps) {
            self.accept(number, steps);
        }
    }
}
