//! Queues by name.
ghost use Rattle.std.specs.Prelude.{◌≡◌, ◌+◌, ◌<◌, ◌≤◌, ◌++◌, ◌∷◌, ℕ, [], map, length, replicate, slice_set, is_some, None, Some, OnOk, OnErr, IfOk, IfSome, IfNone, IsSome};
ghost use Rattle.std.specs.Option.{option_copied};
ghost use Rattle.name_map.specs.Named.{Sorted, find, put, out};
ghost use Rattle.number_tree.specs.Numbers.{first_above};
ghost use Rattle.queue_copies.specs.Iter.{pair};
ghost use Rattle.queue_copies.specs.Copied.{Ordered, copies_at, find_in, IsThere, IsGreatest, copy_of, hold_of, changed, removed, held_by, released, available, held_only};
ghost use Rattle.held_copies.specs.Lanes.{session_in};
ghost use Rattle.held_copies.specs.Holding.{session_of};
ghost use Rattle.queue_core.specs.Queues.{copies_in, at_name, marks_in, counts_in, names_of, has_alternate, plain_marks, OwnLists};
ghost use Rattle.queue_core.specs.declared.marks.QueueMarks.{QueueMarks as Marks};

use crate::marks::QueueMarks;
use crate::names::QueueNames;
use held_copies::{CopiesIter as QueueCopies, HeldCopies, Holder, QueueCopy};
use named_lists::NamedLists;
use node_list::Steps;
use octet_reading::{NoMemory, Text};
use std::alloc::Global;
use std::marker::{Brand, Model};
use std::sync::ledger::{Blank, Ledger};

/// Queues by name, each with its copies by rising number.
#[derive(Debug, Drop)]
pub struct Queues {
    alloc: Global,
    copies: HeldCopies,
    names: NamedLists<QueueMarks>,
}

impl Model for Queues {
    ghost use Rattle.std.specs.Prelude.{length};
    ghost use Rattle.std.specs.Coded.{codes};
    ghost use Rattle.amqp_values.specs.contracts.value.Value as e;
    ghost use Rattle.queue_core.specs.Queues.{Queued, Stands};

    ghost Value = { Queued };

    ghost coded = { Prim.hlevel (codes, e.the_row.coded) };

    ghost view = { λ q. record { entries = q.names.entries; lists = q.copies.lists; spare = q.copies.spare; room = length q.names.free; sessions = q.copies.sessions } };

    ghost invariant = { λ q. Stands q.names.entries q.names.free q.names.count q.copies.lists };
}

/// Whether one of the queues has this alternate exchange.
fn is_among(entries: &[(Text, (QueueMarks, usize))], exchange: &Text) -> bool
    ensures { result ≡ has_alternate exchange.now entries.now }
{
    let mut rest = entries;
    while let Some((entry, others)) = rest.split_first() {
        if entry.1.0.alternate == *exchange {
            return true;
        }
        rest = others;
    }
    false
}

/// Adds a copy, with a count of its own.
fn add_by<L: Ledger>(copies: &mut HeldCopies, list: usize, copy: QueueCopy, blank: Blank)
    requires name { blank.name ≡ L.name }
    requires parts { blank.parts ≡ L.parts }
    requires some { 0 < L.parts }
    requires list { list < length copies.old.lists }
    requires spare { 1 ≤ copies.old.spare }
    requires greatest { IsGreatest copy.number copies.old.lists }
    ensures lists { copies.new.lists ≡ slice_set copies.old.lists list (copies_at copies.old.lists list ++ record { copy = copy; hold = None } ∷ []) }
    ensures spare { copies.new.spare + 1 ≡ copies.old.spare }
    ensures sessions { copies.new.sessions ≡ copies.old.sessions }
{
    let mut steps = Steps::<L>::open(blank);
    copies.add(list, copy, &mut steps);
}

/// Clears a list, with a count of its own.
fn clear_by<L: Ledger>(copies: &mut HeldCopies, list: usize, blank: Blank)
    requires name { blank.name ≡ L.name }
    requires parts { blank.parts ≡ L.parts }
    requires some { 0 < L.parts }
    requires list { list < length copies.old.lists }
    ensures lists { copies.new.lists ≡ slice_set copies.old.lists list [] }
    ensures spare { copies.new.spare ≡ copies.old.spare }
    ensures sessions { copies.new.sessions ≡ copies.old.sessions }
{
    let mut steps = Steps::<L>::open(blank);
    copies.clear(list, &mut steps);
}

/// Purges a list, with a count of its own.
fn purge_by<L: Ledger>(copies: &mut HeldCopies, list: usize, blank: Blank) -> u64
    requires name { blank.name ≡ L.name }
    requires parts { blank.parts ≡ L.parts }
    requires some { 0 < L.parts }
    requires list { list < length copies.old.lists }
    ensures lists { copies.new.lists ≡ slice_set copies.old.lists list (held_only (copies_at copies.old.lists list)) }
    ensures count { result ≡ length (available (copies_at copies.old.lists list)) }
    ensures spare { copies.new.spare ≡ copies.old.spare }
    ensures sessions { copies.new.sessions ≡ copies.old.sessions }
{
    let mut steps = Steps::<L>::open(blank);
    copies.purge(list, &mut steps)
}

/// A copy by its number, with a count of its own.
fn copy_by<L: Ledger>(copies: &HeldCopies, number: u64, blank: Blank) -> Option<&QueueCopy>
    requires name { blank.name ≡ L.name }
    requires parts { blank.parts ≡ L.parts }
    requires some { 0 < L.parts }
    ensures { option_copied result ≡ copy_of (find_in number copies.now.lists) }
{
    let mut steps = Steps::<L>::open(blank);
    copies.get(number, &mut steps)
}

/// What a session holds, with a count of its own.
fn first_held_by<L: Ledger>(copies: &HeldCopies, session: u64, blank: Blank) -> Option<u64>
    requires name { blank.name ≡ L.name }
    requires parts { blank.parts ≡ L.parts }
    requires some { 0 < L.parts }
    ensures some { IfSome result (λ number. session_of (hold_of (find_in number copies.now.lists)) ≡ Some session) }
    ensures none { IfNone result ((number : ℕ) → session_of (hold_of (find_in number copies.now.lists)) ≡ Some session → ⊥) }
{
    let mut steps = Steps::<L>::open(blank);
    copies.first_held(session, &mut steps)
}

impl Queues {
    /// No queues.
    pub fn new(alloc: Global) -> Result<Queues, NoMemory>
        ensures entries { IfOk result (λ made. made.entries ≡ []) }
        ensures spare { IfOk result (λ made. made.spare ≡ 0) }
    {
        Ok(Queues {
            alloc,
            copies: HeldCopies::new(alloc)?,
            names: NamedLists::new(alloc),
        })
    }

    /// Makes room for so many more copies. Nothing else changes.
    pub fn reserve(&mut self, more: usize) -> Result<(), NoMemory>
        ensures spare { OnOk result (more ≤ self.new.spare) }
        ensures kept { self.old.spare ≤ self.new.spare }
        ensures entries { self.new.entries ≡ self.old.entries }
        ensures lists { self.new.lists ≡ self.old.lists }
        ensures room { self.new.room ≡ self.old.room }
        ensures sessions { self.new.sessions ≡ self.old.sessions }
    {
        self.copies.reserve(more)
    }

    /// Makes room for so many queues, and for so many sessions that hold nothing yet. No copy and no queue changes.
    pub fn room(&mut self, queues: usize, sessions: usize) -> Result<(), NoMemory>
        ensures room { OnOk result (queues ≤ self.new.room) }
        ensures sessions { OnOk result (sessions ≤ self.new.sessions) }
        ensures kept_room { self.old.room ≤ self.new.room }
        ensures kept_sessions { self.old.sessions ≤ self.new.sessions }
        ensures entries { self.new.entries ≡ self.old.entries }
        ensures lists { (more : ℕ) × (self.new.lists ≡ self.old.lists ++ replicate more []) }
        ensures spare { self.new.spare ≡ self.old.spare }
    {
        let more = queues.saturating_sub(self.names.free());
        self.copies.room(more, sessions)?;
        let lists = self.copies.lists();
        self.names.reserve(lists - self.names.count())?;
        self.names.widen(lists);
        Ok(())
    }

    /// Makes a queue without copies.
    pub fn declare(&mut self, name: &Text, marks: QueueMarks) -> Result<(), NoMemory>
        requires { find name.now self.old.entries ≡ None }
        ensures ok { OnOk result ((list : ℕ) × (self.new.entries ≡ put name.now (marks, list) self.old.entries) × (copies_at self.new.lists list ≡ [])) }
        ensures err { OnErr result (self.new.entries ≡ self.old.entries) }
        ensures room { self.old.room ≤ self.new.room + 1 }
        ensures sessions { self.old.sessions ≤ self.new.sessions }
        ensures lists { (more : ℕ) × (self.new.lists ≡ self.old.lists ++ replicate more []) }
        ensures spare { self.new.spare ≡ self.old.spare }
    {
        let name = name.copied(self.alloc)?;
        self.room(1, 0)?;
        self.place(name, marks);
        Ok(())
    }

    /// Makes a queue without copies. Takes no memory.
    pub fn place(&mut self, name: Text, marks: QueueMarks)
        requires new { find name self.old.entries ≡ None }
        requires room { 0 < self.old.room }
        ensures entries { (list : ℕ) × (self.new.entries ≡ put name (marks, list) self.old.entries) × (copies_at self.new.lists list ≡ []) }
        ensures lists { self.new.lists ≡ self.old.lists }
        ensures spare { self.new.spare ≡ self.old.spare }
        ensures room { self.new.room + 1 ≡ self.old.room }
        ensures sessions { self.new.sessions ≡ self.old.sessions }
    {
        let _ = self.names.put(name, marks);
    }

    /// Deletes a queue with its copies. Takes no memory.
    pub fn delete(&mut self, name: &Text)
        ensures entries { self.new.entries ≡ out name.now self.old.entries }
        ensures lists { self.new.lists ≡ at_name (find name.now self.old.entries) (λ _. []) self.old.lists }
        ensures room { IsSome (find name.now self.old.entries) → self.new.room ≡ self.old.room + 1 }
        ensures kept { self.old.room ≤ self.new.room }
        ensures spare { self.new.spare ≡ self.old.spare }
        ensures sessions { self.new.sessions ≡ self.old.sessions }
    {
        if let Some(taken) = self.names.take(name) {
            let list = taken.1.1;
            drop(taken);
            clear_by::<Brand>(&mut self.copies, list, Blank::new(1));
        }
    }

    /// Takes the durable, exclusive and auto-delete marks of a queue away. Takes no memory.
    pub fn plain(&mut self, name: &Text)
        ensures some { (queue : Marks × ℕ) → find name.now self.old.entries ≡ Some queue → self.new.entries ≡ put name.now (plain_marks queue.0, queue.1) (out name.now self.old.entries) }
        ensures none { find name.now self.old.entries ≡ None → self.new.entries ≡ self.old.entries }
        ensures lists { self.new.lists ≡ self.old.lists }
        ensures spare { self.new.spare ≡ self.old.spare }
        ensures room { self.new.room ≡ self.old.room }
        ensures sessions { self.new.sessions ≡ self.old.sessions }
    {
        if let Some(taken) = self.names.take(name) {
            let _ = self.names.put(taken.0, taken.1.0.plain());
        }
    }

    /// Takes all copies of a queue out that nobody holds, and answers how many those are. Takes no memory.
    pub fn purge(&mut self, name: &Text) -> u64
        ensures lists { self.new.lists ≡ at_name (find name.now self.old.entries) held_only self.old.lists }
        ensures count { result ≡ length (available (copies_in (find name.now self.old.entries) self.old.lists)) }
        ensures entries { self.new.entries ≡ self.old.entries }
        ensures spare { self.new.spare ≡ self.old.spare }
        ensures room { self.new.room ≡ self.old.room }
        ensures sessions { self.new.sessions ≡ self.old.sessions }
    {
        match self.names.get(name) {
            Some(queue) => purge_by::<Brand>(&mut self.copies, queue.1, Blank::new(1)),
            None => 0,
        }
    }

    /// Puts a copy last in a queue; nobody holds it. Takes no memory.
    pub fn add(&mut self, name: &Text, copy: QueueCopy)
        requires queue { IsSome (find name.now self.old.entries) }
        requires spare { 1 ≤ self.old.spare }
        requires greatest { IsGreatest copy.number self.old.lists }
        ensures lists { self.new.lists ≡ at_name (find name.now self.old.entries) (λ copies. copies ++ record { copy = copy; hold = None } ∷ []) self.old.lists }
        ensures entries { self.new.entries ≡ self.old.entries }
        ensures spare { self.new.spare + 1 ≡ self.old.spare }
        ensures room { self.new.room ≡ self.old.room }
        ensures sessions { self.new.sessions ≡ self.old.sessions }
    {
        match self.names.get(name) {
            Some(queue) => add_by::<Brand>(&mut self.copies, queue.1, copy, Blank::new(1)),
            None => unreachable!(),
        }
    }

    /// How many copies of a queue are available, and how many are held; none where it isn't there. Takes no memory.
    pub fn counts(&self, name: &Text) -> Option<(u64, u64)>
        ensures { result ≡ counts_in (find name.now self.now.entries) self.now.lists }
    {
        match self.names.get(name) {
            Some(queue) => Some(self.copies.counts(queue.1)),
            None => None,
        }
    }

    /// A number that no copy's is above: 0, or that of the last copy added. Takes no memory.
    pub fn greatest(&self) -> u64
        ensures { (number : ℕ) → IsThere number self.now.lists → number ≤ result }
    {
        self.copies.greatest()
    }

    /// Whether a queue has a copy with this number. Takes no memory.
    pub fn contains(&self, number: u64) -> bool
        ensures { result ≡ is_some (find_in number self.now.lists) }
    {
        self.copies.contains(number)
    }

    /// The copy with a number; none where no queue has it. Takes no memory.
    pub fn copy(&self, number: u64) -> Option<&QueueCopy>
        ensures { option_copied result ≡ copy_of (find_in number self.now.lists) }
    {
        copy_by::<Brand>(&self.copies, number, Blank::new(1))
    }

    /// The number of a copy that a session holds. Takes no memory.
    pub fn first_held(&self, session: u64) -> Option<u64>
        ensures some { IfSome result (λ number. session_of (hold_of (find_in number self.now.lists)) ≡ Some session) }
        ensures none { IfNone result ((number : ℕ) → session_of (hold_of (find_in number self.now.lists)) ≡ Some session → ⊥) }
    {
        first_held_by::<Brand>(&self.copies, session, Blank::new(1))
    }

    /// How many lists there are: each is one queue's at most, and what is no queue's is empty. Takes no memory.
    pub fn lists(&self) -> usize
        ensures lists { result ≡ length self.now.lists }
        ensures own { OwnLists self.now.entries self.now.lists }
        ensures ordered { Ordered self.now.lists }
    {
        self.copies.lists()
    }

    /// How many queues there are. Takes no memory.
    pub fn len(&self) -> usize
        ensures { result ≡ length self.now.entries }
    {
        self.names.entries().len()
    }

    /// The names of all queues, in order. Takes no memory.
    pub fn names(&self) -> QueueNames<'_>
        ensures names { result ≡ names_of self.now.entries }
        ensures sorted { Sorted self.now.entries }
    {
        QueueNames::new(self.names.entries())
    }

    /// Whether a queue has this alternate exchange. Takes no memory.
    pub fn is_alternate(&self, exchange: &Text) -> bool
        ensures { result ≡ has_alternate exchange.now self.now.entries }
    {
        is_among(self.names.entries(), exchange)
    }

    /// The copies of a queue by rising number, each with its holder. Takes no memory.
    pub fn copies(&self, name: &Text) -> QueueCopies<'_>
        requires { IsSome (find name.now self.now.entries) }
        ensures { result ≡ map pair (copies_in (find name.now self.now.entries) self.now.lists) }
    {
        match self.names.get(name) {
            Some(queue) => self.copies.iter(queue.1),
            None => unreachable!(),
        }
    }

    /// The marks of a queue; none where it isn't there. Takes no memory.
    pub fn marks(&self, name: &Text) -> Option<&QueueMarks>
        ensures { option_copied result ≡ marks_in (find name.now self.now.entries) }
    {
        match self.names.get(name) {
            Some(entry) => Some(&entry.0),
            None => None,
        }
    }

    /// The first available copy whose number is above this one; none where there is no such queue. Takes no memory.
    pub fn first_available(&self, name: &Text, above: u64) -> Option<u64>
        ensures { result ≡ first_above above (available (copies_in (find name.now self.now.entries) self.now.lists)) }
    {
        match self.names.get(name) {
            Some(entry) => self.copies.first_available(entry.1, above),
            None => None,
        }
    }

    /// Gives a copy to a holder, in place of the one that it had. Takes no memory.
    pub fn acquire<L: Ledger>(&mut self, number: u64, holder: Holder, steps: &mut Steps<L>)
        requires there { IsThere number self.old.lists }
        requires room { (session : ℕ) → session_in holder ≡ Some session → ((other : ℕ) → session_of (hold_of (find_in other self.old.lists)) ≡ Some session → ⊥) → 0 < self.old.sessions }
        ensures lists { (lane : ℕ) × (self.new.lists ≡ map (changed number (held_by holder lane)) self.old.lists) }
        ensures entries { self.new.entries ≡ self.old.entries }
        ensures spare { self.new.spare ≡ self.old.spare }
        ensures room { self.new.room ≡ self.old.room }
        ensures sessions { self.old.sessions ≤ self.new.sessions + 1 }
        ensures had { (session other : ℕ) → session_in holder ≡ Some session → session_of (hold_of (find_in other self.old.lists)) ≡ Some session → self.new.sessions ≡ self.old.sessions }
        ensures steps { steps.new ≤ steps.old + 4 }
    {
        self.copies.acquire(number, holder, steps);
    }

    /// Makes a copy available at its old place, marked as given before where asked. Takes no memory.
    pub fn release<L: Ledger>(&mut self, number: u64, redelivered: bool, steps: &mut Steps<L>)
        requires { IsThere number self.old.lists }
        ensures lists { self.new.lists ≡ map (changed number (released redelivered)) self.old.lists }
        ensures entries { self.new.entries ≡ self.old.entries }
        ensures spare { self.new.spare ≡ self.old.spare }
        ensures room { self.new.room ≡ self.old.room }
        ensures sessions { self.new.sessions ≡ self.old.sessions }
        ensures steps { steps.new ≤ steps.old + 3 }
    {
        self.copies.release(number, redelivered, steps);
    }

    /// Takes a copy out of its queue. Takes no memory.
    pub fn accept<L: Ledger>(&mut self, number: u64, steps: &mut Steps<L>)
        requires { IsThere number self.old.lists }
        ensures lists { self.new.lists ≡ map (removed number) self.old.lists }
        ensures entries { self.new.entries ≡ self.old.entries }
        ensures spare { self.new.spare ≡ self.old.spare }
        ensures room { self.new.room ≡ self.old.room }
        ensures sessions { self.new.sessions ≡ self.old.sessions }
        ensures steps { steps.new ≤ steps.old + 2 }
    {
        self.copies.accept(number, steps);
    }
}
