//! Copies in lists.
ghost use Rattle.std.specs.Prelude.{◌≡◌, ◌+◌, ◌<◌, ◌≤◌, ◌++◌, ◌∷◌, ℕ, [], map, length, replicate, None, Some, is_some, IfSome, IfNone, OnOk, OnErr, IfOk, slice_set};
ghost use Rattle.std.specs.Option.{option_copied};
ghost use Rattle.number_tree.specs.Numbers.{first_of, first_above};
ghost use Rattle.queue_copies.specs.Iter.{pair};
ghost use Rattle.queue_copies.specs.Copied.{Copied, Ordered, copies_at, numbers, find_in, IsThere, IsGreatest, copy_of, hold_of, holder_of, lane_of, changed, removed, held_by, released, available, held_only};

use crate::entry::{Entry, Held, Holder, QueueCopy};
use crate::iter::CopiesIter;
use crate::shelf::{Shelf, drop_from, free_at, hold_at, push_empty};
use indexmap::IndexMap;
use node_list::{Lists, Steps};
use number_tree::Slot;
use octet_reading::NoMemory;
use std::alloc::Global;
use std::marker::Model;
use std::mem;
use std::sync::ledger::Ledger;

/// Copies in lists by rising number. Each is found by its number, the first available ones without passing held ones,
/// and those of a holder by the number of his list. Lists and holders' lists are counted from 0, and there are as many of
/// both.
#[derive(Debug, Drop)]
pub struct Copies {
    alloc: Global,
    nodes: Lists<Entry>,
    /// The node of each number.
    keys: IndexMap<u64, usize>,
    /// What is known of each list.
    shelves: Vec<Shelf>,
    /// Room for the number of each copy that may still be added.
    slots: Vec<Slot>,
    /// At least the number of each copy.
    greatest: u64,
}

impl Model for Copies {
    ghost use Rattle.std.specs.Coded.{codes};
    ghost use Rattle.amqp_values.specs.contracts.value.Value as e;
    ghost use Rattle.queue_copies.specs.Copied.{Stock};
    ghost use Rattle.queue_copies.specs.Sound.{stocked, Tied};

    ghost Value = { Stock };

    ghost coded = { Prim.hlevel (codes, e.the_row.coded) };

    ghost view = { λ c. stocked c.nodes c.slots.items };

    ghost invariant = { λ c. Tied c.nodes c.keys c.shelves.items c.slots.items c.greatest };
}

/// Makes the room for so many numbers.
fn fill(slots: &mut Vec<Slot>, alloc: Global, most: usize) -> Result<(), NoMemory>
    ensures room { OnOk result (most ≤ length slots.new.items) }
    ensures more { length slots.old.items ≤ length slots.new.items }
    ensures most { (bound : ℕ) → most ≤ bound → length slots.old.items ≤ bound → length slots.new.items ≤ bound }
{
    slots.reserve(most.saturating_sub(slots.len()))?;
    for _ in slots.len()..most {
        slots.push_reserved(Slot::new(alloc)?);
    }
    Ok(())
}

impl Copies {
    /// So many empty lists.
    pub fn new(alloc: Global, lists: usize) -> Result<Copies, NoMemory>
        ensures lists { IfOk result (λ made. made.lists ≡ replicate lists []) }
        ensures spare { IfOk result (λ made. made.spare ≡ 0) }
    {
        let nodes = Lists::new(alloc, lists)?;
        let mut shelves = Vec::new(alloc);
        shelves.reserve(lists)?;
        push_empty(&mut shelves, lists);
        Ok(Copies {
            alloc,
            nodes,
            keys: IndexMap::new(alloc),
            shelves,
            slots: Vec::new(alloc),
            greatest: 0,
        })
    }

    /// Adds so many empty lists. Nothing else changes.
    pub fn widen(&mut self, lists: usize) -> Result<(), NoMemory>
        ensures lists { OnOk result (self.new.lists ≡ self.old.lists ++ replicate lists []) }
        ensures err { OnErr result (self.new ≡ self.old) }
        ensures spare { self.new.spare ≡ self.old.spare }
    {
        self.shelves.reserve(lists)?;
        self.nodes.widen(lists)?;
        push_empty(&mut self.shelves, lists);
        Ok(())
    }

    /// Makes room for so many more copies. Nothing else changes.
    pub fn reserve(&mut self, more: usize) -> Result<(), NoMemory>
        ensures room { OnOk result (more ≤ self.new.spare) }
        ensures spare { self.old.spare ≤ self.new.spare }
        ensures kept { self.new.lists ≡ self.old.lists }
    {
        self.nodes.reserve(more)?;
        self.keys.reserve(more)?;
        fill(&mut self.slots, self.alloc, more)
    }

    /// How many lists there are. Takes no memory.
    pub fn lists(&self) -> usize
        ensures lists { result ≡ length self.now.lists }
        ensures ordered { Ordered self.now.lists }
    {
        self.nodes.lists()
    }

    /// Puts a copy last in a list; nobody holds it. Takes no memory.
    pub fn add<L: Ledger>(&mut self, list: usize, copy: QueueCopy, steps: &mut Steps<L>)
        requires list { list < length self.old.lists }
        requires spare { 1 ≤ self.old.spare }
        requires greatest { IsGreatest copy.number self.old.lists }
        ensures lists { self.new.lists ≡ slice_set self.old.lists list (copies_at self.old.lists list ++ record { copy = copy; hold = None } ∷ []) }
        ensures spare { self.new.spare + 1 ≡ self.old.spare }
        ensures steps { steps.new ≡ steps.old + 1 }
    {
        let number = copy.number;
        match self.slots.pop() {
            Some(slot) => {
                let key = self.nodes.push_back(
                    list,
                    Entry {
                        list,
                        copy,
                        held: None,
                    },
                    steps,
                );
                match self.keys.insert(number, key) {
                    Ok(_) => (),
                    Err(_) => unreachable!(),
                }
                // A map has less than 2^63 keys, so no count of copies overflows.
                let _ = self.keys.len();
                self.shelves[list].put(number, slot);
                self.greatest = number;
            }
            None => unreachable!(),
        }
    }

    /// A number that no copy's is above: 0, or that of the last copy added. Takes no memory.
    pub fn greatest(&self) -> u64
        ensures { (number : ℕ) → IsThere number self.now.lists → number ≤ result }
    {
        let _ = &self.keys;
        self.greatest
    }

    /// Whether a list has a copy with this number. Takes no memory.
    pub fn contains(&self, number: u64) -> bool
        ensures { result ≡ is_some (find_in number self.now.lists) }
    {
        self.keys.contains_key(&number)
    }

    /// The copy with a number; none where no list has it. Takes no memory.
    pub fn get<L: Ledger>(&self, number: u64, steps: &mut Steps<L>) -> Option<&QueueCopy>
        ensures copy { option_copied result ≡ copy_of (find_in number self.now.lists) }
        ensures steps { steps.new ≤ steps.old + 1 }
    {
        match self.keys.get(&number) {
            Some(key) => Some(&self.nodes.get(*key, steps).copy),
            None => None,
        }
    }

    /// Gives a copy to a holder, whose list is the one of this number, and answers the holder that it had. Takes no memory.
    pub fn hold<L: Ledger>(
        &mut self,
        number: u64,
        holder: Holder,
        lane: usize,
        steps: &mut Steps<L>,
    ) -> Option<Holder>
        requires there { IsThere number self.old.lists }
        requires lane { lane < length self.old.lists }
        ensures lists { self.new.lists ≡ map (changed number (held_by holder lane)) self.old.lists }
        ensures before { result ≡ holder_of (hold_of (find_in number self.old.lists)) }
        ensures spare { self.new.spare ≡ self.old.spare }
        ensures steps { steps.new ≡ steps.old + 3 }
    {
        match self.keys.get(&number) {
            Some(key) => {
                let key = *key;
                let entry = self.nodes.get_mut(key, steps);
                let before = mem::replace(&mut entry.held, None);
                let (slot, replaced) = hold_at(&mut self.shelves, entry.list, number, before);
                entry.held = Some(Held { holder, lane, slot });
                self.nodes.let_go(key, steps);
                self.nodes.hold(key, lane, steps);
                replaced
            }
            None => unreachable!(),
        }
    }

    /// Makes a copy available at its old place, marked as given before where asked, and answers the holder that it had.
    /// Takes no memory.
    pub fn let_go<L: Ledger>(
        &mut self,
        number: u64,
        redelivered: bool,
        steps: &mut Steps<L>,
    ) -> Option<Holder>
        requires { IsThere number self.old.lists }
        ensures lists { self.new.lists ≡ map (changed number (released redelivered)) self.old.lists }
        ensures before { result ≡ holder_of (hold_of (find_in number self.old.lists)) }
        ensures spare { self.new.spare ≡ self.old.spare }
        ensures steps { steps.new ≡ steps.old + 2 }
    {
        match self.keys.get(&number) {
            Some(key) => {
                let key = *key;
                let entry = self.nodes.get_mut(key, steps);
                let before = mem::replace(&mut entry.held, None);
                entry.copy.redelivered |= redelivered;
                let replaced = free_at(&mut self.shelves, entry.list, number, before);
                self.nodes.let_go(key, steps);
                replaced
            }
            None => unreachable!(),
        }
    }

    /// Takes a copy out of its list, and answers the holder that it had. Takes no memory.
    pub fn remove<L: Ledger>(&mut self, number: u64, steps: &mut Steps<L>) -> Option<Holder>
        requires { IsThere number self.old.lists }
        ensures lists { self.new.lists ≡ map (removed number) self.old.lists }
        ensures before { result ≡ holder_of (hold_of (find_in number self.old.lists)) }
        ensures spare { self.new.spare ≡ self.old.spare }
        ensures steps { steps.new ≡ steps.old + 1 }
    {
        match self.keys.swap_remove(&number) {
            Some(key) => {
                let Entry { list, copy, held } = self.nodes.unlink(key, steps);
                drop(copy);
                drop_from(&mut self.shelves, list, number, held)
            }
            None => unreachable!(),
        }
    }

    /// The number of a list's first copy. Takes no memory.
    pub fn first<L: Ledger>(&self, list: usize, steps: &mut Steps<L>) -> Option<u64>
        requires { list < length self.now.lists }
        ensures first { result ≡ first_of (numbers (copies_at self.now.lists list)) }
        ensures ordered { Ordered self.now.lists }
        ensures steps { steps.new ≤ steps.old + 1 }
    {
        match self.nodes.first(list) {
            Some(key) => Some(self.nodes.get(key, steps).copy.number),
            None => None,
        }
    }

    /// The number of a copy that is in a holder's list. Takes no memory.
    pub fn first_held<L: Ledger>(&self, lane: usize, steps: &mut Steps<L>) -> Option<u64>
        requires { lane < length self.now.lists }
        ensures some { IfSome result (λ number. lane_of (hold_of (find_in number self.now.lists)) ≡ Some lane) }
        ensures none { IfNone result ((number : ℕ) → lane_of (hold_of (find_in number self.now.lists)) ≡ Some lane → ⊥) }
        ensures steps { steps.new ≤ steps.old + 1 }
    {
        match self.nodes.first_held(lane) {
            Some(key) => Some(self.nodes.get(key, steps).copy.number),
            None => None,
        }
    }

    /// The first available copy of a list whose number is above this one. Takes no memory.
    pub fn first_available(&self, list: usize, above: u64) -> Option<u64>
        requires { list < length self.now.lists }
        ensures { result ≡ first_above above (available (copies_at self.now.lists list)) }
    {
        self.shelves[list].first_above(above)
    }

    /// The first available copy of a list.
    fn first_free(&self, list: usize) -> Option<u64>
        requires { list < length self.now.lists }
        ensures first { result ≡ first_of (available (copies_at self.now.lists list)) }
        ensures ordered { Ordered self.now.lists }
    {
        self.shelves[list].first()
    }

    /// Takes all copies of a list out that nobody holds, and answers how many those are. Takes no memory.
    pub fn purge<L: Ledger>(&mut self, list: usize, steps: &mut Steps<L>) -> u64
        requires { list < length self.old.lists }
        ensures lists { self.new.lists ≡ slice_set self.old.lists list (held_only (copies_at self.old.lists list)) }
        ensures count { result ≡ length (available (copies_at self.old.lists list)) }
        ensures spare { self.new.spare ≡ self.old.spare }
        ensures ordered { Ordered self.old.lists }
    {
        let (count, _) = self.counts(list);
        while let Some(number) = self.first_free(list) {
            drop(self.remove(number, steps));
        }
        count
    }

    /// The copies of a list by rising number, each with its holder. Takes no memory.
    pub fn iter(&self, list: usize) -> CopiesIter<'_>
        requires { list < length self.now.lists }
        ensures { result ≡ map pair (copies_at self.now.lists list) }
    {
        CopiesIter::new(&self.nodes, list, self.nodes.first(list))
    }

    /// How many copies of a list are available, and how many are held. Takes no memory.
    pub fn counts(&self, list: usize) -> (u64, u64)
        requires { list < length self.now.lists }
        ensures available { result.0 ≡ length (available (copies_at self.now.lists list)) }
        ensures held { result.1 ≡ length (held_only (copies_at self.now.lists list)) }
        ensures ordered { Ordered self.now.lists }
    {
        self.shelves[list].counts()
    }
}
