//! The subscriptions of a session in turn order.
ghost use Rattle.std.specs.Prelude.{◌≡◌, ◌+◌, ◌<◌, ◌≤◌, ◌++◌, ◌∷◌, ℕ, List, [], length, false, IsOk, OnOk, OnErr, slice_index_or};
ghost use Rattle.std.specs.List.{position};
ghost use Rattle.std.specs.VecDeque.{deque_len, deque_capacity};
ghost use Rattle.credit_core.specs.declared.sub.SubState.{SubState};
ghost use Rattle.credit_core.specs.Turns.{is_for, has, fresh, changed, removed, moved, flowed, stopped, with_mode, emptied, restored, browsed, spent_by, can_spend, CanSpend, epoch_of, ready, at_place, changed_by};

use crate::credit::Credit;
use crate::offers::Offers;
use crate::sub::{Change, Sub, SubState};
use octet_reading::{NoMemory, Text};
use std::alloc::Global;
use std::collections::VecDeque;
use std::marker::Model;

/// The subscriptions of one session. The first that can take what its queue offers is sent it, and goes last.
#[derive(Debug, Drop)]
pub struct Subs {
    places: VecDeque<SubState>,
}

impl Model for Subs {
    ghost use Rattle.std.specs.Prelude.{◌-◌};
    ghost use Rattle.std.specs.VecDeque.{deque_len, deque_capacity};
    ghost use Rattle.credit_core.specs.Turns.{Turns};

    ghost Value = { Turns };

    ghost view = { λ s. record { places = s.places.items; room = deque_capacity s.places - deque_len s.places } };
}

impl Subs {
    /// No subscriptions. Takes no memory.
    pub fn new(alloc: Global) -> Subs
        ensures { result.places ≡ [] }
    {
        Subs {
            places: VecDeque::new(alloc),
        }
    }

    /// How many there are. Takes no memory.
    pub fn len(&self) -> usize
        ensures { result ≡ length self.now.places }
    {
        self.places.len()
    }

    /// Makes room for so many more. Nothing else changes.
    pub fn room(&mut self, more: usize) -> Result<(), NoMemory>
        ensures places { self.new.places ≡ self.old.places }
        ensures ok { OnOk result (more ≤ self.new.room) }
        ensures room { self.old.room ≤ self.new.room }
    {
        self.places.reserve(more)?;
        Ok(())
    }

    /// Puts a subscription last, in credit mode and without credit.
    pub fn add(&mut self, sub: Sub) -> Result<(), NoMemory>
        requires { has sub.destination self.old.places ≡ false }
        ensures ok { OnOk result (self.new.places ≡ self.old.places ++ fresh sub ∷ []) }
        ensures err { OnErr result (self.new.places ≡ self.old.places) }
        ensures fits { 0 < self.old.room → IsOk result }
        ensures room { self.old.room ≤ self.new.room + 1 }
    {
        self.places.push_back(SubState {
            sub,
            mode: 0,
            messages: Credit::Left(0),
            octets: Credit::Left(0),
            browsed: 0,
            epoch: 0,
        })?;
        Ok(())
    }

    /// Whether a subscription has this destination. Takes no memory.
    pub fn has(&self, destination: &Text) -> bool
        ensures { result ≡ has destination.now self.now.places }
    {
        has_in(&self.places, destination)
    }

    /// Whether the destination is there, and its credit suffices for a message with a body of so many octets. Takes no
    /// memory.
    pub fn can_spend(&self, destination: &Text, octets: u64) -> bool
        ensures { result ≡ can_spend destination.now octets self.now.places }
    {
        can_spend_in(&self.places, destination, octets)
    }

    /// The subscription at a place, counted from 0. Takes no memory.
    pub fn at(&self, place: usize) -> &SubState
        requires { place < length self.now.places }
        ensures { result.now ≡ slice_index_or self.now.places place result.now }
    {
        match self.places.get(place) {
            Some(state) => state,
            None => unreachable!(),
        }
    }

    /// The first place whose credit suffices for what its queue offers. Takes no memory.
    pub fn next_ready(&self, offers: &Offers) -> Option<usize>
        ensures { result ≡ ready self.now.places offers.now }
    {
        first_ready(&self.places, offers.as_slice())
    }

    /// Removes a subscription; false where it isn't there. Takes no memory.
    pub fn cancel(&mut self, destination: &Text) -> bool
        ensures there { result ≡ has destination.now self.old.places }
        ensures places { self.new.places ≡ removed destination.now self.old.places }
        ensures room { self.old.room ≤ self.new.room }
    {
        cancel_in(&mut self.places, destination)
    }

    /// Gives credit: in unit 0 messages, else octets; 4294967295 is unlimited. False where the subscription isn't
    /// there. Takes no memory.
    pub fn flow(&mut self, destination: &Text, unit: u8, value: u32) -> bool
        ensures there { result ≡ has destination.now self.old.places }
        ensures places { self.new.places ≡ changed (flowed unit value) destination.now self.old.places }
        ensures room { self.new.room ≡ self.old.room }
    {
        change_in(&mut self.places, destination, Change::Flow { unit, value })
    }

    /// Takes all credit, and what was sent before gives none back; false where the subscription isn't there. Takes no
    /// memory.
    pub fn stop(&mut self, destination: &Text) -> bool
        ensures there { result ≡ has destination.now self.old.places }
        ensures places { self.new.places ≡ changed stopped destination.now self.old.places }
        ensures room { self.new.room ≡ self.old.room }
    {
        change_in(&mut self.places, destination, Change::Stop)
    }

    /// Sets the mode, and takes all credit as a stop does; false where the subscription isn't there. Takes no memory.
    pub fn set_mode(&mut self, destination: &Text, mode: u8) -> bool
        ensures there { result ≡ has destination.now self.old.places }
        ensures places { self.new.places ≡ changed (with_mode mode) destination.now self.old.places }
        ensures room { self.new.room ≡ self.old.room }
    {
        change_in(&mut self.places, destination, Change::Mode { mode })
    }

    /// Takes all credit, as a flush does at its end; what was sent before still gives some back. False where the
    /// subscription isn't there. Takes no memory.
    pub fn empty(&mut self, destination: &Text) -> bool
        ensures there { result ≡ has destination.now self.old.places }
        ensures places { self.new.places ≡ changed emptied destination.now self.old.places }
        ensures room { self.new.room ≡ self.old.room }
    {
        change_in(&mut self.places, destination, Change::Empty)
    }

    /// Gives back the credit of a message with a body of so many octets, which was sent at that epoch, where the mode
    /// is window and the epoch is still the same. Takes no memory.
    pub fn restore(&mut self, destination: &Text, epoch: u64, octets: u64)
        ensures places { self.new.places ≡ changed (restored epoch octets) destination.now self.old.places }
        ensures room { self.new.room ≡ self.old.room }
    {
        change_in(
            &mut self.places,
            destination,
            Change::Restore { epoch, octets },
        );
    }

    /// Sets the number of the copy that was browsed last, at a place. Takes no memory.
    pub fn browse(&mut self, place: usize, number: u64)
        requires { place < length self.old.places }
        ensures places { self.new.places ≡ at_place (browsed number) place self.old.places }
        ensures room { self.new.room ≡ self.old.room }
    {
        change_at(&mut self.places, place, Change::Browse { number });
    }

    /// Takes the credit of a message with a body of so many octets, lets the subscription go last, and gives its
    /// epoch. Takes no memory.
    pub fn spend(&mut self, destination: &Text, octets: u64) -> u64
        requires { CanSpend destination.now octets self.old.places }
        ensures epoch { result ≡ epoch_of destination.now self.old.places }
        ensures places { self.new.places ≡ moved (spent_by octets) destination.now self.old.places }
        ensures room { self.new.room ≡ self.old.room }
    {
        spend_in(&mut self.places, destination, octets)
    }
}

/// The place of a destination.
fn find(places: &VecDeque<SubState>, destination: &Text) -> Option<usize>
    ensures { result ≡ position (is_for destination.now) places.now.items }
{
    places
        .iter()
        .position(|state| state.sub.destination == *destination)
}

/// Whether the subscription of a destination is there.
fn has_in(places: &VecDeque<SubState>, destination: &Text) -> bool
    ensures { result ≡ has destination.now places.now.items }
{
    match find(places, destination) {
        Some(_) => true,
        None => false,
    }
}

/// Whether it is there and its credit suffices.
fn can_spend_in(places: &VecDeque<SubState>, destination: &Text, octets: u64) -> bool
    ensures { result ≡ can_spend destination.now octets places.now.items }
{
    let Some(place) = find(places, destination) else {
        return false;
    };
    let Some(state) = places.get(place) else {
        unreachable!();
    };
    state.takes(Some(octets))
}

/// Changes the subscription of a destination; false where it isn't there.
fn change_in(places: &mut VecDeque<SubState>, destination: &Text, change: Change) -> bool
    ensures there { result ≡ has destination.now places.old.items }
    ensures places { places.new.items ≡ changed (changed_by change) destination.now places.old.items }
    ensures len { deque_len places.new ≡ deque_len places.old }
    ensures capacity { deque_capacity places.new ≡ deque_capacity places.old }
{
    match find(places, destination) {
        Some(place) => {
            change_at(places, place, change);
            true
        }
        None => false,
    }
}

/// Changes the subscription at a place.
fn change_at(places: &mut VecDeque<SubState>, place: usize, change: Change)
    ensures places { places.new.items ≡ at_place (changed_by change) place places.old.items }
    ensures len { deque_len places.new ≡ deque_len places.old }
    ensures capacity { deque_capacity places.new ≡ deque_capacity places.old }
{
    if let Some(state) = places.get_mut(place) {
        state.change(change);
    }
}

/// Removes the subscription of a destination; false where it isn't there.
fn cancel_in(places: &mut VecDeque<SubState>, destination: &Text) -> bool
    ensures there { result ≡ has destination.now places.old.items }
    ensures places { places.new.items ≡ removed destination.now places.old.items }
    ensures len { deque_len places.new ≤ deque_len places.old }
    ensures capacity { deque_capacity places.new ≡ deque_capacity places.old }
{
    match find(places, destination) {
        Some(place) => {
            let Some(_) = places.remove(place) else {
                unreachable!();
            };
            true
        }
        None => false,
    }
}

/// Takes credit of the subscription of a destination, lets it go last, and gives its epoch.
fn spend_in(places: &mut VecDeque<SubState>, destination: &Text, octets: u64) -> u64
    requires { CanSpend destination.now octets places.old.items }
    ensures epoch { result ≡ epoch_of destination.now places.old.items }
    ensures places { places.new.items ≡ moved (spent_by octets) destination.now places.old.items }
    ensures len { deque_len places.new ≡ deque_len places.old }
    ensures capacity { deque_capacity places.new ≡ deque_capacity places.old }
{
    let Some(place) = find(places, destination) else {
        unreachable!();
    };
    let Some(state) = places.remove(place) else {
        unreachable!();
    };
    let state = state.spent(octets);
    let epoch = state.epoch;
    places.push_back_reserved(state);
    epoch
}

/// The first place that can take what is offered to it.
fn first_ready(places: &VecDeque<SubState>, offers: &[Option<u64>]) -> Option<usize>
    ensures { result ≡ ready places.now.items offers.now }
{
    for place in 0..places.len() {
        let Some(state) = places.get(place) else {
            unreachable!();
        };
        let Some(offer) = offers.get(place) else {
            return None;
        };
        if state.takes(*offer) {
            return Some(place);
        }
    }
    None
}
