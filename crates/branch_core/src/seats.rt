//! What sessions have selected.
ghost use Rattle.std.specs.Prelude.{◌≡◌, ◌≤◌, ◌<◌, ◌+◌, None, Some, OnOk, is_some, true};
ghost use Rattle.std.specs.Option.{option_map};
ghost use Rattle.std.specs.Ordering.{nat_cmp};
ghost use Rattle.sorted_map.specs.Map.{find, changed, seen};
ghost use Rattle.branch_core.specs.State.{seated, seats_of, tx_rooms, tx_room, dtx_in, tx_in, active_in, tx_room_of};
ghost use Rattle.branch_core.specs.Acts.{selecting, seat_changed_if, tx_given, turned, tx_emptied, empty_seat};

use branch_intents::{Intent, Intents};
use octet_reading::{NoMemory, Text};
use sorted_map::SortedMap;
use std::alloc::Global;

/// What is done to a session's seat.
#[derive(Clone, Copy, Debug)]
pub(crate) enum Turn<'a> {
    /// The session is active in the branch at a place.
    Activate {
        place: usize,
    },
    /// The session is active there no more.
    Leave {
        place: usize,
    },
    /// A branch comes in at a place.
    Push {
        place: usize,
    },
    /// The branch at a place goes.
    Pull {
        place: usize,
    },
    /// A copy, by its number, or a whole queue is gone.
    Gone {
        queue: &'a Text,
        number: Option<u64>,
    },
}

/// What a session has selected.
#[derive(Debug, Drop)]
pub(crate) struct Seat {
    /// What its tx will do, where it has selected tx.
    pub(crate) tx: Option<Intents>,
    /// It has selected dtx.
    pub(crate) dtx: bool,
    /// The place of the branch in which it is active, in order of xid, counted from 0.
    pub(crate) active: Option<usize>,
}

impl Seat {
    fn new() -> Seat
        ensures { seated result ≡ empty_seat }
    {
        Seat {
            tx: None,
            dtx: false,
            active: None,
        }
    }

    fn select(&mut self, alloc: Global, dtx: bool)
        ensures { seated self.new ≡ selecting dtx (seated self.old) }
    {
        if dtx {
            self.dtx = true;
        } else {
            self.tx = Some(Intents::new(alloc));
        }
    }

    fn put(&mut self, intent: Intent)
        requires { 0 < tx_room self.old.tx }
        ensures seated { seated self.new ≡ tx_given intent (seated self.old) }
        ensures room { tx_room self.new.tx + 1 ≡ tx_room self.old.tx }
    {
        match &mut self.tx {
            Some(intents) => intents.put(intent),
            None => unreachable!(),
        }
    }

    fn take(&mut self, alloc: Global) -> Option<Intents>
        ensures intents { option_map (λ i. i.items) result ≡ option_map (λ i. i.items) self.old.tx }
        ensures seated { seated self.new ≡ tx_emptied (seated self.old) }
    {
        match &mut self.tx {
            Some(intents) => Some(intents.take(alloc)),
            None => None,
        }
    }

    fn reserve(&mut self, more: usize) -> Result<(), NoMemory>
        requires { is_some self.old.tx ≡ true }
        ensures seated { seated self.new ≡ seated self.old }
        ensures ok { OnOk result (more ≤ tx_room self.new.tx) }
    {
        match &mut self.tx {
            Some(intents) => intents.reserve(more),
            None => unreachable!(),
        }
    }

    fn turn(&mut self, turn: Turn<'_>)
        ensures { seated self.new ≡ turned turn.entry (seated self.old) }
    {
        match turn {
            Turn::Activate { place } => self.active = Some(place),
            Turn::Leave { place } => {
                if let Some(active) = self.active {
                    if active == place {
                        self.active = None;
                    }
                }
            }
            Turn::Push { place } => {
                if let Some(active) = self.active {
                    if active >= place {
                        self.active = active.checked_add(1);
                    }
                }
            }
            Turn::Pull { place } => {
                if let Some(active) = self.active {
                    if active > place {
                        self.active = Some(active - 1);
                    } else if active == place {
                        self.active = None;
                    }
                }
            }
            Turn::Gone { queue, number } => {
                if let Some(intents) = &mut self.tx {
                    intents.gone(queue, number);
                }
            }
        }
    }
}

/// A session's seat; none where it has selected nothing.
pub(crate) fn seat_of(seats: &SortedMap<u64, Seat>, session: u64) -> Option<&Seat>
    ensures { option_map (λ s. seated s.now) result ≡ find nat_cmp session (seats_of seats.now.entries) }
{
    seats.get(&session)
}

/// Whether a session has selected dtx.
pub(crate) fn has_dtx(seats: &SortedMap<u64, Seat>, session: u64) -> bool
    ensures { result ≡ dtx_in (find nat_cmp session (seats_of seats.now.entries)) }
{
    match seat_of(seats, session) {
        Some(seat) => seat.dtx,
        None => false,
    }
}

/// The intents of a session's tx; none where it has selected none.
pub(crate) fn tx(seats: &SortedMap<u64, Seat>, session: u64) -> Option<&Intents>
    ensures { option_map (λ i. i.now.items) result ≡ tx_in (find nat_cmp session (seats_of seats.now.entries)) }
{
    match seat_of(seats, session) {
        Some(seat) => seat.tx.as_ref(),
        None => None,
    }
}

/// The place of the branch in which a session is active.
pub(crate) fn active(seats: &SortedMap<u64, Seat>, session: u64) -> Option<usize>
    ensures { result ≡ active_in (find nat_cmp session (seats_of seats.now.entries)) }
{
    match seat_of(seats, session) {
        Some(seat) => seat.active,
        None => None,
    }
}

/// The session selects dtx or tx. A session without a seat gets one.
pub(crate) fn select(seats: &mut SortedMap<u64, Seat>, alloc: Global, session: u64, dtx: bool)
    requires { 0 < seats.old.room }
    ensures { seats_of seats.new.entries ≡ seat_changed_if (find nat_cmp session (seats_of seats.old.entries)) session (selecting dtx) (seats_of seats.old.entries) }
{
    match seats.index_of(&session) {
        Some(index) => seats.value_mut(index).select(alloc, dtx),
        None => {
            let mut seat = Seat::new();
            seat.select(alloc, dtx);
            seats.put(session, seat);
        }
    }
}

/// Does something to a session's seat; nothing where it has none.
pub(crate) fn turn_one(seats: &mut SortedMap<u64, Seat>, session: u64, turn: Turn<'_>)
    ensures { seats_of seats.new.entries ≡ changed nat_cmp session (turned turn.entry) (seats_of seats.old.entries) }
{
    if let Some(index) = seats.index_of(&session) {
        seats.value_mut(index).turn(turn);
    }
}

/// Does something to all seats.
pub(crate) fn turn_all(seats: &mut SortedMap<u64, Seat>, turn: Turn<'_>)
    ensures { seats_of seats.new.entries ≡ seen (turned turn.entry) (seats_of seats.old.entries) }
{
    for index in 0..seats.entries().len() {
        seats.value_mut(index).turn(turn);
    }
}

/// A session's tx gets an intent more.
pub(crate) fn give(seats: &mut SortedMap<u64, Seat>, session: u64, intent: Intent)
    requires tx { is_some (tx_in (find nat_cmp session (seats_of seats.old.entries))) ≡ true }
    requires room { 0 < tx_room_of session (tx_rooms seats.old.entries) }
    ensures seats { seats_of seats.new.entries ≡ changed nat_cmp session (tx_given intent) (seats_of seats.old.entries) }
    ensures seat { find nat_cmp session (seats_of seats.new.entries) ≡ option_map (tx_given intent) (find nat_cmp session (seats_of seats.old.entries)) }
    ensures room { tx_room_of session (tx_rooms seats.new.entries) + 1 ≡ tx_room_of session (tx_rooms seats.old.entries) }
{
    match seats.index_of(&session) {
        Some(index) => seats.value_mut(index).put(intent),
        None => unreachable!(),
    }
}

/// Takes the intents of a session's tx out.
pub(crate) fn take(seats: &mut SortedMap<u64, Seat>, alloc: Global, session: u64) -> Option<Intents>
    ensures intents { option_map (λ i. i.items) result ≡ tx_in (find nat_cmp session (seats_of seats.old.entries)) }
    ensures seats { seats_of seats.new.entries ≡ changed nat_cmp session tx_emptied (seats_of seats.old.entries) }
{
    match seats.index_of(&session) {
        Some(index) => seats.value_mut(index).take(alloc),
        None => None,
    }
}

/// Makes room for so many more intents in a session's tx.
pub(crate) fn reserve(
    seats: &mut SortedMap<u64, Seat>,
    session: u64,
    more: usize,
) -> Result<(), NoMemory>
    requires { is_some (tx_in (find nat_cmp session (seats_of seats.old.entries))) ≡ true }
    ensures seats { seats_of seats.new.entries ≡ seats_of seats.old.entries }
    ensures kept { seats.new.room ≡ seats.old.room }
    ensures ok { OnOk result (more ≤ tx_room_of session (tx_rooms seats.new.entries)) }
{
    match seats.index_of(&session) {
        Some(index) => seats.value_mut(index).reserve(more),
        None => unreachable!(),
    }
}
