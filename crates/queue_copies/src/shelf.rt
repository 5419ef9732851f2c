//! What is known of a list's copies without a walk.
ghost use Rattle.std.specs.Prelude.{◌≡◌, ◌+◌, ◌<◌, ◌≤◌, ◌^◌, ◌++◌, [], length, replicate, true, false, is_some, slice_set};
ghost use Rattle.std.specs.Vec.{vec_len, vec_capacity};
ghost use Rattle.number_tree.specs.Numbers.{Rising, has, with_number, without, first_of, first_above};
ghost use Rattle.queue_copies.specs.Shelves.{empty_shelf, shelf_at, shelf_held, shelf_free, shelf_without};
ghost use Rattle.queue_copies.specs.Copied.{holder_of};
ghost use Rattle.queue_copies.specs.Sound.{seen_hold};

use crate::entry::{Held, Holder};
use number_tree::{Numbers, Slot};
use std::marker::Model;

/// The numbers of the copies that are available, and how many copies are held.
#[derive(Debug, Drop)]
pub(crate) struct Shelf {
    numbers: Numbers,
    available: u64,
    held: u64,
}

impl Model for Shelf {
    ghost use Rattle.std.specs.Prelude.{◌≡◌, length};
    ghost use Rattle.queue_copies.specs.Shelves.{Shelved};

    ghost Value = { Shelved };

    ghost view = { λ s. record { available = s.numbers; held = s.held } };

    ghost invariant = { λ s. s.available ≡ length s.numbers };
}

impl Shelf {
    pub(crate) fn new() -> Shelf
        ensures available { result.available ≡ [] }
        ensures held { result.held ≡ 0 }
    {
        Shelf {
            numbers: Numbers::new(),
            available: 0,
            held: 0,
        }
    }

    /// Puts the number of a copy in that is available from now on.
    pub(crate) fn put(&mut self, number: u64, slot: Slot)
        requires new { has number self.old.available ≡ false }
        requires few { length self.old.available < 2 ^ 63 }
        ensures available { self.new.available ≡ with_number number self.old.available }
        ensures held { self.new.held ≡ self.old.held }
    {
        self.numbers.put(number, slot);
        self.available += 1;
    }

    /// Takes the number of an available copy out.
    pub(crate) fn take(&mut self, number: u64) -> Slot
        requires there { has number self.old.available ≡ true }
        requires rising { Rising self.old.available }
        ensures available { self.new.available ≡ without number self.old.available }
        ensures held { self.new.held ≡ self.old.held }
    {
        match self.numbers.take(number) {
            Some(slot) => {
                self.available -= 1;
                slot
            }
            None => unreachable!(),
        }
    }

    /// Counts a copy more that is held.
    pub(crate) fn hold(&mut self)
        requires { self.old.held < 2 ^ 63 }
        ensures available { self.new.available ≡ self.old.available }
        ensures held { self.new.held ≡ self.old.held + 1 }
    {
        self.held += 1;
    }

    /// Counts a copy less that is held.
    pub(crate) fn let_go(&mut self)
        requires { 0 < self.old.held }
        ensures available { self.new.available ≡ self.old.available }
        ensures held { self.new.held + 1 ≡ self.old.held }
    {
        self.held -= 1;
    }

    /// The first available number.
    pub(crate) fn first(&self) -> Option<u64>
        ensures { result ≡ first_of self.now.available }
    {
        self.numbers.first()
    }

    /// The first available number above this one.
    pub(crate) fn first_above(&self, number: u64) -> Option<u64>
        ensures { result ≡ first_above number self.now.available }
    {
        self.numbers.first_above(number)
    }

    /// How many copies are available, and how many are held.
    pub(crate) fn counts(&self) -> (u64, u64)
        ensures available { result.0 ≡ length self.now.available }
        ensures held { result.1 ≡ self.now.held }
    {
        (self.available, self.held)
    }
}

/// Puts in what is known of so many empty lists.
pub(crate) fn push_empty(shelves: &mut Vec<Shelf>, lists: usize)
    requires { vec_len shelves.old + lists ≤ vec_capacity shelves.old }
    ensures { shelves.new.items ≡ shelves.old.items ++ replicate lists empty_shelf }
{
    for _ in 0..lists {
        shelves.push_reserved(Shelf::new());
    }
}

/// A copy of a list is held from now on; answers the room for its number, and who held it before.
pub(crate) fn hold_at(
    shelves: &mut Vec<Shelf>,
    list: usize,
    number: u64,
    before: Option<Held>,
) -> (Slot, Option<Holder>)
    requires list { list < length shelves.old.items }
    requires free { is_some before ≡ false → has number (shelf_at shelves.old.items list).available ≡ true }
    requires rising { Rising (shelf_at shelves.old.items list).available }
    requires few { (shelf_at shelves.old.items list).held < 2 ^ 63 }
    ensures shelves { shelves.new.items ≡ slice_set shelves.old.items list (shelf_held (is_some before) number (shelf_at shelves.old.items list)) }
    ensures holder { result.1 ≡ holder_of (seen_hold before) }
{
    match before {
        Some(held) => (held.slot, Some(held.holder)),
        None => {
            let shelf = &mut shelves[list];
            let slot = shelf.take(number);
            shelf.hold();
            (slot, None)
        }
    }
}

/// A copy of a list is available from now on; answers who held it before.
pub(crate) fn free_at(
    shelves: &mut Vec<Shelf>,
    list: usize,
    number: u64,
    before: Option<Held>,
) -> Option<Holder>
    requires list { list < length shelves.old.items }
    requires held { is_some before ≡ true → has number (shelf_at shelves.old.items list).available ≡ false }
    requires few { length (shelf_at shelves.old.items list).available < 2 ^ 63 }
    requires some { is_some before ≡ true → 0 < (shelf_at shelves.old.items list).held }
    ensures shelves { shelves.new.items ≡ slice_set shelves.old.items list (shelf_free (is_some before) number (shelf_at shelves.old.items list)) }
    ensures holder { result ≡ holder_of (seen_hold before) }
{
    match before {
        Some(held) => {
            let shelf = &mut shelves[list];
            shelf.put(number, held.slot);
            shelf.let_go();
            Some(held.holder)
        }
        None => None,
    }
}

/// A copy of a list is gone from now on; answers who held it before.
pub(crate) fn drop_from(
    shelves: &mut Vec<Shelf>,
    list: usize,
    number: u64,
    before: Option<Held>,
) -> Option<Holder>
    requires list { list < length shelves.old.items }
    requires free { is_some before ≡ false → has number (shelf_at shelves.old.items list).available ≡ true }
    requires rising { Rising (shelf_at shelves.old.items list).available }
    requires some { is_some before ≡ true → 0 < (shelf_at shelves.old.items list).held }
    ensures shelves { shelves.new.items ≡ slice_set shelves.old.items list (shelf_without (is_some before) number (shelf_at shelves.old.items list)) }
    ensures holder { result ≡ holder_of (seen_hold before) }
{
    match before {
        Some(held) => {
            shelves[list].let_go();
            Some(held.holder)
        }
        None => {
            drop(shelves[list].take(number));
            None
        }
    }
}
