//! The copies of one queue, and one session that holds them.
ghost use Rattle.std.specs.Prelude.{◌≡◌, ◌<◌};

use node_list::Steps;
use octet_reading::{NoMemory, Text};
use queue_copies::{Copies, Holder, QueueCopy};
use std::alloc::Global;
use std::marker::Brand;
use std::sync::ledger::{Blank, Ledger};

/// Adds a copy with the next number.
fn add<L: Ledger>(
    copies: &mut Copies,
    alloc: Global,
    steps: &mut Steps<L>,
) -> Result<(), NoMemory> {
    copies.reserve(1)?;
    let last = copies.greatest();
    let copy = QueueCopy {
        number: last.saturating_add(1),
        redelivered: false,
        exchange: Text::from_text(alloc, "")?,
        header: None,
        body: None,
    };
    if copies.lists() > 0 && last < copy.number {
        copies.add(0, copy, steps);
    }
    Ok(())
}

/// The first available number.
fn first(copies: &Copies) -> Option<u64> {
    if copies.lists() == 0 {
        return None;
    }
    copies.first_available(0, 0)
}

/// Gives a copy to the session.
fn acquire<L: Ledger>(copies: &mut Copies, number: u64, steps: &mut Steps<L>) {
    if copies.lists() > 1 && copies.contains(number) {
        let holder = Holder::Session {
            session: 1,
            transfer: number,
        };
        drop(copies.hold(number, holder, 1, steps));
    }
}

fn release<L: Ledger>(copies: &mut Copies, number: u64, steps: &mut Steps<L>) {
    if copies.contains(number) {
        drop(copies.let_go(number, true, steps));
    }
}

/// Takes a copy out, and tells whether it was there.
fn accept<L: Ledger>(copies: &mut Copies, number: u64, steps: &mut Steps<L>) -> bool {
    if !copies.contains(number) {
        return false;
    }
    drop(copies.remove(number, steps));
    true
}

/// So many copies, of which the session gets the first available one so many times.
fn filled<L: Ledger>(alloc: Global, rounds: u32, steps: &mut Steps<L>) -> Result<Copies, NoMemory> {
    let mut copies = Copies::new(alloc, 2)?;
    for _ in 0..rounds {
        add(&mut copies, alloc, steps)?;
    }
    for _ in 0..rounds {
        if let Some(number) = first(&copies) {
            acquire(&mut copies, number, steps);
        }
    }
    Ok(copies)
}

fn circle_by<L: Ledger>(alloc: Global, rounds: u32, blank: Blank) -> Result<u64, NoMemory>
    requires name { blank.name ≡ L.name }
    requires parts { blank.parts ≡ L.parts }
    requires some { 0 < L.parts }
{
    let mut steps = Steps::<L>::open(blank);
    let mut copies = filled(alloc, rounds, &mut steps)?;
    for round in 0..rounds {
        release(&mut copies, crate::shuffled(round, rounds), &mut steps);
        let _ = first(&copies);
    }
    let mut accepted: u64 = 0;
    for round in 0..rounds {
        if accept(&mut copies, crate::shuffled(round, rounds), &mut steps) {
            accepted = accepted.saturating_add(1);
        }
    }
    Ok(accepted)
}

fn leaves_by<L: Ledger>(alloc: Global, rounds: u32, blank: Blank) -> Result<u64, NoMemory>
    requires name { blank.name ≡ L.name }
    requires parts { blank.parts ≡ L.parts }
    requires some { 0 < L.parts }
{
    let mut steps = Steps::<L>::open(blank);
    let mut copies = filled(alloc, rounds, &mut steps)?;
    let mut released: u64 = 0;
    for _ in 0..rounds {
        if copies.lists() < 2 {
            break;
        }
        let Some(number) = copies.first_held(1, &mut steps) else {
            break;
        };
        release(&mut copies, number, &mut steps);
        released = released.saturating_add(1);
    }
    Ok(released)
}

/// So many copies added, acquired, released in another order, each time with the first available one asked for, and
/// accepted; gives how many were.
pub(crate) fn circle(alloc: Global, rounds: u32) -> Result<u64, NoMemory> {
    circle_by::<Brand>(alloc, rounds, Blank::new(1))
}

/// So many copies added, acquired, and released as the session's end does it; gives how many were.
pub(crate) fn leaves(alloc: Global, rounds: u32) -> Result<u64, NoMemory> {
    leaves_by::<Brand>(alloc, rounds, Blank::new(1))
}
