//! Copies as a broker's sessions have them: acquired, released, accepted, and left at a session's end.
ghost use Rattle.std.specs.Prelude.{◌≡◌, ◌<◌};

use crate::{HeldCopies, Holder, QueueCopy};
use amqp_values::Xid;
use node_list::Steps;
use octet_reading::{NoMemory, Octets, Text};
use std::alloc::Global;
use std::marker::Brand;
use std::sync::ledger::{Blank, Ledger};
use std::test::Fail;

/// Adds a copy to a list that is there, where its number is the greatest.
fn add<L: Ledger>(
    copies: &mut HeldCopies,
    list: usize,
    number: u64,
    alloc: Global,
    steps: &mut Steps<L>,
) -> Result<(), NoMemory> {
    copies.reserve(1)?;
    let copy = QueueCopy {
        number,
        redelivered: false,
        exchange: Text::from_text(alloc, "x")?,
        header: None,
        body: None,
    };
    if list < copies.lists() && copies.greatest() < number {
        copies.add(list, copy, steps);
    }
    Ok(())
}

/// Gives a copy that is there to a session.
fn acquire<L: Ledger>(
    copies: &mut HeldCopies,
    number: u64,
    session: u64,
    steps: &mut Steps<L>,
) -> Result<(), NoMemory> {
    copies.room(0, 1)?;
    if copies.contains(number) {
        let holder = Holder::Session {
            session,
            transfer: 0,
        };
        copies.acquire(number, holder, steps);
    }
    Ok(())
}

/// Puts a copy that is there into a branch.
fn branch<L: Ledger>(copies: &mut HeldCopies, number: u64, alloc: Global, steps: &mut Steps<L>) {
    if copies.contains(number) {
        let xid = Xid {
            format: 1,
            global: Octets::new(alloc),
            branch: Octets::new(alloc),
        };
        copies.acquire(number, Holder::Branch { xid }, steps);
    }
}

fn release<L: Ledger>(copies: &mut HeldCopies, number: u64, steps: &mut Steps<L>) {
    if copies.contains(number) {
        copies.release(number, true, steps);
    }
}

fn accept<L: Ledger>(copies: &mut HeldCopies, number: u64, steps: &mut Steps<L>) {
    if copies.contains(number) {
        copies.accept(number, steps);
    }
}

/// How many copies of a list are available, and how many are held.
fn counts(copies: &HeldCopies, list: usize) -> (u64, u64) {
    if list >= copies.lists() {
        return (0, 0);
    }
    copies.counts(list)
}

/// What two sessions hold after each of: copies 1 and 2 go to the first and 3 to the second, 1 goes into a branch, the
/// first session ends.
fn leave<L: Ledger>(alloc: Global, blank: Blank) -> Result<[Option<u64>; 4], NoMemory>
    requires name { blank.name ≡ L.name }
    requires parts { blank.parts ≡ L.parts }
    requires some { 0 < L.parts }
{
    let mut steps = Steps::<L>::open(blank);
    let mut copies = HeldCopies::new(alloc)?;
    copies.room(1, 0)?;
    for number in 1..4 {
        add(&mut copies, 1, number, alloc, &mut steps)?;
    }
    acquire(&mut copies, 1, 7, &mut steps)?;
    acquire(&mut copies, 2, 7, &mut steps)?;
    acquire(&mut copies, 3, 8, &mut steps)?;
    let both = copies.first_held(7, &mut steps);
    branch(&mut copies, 1, alloc, &mut steps);
    let one = copies.first_held(7, &mut steps);
    release(&mut copies, 2, &mut steps);
    Ok([
        both,
        one,
        copies.first_held(7, &mut steps),
        copies.first_held(8, &mut steps),
    ])
}

#[test]
fn a_session_has_what_it_holds_and_no_more(rt: HostRuntime) -> Result<(), Fail> {
    assert_eq!(rt;
        leave::<Brand>(rt.alloc(), Blank::new(1))?,
        [Some(1), Some(2), None, Some(3)]
    );
    Ok(())
}

/// The counts of a list after each of: two of four copies are held, one of them is accepted, the list is purged, the list
/// is cleared away.
fn clear<L: Ledger>(alloc: Global, blank: Blank) -> Result<[(u64, u64); 4], NoMemory>
    requires name { blank.name ≡ L.name }
    requires parts { blank.parts ≡ L.parts }
    requires some { 0 < L.parts }
{
    let mut steps = Steps::<L>::open(blank);
    let mut copies = HeldCopies::new(alloc)?;
    for number in 1..5 {
        add(&mut copies, 0, number, alloc, &mut steps)?;
    }
    acquire(&mut copies, 2, 7, &mut steps)?;
    acquire(&mut copies, 3, 9, &mut steps)?;
    let held = counts(&copies, 0);
    accept(&mut copies, 3, &mut steps);
    let accepted = counts(&copies, 0);
    if copies.lists() > 0 {
        let _ = copies.purge(0, &mut steps);
    }
    let purged = counts(&copies, 0);
    if copies.lists() > 0 {
        copies.clear(0, &mut steps);
    }
    Ok([held, accepted, purged, counts(&copies, 0)])
}

#[test]
fn a_list_that_is_cleared_leaves_nobody_a_copy(rt: HostRuntime) -> Result<(), Fail> {
    assert_eq!(rt;
        clear::<Brand>(rt.alloc(), Blank::new(1))?,
        [(2, 2), (2, 1), (0, 1), (0, 0)]
    );
    Ok(())
}
