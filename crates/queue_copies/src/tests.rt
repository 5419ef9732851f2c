//! Copies as queues have them: added, held, released, accepted and purged.
ghost use Rattle.std.specs.Prelude.{◌≡◌, ◌<◌};

use crate::{Copies, Holder, QueueCopy};
use node_list::Steps;
use octet_reading::{NoMemory, Text};
use std::alloc::Global;
use std::marker::Brand;
use std::sync::ledger::{Blank, Ledger};
use std::test::Fail;

/// Adds a copy to a list that is there, where its number is the greatest.
fn add<L: Ledger>(
    copies: &mut Copies,
    list: usize,
    number: u64,
    alloc: Global,
    steps: &mut Steps<L>,
) -> Result<(), NoMemory> {
    copies.reserve(1)?;
    let copy = QueueCopy {
        number,
        redelivered: false,
        exchange: Text::from_text(alloc, "x")?,
        header: None,
        body: None,
    };
    if list < copies.lists() && copies.greatest() < number {
        copies.add(list, copy, steps);
    }
    Ok(())
}

/// Gives a copy that is there to a session whose list is the one of this number.
fn hold<L: Ledger>(
    copies: &mut Copies,
    number: u64,
    session: u64,
    lane: usize,
    steps: &mut Steps<L>,
) {
    if lane < copies.lists() && copies.contains(number) {
        let holder = Holder::Session {
            session,
            transfer: 0,
        };
        drop(copies.hold(number, holder, lane, steps));
    }
}

/// The session that had a copy until it was released; 0 for none.
fn let_go<L: Ledger>(
    copies: &mut Copies,
    number: u64,
    redelivered: bool,
    steps: &mut Steps<L>,
) -> u64 {
    if !copies.contains(number) {
        return 0;
    }
    match copies.let_go(number, redelivered, steps) {
        Some(Holder::Session { session, .. }) => session,
        _ => 0,
    }
}

fn remove<L: Ledger>(copies: &mut Copies, number: u64, steps: &mut Steps<L>) {
    if copies.contains(number) {
        drop(copies.remove(number, steps));
    }
}

/// The first available number of a list, and how many copies are available and held.
fn shown(copies: &Copies, list: usize) -> (Option<u64>, u64, u64) {
    if list >= copies.lists() {
        return (None, 0, 0);
    }
    let (available, held) = copies.counts(list);
    (copies.first_available(list, 0), available, held)
}

fn first_held<L: Ledger>(copies: &Copies, lane: usize, steps: &mut Steps<L>) -> Option<u64> {
    if lane >= copies.lists() {
        return None;
    }
    copies.first_held(lane, steps)
}

/// What a list shows after each of: three copies are added, the first two are held, the first is released.
fn release<L: Ledger>(alloc: Global, blank: Blank) -> Result<[(Option<u64>, u64, u64); 3], NoMemory>
    requires name { blank.name ≡ L.name }
    requires parts { blank.parts ≡ L.parts }
    requires some { 0 < L.parts }
{
    let mut steps = Steps::<L>::open(blank);
    let mut copies = Copies::new(alloc, 2)?;
    for number in 1..4 {
        add(&mut copies, 1, number, alloc, &mut steps)?;
    }
    let added = shown(&copies, 1);
    hold(&mut copies, 1, 7, 0, &mut steps);
    hold(&mut copies, 2, 7, 0, &mut steps);
    let held = shown(&copies, 1);
    let_go(&mut copies, 1, false, &mut steps);
    Ok([added, held, shown(&copies, 1)])
}

#[test]
fn a_released_copy_has_its_old_place(rt: HostRuntime) -> Result<(), Fail> {
    assert_eq!(rt;
        release::<Brand>(rt.alloc(), Blank::new(1))?,
        [(Some(1), 3, 0), (Some(3), 1, 2), (Some(1), 2, 1)]
    );
    Ok(())
}

/// The first held copy of a holder after each of: two copies are held, the first is accepted, the list is purged, the
/// second is released by its new holder.
fn leave<L: Ledger>(alloc: Global, blank: Blank) -> Result<[Option<u64>; 5], NoMemory>
    requires name { blank.name ≡ L.name }
    requires parts { blank.parts ≡ L.parts }
    requires some { 0 < L.parts }
{
    let mut steps = Steps::<L>::open(blank);
    let mut copies = Copies::new(alloc, 1)?;
    copies.widen(1)?;
    for number in 1..5 {
        add(&mut copies, 0, number, alloc, &mut steps)?;
    }
    hold(&mut copies, 1, 7, 1, &mut steps);
    hold(&mut copies, 3, 7, 1, &mut steps);
    let both = first_held(&copies, 1, &mut steps);
    remove(&mut copies, 1, &mut steps);
    let one = first_held(&copies, 1, &mut steps);
    let purged = match copies.lists() {
        0 => 0,
        _ => copies.purge(0, &mut steps),
    };
    hold(&mut copies, 3, 8, 0, &mut steps);
    let other = first_held(&copies, 1, &mut steps);
    let holder = let_go(&mut copies, 3, true, &mut steps);
    let again = match copies.get(3, &mut steps) {
        Some(copy) => copy.redelivered,
        None => false,
    };
    let left = if again && copies.get(2, &mut steps).is_none() {
        Some(holder)
    } else {
        None
    };
    Ok([both, one, other, Some(purged), left])
}

#[test]
fn a_purge_leaves_held_copies(rt: HostRuntime) -> Result<(), Fail> {
    assert_eq!(rt;
        leave::<Brand>(rt.alloc(), Blank::new(1))?,
        [Some(1), Some(3), None, Some(2), Some(8)]
    );
    Ok(())
}

/// Numbers of a list, ten times each, and one more where the copy is held.
fn numbers(copies: &Copies, list: usize, alloc: Global) -> Result<Vec<u64>, NoMemory> {
    let mut numbers = Vec::new(alloc);
    if list >= copies.lists() {
        return Ok(numbers);
    }
    for (copy, holder) in copies.iter(list) {
        let held = u64::from(holder.is_some());
        numbers.push(copy.number.saturating_mul(10).saturating_add(held))?;
    }
    Ok(numbers)
}

/// The numbers of a list of which the second copy is held, the first was released, and the third was accepted.
fn listed<L: Ledger>(alloc: Global, blank: Blank) -> Result<Vec<u64>, NoMemory>
    requires name { blank.name ≡ L.name }
    requires parts { blank.parts ≡ L.parts }
    requires some { 0 < L.parts }
{
    let mut steps = Steps::<L>::open(blank);
    let mut copies = Copies::new(alloc, 2)?;
    for number in 1..5 {
        add(&mut copies, 1, number, alloc, &mut steps)?;
    }
    add(&mut copies, 0, 5, alloc, &mut steps)?;
    hold(&mut copies, 1, 7, 0, &mut steps);
    hold(&mut copies, 2, 7, 0, &mut steps);
    let_go(&mut copies, 1, true, &mut steps);
    remove(&mut copies, 3, &mut steps);
    numbers(&copies, 1, alloc)
}

#[test]
fn copies_come_by_rising_number(rt: HostRuntime) -> Result<(), Fail> {
    assert_eq!(rt;
        listed::<Brand>(rt.alloc(), Blank::new(1))?.as_slice(),
        &[10, 21, 40][..]
    );
    Ok(())
}
