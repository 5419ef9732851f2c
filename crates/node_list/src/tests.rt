//! Lists as queues have them: put, held, let go and taken out in any order.
ghost use Rattle.std.specs.Prelude.{◌≡◌, ◌<◌};

use crate::{Lists, Steps};
use octet_reading::NoMemory;
use std::alloc::Global;
use std::marker::Brand;
use std::sync::ledger::{Blank, Ledger};
use std::test::Fail;

/// No list is longer in these tests.
const LONGEST: usize = 16;

/// The items of a list, or of a holder's list, from its first on.
fn items<L: Ledger>(
    lists: &Lists<u32>,
    list: usize,
    alloc: Global,
    steps: &mut Steps<L>,
) -> Result<Vec<u32>, NoMemory> {
    let mut items = Vec::new(alloc);
    if list >= lists.lists() {
        return Ok(items);
    }
    let mut at = lists.first(list);
    for _ in 0..LONGEST {
        let Some(key) = at else {
            return Ok(items);
        };
        if !lists.contains(key) {
            return Ok(items);
        }
        items.push(*lists.get(key, steps))?;
        at = lists.next(key, steps);
    }
    Ok(items)
}

/// The item that a holder has had longest; 0 for none.
fn first_held<L: Ledger>(lists: &Lists<u32>, holder: usize, steps: &mut Steps<L>) -> u32 {
    if holder >= lists.lists() {
        return 0;
    }
    match lists.first_held(holder) {
        Some(key) => *lists.get(key, steps),
        None => 0,
    }
}

/// Puts an item last, and gives its key.
fn push<L: Ledger>(
    lists: &mut Lists<u32>,
    list: usize,
    item: u32,
    steps: &mut Steps<L>,
) -> Result<usize, NoMemory> {
    lists.reserve(1)?;
    if list >= lists.lists() {
        return Ok(0);
    }
    Ok(lists.push_back(list, item, steps))
}

/// Holds a node that is there and that nobody holds.
fn hold<L: Ledger>(lists: &mut Lists<u32>, key: usize, holder: usize, steps: &mut Steps<L>) {
    if holder >= lists.lists() || !lists.contains(key) {
        return;
    }
    if lists.holder(key, steps).is_none() {
        lists.hold(key, holder, steps);
    }
}

/// Lets a node go that is there.
fn let_go<L: Ledger>(lists: &mut Lists<u32>, key: usize, steps: &mut Steps<L>) {
    if lists.contains(key) {
        lists.let_go(key, steps);
    }
}

/// Takes a node out, and gives its item; 0 for none.
fn unlink<L: Ledger>(lists: &mut Lists<u32>, key: usize, steps: &mut Steps<L>) -> u32 {
    if lists.contains(key) {
        lists.unlink(key, steps)
    } else {
        0
    }
}

/// What is left of five items after the third, the first and the last were taken out, a sixth was put before the
/// second, and one was written.
fn keep_order<L: Ledger>(alloc: Global, blank: Blank) -> Result<Vec<u32>, NoMemory>
    requires name { blank.name ≡ L.name }
    requires parts { blank.parts ≡ L.parts }
    requires some { 0 < L.parts }
{
    let mut steps = Steps::<L>::open(blank);
    let mut lists = Lists::new(alloc, 2)?;
    let one = push(&mut lists, 1, 1, &mut steps)?;
    let two = push(&mut lists, 1, 2, &mut steps)?;
    let three = push(&mut lists, 1, 3, &mut steps)?;
    let four = push(&mut lists, 1, 4, &mut steps)?;
    let five = push(&mut lists, 1, 5, &mut steps)?;
    unlink(&mut lists, three, &mut steps);
    unlink(&mut lists, one, &mut steps);
    unlink(&mut lists, five, &mut steps);
    lists.reserve(1)?;
    if lists.contains(two) {
        lists.insert_before(two, 6, &mut steps);
    }
    if lists.contains(four) {
        *lists.get_mut(four, &mut steps) = 40;
    }
    items(&lists, 1, alloc, &mut steps)
}

#[test]
fn a_list_keeps_its_order_wherever_nodes_come_and_go(rt: HostRuntime) -> Result<(), Fail> {
    assert_eq!(rt;
        keep_order::<Brand>(rt.alloc(), Blank::new(1))?.as_slice(),
        &[6, 2, 40][..]
    );
    Ok(())
}

/// The first one of a holder after each of: three are held, the first is let go, the second is taken out, and the
/// first is held again.
fn keep_holders<L: Ledger>(alloc: Global, blank: Blank) -> Result<[u32; 4], NoMemory>
    requires name { blank.name ≡ L.name }
    requires parts { blank.parts ≡ L.parts }
    requires some { 0 < L.parts }
{
    let mut steps = Steps::<L>::open(blank);
    let mut lists = Lists::new(alloc, 1)?;
    lists.widen(1)?;
    let one = push(&mut lists, 0, 1, &mut steps)?;
    let two = push(&mut lists, 0, 2, &mut steps)?;
    let three = push(&mut lists, 0, 3, &mut steps)?;
    hold(&mut lists, two, 1, &mut steps);
    hold(&mut lists, one, 1, &mut steps);
    hold(&mut lists, three, 1, &mut steps);
    let all = first_held(&lists, 1, &mut steps);
    let_go(&mut lists, two, &mut steps);
    let less = first_held(&lists, 1, &mut steps);
    unlink(&mut lists, one, &mut steps);
    let last = first_held(&lists, 1, &mut steps);
    let_go(&mut lists, three, &mut steps);
    Ok([all, less, last, first_held(&lists, 1, &mut steps)])
}

#[test]
fn a_holder_has_first_what_it_has_had_longest(rt: HostRuntime) -> Result<(), Fail> {
    assert_eq!(rt;
        keep_holders::<Brand>(rt.alloc(), Blank::new(1))?,
        [2, 1, 3, 0]
    );
    Ok(())
}
