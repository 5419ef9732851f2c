//! Numbers of copies as a queue has them: taken from the front, and given back in any order.
use crate::{Numbers, Slot};
use octet_reading::NoMemory;
use std::alloc::Global;
use std::test::Fail;

/// Puts a number in where it isn't there yet.
fn put(numbers: &mut Numbers, alloc: Global, number: u64) -> Result<(), NoMemory> {
    let slot = Slot::new(alloc)?;
    if !numbers.has(number) {
        numbers.put(number, slot);
    }
    Ok(())
}

/// Every so many-th number below 1009 until all were there, from 1 on.
fn shuffled(alloc: Global) -> Result<Numbers, NoMemory> {
    let mut numbers = Numbers::new();
    for step in 1..1009 {
        put(&mut numbers, alloc, (step * 389) % 1009)?;
    }
    Ok(numbers)
}

#[test]
fn numbers_come_in_order(rt: HostRuntime) -> Result<(), Fail> {
    let numbers = shuffled(rt.alloc())?;
    assert_eq!(rt; numbers.first(), Some(1));
    let mut last: u64 = 0;
    for expected in 1..1009 {
        assert_eq!(rt; numbers.first_above(last), Some(expected));
        last = expected;
    }
    assert_eq!(rt; numbers.first_above(last), None);
    Ok(())
}

#[test]
fn a_number_given_back_comes_first_again(rt: HostRuntime) -> Result<(), Fail> {
    let mut numbers = shuffled(rt.alloc())?;
    assert!(rt; numbers.take(0).is_none());
    put(&mut numbers, rt.alloc(), 0)?;
    assert_eq!(rt; numbers.first(), Some(0));
    assert!(rt; numbers.take(0).is_some());
    assert!(rt; numbers.take(7).is_some());
    assert!(rt; numbers.take(7).is_none());
    assert_eq!(rt; numbers.first_above(6), Some(8));
    put(&mut numbers, rt.alloc(), 7)?;
    assert_eq!(rt; numbers.first_above(6), Some(7));
    for number in 1..1009 {
        assert!(rt; numbers.take(number).is_some());
    }
    assert_eq!(rt; numbers.first_above(0), None);
    assert_eq!(rt; numbers.first(), None);
    Ok(())
}
