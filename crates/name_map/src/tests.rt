//! Names as a broker has them: put in and taken out in any order.
use crate::NameMap;
use octet_reading::{NoMemory, Text};
use std::alloc::Global;
use std::test::Fail;

/// Puts a name in where it isn't there yet.
fn put(map: &mut NameMap<u32>, alloc: Global, name: &str, value: u32) -> Result<(), NoMemory> {
    let name = Text::from_text(alloc, name)?;
    map.reserve(1)?;
    if map.get(&name).is_none() {
        map.put(name, value);
    }
    Ok(())
}

/// What a name stands for; 0 for nothing.
fn value(map: &NameMap<u32>, alloc: Global, name: &str) -> Result<u32, NoMemory> {
    let name = Text::from_text(alloc, name)?;
    Ok(match map.get(&name) {
        Some(value) => *value,
        None => 0,
    })
}

#[test]
fn names_come_in_the_order_of_their_octets(rt: HostRuntime) -> Result<(), Fail> {
    let mut map = NameMap::new(rt.alloc());
    for (name, value) in [("b", 1), ("", 2), ("ab", 3), ("a", 4), ("b", 5), ("B", 6)] {
        put(&mut map, rt.alloc(), name, value)?;
    }
    let mut values = Vec::new(rt.alloc());
    for entry in map.entries() {
        values.push(entry.1)?;
    }
    assert_eq!(rt; values.as_slice(), &[2, 6, 4, 3, 1][..]);
    Ok(())
}

#[test]
fn a_name_taken_out_is_gone(rt: HostRuntime) -> Result<(), Fail> {
    let mut map = NameMap::new(rt.alloc());
    for (name, value) in [("queue.1", 1), ("queue.2", 2), ("queue.3", 3)] {
        put(&mut map, rt.alloc(), name, value)?;
    }
    let name = Text::from_text(rt.alloc(), "queue.2")?;
    match map.take(&name) {
        Some((taken, value)) => assert!(rt; taken == name && value == 2),
        None => assert!(rt; false),
    }
    assert!(rt; map.take(&name).is_none());
    assert_eq!(rt; value(&map, rt.alloc(), "queue.1")?, 1);
    assert_eq!(rt; value(&map, rt.alloc(), "queue.2")?, 0);
    assert_eq!(rt; value(&map, rt.alloc(), "queue.3")?, 3);
    Ok(())
}
