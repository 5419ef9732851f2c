//! Keys put in and taken out in any order.
use crate::SortedMap;
use octet_reading::NoMemory;
use std::alloc::Global;
use std::test::Fail;

/// Five keys in another order than theirs.
fn filled(alloc: Global) -> Result<SortedMap<u64, u32>, NoMemory> {
    let mut map = SortedMap::new(alloc);
    map.reserve(5)?;
    let keys: [u64; 5] = [40, 10, 50, 30, 20];
    let mut value: u32 = 0;
    for key in keys {
        value = value.wrapping_add(1);
        if map.get(&key).is_none() && map.reserve(1).is_ok() {
            let _ = map.put(key, value);
        }
    }
    Ok(map)
}

/// What the keys stand for, in order, as digits.
fn digits(map: &SortedMap<u64, u32>) -> u32 {
    let mut digits: u32 = 0;
    for entry in map.entries() {
        digits = digits.wrapping_mul(10).wrapping_add(entry.1);
    }
    digits
}

#[test]
fn keys_are_in_order(rt: HostRuntime) -> Result<(), Fail> {
    let map = filled(rt.alloc())?;
    assert_eq!(rt; digits(&map), 25413);
    assert_eq!(rt; map.index_of(&30), Some(2));
    assert_eq!(rt; map.get(&50).copied(), Some(3));
    assert!(rt; map.get(&25).is_none());
    Ok(())
}

#[test]
fn a_key_changes_and_goes_alone(rt: HostRuntime) -> Result<(), Fail> {
    let mut map = filled(rt.alloc())?;
    if let Some(index) = map.index_of(&40) {
        *map.value_mut(index) = 9;
    }
    assert_eq!(rt; digits(&map), 25493);
    assert!(rt; map.take(&10).is_some());
    assert!(rt; map.take(&10).is_none());
    assert_eq!(rt; digits(&map), 5493);
    Ok(())
}
