//! Names as queues have them: declared and deleted, each with a list of its own.
use crate::NamedLists;
use octet_reading::{NoMemory, Text};
use std::alloc::Global;
use std::test::Fail;

/// Makes room for a name where there is none, and gives it a list; none where the name is there.
fn put(
    lists: &mut NamedLists<u8>,
    alloc: Global,
    name: &str,
    mark: u8,
) -> Result<Option<usize>, NoMemory> {
    let name = Text::from_text(alloc, name)?;
    if lists.free() == 0 {
        lists.reserve(1)?;
        let more = lists.count().saturating_add(1);
        lists.widen(more);
    }
    if lists.free() == 0 || lists.get(&name).is_some() {
        return Ok(None);
    }
    Ok(Some(lists.put(name, mark)))
}

#[test]
fn each_name_has_a_list_of_its_own(rt: HostRuntime) -> Result<(), Fail> {
    let mut lists = NamedLists::new(rt.alloc());
    assert_eq!(rt; put(&mut lists, rt.alloc(), "b", 1)?, Some(0));
    assert_eq!(rt; put(&mut lists, rt.alloc(), "a", 2)?, Some(1));
    assert_eq!(rt; put(&mut lists, rt.alloc(), "b", 3)?, None);
    let mut seen = Vec::new(rt.alloc());
    for entry in lists.entries() {
        seen.push(entry.1)?;
    }
    assert_eq!(rt; seen.as_slice(), &[(2, 1), (1, 0)][..]);
    Ok(())
}

#[test]
fn the_list_of_a_name_that_is_gone_is_given_again(rt: HostRuntime) -> Result<(), Fail> {
    let mut lists = NamedLists::new(rt.alloc());
    for name in ["a", "b", "c"] {
        put(&mut lists, rt.alloc(), name, 0)?;
    }
    let name = Text::from_text(rt.alloc(), "b")?;
    match lists.take(&name) {
        Some(taken) => assert_eq!(rt; taken.1.1, 1),
        None => assert!(rt; false),
    }
    assert!(rt; lists.take(&name).is_none());
    assert!(rt; lists.get(&name).is_none());
    assert_eq!(rt; lists.free(), 1);
    assert_eq!(rt; put(&mut lists, rt.alloc(), "d", 0)?, Some(1));
    Ok(())
}
