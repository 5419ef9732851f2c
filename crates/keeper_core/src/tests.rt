//! A keeper in memory, with ample memory.
use crate::{Calls, Change, Changes, Keeper, KeeperFault, MapKeeper, Row, Rows};
use octet_reading::Octets;
use std::alloc::Global;
use std::test::Fail;

/// A row of two short texts.
fn row(alloc: Global, key: &str, content: &str) -> Result<Row, Fail> {
    let key = Octets::from_slice(alloc, key.as_bytes())?;
    let content = Octets::from_slice(alloc, content.as_bytes())?;
    Ok(Row { key, content })
}

/// Whether the rows are these.
fn are(rows: &Rows, wanted: &[(&str, &str)]) -> bool {
    rows.as_slice().len() == wanted.len()
        && rows.as_slice().iter().zip(wanted.iter()).all(|(row, (key, content))| {
            row.key.as_slice() == key.as_bytes() && row.content.as_slice() == content.as_bytes()
        })
}

#[test]
fn changes_act_in_their_order(rt: HostRuntime) -> Result<(), Fail> {
    let alloc = rt.alloc();
    let none = Calls::from_vec(Vec::new(alloc));
    let mut keeper = MapKeeper::new(alloc, none, Calls::from_vec(Vec::new(alloc)));
    let mut changes = Vec::new(alloc);
    changes.push(Change::Put(row(alloc, "b", "1")?))?;
    changes.push(Change::Put(row(alloc, "a", "2")?))?;
    changes.push(Change::Drop(Octets::from_slice(alloc, b"b")?))?;
    changes.push(Change::Put(row(alloc, "c", "3")?))?;
    changes.push(Change::Put(row(alloc, "a", "4")?))?;
    changes.push(Change::Drop(Octets::from_slice(alloc, b"d")?))?;
    assert!(rt; keeper.apply(&Changes::from_vec(changes)).is_ok());
    match keeper.list() {
        Ok(rows) => assert!(rt; are(&rows, [("a", "4"), ("c", "3")].as_slice())),
        Err(_) => assert!(rt; false),
    }
    Ok(())
}

#[test]
fn a_failing_call_changes_nothing(rt: HostRuntime) -> Result<(), Fail> {
    let alloc = rt.alloc();
    let applies = Calls::from_vec(Vec::from_slice(alloc, [1].as_slice())?);
    let lists = Calls::from_vec(Vec::from_slice(alloc, [2].as_slice())?);
    let mut keeper = MapKeeper::new(alloc, applies, lists);
    let mut changes = Vec::new(alloc);
    changes.push(Change::Put(row(alloc, "a", "1")?))?;
    let changes = Changes::from_vec(changes);
    assert_eq!(rt; keeper.apply(&changes), Err(KeeperFault::Failed));
    match keeper.list() {
        Ok(rows) => assert!(rt; are(&rows, [].as_slice())),
        Err(_) => assert!(rt; false),
    }
    assert_eq!(rt; keeper.apply(&changes), Ok(()));
    assert_eq!(rt; keeper.list().err(), Some(KeeperFault::Failed));
    match keeper.list() {
        Ok(rows) => assert!(rt; are(&rows, [("a", "1")].as_slice())),
        Err(_) => assert!(rt; false),
    }
    Ok(())
}
