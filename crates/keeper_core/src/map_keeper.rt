//! A keeper in memory.
ghost use Rattle.std.specs.Prelude.{◌≡◌, ℕ, List, [], ◌++◌, Some, None, IfOk, OnOk, OnErr};
ghost use Rattle.keeper_core.specs.Keeper.{one_more};
ghost use Rattle.keeper_core.specs.Kept.{Kept, rows_in, answers_upto, key_of, HasPlace, HasRoom};
ghost use Rattle.keeper_core.specs.declared.row.Change.{Change};
ghost use Rattle.keeper_core.specs.Rows.{change_by, changed, IsRising};

use crate::keeper::{Keeper, KeeperFault};
use crate::row::{Change, Changes, Row, Rows};
use octet_reading::{NoMemory, Octets};
use outside_core::Calls;
use std::alloc::Global;
use std::collections::BTreeMap;
use std::marker::Model;

/// A keeper over a table in memory, whose calls of given numbers fail.
#[derive(Drop)]
pub struct MapKeeper {
    alloc: Global,
    /// The contents by their keys; none where room was made for a row that isn't there.
    table: BTreeMap<Octets, Option<Octets>>,
    applies: u64,
    lists: u64,
    failing_applies: Calls,
    failing_lists: Calls,
    list_faults: u64,
    apply_faults: u64,
    writes: u64,
}

impl Model for MapKeeper {
    ghost use Rattle.keeper_core.specs.Kept.{Kept, rows_in, answers_upto};

    ghost Value = { Kept };

    ghost view = { λ k. record {
      rows = rows_in k.table.entries;
      answers = answers_upto k.failing_applies k.applies;
      list_faults = k.list_faults;
      apply_faults = k.apply_faults;
      writes = k.writes;
      failing_applies = k.failing_applies;
      failing_lists = k.failing_lists;
    } };
}

impl MapKeeper {
    /// A keeper without rows, which fails the apply calls and the list calls of these numbers.
    ///
    /// Each kind is counted from 1 by itself. A call that lacked memory isn't counted.
    pub fn new(alloc: Global, applies: Calls, lists: Calls) -> MapKeeper
        ensures rows { result.rows ≡ [] }
        ensures answers { result.answers ≡ Some [] }
        ensures list_faults { result.list_faults ≡ 0 }
        ensures apply_faults { result.apply_faults ≡ 0 }
        ensures writes { result.writes ≡ 0 }
        ensures failing_applies { result.failing_applies ≡ applies }
        ensures failing_lists { result.failing_lists ≡ lists }
    {
        MapKeeper {
            alloc,
            table: BTreeMap::new(alloc),
            applies: 0,
            lists: 0,
            failing_applies: applies,
            failing_lists: lists,
            list_faults: 0,
            apply_faults: 0,
            writes: 0,
        }
    }
}

/// A copy of all rows.
fn rows_of(alloc: Global, table: &BTreeMap<Octets, Option<Octets>>) -> Result<Vec<Row>, NoMemory>
    ensures rows { IfOk result (λ rows. rows.items ≡ rows_in table.now.entries) }
    ensures rising { OnOk result (IsRising (rows_in table.now.entries)) }
{
    let mut rows = Vec::new(alloc);
    for (key, content) in table.iter() {
        if let Some(content) = content {
            let key = key.copied(alloc)?;
            let content = content.copied(alloc)?;
            rows.push(Row { key, content })?;
        }
    }
    Ok(rows)
}

/// The key that a change names.
fn key_of(change: &Change) -> &Octets
    ensures { result.now ≡ key_of change.now }
{
    match change {
        Change::Put(row) => &row.key,
        Change::Drop(key) => key,
    }
}

/// A copy of a change.
fn copied(alloc: Global, change: &Change) -> Result<Change, NoMemory>
    ensures { IfOk result (λ copy. copy ≡ change.now) }
{
    match change {
        Change::Put(row) => {
            let key = row.key.copied(alloc)?;
            let content = row.content.copied(alloc)?;
            Ok(Change::Put(Row { key, content }))
        }
        Change::Drop(key) => Ok(Change::Drop(key.copied(alloc)?)),
    }
}

/// Copies of changes.
fn copies(alloc: Global, changes: &[Change]) -> Result<Vec<Change>, NoMemory>
    ensures { IfOk result (λ copies. copies.items ≡ changes.now) }
{
    let mut copies = Vec::new(alloc);
    for change in changes {
        copies.push(copied(alloc, change)?)?;
    }
    Ok(copies)
}

/// Makes room for the row that a change puts.
fn make_place(
    alloc: Global,
    table: &mut BTreeMap<Octets, Option<Octets>>,
    change: &Change,
) -> Result<(), NoMemory>
    ensures rows { rows_in table.new.entries ≡ rows_in table.old.entries }
    ensures room { OnOk result (HasPlace table.new.entries change.now) }
    ensures stays { (other : Change) → HasPlace table.old.entries other → HasPlace table.new.entries other }
{
    if let Change::Put(row) = change {
        if !table.contains_key(&row.key) {
            table.insert(row.key.copied(alloc)?, None)?;
        }
    }
    Ok(())
}

/// Makes room for all rows that are put.
fn make_room(
    alloc: Global,
    table: &mut BTreeMap<Octets, Option<Octets>>,
    changes: &[Change],
) -> Result<(), NoMemory>
    ensures rows { rows_in table.new.entries ≡ rows_in table.old.entries }
    ensures room { OnOk result (HasRoom table.new.entries changes.now) }
{
    for change in changes {
        make_place(alloc, table, change)?;
    }
    Ok(())
}

/// Does one change, for which there is room. Takes no memory.
fn act(table: &mut BTreeMap<Octets, Option<Octets>>, change: Change)
    ensures rows { HasPlace table.old.entries change → rows_in table.new.entries ≡ change_by (rows_in table.old.entries) change }
    ensures stays { (other : Change) → HasPlace table.old.entries change → HasPlace table.old.entries other → HasPlace table.new.entries other }
{
    match change {
        Change::Put(row) => {
            let Row { key, content } = row;
            let _ = table.insert(key, Some(content));
        }
        Change::Drop(key) => {
            if let Some(content) = table.get_mut(&key) {
                *content = None;
            }
        }
    }
}

/// Does changes for which there is room, in their order. Takes no memory.
fn act_each(table: &mut BTreeMap<Octets, Option<Octets>>, changes: Vec<Change>)
    ensures { HasRoom table.old.entries changes.items → rows_in table.new.entries ≡ changed (rows_in table.old.entries) changes.items }
{
    for change in changes {
        act(table, change);
    }
}

/// Lets go of the places, among those that the changes name, where no row is.
fn sweep(table: &mut BTreeMap<Octets, Option<Octets>>, changes: &[Change])
    ensures { rows_in table.new.entries ≡ rows_in table.old.entries }
{
    for change in changes {
        clear(table, key_of(change));
    }
}

/// Lets go of a place where no row is.
fn clear(table: &mut BTreeMap<Octets, Option<Octets>>, key: &Octets)
    ensures { rows_in table.new.entries ≡ rows_in table.old.entries }
{
    if let Some(None) = table.get(key) {
        table.remove(key);
    }
}

/// Does all changes, or none.
fn act_all(
    alloc: Global,
    table: &mut BTreeMap<Octets, Option<Octets>>,
    changes: &[Change],
) -> Result<(), NoMemory>
    ensures ok { OnOk result (rows_in table.new.entries ≡ changed (rows_in table.old.entries) changes.now) }
    ensures err { OnErr result (rows_in table.new.entries ≡ rows_in table.old.entries) }
{
    let copies = copies(alloc, changes)?;
    let made = make_room(alloc, table, changes);
    if made.is_ok() {
        act_each(table, copies);
    }
    sweep(table, changes);
    made
}

/// One call more, as far as can be counted.
fn one_more(count: u64) -> u64
    ensures { result ≡ one_more count }
{
    count.saturating_add(1)
}

impl Keeper for MapKeeper {
    ghost rows = { λ k. Some k.rows };

    ghost may_give = { λ k given. given ≡ k.rows };

    ghost answers = { λ k. k.answers };

    ghost list_faults = { λ k. k.list_faults };

    ghost apply_faults = { λ k. k.apply_faults };

    ghost writes = { λ k. k.writes };

    fn list(&mut self) -> Result<Rows, KeeperFault> {
        let calls = one_more(self.lists);
        if self.failing_lists.contains(calls) {
            self.lists = calls;
            self.list_faults = one_more(self.list_faults);
            return Err(KeeperFault::Failed);
        }
        match rows_of(self.alloc, &self.table) {
            Ok(rows) => {
                self.lists = calls;
                Ok(Rows::from_vec(rows))
            }
            Err(NoMemory) => Err(KeeperFault::NoMemory),
        }
    }

    fn apply(&mut self, changes: &Changes) -> Result<(), KeeperFault> {
        let calls = one_more(self.applies);
        if self.failing_applies.contains(calls) {
            self.applies = calls;
            self.apply_faults = one_more(self.apply_faults);
            return Err(KeeperFault::Failed);
        }
        match act_all(self.alloc, &mut self.table, changes.as_slice()) {
            Ok(()) => {
                self.applies = calls;
                self.writes = one_more(self.writes);
                Ok(())
            }
            Err(NoMemory) => Err(KeeperFault::NoMemory),
        }
    }
}
