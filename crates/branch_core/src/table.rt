//! Branches in order.
ghost use Rattle.std.specs.Prelude.{◌≡◌, ◌≤◌, ◌<◌, ◌+◌, None, Some, IfSome, IfOk, OnOk, position, length, is_some, true, false};
ghost use Rattle.std.specs.Option.{option_map};
ghost use Rattle.std.specs.List.{list_any};
ghost use Rattle.number_tree.specs.Numbers.{has};
ghost use Rattle.sorted_map.specs.Map.{changed, changed_at, seen, value_at, index_of};
ghost use Rattle.branch_core.specs.Xids.{xid_order, find, put, out};
ghost use Rattle.branch_core.specs.Held.{held, fresh, joined, given, emptied, intents_of, is_undone, changed_by};
ghost use Rattle.branch_core.specs.State.{branches_of, intent_rooms, room_in};
ghost use Rattle.branch_core.specs.Acts.{is_undone_at, names_at, prepared_xids};
ghost use Rattle.branch_core.specs.Faults.{status_in, prepared_in, associated_in, linked_in, standing_in};

use crate::branch::{Branch, Change};
use crate::marks::{Standing, Status, Xids};
use amqp_values::Xid;
use branch_intents::{Intent, Intents};
use number_tree::Slot;
use octet_reading::{NoMemory, Text};
use sorted_map::SortedMap;
use std::alloc::Global;

/// The branch with a name.
pub(crate) fn branch<'a>(branches: &'a SortedMap<Xid, Branch>, xid: &Xid) -> Option<&'a Branch>
    ensures { option_map (λ b. held b.now) result ≡ find xid.now (branches_of branches.now.entries) }
{
    branches.get(xid)
}

pub(crate) fn is_there(branches: &SortedMap<Xid, Branch>, xid: &Xid) -> bool
    ensures { result ≡ is_some (find xid.now (branches_of branches.now.entries)) }
{
    branch(branches, xid).is_some()
}

pub(crate) fn status(branches: &SortedMap<Xid, Branch>, xid: &Xid) -> Status
    ensures { result ≡ status_in (find xid.now (branches_of branches.now.entries)) }
{
    match branch(branches, xid) {
        Some(branch) => branch.status,
        None => 0,
    }
}

pub(crate) fn is_prepared(branches: &SortedMap<Xid, Branch>, xid: &Xid) -> bool
    ensures { result ≡ prepared_in (find xid.now (branches_of branches.now.entries)) }
{
    match branch(branches, xid) {
        Some(branch) => branch.prepared,
        None => false,
    }
}

/// The place of a branch that is there, in order of xid, counted from 0.
pub(crate) fn place_of(branches: &SortedMap<Xid, Branch>, xid: &Xid) -> usize
    requires { is_some (find xid.now (branches_of branches.now.entries)) ≡ true }
    ensures place { result ≡ index_of xid_order xid.now (branches_of branches.now.entries) }
    ensures bound { result < length branches.now.entries }
{
    match branches.index_of(xid) {
        Some(place) => place,
        None => unreachable!(),
    }
}

/// Whether any session is associated with a branch.
pub(crate) fn is_associated(branches: &SortedMap<Xid, Branch>, xid: &Xid) -> bool
    ensures { result ≡ associated_in (find xid.now (branches_of branches.now.entries)) }
{
    match branch(branches, xid) {
        Some(branch) => branch.sessions.first().is_some(),
        None => false,
    }
}

/// Whether a session is associated with a branch.
pub(crate) fn is_linked(branches: &SortedMap<Xid, Branch>, xid: &Xid, session: u64) -> bool
    ensures { result ≡ linked_in session (find xid.now (branches_of branches.now.entries)) }
{
    match branch(branches, xid) {
        Some(branch) => branch.sessions.has(session),
        None => false,
    }
}

/// What a branch that is there will do, as a copy.
pub(crate) fn intents(
    branches: &SortedMap<Xid, Branch>,
    alloc: Global,
    xid: &Xid,
) -> Result<Intents, NoMemory>
    requires { is_some (find xid.now (branches_of branches.now.entries)) ≡ true }
    ensures { IfOk result (λ intents. Some intents.items ≡ option_map intents_of (find xid.now (branches_of branches.now.entries))) }
{
    match branch(branches, xid) {
        Some(branch) => branch.intents.copied(alloc),
        None => unreachable!(),
    }
}

pub(crate) fn standing(branches: &SortedMap<Xid, Branch>, xid: &Xid) -> Standing
    ensures { result ≡ standing_in (find xid.now (branches_of branches.now.entries)) }
{
    match branch(branches, xid) {
        Some(branch) => match branch.status {
            0 => {
                if branch.prepared {
                    Standing::Prepared
                } else if branch.sessions.first().is_some() {
                    Standing::Associated
                } else {
                    Standing::Idle
                }
            }
            1 => Standing::RbRollback,
            _ => Standing::RbTimeout,
        },
        None => Standing::Missing,
    }
}

/// Does something to a branch; nothing where it isn't there. The mark that it has then, or 0.
pub(crate) fn change_one(
    branches: &mut SortedMap<Xid, Branch>,
    xid: &Xid,
    change: Change<'_>,
) -> Status
    ensures branches { branches_of branches.new.entries ≡ changed xid_order xid.now (changed_by change.entry) (branches_of branches.old.entries) }
    ensures status { result ≡ status_in (option_map (changed_by change.entry) (find xid.now (branches_of branches.old.entries))) }
{
    match branches.index_of(xid) {
        Some(index) => {
            let branch = branches.value_mut(index);
            branch.change(change);
            branch.status
        }
        None => 0,
    }
}

/// Does something to all branches.
pub(crate) fn change_all(branches: &mut SortedMap<Xid, Branch>, change: Change<'_>)
    ensures { branches_of branches.new.entries ≡ seen (changed_by change.entry) (branches_of branches.old.entries) }
{
    for index in 0..branches.entries().len() {
        branches.value_mut(index).change(change);
    }
}

/// A session joins a branch that it isn't associated with.
pub(crate) fn join(branches: &mut SortedMap<Xid, Branch>, xid: &Xid, session: u64, slot: Slot)
    requires { linked_in session (find xid.now (branches_of branches.old.entries)) ≡ false }
    ensures { branches_of branches.new.entries ≡ changed xid_order xid.now (joined session) (branches_of branches.old.entries) }
{
    match branches.index_of(xid) {
        Some(index) => branches.value_mut(index).join(session, slot),
        None => drop(slot),
    }
}

/// The branch at a place gets an intent more.
pub(crate) fn give(branches: &mut SortedMap<Xid, Branch>, place: usize, intent: Intent)
    requires place { place < length branches.old.entries }
    requires room { 0 < room_in (value_at (intent_rooms branches.old.entries) place) }
    ensures branches { branches_of branches.new.entries ≡ changed_at place (given intent) (branches_of branches.old.entries) }
    ensures room { room_in (value_at (intent_rooms branches.new.entries) place) + 1 ≡ room_in (value_at (intent_rooms branches.old.entries) place) }
{
    branches.value_mut(place).put(intent);
}

/// Makes room for so many more intents in the branch at a place.
pub(crate) fn reserve(
    branches: &mut SortedMap<Xid, Branch>,
    place: usize,
    more: usize,
) -> Result<(), NoMemory>
    requires { place < length branches.old.entries }
    ensures branches { branches_of branches.new.entries ≡ branches_of branches.old.entries }
    ensures kept { branches.new.room ≡ branches.old.room }
    ensures ok { OnOk result (more ≤ room_in (value_at (intent_rooms branches.new.entries) place)) }
{
    branches.value_mut(place).intents.reserve(more)
}

/// A session begins a new branch; its place.
pub(crate) fn begin(
    branches: &mut SortedMap<Xid, Branch>,
    alloc: Global,
    session: u64,
    xid: Xid,
    slot: Slot,
) -> usize
    requires new { find xid (branches_of branches.old.entries) ≡ None }
    requires room { 0 < branches.old.room }
    ensures branches { branches_of branches.new.entries ≡ put xid (fresh session) (branches_of branches.old.entries) }
    ensures len { length branches.new.entries ≡ length branches.old.entries + 1 }
    ensures bound { result ≤ length branches.old.entries }
    ensures place { result ≡ index_of xid_order xid (branches_of branches.old.entries) }
{
    branches.put(xid, Branch::new(alloc, session, slot))
}

/// Takes a branch out; its place and its intents.
pub(crate) fn finish(branches: &mut SortedMap<Xid, Branch>, xid: &Xid) -> (usize, Intents)
    requires { is_some (find xid.now (branches_of branches.old.entries)) ≡ true }
    ensures branches { branches_of branches.new.entries ≡ out xid.now (branches_of branches.old.entries) }
    ensures place { result.0 ≡ index_of xid_order xid.now (branches_of branches.old.entries) }
    ensures bound { result.0 < length branches.old.entries }
    ensures len { length branches.new.entries + 1 ≡ length branches.old.entries }
    ensures intents { Some result.1.items ≡ option_map intents_of (find xid.now (branches_of branches.old.entries)) }
{
    let place = place_of(branches, xid);
    match branches.take(xid) {
        Some((name, branch)) => {
            drop(name);
            (place, into_intents(branch))
        }
        None => unreachable!(),
    }
}

fn into_intents(branch: Branch) -> Intents
    ensures { result.items ≡ (held branch).intents }
{
    let Branch {
        sessions,
        intents,
        ..
    } = branch;
    drop(sessions);
    intents
}

/// Takes the intents of the branch at a place out.
pub(crate) fn take(branches: &mut SortedMap<Xid, Branch>, alloc: Global, place: usize) -> Intents
    requires { place < length branches.old.entries }
    ensures intents { Some result.items ≡ option_map intents_of (value_at (branches_of branches.old.entries) place) }
    ensures branches { branches_of branches.new.entries ≡ changed_at place emptied (branches_of branches.old.entries) }
{
    branches.value_mut(place).take(alloc)
}

/// The place of the first branch that is marked and has intents.
pub(crate) fn undone(entries: &[(Xid, Branch)]) -> Option<usize>
    ensures place { result ≡ position is_undone_at (branches_of entries.now) }
    ensures bound { IfSome result (λ place. place < length entries.now) }
{
    first_undone(entries)
}

fn first_undone(entries: &[(Xid, Branch)]) -> Option<usize>
    ensures place { result ≡ position (λ e. is_undone (held e.1)) entries.now }
    ensures bound { IfSome result (λ place. place < length entries.now) }
{
    entries.iter().position(|entry| entry.1.is_undone())
}

/// Whether a prepared branch names a queue.
pub(crate) fn names(entries: &[(Xid, Branch)], queue: &Text) -> bool
    ensures { result ≡ list_any (names_at queue.now) (branches_of entries.now) }
{
    let mut rest = entries;
    while let Some((entry, more)) = rest.split_first() {
        if entry.1.names(queue) {
            return true;
        }
        rest = more;
    }
    false
}

/// The names of the prepared branches, in order.
pub(crate) fn prepared(entries: &[(Xid, Branch)], alloc: Global) -> Result<Xids, NoMemory>
    ensures { IfOk result (λ xids. xids.items ≡ prepared_xids (branches_of entries.now)) }
{
    let mut xids = Vec::new(alloc);
    let mut rest = entries;
    while let Some((entry, more)) = rest.split_first() {
        if entry.1.prepared {
            xids.push(entry.0.copied(alloc)?)?;
        }
        rest = more;
    }
    Ok(xids)
}
