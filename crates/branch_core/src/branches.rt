//! The branches.
ghost use Rattle.std.specs.Prelude.{◌≡◌, ℕ, ◌≤◌, ◌<◌, ◌+◌, [], None, Some, IfOk, IfErr, OnOk, OnErr, IsOk, length, is_some, true, false};
ghost use Rattle.std.specs.Option.{option_map};
ghost use Rattle.std.specs.List.{list_any};
ghost use Rattle.branch_core.specs.Xids.{xid_order, find};
ghost use Rattle.sorted_map.specs.Map.{index_of, key_at, value_at};
ghost use Rattle.branch_core.specs.Held.{intents_of, timed, as_prepared};
ghost use Rattle.branch_core.specs.declared.marks.Start.TheVariants as start;
ghost use Rattle.branch_core.specs.declared.marks.Standing.TheVariants as standing;
ghost use Rattle.branch_core.specs.State.{seat_of, dtx_in, tx_in, active_in, owner_of, IsOwned, IsBelow, AllBelow, Fits, HasRoom, branches_of, seats_of, state_of};
ghost use Rattle.branch_core.specs.Faults.{Tells, IsRefusal, is_new, standing_in, linked_in, is_unfit, is_unphased, is_at, start_fault, end_fault, prepare_fault, commit_fault, rollback_fault, timeout_fault, select_fault};
ghost use Rattle.branch_core.specs.Acts.{start_status, started, placed, joined_in, ended, end_status, selected, finished, with_branch, with_seat, tx_emptied, left_all, expired_all, gone_all, seconds_of, undone, undo_intents, added, prepared_xids, names_at};

use crate::branch::{Branch, Change};
use crate::marks::{BranchFault, End, Owner, Standing, Start, Status, Xids};
use crate::seats::{self, Seat, Turn};
use crate::{table, work};
use amqp_values::Xid;
use branch_intents::{Intent, Intents};
use number_tree::Slot;
use octet_reading::{NoMemory, Text};
use sorted_map::SortedMap;
use std::alloc::Global;
use std::marker::Model;

/// How many branches there may be.
const MOST: usize = 65_536;

/// The branches by xid, and what each session has selected.
#[derive(Debug, Drop)]
pub struct Branches {
    alloc: Global,
    branches: SortedMap<Xid, Branch>,
    seats: SortedMap<u64, Seat>,
    /// Room for one association.
    slot: Option<Slot>,
}

impl Model for Branches {
    ghost use Rattle.std.specs.Prelude.{length, is_some};
    ghost use Rattle.std.specs.Coded.{codes};
    ghost use Rattle.amqp_values.specs.contracts.value.Value as e;
    ghost use Rattle.branch_core.specs.State.{Branched, branches_of, seats_of, intent_rooms, tx_rooms, AllBelow};

    ghost Value = { Branched };

    ghost coded = { Prim.hlevel (codes, e.the_row.coded) };

    ghost view = { λ b. record { state = record { branches = branches_of b.branches.entries; seats = seats_of b.seats.entries }; room = record { branches = b.branches.room; seats = b.seats.room; slot = is_some b.slot; intents = intent_rooms b.branches.entries; tx = tx_rooms b.seats.entries } } };

    ghost invariant = { λ b. AllBelow (length b.branches.entries) (seats_of b.seats.entries) };
}

impl Branches {
    /// No branches, and no session that has selected anything. Takes no memory.
    pub fn new(alloc: Global) -> Branches
        ensures branches { result.state.branches ≡ [] }
        ensures seats { result.state.seats ≡ [] }
    {
        Branches {
            alloc,
            branches: SortedMap::new(alloc),
            seats: SortedMap::new(alloc),
            slot: None,
        }
    }

    /// Whether a session has selected dtx. Takes no memory.
    pub fn dtx(&self, session: u64) -> bool
        ensures { result ≡ dtx_in (seat_of session self.now.state) }
    {
        seats::has_dtx(&self.seats, session)
    }

    /// The intents of a session's tx; none where it has no tx. Takes no memory.
    pub fn tx(&self, session: u64) -> Option<&Intents>
        ensures { option_map (λ i. i.now.items) result ≡ tx_in (seat_of session self.now.state) }
    {
        seats::tx(&self.seats, session)
    }

    /// Where the publishes and accepts of a session go: into its tx, or into the branch in which it is active. Takes no
    /// memory.
    pub fn owner(&self, session: u64) -> Owner
        ensures owner { result ≡ owner_of session self.now.state }
        ensures place { IsBelow (length self.now.state.branches) result }
    {
        if seats::tx(&self.seats, session).is_some() {
            return Owner::Tx;
        }
        match seats::active(&self.seats, session) {
            Some(place) => Owner::Branch { place },
            None => Owner::Now,
        }
    }

    /// How far a branch has come. A mark is answered also while a session is associated. Takes no memory.
    pub fn standing(&self, xid: &Xid) -> Standing
        ensures { result ≡ standing_in (find xid.now self.now.state.branches) }
    {
        table::standing(&self.branches, xid)
    }

    /// The seconds that a branch was given, 0 for none; none where it isn't there. Takes no memory.
    pub fn timeout(&self, xid: &Xid) -> Option<u32>
        ensures { result ≡ option_map seconds_of (find xid.now self.now.state.branches) }
    {
        match table::branch(&self.branches, xid) {
            Some(branch) => Some(branch.seconds),
            None => None,
        }
    }

    /// How many branches there are. Takes no memory.
    pub fn len(&self) -> usize
        ensures { result ≡ length self.now.state.branches }
    {
        self.branches.entries().len()
    }

    /// A session selects dtx, or tx: refused where it has selected the other kind, or tx already. With room for a session it
    /// takes no memory.
    pub fn select(&mut self, session: u64, dtx: bool) -> Result<(), BranchFault>
        ensures fine { OnOk result (select_fault session dtx self.old.state ≡ None) }
        ensures state { OnOk result (self.new.state ≡ selected session dtx self.old.state) }
        ensures fault { IfErr result (λ fault. Tells fault (select_fault session dtx self.old.state)) }
        ensures err { OnErr result (self.new.state ≡ self.old.state) }
        ensures ready { 0 < self.old.room.seats → IfErr result IsRefusal }
    {
        if let Some(code) = self.select_fault(session, dtx) {
            return Err(BranchFault::Refused(code));
        }
        self.seats.reserve(1)?;
        seats::select(&mut self.seats, self.alloc, session, dtx);
        Ok(())
    }

    /// A session begins work on a branch, and is active in it then. Join of a marked branch gives the mark alone. With room,
    /// join and resume take no memory.
    pub fn start(&mut self, session: u64, xid: &Xid, how: Start) -> Result<Status, BranchFault>
        ensures fine { OnOk result (start_fault session xid.now self.old.state how ≡ None) }
        ensures status { IfOk result (λ status. status ≡ start_status how (find xid.now self.old.state.branches)) }
        ensures state { OnOk result (self.new.state ≡ started how session xid.now self.old.state) }
        ensures fault { IfErr result (λ fault. Tells fault (start_fault session xid.now self.old.state how)) }
        ensures err { OnErr result (self.new.state ≡ self.old.state) }
        ensures ready { is_new how ≡ false → self.old.room.slot ≡ true → IfErr result IsRefusal }
    {
        if let Some(code) = self.start_fault(session, xid, how) {
            return Err(BranchFault::Refused(code));
        }
        let status = table::status(&self.branches, xid);
        match how {
            Start::New => {
                self.start_new(session, xid)?;
                Ok(0)
            }
            Start::Join => {
                self.start_join(session, xid)?;
                Ok(status)
            }
            Start::Resume => {
                self.start_resume(session, xid);
                Ok(status)
            }
        }
    }

    /// A session begins a new branch. Takes no memory.
    pub fn place(&mut self, session: u64, xid: Xid)
        requires fault { start_fault session xid self.old.state start.New ≡ None }
        requires branch { 0 < self.old.room.branches }
        requires slot { self.old.room.slot ≡ true }
        ensures { self.new.state ≡ placed session xid self.old.state }
    {
        match self.slot.take() {
            Some(slot) => work::begin(
                &mut self.branches,
                &mut self.seats,
                self.alloc,
                session,
                xid,
                slot,
            ),
            None => unreachable!(),
        }
    }

    /// A session ends work on a branch or suspends it. The mark that the branch has then, or 0. Takes no memory.
    pub fn end(&mut self, session: u64, xid: &Xid, how: End) -> Result<Status, BranchFault>
        ensures fine { OnOk result (end_fault session xid.now self.old.state how ≡ None) }
        ensures status { IfOk result (λ status. status ≡ end_status how session (find xid.now self.old.state.branches)) }
        ensures state { OnOk result (self.new.state ≡ ended how session xid.now self.old.state) }
        ensures fault { IfErr result (λ fault. Tells fault (end_fault session xid.now self.old.state how)) }
        ensures err { OnErr result (self.new.state ≡ self.old.state) }
        ensures ready { IfErr result IsRefusal }
    {
        if let Some(code) = self.end_fault(session, xid, how) {
            return Err(BranchFault::Refused(code));
        }
        Ok(work::part(&mut self.branches, &mut self.seats, session, xid, how))
    }

    /// A branch is given so many seconds from now, in seconds; no time where 0. Takes no memory.
    pub fn set_timeout(&mut self, xid: &Xid, seconds: u32, now: u64) -> Result<(), BranchFault>
        ensures fine { OnOk result (timeout_fault xid.now self.old.state ≡ None) }
        ensures state { OnOk result (self.new.state ≡ with_branch xid.now (timed seconds now) self.old.state) }
        ensures fault { IfErr result (λ fault. Tells fault (timeout_fault xid.now self.old.state)) }
        ensures err { OnErr result (self.new.state ≡ self.old.state) }
        ensures ready { IfErr result IsRefusal }
    {
        if !table::is_there(&self.branches, xid) {
            return Err(BranchFault::Refused(404));
        }
        let _ = table::change_one(&mut self.branches, xid, Change::Time { seconds, now });
        Ok(())
    }

    /// An idle branch is prepared. Takes no memory.
    pub fn prepared(&mut self, xid: &Xid)
        requires { standing_in (find xid.now self.old.state.branches) ≡ standing.Idle }
        ensures { self.new.state ≡ with_branch xid.now as_prepared self.old.state }
    {
        let _ = table::change_one(&mut self.branches, xid, Change::Prepare);
    }

    /// A branch ends; its intents. Takes no memory.
    pub fn finish(&mut self, xid: &Xid) -> Intents
        requires { is_some (find xid.now self.old.state.branches) ≡ true }
        ensures intents { Some result.items ≡ option_map intents_of (find xid.now self.old.state.branches) }
        ensures state { self.new.state ≡ finished xid.now self.old.state }
    {
        work::finish(&mut self.branches, &mut self.seats, xid)
    }

    /// Time has come so far: the unprepared branches that are due are marked. Takes no memory.
    pub fn expire(&mut self, now: u64)
        ensures { self.new.state ≡ expired_all now self.old.state }
    {
        table::change_all(&mut self.branches, Change::Expire { now });
    }

    /// A session ends: its branches are marked, and what it selected is forgotten. Takes no memory.
    pub fn leave(&mut self, session: u64)
        ensures { self.new.state ≡ left_all session self.old.state }
    {
        table::change_all(&mut self.branches, Change::Leave { session });
        drop(self.seats.take(&session));
    }

    /// A copy, by its number, or a whole queue is gone: the intents on it are dropped, but for those of prepared branches.
    /// Takes no memory.
    pub fn gone(&mut self, queue: &Text, number: Option<u64>)
        ensures { self.new.state ≡ gone_all queue.now number self.old.state }
    {
        table::change_all(&mut self.branches, Change::Gone { queue, number });
        seats::turn_all(&mut self.seats, Turn::Gone { queue, number });
    }

    /// Takes the intents of a session's tx out. Takes no memory.
    pub fn take_tx(&mut self, session: u64) -> Intents
        requires { is_some (tx_in (seat_of session self.old.state)) ≡ true }
        ensures intents { Some result.items ≡ tx_in (seat_of session self.old.state) }
        ensures state { self.new.state ≡ with_seat session tx_emptied self.old.state }
    {
        match seats::take(&mut self.seats, self.alloc, session) {
            Some(intents) => intents,
            None => unreachable!(),
        }
    }

    /// What will be done once a branch is prepared, as a copy. Refused where it isn't there, is associated or is prepared.
    pub fn prepare_plan(&self, xid: &Xid) -> Result<Intents, BranchFault>
        ensures fine { OnOk result (prepare_fault xid.now self.now.state ≡ None) }
        ensures intents { IfOk result (λ intents. Some intents.items ≡ option_map intents_of (find xid.now self.now.state.branches)) }
        ensures fault { IfErr result (λ fault. Tells fault (prepare_fault xid.now self.now.state)) }
    {
        if !table::is_there(&self.branches, xid) {
            return Err(BranchFault::Refused(404));
        }
        if table::is_associated(&self.branches, xid) {
            return Err(BranchFault::Refused(409));
        }
        if table::is_prepared(&self.branches, xid) {
            return Err(BranchFault::Refused(409));
        }
        Ok(table::intents(&self.branches, self.alloc, xid)?)
    }

    /// What a commit does, as a copy. Refused where the branch isn't there or is associated; where it is prepared and one
    /// phase is asked, or isn't and two are.
    pub fn commit_plan(&self, xid: &Xid, one_phase: bool) -> Result<Intents, BranchFault>
        ensures fine { OnOk result (commit_fault xid.now self.now.state one_phase ≡ None) }
        ensures intents { IfOk result (λ intents. Some intents.items ≡ option_map intents_of (find xid.now self.now.state.branches)) }
        ensures fault { IfErr result (λ fault. Tells fault (commit_fault xid.now self.now.state one_phase)) }
    {
        if !table::is_there(&self.branches, xid) {
            return Err(BranchFault::Refused(404));
        }
        if table::is_associated(&self.branches, xid) {
            return Err(BranchFault::Refused(409));
        }
        if work::is_unphased(one_phase, table::is_prepared(&self.branches, xid)) {
            return Err(BranchFault::Refused(409));
        }
        Ok(table::intents(&self.branches, self.alloc, xid)?)
    }

    /// What a rollback drops, as a copy. Refused where the branch isn't there or is associated.
    pub fn rollback_plan(&self, xid: &Xid) -> Result<Intents, BranchFault>
        ensures fine { OnOk result (rollback_fault xid.now self.now.state ≡ None) }
        ensures intents { IfOk result (λ intents. Some intents.items ≡ option_map intents_of (find xid.now self.now.state.branches)) }
        ensures fault { IfErr result (λ fault. Tells fault (rollback_fault xid.now self.now.state)) }
    {
        if !table::is_there(&self.branches, xid) {
            return Err(BranchFault::Refused(404));
        }
        if table::is_associated(&self.branches, xid) {
            return Err(BranchFault::Refused(409));
        }
        Ok(table::intents(&self.branches, self.alloc, xid)?)
    }

    /// The names of the prepared branches, in order.
    pub fn list(&self) -> Result<Xids, NoMemory>
        ensures { IfOk result (λ xids. xids.items ≡ prepared_xids self.now.state.branches) }
    {
        table::prepared(self.branches.entries(), self.alloc)
    }

    /// Whether a prepared branch names a queue. Takes no memory.
    pub fn names(&self, queue: &Text) -> bool
        ensures { result ≡ list_any (names_at queue.now) self.now.state.branches }
    {
        table::names(self.branches.entries(), queue)
    }

    /// The name of the branch at a place in order of xid, counted from 0. Takes no memory.
    pub fn xid_at(&self, place: usize) -> &Xid
        requires { place < length self.now.state.branches }
        ensures { key_at self.now.state.branches place ≡ Some result.now }
    {
        &self.branches.entries()[place].0
    }

    /// What the branch at a place will do. Takes no memory.
    pub fn intents_at(&self, place: usize) -> &Intents
        requires { place < length self.now.state.branches }
        ensures { option_map intents_of (value_at self.now.state.branches place) ≡ Some result.now.items }
    {
        &self.branches.entries()[place].1.intents
    }

    /// Empties the first marked branch, in order of xid, that has intents, and gives them; none where no marked branch has
    /// any. Takes no memory.
    pub fn undo(&mut self) -> Option<Intents>
        ensures intents { option_map (λ i. i.items) result ≡ undo_intents self.old.state }
        ensures state { self.new.state ≡ undone self.old.state }
    {
        match table::undone(self.branches.entries()) {
            Some(place) => Some(table::take(&mut self.branches, self.alloc, place)),
            None => None,
        }
    }

    /// Makes room for so many intents where those of a session go, for one branch, and for one selection and one association
    /// of it. Nothing else changes.
    pub fn room(&mut self, session: u64, intents: usize) -> Result<(), NoMemory>
        ensures state { self.new.state ≡ self.old.state }
        ensures ok { OnOk result (HasRoom session intents self.new) }
        ensures branches { self.old.room.branches ≤ self.new.room.branches }
        ensures seats { self.old.room.seats ≤ self.new.room.seats }
        ensures slot { self.old.room.slot ≡ true → self.new.room.slot ≡ true }
    {
        self.branches.reserve(1)?;
        self.seats.reserve(1)?;
        work::ready(&mut self.slot, self.alloc)?;
        match self.owner(session) {
            Owner::Now => Ok(()),
            Owner::Tx => seats::reserve(&mut self.seats, session, intents),
            Owner::Branch { place } => table::reserve(&mut self.branches, place, intents),
        }
    }

    /// An intent more, which comes last, for a session whose publishes and accepts don't act at once. Takes no memory.
    pub fn add(&mut self, session: u64, intent: Intent)
        requires owner { IsOwned (owner_of session self.old.state) }
        requires room { Fits session 1 self.old }
        ensures state { self.new.state ≡ added intent session self.old.state }
        ensures room { (n : ℕ) → Fits session (n + 1) self.old → Fits session n self.new }
    {
        match self.owner(session) {
            Owner::Now => unreachable!(),
            Owner::Tx => seats::give(&mut self.seats, session, intent),
            Owner::Branch { place } => table::give(&mut self.branches, place, intent),
        }
    }

    /// Begins a new branch for start.
    fn start_new(&mut self, session: u64, xid: &Xid) -> Result<(), NoMemory>
        requires { start_fault session xid.now self.old.state start.New ≡ None }
        ensures state { OnOk result (self.new.state ≡ placed session xid.now self.old.state) }
        ensures err { OnErr result (self.new.state ≡ self.old.state) }
    {
        self.branches.reserve(1)?;
        work::ready(&mut self.slot, self.alloc)?;
        let xid = xid.copied(self.alloc)?;
        self.place(session, xid);
        Ok(())
    }

    /// Joins a branch for start.
    fn start_join(&mut self, session: u64, xid: &Xid) -> Result<(), NoMemory>
        requires { start_fault session xid.now self.old.state start.Join ≡ None }
        ensures state { OnOk result (self.new.state ≡ started start.Join session xid.now self.old.state) }
        ensures err { OnErr result (self.new.state ≡ self.old.state) }
        ensures ready { self.old.room.slot ≡ true → IsOk result }
    {
        if table::status(&self.branches, xid) != 0 {
            return Ok(());
        }
        work::ready(&mut self.slot, self.alloc)?;
        match self.slot.take() {
            Some(slot) => work::join(&mut self.branches, &mut self.seats, session, xid, slot),
            None => unreachable!(),
        }
        Ok(())
    }

    /// Resumes a branch for start.
    fn start_resume(&mut self, session: u64, xid: &Xid)
        requires { is_some (find xid.now self.old.state.branches) ≡ true }
        ensures { self.new.state ≡ started start.Resume session xid.now self.old.state }
    {
        let place = table::place_of(&self.branches, xid);
        seats::turn_one(&mut self.seats, session, Turn::Activate { place });
    }

    /// Why dtx.select or tx.select is refused.
    fn select_fault(&self, session: u64, dtx: bool) -> Option<u16>
        ensures { result ≡ select_fault session dtx self.now.state }
    {
        if seats::tx(&self.seats, session).is_some() {
            return Some(409);
        }
        if !dtx && seats::has_dtx(&self.seats, session) {
            return Some(409);
        }
        None
    }

    /// Why dtx.start is refused.
    fn start_fault(&self, session: u64, xid: &Xid, how: Start) -> Option<u16>
        ensures { result ≡ start_fault session xid.now self.now.state how }
    {
        if !seats::has_dtx(&self.seats, session) {
            return Some(409);
        }
        if seats::active(&self.seats, session).is_some() {
            return Some(409);
        }
        let is_there = table::is_there(&self.branches, xid);
        if how == Start::New && is_there {
            return Some(530);
        }
        if how != Start::New && !is_there {
            return Some(404);
        }
        if table::is_prepared(&self.branches, xid) {
            return Some(409);
        }
        if work::is_unfit(how, table::is_linked(&self.branches, xid, session)) {
            return Some(409);
        }
        if how == Start::New && self.branches.entries().len() >= MOST {
            return Some(506);
        }
        None
    }

    /// Why dtx.end is refused.
    fn end_fault(&self, session: u64, xid: &Xid, how: End) -> Option<u16>
        ensures { result ≡ end_fault session xid.now self.now.state how }
    {
        if !seats::has_dtx(&self.seats, session) {
            return Some(409);
        }
        if !table::is_there(&self.branches, xid) {
            return Some(404);
        }
        if !table::is_linked(&self.branches, xid, session) {
            return Some(409);
        }
        if how == End::Suspend && !self.is_active_in(session, xid) {
            return Some(409);
        }
        None
    }

    /// Whether a session is active in a branch that is there.
    fn is_active_in(&self, session: u64, xid: &Xid) -> bool
        requires { is_some (find xid.now self.now.state.branches) ≡ true }
        ensures { result ≡ is_at (index_of xid_order xid.now self.now.state.branches) (active_in (seat_of session self.now.state)) }
    {
        match seats::active(&self.seats, session) {
            Some(active) => active == table::place_of(&self.branches, xid),
            None => false,
        }
    }
}
