//! Sessions begin and end work on branches, over both tables at once.
ghost use Rattle.std.specs.Prelude.{◌≡◌, ◌<◌, None, Some, OnOk, IsOk, length, is_some, true, false};
ghost use Rattle.std.specs.Option.{option_map};
ghost use Rattle.branch_core.specs.Xids.{find};
ghost use Rattle.branch_core.specs.Held.{intents_of};
ghost use Rattle.branch_core.specs.State.{AllBelow, branches_of, seats_of, state_of};
ghost use Rattle.branch_core.specs.Faults.{linked_in, is_unfit, is_unphased};
ghost use Rattle.branch_core.specs.Acts.{placed, joined_in, ended, end_status, finished};

use crate::branch::{Branch, Change};
use crate::marks::{End, Start, Status};
use crate::seats::{self, Seat, Turn};
use crate::table;
use amqp_values::Xid;
use branch_intents::Intents;
use number_tree::Slot;
use octet_reading::NoMemory;
use sorted_map::SortedMap;
use std::alloc::Global;

/// Makes room for one association.
pub(crate) fn ready(slot: &mut Option<Slot>, alloc: Global) -> Result<(), NoMemory>
    ensures ok { OnOk result (is_some slot.new ≡ true) }
    ensures kept { is_some slot.old ≡ true → (is_some slot.new ≡ true) × IsOk result }
{
    if slot.is_none() {
        *slot = Some(Slot::new(alloc)?);
    }
    Ok(())
}

/// A session begins a new branch.
pub(crate) fn begin(
    branches: &mut SortedMap<Xid, Branch>,
    seats: &mut SortedMap<u64, Seat>,
    alloc: Global,
    session: u64,
    xid: Xid,
    slot: Slot,
)
    requires new { find xid (branches_of branches.old.entries) ≡ None }
    requires room { 0 < branches.old.room }
    requires below { AllBelow (length branches.old.entries) (seats_of seats.old.entries) }
    ensures state { state_of branches.new.entries seats.new.entries ≡ placed session xid (state_of branches.old.entries seats.old.entries) }
    ensures below { AllBelow (length branches.new.entries) (seats_of seats.new.entries) }
{
    let place = table::begin(branches, alloc, session, xid, slot);
    seats::turn_all(seats, Turn::Push { place });
    seats::turn_one(seats, session, Turn::Activate { place });
}

/// A session joins a branch that it isn't associated with.
pub(crate) fn join(
    branches: &mut SortedMap<Xid, Branch>,
    seats: &mut SortedMap<u64, Seat>,
    session: u64,
    xid: &Xid,
    slot: Slot,
)
    requires there { is_some (find xid.now (branches_of branches.old.entries)) ≡ true }
    requires free { linked_in session (find xid.now (branches_of branches.old.entries)) ≡ false }
    requires below { AllBelow (length branches.old.entries) (seats_of seats.old.entries) }
    ensures state { state_of branches.new.entries seats.new.entries ≡ joined_in session xid.now (state_of branches.old.entries seats.old.entries) }
    ensures below { AllBelow (length branches.new.entries) (seats_of seats.new.entries) }
{
    let place = table::place_of(branches, xid);
    table::join(branches, xid, session, slot);
    seats::turn_one(seats, session, Turn::Activate { place });
}

/// A session's association with a branch ends or is suspended; the mark that the branch has then, or 0.
pub(crate) fn part(
    branches: &mut SortedMap<Xid, Branch>,
    seats: &mut SortedMap<u64, Seat>,
    session: u64,
    xid: &Xid,
    how: End,
) -> Status
    requires there { is_some (find xid.now (branches_of branches.old.entries)) ≡ true }
    requires below { AllBelow (length branches.old.entries) (seats_of seats.old.entries) }
    ensures status { result ≡ end_status how session (find xid.now (branches_of branches.old.entries)) }
    ensures state { state_of branches.new.entries seats.new.entries ≡ ended how session xid.now (state_of branches.old.entries seats.old.entries) }
    ensures below { AllBelow (length branches.new.entries) (seats_of seats.new.entries) }
{
    let place = table::place_of(branches, xid);
    seats::turn_one(seats, session, Turn::Leave { place });
    match how {
        End::Suspend => table::status(branches, xid),
        End::Success => {
            let change = Change::Part {
                session,
                fails: false,
            };
            table::change_one(branches, xid, change)
        }
        End::Fail => {
            let change = Change::Part {
                session,
                fails: true,
            };
            table::change_one(branches, xid, change)
        }
    }
}

/// Takes a branch out; its intents.
pub(crate) fn finish(
    branches: &mut SortedMap<Xid, Branch>,
    seats: &mut SortedMap<u64, Seat>,
    xid: &Xid,
) -> Intents
    requires there { is_some (find xid.now (branches_of branches.old.entries)) ≡ true }
    requires below { AllBelow (length branches.old.entries) (seats_of seats.old.entries) }
    ensures intents { Some result.items ≡ option_map intents_of (find xid.now (branches_of branches.old.entries)) }
    ensures state { state_of branches.new.entries seats.new.entries ≡ finished xid.now (state_of branches.old.entries seats.old.entries) }
    ensures below { AllBelow (length branches.new.entries) (seats_of seats.new.entries) }
{
    let (place, intents) = table::finish(branches, xid);
    seats::turn_all(seats, Turn::Pull { place });
    intents
}

/// Whether resume finds no association, or join finds one.
pub(crate) fn is_unfit(how: Start, linked: bool) -> bool
    ensures { result ≡ is_unfit how linked }
{
    match how {
        Start::New => false,
        Start::Join => linked,
        Start::Resume => !linked,
    }
}

/// Whether one phase finds a prepared branch, or two find one that isn't.
pub(crate) fn is_unphased(one_phase: bool, prepared: bool) -> bool
    ensures { result ≡ is_unphased one_phase prepared }
{
    if one_phase { prepared } else { !prepared }
}
