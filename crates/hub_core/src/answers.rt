//! What goes out for an event.
ghost use Rattle.std.specs.Prelude.{◌≡◌, [], ◌∷◌, ◌++◌, Some, None, IfOk};
ghost use Rattle.history_model.specs.Answers.{attach_answers, completes};
ghost use Rattle.serial_ranges.specs.Serial.{serial_of};

use amqp_terms::{Control, Units, send};
use amqp_values::{NoMemory, Octets, Range, Ranges};
use history_model::{Out, Outs};
use sqlite_items::Items;
use std::alloc::Global;

/// Why a session is detached, as it goes out (AMQP 0-10, "session.detached").
#[derive(Clone, Copy, Debug, PartialEq, Eq)]
pub(crate) enum Why {
    /// The peer asked for it.
    Normal,
    /// The session stands elsewhere, or was moved there.
    Busy,
    /// No session may stand on the channel.
    Refused,
    /// No such session stands on the channel.
    Missing,
    /// The peer named numbers that the session doesn't know.
    UnknownIds,
}

impl Why {
    /// Its number.
    fn code(self) -> u8 {
        match self {
            Why::Normal => 0,
            Why::Busy => 1,
            Why::Refused => 2,
            Why::Missing => 3,
            Why::UnknownIds => 4,
        }
    }
}

/// The outs of a step in which no connection joined and the store wasn't asked.
pub(crate) fn sent(units: Items<Out>) -> Outs
    ensures { result ≡ record { joined = None; units = units; asked = None } }
{
    Outs {
        joined: None,
        units,
        asked: None,
    }
}

/// The answers to an attach of a new session.
pub(crate) fn attached(
    alloc: Global,
    units: Items<Out>,
    channel: u16,
    name: &Octets,
) -> Result<Items<Out>, NoMemory>
    ensures { IfOk result (λ all. all ≡ units ++ attach_answers channel name.now) }
{
    let name = Some(name.copied(alloc)?);
    let units = send(units, channel, Control::SessionAttached { name })?;
    send(units, channel, point(0))
}

/// The command that comes next has this number.
fn point(serial: u32) -> Control
    ensures { result ≡ Control.SessionCommandPoint (Some serial) (Some 0) }
{
    Control::SessionCommandPoint {
        command_id: Some(serial),
        command_offset: Some(0),
    }
}

/// The answers to an attach of a session that stands already: what is expected of the peer, and the question what it expects.
pub(crate) fn resumed(
    alloc: Global,
    units: Items<Out>,
    channel: u16,
    name: &Octets,
    next: u64,
) -> Result<Items<Out>, NoMemory> {
    let name = Some(name.copied(alloc)?);
    let units = send(units, channel, Control::SessionAttached { name })?;
    let units = expected(alloc, units, channel, next)?;
    let flush = Control::SessionFlush {
        expected: true,
        confirmed: false,
        completed: false,
    };
    send(units, channel, flush)
}

/// Why, with a session's name.
pub(crate) fn detached(
    alloc: Global,
    units: Items<Out>,
    channel: u16,
    name: &Octets,
    why: Why,
) -> Result<Items<Out>, NoMemory> {
    let detached = Control::SessionDetached {
        name: Some(name.copied(alloc)?),
        code: Some(why.code()),
    };
    send(units, channel, detached)
}

/// A number on the wire.
fn serial(number: u64) -> u32
    ensures { result ≡ serial_of number }
{
    (number % 4_294_967_296) as u32
}

/// One range of numbers.
fn range(alloc: Global, lower: u64, upper: u64) -> Result<Ranges, NoMemory>
    ensures { IfOk result (λ ranges. ranges ≡ record { lower = serial_of lower; upper = serial_of upper } ∷ []) }
{
    let ranges = vec![in alloc;
        Range {
            lower: serial(lower),
            upper: serial(upper),
        },
    ]?;
    Ok(Ranges::from_vec(ranges))
}

/// Expected, with the number of the peer's next command.
pub(crate) fn expected(
    alloc: Global,
    units: Items<Out>,
    channel: u16,
    next: u64,
) -> Result<Items<Out>, NoMemory> {
    let commands = Some(range(alloc, next, next)?);
    let expected = Control::SessionExpected {
        commands,
        fragments: None,
    };
    send(units, channel, expected)
}

/// How many numbers before the next one confirmed and completed name at most.
const MOST_NAMED: u64 = 1_073_741_824;

/// The numbers of the peer's commands before the next one; none where there are none.
fn received(alloc: Global, next: u64) -> Result<Ranges, NoMemory> {
    if next == 0 {
        return Ok(Ranges::from_vec(Vec::new(alloc)));
    }
    range(alloc, next.saturating_sub(MOST_NAMED), next - 1)
}

/// Confirmed, with the numbers of the peer's commands before the next one.
pub(crate) fn confirmed(
    alloc: Global,
    units: Items<Out>,
    channel: u16,
    next: u64,
) -> Result<Items<Out>, NoMemory> {
    let commands = Some(received(alloc, next)?);
    let confirmed = Control::SessionConfirmed {
        commands,
        fragments: None,
    };
    send(units, channel, confirmed)
}

/// Completed, with the numbers of the peer's commands before the next one.
pub(crate) fn all_completed(
    alloc: Global,
    units: Items<Out>,
    channel: u16,
    next: u64,
) -> Result<Items<Out>, NoMemory> {
    let commands = Some(received(alloc, next)?);
    let completed = Control::SessionCompleted {
        commands,
        timely_reply: false,
    };
    send(units, channel, completed)
}

/// Completed, with one number.
pub(crate) fn completed(
    alloc: Global,
    units: Items<Out>,
    channel: u16,
    number: u64,
) -> Result<Items<Out>, NoMemory>
    ensures { IfOk result (λ all. all ≡ units ++ completes channel number ∷ []) }
{
    let commands = Some(range(alloc, number, number)?);
    let completed = Control::SessionCompleted {
        commands,
        timely_reply: false,
    };
    send(units, channel, completed)
}

/// The broker's commands from a number on, after the command-point that names it.
pub(crate) fn commands_from(
    alloc: Global,
    units: Items<Out>,
    channel: u16,
    number: u64,
    commands: &Units,
) -> Result<Items<Out>, NoMemory> {
    let mut units = send(units, channel, point(serial(number)))?;
    for unit in commands.as_slice() {
        let unit = unit.copied(alloc)?;
        units.push(Out { channel, unit })?;
    }
    Ok(units)
}
