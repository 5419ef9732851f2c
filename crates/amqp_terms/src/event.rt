//! The events of the hub, each one atomic step, and what a step sends.

ghost use Rattle.std.specs.Prelude.{◌≡◌, [], ◌∷◌, ◌++◌, IfOk};

use crate::{Control, Unit};
use amqp_values::NoMemory;
use sqlite_items::Items;
use std::alloc::Global;

/// What the hub hears, of connections that it numbered itself.
#[derive(Debug, Drop)]
pub enum HubEvent {
    /// A connection came.
    Join,
    /// A whole unit came on a channel.
    Unit { conn: u64, channel: u16, unit: Unit },
    /// A piece of octets ended, or the connection is quiet.
    Drain { conn: u64 },
    /// The connection ended.
    Lost { conn: u64 },
    /// The time, in seconds.
    Tick { now: u64 },
}

/// A unit that goes out on a channel of the connection that the step was about.
#[derive(Debug, Drop)]
pub struct Out {
    pub channel: u16,
    pub unit: Unit,
}

/// What a step gave.
#[derive(Debug, Drop)]
pub struct Outs {
    /// The number of the connection that joined, from 1.
    pub joined: Option<u64>,
    /// The units that go out, in order.
    pub units: Items<Out>,
    /// What the store answered in this step, where it was asked.
    pub asked: Option<bool>,
}

// A crate that lets one of these go needs a proof of its own for all their parts. The two calls below are for those.

/// Lets an event go.
pub fn discard_event(event: HubEvent) {
    drop(event);
}

/// Lets units go that were to go out.
pub fn discard_units(_units: Items<Out>) {}

/// A control alone, on a channel.
pub fn send_alone(alloc: Global, channel: u16, control: Control) -> Result<Items<Out>, NoMemory>
    ensures { IfOk result (λ units. units ≡ record { channel = channel; unit = Unit.Control control } ∷ []) }
{
    send(Items::new(alloc), channel, control)
}

/// Puts a control last. Without memory all of the units are let go.
pub fn send(mut units: Items<Out>, channel: u16, control: Control) -> Result<Items<Out>, NoMemory>
    ensures { IfOk result (λ all. all ≡ units ++ record { channel = channel; unit = Unit.Control control } ∷ []) }
{
    let out = Out {
        channel,
        unit: Unit::Control(control),
    };
    match units.push(out) {
        Ok(()) => Ok(units),
        Err(_) => Err(NoMemory),
    }
}
