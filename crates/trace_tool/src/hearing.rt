//! A piece of octets at the hub, unit by unit.
ghost use Rattle.std.specs.Prelude.{◌≡◌, ◌∷◌, ℕ, List, IfOk, OnOk};
ghost use Rattle.history_model.specs.Arrivals.{Arrival, Hears};
ghost use Rattle.history_model.specs.Answers.{joined_as};
ghost use Rattle.history_model.specs.Standing.{world};
ghost use Rattle.hub_core.specs.Hub.{Serves, keeper_of};
ghost use Rattle.broker_engine.specs.Feeds.{Talks};
ghost use Rattle.trace_tool.specs.Hearing.{UnitDone, SomeDone, PieceDone, TakesSome};

use amqp_terms::{HubEvent, Outs, discard_event, discard_units};
use amqp_values::NoMemory;
use broker_engine::{Closing, Conn, Fed};
use hub_core::Hub;
use keeper_core::Keeper;
use line_runs::Stop;

/// What was taken of a piece, and whether the connection is Closed by it.
struct Heard {
    taken: usize,
    refused: Option<Closing>,
}

/// A connection joins, and gets its number.
pub(crate) fn join<K: Keeper>(hub: &mut Hub<K>) -> Result<Option<u64>, NoMemory>
    ensures joins { (h : List Arrival) → Serves hub.old h
        → IfOk result (λ number. (number ≡ joined_as (world h) HubEvent.Join) × Serves hub.new (Hears HubEvent.Join ∷ h)) }
    ensures keeper { keeper_of hub.new ≡ keeper_of hub.old }
{
    match hub.step(HubEvent::Join) {
        Ok(outs) => {
            let Outs {
                joined,
                units,
                asked: _,
            } = outs;
            discard_units(units);
            Ok(joined)
        }
        Err(NoMemory) => Err(NoMemory),
    }
}

/// Deliveries may go out, and what goes out is put at the octets' end.
pub(crate) fn drain<K: Keeper>(
    hub: &mut Hub<K>,
    number: u64,
    conn: &Conn,
    sent: &mut Vec<u8>,
) -> Result<(), NoMemory>
    ensures drains { (h : List Arrival) → Serves hub.old h → conn.now.max_frame ≡ 65535 → OnOk result (Serves hub.new (Hears (HubEvent.Drain number) ∷ h) × (sent.new.items ≡ sent.old.items)) }
    ensures keeper { keeper_of hub.new ≡ keeper_of hub.old }
{
    match hub.step(HubEvent::Drain { conn: number }) {
        Ok(outs) => {
            let Outs {
                joined: _,
                units,
                asked: _,
            } = outs;
            let written = conn.write(units.as_slice(), sent);
            discard_units(units);
            written
        }
        Err(NoMemory) => Err(NoMemory),
    }
}

/// The time has come.
pub(crate) fn tick<K: Keeper>(hub: &mut Hub<K>, now: u64) -> Result<(), NoMemory>
    ensures { keeper_of hub.new ≡ keeper_of hub.old }
{
    match hub.step(HubEvent::Tick { now }) {
        Ok(outs) => {
            let Outs {
                joined: _,
                units,
                asked: _,
            } = outs;
            discard_units(units);
            Ok(())
        }
        Err(NoMemory) => Err(NoMemory),
    }
}

/// A connection is lost.
pub(crate) fn lose<K: Keeper>(hub: &mut Hub<K>, number: u64) -> Result<(), NoMemory>
    ensures loses { (h : List Arrival) → Serves hub.old h → OnOk result (Serves hub.new (Hears (HubEvent.Lost number) ∷ h)) }
    ensures keeper { keeper_of hub.new ≡ keeper_of hub.old }
{
    match hub.step(HubEvent::Lost { conn: number }) {
        Ok(outs) => {
            let Outs {
                joined: _,
                units,
                asked: _,
            } = outs;
            discard_units(units);
            Ok(())
        }
        Err(NoMemory) => Err(NoMemory),
    }
}

/// Hears one unit, and puts what goes out at the octets' end.
fn hear_unit<K: Keeper>(
    hub: &mut Hub<K>,
    conn: &Conn,
    event: HubEvent,
    sent: &mut Vec<u8>,
) -> Result<(), Stop>
    ensures heard { (h : List Arrival) → Serves hub.old h → conn.now.max_frame ≡ 65535 → UnitDone hub.new h event sent.old.items sent.new.items result }
    ensures keeper { keeper_of hub.new ≡ keeper_of hub.old }
{
    if !hub.builds(&event) {
        discard_event(event);
        return Err(Stop::Unbuilt);
    }
    match hub.step(event) {
        Ok(outs) => {
            let Outs {
                joined: _,
                units,
                asked: _,
            } = outs;
            let written = conn.write(units.as_slice(), sent);
            discard_units(units);
            match written {
                Ok(()) => Ok(()),
                Err(NoMemory) => Err(Stop::NoMemory),
            }
        }
        Err(NoMemory) => Err(Stop::NoMemory),
    }
}

/// Hears octets up to the end of their first unit, else all.
fn hear_some<K: Keeper>(
    hub: &mut Hub<K>,
    number: u64,
    conn: &mut Conn,
    octets: &[u8],
    sent: &mut Vec<u8>,
) -> Result<Heard, Stop>
    ensures heard { (h : List Arrival) (before : List ℕ) → Serves hub.old h → Talks conn.old before
        → SomeDone hub.new conn.new h number before octets.now sent.old.items sent.new.items result }
    ensures takes { TakesSome octets.now result }
    ensures keeper { keeper_of hub.new ≡ keeper_of hub.old }
{
    match conn.feed(octets, sent) {
        Ok(fed) => {
            let Fed {
                taken,
                unit,
                closed,
            } = fed;
            match unit {
                Some((channel, unit)) => {
                    let event = HubEvent::Unit {
                        conn: number,
                        channel,
                        unit,
                    };
                    match hear_unit(hub, conn, event, sent) {
                        Ok(()) => Ok(Heard {
                            taken,
                            refused: None,
                        }),
                        Err(stop) => Err(stop),
                    }
                }
                None => match closed {
                    Some(closing) => match lose(hub, number) {
                        Ok(()) => Ok(Heard {
                            taken,
                            refused: Some(closing),
                        }),
                        Err(NoMemory) => Err(Stop::NoMemory),
                    },
                    None => Ok(Heard {
                        taken,
                        refused: None,
                    }),
                },
            }
        }
        Err(NoMemory) => Err(Stop::NoMemory),
    }
}

/// Hears a whole piece, and then a drain, unless it closes the connection. A Closed one hears nothing.
pub(crate) fn hear_piece<K: Keeper>(
    hub: &mut Hub<K>,
    number: u64,
    conn: &mut Conn,
    octets: &[u8],
    sent: &mut Vec<u8>,
) -> Result<Option<Closing>, Stop>
    ensures heard { (h : List Arrival) (before : List ℕ) → Serves hub.old h → Talks conn.old before
        → PieceDone hub.new conn.new h number before octets.now sent.old.items sent.new.items result }
    ensures keeper { keeper_of hub.new ≡ keeper_of hub.old }
{
    if conn.is_closed() {
        return Ok(None);
    }
    let mut rest = octets;
    while !rest.is_empty() {
        match hear_some(hub, number, conn, rest, sent) {
            Ok(heard) => {
                let Heard { taken, refused } = heard;
                match refused {
                    Some(closing) => return Ok(Some(closing)),
                    None => {
                        let (_, after) = rest.split_at(taken);
                        rest = after;
                    }
                }
            }
            Err(stop) => return Err(stop),
        }
    }
    match drain(hub, number, conn, sent) {
        Ok(()) => Ok(None),
        Err(NoMemory) => Err(Stop::NoMemory),
    }
}
