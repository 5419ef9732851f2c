//! A connection: octets of the peer to units, and units to octets.
ghost use Rattle.std.specs.Prelude.{◌≡◌, ℕ, ◌++◌, ◌⊎◌, List, [], flat_map, false, IfOk, OnOk, None, Some};
ghost use Rattle.broker_engine.specs.Talk.{talk, is_shut};
ghost use Rattle.broker_engine.specs.Wire.{out_octets};
ghost use Rattle.broker_engine.specs.Feeds.{Talks, Feeds, TakesSome, is_own};

use crate::intake::{Closing, Fed, Intake};
use crate::write::{LARGEST, push_header, push_outs, push_units};
use amqp_terms::{Out, Unit};
use amqp_values::NoMemory;
use conn_core::{Said, ServerEnd};
use std::alloc::Global;

/// The first largest frame, until one is agreed (AMQP 0-10, "connection.tune").
const FIRST_FRAME: u16 = 4_096;

/// How many octets the protocol header has.
const HEADER: usize = 8;

/// The octets of one connection, both ways.
///
/// Contracts speak of it by the octets that its peer sent.
#[derive(Drop)]
pub struct Conn {
    alloc: Global,
    /// The protocol header is awaited, of which so many octets came.
    awaits: bool,
    known: usize,
    head: [u8; 8],
    intake: Intake,
    end: ServerEnd,
    /// The largest frame that goes out.
    max_frame: u16,
    /// How many octets the peer sent.
    heard: u64,
}

impl Conn {
    /// A connection whose negotiation is done, and that heard nothing since.
    pub fn ready(alloc: Global) -> Result<Conn, NoMemory>
        ensures { IfOk result (λ conn. Talks conn []) }
    {
        let intake = Intake::new(alloc, LARGEST, 0)?;
        Ok(Conn {
            alloc,
            awaits: false,
            known: 0,
            head: [0; 8],
            intake,
            end: ServerEnd::ready(alloc),
            max_frame: LARGEST,
            heard: 0,
        })
    }

    /// A connection that begins with its protocol header.
    pub fn open(alloc: Global) -> Result<Conn, NoMemory> {
        let intake = Intake::new(alloc, FIRST_FRAME, HEADER as u64)?;
        Ok(Conn {
            alloc,
            awaits: true,
            known: 0,
            head: [0; 8],
            intake,
            end: ServerEnd::waiting(alloc),
            max_frame: FIRST_FRAME,
            heard: 0,
        })
    }

    /// Takes octets up to the end of the first unit, else some or all; and puts the connection's own answers at the end
    /// of `out`. The unit is handed out where it is for the hub. What follows the connection's end is passed over.
    ///
    /// Without memory the connection is only to be dropped.
    pub fn feed(&mut self, piece: &[u8], out: &mut Vec<u8>) -> Result<Fed, NoMemory>
        ensures feeds { (before : List ℕ) → Talks self.old before → IfOk result (λ fed. Feeds self.new before piece.now out.old.items out.new.items fed) }
        ensures takes { TakesSome piece.now result }
    {
        let fed = self.take(piece, out)?;
        self.note(fed.taken);
        Ok(fed)
    }

    /// Notes that so many octets came.
    fn note(&mut self, taken: usize)
        ensures { (before : List ℕ) → Talks self.old before → Talks self.new before }
    {
        self.heard = self.heard.saturating_add(taken as u64);
        self.end.octets_came();
    }

    fn take(&mut self, piece: &[u8], out: &mut Vec<u8>) -> Result<Fed, NoMemory>
        ensures feeds { (before : List ℕ) → Talks self.old before → IfOk result (λ fed. Feeds self.new before piece.now out.old.items out.new.items fed) }
        ensures takes { TakesSome piece.now result }
    {
        if self.awaits {
            return self.take_head(piece, out);
        }
        let fed = self.intake.feed(piece, out)?;
        let Fed {
            taken,
            unit,
            closed,
        } = fed;
        match unit {
            Some((channel, unit)) => self.hear(taken, piece.len(), channel, unit, out),
            None => Ok(Fed {
                taken,
                unit: None,
                closed,
            }),
        }
    }

    /// Takes the next octet of the protocol header.
    fn take_head(&mut self, piece: &[u8], out: &mut Vec<u8>) -> Result<Fed, NoMemory>
        ensures { TakesSome piece.now result }
    {
        let Some(octet) = piece.first() else {
            return Ok(Fed {
                taken: 0,
                unit: None,
                closed: None,
            });
        };
        if let Some(slot) = self.head.get_mut(self.known) {
            *slot = *octet;
        }
        self.known = self.known.saturating_add(1);
        if self.known < HEADER {
            return Ok(Fed {
                taken: 1,
                unit: None,
                closed: None,
            });
        }
        self.awaits = false;
        let said = self.end.header(self.head)?;
        if said.echo {
            push_header(out)?;
        }
        let closed = self.say(said, 0, out)?;
        let taken = if closed.is_some() { piece.len() } else { 1 };
        Ok(Fed {
            taken,
            unit: None,
            closed,
        })
    }

    /// Hears a unit, which is for the hub or for the connection itself.
    fn hear(
        &mut self,
        taken: usize,
        all: usize,
        channel: u16,
        unit: Unit,
        out: &mut Vec<u8>,
    ) -> Result<Fed, NoMemory>
        ensures passes { is_own unit ≡ false → (before : List ℕ) → Talks self.old before
            → IfOk result (λ fed. (fed ≡ record { taken = taken; unit = Some (channel, unit); closed = None }) × Talks self.new before × (out.new.items ≡ out.old.items)) }
        ensures takes { IfOk result (λ fed. (fed.taken ≡ taken) ⊎ (fed.taken ≡ all)) }
    {
        let said = self.end.hear(channel, &unit)?;
        if said.pass {
            return Ok(Fed {
                taken,
                unit: Some((channel, unit)),
                closed: None,
            });
        }
        let at = self.intake.at();
        let closed = self.say(said, at, out)?;
        Ok(Fed {
            taken: if closed.is_some() { all } else { taken },
            unit: None,
            closed,
        })
    }

    /// Puts what the connection says itself at the octets' end; gives where it is closed by it.
    fn say(&mut self, said: Said, at: u64, out: &mut Vec<u8>) -> Result<Option<Closing>, NoMemory> {
        let Said {
            units,
            echo: _,
            max_frame,
            closed,
            pass: _,
        } = said;
        push_units(self.alloc, out, units.as_slice(), self.max_frame)?;
        self.max_frame = max_frame;
        self.intake.set_max(max_frame);
        match closed {
            Some(why) => {
                self.intake.shut();
                Ok(Some(Closing {
                    at,
                    segment: None,
                    why,
                }))
            }
            None => Ok(None),
        }
    }

    /// Is told the time, in seconds: a heartbeat may go out, or the peer's silence closes the connection.
    ///
    /// Without memory the connection is only to be dropped.
    pub fn moment(&mut self, now: u64, out: &mut Vec<u8>) -> Result<Option<Closing>, NoMemory> {
        if self.intake.is_closed() {
            return Ok(None);
        }
        let said = self.end.moment(now)?;
        self.say(said, self.heard, out)
    }

    /// Whether it is Closed, and hears nothing more.
    pub fn is_closed(&self) -> bool
        ensures { (before : List ℕ) → Talks self.now before → result ≡ is_shut (talk before) }
    {
        self.intake.is_closed()
    }

    /// Puts units that go out at the octets' end.
    pub fn write(&self, outs: &[Out], out: &mut Vec<u8>) -> Result<(), NoMemory>
        ensures { self.now.max_frame ≡ 65535 → OnOk result (out.new.items ≡ out.old.items ++ flat_map out_octets outs.now) }
    {
        push_outs(self.alloc, out, outs, self.max_frame)
    }
}
