//! The octets of a connection to units.
ghost use Rattle.std.specs.Prelude.{◌≡◌, ℕ, ◌++◌, List, [], flat_map, IfOk, OnOk, None, Some};
ghost use Rattle.amqp_frames.specs.Assembly.{IsPlaced};
ghost use Rattle.amqp_commands.specs.Units.{unit_in};
ghost use Rattle.broker_engine.specs.Talk.{unit_brings, talk, is_shut};
ghost use Rattle.broker_engine.specs.Wire.{close_octets};
ghost use Rattle.broker_engine.specs.Feeds.{TakesIn, FeedsIn, Read, TakesSome};

use crate::write::push_close;
use amqp_commands::{UnitError, UnitFault, read_unit};
use amqp_frames::{Assembler, Done, FrameError, FrameFault};
use amqp_terms::Unit;
use amqp_values::{NoMemory, Why};
use std::alloc::Global;

/// Where and why a connection became Closed. Its peer was told.
#[derive(Clone, Copy, Debug, PartialEq, Eq)]
pub struct Closing {
    /// The place of the frame, or of the first frame of the unit's assembly. Places count the
    /// connection's octets from 0.
    pub at: u64,
    /// The segment of a unit that is no unit, from 0, and the index within it.
    pub segment: Option<(u32, u64)>,
    /// None where the peer closed it.
    pub why: Option<Why>,
}

/// What came of a piece of octets.
#[derive(Debug, Drop)]
pub struct Fed {
    /// The octets that were taken: those up to the end of the first unit for the hub, else all.
    pub taken: usize,
    /// The unit, with its channel before it.
    pub unit: Option<(u16, Unit)>,
    /// There in the call in which the connection becomes Closed.
    pub closed: Option<Closing>,
}

/// Open, with what came of assemblies; or Closed, for good.
#[derive(Drop)]
enum State {
    Open(Assembler),
    Closed,
}

/// The octets of one connection to units.
///
/// Contracts speak of it by the octets that its peer sent.
#[derive(Drop)]
pub(crate) struct Intake {
    alloc: Global,
    state: State,
    /// The place of the first frame of the last unit.
    at: u64,
}

/// A unit's fault, as a connection is closed for it.
fn closing_of(at: u64, fault: UnitFault) -> Closing
    ensures { result ≡ record { at = at; segment = Some (fault.segment, fault.at); why = Some fault.why } }
{
    Closing {
        at,
        segment: Some((fault.segment, fault.at)),
        why: Some(fault.why),
    }
}

impl Intake {
    /// Nothing came yet; places count from `first`: 8 after a protocol header, else 0.
    pub(crate) fn new(alloc: Global, max_frame: u16, first: u64) -> Result<Intake, NoMemory>
        ensures { max_frame ≡ 65535 → first ≡ 0 → IfOk result (λ intake. TakesIn intake []) }
    {
        let assembler = Assembler::new(alloc, max_frame, first)?;
        Ok(Intake {
            alloc,
            state: State::Open(assembler),
            at: first,
        })
    }

    /// Takes octets up to the end of the first unit, else all. A peer that sent none is told so, and what follows is
    /// passed over.
    ///
    /// Without memory the connection is only to be dropped.
    pub(crate) fn feed(&mut self, piece: &[u8], out: &mut Vec<u8>) -> Result<Fed, NoMemory>
        ensures feeds { (before : List ℕ) → TakesIn self.old before → IfOk result (λ fed. FeedsIn self.new before piece.now out.old.items out.new.items fed) }
        ensures takes { TakesSome piece.now result }
    {
        match &mut self.state {
            State::Closed => Ok(Fed {
                taken: piece.len(),
                unit: None,
                closed: None,
            }),
            State::Open(assembler) => match assembler.feed(piece) {
                Ok(fed) => {
                    let amqp_frames::Fed { taken, done } = fed;
                    match done {
                        None => Ok(Fed {
                            taken,
                            unit: None,
                            closed: None,
                        }),
                        Some(done) => self.read(taken, piece.len(), done, out),
                    }
                }
                Err(FrameError::Bad(fault)) => {
                    let closing = Closing {
                        at: fault.at,
                        segment: None,
                        why: Some(fault.why),
                    };
                    self.close(piece.len(), closing, fault.why, out)
                }
                Err(FrameError::NoMemory) => Err(NoMemory),
            },
        }
    }

    /// Reads the unit of an assembly that came.
    fn read(
        &mut self,
        taken: usize,
        all: usize,
        done: Done,
        out: &mut Vec<u8>,
    ) -> Result<Fed, NoMemory>
        requires { IsPlaced done.assembly }
        ensures { IfOk result (λ fed. Read (unit_brings done.channel done.at (unit_in done.assembly)) taken all self.old.state self.new.state fed out.old.items out.new.items) }
    {
        let Done {
            channel,
            assembly,
            at,
            end: _,
        } = done;
        self.at = at;
        match read_unit(self.alloc, &assembly) {
            Ok(unit) => Ok(Fed {
                taken,
                unit: Some((channel, unit)),
                closed: None,
            }),
            Err(UnitError::Bad(fault)) => self.close(all, closing_of(at, fault), fault.why, out),
            Err(UnitError::NoMemory) => Err(NoMemory),
        }
    }

    /// Tells the peer why the connection is closed, and takes no more of it.
    fn close(
        &mut self,
        taken: usize,
        closing: Closing,
        why: Why,
        out: &mut Vec<u8>,
    ) -> Result<Fed, NoMemory>
        ensures { IfOk result (λ fed. (fed ≡ record { taken = taken; unit = None; closed = Some closing }) × (self.new.state ≡ State.Closed)
            × (out.new.items ≡ out.old.items ++ close_octets why)) }
    {
        push_close(self.alloc, out, why)?;
        self.shut();
        Ok(Fed {
            taken,
            unit: None,
            closed: Some(closing),
        })
    }

    /// Whether it is Closed, and hears nothing more.
    pub(crate) fn is_closed(&self) -> bool
        ensures { (before : List ℕ) → TakesIn self.now before → result ≡ is_shut (talk before) }
    {
        match &self.state {
            State::Open(_) => false,
            State::Closed => true,
        }
    }

    /// The place of the first frame of the last unit.
    pub(crate) fn at(&self) -> u64 {
        self.at
    }

    /// Takes frames of another largest size from now on.
    pub(crate) fn set_max(&mut self, max_frame: u16) {
        if let State::Open(assembler) = &mut self.state {
            assembler.set_max(max_frame);
        }
    }

    /// Hears nothing more.
    pub(crate) fn shut(&mut self)
        ensures { self.new.state ≡ State.Closed }
    {
        self.state = State::Closed;
    }
}
