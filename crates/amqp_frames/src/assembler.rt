//! Octets of a connection to assemblies, in any cut.
ghost use Rattle.std.specs.Prelude.{◌≡◌, ◌<◌, ◌≤◌, ◌+◌, ◌^◌, ℕ, List, [], ◌∷◌, ◌++◌, length, take, IfOk, IfSome, OnErr, Some, None};
ghost use Rattle.amqp_frames.specs.Assembly.{IsPlaced};
ghost use Rattle.amqp_frames.specs.Cut.{Frame, Cutting, Cuts, frame_of, header_at, place_after, fault_beside, frame_fault, checked, grown, cut_octet, cut, ended_by};
ghost use Rattle.amqp_frames.specs.Kept.{kept};
ghost use Rattle.amqp_frames.specs.Stands.{Between, Within, StandsAs, Stands, After, Took, KeepsLog, LogKept, TookPiece, Feeds, TakesSome, StepPlaced, FedPlaced, unchecked};
ghost use Rattle.amqp_frames.specs.Touched.{lane_in, lane_number};

use crate::done::{Done, Fed, FrameError, FrameFault};
use crate::header::{FrameHeader, size_fault};
use crate::lane::Lane;
use crate::partial::Partial;
use crate::touched::{Touch, begin, finish, gather, lane_number, mark_in, undo};
use octet_reading::{NoMemory, Why};
use std::alloc::Global;

/// The frame at hand.
#[derive(Clone, Copy)]
pub(crate) struct Front {
    /// The place of its first octet.
    pub(crate) at: u64,
    /// What its header says, once that came whole.
    pub(crate) header: FrameHeader,
    /// How many octets of its payload are still to come; none before the header came whole.
    pub(crate) need: u32,
    /// The payloads of the unfinished assemblies, this frame's counted whole.
    pub(crate) unfinished: u32,
}

/// What a step brought.
#[derive(Drop)]
enum Step {
    Quiet,
    Done(Done),
    Bad(FrameFault),
}

/// How many octets a step took, and what it brought.
#[derive(Drop)]
struct Stepped {
    taken: usize,
    step: Step,
}

/// Makes assemblies of a connection's octets, whatever pieces they come in.
#[derive(Drop)]
pub struct Assembler {
    alloc: Global,
    max_frame: u16,
    partial: Partial,
    front: Front,
    lanes: Vec<Lane>,
    /// What the piece at hand changed, to be taken back where memory is wanting.
    log: Vec<Touch>,
    fault: Option<FrameFault>,
}

impl Assembler {
    /// What is wrong with a frame of this header.
    fn fault_of(&self, header: FrameHeader) -> Option<Why>
        ensures { result ≡ fault_beside self.now.max_frame self.now.front.at header (lane_in self.now.lanes.items (lane_number header)).mark.last
            (lane_in self.now.lanes.items (lane_number header)).mark.size self.now.front.unfinished }
    {
        if let Some(why) = header.form_fault(self.front.at, self.max_frame) {
            return Some(why);
        }
        let mark = mark_in(&self.lanes, lane_number(header));
        if !header.is_in_place(mark.last) {
            return Some(Why::BadFlags);
        }
        size_fault(header.payload(), mark.size, self.front.unfinished)
    }

    /// The frame at hand came whole; its assembly is given where it ends one.
    fn end_frame(&mut self) -> Result<Option<Done>, NoMemory>
        ensures ends { (limits : ℕ → ℕ) (first : ℕ) (frames : List Frame) (rest : List ℕ) → Within self.old limits first frames rest → self.old.front.need ≡ 0
            → IfOk result (λ done. (done ≡ ended_by (frame_of self.old.front.at rest ∷ frames))
            × Between self.new limits first (frame_of self.old.front.at rest ∷ frames) []) }
        ensures placed { IfOk result (λ done. IfSome done (λ d. IsPlaced d.assembly)) }
        ensures kept { result ≡ Ok None → KeepsLog self.old self.new }
        ensures err { OnErr result (KeepsLog self.old self.new) }
    {
        let header = self.front.header;
        let end = self.front.at.saturating_add(u64::from(header.size));
        if !header.ends_assembly() {
            self.front.at = end;
            return Ok(None);
        }
        let mark = mark_in(&self.lanes, lane_number(header));
        let assembly = finish(self.alloc, &mut self.lanes, header)?;
        self.front.unfinished = self.front.unfinished.saturating_sub(mark.size);
        self.front.at = end;
        Ok(Some(Done {
            channel: header.channel,
            assembly,
            at: mark.at,
            end,
        }))
    }

    /// The frame at hand may have come whole.
    fn ended(&mut self) -> Result<Step, NoMemory>
        ensures after { (limits : ℕ → ℕ) (first : ℕ) (frames : List Frame) (rest : List ℕ) → Within self.old limits first frames rest
            → After self.new limits first (grown self.old.front.at frames rest) result }
        ensures log { LogKept self.old self.new result }
        ensures placed { StepPlaced result }
    {
        if self.front.need > 0 {
            return Ok(Step::Quiet);
        }
        match self.end_frame()? {
            Some(done) => Ok(Step::Done(done)),
            None => Ok(Step::Quiet),
        }
    }

    /// Takes a header that came whole.
    fn take_header(&mut self, header: FrameHeader) -> Result<Step, NoMemory>
        ensures after { (limits : ℕ → ℕ) (first : ℕ) (frames : List Frame) (rest : List ℕ) → Between self.old limits first frames [] → length rest ≡ 12 → header ≡ header_at rest
            → After self.new limits first (checked (frame_fault (limits (place_after first frames)) (place_after first frames) header frames) (place_after first frames) frames rest) result }
        ensures log { LogKept self.old self.new result }
        ensures placed { StepPlaced result }
    {
        match self.fault_of(header) {
            Some(why) => Ok(Step::Bad(FrameFault {
                at: self.front.at,
                why,
            })),
            None => {
                begin(
                    self.alloc,
                    &mut self.lanes,
                    &mut self.log,
                    header,
                    self.front.at,
                )?;
                let payload = header.payload();
                self.front.header = header;
                self.front.need = payload;
                self.front.unfinished = self.front.unfinished.saturating_add(payload);
                self.ended()
            }
        }
    }

    /// Takes an octet of a header.
    fn take_octet(&mut self, octet: u8) -> Result<Step, NoMemory>
        ensures after { (limits : ℕ → ℕ) (first : ℕ) (frames : List Frame) (rest : List ℕ) → Between self.old limits first frames rest
            → After self.new limits first (cut_octet limits first (Cuts frames rest) octet) result }
        ensures log { LogKept self.old self.new result }
        ensures placed { StepPlaced result }
    {
        match self.partial.push(octet) {
            Some(octets) => self.take_header(FrameHeader::of(&octets)),
            None => Ok(Step::Quiet),
        }
    }

    /// Takes octets of a payload, no more than are still to come.
    fn take_payload(&mut self, run: &[u8]) -> Result<Step, NoMemory>
        requires low { 0 < length run.now }
        requires high { length run.now ≤ self.old.front.need }
        ensures took { (limits : ℕ → ℕ) (first : ℕ) (frames : List Frame) (rest : List ℕ) → Within self.old limits first frames rest
            → Took self.new limits first (Cuts frames rest) run.now result }
        ensures log { LogKept self.old self.new result }
        ensures placed { StepPlaced result }
    {
        let need = self.front.need;
        gather(
            self.alloc,
            &mut self.lanes,
            &mut self.log,
            self.front.header,
            run,
        )?;
        self.front.need = need - run.len() as u32;
        self.ended()
    }

    /// Takes the first octets of a piece that isn't empty.
    fn step(&mut self, piece: &[u8]) -> Result<Stepped, NoMemory>
        requires { 0 < length piece.now }
        ensures takes { IfOk result (λ s. (0 < s.taken) × (s.taken ≤ length piece.now)) }
        ensures took { (limits : ℕ → ℕ) (first : ℕ) (cutting : Cutting) → StandsAs self.old limits first cutting → self.old.fault ≡ None
            → IfOk result (λ s. Took self.new limits first cutting (take s.taken piece.now) (Ok s.step)) }
        ensures log { IfOk result (λ s. LogKept self.old self.new (Ok s.step)) }
        ensures placed { IfOk result (λ s. StepPlaced (Ok s.step)) }
        ensures err { OnErr result (KeepsLog self.old self.new) }
    {
        if self.front.need == 0 {
            let step = self.take_octet(piece[0])?;
            return Ok(Stepped { taken: 1, step });
        }
        let taken = piece.len().min(self.front.need as usize);
        let step = self.take_payload(&piece[..taken])?;
        Ok(Stepped { taken, step })
    }

    /// Takes a piece up to the end of the first assembly in it, else whole.
    fn take(&mut self, piece: &[u8]) -> Result<Fed, FrameError>
        ensures took { (limits : ℕ → ℕ) (first : ℕ) (cutting : Cutting) → StandsAs self.old limits first cutting → self.old.fault ≡ None
            → TookPiece self.new limits first cutting piece.now result }
        ensures takes { TakesSome piece.now result }
        ensures placed { FedPlaced result }
        ensures no_memory { result ≡ Err FrameError.NoMemory → KeepsLog self.old self.new }
    {
        let mut rest = piece;
        while !rest.is_empty() {
            let Stepped { taken, step } = match self.step(rest) {
                Ok(stepped) => stepped,
                Err(NoMemory) => return Err(FrameError::NoMemory),
            };
            let (_, after) = rest.split_at(taken);
            rest = after;
            match step {
                Step::Quiet => {}
                Step::Done(done) => {
                    return Ok(Fed {
                        taken: piece.len() - rest.len(),
                        done: Some(done),
                    });
                }
                Step::Bad(fault) => return Err(FrameError::Bad(fault)),
            }
        }
        Ok(Fed {
            taken: piece.len(),
            done: None,
        })
    }

    /// Takes a piece where no fault came yet, and takes all back where memory is wanting.
    fn feed_on(&mut self, piece: &[u8]) -> Result<Fed, FrameError>
        requires { self.old.fault ≡ None }
        ensures feeds { (limits : ℕ → ℕ) (first : ℕ) (octets : List ℕ) → Stands self.old limits first octets → Feeds self.new limits first octets piece.now result }
        ensures takes { TakesSome piece.now result }
        ensures placed { FedPlaced result }
    {
        let partial = self.partial.copied();
        let front = self.front;
        self.log.clear();
        match self.take(piece) {
            Ok(fed) => {
                let Fed { taken, done } = fed;
                Ok(Fed { taken, done })
            }
            Err(FrameError::Bad(fault)) => {
                // Nothing that came is of use any more.
                self.lanes = Vec::new(self.alloc);
                self.log = Vec::new(self.alloc);
                self.partial = Partial::new();
                self.fault = Some(fault);
                Err(FrameError::Bad(fault))
            }
            Err(FrameError::NoMemory) => {
                undo(&mut self.lanes, &mut self.log);
                self.partial = partial;
                self.front = front;
                Err(FrameError::NoMemory)
            }
        }
    }

    /// An assembler that took no octets. Its places count from `first`: 8 after a protocol header, else 0.
    pub fn new(alloc: Global, max_frame: u16, first: u64) -> Result<Assembler, NoMemory>
        ensures { (limits : ℕ → ℕ) → ((p : ℕ) → first ≤ p → limits p ≡ max_frame) → IfOk result (λ a. Stands a limits first []) }
    {
        let header = FrameHeader {
            flags: 0,
            kind: 0,
            size: 0,
            track: 0,
            channel: 0,
        };
        Ok(Assembler {
            alloc,
            max_frame,
            partial: Partial::new(),
            front: Front {
                at: first,
                header,
                need: 0,
                unfinished: 0,
            },
            lanes: Vec::new(alloc),
            log: Vec::new(alloc),
            fault: None,
        })
    }

    /// Sets the largest frame, from the next frame on whose header didn't come whole.
    pub fn set_max(&mut self, max_frame: u16)
        ensures { (before limits : ℕ → ℕ) (first : ℕ) (octets : List ℕ) → Stands self.old before first octets → cut limits first octets ≡ cut before first octets
            → ((p : ℕ) → unchecked first (cut before first octets) ≤ p → limits p ≡ max_frame) → Stands self.new limits first octets }
    {
        self.max_frame = max_frame;
    }

    /// Takes octets up to the end of the first assembly in them, else all.
    ///
    /// After a fault each further piece is answered by the same one, and no octets are kept.
    pub fn feed(&mut self, piece: &[u8]) -> Result<Fed, FrameError>
        ensures feeds { (limits : ℕ → ℕ) (first : ℕ) (octets : List ℕ) → Stands self.old limits first octets → Feeds self.new limits first octets piece.now result }
        // The payloads of open assemblies, and a part of a header.
        ensures keeps { (limits : ℕ → ℕ) (first : ℕ) (octets : List ℕ) → Stands self.old limits first octets → kept self.new ≤ 2 ^ 25 + 11 }
        ensures takes { TakesSome piece.now result }
        ensures placed { FedPlaced result }
    {
        match self.fault {
            Some(fault) => Err(FrameError::Bad(fault)),
            None => self.feed_on(piece),
        }
    }
}
