//! Octets to assemblies and their text, in pieces of any size.
ghost use Rattle.std.specs.Prelude.{◌≡◌, ◌<◌, ◌≤◌, ◌+◌, ◌++◌, ◌∷◌, ℕ, [], List, length, bytes_eq, IfOk, OnOk, true};
ghost use Rattle.amqp_frames.specs.Assembly.{IsPlaced};
ghost use Rattle.amqp_commands.specs.Units.{unit_in};
ghost use Rattle.octet_tools.specs.Course.{Course, Opens, Runs, protocol_header, unit_brings, done_text, opened, opened_text, MayRun};
ghost use Rattle.octet_tools.specs.Show.{unit_sound};
ghost use Rattle.octet_tools.specs.Taking.{Took, IsAt, StandsFor, Brought, Began, Opened, KeepsOrNoMemory, Takes, Steps};

use crate::tool::OctetTool;
use crate::unit::push_line;
use amqp_commands::{UnitError, read_unit};
use amqp_frames::{Assembler, Done, FrameError, FrameFault, write_frames};
use amqp_terms::Unit;
use octet_reading::{NoMemory, Why, put};
use std::alloc::Global;

/// The octets before the first frame, where a connection's begin: `AMQP`, class 1, instance 1, version 0-10.
const PROTOCOL_HEADER: [u8; 8] = [b'A', b'M', b'Q', b'P', 1, 1, 0, 10];

/// The largest frame.
const LARGEST: u16 = 65_535;

/// Why no more octets are taken.
#[derive(Clone, Copy, Debug, PartialEq, Eq)]
pub(crate) enum Stop {
    /// The first fault, at the place of its frame, or of its assembly's first.
    Malformed { at: u64, why: Why },
    NoMemory,
}

/// What came of the octets.
#[derive(Drop)]
pub(crate) enum Stage {
    /// Fewer than eight, which may be a part of a protocol header.
    Opening(Vec<u8>),
    Open(Assembler),
}

/// Puts what a tool writes for an assembly that is a unit.
fn put_done(
    alloc: Global,
    tool: OctetTool,
    done: &Done,
    unit: &Unit,
    text: &mut Vec<u8>,
) -> Result<(), NoMemory>
    requires tool { MayRun tool }
    requires sound { unit_sound unit.now ≡ true }
    ensures { OnOk result (text.new.items ≡ text.old.items ++ done_text tool done.now unit.now) }
{
    match tool {
        OctetTool::Show => push_line(alloc, text, done.at, done.channel, unit),
        OctetTool::Reframe { max_frame } => write_frames(
            alloc,
            done.channel,
            &done.assembly,
            max_frame,
            text,
        ),
    }
}

/// Reads the unit of an assembly, and puts what a tool writes for it.
fn take_done(alloc: Global, tool: OctetTool, done: &Done, text: &mut Vec<u8>) -> Result<(), Stop>
    requires tool { MayRun tool }
    requires placed { IsPlaced done.now.assembly }
    ensures { Brought tool (unit_brings done.now (unit_in done.now.assembly)) text.old.items text.new.items result }
{
    match read_unit(alloc, &done.assembly) {
        Ok(unit) => {
            let written = put_done(alloc, tool, done, &unit, text);
            drop(unit);
            match written {
                Ok(()) => Ok(()),
                Err(NoMemory) => Err(Stop::NoMemory),
            }
        }
        Err(UnitError::Bad(fault)) => Err(Stop::Malformed {
            at: done.at,
            why: fault.why,
        }),
        Err(UnitError::NoMemory) => Err(Stop::NoMemory),
    }
}

/// The stop of a frame's fault.
fn stop_of(fault: FrameFault) -> Stop
    ensures { result ≡ Stop.Malformed fault.at fault.why }
{
    Stop::Malformed {
        at: fault.at,
        why: fault.why,
    }
}

/// Takes octets of frames up to the end of the first assembly in them, else all; tells how many.
fn step_frames(
    alloc: Global,
    tool: OctetTool,
    assembler: &mut Assembler,
    piece: &[u8],
    text: &mut Vec<u8>,
) -> Result<usize, Stop>
    requires tool { MayRun tool }
    requires some { 0 < length piece.now }
    ensures steps { (c : Course) → IsAt assembler.old c → Steps tool (IsAt assembler.new) c piece.now text.old.items text.new.items result }
    ensures takes { IfOk result (λ n. (0 < n) × (n ≤ length piece.now)) }
{
    match assembler.feed(piece) {
        Ok(fed) => {
            let amqp_frames::Fed { taken, done } = fed;
            match done {
                None => Ok(taken),
                Some(done) => match take_done(alloc, tool, &done, text) {
                    Ok(()) => Ok(taken),
                    Err(stop) => Err(stop),
                },
            }
        }
        Err(FrameError::Bad(fault)) => Err(stop_of(fault)),
        Err(FrameError::NoMemory) => Err(Stop::NoMemory),
    }
}

/// Takes octets of frames.
fn take_frames(
    alloc: Global,
    tool: OctetTool,
    assembler: &mut Assembler,
    piece: &[u8],
    text: &mut Vec<u8>,
) -> Result<(), Stop>
    requires { MayRun tool }
    ensures { (c : Course) → IsAt assembler.old c → Takes tool (IsAt assembler.new) c piece.now text.old.items text.new.items result }
{
    let mut rest = piece;
    while !rest.is_empty() {
        match step_frames(alloc, tool, assembler, rest, text) {
            Ok(taken) => {
                let (_, more) = rest.split_at(taken);
                rest = more;
            }
            Err(stop) => return Err(stop),
        }
    }
    Ok(())
}

/// An assembler behind a protocol header, which `reframe` passes on.
fn open_behind(alloc: Global, tool: OctetTool, text: &mut Vec<u8>) -> Result<Assembler, NoMemory>
    ensures took { IfOk result (λ a. Took a 8 []) }
    ensures passed { OnOk result (text.new.items ≡ text.old.items ++ opened_text tool protocol_header) }
{
    pass_on(tool, text)?;
    Assembler::new(alloc, LARGEST, 8)
}

/// Puts a protocol header where a tool passes it on.
fn pass_on(tool: OctetTool, text: &mut Vec<u8>) -> Result<(), NoMemory>
    ensures { OnOk result (text.new.items ≡ text.old.items ++ opened_text tool protocol_header) }
{
    match tool {
        OctetTool::Show => Ok(()),
        OctetTool::Reframe { max_frame: _ } => put(text, PROTOCOL_HEADER.as_slice()),
    }
}

/// Whether octets are a protocol header.
fn is_header(octets: &[u8]) -> bool
    ensures { result ≡ bytes_eq octets.now protocol_header }
{
    octets == PROTOCOL_HEADER.as_slice()
}

/// An assembler that took octets which are no protocol header.
fn open_frames(
    alloc: Global,
    tool: OctetTool,
    octets: &[u8],
    text: &mut Vec<u8>,
) -> Result<Assembler, Stop>
    requires { MayRun tool }
    ensures { Began tool octets.now text.old.items text.new.items result }
{
    match Assembler::new(alloc, LARGEST, 0) {
        Ok(assembler) => {
            let mut assembler = assembler;
            match take_frames(alloc, tool, &mut assembler, octets, text) {
                Ok(()) => Ok(assembler),
                Err(stop) => Err(stop),
            }
        }
        Err(NoMemory) => Err(Stop::NoMemory),
    }
}

/// Takes the first eight octets.
fn open(alloc: Global, tool: OctetTool, eight: &[u8], text: &mut Vec<u8>) -> Result<Assembler, Stop>
    requires { MayRun tool }
    ensures { length eight.now ≡ 8 → Opened tool eight.now text.old.items text.new.items result }
{
    if !is_header(eight) {
        return open_frames(alloc, tool, eight, text);
    }
    match open_behind(alloc, tool, text) {
        Ok(assembler) => Ok(assembler),
        Err(NoMemory) => Err(Stop::NoMemory),
    }
}

/// Puts octets at the others' end.
fn keep(octets: &mut Vec<u8>, more: &[u8]) -> Result<(), Stop>
    ensures { KeepsOrNoMemory octets.old.items octets.new.items more.now result }
{
    match octets.extend_from_slice(more) {
        Ok(()) => Ok(()),
        Err(_) => Err(Stop::NoMemory),
    }
}

/// Takes what is missing of the first eight octets.
fn begin(
    alloc: Global,
    tool: OctetTool,
    octets: &mut Vec<u8>,
    front: &[u8],
    text: &mut Vec<u8>,
) -> Result<Assembler, Stop>
    requires { MayRun tool }
    ensures { length octets.old.items + length front.now ≡ 8 → Opened tool (octets.old.items ++ front.now) text.old.items text.new.items result }
{
    match keep(octets, front) {
        Ok(()) => open(alloc, tool, octets.as_slice(), text),
        Err(stop) => Err(stop),
    }
}

impl Stage {
    /// Nothing came. Takes no memory.
    pub(crate) fn new(alloc: Global) -> Stage
        ensures { StandsFor result (Opens []) }
    {
        Stage::Opening(Vec::new(alloc))
    }

    /// Takes octets, and puts what the tool writes for them. After a stop it is only to be dropped.
    pub(crate) fn take(
        &mut self,
        alloc: Global,
        tool: OctetTool,
        piece: &[u8],
        text: &mut Vec<u8>,
    ) -> Result<(), Stop>
        requires { MayRun tool }
        ensures { (c : Course) → StandsFor self.old c → Takes tool (StandsFor self.new) c piece.now text.old.items text.new.items result }
    {
        match self {
            Stage::Open(assembler) => take_frames(alloc, tool, assembler, piece, text),
            Stage::Opening(octets) => {
                let missing = 8_usize.saturating_sub(octets.len());
                if piece.len() < missing {
                    return keep(octets, piece);
                }
                let (front, rest) = piece.split_at(missing);
                match begin(alloc, tool, octets, front, text) {
                    Ok(assembler) => {
                        let mut assembler = assembler;
                        let taken = take_frames(alloc, tool, &mut assembler, rest, text);
                        *self = Stage::Open(assembler);
                        taken
                    }
                    Err(stop) => Err(stop),
                }
            }
        }
    }
}
