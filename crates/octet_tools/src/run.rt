//! Runs over an input.
ghost use Rattle.std.specs.Prelude.{◌≡◌, ◌≢◌, ℕ, ◌+◌, ◌-◌, ◌<◌, ◌≤◌, ◌^◌, List, [], Option, Some, length, max};
ghost use Rattle.std.specs.Io.KnownBytes.{IsAtEnd};
ghost use Rattle.octet_tools.specs.Course.{Course, Opens, MayRun};
ghost use Rattle.octet_tools.specs.Run.{ReportsTold, ReadHasCause, WriteHasCause, WritesCause, PutsText, Puts, Reached, Turns, TurnReadCause, TurnWriteCause, TurnEnds, TurnMoves};
ghost use Rattle.octet_tools.specs.Taking.{StandsFor};
ghost use Rattle.octet_tools.specs.Units.{KeepsUnits};

use crate::course::{Stage, Stop};
use crate::tool::OctetTool;
use line_runs::{LONGEST_INPUT, Written, write_all};
use octet_reading::Why;
use outside_core::{ReadAnswer, Sink, Source};
use std::alloc::Global;

/// How many octets are asked for at once.
const CHUNK: usize = 65_536;

/// How a run over an input ended.
#[derive(Clone, Copy, Debug, PartialEq, Eq)]
pub enum OctetsEnded {
    /// The input was read to its end, and the whole output written.
    Ok,
    /// The first fault of the octets, at the place of its frame, or of the first frame of its unit's assembly.
    /// What came before it was written.
    Malformed { at: u64, why: Why },
    ReadFault,
    WriteFault,
    NoMemory,
    /// The input has more than `LONGEST_INPUT` octets. What these gave was written.
    InputTooLong,
}

/// What a turn brought.
#[derive(Clone, Copy, Debug, PartialEq, Eq)]
enum Turned {
    /// So many octets were taken.
    More(usize),
    Over(OctetsEnded),
}

/// Writes a text, and ends as a piece did.
fn put_text<B: Sink>(text: &[u8], stop: Option<OctetsEnded>, out: &mut B) -> Option<OctetsEnded>
    requires { stop ≢ Some OctetsEnded.WriteFault }
    ensures writes { PutsText text.now stop (B.held out.old) (B.held out.new) result }
    ensures cause { WritesCause (B.faults out.old) (B.faults out.new) result }
{
    match write_all(out, text) {
        Written::All => stop,
        Written::Failed => Some(OctetsEnded::WriteFault),
        Written::NoMemory => Some(OctetsEnded::NoMemory),
    }
}

/// Takes a piece, and writes its text.
fn put_piece<B: Sink>(
    alloc: Global,
    tool: OctetTool,
    stage: &mut Stage,
    piece: &[u8],
    text: &mut Vec<u8>,
    out: &mut B,
) -> Option<OctetsEnded>
    requires { MayRun tool }
    ensures puts { (c : Course) → StandsFor stage.old c → Puts tool (StandsFor stage.new) c piece.now (B.held out.old) (B.held out.new) result }
    ensures cause { WritesCause (B.faults out.old) (B.faults out.new) result }
    ensures never_read { result ≢ Some OctetsEnded.ReadFault }
    ensures never_ends { result ≢ Some OctetsEnded.Ok }
{
    text.clear();
    match stage.take(alloc, tool, piece, text) {
        Ok(()) => put_text(text.as_slice(), None, out),
        Err(Stop::Malformed { at, why }) => put_text(
            text.as_slice(),
            Some(OctetsEnded::Malformed { at, why }),
            out,
        ),
        Err(Stop::NoMemory) => Some(OctetsEnded::NoMemory),
    }
}

/// Reads a piece and takes it. One octet past the room shows that there are too many.
fn turn<A: Source, B: Sink>(
    alloc: Global,
    tool: OctetTool,
    stage: &mut Stage,
    room: u64,
    chunk: &mut [u8],
    text: &mut Vec<u8>,
    input: &mut A,
    out: &mut B,
) -> Turned
    requires tool { MayRun tool }
    requires some { 0 < length chunk.old }
    requires few { length chunk.old ≤ max room 1 }
    ensures turns { (left held : Option (List ℕ)) → Reached tool left (A.left input.old) held (B.held out.old) stage.old room
        → Turns tool left (A.left input.new) held (B.held out.new) stage.new room result }
    ensures moves { TurnMoves room result }
    ensures ends { TurnEnds (A.left input.new) result }
    ensures read_cause { TurnReadCause (A.faults input.old) (A.faults input.new) result }
    ensures write_cause { TurnWriteCause (B.faults out.old) (B.faults out.new) result }
{
    match input.read(chunk) {
        ReadAnswer::Took(count) => {
            if room == 0 {
                return Turned::Over(OctetsEnded::InputTooLong);
            }
            let (piece, _) = chunk.split_at(count);
            match put_piece(alloc, tool, stage, piece, text, out) {
                None => Turned::More(count),
                Some(ended) => Turned::Over(ended),
            }
        }
        ReadAnswer::End => Turned::Over(OctetsEnded::Ok),
        ReadAnswer::Failed => Turned::Over(OctetsEnded::ReadFault),
    }
}

/// How many octets are asked for next.
fn size_of(chunk: &[u8], room: u64) -> usize
    requires { 0 < length chunk.now }
    ensures some { 0 < result }
    ensures within { result ≤ length chunk.now }
    ensures few { result ≤ max room 1 }
{
    room.clamp(1, chunk.len() as u64) as usize
}

/// Takes pieces until the run ends.
fn run_over<A: Source, B: Sink>(
    alloc: Global,
    tool: OctetTool,
    stage: &mut Stage,
    chunk: &mut [u8],
    text: &mut Vec<u8>,
    input: &mut A,
    out: &mut B,
) -> OctetsEnded
    requires tool { MayRun tool }
    requires fresh { StandsFor stage.old (Opens []) }
    requires some { 0 < length chunk.old }
    ensures reports { ReportsTold tool (A.left input.old) (A.left input.new) (B.held out.old) (B.held out.new) result }
    ensures read_to_end { result ≡ OctetsEnded.Ok → IsAtEnd (A.left input.new) }
    ensures read_cause { ReadHasCause (A.faults input.old) (A.faults input.new) result }
    ensures write_cause { WriteHasCause (B.faults out.old) (B.faults out.new) result }
{
    let mut room = LONGEST_INPUT;
    loop {
        let size = size_of(chunk, room);
        match turn(
            alloc,
            tool,
            stage,
            room,
            &mut chunk[..size],
            text,
            input,
            out,
        ) {
            Turned::More(count) => room -= count as u64,
            Turned::Over(ended) => return ended,
        }
    }
}

/// Lets a tool take the octets of an input, and writes what it gives for each piece before the next is read.
pub fn run_octets<A: Source, B: Sink>(
    alloc: Global,
    tool: OctetTool,
    input: &mut A,
    out: &mut B,
) -> OctetsEnded
    requires { MayRun tool }
    ensures reports { ReportsTold tool (A.left input.old) (A.left input.new) (B.held out.old) (B.held out.new) result }
    ensures read_to_end { result ≡ OctetsEnded.Ok → IsAtEnd (A.left input.new) }
    ensures read_cause { ReadHasCause (A.faults input.old) (A.faults input.new) result }
    ensures write_cause { WriteHasCause (B.faults out.old) (B.faults out.new) result }
    ensures keeps { KeepsUnits tool }
{
    let Ok(mut chunk) = vec![in alloc; 0; CHUNK] else {
        return OctetsEnded::NoMemory;
    };
    let mut stage = Stage::new(alloc);
    let mut text = Vec::new(alloc);
    run_over(
        alloc,
        tool,
        &mut stage,
        chunk.as_mut_slice(),
        &mut text,
        input,
        out,
    )
}
