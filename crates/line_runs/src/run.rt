//! The loop over the lines of an input, and what was written when it ended.
ghost use Rattle.std.specs.Prelude.{◌≡◌, ◌≢◌, ℕ, ◌+◌, [], List, Option, Some, length};
ghost use Rattle.std.specs.Io.KnownBytes.{IsAtEnd};
ghost use Rattle.line_runs.specs.Tool.{Grows};
ghost use Rattle.line_runs.specs.Run.{TakesLine, Closes, Reached, ReportsTold, ReadHasCause, WriteHasCause, Turns, MovesOn, KnowsEnd};

use crate::{LineTool, Next, Reading, Stop, TraceWhy, Written, write_all};
use octet_reading::NoMemory;
use outside_core::{Sink, Source};
use std::alloc::Global;

/// How a run over an input ended. Lines count from 1.
#[derive(Clone, Copy, Debug, PartialEq, Eq)]
pub enum Ended {
    /// The input was read to its end, and the whole output written.
    Ok,
    /// The first line that breaks its form.
    BadLine { line: u64, why: TraceWhy },
    /// The first line that asks for what isn't built yet.
    Unbuilt { line: u64 },
    ReadFault,
    WriteFault,
    NoMemory,
    /// The input has more than `LONGEST_INPUT` octets.
    InputTooLong,
}

/// Lets the tool take a line, and writes what it gives.
fn take_line<B: Sink, T: LineTool>(
    alloc: Global,
    tool: &mut T,
    line: &[u8],
    number: u64,
    out: &mut B,
) -> Option<Ended>
    ensures grows { Grows (T.given tool.old) (T.given tool.new) }
    ensures takes { (opened : T) (past : List (List ℕ)) → T.stands tool.old opened past
        → TakesLine (T.step opened) (T.stands tool.new opened) (T.given tool.new) past line.now number
        (B.held out.old) (B.held out.new) result }
    ensures rests { (opened : T) → T.rests tool.old opened → T.rests tool.new opened }
    ensures cause { WriteHasCause (B.faults out.old) (B.faults out.new) result }
    ensures never_read { result ≢ Some Ended.ReadFault }
    ensures never_ends { result ≢ Some Ended.Ok }
{
    match tool.take(alloc, line) {
        Ok(text) => match write_all(out, text.as_slice()) {
            Written::All => None,
            Written::Failed => Some(Ended::WriteFault),
            Written::NoMemory => Some(Ended::NoMemory),
        },
        Err(Stop::BadLine(why)) => Some(Ended::BadLine { line: number, why }),
        Err(Stop::Unbuilt) => Some(Ended::Unbuilt { line: number }),
        Err(Stop::NoMemory) => Some(Ended::NoMemory),
    }
}

/// Writes the tool's closing lines.
fn close<B: Sink, T: LineTool>(alloc: Global, tool: &T, out: &mut B) -> Ended
    ensures closes { (opened : T) (past : List (List ℕ)) → T.stands tool.now opened past
        → Closes (T.closing opened) (T.given tool.now) past (B.held out.old) (B.held out.new) result }
    ensures cause { WriteHasCause (B.faults out.old) (B.faults out.new) (Some result) }
    ensures never_read { result ≢ Ended.ReadFault }
{
    match tool.close(alloc) {
        Ok(text) => match write_all(out, text.as_slice()) {
            Written::All => Ended::Ok,
            Written::Failed => Ended::WriteFault,
            Written::NoMemory => Ended::NoMemory,
        },
        Err(NoMemory) => Ended::NoMemory,
    }
}

/// Takes what comes next.
fn turn<A: Source, B: Sink, T: LineTool>(
    alloc: Global,
    tool: &mut T,
    reading: &mut Reading,
    number: u64,
    input: &mut A,
    out: &mut B,
) -> Option<Ended>
    ensures turns { (opened : T) (past : List (List ℕ)) (left held : Option (List ℕ)) → T.stands tool.old opened past → number ≡ length past + 1
        → Reached (T.step opened) (T.given tool.old) left (A.left input.old) held (B.held out.old) reading.old past
        → Turns (T.step opened) (T.closing opened) (T.stands tool.new opened) (T.given tool.new)
        left (A.left input.new) held (B.held out.new) reading.new number result }
    ensures grows { Grows (T.given tool.old) (T.given tool.new) }
    ensures rests { (opened : T) → T.rests tool.old opened → T.rests tool.new opened }
    ensures moves_on { MovesOn reading.old reading.new result }
    ensures knows_end { KnowsEnd (A.left input.old) (A.left input.new) reading.old reading.new result }
    ensures read_cause { ReadHasCause (A.faults input.old) (A.faults input.new) result }
    ensures write_cause { WriteHasCause (B.faults out.old) (B.faults out.new) result }
{
    match reading.next(alloc, input) {
        Next::Line(line) => take_line(alloc, tool, line.as_slice(), number, out),
        Next::LongLine => Some(Ended::BadLine {
            line: number,
            why: TraceWhy::TooLong,
        }),
        Next::End => Some(close(alloc, tool, out)),
        Next::Failed => Some(Ended::ReadFault),
        Next::TooMuch => Some(Ended::InputTooLong),
        Next::NoMemory => Some(Ended::NoMemory),
    }
}

/// Lets an opened tool take the lines of an input, and writes what it gives for each and at the end.
///
/// Each line's text is written before the next line is looked at.
pub fn run_lines<A: Source, B: Sink, T: LineTool>(
    alloc: Global,
    tool: &mut T,
    input: &mut A,
    out: &mut B,
) -> Ended
    requires opened { T.stands tool.old tool.old [] }
    requires rests { T.rests tool.old tool.old }
    ensures reports { ReportsTold (T.step tool.old) (T.closing tool.old) (T.given tool.new)
        (A.left input.old) (A.left input.new) (B.held out.old) (B.held out.new) result }
    ensures rests { T.rests tool.new tool.old }
    ensures read_to_end { result ≡ Ended.Ok → IsAtEnd (A.left input.new) }
    ensures read_cause { ReadHasCause (A.faults input.old) (A.faults input.new) (Some result) }
    ensures write_cause { WriteHasCause (B.faults out.old) (B.faults out.new) (Some result) }
{
    let Ok(mut reading) = Reading::new(alloc) else {
        return Ended::NoMemory;
    };
    let mut number: u64 = 1;
    loop {
        match turn(alloc, tool, &mut reading, number, input, out) {
            Some(ended) => return ended,
            None => number += 1,
        }
    }
}
