//! Lines out of a source, whatever pieces it gives.
ghost use Rattle.std.specs.Prelude.{◌≡◌, ◌+◌, ◌<◌, ◌≤◌, ◌^◌, [], length, take, MatchOption, IfOk, false};
ghost use Rattle.line_runs.specs.Breaks.{IsUnbroken, BreaksAtFirst};
ghost use Rattle.line_runs.specs.Reading.{Looks, ReadsOnto, OntoHasCause, IsReady, Fills, FillHasCause, IsLast, TakesNext, NextHasCause};

use memchr::memchr;
use octet_reading::NoMemory;
use outside_core::{ReadAnswer, Source};
use std::alloc::Global;
use std::marker::Model;

/// The most octets of a line, its LF aside.
pub const LONGEST_LINE: usize = 131_200;

/// The most octets of an input.
pub const LONGEST_INPUT: u64 = 1_073_741_824;

/// How many octets are asked for at once.
const CHUNK: usize = 65_536;

/// What came next.
#[derive(Debug, Drop)]
pub enum Next {
    /// A line, without its LF. The last one may lack it, if it isn't empty.
    Line(Vec<u8>),
    /// A line of more than `LONGEST_LINE` octets; its end wasn't looked for.
    LongLine,
    /// The input is at its end, and each of its lines was given.
    End,
    /// The source failed, and no whole line was left.
    Failed,
    /// The input has more than `LONGEST_INPUT` octets, and each whole line within them was given.
    TooMuch,
    /// There was no memory. The reading is only to be dropped.
    NoMemory,
}

/// What the octets at hand hold.
#[derive(Debug, Drop)]
enum Ready {
    Line(Vec<u8>),
    LongLine,
    /// No LF, and not too many octets.
    Open,
    NoMemory,
}

/// What a text holds.
#[derive(Clone, Copy, Debug, PartialEq, Eq)]
enum Look {
    /// The index of its first LF.
    Line(usize),
    /// No LF, and not too many octets.
    Open,
    TooLong,
}

/// What a read brought.
#[derive(Clone, Copy, Debug, PartialEq, Eq)]
enum Filled {
    More,
    End,
    Failed,
    TooMuch,
    NoMemory,
}

/// What a read onto a text brought.
#[derive(Clone, Copy, Debug, PartialEq, Eq)]
enum Onto {
    Took(usize),
    End,
    Failed,
    NoMemory,
}

/// The octets that were read and not yet given.
#[derive(Debug, Drop)]
pub struct Reading {
    text: Vec<u8>,
    /// Where the line at hand begins.
    start: usize,
    /// How many octets from there were searched, and hold no LF.
    searched: usize,
    /// How many octets were read, up to `LONGEST_INPUT`.
    count: u64,
    ended: bool,
    chunk: Vec<u8>,
}

impl Model for Reading {
    ghost use Rattle.line_runs.specs.Waiting.{Waiting};

    ghost Value = { Waiting };

    ghost use Rattle.std.specs.Prelude.{drop};
    ghost use Rattle.line_runs.specs.ReadingInside.{IsOpen};

    ghost view = { λ r. record { text = drop r.start r.text.items; count = r.count; ended = r.ended } };

    ghost invariant = { IsOpen };
}

/// The index of the first LF.
fn line_feed(octets: &[u8]) -> Option<usize>
    ensures { MatchOption result (IsUnbroken octets.now) (BreaksAtFirst octets.now) }
{
    memchr(b'\n', octets)
}

/// What a text holds, of which so many octets are known to hold no LF.
fn line_in(text: &[u8], searched: usize) -> Look
    requires within { searched ≤ length text.now }
    requires unbroken { IsUnbroken (take searched text.now) }
    requires short { searched ≤ 131200 }
    ensures { Looks text.now result }
{
    match line_feed(&text[searched..]) {
        Some(more) if more <= LONGEST_LINE - searched => Look::Line(searched + more),
        Some(_) => Look::TooLong,
        None if text.len() <= LONGEST_LINE => Look::Open,
        None => Look::TooLong,
    }
}

/// Reads at most as many octets as the chunk has to the text's end.
fn read_onto<A: Source>(input: &mut A, chunk: &mut [u8], text: &mut Vec<u8>) -> Onto
    requires { 0 < length chunk.old }
    ensures moves { ReadsOnto (A.left input.old) (A.left input.new) text.old.items text.new.items (length chunk.old) result }
    ensures cause { OntoHasCause (A.faults input.old) (A.faults input.new) result }
{
    match input.read(chunk) {
        ReadAnswer::Took(count) => match text.extend_from_slice(&chunk[..count]) {
            Ok(()) => Onto::Took(count),
            Err(_) => Onto::NoMemory,
        },
        ReadAnswer::End => Onto::End,
        ReadAnswer::Failed => Onto::Failed,
    }
}

impl Reading {
    /// Nothing was read yet.
    pub fn new(alloc: Global) -> Result<Reading, NoMemory>
        ensures { IfOk result (λ r. (r.text ≡ []) × (r.count ≡ 0) × (r.ended ≡ false)) }
    {
        let chunk = vec![in alloc; 0; CHUNK]?;
        Ok(Reading {
            text: Vec::new(alloc),
            start: 0,
            searched: 0,
            count: 0,
            ended: false,
            chunk,
        })
    }

    /// Gives the line at hand, if it is whole.
    fn ready(&mut self, alloc: Global) -> Ready
        ensures { IsReady self.old self.new result }
    {
        let text = &self.text[self.start..];
        match line_in(text, self.searched) {
            Look::Line(end) => {
                let Ok(line) = Vec::from_slice(alloc, &text[..end]) else {
                    return Ready::NoMemory;
                };
                self.start += end + 1;
                self.searched = 0;
                Ready::Line(line)
            }
            Look::Open => {
                self.searched = text.len();
                Ready::Open
            }
            Look::TooLong => Ready::LongLine,
        }
    }

    /// Reads further octets. One octet past the limit shows that there are too many.
    fn fill<A: Source>(&mut self, alloc: Global, input: &mut A) -> Filled
        ensures fills { Fills (A.left input.old) (A.left input.new) self.old self.new result }
        ensures cause { FillHasCause (A.faults input.old) (A.faults input.new) result }
    {
        if self.ended {
            return Filled::End;
        }
        let Ok(mut text) = Vec::from_slice(alloc, &self.text[self.start..]) else {
            return Filled::NoMemory;
        };
        let room = LONGEST_INPUT - self.count;
        let size = room.clamp(1, self.chunk.len() as u64) as usize;
        let onto = read_onto(input, &mut self.chunk[..size], &mut text);
        match onto {
            Onto::Took(_) if room == 0 => Filled::TooMuch,
            Onto::Took(count) => {
                self.text = text;
                self.start = 0;
                self.count += count as u64;
                Filled::More
            }
            Onto::End => {
                self.ended = true;
                Filled::End
            }
            Onto::Failed => Filled::Failed,
            Onto::NoMemory => Filled::NoMemory,
        }
    }

    /// Gives what is left as the last line, unless nothing is.
    fn last(&mut self, alloc: Global) -> Next
        ensures { IsLast self.old self.new result }
    {
        let rest = &self.text[self.start..];
        if rest.is_empty() {
            return Next::End;
        }
        let Ok(line) = Vec::from_slice(alloc, rest) else {
            return Next::NoMemory;
        };
        self.start = self.text.len();
        self.searched = 0;
        Next::Line(line)
    }

    /// Gives the next line, reading as far as it must.
    pub fn next<A: Source>(&mut self, alloc: Global, input: &mut A) -> Next
        ensures takes { TakesNext (A.left input.old) (A.left input.new) self.old self.new result }
        ensures cause { NextHasCause (A.faults input.old) (A.faults input.new) result }
    {
        loop {
            match self.ready(alloc) {
                Ready::Line(line) => return Next::Line(line),
                Ready::LongLine => return Next::LongLine,
                Ready::NoMemory => return Next::NoMemory,
                Ready::Open => {}
            }
            match self.fill(alloc, input) {
                Filled::More => {}
                Filled::End => return self.last(alloc),
                Filled::Failed => return Next::Failed,
                Filled::TooMuch => return Next::TooMuch,
                Filled::NoMemory => return Next::NoMemory,
            }
        }
    }
}
