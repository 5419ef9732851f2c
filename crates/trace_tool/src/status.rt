//! How a tool ended.
ghost use Rattle.std.specs.Prelude.{◌≡◌};
ghost use Rattle.trace_tool.specs.Tool.{status_of, status_of_octets, code_of};

use line_runs::{Ended, TraceWhy};
use octet_reading::Why;
use octet_tools::OctetsEnded;
use std::fmt;

/// How a tool ended, with the number that the process ends with.
#[derive(Clone, Copy, Debug, PartialEq, Eq)]
pub enum Status {
    /// 0: the input was read to its end, and the whole output written.
    Ok,
    /// 1: the words are none of a tool's forms. Nothing was read.
    Usage,
    /// 2: the first line that breaks its form. Lines count from 1.
    BadTrace { line: u64, why: TraceWhy },
    /// 3
    ReadFault,
    /// 4
    WriteFault,
    /// 5
    NoMemory,
    /// 8: the input has more than 2^30 octets.
    InputTooLong,
    /// 9: the first fault of octets that are no frames or no units, at the place of the frame, or of the first
    /// frame of the unit's assembly. Places count the input's octets from 0.
    Malformed { at: u64, why: Why },
    /// 10: the first line that asks for what isn't built yet.
    Unbuilt { line: u64 },
}

impl Status {
    /// The status of a run over lines.
    pub(crate) fn of(ended: Ended) -> Status
        ensures { result ≡ status_of ended }
    {
        match ended {
            Ended::Ok => Status::Ok,
            Ended::BadLine { line, why } => Status::BadTrace { line, why },
            Ended::Unbuilt { line } => Status::Unbuilt { line },
            Ended::ReadFault => Status::ReadFault,
            Ended::WriteFault => Status::WriteFault,
            Ended::NoMemory => Status::NoMemory,
            Ended::InputTooLong => Status::InputTooLong,
        }
    }

    /// The status of a run over octets.
    pub(crate) fn of_octets(ended: OctetsEnded) -> Status
        ensures { result ≡ status_of_octets ended }
    {
        match ended {
            OctetsEnded::Ok => Status::Ok,
            OctetsEnded::Malformed { at, why } => Status::Malformed { at, why },
            OctetsEnded::ReadFault => Status::ReadFault,
            OctetsEnded::WriteFault => Status::WriteFault,
            OctetsEnded::NoMemory => Status::NoMemory,
            OctetsEnded::InputTooLong => Status::InputTooLong,
        }
    }

    /// The number that the process ends with.
    pub fn code(self) -> u8
        ensures { result ≡ code_of self }
    {
        match self {
            Status::Ok => 0,
            Status::Usage => 1,
            Status::BadTrace { line: _, why: _ } => 2,
            Status::ReadFault => 3,
            Status::WriteFault => 4,
            Status::NoMemory => 5,
            Status::InputTooLong => 8,
            Status::Malformed { at: _, why: _ } => 9,
            Status::Unbuilt { line: _ } => 10,
        }
    }
}

impl fmt::Display for Status {
    fn fmt<W: fmt::Write>(&self, f: &mut fmt::Formatter<W>) -> fmt::Result {
        match self {
            Status::Ok => write!(f, "Ok"),
            Status::Usage => write!(f, "Usage"),
            Status::BadTrace { line, why } => write!(f, "BadTrace {line} {why:?}"),
            Status::ReadFault => write!(f, "ReadFault"),
            Status::WriteFault => write!(f, "WriteFault"),
            Status::NoMemory => write!(f, "NoMemory"),
            Status::InputTooLong => write!(f, "InputTooLong"),
            Status::Malformed { at, why } => write!(f, "Malformed {at} {why:?}"),
            Status::Unbuilt { line } => write!(f, "Unbuilt {line}"),
        }
    }
}
