//! Where octets go.
ghost use Rattle.std.specs.Prelude.{◌≡◌, ℕ, ◌<◌, ◌≤◌, List, Option, Some, length, []};
ghost use Rattle.outside_core.specs.Sink.{Writes, WriteHasCause};

use crate::Calls;
use std::alloc::Global;
use std::marker::Model;

/// What a write answered.
#[derive(Clone, Copy, Debug, PartialEq, Eq)]
pub enum WriteAnswer {
    /// So many octets, from 1 to the piece's length, were taken from the piece's front.
    Took(usize),
    /// The write failed, and nothing was taken.
    Failed,
    /// There was no memory, and nothing was taken.
    NoMemory,
}

/// A stream that takes octets.
pub trait Sink {
    ghost use Rattle.std.specs.Prelude.{ℕ, List, Option, length, ◌<◌};
    ghost use Rattle.outside_core.specs.Sink.{Writes, WriteHasCause};

    /// The octets that were taken, where the sink tells them.
    ghost held: { Self → Option (List ℕ) };

    /// How many writes failed. It never falls, and stands still at the greatest u64.
    ghost faults: { Self → ℕ };

    /// Takes some octets of a piece, from its front.
    fn write(&mut self, piece: &[u8]) -> WriteAnswer
        requires { 0 < length piece.now }
        ensures moves { Writes (held self.old) (held self.new) piece.now result }
        ensures cause { WriteHasCause (faults self.old) (faults self.new) result };
}

/// A sink that keeps its octets in memory.
#[derive(Debug, Drop)]
pub struct MemSink {
    octets: Vec<u8>,
    step: usize,
    calls: u64,
    failing: Calls,
    failed: u64,
}

impl Model for MemSink {
    ghost use Rattle.std.specs.Prelude.{ℕ, List, ◌<◌};
    ghost use Rattle.outside_core.specs.Told.{Told};

    ghost Value = { Told };

    ghost view = { λ s. record { octets = s.octets.items; faults = s.failed } };

    ghost invariant = { λ s. 0 < s.step };
}

impl MemSink {
    /// A sink that takes at most `step` octets a call, and fails at the calls of these numbers.
    pub fn new(alloc: Global, step: usize, failing: Calls) -> MemSink
        requires { 0 < step }
        ensures octets { result.octets ≡ [] }
        ensures faults { result.faults ≡ 0 }
    {
        MemSink {
            octets: Vec::new(alloc),
            step,
            calls: 0,
            failing,
            failed: 0,
        }
    }

    /// What was taken, lent.
    pub fn octets(&self) -> &[u8]
        ensures { result.now ≡ self.now.octets }
    {
        self.octets.as_slice()
    }
}

impl Sink for MemSink {
    ghost held = { λ s. Some s.octets };

    ghost faults = { λ s. s.faults };

    fn write(&mut self, piece: &[u8]) -> WriteAnswer {
        self.calls = self.calls.saturating_add(1);
        if self.failing.contains(self.calls) {
            self.failed = self.failed.saturating_add(1);
            return WriteAnswer::Failed;
        }
        let count = piece.len().min(self.step);
        match self.octets.extend_from_slice(&piece[..count]) {
            Ok(()) => WriteAnswer::Took(count),
            Err(_) => WriteAnswer::NoMemory,
        }
    }
}
