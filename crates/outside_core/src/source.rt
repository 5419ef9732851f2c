//! Where octets come from.
ghost use Rattle.std.specs.Prelude.{◌≡◌, ℕ, ◌<◌, ◌≤◌, List, Option, Some, IfSome, length};
ghost use Rattle.outside_core.specs.Source.{Reads, ReadHasCause};

use crate::Calls;
use std::marker::Model;

/// What a read answered.
#[derive(Clone, Copy, Debug, PartialEq, Eq)]
pub enum ReadAnswer {
    /// So many octets, from 1 to the buffer's length, stand at the buffer's front.
    Took(usize),
    /// Nothing is left.
    End,
    /// The read failed, and nothing moved.
    Failed,
}

/// A stream of octets.
pub trait Source {
    ghost use Rattle.std.specs.Prelude.{ℕ, List, Option, length, ◌<◌};
    ghost use Rattle.outside_core.specs.Source.{Reads, ReadHasCause};

    /// The octets that are left, where the source tells them.
    ghost left: { Self → Option (List ℕ) };

    /// How many reads failed. It never falls, and stands still at the greatest u64.
    ghost faults: { Self → ℕ };

    /// Reads some of the octets that are left.
    fn read(&mut self, into: &mut [u8]) -> ReadAnswer
        requires { 0 < length into.old }
        ensures moves { Reads (left self.old) (left self.new) into.new result }
        ensures cause { ReadHasCause (faults self.old) (faults self.new) result };
}

/// A source over octets in memory.
#[derive(Debug, Drop)]
pub struct MemSource {
    octets: Vec<u8>,
    at: usize,
    step: usize,
    calls: u64,
    failing: Calls,
    failed: u64,
}

impl Model for MemSource {
    ghost use Rattle.std.specs.Prelude.{ℕ, List, ◌≤◌, ◌<◌, drop, vec_len};
    ghost use Rattle.outside_core.specs.Told.{Told};

    ghost Value = { Told };

    ghost view = { λ s. record { octets = drop s.at s.octets.items; faults = s.failed } };

    ghost invariant = { λ s. (s.at ≤ vec_len s.octets) × (0 < s.step) };
}

impl MemSource {
    /// A source that gives at most `step` octets a call, and fails at the calls of these numbers.
    pub fn new(octets: Vec<u8>, step: usize, failing: Calls) -> MemSource
        requires { 0 < step }
        ensures octets { result.octets ≡ octets.items }
        ensures faults { result.faults ≡ 0 }
    {
        MemSource {
            octets,
            at: 0,
            step,
            calls: 0,
            failing,
            failed: 0,
        }
    }
}

impl Source for MemSource {
    ghost left = { λ s. Some s.octets };

    ghost faults = { λ s. s.faults };

    fn read(&mut self, into: &mut [u8]) -> ReadAnswer {
        self.calls = self.calls.saturating_add(1);
        if self.failing.contains(self.calls) {
            self.failed = self.failed.saturating_add(1);
            return ReadAnswer::Failed;
        }
        let rest = &self.octets[self.at..];
        if rest.is_empty() {
            return ReadAnswer::End;
        }
        let count = rest.len().min(self.step).min(into.len());
        into[..count].copy_from_slice(&rest[..count]);
        self.at += count;
        ReadAnswer::Took(count)
    }
}
