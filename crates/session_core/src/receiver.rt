//! The half that receives: which number comes next, and which command is new.
ghost use Rattle.std.specs.Prelude.{◌≡◌, ◌+◌, ◌^◌, ◌<◌, ◌≤◌, ◌||◌, ℕ, List, [], ◌∷◌, true, false, OnOk, OnErr, IfOk, IfErr, is_ok, Some};
ghost use Rattle.serial_ranges.specs.Runs.{names, IsLeastMissing};
ghost use Rattle.history_model.specs.Life.{Heard, Point, Does, Gap, named, number, is_new, next as next_of};
ghost use Rattle.history_model.specs.State.{is_within};
ghost use Rattle.session_core.specs.Received.{Received, Receives, pointed, from_on, IsLeft, IsPast, IsUnnamed};

use crate::fault::UnknownIds;
use amqp_values::{NoMemory, Range, Ranges};
use serial_ranges::{RangeSet, unwrap, unwrap_range};
use std::alloc::Global;
use std::marker::Model;

/// A command that arrived.
#[derive(Clone, Copy, Debug, PartialEq, Eq)]
pub struct Arrival {
    /// Its number, from 0 within a session's life.
    pub number: u64,
    /// Whether no command of its number came before, and no gap named it.
    pub new: bool,
}

/// The half of a session that receives (AMQP 0-10, "session"). Numbers count from 0 within a session's life.
#[derive(Debug, Drop)]
pub struct Receiver {
    next: u64,
    point: u64,
    /// The numbers beyond the next that gaps named. Those below it may stand here yet.
    ahead: RangeSet,
    /// About how many of its runs the next number passed.
    passed: usize,
    alloc: Global,
}

impl Model for Receiver {
    ghost use Rattle.session_core.specs.Received.{Received, IsWithin};

    ghost Value = { Received };

    ghost view = { λ r. record { next = r.next; point = r.point; ahead = r.ahead } };

    ghost invariant = { λ r. IsWithin (record { next = r.next; point = r.point; ahead = r.ahead }) };
}

impl Receiver {
    /// Nothing came yet. Takes no memory.
    pub fn new(alloc: Global) -> Receiver
        ensures { Receives result [] }
    {
        Receiver {
            next: 0,
            point: 0,
            ahead: RangeSet::new(alloc),
            passed: 0,
            alloc,
        }
    }

    /// The least number that no command had and no gap named. Takes no memory.
    pub fn next(&self) -> u64
        ensures value { result ≡ self.now.next }
        ensures next { (h : List Heard) → Receives self.now h → result ≡ next_of h }
    {
        self.next
    }

    /// The number that a command-point names; none with an offset, as no command comes in parts here, and where it would
    /// be negative. Takes no memory.
    pub fn pointed(&self, serial: u32, offset: u64) -> Option<u64>
        ensures value { result ≡ pointed self.now.next serial offset }
        ensures pointed { (h : List Heard) → Receives self.now h → result ≡ pointed (next_of h) serial offset }
    {
        if offset == 0 {
            unwrap(self.next, serial)
        } else {
            None
        }
    }

    /// Lets the next command have this number. Takes no memory.
    pub fn point_at(&mut self, number: u64)
        requires { number ≤ self.old.next }
        ensures { (h : List Heard) → Receives self.old h → Receives self.new (Point number ∷ h) }
    {
        self.point = number;
    }

    /// Takes a command-point. It may name a number up to the next one. Takes no memory.
    pub fn point(&mut self, serial: u32, offset: u64) -> Result<(), UnknownIds>
        ensures ok { is_ok result ≡ is_within (pointed self.old.next serial offset) self.old.next }
        ensures point { (h : List Heard) (n : ℕ) → Receives self.old h → pointed self.old.next serial offset ≡ Some n → n ≤ self.old.next → Receives self.new (Point n ∷ h) }
        ensures unknown_ids { IfErr result (λ fault. fault ≡ record { next = self.old.next; got = serial; offset = offset }) }
        ensures err { OnErr result (self.new ≡ self.old) }
    {
        let unknown = UnknownIds {
            next: self.next,
            got: serial,
            offset,
        };
        match self.pointed(serial, offset) {
            Some(number) => {
                if number > self.next {
                    return Err(unknown);
                }
                self.point = number;
                Ok(())
            }
            None => Err(unknown),
        }
    }

    /// What the next command would be. Takes no memory.
    pub fn coming(&self) -> Arrival
        ensures number { (h : List Heard) → Receives self.now h → result.number ≡ number h }
        ensures new { (h : List Heard) → Receives self.now h → result.new ≡ is_new h }
    {
        Arrival {
            number: self.point,
            new: self.point == self.next,
        }
    }

    /// Takes a command. Takes no memory.
    pub fn arrive(&mut self) -> Arrival
        requires { self.old.next < 2 ^ 62 }
        ensures number { (h : List Heard) → Receives self.old h → result.number ≡ number h }
        ensures new { (h : List Heard) → Receives self.old h → result.new ≡ is_new h }
        ensures does { (h : List Heard) → Receives self.old h → Receives self.new (Does ∷ h) }
    {
        let number = self.point;
        let new = number == self.next;
        if new {
            self.next = pass(&mut self.ahead, &mut self.passed, number + 1);
        }
        self.point = number + 1;
        Arrival { number, new }
    }

    /// The next number as a command would leave it. Takes no memory.
    pub fn after_arrive(&self) -> u64
        requires { self.now.next < 2 ^ 62 }
        ensures { (h : List Heard) → Receives self.now h → result ≡ next_of (Does ∷ h) }
    {
        if self.point == self.next {
            self.ahead.least_missing(self.next + 1)
        } else {
            self.next
        }
    }

    /// Takes a gap: the commands of these ranges count as received, and act no more. What they name before the next
    /// number takes no room.
    pub fn gap(&mut self, ranges: &Ranges) -> Result<(), NoMemory>
        requires { self.old.next < 2 ^ 62 }
        ensures gap { OnOk result ((h : List Heard) → Receives self.old h → Receives self.new (Gap (named self.old.next ranges.now) ∷ h)) }
        ensures kept { (n : ℕ) → names self.new.ahead n ≡ true → n < self.old.next → names self.old.ahead n ≡ true }
        ensures err { OnErr result (self.new ≡ self.old) }
    {
        let runs = runs_of(self.alloc, self.next, ranges.as_slice())?;
        self.ahead.add_ranges(runs.as_slice())?;
        self.next = pass(&mut self.ahead, &mut self.passed, self.next);
        Ok(())
    }

    /// The next number as a gap would leave it. Takes no memory, so that ranges that fall are gone over as often as
    /// one of them ends where an earlier one begins.
    pub fn after_gap(&self, ranges: &Ranges) -> u64
        requires { self.now.next < 2 ^ 62 }
        ensures { (h : List Heard) → Receives self.now h → result ≡ next_of (Gap (named self.now.next ranges.now) ∷ h) }
    {
        least_unnamed(&self.ahead, ranges.as_slice(), self.next)
    }
}

/// The least number from this one on that isn't in the set. Runs before it are taken out now and then, so often that
/// they never are the most of them. Takes no memory.
fn pass(ahead: &mut RangeSet, passed: &mut usize, from: u64) -> u64
    requires { from < 2 ^ 63 }
    ensures next { IsLeastMissing ahead.old from result }
    ensures left { IsLeft ahead.old result ahead.new }
{
    let next = ahead.least_missing(from);
    if next > from {
        *passed = passed.saturating_add(1);
    }
    if *passed >= ahead.len() / 2 {
        ahead.remove_below(next);
        *passed = 0;
    }
    next
}

/// The runs that ranges of serials stand for, from the reference on.
fn runs_of(alloc: Global, reference: u64, ranges: &[Range]) -> Result<Vec<(u64, u64)>, NoMemory>
    requires { reference < 2 ^ 63 }
    ensures { IfOk result (λ runs. runs.items ≡ from_on reference (named reference ranges.now)) }
{
    let mut runs = Vec::new(alloc);
    for range in ranges {
        if let Some((lower, upper)) = unwrap_range(reference, range.lower, range.upper) {
            if upper >= reference {
                runs.push((lower.max(reference), upper))?;
            }
        }
    }
    Ok(runs)
}

/// The least number from the reference on that neither the set nor the ranges name.
fn least_unnamed(ahead: &RangeSet, ranges: &[Range], reference: u64) -> u64
    requires low { reference < 2 ^ 62 }
    requires reach { (n : ℕ) → names ahead.now n ≡ true → n < 2 ^ 62 + 2 ^ 33 }
    ensures { IsUnnamed (λ n. names (named reference ranges.now) n || names ahead.now n) reference result }
{
    let mut at = reference;
    loop {
        let missing = ahead.least_missing(at);
        let next = past(ranges, reference, missing);
        if next == at {
            return at;
        }
        at = next;
    }
}

/// A number further on, up to which all are named; the same where the ranges don't name it.
fn past(ranges: &[Range], reference: u64, from: u64) -> u64
    requires { reference < 2 ^ 62 }
    ensures { IsPast (named reference ranges.now) from result }
{
    let mut at = from;
    let mut rest = ranges;
    loop {
        let Some((range, more)) = rest.split_first() else {
            return at;
        };
        if let Some((lower, upper)) = unwrap_range(reference, range.lower, range.upper) {
            if lower <= at && at <= upper {
                at = upper + 1;
            }
        }
        rest = more;
    }
}
