//! The half that sends: which commands are kept for the peer, and which it hasn't completed.
ghost use Rattle.std.specs.Prelude.{◌≡◌, ◌+◌, ◌-◌, ◌^◌, ◌<◌, ◌≤◌, ◌&&◌, ◌||◌, ◌++◌, ◌∷◌, ℕ, List, [], length, drop, max, not, nat_le, nat_lt, OnOk, OnErr, IfOk, IfErr, is_ok};
ghost use Rattle.std.specs.List.{remove_range};
ghost use Rattle.std.specs.VecDeque.{deque_len, deque_capacity};
ghost use Rattle.history_model.specs.Life.{Heard, Gave, Expected, Confirmed, Completed, named, past_named, replies, sent as sent_of, kept as kept_of};
ghost use Rattle.session_core.specs.Sent.{Sending, Sends, sent_by, has, Rise, IsFirsts, IsBetween, IsSplit};
ghost use Rattle.serial_ranges.specs.Runs.{names, within};

use crate::fault::UnknownSent;
use amqp_terms::{Unit, Units};
use amqp_values::{NoMemory, Range, Ranges};
use serial_ranges::{RangeSet, unwrap_range};
use std::alloc::Global;
use std::collections::VecDeque;
use std::marker::Model;

/// The half of a session that sends (AMQP 0-10, "session"). Commands are numbered from 0 in the order in which they are
/// given, and kept until the peer names them.
#[derive(Debug, Drop)]
pub struct Sender {
    base: u64,
    kept: VecDeque<Unit>,
    /// The numbers that aren't completed, rising. They may be below the base.
    uncompleted: VecDeque<u64>,
    alloc: Global,
}

impl Model for Sender {
    ghost use Rattle.std.specs.Prelude.{◌-◌, min};
    ghost use Rattle.std.specs.VecDeque.{deque_len, deque_capacity};
    ghost use Rattle.std.specs.Coded.{codes};
    ghost use Rattle.amqp_values.specs.contracts.value.Value as e;
    ghost use Rattle.session_core.specs.Sent.{Sending, IsSending};

    ghost Value = { Sending };

    ghost coded = { Prim.hlevel (codes, e.the_row.coded) };

    ghost view = { λ s. record {
      base = s.base;
      kept = s.kept.items;
      uncompleted = s.uncompleted.items;
      room = min (deque_capacity s.kept - deque_len s.kept) (deque_capacity s.uncompleted - deque_len s.uncompleted);
    } };

    ghost invariant = { λ s. IsSending s.base s.kept.items s.uncompleted.items };
}

impl Sender {
    /// Nothing was given yet. Takes no memory.
    pub fn new(alloc: Global) -> Sender
        ensures { Sends result [] }
    {
        Sender {
            base: 0,
            kept: VecDeque::new(alloc),
            uncompleted: VecDeque::new(alloc),
            alloc,
        }
    }

    /// How many commands were given. Takes no memory.
    pub fn sent(&self) -> u64
        ensures value { result ≡ sent_by self.now }
        ensures sent { (h : List Heard) → Sends self.now h → result ≡ sent_of h }
        ensures limit { result ≤ 2 ^ 62 }
    {
        self.base + self.kept.len() as u64
    }

    /// How many of them are kept: those that the peer neither expects past, nor named as received. Takes no memory.
    pub fn kept(&self) -> u64
        ensures value { result ≡ length self.now.kept }
        ensures kept { (h : List Heard) → Sends self.now h → result ≡ length (kept_of h) }
    {
        self.kept.len() as u64
    }

    /// Makes room for so many commands more. Nothing else changes.
    pub fn reserve(&mut self, more: usize) -> Result<(), NoMemory>
        ensures base { self.new.base ≡ self.old.base }
        ensures kept { self.new.kept ≡ self.old.kept }
        ensures uncompleted { self.new.uncompleted ≡ self.old.uncompleted }
        ensures ok { OnOk result (more ≤ self.new.room) }
        ensures room { self.old.room ≤ self.new.room }
    {
        self.kept.reserve(more)?;
        self.uncompleted.reserve(more)?;
        Ok(())
    }

    /// Keeps a command that is sent, and gives its number. Takes no memory.
    pub fn give(&mut self, unit: Unit) -> u64
        requires room { 0 < self.old.room }
        requires low { sent_by self.old < 2 ^ 62 }
        ensures number { (h : List Heard) → Sends self.old h → result ≡ sent_of h }
        ensures gave { (h : List Heard) → Sends self.old h → Sends self.new (Gave unit ∷ h) }
        ensures room { self.old.room ≤ self.new.room + 1 }
    {
        let number = self.sent();
        self.kept.push_back_reserved(unit);
        self.uncompleted.push_back_reserved(number);
        number
    }

    /// Takes the number that the peer expects next: commands before it are kept no more. Takes no memory.
    pub fn expected(&mut self, number: u64) -> Result<(), UnknownSent>
        ensures ok { is_ok result ≡ (nat_le self.old.base number && nat_le number (sent_by self.old)) }
        ensures expected { OnOk result ((h : List Heard) → Sends self.old h → Sends self.new (Expected number ∷ h)) }
        ensures unknown_sent { IfErr result (λ fault. fault ≡ record { base = self.old.base; sent = sent_by self.old; got = number }) }
        ensures err { OnErr result (self.new ≡ self.old) }
        ensures room { self.old.room ≤ self.new.room }
    {
        let sent = self.sent();
        if number < self.base || sent < number {
            return Err(UnknownSent {
                base: self.base,
                sent,
                got: number,
            });
        }
        let_go(&mut self.kept, (number - self.base) as usize);
        self.base = number;
        Ok(())
    }

    /// Takes a confirmed: commands up to the greatest one that it names are kept no more. Takes no memory.
    pub fn confirmed(&mut self, ranges: &Ranges)
        ensures confirmed { (h : List Heard) → Sends self.old h → Sends self.new (Confirmed (named (sent_by self.old) ranges.now) ∷ h) }
        ensures room { self.old.room ≤ self.new.room }
    {
        let base = base_after(self.sent(), ranges.as_slice(), self.base);
        let_go(&mut self.kept, (base - self.base) as usize);
        self.base = base;
    }

    /// The kept commands from a number on, copied.
    pub fn from(&self, number: u64) -> Result<Units, NoMemory>
        requires low { self.now.base ≤ number }
        requires high { number ≤ sent_by self.now }
        ensures value { IfOk result (λ units. units ≡ drop (number - self.now.base) self.now.kept) }
        ensures from { IfOk result (λ units. (h : List Heard) → Sends self.now h → units ≡ drop number (replies h)) }
    {
        copied_from(self.alloc, &self.kept, (number - self.base) as usize)
    }

    /// The numbers that a completed of these ranges names first: those that weren't completed before.
    pub fn firsts(&self, ranges: &Ranges) -> Result<RangeSet, NoMemory>
        ensures { IfOk result (λ firsts. IsFirsts self.now ranges.now firsts) }
    {
        firsts_of(
            self.alloc,
            self.sent(),
            ranges.as_slice(),
            &self.uncompleted,
        )
    }

    /// Takes a completed, with the numbers that it names first. Takes no memory.
    pub fn completed(&mut self, ranges: &Ranges, firsts: &RangeSet)
        requires { IsFirsts self.old ranges.now firsts.now }
        ensures completed { (h : List Heard) → Sends self.old h → Sends self.new (Completed (named (sent_by self.old) ranges.now) ∷ h) }
        ensures room { self.old.room ≤ self.new.room }
    {
        self.confirmed(ranges);
        complete(&mut self.uncompleted, firsts);
    }
}

/// Lets so many commands go, from the first on.
fn let_go(kept: &mut VecDeque<Unit>, count: usize)
    requires { count ≤ length kept.old.items }
    ensures items { kept.new.items ≡ drop count kept.old.items }
    ensures len { deque_len kept.new ≤ deque_len kept.old }
    ensures capacity { deque_capacity kept.new ≡ deque_capacity kept.old }
{
    drop(kept.drain(..count));
}

/// The base after ranges were named, each as far as it lies below a limit.
fn base_after(limit: u64, ranges: &[Range], base: u64) -> u64
    requires { limit ≤ 2 ^ 62 }
    ensures { result ≡ max (past_named limit (named limit ranges.now)) base }
{
    let mut after = base;
    for range in ranges {
        if let Some((lower, upper)) = unwrap_range(limit, range.lower, range.upper) {
            if lower < limit {
                after = after.max(limit.min(upper + 1));
            }
        }
    }
    after
}

/// Copies of the kept commands from the index-th on.
fn copied_from(alloc: Global, kept: &VecDeque<Unit>, index: usize) -> Result<Units, NoMemory>
    requires { index ≤ length kept.now.items }
    ensures { IfOk result (λ units. units ≡ drop index kept.now.items) }
{
    let mut units = Units::new(alloc);
    for unit in kept.range(index..) {
        units.push(unit.copied(alloc)?)?;
    }
    Ok(units)
}

/// The numbers that ranges name and that aren't completed.
fn firsts_of(
    alloc: Global,
    sent: u64,
    ranges: &[Range],
    uncompleted: &VecDeque<u64>,
) -> Result<RangeSet, NoMemory>
    requires sent { sent ≤ 2 ^ 62 }
    requires rise { Rise 0 sent uncompleted.now.items }
    ensures { IfOk result (λ firsts. (n : ℕ) → names firsts n ≡ (names (named sent ranges.now) n && has uncompleted.now.items n)) }
{
    let mut firsts = RangeSet::new(alloc);
    for range in ranges {
        if let Some((lower, upper)) = unwrap_range(sent, range.lower, range.upper) {
            add_between(&mut firsts, uncompleted, lower, upper)?;
        }
    }
    Ok(firsts)
}

/// Puts the numbers from `lower` to `upper` into the set.
fn add_between(
    set: &mut RangeSet,
    numbers: &VecDeque<u64>,
    lower: u64,
    upper: u64,
) -> Result<(), NoMemory>
    requires small { upper < 2 ^ 63 }
    requires rise { Rise 0 (2 ^ 62) numbers.now.items }
    ensures { OnOk result ((n : ℕ) → names set.new n ≡ ((within (lower, upper) n && has numbers.now.items n) || names set.old n)) }
{
    let (start, end) = between(numbers, lower, upper);
    for number in numbers.range(start..end) {
        set.add(*number)?;
    }
    Ok(())
}

/// Takes the numbers of the set out. Takes no memory.
fn complete(uncompleted: &mut VecDeque<u64>, firsts: &RangeSet)
    requires { Rise 0 (2 ^ 62) uncompleted.old.items }
    ensures has { (n : ℕ) → has uncompleted.new.items n ≡ (not (names firsts.now n) && has uncompleted.old.items n) }
    ensures rise { (limit : ℕ) → Rise 0 limit uncompleted.old.items → Rise 0 limit uncompleted.new.items }
    ensures len { deque_len uncompleted.new ≤ deque_len uncompleted.old }
    ensures capacity { deque_capacity uncompleted.new ≡ deque_capacity uncompleted.old }
{
    for run in firsts.iter() {
        take_between(uncompleted, run.0, run.1);
    }
}

/// Takes the numbers from `lower` to `upper` out. Takes no memory.
fn take_between(numbers: &mut VecDeque<u64>, lower: u64, upper: u64)
    requires small { upper < 2 ^ 63 }
    requires rise { Rise 0 (2 ^ 62) numbers.old.items }
    ensures has { (n : ℕ) → has numbers.new.items n ≡ (not (within (lower, upper) n) && has numbers.old.items n) }
    ensures rise { (limit : ℕ) → Rise 0 limit numbers.old.items → Rise 0 limit numbers.new.items }
    ensures len { deque_len numbers.new ≤ deque_len numbers.old }
    ensures capacity { deque_capacity numbers.new ≡ deque_capacity numbers.old }
{
    let (start, end) = between(numbers, lower, upper);
    cut(numbers, start, end);
}

/// Takes the numbers from the start-th to before the end-th out.
fn cut(numbers: &mut VecDeque<u64>, start: usize, end: usize)
    requires order { start ≤ end }
    requires few { end ≤ length numbers.old.items }
    ensures items { numbers.new.items ≡ remove_range numbers.old.items start end }
    ensures len { deque_len numbers.new ≤ deque_len numbers.old }
    ensures capacity { deque_capacity numbers.new ≡ deque_capacity numbers.old }
{
    drop(numbers.drain(start..end));
}

/// Where the numbers from `lower` to `upper` stand: from the first of these places to before the second.
fn between(numbers: &VecDeque<u64>, lower: u64, upper: u64) -> (usize, usize)
    requires small { upper < 2 ^ 63 }
    requires rise { Rise 0 (2 ^ 62) numbers.now.items }
    ensures { IsBetween numbers.now.items lower upper result.0 result.1 }
{
    let start = below(numbers, lower);
    let end = below(numbers, upper + 1);
    (start, end.max(start))
}

/// How many of the numbers are below this one.
fn below(numbers: &VecDeque<u64>, number: u64) -> usize
    requires { Rise 0 (2 ^ 62) numbers.now.items }
    ensures { IsSplit numbers.now.items number result }
{
    numbers.partition_point(
        |n: &u64| -> bool
            ensures { result ≡ nat_lt n.now number }
        { *n < number },
    )
}
