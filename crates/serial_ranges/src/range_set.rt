//! Sets of numbers by their maximal runs.
ghost use Rattle.std.specs.Prelude.{◌≡◌, ◌+◌, ◌^◌, ◌<◌, ◌≤◌, ◌++◌, ◌∷◌, nat_lt, nat_le, ℕ, List, [], length, take, drop, fold, OnOk, OnErr, IfOk, IsOk};
ghost use Rattle.std.specs.Vec.{vec_len, vec_capacity};
ghost use Rattle.serial_ranges.specs.Runs.{names, AreRuns, AreRanges, Adds, AddsAll, Cuts, IsLeastMissing, IsSplit, IsBehind, join, trimmed, common, Meets, IsMet};
ghost use Rattle.std.specs.Iterator.{YieldsFirst, item_count};

use octet_reading::NoMemory;
use std::alloc::Global;
use std::marker::Model;

/// A set of numbers below 2^63. It is kept as its maximal runs, so that a wide range costs what a single number does.
#[derive(Debug, Drop)]
pub struct RangeSet {
    /// Both ends of each, rising; between two of them a number is missing.
    runs: Vec<(u64, u64)>,
}

impl Model for RangeSet {
    ghost use Rattle.std.specs.Prelude.{ℕ, List};
    ghost use Rattle.serial_ranges.specs.Runs.{AreRuns};

    ghost Value = { List (ℕ × ℕ) };

    ghost view = { λ s. s.runs.items };

    ghost invariant = { λ s. AreRuns s.runs.items };
}

/// How many runs end before a number.
fn ended(runs: &[(u64, u64)], number: u64) -> usize
    requires { AreRuns runs.now }
    ensures { IsSplit (λ run. run.1 < number) (λ run. number ≤ run.1) runs.now result }
{
    runs.partition_point(
        |run: &(u64, u64)| -> bool
            ensures { result ≡ nat_lt run.now.1 number }
        { run.1 < number },
    )
}

/// How many runs begin at a number or before it.
fn begun(runs: &[(u64, u64)], number: u64) -> usize
    requires { AreRuns runs.now }
    ensures { IsSplit (λ run. run.0 ≤ number) (λ run. number < run.0) runs.now result }
{
    runs.partition_point(
        |run: &(u64, u64)| -> bool
            ensures { result ≡ nat_le run.now.0 number }
        { run.0 <= number },
    )
}

/// Those that end at a number or behind it.
fn behind(runs: &[(u64, u64)], number: u64) -> &[(u64, u64)]
    requires { AreRuns runs.now }
    ensures { IsBehind runs.now number result.now }
{
    let (_, rest) = runs.split_at(ended(runs, number));
    rest
}

/// The least run that covers all of these.
fn joined(run: (u64, u64), others: &[(u64, u64)]) -> (u64, u64)
    ensures { result ≡ fold join run others.now }
{
    let mut run = run;
    for other in others {
        run = (run.0.min(other.0), run.1.max(other.1));
    }
    run
}

/// Takes the runs from the start-th to before the end-th out. Takes no memory.
fn close(runs: &mut Vec<(u64, u64)>, start: usize, end: usize)
    requires order { start ≤ end }
    requires within { end ≤ length runs.old.items }
    ensures items { runs.new.items ≡ take start runs.old.items ++ drop end runs.old.items }
    ensures len { vec_len runs.new ≤ vec_len runs.old }
    ensures capacity { vec_capacity runs.new ≡ vec_capacity runs.old }
{
    let kept = start + (runs.len() - end);
    runs.as_mut_slice().copy_within(end.., start);
    runs.truncate(kept);
}

impl RangeSet {
    /// The empty set. Takes no memory.
    pub fn new(alloc: Global) -> RangeSet
        ensures { result ≡ [] }
    {
        RangeSet {
            runs: Vec::new(alloc),
        }
    }

    /// How many maximal runs the set has. Takes no memory.
    pub fn len(&self) -> usize
        ensures { result ≡ length self.now }
    {
        self.runs.len()
    }

    /// Whether a number is in the set. Takes no memory.
    pub fn contains(&self, number: u64) -> bool
        ensures { result ≡ names self.now number }
    {
        contains(self.runs.as_slice(), number)
    }

    /// The least number from this one on that isn't in the set. Takes no memory.
    pub fn least_missing(&self, from: u64) -> u64
        requires { from < 2 ^ 63 }
        ensures { IsLeastMissing self.now from result }
    {
        least_missing(self.runs.as_slice(), from)
    }

    /// Puts a number into the set.
    pub fn add(&mut self, number: u64) -> Result<(), NoMemory>
        requires { number < 2 ^ 63 }
        ensures adds { OnOk result (Adds self.old (number, number) self.new) }
        ensures same { OnErr result (self.new ≡ self.old) }
    {
        self.add_range(number, number)
    }

    /// Puts all numbers from `lower` to `upper`, both included, into the set.
    pub fn add_range(&mut self, lower: u64, upper: u64) -> Result<(), NoMemory>
        requires order { lower ≤ upper }
        requires within { upper < 2 ^ 63 }
        ensures adds { OnOk result (Adds self.old (lower, upper) self.new) }
        ensures same { OnErr result (self.new ≡ self.old) }
    {
        put(&mut self.runs, lower, upper)
    }

    /// Puts all numbers of these ranges, each by its least and greatest number, into the set, or none.
    pub fn add_ranges(&mut self, ranges: &[(u64, u64)]) -> Result<(), NoMemory>
        requires { AreRanges ranges.now }
        ensures adds { OnOk result (AddsAll self.old ranges.now self.new) }
        ensures same { OnErr result (self.new ≡ self.old) }
    {
        self.runs.reserve(ranges.len())?;
        put_all(&mut self.runs, ranges);
        Ok(())
    }

    /// Takes all numbers below this one out of the set. Takes no memory.
    pub fn remove_below(&mut self, number: u64)
        ensures { Cuts self.old number self.new }
    {
        cut(&mut self.runs, number);
    }

    /// The numbers that are in both sets.
    pub fn intersect(&self, other: &RangeSet) -> Result<RangeSet, NoMemory>
        ensures { IfOk result (λ set. Meets self.now other.now set) }
    {
        let runs = met(
            *self.runs.allocator(),
            self.runs.as_slice(),
            other.runs.as_slice(),
        )?;
        Ok(RangeSet { runs })
    }

    /// The maximal runs, rising, each by its least and greatest number. Takes no memory.
    pub fn iter(&self) -> RangeIter<'_>
        ensures gives { result ≡ self.now }
        ensures runs { AreRuns self.now }
    {
        RangeIter {
            runs: self.runs.as_slice(),
        }
    }
}

/// The runs of a set that are left, as `RangeSet::iter` lends them.
#[derive(Debug, Drop)]
pub struct RangeIter<'a> {
    runs: &'a [(u64, u64)],
}

impl<'a> Model for RangeIter<'a> {
    ghost use Rattle.std.specs.Prelude.{ℕ, List};

    ghost Value = { List (ℕ × ℕ) };

    ghost view = { λ it. it.runs.now };
}

impl<'a> Iterator for RangeIter<'a> {
    type Item = (u64, u64);

    ghost next_gives = { YieldsFirst (λ rest. rest) };

    ghost remaining = { item_count (λ rest. rest) };

    fn next(&mut self) -> Option<(u64, u64)> {
        let (run, rest) = self.runs.split_first()?;
        self.runs = rest;
        Some(*run)
    }
}

/// Whether one of the runs has a number.
fn contains(runs: &[(u64, u64)], number: u64) -> bool
    requires { AreRuns runs.now }
    ensures { result ≡ names runs.now number }
{
    match behind(runs, number) {
        [run, ..] => run.0 <= number,
        [] => false,
    }
}

/// The least number from this one on that none of the runs has.
fn least_missing(runs: &[(u64, u64)], from: u64) -> u64
    requires runs { AreRuns runs.now }
    requires small { from < 2 ^ 63 }
    ensures { IsLeastMissing runs.now from result }
{
    match behind(runs, from) {
        [run, ..] => { if run.0 <= from { run.1 + 1 } else { from } }
        [] => from,
    }
}

/// Puts a run among the others, joined with those that it touches.
fn put(runs: &mut Vec<(u64, u64)>, lower: u64, upper: u64) -> Result<(), NoMemory>
    requires order { lower ≤ upper }
    requires within { upper < 2 ^ 63 }
    requires runs { AreRuns runs.old.items }
    ensures runs { AreRuns runs.new.items }
    ensures adds { OnOk result (Adds runs.old.items (lower, upper) runs.new.items) }
    ensures same { OnErr result (runs.new.items ≡ runs.old.items) }
    ensures fits { vec_len runs.old < vec_capacity runs.old → IsOk result }
    ensures len { vec_len runs.new ≤ vec_len runs.old + 1 }
    ensures capacity { vec_capacity runs.old ≤ vec_capacity runs.new }
{
    let start = ended(runs.as_slice(), lower.saturating_sub(1));
    let end = begun(runs.as_slice(), upper + 1);
    if end <= start {
        return insert(runs, start, (lower, upper));
    }
    let (front, _) = runs.as_slice().split_at(end);
    let (_, touched) = front.split_at(start);
    let run = joined((lower, upper), touched);
    replace(runs, start, end, run);
    Ok(())
}

/// Puts ranges among the runs, for which there is room. Takes no memory.
fn put_all(runs: &mut Vec<(u64, u64)>, ranges: &[(u64, u64)])
    requires ranges { AreRanges ranges.now }
    requires room { vec_len runs.old + length ranges.now ≤ vec_capacity runs.old }
    requires runs { AreRuns runs.old.items }
    ensures runs { AreRuns runs.new.items }
    ensures adds { AddsAll runs.old.items ranges.now runs.new.items }
{
    let mut rest = ranges;
    loop {
        let Some((range, more)) = rest.split_first() else {
            return;
        };
        match put(runs, range.0, range.1) {
            Ok(()) => (),
            Err(_) => unreachable!(),
        }
        rest = more;
    }
}

/// Puts a run at a place.
fn insert(runs: &mut Vec<(u64, u64)>, at: usize, run: (u64, u64)) -> Result<(), NoMemory>
    requires { at ≤ length runs.old.items }
    ensures ok { OnOk result (runs.new.items ≡ take at runs.old.items ++ run ∷ drop at runs.old.items) }
    ensures err { OnErr result (runs.new.items ≡ runs.old.items) }
    ensures fits { vec_len runs.old < vec_capacity runs.old → IsOk result }
    ensures len { vec_len runs.new ≤ vec_len runs.old + 1 }
    ensures capacity { vec_capacity runs.old ≤ vec_capacity runs.new }
{
    match runs.insert(at, run) {
        Ok(()) => Ok(()),
        Err(_) => Err(NoMemory),
    }
}

/// Puts a run in the place of those from the start-th to before the end-th. Takes no memory.
fn replace(runs: &mut Vec<(u64, u64)>, start: usize, end: usize, run: (u64, u64))
    requires order { start < end }
    requires within { end ≤ length runs.old.items }
    ensures items { runs.new.items ≡ take start runs.old.items ++ run ∷ drop end runs.old.items }
    ensures len { vec_len runs.new ≤ vec_len runs.old }
    ensures capacity { vec_capacity runs.new ≡ vec_capacity runs.old }
{
    runs[start] = run;
    close(runs, start + 1, end);
}

/// Lets the first run begin at this number, if it begins before it.
fn trim(runs: &mut Vec<(u64, u64)>, number: u64)
    ensures { runs.new.items ≡ trimmed number runs.old.items }
{
    if let Some(first) = runs.as_slice().first() {
        let first = (first.0.max(number), first.1);
        runs[0] = first;
    }
}

/// Takes all numbers below this one out of the runs. Takes no memory.
fn cut(runs: &mut Vec<(u64, u64)>, number: u64)
    requires { AreRuns runs.old.items }
    ensures runs { AreRuns runs.new.items }
    ensures cuts { Cuts runs.old.items number runs.new.items }
{
    let gone = ended(runs.as_slice(), number);
    close(runs, 0, gone);
    trim(runs, number);
}

/// Puts what two runs have in common, if they have any number.
fn push_common(
    out: &mut Vec<(u64, u64)>,
    one: (u64, u64),
    other: (u64, u64),
) -> Result<(), NoMemory>
    ensures { OnOk result (out.new.items ≡ out.old.items ++ common one other) }
{
    let lower = one.0.max(other.0);
    let upper = one.1.min(other.1);
    if lower <= upper {
        out.push((lower, upper))?;
    }
    Ok(())
}

/// The runs of the numbers that are in both.
fn met(alloc: Global, one: &[(u64, u64)], other: &[(u64, u64)]) -> Result<Vec<(u64, u64)>, NoMemory>
    requires one { AreRuns one.now }
    requires other { AreRuns other.now }
    ensures { IfOk result (λ runs. IsMet one.now other.now runs.items) }
{
    let mut out = Vec::new(alloc);
    meet(&mut out, one, other)?;
    Ok(out)
}

/// Puts the runs of the numbers that are in both.
fn meet(out: &mut Vec<(u64, u64)>, one: &[(u64, u64)], other: &[(u64, u64)]) -> Result<(), NoMemory>
    requires none { out.old.items ≡ [] }
    requires one { AreRuns one.now }
    requires other { AreRuns other.now }
    ensures { OnOk result (IsMet one.now other.now out.new.items) }
{
    let mut xs = one;
    let mut ys = other;
    loop {
        let Some((x, more_xs)) = xs.split_first() else {
            return Ok(());
        };
        let Some((y, more_ys)) = ys.split_first() else {
            return Ok(());
        };
        push_common(out, *x, *y)?;
        if x.1 < y.1 {
            xs = more_xs;
        } else {
            ys = more_ys;
        }
    }
}

#[cfg(test)]
mod tests {
    use super::*;
    use std::test::Fail;

    /// The set of these runs, each with its least number first and below 2^40.
    fn set_of(alloc: Global, runs: &[(u64, u64)]) -> Result<RangeSet, NoMemory> {
        let mut set = RangeSet::new(alloc);
        for run in runs {
            let (lower, upper) = *run;
            if lower <= upper && upper < 1_099_511_627_776 {
                set.add_range(lower, upper)?;
            }
        }
        Ok(set)
    }

    /// Whether the set's entries are these runs.
    fn has(set: &RangeSet, runs: &[(u64, u64)]) -> bool {
        let mut entries = set.iter();
        for run in runs {
            if entries.next() != Some(*run) {
                return false;
            }
        }
        entries.next().is_none()
    }

    #[test]
    fn touching_runs_are_one(rt: HostRuntime) -> Result<(), Fail> {
        let mut set = set_of(rt.alloc(), [(10, 19), (30, 39), (0, 4)].as_slice())?;
        assert!(rt; has(&set, [(0, 4), (10, 19), (30, 39)].as_slice()));
        set.add(5)?;
        set.add(9)?;
        assert!(rt; has(&set, [(0, 5), (9, 19), (30, 39)].as_slice()));
        set.add_range(6, 40)?;
        assert!(rt; has(&set, [(0, 40)].as_slice()));
        Ok(())
    }

    #[test]
    fn ranges_in_any_order_are_put_together(rt: HostRuntime) -> Result<(), Fail> {
        let mut set = set_of(rt.alloc(), [(10, 19)].as_slice())?;
        set.add_ranges([(30, 39), (0, 4), (5, 9), (38, 45)].as_slice())?;
        assert!(rt; has(&set, [(0, 19), (30, 45)].as_slice()) && set.len() == 2);
        set.add_ranges([].as_slice())?;
        assert!(rt; has(&set, [(0, 19), (30, 45)].as_slice()));
        Ok(())
    }

    #[test]
    fn a_wide_range_is_one_entry(rt: HostRuntime) -> Result<(), Fail> {
        let mut set = set_of(rt.alloc(), [(0, 2_147_483_648)].as_slice())?;
        assert!(rt; set.contains(2_147_483_648) && !set.contains(2_147_483_649));
        assert_eq!(rt; set.least_missing(7), 2_147_483_649);
        assert_eq!(rt; set.least_missing(2_147_483_650), 2_147_483_650);
        set.remove_below(2_147_483_648);
        assert!(rt; has(&set, [(2_147_483_648, 2_147_483_648)].as_slice()));
        assert!(rt; !set.contains(0));
        Ok(())
    }

    #[test]
    fn both_sets_have_what_they_share(rt: HostRuntime) -> Result<(), Fail> {
        let alloc = rt.alloc();
        let one = set_of(alloc, [(0, 9), (20, 29), (40, 49)].as_slice())?;
        let other = set_of(alloc, [(5, 24), (26, 26), (49, 60)].as_slice())?;
        assert!(rt;
            has(
                &one.intersect(&other)?,
                [(5, 9), (20, 24), (26, 26), (49, 49)].as_slice()
            )
        );
        assert!(rt; has(&one.intersect(&RangeSet::new(alloc))?, [].as_slice()));
        Ok(())
    }
}
