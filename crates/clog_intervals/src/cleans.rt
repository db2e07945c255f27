//! The union of the intervals of the log that a table's files hold (Cassandra's clean intervals).
//! Kept: the intervals are not empty and stand in order, with a gap between each two of them; those
//! that touch are joined. So a place lies in at most one of them, and a search by halves finds it.
ghost use Rattle.std.specs.Prelude.{
  ◌≡◌,
  ◌<◌,
  ◌≤◌,
  ◌↔◌,
  ◌⊎◌,
  [],
  ◌∷◌,
  ◌++◌,
  length,
  vec_len,
  vec_capacity,
  take,
  drop,
};
ghost use Rattle.std.specs.Prelude.{IsTrue, IsOk, OnOk, OnErr, Some};
ghost use Rattle.clog_base.specs.declared.position.Position.{Position as At};
ghost use Rattle.clog_base.specs.Positions.{IsBelow, IsUpTo};
ghost use Rattle.clog_intervals.specs.Union.{IsWithin, Holds, IsCovered, AreApart};
ghost use Rattle.clog_intervals.specs.Hulls.{IsBetween};
ghost use Rattle.clog_intervals.specs.Joined.{
  EndBelow,
  EndFrom,
  BeginUpTo,
  BeginAbove,
  IsHolder,
  IsRun,
};

use crate::hull::Hull;
use crate::interval::Interval;
use clog_base::{OutOfMemory, Position};
use std::alloc::Global;
use std::marker::Model;

/// Intervals of the log. Contracts see a list that is their union, and for how many more there is
/// room in memory.
#[derive(Drop)]
pub struct Cleans {
    intervals: Vec<Interval>,
}

impl Model for Cleans {
    ghost use Rattle.std.specs.Prelude.{◌-◌, vec_len, vec_capacity};
    ghost use Rattle.clog_intervals.specs.Kept.{Kept};

    ghost Value = { Kept };

    ghost use Rattle.clog_intervals.specs.Union.{AreApart};

    ghost view = { λ c. record {
      intervals = c.intervals.items;
      room = vec_capacity c.intervals - vec_len c.intervals;
    } };

    ghost invariant = { λ c. AreApart c.intervals.items };
}

impl Cleans {
    /// No interval; takes no memory.
    pub fn new(alloc: Global) -> Cleans
        ensures { result.intervals ≡ [] }
    {
        Cleans {
            intervals: Vec::new(alloc),
        }
    }

    /// Takes memory for one more interval, so that the next `add` is not refused. The union stays.
    pub fn reserve(&mut self) -> Result<(), OutOfMemory>
        ensures same { self.new.intervals ≡ self.old.intervals }
        ensures room { OnOk result (0 < self.new.room) }
    {
        Ok(self.intervals.reserve(1)?)
    }

    /// Takes one more interval in, the positions above `lower` and at or below `upper`, in time
    /// linear in the number of intervals. Where memory is refused, nothing changes; where there is
    /// room, none is asked for.
    pub fn add(&mut self, lower: Position, upper: Position) -> Result<(), OutOfMemory>
        requires { IsUpTo lower upper }
        ensures ok { OnOk result ((p : At) → Holds self.new.intervals p
            ↔ (Holds self.old.intervals p ⊎ IsWithin (record { lower = lower; upper = upper }) p)) }
        ensures err { OnErr result (self.new.intervals ≡ self.old.intervals) }
        ensures room { 0 < self.old.room → IsOk result }
    {
        if lower == upper {
            return Ok(());
        }
        take_in(&mut self.intervals, Interval { lower, upper })
    }

    /// Whether a position lies in the union, in time logarithmic in the number of intervals.
    pub fn holds(&self, at: Position) -> bool
        ensures { IsTrue result ↔ Holds self.now.intervals at }
    {
        holder(&self.intervals, at).is_some()
    }

    /// Whether every position of a hull lies in the union, in time logarithmic in the number of
    /// intervals. An empty hull does.
    pub fn covers(&self, hull: &Hull) -> bool
        ensures { IsTrue result ↔ IsCovered self.now.intervals hull.now }
    {
        match hull.ends() {
            Some((least, greatest)) => holds_from(&self.intervals, least, greatest),
            None => true,
        }
    }
}

// How many intervals end below a place.
fn ended_below(intervals: &[Interval], at: Position) -> usize
    requires { AreApart intervals.now }
    ensures within { result ≤ length intervals.now }
    ensures below { EndBelow at (take result intervals.now) }
    ensures others { EndFrom at (drop result intervals.now) }
{
    intervals.partition_point(|interval| interval.ends_below(at))
}

// How many intervals begin at or below a place.
fn begun_up_to(intervals: &[Interval], at: Position) -> usize
    requires { AreApart intervals.now }
    ensures within { result ≤ length intervals.now }
    ensures begun { BeginUpTo at (take result intervals.now) }
    ensures others { BeginAbove at (drop result intervals.now) }
{
    intervals.partition_point(|interval| interval.begins_up_to(at))
}

// The interval that holds a place, where there is one.
fn holder(intervals: &[Interval], at: Position) -> Option<Interval>
    requires { AreApart intervals.now }
    ensures { IsHolder intervals.now at result }
{
    match intervals.get(ended_below(intervals, at)) {
        Some(interval) if interval.begins_below(at) => Some(*interval),
        _ => None,
    }
}

// Whether one interval holds both ends of a hull. Since intervals that touch are joined, that is
// where each place between them is held.
fn holds_from(intervals: &[Interval], least: Position, greatest: Position) -> bool
    requires apart { AreApart intervals.now }
    requires ordered { IsBetween least greatest greatest }
    ensures { IsTrue result ↔ IsCovered intervals.now (Some (least, greatest)) }
{
    match holder(intervals, least) {
        Some(interval) => interval.reaches(greatest),
        None => false,
    }
}

// The run of the intervals that one interval touches, from the first to the last, the last
// excluded.
fn touched_by(intervals: &[Interval], new: Interval) -> (usize, usize)
    requires apart { AreApart intervals.now }
    requires some { IsBelow new.lower new.upper }
    ensures { IsRun intervals.now new result.0 result.1 }
{
    (
        ended_below(intervals, new.lower),
        begun_up_to(intervals, new.upper),
    )
}

// Takes one interval in, joined with those that it touches.
fn take_in(intervals: &mut Vec<Interval>, new: Interval) -> Result<(), OutOfMemory>
    requires apart { AreApart intervals.old.items }
    requires some { IsBelow new.lower new.upper }
    ensures apart { AreApart intervals.new.items }
    ensures ok { OnOk result ((p : At) → Holds intervals.new.items p
        ↔ (Holds intervals.old.items p ⊎ IsWithin new p)) }
    ensures err { OnErr result (intervals.new.items ≡ intervals.old.items) }
    ensures room { vec_len intervals.old < vec_capacity intervals.old → IsOk result }
{
    let (first, last) = touched_by(intervals, new);
    if first == last {
        intervals.insert(first, new)?;
        return Ok(());
    }
    let joined = new.joined(intervals[first], intervals[last - 1]);
    replace_run(intervals, first, last, joined);
    Ok(())
}

// Puts one interval in the place of those from `first` to `last`, the last excluded.
fn replace_run(intervals: &mut Vec<Interval>, first: usize, last: usize, one: Interval)
    requires some { first < last }
    requires within { last ≤ vec_len intervals.old }
    ensures { intervals.new.items ≡ take first intervals.old.items ++ one ∷ drop last
        intervals.old.items }
{
    intervals[first] = one;
    drop(intervals.drain(first + 1..last));
}
