//! What the records so far make, for the records after them.

ghost use Rattle.std.specs.Prelude.{◌≡◌, ℕ, ◌+◌, ◌<◌, ◌≤◌, [], ◌∷◌, ◌++◌, Some, None, IfOk, OnOk, IsSome, option_map, drop, length, map, slice_index_or, pos};
ghost use Rattle.tube_spec.specs.Limits.{most_signals};
ghost use Rattle.tube_spec.specs.Span.{point};
ghost use Rattle.ctc_eval.specs.Held.{rate_of};
ghost use Rattle.tube_names.specs.Points.{numbers};
ghost use Rattle.mission_items.specs.Made.{ticks_from};
ghost use Rattle.mission_net.specs.Records.{point_at};
ghost use Rattle.mission_net.specs.Tables.{IsTableOf, IsTaken, range_at, rate_at, rates_with, hull_with};

use int_interval::Interval;
use mission_items::Item;
use std::alloc::Global;
use std::marker::Model;
use tube_io::NoMemory;
use tube_limits::MOST_SIGNALS;
use tube_store::{SignalId, VarId};

/// A table of what the records so far make: the declared ranges of signals and variables, the rates, and the beacons. It is carried from
/// section to section beside the net.
#[derive(Drop)]
pub struct Made {
    // the declared ranges of the signals, and of the variables, those without a name included
    signals: Vec<Interval>,
    variables: Vec<Interval>,
    // the rate of each signal that has one
    rates: [Option<SignalId>; MOST_SIGNALS],
    // the variables of the beacons
    beacons: Vec<[VarId; 2]>,
    // the hulls of the ranges of the beacons' coordinates
    hull: Option<(Interval, Interval)>,
}

impl Model for Made {
    ghost use Rattle.std.specs.Prelude.{◌≡◌, length, map};
    ghost use Rattle.tube_spec.specs.Limits.{most_signals};
    ghost use Rattle.ctc_eval.specs.Held.{rate_of};
    ghost use Rattle.tube_names.specs.Points.{numbers};
    ghost use Rattle.mission_net.specs.Tables.{Table};

    ghost Value = { Table };

    ghost view = { λ m. record { signals = m.signals.items; variables = m.variables.items; rates = map rate_of m.rates; marks = map numbers m.beacons.items; hull = m.hull } };

    ghost invariant = { λ m. length m.rates ≡ most_signals };
}

impl Made {
    /// The table of no records. It takes no memory.
    pub fn new(alloc: Global) -> Made
        ensures { IsTableOf result [] }
    {
        Made {
            signals: Vec::new(alloc),
            variables: Vec::new(alloc),
            rates: no_rates(),
            beacons: Vec::new(alloc),
            hull: None,
        }
    }

    /// The allocator of the table.
    pub(crate) fn alloc(&self) -> Global {
        *self.signals.allocator()
    }

    /// How many signals there are, numbered from 0.
    pub fn signals(&self) -> usize
        ensures { result ≡ length self.now.signals }
    {
        self.signals.len()
    }

    /// How many variables there are, those without a name included, numbered from 0.
    pub fn variables(&self) -> usize
        ensures { result ≡ length self.now.variables }
    {
        self.variables.len()
    }

    /// The declared ranges of the signals from a number on, in order.
    pub fn signals_from(&self, first: usize) -> &[Interval]
        requires { first ≤ length self.now.signals }
        ensures { result.now ≡ drop first self.now.signals }
    {
        &self.signals[first..]
    }

    /// The declared ranges of the variables from a number on, in order.
    pub fn variables_from(&self, first: usize) -> &[Interval]
        requires { first ≤ length self.now.variables }
        ensures { result.now ≡ drop first self.now.variables }
    {
        &self.variables[first..]
    }

    /// The declared range of a variable.
    pub(crate) fn range(&self, v: VarId) -> Interval
        requires { v.0 < length self.now.variables }
        ensures { result ≡ range_at self.now v.0 }
    {
        self.variables[v.0 as usize]
    }

    /// The rate of a signal, if it has one so far.
    pub(crate) fn rate(&self, x: SignalId) -> Option<SignalId>
        requires { x.0 < most_signals }
        ensures { rate_of result ≡ rate_at self.now x.0 }
    {
        self.rates[x.0 as usize]
    }

    /// The variables of the beacon with a number.
    pub(crate) fn beacon(&self, beacon: u32) -> [VarId; 2]
        requires { beacon < length self.now.marks }
        ensures { numbers result ≡ slice_index_or self.now.marks beacon [] }
    {
        self.beacons[beacon as usize]
    }

    /// The variables of all beacons.
    pub(crate) fn beacons(&self) -> Result<Vec<[VarId; 2]>, NoMemory>
        ensures { IfOk result (λ marks. map numbers marks.items ≡ self.now.marks) }
    {
        Ok(Vec::from_slice(*self.beacons.allocator(), self.beacons.as_slice())?)
    }

    /// Takes the next record, after the records before it. After want of memory the table is not built on.
    pub fn add(&mut self, before: &[Item], item: &Item) -> Result<(), NoMemory>
        requires before { IsTableOf self.old before.now }
        requires taken { IsTaken before.now item.now }
        requires few { length self.old.variables + 2 < 4294967296 }
        ensures { OnOk result (IsTableOf self.new (before.now ++ item.now ∷ [])) }
    {
        match item {
            Item::Signal { range, .. } => self.add_signal(*range),
            Item::Variable { range, .. } => self.add_variable(*range),
            Item::Beacon { x, y, .. } => self.add_beacon(*x, *y),
            Item::Deriv { x, rate } => {
                self.add_rate(*x, *rate);
                Ok(())
            }
            Item::At { tick, range, .. } => {
                self.add_variable(ticks(*tick, *tick))?;
                self.add_variable(*range)
            }
            Item::Ping {
                x,
                y,
                first,
                last,
                beacon,
                ..
            } => {
                self.add_point(*x, *y, ticks(*first, *last))?;
                match beacon {
                    Some(_) => Ok(()),
                    None => self.add_mark(),
                }
            }
            _ => Ok(()),
        }
    }

    fn add_signal(&mut self, range: Interval) -> Result<(), NoMemory>
        ensures { OnOk result (self.new ≡ record self.old { signals = self.old.signals ++ range ∷ [] }) }
    {
        Ok(self.signals.push(range)?)
    }

    fn add_variable(&mut self, range: Interval) -> Result<(), NoMemory>
        ensures { OnOk result (self.new ≡ record self.old { variables = self.old.variables ++ range ∷ [] }) }
    {
        Ok(self.variables.push(range)?)
    }

    // A beacon's variables, and what the hulls become.
    fn add_beacon(&mut self, x: Interval, y: Interval) -> Result<(), NoMemory>
        requires few { length self.old.variables + 2 < 4294967296 }
        ensures { OnOk result (self.new ≡ record self.old {
          variables = self.old.variables ++ x ∷ y ∷ [];
          marks = self.old.marks ++ point_at (length self.old.variables) ∷ [];
          hull = hull_with self.old.hull x y;
        }) }
    {
        let first = self.variables.len() as u32;
        self.add_variable(x)?;
        self.add_variable(y)?;
        self.beacons.push(point(first))?;
        self.hull = match self.hull {
            None => Some((x, y)),
            Some((xs, ys)) => Some((xs.hull(x), ys.hull(y))),
        };
        Ok(())
    }

    // The first rate of a signal counts.
    fn add_rate(&mut self, x: SignalId, rate: SignalId)
        requires { x.0 < most_signals }
        ensures { self.new ≡ record self.old { rates = rates_with self.old.rates x.0 rate.0 (rate_at self.old x.0) } }
    {
        match self.rate(x) {
            None => self.rates[x.0 as usize] = Some(rate),
            Some(_) => {}
        }
    }

    // A ping's time and point.
    fn add_point(&mut self, x: SignalId, y: SignalId, time: Interval) -> Result<(), NoMemory>
        requires one { x.0 < length self.old.signals }
        requires other { y.0 < length self.old.signals }
        ensures { OnOk result (self.new ≡ record self.old {
          variables = self.old.variables ++ time ∷ slice_index_or self.old.signals x.0 (point (pos 0)) ∷ slice_index_or self.old.signals y.0 (point (pos 0)) ∷ [];
        }) }
    {
        let one = self.signals[x.0 as usize];
        let other = self.signals[y.0 as usize];
        self.add_variable(time)?;
        self.add_variable(one)?;
        self.add_variable(other)
    }

    // A ping's mark.
    fn add_mark(&mut self) -> Result<(), NoMemory>
        requires { IsSome self.old.hull }
        ensures { OnOk result (Some self.new ≡ option_map (λ hull. record self.old { variables = self.old.variables ++ hull.0 ∷ hull.1 ∷ [] }) self.old.hull) }
    {
        let Some((x, y)) = self.hull else {
            unreachable!();
        };
        self.add_variable(x)?;
        self.add_variable(y)
    }
}

/// No signal has a rate.
fn no_rates() -> [Option<SignalId>; MOST_SIGNALS]
    ensures none { (x : ℕ) → slice_index_or (map rate_of result) x None ≡ None }
    ensures many { length result ≡ most_signals }
{
    [None; MOST_SIGNALS]
}

/// The range of a time from a tick to another.
fn ticks(first: u32, last: u32) -> Interval
    requires { first ≤ last }
    ensures { result ≡ ticks_from first last }
{
    match Interval::new(i64::from(first), i64::from(last)) {
        Some(range) => range,
        None => unreachable!(),
    }
}

/// A point of two variables, one after the other.
pub(crate) fn point(first: u32) -> [VarId; 2]
    requires { first + 1 < 4294967296 }
    ensures { numbers result ≡ point_at first }
{
    [VarId(first), VarId(first + 1)]
}
