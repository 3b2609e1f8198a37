//! The plane of pairs of ticks of a query, and the judgement of its boxes.

ghost use Rattle.std.specs.Prelude.{◌≡◌, ◌+◌, ◌<◌, ◌≤◌, length, IsSome, IfSome, IfOk};
ghost use Rattle.tube_spec.specs.Limits.{most_ticks};
ghost use Rattle.tube_spec.specs.Grid.{last_tick};
ghost use Rattle.hull_tree.specs.Asked.{IsAsked};
ghost use Rattle.hull_tree.specs.Plane.{Plane, IsPlane, plane_of, tube_of, is_possible};
ghost use Rattle.hull_tree.specs.Judging.{TickBox, judged, Says};

use crate::hulls::{greatest_gap, least_gap};
use crate::ranges::RangeTree;
use crate::ticks::ticks_of;
use std::alloc::Global;
use std::marker::Model;
use std::sync::ledger::Ledger;
use step_count::Steps;
use tube_io::NoMemory;
use tube_names::{Norm, Query, is_near};
use tube_store::{SignalId, Store};

/// What is known of all pairs of a box.
#[derive(Clone, Copy, Debug, PartialEq, Eq)]
pub enum Judged {
    /// None of them is possible.
    Out,
    /// Each of them is possible.
    Within,
    /// Neither is known. A box of one pair is never judged so.
    Mixed,
}

/// What two signals may be at each tick, in trees over ranges of ticks, and a query. A contract sees the plane of pairs. No call but
/// `judge` shows anything of it.
#[derive(Drop)]
pub struct HullTree {
    x: RangeTree,
    y: RangeTree,
    radius: u32,
    gap: u32,
    norm: Norm,
}

impl Model for HullTree {
    ghost use Rattle.hull_tree.specs.Asked.{IsAsked};
    ghost use Rattle.hull_tree.specs.Plane.{Plane, IsPlane};

    ghost Value = { Plane };

    ghost view = { λ t. record { xs = t.x; ys = t.y; radius = t.radius; gap = t.gap; norm = t.norm } };

    ghost invariant = { λ t. IsPlane (record { xs = t.x; ys = t.y; radius = t.radius; gap = t.gap; norm = t.norm }) };
}

impl HullTree {
    /// The trees of a query's two signals, as a store has them. All memory is taken here.
    pub fn new(alloc: Global, store: &Store, q: &Query) -> Result<HullTree, NoMemory>
        requires filled { IsSome store.now.box }
        requires asked { IsAsked (length store.now.shape.signals) q.now }
        ensures { IfOk result (λ tree. IfSome store.now.box (λ xs. tree ≡ plane_of store.now.shape xs q.now)) }
    {
        let x = range_tree(alloc, store, q.x)?;
        let y = range_tree(alloc, store, q.y)?;
        Ok(HullTree {
            x,
            y,
            radius: q.radius as u32,
            gap: q.gap,
            norm: q.norm,
        })
    }

    /// The last tick.
    pub fn ticks(&self) -> u32
        ensures ticks { result + 1 ≡ length self.now.xs }
        ensures plane { IsPlane self.now }
    {
        (self.x.len() - 1) as u32
    }

    /// The judgement of the box of the pairs with `a` in the one range of ticks and `b` in the other. It is one step, and takes no memory.
    pub fn judge<L: Ledger>(&self, a: (u32, u32), b: (u32, u32), steps: &mut Steps<L>) -> Judged
        requires a { a.0 ≤ a.1 }
        requires a_end { a.1 < length self.now.xs }
        requires b { b.0 ≤ b.1 }
        requires b_end { b.1 < length self.now.xs }
        ensures judged { result ≡ judged self.now (record { first_a = a.0; last_a = a.1; first_b = b.0; last_b = b.1 }) }
        ensures says { Says (is_possible self.now) (record { first_a = a.0; last_a = a.1; first_b = b.0; last_b = b.1 }) result }
        ensures step { steps.new ≡ steps.old + 1 }
    {
        steps.tick();
        self.judgement(a, b)
    }

    /// The judgement by the formula.
    fn judgement(&self, a: (u32, u32), b: (u32, u32)) -> Judged
        requires a { a.0 ≤ a.1 }
        requires a_end { a.1 < length self.now.xs }
        requires b { b.0 ≤ b.1 }
        requires b_end { b.1 < length self.now.xs }
        ensures { result ≡ judged self.now (record { first_a = a.0; last_a = a.1; first_b = b.0; last_b = b.1 }) }
    {
        let gap = u64::from(self.gap);
        if u64::from(b.1) < u64::from(a.0) + gap {
            return Judged::Out;
        }
        let x_a = self.x.over(a.0, a.1);
        let x_b = self.x.over(b.0, b.1);
        let least_x = least_gap(x_a, x_b);
        if least_x > u64::from(self.radius) {
            return Judged::Out;
        }
        let y_a = self.y.over(a.0, a.1);
        let y_b = self.y.over(b.0, b.1);
        let least_y = least_gap(y_a, y_b);
        if !is_near(self.norm, self.radius, least_x, least_y) {
            return Judged::Out;
        }
        if u64::from(a.1) + gap > u64::from(b.0) {
            return Judged::Mixed;
        }
        let greatest_x = greatest_gap(x_a, x_b);
        let greatest_y = greatest_gap(y_a, y_b);
        if is_near(self.norm, self.radius, greatest_x, greatest_y) {
            return Judged::Within;
        }
        Judged::Mixed
    }
}

/// The tree of what a store gives a signal at each tick.
fn range_tree(alloc: Global, store: &Store, signal: SignalId) -> Result<RangeTree, NoMemory>
    requires filled { IsSome store.now.box }
    requires signal { signal.0 < length store.now.shape.signals }
    ensures tube { IfOk result (λ tree. IfSome store.now.box (λ xs. tree ≡ tube_of store.now.shape xs signal.0)) }
    ensures len { IfOk result (λ tree. length tree ≡ last_tick store.now.shape.grid + 1) }
    ensures short { last_tick store.now.shape.grid ≤ most_ticks }
{
    let ticks = ticks_of(alloc, store, signal)?;
    Ok(RangeTree::new(alloc, ticks)?)
}
