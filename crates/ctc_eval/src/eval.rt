//! The contractor of a variable that is the value of a signal at a time.

ghost use Rattle.std.specs.Prelude.{◌≡◌, ◌+◌, ◌<◌, ◌≤◌, IsSome, IfSome, None, ℕ, length, map, slice_index, slice_index_or};
ghost use Rattle.std.specs.List.{range_with_len};
ghost use Rattle.ctc_core.specs.Answers.{Revises};
ghost use Rattle.tube_spec.specs.Limits.{most_ticks};
ghost use Rattle.tube_spec.specs.Grid.{last_tick};
ghost use Rattle.tube_spec.specs.Narrowing.{narrowing_of};
ghost use Rattle.ctc_core.specs.Given.{projection_at, narrowing_given};
ghost use Rattle.ctc_eval.specs.Clock.{cells_of};
ghost use Rattle.slice_gates.specs.Clock.{ticks_of};
ghost use Rattle.slice_gates.specs.Near.{near_of, gates_of, places_of};
ghost use Rattle.ctc_eval.specs.Evals.{EvalFits, cells_near, eval_projections, time_of, value_hull, time_hull, gate_narrowing, reached_hull, reached_projection};
ghost use Rattle.std.specs.Option.{option_map};
ghost use Rattle.ctc_eval.specs.Walks.{Covers};
ghost use Rattle.ctc_eval.specs.Blocks.{IsMoved};
ghost use Rattle.ctc_eval.specs.Held.{IsFound, IsOfShape, PlacedFits, projection_of, rate_of};

use super::block::{Block, given_of, hulls_whole};
use super::clock::Stretch;
use super::near::{first, gates, places, slices_near};
use super::readings::variable;
use super::sweep::{Asked, Sweep};
use ctc_core::{
    Contractor, Formulas, Given, Revised, revise_by_formulas, start, still_by_formulas,
};
use int_interval::Interval;
use slice_gates::{Near, Ticks, ticks_in};
use std::sync::ledger::Ledger;
use step_count::Steps;
use tube_store::{CellId, SignalId, Store, VarId};

/// A variable `z` is the value of a signal `x` at the tick that a variable `t` is; with or without the rate of `x`.
///
/// The time `t` lies in its declared range, and so each formula cuts it to that range. A store fits whose signals and variables it names.
#[derive(Clone, Copy, Debug, PartialEq, Eq)]
pub struct EvalCtc {
    /// The signal.
    pub x: SignalId,
    /// The signal that is its rate, if it has one.
    pub rate: Option<SignalId>,
    /// The time, in ticks.
    pub t: VarId,
    /// The value, in the unit of the signal.
    pub z: VarId,
    /// The declared range of the time.
    pub declared: Interval,
}

// What a projection holds: the value, the time, the gate with a number where the time is at it, or that gate by the rate.
#[derive(Clone, Copy)]
enum Held {
    Value,
    Time,
    Gate(u32),
    Reached(SignalId, u32),
}

impl EvalCtc {
    /// The contractor of the value `z` of the signal `x` at the time `t`, whose declared range is `declared`; with the rate of `x`, if it has one.
    pub fn new(
        x: SignalId,
        rate: Option<SignalId>,
        t: VarId,
        z: VarId,
        declared: Interval,
    ) -> EvalCtc
        ensures { result ≡ record { x = x; rate = rate; t = t; z = z; declared = declared } }
    {
        EvalCtc {
            x,
            rate,
            t,
            z,
            declared,
        }
    }

    // The slices that share a tick with the declared range of the time.
    fn near(&self, store: &Store) -> Option<Near>
        ensures value { result ≡ near_of store.now.shape.grid self.now.declared }
        ensures order { IfSome result (λ near. near.first ≤ near.last) }
        ensures among { IfSome result (λ near. near.last + 1 < length store.now.shape.grid) }
        ensures few { IfSome result (λ near. near.last ≤ most_ticks) }
        ensures found { IsFound store.now.shape.grid self.now.declared result }
    {
        store.known();
        slices_near(store.grid(), self.declared)
    }

    // The ticks that the time may be at.
    fn ticks(&self, store: &Store) -> Option<Ticks>
        requires time { self.now.t.0 < length store.now.shape.vars }
        requires filled { IsSome store.now.box }
        ensures value { let s = store.now.shape in result ≡ ticks_of s.grid (time_of s self.now.t.0 self.now.declared (cells_of store.now.box)) }
        ensures order { IfSome result (λ ticks. ticks.first ≤ ticks.last) }
        ensures clock { IfSome result (λ ticks. ticks.last ≤ last_tick store.now.shape.grid) }
    {
        let time = variable(store, self.t).meet(self.declared)?;
        ticks_in(store.grid(), time)
    }

    // The ticks that the time may be at, and the slices near its declared range, which have them all.
    fn stretch(&self, store: &Store, near: Option<Near>) -> Option<Stretch>
        requires time { self.now.t.0 < length store.now.shape.vars }
        requires found { IsFound store.now.shape.grid self.now.declared near }
        requires filled { IsSome store.now.box }
        ensures value { let s = store.now.shape in option_map (λ stretch. stretch.ticks) result ≡ ticks_of s.grid (time_of s self.now.t.0 self.now.declared (cells_of store.now.box)) }
        ensures near { IfSome result (λ stretch. near ≡ Some stretch.near) }
        ensures covers { IfSome result (λ stretch. Covers store.now.shape.grid stretch.ticks stretch.near) }
    {
        store.known();
        let near = near?;
        let ticks = self.ticks(store)?;
        Some(Stretch { ticks, near })
    }

    // The same without its rate.
    fn alone(&self) -> EvalCtc
        ensures { result ≡ record { x = self.now.x; rate = None; t = self.now.t; z = self.now.z; declared = self.now.declared } }
    {
        EvalCtc {
            x: self.x,
            rate: None,
            t: self.t,
            z: self.z,
            declared: self.declared,
        }
    }

    // The signal and the value.
    fn sweep(&self) -> Sweep
        ensures { result ≡ record { x = self.now.x; z = self.now.z } }
    {
        Sweep {
            x: self.x,
            z: self.z,
        }
    }

    // With its slices, which hold as long as the store has its grid.
    fn placed(&self, store: &Store) -> Placed
        requires fits { EvalFits store.now.shape self.now.x.0 (rate_of self.now.rate) self.now.t.0 self.now.z.0 }
        ensures same { result.ctc ≡ self.now }
        ensures fits { PlacedFits store.now.shape result }
    {
        Placed {
            ctc: *self,
            near: self.near(store),
        }
    }

    // What the projection with a number holds, by the slices that share a tick with the declared range.
    fn held(&self, store: &Store, near: Option<Near>, i: u32) -> Held
        requires found { IsFound store.now.shape.grid self.now.declared near }
        requires fits { EvalFits store.now.shape self.now.x.0 (rate_of self.now.rate) self.now.t.0 self.now.z.0 }
        requires below { let c = self.now in i < length (eval_projections store.now.shape c.x.0 (rate_of c.rate) c.t.0 c.z.0 c.declared) }
        ensures projection { let c = self.now in projection_at (eval_projections store.now.shape c.x.0 (rate_of c.rate) c.t.0 c.z.0 c.declared) i ≡ projection_of store.now.shape c.x.0 c.t.0 c.z.0 c.declared result }
        ensures named { IsOfShape store.now.shape near result }
    {
        if i == 0 {
            return Held::Value;
        }
        if i == 1 {
            return Held::Time;
        }
        let gate = i - 2;
        let count = gates(near);
        match self.rate {
            Some(rate) => {
                if gate < count {
                    Held::Gate(first(near) + gate)
                } else {
                    Held::Reached(rate, first(near) + (gate - count))
                }
            }
            None => Held::Gate(first(near) + gate),
        }
    }

    // What the formula of the value gives.
    fn value_given(&self, store: &Store, near: Option<Near>) -> Given
        requires found { IsFound store.now.shape.grid self.now.declared near }
        requires fits { EvalFits store.now.shape self.now.x.0 (rate_of self.now.rate) self.now.t.0 self.now.z.0 }
        requires filled { IsSome store.now.box }
        ensures { narrowing_given result ≡ narrowing_of (value_hull store.now.shape self.now.x.0 self.now.t.0 self.now.declared (cells_of store.now.box)) }
    {
        match self.stretch(store, near) {
            Some(stretch) => given_of(self.sweep().over(store, Asked::Value, stretch)),
            None => Given::Nothing,
        }
    }

    // What the formula of the time gives.
    fn time_given(&self, store: &Store, near: Option<Near>) -> Given
        requires found { IsFound store.now.shape.grid self.now.declared near }
        requires fits { EvalFits store.now.shape self.now.x.0 (rate_of self.now.rate) self.now.t.0 self.now.z.0 }
        requires filled { IsSome store.now.box }
        ensures { narrowing_given result ≡ narrowing_of (time_hull store.now.shape self.now.x.0 self.now.t.0 self.now.z.0 self.now.declared (cells_of store.now.box)) }
    {
        match self.stretch(store, near) {
            Some(stretch) => given_of(self.sweep().over(store, Asked::Time, stretch)),
            None => Given::Nothing,
        }
    }

    // What the formula of a gate gives where the time may be at its tick alone.
    fn gate_given(&self, store: &Store, gate: u32) -> Given
        requires fits { EvalFits store.now.shape self.now.x.0 (rate_of self.now.rate) self.now.t.0 self.now.z.0 }
        requires gate { gate < length store.now.shape.grid }
        requires filled { IsSome store.now.box }
        ensures { narrowing_given result ≡ gate_narrowing store.now.shape self.now.t.0 self.now.z.0 self.now.declared gate (cells_of store.now.box) }
    {
        let tick = store.grid().boundary(gate);
        match self.ticks(store) {
            Some(ticks) => {
                if ticks.first == tick && ticks.last == tick {
                    Given::Within(variable(store, self.z))
                } else {
                    Given::Whole
                }
            }
            None => Given::Nothing,
        }
    }

    // What the formula of a gate gives by the rate.
    fn reached_given(&self, store: &Store, near: Option<Near>, rate: SignalId, gate: u32) -> Given
        requires found { IsFound store.now.shape.grid self.now.declared near }
        requires fits { EvalFits store.now.shape self.now.x.0 (rate_of self.now.rate) self.now.t.0 self.now.z.0 }
        requires rate { rate.0 < length store.now.shape.signals }
        requires gate { IfSome near (λ near. (near.first ≤ gate) × (gate + 1 ≤ near.last + 2)) }
        requires filled { IsSome store.now.box }
        ensures { narrowing_given result ≡ narrowing_of (reached_hull store.now.shape self.now.x.0 rate.0 self.now.t.0 self.now.z.0 self.now.declared gate (cells_of store.now.box)) }
    {
        let mut hulls: [Option<Interval>; 65] = [None; 65];
        self.hulls(store, near, rate, gate, 1, &mut hulls);
        given_of(hulls[0])
    }

    // What the formulas of some gates give by the rate, at most sixty-four one after another.
    fn hulls(
        &self,
        store: &Store,
        near: Option<Near>,
        rate: SignalId,
        first: u32,
        count: u32,
        hulls: &mut [Option<Interval>],
    )
        requires found { IsFound store.now.shape.grid self.now.declared near }
        requires fits { EvalFits store.now.shape self.now.x.0 (rate_of self.now.rate) self.now.t.0 self.now.z.0 }
        requires rate { rate.0 < length store.now.shape.signals }
        requires some { 0 < count }
        requires few { count ≤ 64 }
        requires gates { IfSome near (λ near. (near.first ≤ first) × (first + count ≤ near.last + 2)) }
        requires filled { IsSome store.now.box }
        requires room { length hulls.old ≡ 65 }
        requires blank { (k : ℕ) → slice_index_or hulls.old k None ≡ None }
        ensures room { length hulls.new ≡ 65 }
        ensures value { (k : ℕ) → k < count → slice_index_or hulls.new k None ≡ reached_hull store.now.shape self.now.x.0 rate.0 self.now.t.0 self.now.z.0 self.now.declared (first + k) (cells_of store.now.box) }
    {
        let sweep = Sweep {
            x: self.x,
            z: self.z,
        };
        match self.stretch(store, near) {
            Some(stretch) => hulls_whole(&sweep, store, rate, stretch, first, count, hulls),
            None => {}
        }
    }

    // Fires the projections of these gates, each by what its formula gives before the first of them is narrowed.
    fn revise_block(
        &self,
        store: &mut Store,
        near: Option<Near>,
        rate: SignalId,
        first: u32,
        count: u32,
    ) -> Revised
        requires found { IsFound store.old.shape.grid self.now.declared near }
        requires fits { EvalFits store.old.shape self.now.x.0 (rate_of self.now.rate) self.now.t.0 self.now.z.0 }
        requires rate { rate.0 < length store.old.shape.signals }
        requires some { 0 < count }
        requires few { count ≤ 64 }
        requires gates { IfSome near (λ near. (near.first ≤ first) × (first + count ≤ near.last + 2)) }
        requires named { first + count ≤ length store.old.shape.grid }
        ensures { Revises (map (reached_projection store.old.shape self.now.x.0 rate.0 self.now.t.0 self.now.z.0 self.now.declared) (range_with_len first count)) store.old store.new result }
    {
        store.known();
        if store.is_empty() {
            return Revised::Empty;
        }
        let mut block = Block {
            x: self.x,
            first,
            count,
            hulls: [None; 65],
        };
        self.hulls(store, near, rate, first, count, &mut block.hulls);
        revise_by_formulas(&block, store)
    }

    // Whether a firing of the projections of these gates would change the store.
    fn moves_block(
        &self,
        store: &Store,
        near: Option<Near>,
        rate: SignalId,
        first: u32,
        count: u32,
    ) -> bool
        requires found { IsFound store.now.shape.grid self.now.declared near }
        requires fits { EvalFits store.now.shape self.now.x.0 (rate_of self.now.rate) self.now.t.0 self.now.z.0 }
        requires rate { rate.0 < length store.now.shape.signals }
        requires some { 0 < count }
        requires few { count ≤ 64 }
        requires gates { IfSome near (λ near. (near.first ≤ first) × (first + count ≤ near.last + 2)) }
        requires named { first + count ≤ length store.now.shape.grid }
        ensures { IsMoved (map (reached_projection store.now.shape self.now.x.0 rate.0 self.now.t.0 self.now.z.0 self.now.declared) (range_with_len first count)) store.now.box result }
    {
        if store.is_empty() {
            return false;
        }
        let mut block = Block {
            x: self.x,
            first,
            count,
            hulls: [None; 65],
        };
        self.hulls(store, near, rate, first, count, &mut block.hulls);
        still_by_formulas(&block, store)
    }

    // Whether a firing of the projections of the gates by the rate would change the store.
    fn moves_reached(&self, store: &Store, near: Option<Near>, rate: SignalId) -> bool
        requires found { IsFound store.now.shape.grid self.now.declared near }
        requires fits { EvalFits store.now.shape self.now.x.0 (rate_of self.now.rate) self.now.t.0 self.now.z.0 }
        requires rate { rate.0 < length store.now.shape.signals }
        ensures { IsMoved (map (reached_projection store.now.shape self.now.x.0 rate.0 self.now.t.0 self.now.z.0 self.now.declared) (gates_of near)) store.now.box result }
    {
        store.known();
        let from = first(near);
        let count = gates(near);
        let mut done = 0;
        while done < count {
            let here = (count - done).min(64);
            if self.moves_block(store, near, rate, from + done, here) {
                return true;
            }
            done += here;
        }
        false
    }

    // Whether a firing of the projections that it has without a rate would change the store.
    fn moves_alone(&self, store: &Store, near: Option<Near>) -> bool
        requires found { IsFound store.now.shape.grid self.now.declared near }
        requires fits { EvalFits store.now.shape self.now.x.0 (rate_of self.now.rate) self.now.t.0 self.now.z.0 }
        ensures { IsMoved (eval_projections store.now.shape self.now.x.0 None self.now.t.0 self.now.z.0 self.now.declared) store.now.box result }
    {
        let placed = Placed {
            ctc: self.alone(),
            near,
        };
        still_by_formulas(&placed, store)
    }

    // Whether a firing would change the store.
    fn moves(&self, store: &Store) -> bool
        requires { EvalFits store.now.shape self.now.x.0 (rate_of self.now.rate) self.now.t.0 self.now.z.0 }
        ensures { IsMoved (eval_projections store.now.shape self.now.x.0 (rate_of self.now.rate) self.now.t.0 self.now.z.0 self.now.declared) store.now.box result }
    {
        let near = self.near(store);
        if self.moves_alone(store, near) {
            return true;
        }
        match self.rate {
            None => false,
            Some(rate) => self.moves_reached(store, near, rate),
        }
    }

    // Fires the projections of each gate by the rate, sixty-four gates at a time.
    fn revise_reached(&self, store: &mut Store, rate: SignalId, near: Option<Near>) -> Revised
        requires fits { EvalFits store.old.shape self.now.x.0 (rate_of self.now.rate) self.now.t.0 self.now.z.0 }
        requires rate { rate.0 < length store.old.shape.signals }
        requires found { IsFound store.old.shape.grid self.now.declared near }
        ensures { Revises (map (reached_projection store.old.shape self.now.x.0 rate.0 self.now.t.0 self.now.z.0 self.now.declared) (gates_of near)) store.old store.new result }
    {
        let from = first(near);
        let count = gates(near);
        let mut answer = start(store);
        let mut done = 0;
        while done < count {
            let here = (count - done).min(64);
            let next = self.revise_block(store, near, rate, from + done, here);
            answer = answer.then(next);
            done += here;
        }
        answer
    }

    // Fires the projections that it has without a rate, each by what its formula gives at its turn.
    fn fire_alone(&self, store: &mut Store, near: Option<Near>) -> Revised
        requires found { IsFound store.old.shape.grid self.now.declared near }
        requires fits { EvalFits store.old.shape self.now.x.0 (rate_of self.now.rate) self.now.t.0 self.now.z.0 }
        ensures { Revises (eval_projections store.old.shape self.now.x.0 None self.now.t.0 self.now.z.0 self.now.declared) store.old store.new result }
    {
        let placed = Placed {
            ctc: self.alone(),
            near,
        };
        revise_by_formulas(&placed, store)
    }

    // Fires each projection once: those of the gates by the rate come last, sixty-four gates at a time.
    fn fire(&self, store: &mut Store) -> Revised
        requires { EvalFits store.old.shape self.now.x.0 (rate_of self.now.rate) self.now.t.0 self.now.z.0 }
        ensures { Revises (eval_projections store.old.shape self.now.x.0 (rate_of self.now.rate) self.now.t.0 self.now.z.0 self.now.declared) store.old store.new result }
    {
        let near = self.near(store);
        let one = self.fire_alone(store, near);
        match self.rate {
            None => one,
            Some(rate) => {
                let two = self.revise_reached(store, rate, near);
                one.then(two)
            }
        }
    }

    // How many cells of one signal the formulas read.
    fn places(&self, store: &Store) -> u32
        ensures value { result ≡ length (places_of (near_of store.now.shape.grid self.now.declared)) }
        ensures few { result ≤ 200003 }
    {
        places(self.near(store))
    }

    // The cell of a signal with a number of those that the formulas read of it.
    fn cell(&self, store: &Store, signal: SignalId, i: u32) -> CellId
        requires signal { signal.0 < length store.now.shape.signals }
        requires below { i < length (cells_near store.now.shape self.now.declared signal.0) }
        ensures { result.0 ≡ slice_index (cells_near store.now.shape self.now.declared signal.0) i }
    {
        store.known();
        let start = store.gate(signal, 0);
        CellId(start.0 + (2 * first(self.near(store)) + i))
    }
}

// An evaluation and its slices, which are found once a firing and not once a formula.
#[derive(Clone, Copy)]
struct Placed {
    ctc: EvalCtc,
    near: Option<Near>,
}

impl Formulas for Placed {
    ghost use Rattle.ctc_eval.specs.Held.{PlacedFits, placed_projections, rate_of};
    ghost use Rattle.ctc_eval.specs.EvalLaws.{eval-monotone, eval-in_store};

    ghost projections = { λ p s. placed_projections s p };

    ghost fits = { λ p s b. PlacedFits s p };

    ghost monotone = { λ p s. eval-monotone (λ xs. PlacedFits s p) s p.ctc.x.0 (rate_of p.ctc.rate) p.ctc.t.0 p.ctc.z.0 p.ctc.declared };

    ghost fits_below = { λ p s a b low fits. fits };

    ghost in_store = { λ p s b shape fits. (eval-in_store s p.ctc.x.0 (rate_of p.ctc.rate) p.ctc.t.0 p.ctc.z.0 p.ctc.declared shape fits.fits).1 };

    fn count(&self, _store: &Store) -> u32 {
        let gates = gates(self.near);
        match self.ctc.rate {
            Some(_) => 2 + (gates + gates),
            None => 2 + gates,
        }
    }

    fn target(&self, store: &Store, i: u32) -> CellId {
        store.known();
        match self.ctc.held(store, self.near, i) {
            Held::Value => store.var(self.ctc.z),
            Held::Time => store.var(self.ctc.t),
            Held::Gate(gate) => store.gate(self.ctc.x, gate),
            Held::Reached(_, gate) => store.gate(self.ctc.x, gate),
        }
    }

    fn given(&self, store: &Store, i: u32) -> Given {
        match self.ctc.held(store, self.near, i) {
            Held::Value => self.ctc.value_given(store, self.near),
            Held::Time => self.ctc.time_given(store, self.near),
            Held::Gate(gate) => self.ctc.gate_given(store, gate),
            Held::Reached(rate, gate) => self.ctc.reached_given(store, self.near, rate, gate),
        }
    }
}

impl Contractor for EvalCtc {
    ghost use Rattle.ctc_eval.specs.Evals.{EvalFits, eval_projections, eval_scope};
    ghost use Rattle.ctc_eval.specs.Held.{rate_of};
    ghost use Rattle.ctc_eval.specs.EvalLaws.{eval-monotone, eval-reads_only, eval-in_store, eval-fits_more, eval-same_projections, eval-same_scope};

    ghost projections = { λ c s. eval_projections s c.x.0 (rate_of c.rate) c.t.0 c.z.0 c.declared };

    ghost scope = { λ c s. eval_scope s c.x.0 (rate_of c.rate) c.t.0 c.z.0 c.declared };

    ghost fits = { λ c s b. EvalFits s c.x.0 (rate_of c.rate) c.t.0 c.z.0 };

    ghost monotone = { λ c s. eval-monotone (λ xs. EvalFits s c.x.0 (rate_of c.rate) c.t.0 c.z.0) s c.x.0 (rate_of c.rate) c.t.0 c.z.0 c.declared };

    ghost reads_only = { λ c s. eval-reads_only s c.x.0 (rate_of c.rate) c.t.0 c.z.0 c.declared };

    ghost fits_local = { λ c s xs ys same fits. fits };

    ghost fits_below = { λ c s a b low fits. fits };

    ghost in_store = { λ c s b shape fits. eval-in_store s c.x.0 (rate_of c.rate) c.t.0 c.z.0 c.declared shape fits };

    ghost fits_more = { λ c s t b more grows fits. eval-fits_more s t c.x.0 (rate_of c.rate) c.t.0 c.z.0 grows fits };

    ghost same_projections = { λ c s t b grows fits. eval-same_projections s t c.x.0 (rate_of c.rate) c.t.0 c.z.0 c.declared grows fits };

    ghost same_scope = { λ c s t b grows fits. eval-same_scope s t c.x.0 (rate_of c.rate) c.t.0 c.z.0 c.declared grows fits };

    fn reads(&self, store: &Store) -> u32 {
        let places = self.places(store);
        match self.rate {
            Some(_) => 2 + (places + places),
            None => 2 + places,
        }
    }

    fn read(&self, store: &Store, i: u32) -> CellId {
        store.known();
        if i == 0 {
            return store.var(self.t);
        }
        if i == 1 {
            return store.var(self.z);
        }
        let places = self.places(store);
        let place = i - 2;
        match self.rate {
            Some(rate) => {
                if place < places {
                    self.cell(store, self.x, place)
                } else {
                    self.cell(store, rate, place - places)
                }
            }
            None => self.cell(store, self.x, place),
        }
    }

    fn writes(&self, store: &Store) -> u32 {
        self.placed(store).count(store)
    }

    fn written(&self, store: &Store, i: u32) -> CellId {
        self.placed(store).target(store, i)
    }

    fn revise<L: Ledger>(&self, store: &mut Store, steps: &mut Steps<L>) -> Revised {
        steps.tick();
        self.fire(store)
    }

    fn still<L: Ledger>(&self, store: &Store, steps: &mut Steps<L>) -> bool {
        steps.tick();
        self.moves(store)
    }
}
