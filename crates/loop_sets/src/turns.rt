//! The turns of a trajectory round the boundary of a set, which make the degree.

ghost use Rattle.std.specs.Prelude.{◌≡◌, ◌+◌, ◌-◌, ◌<◌, ◌≤◌, false, MatchOption, IfSome, IsTrue, ◌↔◌, length};
ghost use Rattle.tube_spec.specs.Limits.{most_ticks};
ghost use Rattle.tube_spec.specs.Grid.{last_tick};
ghost use Rattle.tplane_paver.specs.Runs.{InRun, InRuns, AreInOrder};
ghost use Rattle.tplane_paver.specs.Components.{HasRun};
ghost use Rattle.loop_degree.specs.Boundary.{turn_option, add_option, IsSmall};
ghost use Rattle.loop_degree.specs.Cells.{boundary};
ghost use Rattle.loop_sets.specs.Cells.{column, ticks_in, pairs_in};
ghost use Rattle.loop_sets.specs.Bounds.{EndBefore};
ghost use Rattle.loop_sets.specs.Turns.{turns_along, sum_along, sum_cells, has_beside, upright, row_before, open_turn, cell_turns, SharesFrom, AreParted};
ghost use Rattle.loop_sets.specs.Views.{label_by, IsView};

use hull_tree::Query;
use loop_prover::{Label, label};
use tplane_paver::Run;
use tube_store::Store;

/// A store, a query, and the step bounds under which corners are labelled.
#[derive(Clone, Copy)]
pub(crate) struct View<'a> {
    pub store: &'a Store,
    pub query: &'a Query,
    pub d1: i64,
    pub d2: i64,
}

/// What an edge adds to the degree by the labels of its ends.
fn turn(from: Option<Label>, to: Option<Label>) -> Option<i64>
    ensures value { result ≡ turn_option from to }
    ensures small { IfSome result (IsSmall 1) }
{
    Some(match (from?, to?) {
        (Label::North, Label::West) => 1,
        (Label::West, Label::North) => -1,
        _ => 0,
    })
}

/// The sum of two, where both are there.
fn add_turns(x: Option<i64>, y: Option<i64>) -> Option<i64>
    requires x_small { IfSome x (IsSmall 10000000000000) }
    requires y_small { IfSome y (IsSmall 10000000000000) }
    ensures { result ≡ add_option x y }
{
    Some(x? + y?)
}

/// Whether a run is of a row and begins no later than at a tick.
fn is_begun(run: Run, a: u32, b: u32) -> bool
    ensures { IsTrue result ↔ ((run.a ≡ a) × (run.first ≤ b)) }
{
    run.a == a && run.first <= b
}

/// The run that has a pair.
fn run_with(cells: &[Run], a: u32, b: u32) -> Option<Run>
    requires { AreInOrder cells.now }
    ensures { MatchOption result (InRuns cells.now a b → ⊥) (λ r. InRun r a b × HasRun cells.now r) }
{
    match cells.binary_search_by_key(&(a, b), |run| (run.a, run.last)) {
        Ok(place) => Some(cells[place]),
        Err(place) => run_from(cells, place, a, b),
    }
}

/// The run at a place, if it has a pair, where all before the place end before the pair, and the others after it.
fn run_from(cells: &[Run], place: usize, a: u32, b: u32) -> Option<Run>
    requires order { AreInOrder cells.now }
    requires parted { AreParted cells.now a b place }
    ensures { MatchOption result (InRuns cells.now a b → ⊥) (λ r. InRun r a b × HasRun cells.now r) }
{
    if place >= cells.len() {
        return None;
    }
    let run = cells[place];
    if is_begun(run, a, b) {
        return Some(run);
    }
    None
}

/// The run that has the cell of a row beside, if there is such a row.
fn run_beside(cells: &[Run], beside: Option<u32>, b: u32) -> Option<Run>
    requires { AreInOrder cells.now }
    ensures { MatchOption result (has_beside (pairs_in cells.now) beside b ≡ false) (SharesFrom (pairs_in cells.now) beside b) }
{
    run_with(cells, beside?, b)
}

/// The label of a corner.
fn label_at(view: &View<'_>, a: u32, b: u32) -> Option<Label>
    requires view { IsView view.now }
    requires a { a ≤ last_tick view.now.store.now.shape.grid }
    requires b { b ≤ last_tick view.now.store.now.shape.grid }
    ensures { result ≡ label_by view.now (a, b) }
{
    label(view.store, view.query, a, b, view.d1, view.d2)
}

/// What the edge between the corners `(a, b)` and `(a, b + 1)` adds to the degree, upward or back.
fn upright_turn(view: &View<'_>, a: u32, up: bool, b: u32) -> Option<i64>
    requires view { IsView view.now }
    requires a { a ≤ last_tick view.now.store.now.shape.grid }
    requires b { b < last_tick view.now.store.now.shape.grid }
    requires short { b < most_ticks }
    ensures value { result ≡ upright (label_by view.now) a up b }
    ensures small { IfSome result (IsSmall 1) }
{
    let lower = label_at(view, a, b);
    let upper = label_at(view, a, b + 1);
    if up {
        turn(lower, upper)
    } else {
        turn(upper, lower)
    }
}

/// What the sides between a run of cells and a row beside add to the degree, where no cell of that row shares them. It goes from one such
/// side to the next, past each run of cells beside.
fn open_turns(
    view: &View<'_>,
    cells: &[Run],
    beside: Option<u32>,
    a: u32,
    up: bool,
    first: u32,
    last: u32,
) -> Option<i64>
    requires view { IsView view.now }
    requires order { AreInOrder cells.now }
    requires a { a ≤ last_tick view.now.store.now.shape.grid }
    requires some { first ≤ last }
    requires last { last < last_tick view.now.store.now.shape.grid }
    requires short { last < most_ticks }
    ensures value { result ≡ sum_along (open_turn (label_by view.now) (pairs_in cells.now) beside a up) first (last + 1 - first) }
    ensures small { IfSome result (IsSmall (last + 1 - first)) }
{
    let mut total = Some(0);
    let mut b = first;
    while b <= last {
        match run_beside(cells, beside, b) {
            Some(run) => b = run.last.min(last) + 1,
            None => {
                let turn = upright_turn(view, a, up, b);
                total = add_turns(total, turn);
                b += 1;
            }
        }
    }
    total
}

/// The row before.
fn row_before(a: u32) -> Option<u32>
    ensures { result ≡ row_before a }
{
    a.checked_sub(1)
}

/// What the sides of the cells of a run add to the degree, where only one cell has them.
fn run_turns(view: &View<'_>, cells: &[Run], run: Run) -> Option<i64>
    requires view { IsView view.now }
    requires order { AreInOrder cells.now }
    requires named { HasRun cells.now run }
    requires some { run.first ≤ run.last }
    requires within { (run.a < last_tick view.now.store.now.shape.grid) × (run.last < last_tick view.now.store.now.shape.grid) }
    requires short { (run.a < most_ticks) × (run.last < most_ticks) }
    ensures value { result ≡ sum_cells (cell_turns (label_by view.now) (pairs_in cells.now)) (column run.a run.first (ticks_in run)) }
    ensures small { IfSome result (IsSmall 400000) }
{
    let a = run.a;
    let after = run.last + 1;
    let lower = turn(
        label_at(view, a, run.first),
        label_at(view, a + 1, run.first),
    );
    let right = open_turns(view, cells, Some(a + 1), a + 1, true, run.first, run.last);
    let upper = turn(label_at(view, a + 1, after), label_at(view, a, after));
    let left = open_turns(view, cells, row_before(a), a, false, run.first, run.last);
    let two = add_turns(upper, left);
    let three = add_turns(right, two);
    add_turns(lower, three)
}

/// What the boundary edges of cells add to the degree, or none where an end of one has no label.
pub(crate) fn set_turns(view: &View<'_>, cells: &[Run]) -> Option<i64>
    requires view { IsView view.now }
    requires order { AreInOrder cells.now }
    requires few { length cells.now ≤ 4000000 }
    requires within { EndBefore cells.now (last_tick view.now.store.now.shape.grid) }
    requires short { last_tick view.now.store.now.shape.grid ≤ most_ticks }
    ensures value { result ≡ turns_along (label_by view.now) (boundary (pairs_in cells.now)) }
    ensures small { IfSome result (IsSmall 10000000000000) }
{
    let mut total = Some(0);
    for run in cells {
        let turns = run_turns(view, cells, *run);
        total = add_turns(total, turns);
    }
    total
}
