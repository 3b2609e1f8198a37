//! The least sure pair of a set.

ghost use Rattle.std.specs.Prelude.{◌≡◌, ◌≤◌, ◌<◌, ℕ, true, MatchOption, length};
ghost use Rattle.std.specs.Bool.{OnFalse};
ghost use Rattle.tube_spec.specs.Limits.{greatest_radius};
ghost use Rattle.tube_spec.specs.Span.{natural};
ghost use Rattle.hull_tree.specs.Asked.{IsRadius};
ghost use Rattle.hull_tree.specs.Plane.{is_valid, is_sure};
ghost use Rattle.tube_names.specs.Nearness.{is_near};
ghost use Rattle.tplane_paver.specs.Runs.{AreInOrder, InRuns};
ghost use Rattle.loop_sets.specs.Sets.{plane_over, IsTracked, AreValid, HaveNoSure, IsFirstSure, IsNoneSure, IsLeastSure};

use crate::tube::Tube;
use hull_tree::{Query, is_near};
use tplane_paver::Run;

/// Whether two places are near by a query.
fn is_close(q: &Query, dx: u64, dy: u64) -> bool
    requires radius { IsRadius q.now.radius }
    requires dx { dx ≤ greatest_radius }
    requires dy { dy ≤ greatest_radius }
    ensures { result ≡ is_near q.now.norm (natural q.now.radius) dx dy }
{
    is_near(q.norm, q.radius as u32, dx, dy)
}

/// Whether a valid pair is sure.
fn is_sure(x: &Tube, y: &Tube, q: &Query, a: u32, b: u32) -> bool
    requires tracked { IsTracked x.now y.now q.now }
    requires valid { is_valid (plane_over x.now y.now q.now) a b ≡ true }
    ensures { result ≡ is_sure (plane_over x.now y.now q.now) a b }
{
    let dx = x.greatest_change(a, b);
    let dy = y.greatest_change(a, b);
    is_close(q, dx, dy)
}

/// Whether some pair of a tick with the ticks of a range may be sure, by what is known of the whole range.
fn may_be_sure(x: &Tube, y: &Tube, q: &Query, a: u32, first: u32, last: u32) -> bool
    requires tracked { IsTracked x.now y.now q.now }
    requires a { a < length x.now }
    requires order { first ≤ last }
    requires within { last < length x.now }
    ensures { OnFalse result (HaveNoSure (plane_over x.now y.now q.now) a first last) }
{
    let dx = x.least_reach(a, first, last);
    let dy = y.least_reach(a, first, last);
    is_close(q, dx, dy)
}

/// The first tick of a range that makes a sure pair with a tick. A range of which no pair may be sure is passed over, and any other is
/// halved.
fn first_sure(x: &Tube, y: &Tube, q: &Query, a: u32, first: u32, last: u32) -> Option<u32>
    requires tracked { IsTracked x.now y.now q.now }
    requires order { first ≤ last }
    requires valid { AreValid (plane_over x.now y.now q.now) a first last }
    requires a { a < length x.now }
    requires within { last < length x.now }
    ensures { let p = plane_over x.now y.now q.now in MatchOption result (HaveNoSure p a first last) (IsFirstSure p a first last) }
{
    if !may_be_sure(x, y, q, a, first, last) {
        return None;
    }
    if first == last {
        let sure = is_sure(x, y, q, a, first);
        return if sure { Some(first) } else { None };
    }
    let middle = first + (last - first) / 2;
    let lower = first_sure(x, y, q, a, first, middle);
    if lower.is_some() {
        return lower;
    }
    first_sure(x, y, q, a, middle + 1, last)
}

/// The least sure pair of a set.
pub(crate) fn least_sure(x: &Tube, y: &Tube, q: &Query, set: &[Run]) -> Option<(u32, u32)>
    requires tracked { IsTracked x.now y.now q.now }
    requires order { AreInOrder set.now }
    requires valid { (a b : ℕ) → InRuns set.now a b → is_valid (plane_over x.now y.now q.now) a b ≡ true }
    ensures { let p = plane_over x.now y.now q.now in MatchOption result (IsNoneSure p set.now) (λ r. IsLeastSure p set.now r.0 r.1) }
{
    for run in set {
        if let Some(b) = first_sure(x, y, q, run.a, run.first, run.last) {
            return Some((run.a, b));
        }
    }
    None
}
