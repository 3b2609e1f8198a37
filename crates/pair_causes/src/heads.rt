//! The heads of two logs, and the offset between their clocks.

ghost use Rattle.std.specs.Prelude.{◌≡◌, IfSome, nat_eq};
ghost use Rattle.std.specs.Cmp.Lexicographic.{pointwise};
ghost use Rattle.tube_spec.specs.Limits.{most_ticks};
ghost use Rattle.tube_spec.specs.Span.{IsBounded};
ghost use Rattle.pair_causes.specs.Sentences.{have_one_head, offset_said};

use int_interval::Interval;
use mission_items::Mission;
use slice_gates::{Grid, MOST_TICKS};

// How many ticks the greatest offset may be above the least.
const MOST_TICKS_APART: i64 = 2_000;

// Whether two clocks have the same boundaries of slices.
fn have_same_cuts(first: &Grid, second: &Grid) -> bool
    ensures { result ≡ pointwise nat_eq first.now second.now }
{
    if first.slices() != second.slices() {
        return false;
    }
    for i in 0..=first.slices() {
        if first.boundary(i) != second.boundary(i) {
            return false;
        }
    }
    true
}

/// Whether two logs have one version, and one clock with the same boundaries of slices.
pub(crate) fn have_one_head(first: &Mission, second: &Mission) -> bool
    ensures { result ≡ have_one_head first.now second.now }
{
    first.version == second.version
        && first.ticks == second.ticks
        && first.width == second.width
        && have_same_cuts(&first.cuts, &second.cuts)
}

/// The numbers of ticks that the second clock may be ahead, if their bounds are in order, near, and no more ticks than a clock may have.
pub(crate) fn offset_of(bounds: (i64, i64)) -> Option<Interval>
    ensures value { result ≡ offset_said bounds }
    ensures near { IfSome result (IsBounded most_ticks) }
{
    let (low, high) = bounds;
    let offset = Interval::new(low, high)?;
    let most = i64::from(MOST_TICKS);
    if low < -most || high > most || high - low > MOST_TICKS_APART {
        return None;
    }
    Some(offset)
}
