//! How many points of a chart have each mark.

ghost use Rattle.std.specs.Prelude.{◌≡◌, ◌<◌, ◌+◌, ◌^◌, [], ◌∷◌};
ghost use Rattle.area_report.specs.Marks.{all_marks, counts_of, marked_rows, row_marks, sum_of};

use area_paver::{Area, Mark};

/// How many points have each mark.
#[derive(Clone, Copy)]
pub struct Counts {
    pub never_seen: u64,
    pub surely_seen: u64,
    pub left_open: u64,
}

impl Counts {
    /// Those of no point.
    fn none() -> Counts
        ensures { result ≡ counts_of [] }
    {
        Counts {
            never_seen: 0,
            surely_seen: 0,
            left_open: 0,
        }
    }

    /// Those of one point.
    fn of(mark: Mark) -> Counts
        ensures { result ≡ counts_of (mark ∷ []) }
    {
        Counts {
            never_seen: u64::from(mark == Mark::Never),
            surely_seen: u64::from(mark == Mark::Seen),
            left_open: u64::from(mark == Mark::Open),
        }
    }

    /// Both together.
    fn and(self, other: Counts) -> Counts
        requires never_seen { self.never_seen + other.never_seen < 2 ^ 64 }
        requires surely_seen { self.surely_seen + other.surely_seen < 2 ^ 64 }
        requires left_open { self.left_open + other.left_open < 2 ^ 64 }
        ensures { result ≡ sum_of self other }
    {
        Counts {
            never_seen: self.never_seen + other.never_seen,
            surely_seen: self.surely_seen + other.surely_seen,
            left_open: self.left_open + other.left_open,
        }
    }
}

/// How many rows have marks: none where there is no column.
pub(crate) fn marked_rows(chart: &Area) -> u32
    ensures { result ≡ marked_rows chart.now }
{
    if chart.columns() == 0 {
        0
    } else {
        chart.rows()
    }
}

/// How many points of a row have each mark.
fn count_row(chart: &Area, row: u32) -> Counts
    requires { row < chart.now.rows.count }
    ensures counts { result ≡ counts_of (row_marks chart.now row) }
    ensures narrow { chart.now.columns.count < 2 ^ 32 }
{
    let mut counts = Counts::none();
    for column in 0..chart.columns() {
        counts = counts.and(Counts::of(chart.mark(column, row)));
    }
    counts
}

/// How many points of a chart have each mark.
pub(crate) fn count_marks(chart: &Area) -> Counts
    ensures { result ≡ counts_of (all_marks chart.now) }
{
    let mut counts = Counts::none();
    for row in 0..marked_rows(chart) {
        counts = counts.and(count_row(chart, row));
    }
    counts
}
