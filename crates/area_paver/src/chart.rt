//! The chart of a survey: a mark for each point of a lattice.

ghost use Rattle.std.specs.Prelude.{◌≡◌, ◌<◌, [], length, slice_index_or};
ghost use Rattle.area_paver.specs.Charts.{mark_in, mark_of, marks_of};
ghost use Rattle.area_paver.specs.Lattice.{coordinate};

use crate::axis::Axis;
use std::marker::Model;

/// What is known of a point of the lattice.
#[derive(Clone, Copy, Debug, PartialEq, Eq)]
pub enum Mark {
    /// No trajectory in the box sees it.
    Never,
    /// Each trajectory in the box sees it.
    Seen,
    /// Neither is known.
    Open,
}

/// Why there is no chart.
#[derive(Clone, Copy, Debug, PartialEq, Eq)]
pub enum AreaFault {
    /// The lattice has more than 4,000,000 points.
    Crowded,
    /// Memory ran out.
    NoMemory,
}

/// A mark for each point of a lattice: columns from the west, and rows from the south. It keeps lines along the longer side.
#[derive(Drop)]
pub struct Area {
    pub(crate) columns: Axis,
    pub(crate) rows: Axis,
    pub(crate) turned: bool,
    pub(crate) lines: Vec<Vec<Mark>>,
}

impl Model for Area {
    ghost use Rattle.area_paver.specs.Charts.{Chart, IsFull, marks_of};

    ghost Value = { Chart };

    ghost view = { λ a. record { columns = a.columns; rows = a.rows; turned = a.turned; lines = marks_of a.lines.items } };

    ghost invariant = { λ a. IsFull (record { columns = a.columns; rows = a.rows; turned = a.turned; lines = marks_of a.lines.items }) };
}

impl Area {
    /// How many columns it has.
    pub fn columns(&self) -> u32
        ensures { result ≡ self.now.columns.count }
    {
        let _lines = &self.lines;
        self.columns.count as u32
    }

    /// How many rows it has.
    pub fn rows(&self) -> u32
        ensures { result ≡ self.now.rows.count }
    {
        let _lines = &self.lines;
        self.rows.count as u32
    }

    /// The coordinate of the first column, in millimetres: the least multiple of the step that is not below the window's lower end.
    pub fn west(&self) -> i64
        ensures { result ≡ self.now.columns.first }
    {
        self.columns.first
    }

    /// The coordinate of the first row, in millimetres: the least multiple of the step that is not below the window's lower end.
    pub fn south(&self) -> i64
        ensures { result ≡ self.now.rows.first }
    {
        self.rows.first
    }

    /// The coordinate of a row, in millimetres.
    pub fn row_at(&self, row: u32) -> i64
        requires { row < self.now.rows.count }
        ensures { result ≡ coordinate self.now.rows row }
    {
        let _lines = &self.lines;
        self.rows.at(u64::from(row))
    }

    /// The mark of the point in a column and a row.
    pub fn mark(&self, column: u32, row: u32) -> Mark
        requires column { column < self.now.columns.count }
        requires row { row < self.now.rows.count }
        ensures { result ≡ mark_of self.now column row }
    {
        if self.turned {
            mark_in(&self.lines, column as usize, row as usize)
        } else {
            mark_in(&self.lines, row as usize, column as usize)
        }
    }
}

/// The mark at a place of a line.
fn mark_in(lines: &[Vec<Mark>], line: usize, place: usize) -> Mark
    requires line { line < length lines.now }
    requires place { place < length (slice_index_or (marks_of lines.now) line []) }
    ensures { result ≡ mark_in (marks_of lines.now) line place }
{
    let marks = &lines[line];
    marks[place]
}
