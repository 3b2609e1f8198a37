//! A section of a report.

ghost use Rattle.std.specs.Prelude.{◌≡◌};

use int_interval::Interval;
use std::marker::Model;
use tube_io::{NoMemory, Text};
use tube_report::Verdict;

/// A line between the first and the last one of a section. Ticks are at most 100,000, and bounds have the unit of
/// their signal or variable.
#[derive(Debug, Drop, PartialEq, Eq)]
pub enum Line {
    /// The lines of a signal begin.
    Signal(Text),
    /// A signal is in this range at a tick.
    Gate { tick: u32, range: Interval },
    /// A signal is in this range at each tick from the first to the last one, both included.
    Slice { from: u32, to: u32, range: Interval },
    /// A variable is in this range.
    Var { name: Text, range: Interval },
}

/// The lines of a section in order. A contract sees the list of them.
#[derive(Debug, Drop)]
pub struct Lines {
    lines: Vec<Line>,
}

impl Model for Lines {
    ghost use Rattle.std.specs.Prelude.{List};
    ghost use Rattle.report_reader.specs.declared.section.Line.{Line};

    ghost Value = { List Line };

    ghost view = { λ a. a.lines.items };
}

impl Lines {
    /// These lines.
    pub fn new(lines: Vec<Line>) -> Lines
        ensures { result ≡ lines.items }
    {
        Lines { lines }
    }

    /// The lines as a slice.
    pub fn as_slice(&self) -> &[Line]
        ensures { result.now ≡ self.now }
    {
        self.lines.as_slice()
    }
}

/// What the text of a section says.
#[derive(Debug, Drop)]
pub struct Section {
    /// From 1 to 1,000,000.
    pub number: u32,
    /// How it ended.
    pub verdict: Verdict,
    /// The lines between the first and the last one.
    pub lines: Lines,
}

/// Why a text is not read as a section.
#[derive(Clone, Copy, Debug, PartialEq, Eq)]
pub enum SectionFault {
    /// It is no section's text. The number, from 1 on, is that of the first line that breaks it.
    BadSection(u32),
    /// Memory was refused.
    NoMemory,
}

impl From<NoMemory> for SectionFault {
    ghost use Rattle.report_reader.specs.declared.section.SectionFault.TheVariants as fault;

    ghost from_gives = { λ _ e. e ≡ fault.NoMemory };

    fn from(_error: NoMemory) -> SectionFault {
        SectionFault::NoMemory
    }
}
