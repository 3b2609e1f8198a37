//! One section: it is settled and written.

ghost use Rattle.std.specs.Prelude.{◌≡◌, ◌+◌, ◌≤◌, ◌||◌, IfOk, OnOk, OnErr, IsFalse, IsNone, IsSome, All, is_err, length, take};
ghost use Rattle.tube_io.specs.Sends.{Sends};
ghost use Rattle.mission_items.specs.Valid.{IsMission};
ghost use Rattle.mission_net.specs.Records.{IsEnclosure};
ghost use Rattle.mission_net.specs.Tables.{IsTableOf};
ghost use Rattle.mission_net.specs.Building.{IsNetOf};
ghost use Rattle.tube_report.specs.Places.{listed};
ghost use Rattle.section_report.specs.Sections.{section_of, is_spent, IsSectionOf, GoesOn, cost_of};
ghost use Rattle.section_report.specs.Texts.{text_of, verdict_of};

use ctc_network::{Net, Order, Settled};
use mission_items::Mission;
use mission_net::{AnyCtc, Made, SectionEnd, next_section};
use std::sync::ledger::Ledger;
use step_count::Steps;
use tube_io::{NoMemory, Sink, WriteFault};
use tube_report::{Places, Verdict, write_section};

/// How sections are settled and written.
#[derive(Clone, Copy, Debug, PartialEq, Eq)]
pub struct Choices {
    /// The order in which contractors are fired.
    pub order: Order,
    /// How far the measure of a section may fall.
    pub budget: u64,
    /// Whether a signal is written in one line.
    pub brief: bool,
}

/// Which section comes: its number, from 1, how many records the section before took, and how many it takes.
#[derive(Clone, Copy, Debug, PartialEq, Eq)]
pub struct Part {
    pub number: u32,
    pub first: usize,
    pub upto: usize,
}

/// The last section that was settled.
#[derive(Clone, Copy, Debug, PartialEq, Eq)]
pub struct LastSection {
    /// Its number, from 1.
    pub number: u32,
    /// How many records it takes.
    pub upto: usize,
    /// How its settling ended.
    pub end: SectionEnd,
    /// Whether it was written whole.
    pub written: Result<(), WriteFault>,
}

impl LastSection {
    // Whether no section is settled after it: it was spent, or a write failed.
    pub(crate) fn ends_report(&self) -> bool
        ensures { result ≡ (is_err self.now.written || is_spent self.now.end.answer) }
    {
        self.written.is_err() || matches!(self.end.answer, Settled::Spent(_))
    }
}

/// The verdict of a section, by the answer of settling.
pub fn verdict_of(answer: Settled) -> Verdict
    ensures { result ≡ verdict_of answer }
{
    match answer {
        Settled::Fixpoint => Verdict::Settled,
        Settled::Empty => Verdict::Empty,
        Settled::Spent(_) => Verdict::Spent,
    }
}

/// Builds the records of a section onto the net of those before, settles it and writes it. After want of memory nothing was written.
pub fn write_part<K: Sink, L: Ledger>(
    mission: &Mission,
    part: Part,
    choices: Choices,
    places: &mut Places,
    table: &mut Made,
    net: &mut Net<AnyCtc>,
    sink: &mut K,
    steps: &mut Steps<L>,
) -> Result<LastSection, NoMemory>
    requires order { part.first ≤ part.upto }
    requires within { part.upto ≤ length mission.now.items }
    requires mission { IsMission mission.now }
    requires places { places.old ≡ listed (take part.first mission.now.items) }
    requires table { IsTableOf table.old (take part.first mission.now.items) }
    requires holds { IsNetOf mission.now.cuts (take part.first mission.now.items) net.old }
    requires before { IsEnclosure mission.now.cuts (take part.first mission.now.items) net.old.store.box }

    // The list, the table and the net are those of the records so far, and the box is that of their section.
    ensures places { OnOk result (places.new ≡ listed (take part.upto mission.now.items)) }
    ensures table { OnOk result (IsTableOf table.new (take part.upto mission.now.items)) }
    ensures holds { OnOk result (IsNetOf mission.now.cuts (take part.upto mission.now.items) net.new) }
    ensures section { IfOk result (λ s. IsSectionOf mission.now choices.budget (section_of part.upto s.end net.new.store.box)) }
    ensures goes_on { IfOk result (λ s. GoesOn mission.now part.first net.old.store.box (section_of part.upto s.end net.new.store.box)) }
    ensures resting { IfOk result (λ s. s.end.answer ≡ Settled.Fixpoint → All IsFalse net.new.waiting) }
    ensures unfired { IsNone net.old.store.box → steps.new ≡ steps.old }

    // Where nobody waited before, it takes no more steps than the section may cost, and none where memory runs out.
    ensures cost { IfOk result (λ s. (IsSome net.old.store.box → All IsFalse net.old.waiting) → steps.new ≤ steps.old + cost_of mission.now part.first net.old.store.box (section_of part.upto s.end net.new.store.box)) }
    ensures unsettled { OnErr result (steps.new ≡ steps.old) }

    // Its text was written.
    ensures place { IfOk result (λ s. (s.number ≡ part.number) × (s.upto ≡ part.upto)) }
    ensures writes { IfOk result (λ s. Sends K.written K.flushed K.faults (text_of mission.now choices.brief part.number (section_of part.upto s.end net.new.store.box)) sink.old sink.new s.written) }
    ensures silent { OnErr result (sink.new ≡ sink.old) }
{
    places.extend(mission, part.first, part.upto)?;
    let end = next_section(
        mission,
        part.first,
        part.upto,
        table,
        net,
        choices.order,
        choices.budget,
        steps,
    )?;
    let verdict = verdict_of(end.answer);
    let written = write_section(
        mission,
        part.upto,
        places,
        part.number,
        verdict,
        net.store(),
        choices.brief,
        sink,
    );
    Ok(LastSection {
        number: part.number,
        upto: part.upto,
        end,
        written,
    })
}
