//! One section: it is traced and written.

ghost use Rattle.std.specs.Prelude.{◌≡◌, false, ◌≤◌, ◌<◌, ◌++◌, ◌↔◌, IfOk, IfSome, IsNone, OnOk, OnErr, length, take, drop, flat_map};
ghost use Rattle.tube_io.specs.Sends.{Sends};
ghost use Rattle.tube_spec.specs.Box.{box_more, measure_of};
ghost use Rattle.tube_store.specs.State.{State};
ghost use Rattle.mission_items.specs.Valid.{IsMission};
ghost use Rattle.mission_net.specs.Records.{IsEnclosure, shape_by};
ghost use Rattle.mission_net.specs.Tables.{IsTableOf};
ghost use Rattle.mission_net.specs.Building.{IsNetOf};
ghost use Rattle.tube_report.specs.Places.{listed};
ghost use Rattle.tube_report.specs.Sections.{section_text};
ghost use Rattle.section_report.specs.Sections.{section_of, IsSectionOf, GoesOn};
ghost use Rattle.bundle_text.specs.Bundles.{fire_text};
ghost use Rattle.section_tracer.specs.Firings.{AreFirings, most_firings};
ghost use Rattle.section_tracer.specs.Texts.{fires_text, traced_text};

use bundle_text::{BundleLine, write_line};
use ctc_network::{CtcId, Net};
use mission_items::Mission;
use mission_net::{AnyCtc, Made, SectionEnd, build_on, settled_section_law};
use section_report::{LastSection, verdict_of};
use std::alloc::Global;
use std::sync::ledger::Ledger;
use step_count::Steps;
use traced_settling::settle_traced;
use tube_io::{NoMemory, Sink, WriteFault};
use tube_report::{Places, Verdict, write_section};
use tube_store::Store;

/// How many firings are listed of a section, at most.
pub const MOST_FIRINGS: u32 = 4_000_000;

/// Which section comes: its number, from 1, how many records the section before took, and how many it takes.
#[derive(Clone, Copy, Debug, PartialEq, Eq)]
pub struct Part {
    pub number: u32,
    pub first: usize,
    pub upto: usize,
}

/// How the settling of a section ended, and the contractors whose firings are listed.
#[derive(Drop)]
pub struct TracedEnd {
    pub end: SectionEnd,
    pub fired: Vec<CtcId>,
}

/// A section that was traced and written.
#[derive(Drop)]
pub struct TracedLast {
    pub section: LastSection,
    pub fired: Vec<CtcId>,
}

/// Builds the records of a section onto the net of those before and settles it by rounds. After want of memory the net isn't built on.
fn settle_part<L: Ledger>(
    alloc: Global,
    mission: &Mission,
    part: Part,
    table: &mut Made,
    net: &mut Net<AnyCtc>,
    steps: &mut Steps<L>,
) -> Result<TracedEnd, NoMemory>
    requires order { part.first ≤ part.upto }
    requires within { part.upto ≤ length mission.now.items }
    requires mission { IsMission mission.now }
    requires table { IsTableOf table.old (take part.first mission.now.items) }
    requires holds { IsNetOf mission.now.cuts (take part.first mission.now.items) net.old }
    requires before { IsEnclosure mission.now.cuts (take part.first mission.now.items) net.old.store.box }
    ensures table { OnOk result (IsTableOf table.new (take part.upto mission.now.items)) }
    ensures holds { OnOk result (IsNetOf mission.now.cuts (take part.upto mission.now.items) net.new) }
    ensures section { IfOk result (λ t. IsSectionOf mission.now most_firings (section_of part.upto t.end net.new.store.box)) }
    ensures goes_on { IfOk result (λ t. GoesOn mission.now part.first net.old.store.box (section_of part.upto t.end net.new.store.box)) }
    ensures firings { IfOk result (λ t. AreFirings mission.now part.first net.old.store.box (record { section = section_of part.upto t.end net.new.store.box; fired = t.fired.items })) }
{
    build_on(mission, part.first, part.upto, table, net)?;
    let store = net.store();
    store.known();
    let began = store.measure();
    let traced = settle_traced(alloc, net, MOST_FIRINGS, steps)?;
    net.known();
    settled_section_law();
    let settled = net.store();
    settled.known();
    let end = SectionEnd {
        answer: traced.settled,
        began,
    };
    Ok(TracedEnd {
        end,
        fired: traced.fired,
    })
}

/// Writes how many firings are listed of the section with a number, and each of them.
fn write_fires<K: Sink>(number: u32, fired: &[CtcId], sink: &mut K) -> Result<(), WriteFault>
    requires few { length fired.now ≤ most_firings }
    ensures { Sends K.written K.flushed K.faults (fires_text number fired.now) sink.old sink.new result }
{
    write_line(BundleLine::Fires(number, fired.len() as u32), sink)?;
    write_each(fired, sink)
}

/// Writes the line of each firing.
fn write_each<K: Sink>(fired: &[CtcId], sink: &mut K) -> Result<(), WriteFault>
    ensures { Sends K.written K.flushed K.faults (flat_map (λ (id : CtcId). fire_text id.0) fired.now) sink.old sink.new result }
{
    for id in fired {
        write_line(BundleLine::Fire(id.0), sink)?;
    }
    Ok(())
}

/// Writes the firings of a section and its text.
fn write_traced<K: Sink>(
    mission: &Mission,
    part: Part,
    places: &Places,
    verdict: Verdict,
    fired: &[CtcId],
    store: &Store,
    sink: &mut K,
) -> Result<(), WriteFault>
    requires within { part.upto ≤ length mission.now.items }
    requires few { length fired.now ≤ most_firings }
    requires places { places.now ≡ listed (take part.upto mission.now.items) }
    requires shape { store.now.shape ≡ shape_by mission.now.cuts (take part.upto mission.now.items) }
    requires empty { (verdict ≡ Verdict.Empty) ↔ IsNone store.now.box }
    ensures { Sends K.written K.flushed K.faults (fires_text part.number fired.now ++ section_text (take part.upto mission.now.items) part.number verdict store.now.shape store.now.box false) sink.old sink.new result }
{
    write_fires(part.number, fired, sink)?;
    write_section(
        mission,
        part.upto,
        places,
        part.number,
        verdict,
        store,
        false,
        sink,
    )
}

/// Builds the records of a section onto the net of those before, settles it by rounds and writes it with its firings. After want of memory
/// nothing was written.
pub fn trace_part<K: Sink, L: Ledger>(
    alloc: Global,
    mission: &Mission,
    part: Part,
    places: &mut Places,
    table: &mut Made,
    net: &mut Net<AnyCtc>,
    sink: &mut K,
    steps: &mut Steps<L>,
) -> Result<TracedLast, NoMemory>
    requires order { part.first ≤ part.upto }
    requires within { part.upto ≤ length mission.now.items }
    requires mission { IsMission mission.now }
    requires places { places.old ≡ listed (take part.first mission.now.items) }
    requires table { IsTableOf table.old (take part.first mission.now.items) }
    requires holds { IsNetOf mission.now.cuts (take part.first mission.now.items) net.old }
    requires before { IsEnclosure mission.now.cuts (take part.first mission.now.items) net.old.store.box }

    // The list, the table and the net are those of the records so far, and the box is that of their section.
    ensures places { OnOk result (places.new ≡ listed (take part.upto mission.now.items)) }
    ensures table { OnOk result (IsTableOf table.new (take part.upto mission.now.items)) }
    ensures holds { OnOk result (IsNetOf mission.now.cuts (take part.upto mission.now.items) net.new) }
    ensures section { IfOk result (λ t. IsSectionOf mission.now most_firings (section_of part.upto t.section.end net.new.store.box)) }
    ensures goes_on { IfOk result (λ t. GoesOn mission.now part.first net.old.store.box (section_of part.upto t.section.end net.new.store.box)) }
    ensures firings { IfOk result (λ t. AreFirings mission.now part.first net.old.store.box (record { section = section_of part.upto t.section.end net.new.store.box; fired = t.fired.items })) }

    // It was written with its firings.
    ensures place { IfOk result (λ t. (t.section.number ≡ part.number) × (t.section.upto ≡ part.upto)) }
    ensures writes { IfOk result (λ t. Sends K.written K.flushed K.faults (traced_text mission.now part.number (record { section = section_of part.upto t.section.end net.new.store.box; fired = t.fired.items })) sink.old sink.new t.section.written) }
    ensures silent { OnErr result (sink.new ≡ sink.old) }
{
    places.extend(mission, part.first, part.upto)?;
    let traced = settle_part(alloc, mission, part, table, net, steps)?;
    let verdict = verdict_of(traced.end.answer);
    let written = write_traced(
        mission,
        part,
        places,
        verdict,
        &traced.fired,
        net.store(),
        sink,
    );
    let section = LastSection {
        number: part.number,
        upto: part.upto,
        end: traced.end,
        written,
    };
    Ok(TracedLast {
        section,
        fired: traced.fired,
    })
}
