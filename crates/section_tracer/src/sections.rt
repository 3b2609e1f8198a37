//! All sections, one after the other.

ghost use Rattle.std.specs.Prelude.{◌≡◌, ◌||◌, IfOk, OnErr, is_err};
ghost use Rattle.ctc_network.specs.Nets.{no_net};
ghost use Rattle.mission_items.specs.Valid.{IsMission};
ghost use Rattle.section_report.specs.Sections.{is_settle, is_spent};
ghost use Rattle.section_tracer.specs.Leaving.{IsTraced, IsCutShort};

use crate::part::{Part, trace_part};
use ctc_network::{Net, Settled};
use mission_items::{Item, Mission};
use mission_net::{AnyCtc, Made};
use section_report::LastSection;
use std::alloc::Global;
use std::sync::ledger::Ledger;
use step_count::Steps;
use tube_io::{NoMemory, Sink};
use tube_report::Places;

// Whether a record ends a section.
fn is_settle(item: &Item) -> bool
    ensures { result ≡ is_settle item.now }
{
    matches!(item, Item::Settle)
}

// Whether no section is traced after one: it was spent, or a write failed.
fn ends_trace(section: &LastSection) -> bool
    ensures { result ≡ (is_err section.now.written || is_spent section.now.end.answer) }
{
    section.written.is_err() || matches!(section.end.answer, Settled::Spent(_))
}

/// Traces the sections of a mission and writes them with their firings, one after the other, on a net over its clock that holds nothing yet.
///
/// Each section goes on from the box of the one before. It is settled by rounds of firings in the order of the contractors' numbers, and each
/// firing that narrowed or emptied the box is listed. A section is spent where 4,000,000 firings are listed and a contractor still narrows its box:
/// it is the last one then, as is one whose writing fails. The section that is answered is the last one that was traced, and the net is that of
/// its records at its box. After want of memory the sections before were written whole. Nothing is flushed.
pub fn trace_sections<K: Sink, L: Ledger>(
    alloc: Global,
    mission: &Mission,
    net: &mut Net<AnyCtc>,
    sink: &mut K,
    steps: &mut Steps<L>,
) -> Result<LastSection, NoMemory>
    requires mission { IsMission mission.now }
    requires fresh { net.old ≡ no_net mission.now.cuts }
    ensures traced { IfOk result (λ section. IsTraced K.written K.flushed K.faults mission.now sink.old sink.new net.new section) }
    ensures cut_short { OnErr result (IsCutShort K.written K.flushed K.faults mission.now sink.old sink.new) }
{
    let items = mission.items.as_slice();
    let mut places = Places::new(alloc);
    let mut table = Made::new(alloc);
    let mut number = 1;
    let mut first = 0;
    for upto in 0..items.len() {
        if is_settle(&items[upto]) {
            let part = Part {
                number,
                first,
                upto,
            };
            let traced = trace_part(
                alloc,
                mission,
                part,
                &mut places,
                &mut table,
                net,
                sink,
                steps,
            )?;
            if ends_trace(&traced.section) {
                return Ok(traced.section);
            }
            number += 1;
            first = upto;
        }
    }
    let part = Part {
        number,
        first,
        upto: items.len(),
    };
    let traced = trace_part(
        alloc,
        mission,
        part,
        &mut places,
        &mut table,
        net,
        sink,
        steps,
    )?;
    Ok(traced.section)
}
