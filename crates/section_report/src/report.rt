//! All sections, one after the other.

ghost use Rattle.std.specs.Prelude.{◌≡◌, IfOk, OnErr};
ghost use Rattle.ctc_network.specs.Nets.{no_net};
ghost use Rattle.mission_items.specs.Valid.{IsMission};
ghost use Rattle.section_report.specs.Sections.{is_settle};
ghost use Rattle.section_report.specs.Leaving.{IsReported, IsCutShort};

use crate::part::{Choices, LastSection, Part, write_part};
use ctc_network::Net;
use mission_items::{Item, Mission};
use mission_net::{AnyCtc, Made};
use std::alloc::Global;
use std::sync::ledger::Ledger;
use step_count::Steps;
use tube_io::{NoMemory, Sink};
use tube_report::Places;

// Whether a record ends a section.
fn is_settle(item: &Item) -> bool
    ensures { result ≡ is_settle item.now }
{
    matches!(item, Item::Settle)
}

/// Settles the sections of a mission and writes them, one after the other, on a net over its clock that holds nothing yet.
///
/// Each section goes on from the box of the one before. A section that is spent is the last one, as is one whose writing fails; the
/// section that is answered is the last one that was settled, and the net is that of its records at its box. After want of memory the
/// sections before were written whole. Nothing is flushed. In all it takes no more steps than the sections may cost: for each of their
/// constraints one, and for each cell the width that it loses in a section times one more than how many constraints read it.
pub fn write_sections<K: Sink, L: Ledger>(
    alloc: Global,
    mission: &Mission,
    choices: Choices,
    net: &mut Net<AnyCtc>,
    sink: &mut K,
    steps: &mut Steps<L>,
) -> Result<LastSection, NoMemory>
    requires mission { IsMission mission.now }
    requires fresh { net.old ≡ no_net mission.now.cuts }
    ensures reported { IfOk result (λ section. IsReported K.written K.flushed K.faults mission.now choices sink.old sink.new steps.old steps.new net.new section) }
    ensures cut_short { OnErr result (IsCutShort K.written K.flushed K.faults mission.now choices sink.old sink.new steps.old steps.new) }
{
    let items = mission.items.as_slice();
    let mut places = Places::new(alloc);
    let mut table = Made::new(alloc);
    let mut number = 1;
    let mut first = 0;
    for upto in 0..items.len() {
        if is_settle(&items[upto]) {
            let part = Part {
                number,
                first,
                upto,
            };
            let section = write_part(
                mission,
                part,
                choices,
                &mut places,
                &mut table,
                net,
                sink,
                steps,
            )?;
            if section.ends_report() {
                return Ok(section);
            }
            number += 1;
            first = upto;
        }
    }
    let part = Part {
        number,
        first,
        upto: items.len(),
    };
    write_part(
        mission,
        part,
        choices,
        &mut places,
        &mut table,
        net,
        sink,
        steps,
    )
}
