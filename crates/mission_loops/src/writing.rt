//! All queries of a section, one after the other.

ghost use Rattle.std.specs.Prelude.{◌≡◌, ◌≤◌, IfOk, OnErr, length, take};
ghost use Rattle.tube_io.specs.Sends.{Sends};
ghost use Rattle.loop_report.specs.Loops.{loops_text};
ghost use Rattle.mission_items.specs.Valid.{IsMission};
ghost use Rattle.mission_net.specs.Records.{shape_by, Encloses};
ghost use Rattle.mission_loops.specs.Cost.{TakesAtMost};
ghost use Rattle.mission_loops.specs.Queries.{queries};
ghost use Rattle.mission_loops.specs.Writing.{AreWritten, AreCutShort};

use crate::finding::find_loops;
use crate::records::first_items;
use crate::sets::FoundSets;
use loop_report::write_loops;
use mission_items::{Item, Mission};
use std::alloc::Global;
use std::sync::ledger::Ledger;
use step_count::Steps;
use tube_io::{NoMemory, Sink, WriteFault};
use tube_store::Store;

/// What writing the findings of a section leaves.
#[derive(Drop)]
pub struct Findings {
    /// The sets of the last query; none where there is no query, or that one is crowded.
    pub last: Option<FoundSets>,
    /// Whether all was written.
    pub written: Result<(), WriteFault>,
}

/// Writes what is told of the query with a number.
fn write_told<K: Sink>(
    number: u32,
    told: &Option<FoundSets>,
    brief: bool,
    sink: &mut K,
) -> Result<(), WriteFault>
    ensures { Sends K.written K.flushed K.faults (loops_text number told.now brief) sink.old sink.new result }
{
    match told {
        Some(sets) => write_loops(number, Some(sets.as_slice()), brief, sink),
        None => write_loops(number, None, brief, sink),
    }
}

/// Tells and writes each query of the first records of a mission, numbered from 1, over the box of a store, which holds their section: its
/// sets with what is found of each, or that it is crowded. With `brief` no run of a set is written.
///
/// It stops at the first write that fails, and a prefix of the text was taken then. After want of memory the queries before were written
/// whole. Nothing is flushed. It takes at most one step for each query, and four for each square that the paver judges Mixed.
pub fn write_findings<K: Sink, L: Ledger>(
    alloc: Global,
    mission: &Mission,
    upto: usize,
    store: &Store,
    brief: bool,
    sink: &mut K,
    steps: &mut Steps<L>,
) -> Result<Findings, NoMemory>
    requires within { upto ≤ length mission.now.items }
    requires mission { IsMission mission.now }
    requires shape { store.now.shape ≡ shape_by mission.now.cuts (take upto mission.now.items) }
    requires encloses { Encloses mission.now.cuts (take upto mission.now.items) store.now.box }
    ensures written { IfOk result (λ findings. AreWritten K.written K.flushed K.faults mission.now.cuts (take upto mission.now.items) store.now.box brief sink.old sink.new findings) }
    ensures cut_short { OnErr result (AreCutShort K.written K.flushed K.faults mission.now.cuts (take upto mission.now.items) store.now.box brief sink.old sink.new) }
    ensures steps { TakesAtMost store.now.shape store.now.box (queries (take upto mission.now.items)) steps.old steps.new }
{
    let items = first_items(mission, upto);
    let mut last = None;
    let mut number = 1;
    for item in items {
        if let Item::Revisit { q } = item {
            let told = find_loops(alloc, mission, upto, q, store, steps)?;
            let written = write_told(number, &told, brief, sink);
            last = told;
            if written.is_err() {
                return Ok(Findings { last, written });
            }
            number += 1;
        }
    }
    Ok(Findings {
        last,
        written: Ok(()),
    })
}
