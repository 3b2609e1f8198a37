//! The areas of all queries of a section, one after the other.

ghost use Rattle.std.specs.Prelude.{◌≡◌, ◌≤◌, ◌≤ℤ◌, pos, IfOk, OnErr, length, take};
ghost use Rattle.std.specs.List.{Contains};
ghost use Rattle.area_paver.specs.Lattice.{greatest_step};
ghost use Rattle.mission_items.specs.Valid.{IsMission};
ghost use Rattle.mission_net.specs.Records.{shape_by, Encloses};
ghost use Rattle.mission_loops.specs.Queries.{queries};
ghost use Rattle.mission_area.specs.Writing.{AreWritten, AreCutShort, IsToldAs};

use crate::charting::find_area;
use area_report::write_area;
use mission_items::{Item, Mission};
use std::alloc::Global;
use tube_io::{NoMemory, Sink, WriteFault};
use tube_names::Query;
use tube_store::Store;

/// Tells and writes the area of a query, with its number.
fn write_told<K: Sink>(
    alloc: Global,
    mission: &Mission,
    upto: usize,
    number: u32,
    q: &Query,
    store: &Store,
    step: i64,
    brief: bool,
    sink: &mut K,
) -> Result<Result<(), WriteFault>, NoMemory>
    requires within { upto ≤ length mission.now.items }
    requires mission { IsMission mission.now }
    requires asked { Contains (queries (take upto mission.now.items)) q.now }
    requires shape { store.now.shape ≡ shape_by mission.now.cuts (take upto mission.now.items) }
    requires encloses { Encloses mission.now.cuts (take upto mission.now.items) store.now.box }
    requires step { pos 1 ≤ℤ step }
    requires wide { step ≤ℤ pos greatest_step }
    ensures told { IfOk result (λ written. IsToldAs K.written K.flushed K.faults mission.now.cuts (take upto mission.now.items) store.now.box step q.now number brief sink.old sink.new written) }
    ensures unwritten { OnErr result (sink.new ≡ sink.old) }
{
    let told = find_area(alloc, mission, upto, q, store, step)?;
    Ok(write_area(number, &told, brief, sink))
}

/// Tells and writes the area of each query of the first records of a mission, numbered from 1, over the box of a store, which holds their
/// section, on the lattice with this step, in millimetres. With `brief` no row of a chart is written.
///
/// It stops at the first write that fails, and a prefix of the text was taken then. After want of memory the queries before were written
/// whole. Nothing is flushed.
pub fn write_areas<K: Sink>(
    alloc: Global,
    mission: &Mission,
    upto: usize,
    store: &Store,
    step: i64,
    brief: bool,
    sink: &mut K,
) -> Result<Result<(), WriteFault>, NoMemory>
    requires within { upto ≤ length mission.now.items }
    requires mission { IsMission mission.now }
    requires shape { store.now.shape ≡ shape_by mission.now.cuts (take upto mission.now.items) }
    requires encloses { Encloses mission.now.cuts (take upto mission.now.items) store.now.box }
    requires step { pos 1 ≤ℤ step }
    requires wide { step ≤ℤ pos greatest_step }
    ensures written { IfOk result (λ written. AreWritten K.written K.flushed K.faults mission.now.cuts (take upto mission.now.items) store.now.box step brief sink.old sink.new written) }
    ensures cut_short { OnErr result (AreCutShort K.written K.flushed K.faults mission.now.cuts (take upto mission.now.items) store.now.box step brief sink.old sink.new) }
{
    let items = &mission.items.as_slice()[..upto];
    let mut number = 1;
    for item in items {
        if let Item::Revisit { q } = item {
            let written = write_told(alloc, mission, upto, number, q, store, step, brief, sink)?;
            if written.is_err() {
                return Ok(written);
            }
            number += 1;
        }
    }
    Ok(Ok(()))
}
