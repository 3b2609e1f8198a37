ghost use Rattle.std.specs.Prelude.{◌≡◌, ◌-◌, ◌<◌, ◌≤◌, ◌⊎◌, ℕ, Option, Some, None, Ok};
ghost use Rattle.tube_io.specs.Causes.{Rose};
ghost use Rattle.mission_items.specs.declared.mission.Mission.{Mission};
ghost use Rattle.section_report.specs.Sections.{StartsBelow};
ghost use Rattle.demo_spec.specs.Mission.{demo_mission};
ghost use Rattle.codac_run.specs.declared.plan.Plan.{Plan};
ghost use Rattle.codac_run.specs.Plans.{planned};
ghost use Rattle.codac_run.specs.Reports.{log_planned, IsUnread, Stops, EndsBy, EndsFrom, Ends};
ghost use Rattle.codac_run.specs.Tails.{CanTell};
ghost use Rattle.codac_run.specs.Statuses.{standing_of, CanEnd, IsWholeOrNoMemory};

use crate::ended::{Ended, Status};
use crate::ending::{refuse, usage};
use crate::hearing::{Heard, hear};
use crate::plan::{Origin, Plan, read_plan};
use crate::reporting::report;
use cli_words::Words;
use demo_mission::make_mission;
use demo_spec::demo_is_a_mission;
use std::alloc::Global;
use std::sync::ledger::Ledger;
use step_count::Steps;
use tube_io::{NoMemory, Sink, Source};
use tube_limits::MOST_BYTES;

/// Reads and judges the whole log, and writes its report, or the line of its fault.
fn hear_and_report<S: Source, K: Sink, L: Ledger>(
    alloc: Global,
    plan: &Plan,
    source: &mut S,
    sink: &mut K,
    steps: &mut Steps<L>,
) -> Ended
    requires { CanTell plan.now.tail }
    ensures ends { EndsFrom Origin.Source plan.now (S.left source.old) (S.left source.new) (K.written sink.old) (K.written sink.new) (K.flushed sink.new) result (steps.new - steps.old) }
    ensures enough { 2000000000000000 < plan.now.sections.budget → result.status ≡ Status.Spent → ⊥ }
    ensures read { result.status ≡ Status.ReadFault → Rose (S.faults source.old) (S.faults source.new) }
    ensures write { result.status ≡ Status.WriteFault → Rose (K.faults sink.old) (K.faults sink.new) }
    ensures unflushed { result.status ≡ Status.WriteFault → K.flushed sink.new ≡ K.flushed sink.old }
{
    match hear(alloc, source, MOST_BYTES) {
        Heard::Accepted { bytes: _, mission } => report(alloc, plan, &mission, sink, steps),
        Heard::Refused { number, cause } => refuse(sink, number, cause),
        Heard::Failed => Ended::only(Status::ReadFault),
        Heard::NoMemory => Ended::only(Status::NoMemory),
    }
}

/// Makes the demo mission of the seed, and writes its report.
fn make_and_report<K: Sink, L: Ledger>(
    alloc: Global,
    plan: &Plan,
    seed: u64,
    sink: &mut K,
    steps: &mut Steps<L>,
) -> Ended
    requires { CanTell plan.now.tail }
    ensures ends { Stops Status.NoMemory (K.written sink.old) (K.written sink.new) result (steps.new - steps.old) ⊎ EndsBy (Ok (demo_mission seed)) plan.now (K.written sink.old) (K.written sink.new) (K.flushed sink.new) result (steps.new - steps.old) }
    ensures enough { 2000000000000000 < plan.now.sections.budget → result.status ≡ Status.Spent → ⊥ }
    ensures write { result.status ≡ Status.WriteFault → Rose (K.faults sink.old) (K.faults sink.new) }
    ensures unflushed { result.status ≡ Status.WriteFault → K.flushed sink.new ≡ K.flushed sink.old }
{
    demo_is_a_mission();
    match make_mission(alloc, seed) {
        Ok(made) => report(alloc, plan, &made.mission, sink, steps),
        Err(NoMemory) => Ended::only(Status::NoMemory),
    }
}

/// Does what a plan says: over the log of the source, or over one that is made.
fn follow<S: Source, K: Sink, L: Ledger>(
    alloc: Global,
    plan: &Plan,
    source: &mut S,
    sink: &mut K,
    steps: &mut Steps<L>,
) -> Ended
    requires { CanTell plan.now.tail }
    ensures ends { Ends (Some plan.now) (S.left source.old) (S.left source.new) (K.written sink.old) (K.written sink.new) (K.flushed sink.new) result (steps.new - steps.old) }
    ensures enough { 2000000000000000 < plan.now.sections.budget → result.status ≡ Status.Spent → ⊥ }
    ensures read { result.status ≡ Status.ReadFault → Rose (S.faults source.old) (S.faults source.new) }
    ensures write { result.status ≡ Status.WriteFault → Rose (K.faults sink.old) (K.faults sink.new) }
    ensures unflushed { result.status ≡ Status.WriteFault → K.flushed sink.new ≡ K.flushed sink.old }
    ensures unread { IsUnread (Some plan.now) → (S.left source.new ≡ S.left source.old) × (S.faults source.new ≡ S.faults source.old) }
{
    match plan.origin {
        Origin::Source => hear_and_report(alloc, plan, source, sink, steps),
        Origin::Demo { seed } => make_and_report(alloc, plan, seed, sink, steps),
    }
}

/// Reads the words, and does what their plan says, or writes how the program is called.
fn read_and_follow<S: Source, K: Sink, L: Ledger>(
    alloc: Global,
    words: &Words,
    source: &mut S,
    sink: &mut K,
    steps: &mut Steps<L>,
) -> Ended
    ensures ends { Ends (planned words.now) (S.left source.old) (S.left source.new) (K.written sink.old) (K.written sink.new) (K.flushed sink.new) result (steps.new - steps.old) }
    ensures enough { (plan : Plan) → planned words.now ≡ Some plan → 2000000000000000 < plan.sections.budget → result.status ≡ Status.Spent → ⊥ }
    ensures read { result.status ≡ Status.ReadFault → Rose (S.faults source.old) (S.faults source.new) }
    ensures write { result.status ≡ Status.WriteFault → Rose (K.faults sink.old) (K.faults sink.new) }
    ensures unflushed { result.status ≡ Status.WriteFault → K.flushed sink.new ≡ K.flushed sink.old }
    ensures unread { IsUnread (planned words.now) → (S.left source.new ≡ S.left source.old) × (S.faults source.new ≡ S.faults source.old) }
{
    match read_plan(alloc, words) {
        Ok(Some(plan)) => follow(alloc, &plan, source, sink, steps),
        Ok(None) => usage(sink),
        Err(NoMemory) => Ended::only(Status::NoMemory),
    }
}

/// Reads the words and the source, and writes the report, or the line of a fault or of the usage.
///
/// The words are those after the program's name. With wrong words, and in the mode `demo`, the source is not read. Otherwise the whole
/// source is read and judged before anything is written. The records of an accepted log, or those of the demo mission of the seed, are
/// built into one network, section by section: each section is settled from the box of the one before, in the order and within the budget
/// that the words ask for, and written. In the modes `loops` and `demo` what is found of the queries over the box of the last of them is
/// then told and written, query by query, and in the mode `area` the area that each query's sensor has seen. At the end the sink is flushed.
pub fn run<S: Source, K: Sink, L: Ledger>(
    alloc: Global,
    words: &Words,
    source: &mut S,
    sink: &mut K,
    steps: &mut Steps<L>,
) -> Ended
    // Enclosure, the greatest fixpoint, what is possible and proved, the bytes, the status, and how many steps were used: see `Ends`, and
    // `Reports` in it.
    ensures ends { Ends (planned words.now) (S.left source.old) (S.left source.new) (K.written sink.old) (K.written sink.new) (K.flushed sink.new) result (steps.new - steps.old) }

    // Which status comes for which words and which log: see the table `CanEnd`.
    ensures statuses { CanEnd (standing_of (planned words.now) (S.left source.old)) result.status }

    // A fault is answered only where a count of faults rose. After a failed write nothing more is flushed, so that each other answer comes
    // exactly where its text was written and flushed.
    ensures read { result.status ≡ Status.ReadFault → Rose (S.faults source.old) (S.faults source.new) }
    ensures write { result.status ≡ Status.WriteFault → Rose (K.faults sink.old) (K.faults sink.new) }
    ensures unflushed { result.status ≡ Status.WriteFault → K.flushed sink.new ≡ K.flushed sink.old }

    // With wrong words, and in a demo, the source is not read.
    ensures unread { IsUnread (planned words.now) → (S.left source.new ≡ S.left source.old) × (S.faults source.new ≡ S.faults source.old) }

    // Right words, an accepted log, no fault in the call and a budget above the measure at which each section starts give the whole
    // report, or memory runs out. A budget above 2,000,000,000,000,000 is above every measure.
    ensures complete { (plan : Plan) (m : Mission) → planned words.now ≡ Some plan → log_planned plan (S.left source.old) ≡ Some (Ok m)
        → (Rose (S.faults source.old) (S.faults source.new) → ⊥) → (Rose (K.faults sink.old) (K.faults sink.new) → ⊥)
        → StartsBelow m plan.sections.budget → IsWholeOrNoMemory result.status }
    ensures enough { (plan : Plan) → planned words.now ≡ Some plan → 2000000000000000 < plan.sections.budget → result.status ≡ Status.Spent → ⊥ }
{
    read_and_follow(alloc, words, source, sink, steps)
}
