//! A run in memory, of which no read fails.

ghost use Rattle.std.specs.Prelude.{◌≡◌, ◌-◌, ◌<◌, ℕ, List, Option, [], Some, Ok, length};
ghost use Rattle.mission_items.specs.declared.mission.Mission.{Mission};
ghost use Rattle.section_report.specs.Sections.{StartsBelow};
ghost use Rattle.codac_run.specs.declared.plan.Plan.{Plan};
ghost use Rattle.codac_run.specs.Plans.{planned};
ghost use Rattle.codac_run.specs.Reports.{log_planned, Ends, IsShorter};
ghost use Rattle.codac_run.specs.Statuses.{IsWholeOrNoMemory};

use crate::ended::{Ended, Status};
use crate::top::run;
use cli_words::Words;
use std::alloc::Global;
use std::sync::ledger::Ledger;
use step_count::Steps;
use tube_io::{SureSink, SureSource};

/// Runs over a log in memory, of which a read gives at most so many bytes, into a new sink of `N` bytes in memory.
///
/// No read fails, and a write fails only where all `N` bytes are taken: never where the report is shorter than that.
pub fn run_in_memory<const N: usize, L: Ledger>(
    alloc: Global,
    words: &Words,
    log: Vec<u8>,
    most: usize,
    steps: &mut Steps<L>,
) -> (Ended, SureSink<N>)
    requires { 0 < most }
    ensures ends { (rest : Option (List ℕ)) × Ends (planned words.now) (Some log.items) rest (Some []) (Some result.1.bytes) (Some result.1.flushed) result.0 (steps.new - steps.old) }
    ensures read { result.0.status ≡ Status.ReadFault → ⊥ }
    ensures write { result.0.status ≡ Status.WriteFault → length result.1.bytes ≡ N }
    ensures unflushed { result.0.status ≡ Status.WriteFault → result.1.flushed ≡ 0 }
    ensures room { (plan : Plan) (m : Mission) → planned words.now ≡ Some plan → log_planned plan (Some log.items) ≡ Some (Ok m)
        → IsShorter m plan N → result.0.status ≡ Status.WriteFault → ⊥ }

    // Right words, an accepted log, a budget above the measure at which each section starts, and room for the report give the whole
    // report, or memory runs out.
    ensures complete { (plan : Plan) (m : Mission) → planned words.now ≡ Some plan → log_planned plan (Some log.items) ≡ Some (Ok m)
        → StartsBelow m plan.sections.budget → IsShorter m plan N → IsWholeOrNoMemory result.0.status }
{
    let mut source = SureSource::new(log, most);
    let mut sink = SureSink::<N>::new();
    let ended = run(alloc, words, &mut source, &mut sink, steps);
    let _taken = sink.bytes();
    (ended, sink)
}
