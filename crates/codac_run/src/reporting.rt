//! The report of an accepted log: its sections, and what is told of its queries.

ghost use Rattle.std.specs.Prelude.{◌≡◌, ◌-◌, ◌≤◌, ◌⊎◌, None, Ok, IfOk, OnErr, length, pos, take, ◌≤ℤ◌};
ghost use Rattle.tube_io.specs.Causes.{Rose};
ghost use Rattle.mission_items.specs.Valid.{IsMission};
ghost use Rattle.mission_net.specs.Records.{shape_by, Encloses};
ghost use Rattle.codac_run.specs.Reports.{status_of, Stops, EndsBy, HandsWhere, HandsNetWhere, HandsFound, IsSettledOnly};
ghost use Rattle.codac_run.specs.Tails.{paved_queries, CanTell};
ghost use Rattle.mission_loops.specs.Cost.{TakesAtMost};
ghost use Rattle.codac_run.specs.Telling.{AreToldAfter, AreCutShortAfter};

use crate::ended::{Ended, SpentAt, Status};
use crate::ending::finish;
use crate::plan::{Plan, Tail};
use ctc_network::{Net, Settled};
use mission_area::write_areas;
use mission_items::Mission;
use mission_loops::{Findings, FoundSets, write_findings};
use mission_net::AnyCtc;
use section_report::{LastSection, verdict_of, write_sections};
use std::alloc::Global;
use std::sync::ledger::Ledger;
use step_count::Steps;
use tube_io::{NoMemory, Sink, WriteFault};
use tube_report::Verdict;
use tube_store::Store;

/// The status of a run whose last section has a verdict.
fn status_of(verdict: Verdict) -> Status
    ensures { result ≡ status_of verdict }
{
    match verdict {
        Verdict::Settled => Status::Settled,
        Verdict::Empty => Status::Empty,
        Verdict::Spent => Status::Spent,
    }
}

/// What is handed out beside a status, over the net of the last section and what is told of the last query.
fn handed(
    plan: &Plan,
    status: Status,
    section: LastSection,
    net: Net<AnyCtc>,
    found: Option<FoundSets>,
) -> Ended
    requires { IsSettledOnly section.end.answer status }
    ensures status { result.status ≡ status }
    ensures found { HandsFound plan.now.hands_out status found result.found }
    ensures spent { HandsWhere section.end.answer section.number section.end.began net result.spent }
    ensures net { HandsNetWhere plan.now.hands_out status net result.net }
{
    if let Settled::Spent(ctc) = section.end.answer {
        let store = net.into_store();
        return Ended {
            status,
            spent: Some(SpentAt {
                section: section.number,
                ctc,
                began: section.end.began,
                now: store.measure(),
                store,
            }),
            net: None,
            found: None,
        };
    }
    if status != Status::Settled || !plan.hands_out {
        return Ended::only(status);
    }
    Ended {
        status,
        spent: None,
        net: Some(net),
        found,
    }
}

/// What writing leaves where no sets are told.
fn without_sets(written: Result<(), WriteFault>) -> Findings
    ensures { result ≡ record { last = None; written = written } }
{
    Findings {
        last: None,
        written,
    }
}

/// Tells of the queries over the net of the last section what the plan says, and writes it, where the sections were written.
fn tell<K: Sink, L: Ledger>(
    alloc: Global,
    plan: &Plan,
    mission: &Mission,
    section: &LastSection,
    store: &Store,
    sink: &mut K,
    steps: &mut Steps<L>,
) -> Result<Findings, NoMemory>
    requires tail { CanTell plan.now.tail }
    requires mission { IsMission mission.now }
    requires within { section.now.upto ≤ length mission.now.items }
    requires shape { store.now.shape ≡ shape_by mission.now.cuts (take section.now.upto mission.now.items) }
    requires encloses { Encloses mission.now.cuts (take section.now.upto mission.now.items) store.now.box }
    ensures told { IfOk result (λ findings. AreToldAfter K.written K.flushed K.faults mission.now plan.now section.now store.now.box sink.old sink.new findings) }
    ensures cut_short { OnErr result (AreCutShortAfter K.written K.flushed K.faults mission.now plan.now section.now store.now.box sink.old sink.new) }
    ensures steps { TakesAtMost store.now.shape store.now.box (paved_queries plan.now.tail (take section.now.upto mission.now.items)) steps.old steps.new }
{
    if section.written.is_err() {
        return Ok(without_sets(section.written));
    }
    let (upto, brief) = (section.upto, plan.sections.brief);
    match plan.tail {
        Tail::Nothing => Ok(without_sets(section.written)),
        Tail::Findings => write_findings(alloc, mission, upto, store, brief, sink, steps),
        Tail::Areas { step } => {
            let step = step as i64;
            let written = write_areas(alloc, mission, upto, store, step, brief, sink)?;
            Ok(without_sets(written))
        }
    }
}

/// Settles the sections of a mission one after the other, and writes each; then it tells of the queries what the plan says.
pub(crate) fn report<K: Sink, L: Ledger>(
    alloc: Global,
    plan: &Plan,
    mission: &Mission,
    sink: &mut K,
    steps: &mut Steps<L>,
) -> Ended
    requires tail { CanTell plan.now.tail }
    requires mission { IsMission mission.now }
    ensures ends { Stops Status.NoMemory (K.written sink.old) (K.written sink.new) result (steps.new - steps.old) ⊎ EndsBy (Ok mission.now) plan.now (K.written sink.old) (K.written sink.new) (K.flushed sink.new) result (steps.new - steps.old) }
    ensures failed { result.status ≡ Status.WriteFault → Rose (K.faults sink.old) (K.faults sink.new) }
    ensures unflushed { result.status ≡ Status.WriteFault → K.flushed sink.new ≡ K.flushed sink.old }
{
    let Ok(grid) = mission.cuts.copy(alloc) else {
        return Ended::only(Status::NoMemory);
    };
    let mut net = Net::new(alloc, grid);
    let Ok(section) = write_sections(alloc, mission, plan.sections, &mut net, sink, steps) else {
        return Ended::only(Status::NoMemory);
    };
    let Ok(findings) = tell(alloc, plan, mission, &section, net.store(), sink, steps) else {
        return handed(plan, Status::NoMemory, section, net, None);
    };
    let planned = status_of(verdict_of(section.end.answer));
    let status = finish(sink, findings.written, planned);
    handed(plan, status, section, net, findings.last)
}
