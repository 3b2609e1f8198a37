//! The true course of a demo mission: it satisfies every record of the mission, and so it is where a run over it says.
#![tactic(auto)]

ghost use Rattle.std.specs.Prelude.{◌≡◌, ℕ, List, Ok, IfOk};
ghost use Rattle.mission_log.specs.Log.{log_of};
ghost use Rattle.demo_spec.specs.Mission.{demo_mission};
ghost use Rattle.demo_law.specs.Truth.{IsCourseOfMission};
ghost use Rattle.demo_law.specs.Promise.{IsTruthOf};

use demo_mission::laws::demo_log_is_short;
use demo_mission::{Demo, make_demo};
use demo_spec::demo_is_a_mission;
use log_round_trip::printed_is_read;
use section_report::laws::printed_law;
use std::alloc::Global;
use tube_io::NoMemory;

/// Whatever is drawn, there is an assignment whose signals are the positions and the rates of the course at the ticks 0 to 2000, and that
/// satisfies every record of the demo mission. So each box that encloses what satisfies the records encloses the course.
pub fn positions_satisfy_records()
    ensures { (words : List ℕ) → IsCourseOfMission words }
{}

/// The demo of a seed: a log, and the positions of the course that it tells of.
///
/// The log is one of the demo mission of the seed, which is what a run in the mode `demo` reports. The positions lie in the tubes that such
/// a run prints, and each of their revisits is in one of its sets.
pub fn true_demo(alloc: Global, seed: u64) -> Result<Demo, NoMemory>
    ensures read { IfOk result (λ demo. log_of demo.log.items ≡ Ok (demo_mission seed)) }
    ensures truth { IfOk result (λ demo. IsTruthOf (demo_mission seed) demo.x.items demo.y.items) }
{
    positions_satisfy_records();
    demo_is_a_mission();
    demo_log_is_short();
    printed_is_read();
    printed_law();
    make_demo(alloc, seed)
}
