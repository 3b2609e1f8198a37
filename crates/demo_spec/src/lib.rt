//! The demo mission as records: what a log says of the true course that a seed draws. It has definitions and laws, and nothing that
//! runs: each function below does nothing, and its contract is a law.
#![tactic(auto)]

ghost use Rattle.std.specs.Prelude.{ℕ, List};
ghost use Rattle.mission_items.specs.Valid.{IsMission};
ghost use Rattle.demo_spec.specs.Mission.{demo_mission, mission_of};

/// The demo mission is one that a reader of logs accepts, whatever the seed.
pub fn demo_is_a_mission()
    ensures { (seed : ℕ) → IsMission (demo_mission seed) }
{}
