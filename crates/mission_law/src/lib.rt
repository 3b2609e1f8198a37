//! An accepted log is a mission: its records fit, each is right after the ones before it, and its clock is that of its records. The crate
//! has a law, and nothing that runs.
#![tactic(auto)]

ghost use Rattle.mission_law.specs.Laws.{AcceptedIsMission};

use formula_text::laws::printing_law;

/// What the bytes of a log say, where the log is accepted, is a mission that keeps all that an accepted mission promises. No reader stands
/// in this: it is true of every list of bytes.
pub fn accepted_is_mission()
    ensures { AcceptedIsMission }
{
    printing_law();
}
