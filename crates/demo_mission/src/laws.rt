//! What is true of the log of every demo mission. The function does nothing, and its contract is the law.

ghost use Rattle.std.specs.Prelude.{ℕ, ◌≤◌, length};
ghost use Rattle.demo_spec.specs.Mission.{demo_mission};
ghost use Rattle.log_text.specs.Texts.{log_text};

/// The log of each seed has at most 20,000 bytes, far fewer than a reader takes.
pub fn demo_log_is_short()
    ensures { (seed : ℕ) → length (log_text (demo_mission seed)) ≤ 20000 }
{}
