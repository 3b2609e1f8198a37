//! What is true of every mission.

ghost use Rattle.std.specs.Prelude.{ℕ, ◌<◌};
ghost use Rattle.mission_items.specs.declared.mission.Mission.{Mission};
ghost use Rattle.section_report.specs.Printed.{PrintedEncloses};
ghost use Rattle.section_report.specs.Sections.{StartsBelow};

/// A budget above 2,000,000,000,000,000 is above every measure at which a section starts.
pub fn enough_law()
    ensures { (m : Mission) (budget : ℕ) → 2000000000000000 < budget → StartsBelow m budget }
{}

/// What is printed of a section encloses each trajectory that is consistent with its records: at gates, over slices with both their end
/// ticks, in brief, and of variables. Where the section is empty there is no such trajectory.
pub fn printed_law()
    ensures { PrintedEncloses }
{}
