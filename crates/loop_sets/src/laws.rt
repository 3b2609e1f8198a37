//! What a component and a finding say of trajectories.

ghost use Rattle.loop_sets.specs.Finding.{ComponentLaw, FindingLaw};

/// Does nothing. Its contract: each set that `components` gives of what `pave` gave is a component of the plane, as [`prove`](crate::prove)
/// asks.
pub fn component_law()
    ensures { ComponentLaw }
{}

/// Does nothing. Its contract is what a finding is good for: where a component is found sure or has a degree, each trajectory in the box
/// that has the rates of the records has a revisit of which the pair is in the set.
pub fn finding_law()
    ensures { FindingLaw }
{}
