//! What the names of a record mean.

ghost use Rattle.std.specs.Prelude.{◌≡◌};
ghost use Rattle.mission_items.specs.Names.{range_of};

use int_interval::Interval;
use log_spelling::Part;
use mission_items::Decl;

/// What a name is declared as, and the part of it that is meant.
#[derive(Clone, Copy)]
pub struct Meant {
    pub declared: Decl,
    pub part: Part,
}

/// The declared range of what a name and a part stand for.
pub fn range_of(declared: &Decl, part: Part) -> Interval
    ensures { result ≡ range_of declared.now part }
{
    match declared {
        Decl::Signal { range, .. } => *range,
        Decl::Variable { range, .. } => *range,
        Decl::Beacon { x, y, .. } => match part {
            Part::Y => *y,
            _ => *x,
        },
    }
}
