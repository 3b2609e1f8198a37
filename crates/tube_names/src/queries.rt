//! Which pairs of ticks are asked for, and when two places are near.

ghost use Rattle.std.specs.Prelude.{◌≡◌, ◌≤◌};
ghost use Rattle.tube_names.specs.Nearness.{is_near};

use tube_store::SignalId;

/// How the distance of two places is measured.
#[derive(Clone, Copy, Debug, PartialEq, Eq)]
pub enum Norm {
    /// By the greater of the distances in x and in y.
    Maximum,
    /// By the Euclidean distance.
    Disc,
}

/// Which pairs of ticks are asked for: those at which the places `(x, y)` are at most `radius` millimetres apart, and between which
/// at least `gap` ticks lie.
#[derive(Clone, Copy, Debug, PartialEq, Eq)]
pub struct Query {
    pub x: SignalId,
    pub y: SignalId,
    pub radius: i64,
    pub gap: u32,
    pub norm: Norm,
}

/// Whether two places are near whose distances in x and in y are these, in millimetres.
pub fn is_near(norm: Norm, radius: u32, dx: u64, dy: u64) -> bool
    requires dx { dx ≤ 3000000000 }
    requires dy { dy ≤ 3000000000 }
    ensures { result ≡ is_near norm radius dx dy }
{
    let radius = u64::from(radius);
    match norm {
        Norm::Maximum => dx <= radius && dy <= radius,
        Norm::Disc => dx * dx + dy * dy <= radius * radius,
    }
}
