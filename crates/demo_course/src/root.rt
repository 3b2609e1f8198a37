//! Whole square roots.

ghost use Rattle.std.specs.Prelude.{◌≡◌};
ghost use Rattle.demo_course.specs.Roots.{whole_root};

/// The whole part of the square root.
pub fn whole_root(n: u64) -> u64
    ensures { result ≡ whole_root n }
{
    n.isqrt()
}
