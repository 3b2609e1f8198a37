//! What is true of every course, whatever its words are.

ghost use Rattle.std.specs.Prelude.{ℕ, List};
ghost use Rattle.demo_course.specs.Laws.{AreDistances, IsBoundedCourse, IsMoved, RootsAreGreatest};

/// A number's square is at most `n` exactly where the number is at most the whole root of `n`.
pub fn roots_are_greatest()
    ensures { RootsAreGreatest }
{}

/// Rates are at most 20 in absolute value, positions at most 20 a tick, coordinates of beacons at most 20,000, and distances at most 100,000.
pub fn courses_are_bounded()
    ensures { (words : List ℕ) → IsBoundedCourse words }
{}

/// A course begins at 0, and its position changes from each tick to the next by the rate.
pub fn courses_are_moved()
    ensures { (words : List ℕ) → IsMoved words }
{}

/// The square of a distance lies between those of its whole part and of the next number.
pub fn distances_are_whole()
    ensures { (words : List ℕ) → AreDistances words }
{}
