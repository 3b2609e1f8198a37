//! The labels of corners.

ghost use Rattle.std.specs.Prelude.{◌≡◌, ◌↔◌, IsTrue, map};
ghost use Rattle.loop_degree.specs.Pairs.{IsRising};
ghost use Rattle.loop_degree.specs.Labels.{label_at};
ghost use Rattle.loop_degree.specs.Boundary.{corner_of, turn, IsSmall};

/// In which direction a trajectory has surely gone away between the ticks of a pair, by the bound of a step or further: the first signal
/// has risen (`East`) or fallen (`West`), or the second one has risen (`North`) or fallen (`South`).
#[derive(Clone, Copy, Debug, PartialEq, Eq)]
pub enum Label {
    East,
    West,
    North,
    South,
}

/// Whether the labelled corners rise strictly.
pub fn corners_rise(labels: &[(u32, u32, Label)]) -> bool
    ensures { IsTrue result ↔ IsRising (map corner_of labels.now) }
{
    labels.is_sorted_by(|l, m| (l.0, l.1) < (m.0, m.1))
}

/// The label of a corner, by a binary search.
pub fn label_at(labels: &[(u32, u32, Label)], corner: (u32, u32)) -> Option<Label>
    requires { IsRising (map corner_of labels.now) }
    ensures { result ≡ label_at labels.now corner }
{
    match labels.binary_search_by_key(&corner, |l| (l.0, l.1)) {
        Ok(place) => Some(labels[place].2),
        Err(_) => None,
    }
}

/// What an edge adds to the degree.
pub fn turn(from: Label, to: Label) -> i64
    ensures value { result ≡ turn from to }
    ensures small { IsSmall 1 result }
{
    match (from, to) {
        (Label::North, Label::West) => 1,
        (Label::West, Label::North) => -1,
        _ => 0,
    }
}
