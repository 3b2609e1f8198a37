//! Degrees of labelled boundaries.

ghost use Rattle.std.specs.Prelude.{◌<◌, ◌↔◌, All, IsTrue};

use loop_degree::Label::{self, East, North, South, West};
use loop_degree::check_cells;

// Whether all numbers of the cells are small enough.
fn are_small(cells: &[(u32, u32)]) -> bool
    ensures { IsTrue result ↔ All (λ c. (c.0 < 100000) × (c.1 < 100000)) cells.now }
{
    cells.iter().all(|c| c.0 < 100_000 && c.1 < 100_000)
}

// The corners of a ring of eight cells round a hole. The outer ones turn once, against the order of the sides; those of the hole, by rising
// pairs, are given.
fn ring(hole: [Label; 4]) -> [(u32, u32, Label); 16] {
    [
        (10, 20, East),
        (10, 21, East),
        (10, 22, East),
        (10, 23, East),
        (11, 20, South),
        (11, 21, hole[0]),
        (11, 22, hole[1]),
        (11, 23, North),
        (12, 20, South),
        (12, 21, hole[2]),
        (12, 22, hole[3]),
        (12, 23, North),
        (13, 20, West),
        (13, 21, West),
        (13, 22, West),
        (13, 23, West),
    ]
}

// A turn and its mirror image, a label less, corners out of order; two cells at the edge of the plane, and a cell twice; and a ring whose
// hole is not run round, is run round the other way, and once more.
#[test]
fn degrees(rt: HostRuntime) {
    let eight = [
        (10, 20),
        (10, 21),
        (10, 22),
        (11, 20),
        (11, 22),
        (12, 20),
        (12, 21),
        (12, 22),
    ];
    let one = [(0, 10)];
    let turn = [(0, 10, North), (0, 11, East), (1, 10, West), (1, 11, South)];
    let back = [(0, 10, West), (0, 11, South), (1, 10, North), (1, 11, East)];
    let edge = [
        (0, 5, North),
        (0, 6, North),
        (0, 7, East),
        (1, 5, West),
        (1, 6, South),
        (1, 7, South),
    ];
    for (cells, labels, degree) in [
        (one.as_slice(), turn.as_slice(), Some(1)),
        (one.as_slice(), back.as_slice(), Some(-1)),
        (one.as_slice(), &turn[..3], None),
        (&[(0, 5), (0, 6)], edge.as_slice(), Some(1)),
        (&[(0, 5), (0, 5), (0, 6)], edge.as_slice(), None),
        (eight.as_slice(), ring([East; 4]).as_slice(), Some(-1)),
        (
            eight.as_slice(),
            ring([South, East, West, North]).as_slice(),
            Some(0),
        ),
        (
            eight.as_slice(),
            ring([North, East, West, South]).as_slice(),
            Some(-2),
        ),
    ] {
        assert!(rt; are_small(cells));
        assert_eq!(rt; check_cells(cells, labels), degree);
    }
}
