//! The contractors of points: distances, constellations and pings.

ghost use Rattle.std.specs.Prelude.{◌≡◌, ◌+◌, ◌<◌, ◌≤◌, [], ◌∷◌, ◌++◌, OnOk, length};
ghost use Rattle.std.specs.Option.{ForSome};
ghost use Rattle.tube_names.specs.Points.{numbers};
ghost use Rattle.any_ctc.specs.Constraints.{DistOf, ConstellOf};
ghost use Rattle.mission_net.specs.Records.{point_at};
ghost use Rattle.mission_net.specs.Tables.{evaluation_by, mark_by, target_by};
ghost use Rattle.mission_net.specs.Building.{CanAdd, IsAdded, IsBeside};

use crate::AnyCtc;
use crate::adding::add_contractor;
use crate::made::{Made, point};
use crate::motion::add_evaluation;
use ctc_constell::ConstellCtc;
use ctc_dist::DistCtc;
use ctc_network::Net;
use tube_io::NoMemory;
use tube_store::{SignalId, VarId};

/// Adds the distance of two points of the plane.
pub(crate) fn add_distance(
    net: &mut Net<AnyCtc>,
    p: [VarId; 2],
    b: [VarId; 2],
    near: i64,
    far: i64,
) -> Result<(), NoMemory>
    requires { CanAdd (DistOf (numbers p) (numbers b) near far ∷ []) net.old }
    ensures { OnOk result (IsAdded [] (DistOf (numbers p) (numbers b) near far ∷ []) net.old net.new) }
{
    add_contractor(net, AnyCtc::Dist2(DistCtc::new(p, b, near, far)))
}

/// Adds the distance of two points of space.
pub(crate) fn add_far_distance(
    net: &mut Net<AnyCtc>,
    p: [VarId; 3],
    b: [VarId; 3],
    near: i64,
    far: i64,
) -> Result<(), NoMemory>
    requires { CanAdd (DistOf (numbers p) (numbers b) near far ∷ []) net.old }
    ensures { OnOk result (IsAdded [] (DistOf (numbers p) (numbers b) near far ∷ []) net.old net.new) }
{
    add_contractor(net, AnyCtc::Dist3(DistCtc::new(p, b, near, far)))
}

/// Adds that a point is where one of the beacons so far is.
pub(crate) fn add_constellation(
    net: &mut Net<AnyCtc>,
    made: &Made,
    p: [VarId; 2],
) -> Result<(), NoMemory>
    requires { CanAdd (ConstellOf (numbers p) made.now.marks ∷ []) net.old }
    ensures { OnOk result (IsAdded [] (ConstellOf (numbers p) made.now.marks ∷ []) net.old net.new) }
{
    let marks = made.beacons()?;
    add_contractor(net, AnyCtc::Constell(ConstellCtc::new(p, marks)))
}

/// Adds the evaluations of both coordinates of a ping, at one time. The ping's variables begin with the number `first`.
pub(crate) fn add_place(
    net: &mut Net<AnyCtc>,
    made: &Made,
    x: SignalId,
    y: SignalId,
    first: u32,
) -> Result<(), NoMemory>
    requires beside { IsBeside made.now net.old }
    requires few { first + 2 < 4294967296 }
    requires room { CanAdd (evaluation_by made.now x.0 first (first + 1) ∷ evaluation_by made.now y.0 first (first + 2) ∷ []) net.old }
    ensures { OnOk result (IsAdded [] (evaluation_by made.now x.0 first (first + 1) ∷ evaluation_by made.now y.0 first (first + 2) ∷ []) net.old net.new) }
{
    let time = VarId(first);
    add_evaluation(net, made, x, time, VarId(first + 1))?;
    add_evaluation(net, made, y, time, VarId(first + 2))
}

/// Adds the distance that a ping measured, from its point to a beacon or to the mark that it makes, and that the mark is a beacon.
pub(crate) fn add_ring(
    net: &mut Net<AnyCtc>,
    made: &Made,
    first: u32,
    beacon: Option<u32>,
    near: i64,
    far: i64,
) -> Result<(), NoMemory>
    requires few { first + 4 < 4294967296 }
    requires beacon { ForSome beacon (λ b. b < length made.now.marks) }
    requires room { CanAdd (DistOf (point_at (first + 1)) (target_by made.now (first + 3) beacon) near far ∷ mark_by made.now (first + 3) beacon) net.old }
    ensures { OnOk result (IsAdded [] (DistOf (point_at (first + 1)) (target_by made.now (first + 3) beacon) near far ∷ mark_by made.now (first + 3) beacon) net.old net.new) }
{
    let place = point(first + 1);
    match beacon {
        Some(b) => add_distance(net, place, made.beacon(b), near, far),
        None => {
            let mark = point(first + 3);
            add_distance(net, place, mark, near, far)?;
            add_constellation(net, made, mark)
        }
    }
}
