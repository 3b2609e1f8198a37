//! The contractors of signals: slices, rates, evaluations and delays.

ghost use Rattle.std.specs.Prelude.{◌≡◌, ◌+◌, ◌<◌, ◌≤◌, [], ◌∷◌, ◌++◌, OnOk, length};
ghost use Rattle.any_ctc.specs.Constraints.{SlicesOf, DerivsOf, DelayToOf, DelayFromOf, DelayShiftOf};
ghost use Rattle.mission_net.specs.Tables.{evaluation_by};
ghost use Rattle.mission_net.specs.Building.{CanAdd, IsAdded, IsBeside};

use crate::AnyCtc;
use crate::adding::add_contractor;
use crate::made::Made;
use ctc_delay::{DelayFrom, DelayShift, DelayTo};
use ctc_eval::EvalCtc;
use ctc_network::Net;
use ctc_sweeps::{DerivSweep, SliceSweep};
use tube_io::NoMemory;
use tube_store::{SignalId, VarId};

/// Adds the contractor of all slices of a signal.
pub(crate) fn add_slices(net: &mut Net<AnyCtc>, signal: SignalId) -> Result<(), NoMemory>
    requires { CanAdd (SlicesOf signal.0 ∷ []) net.old }
    ensures { OnOk result (IsAdded [] (SlicesOf signal.0 ∷ []) net.old net.new) }
{
    add_contractor(net, AnyCtc::Slices(SliceSweep::new(signal)))
}

/// Adds the contractor of a signal and its rate over all slices.
pub(crate) fn add_rates(net: &mut Net<AnyCtc>, x: SignalId, rate: SignalId) -> Result<(), NoMemory>
    requires { CanAdd (DerivsOf x.0 rate.0 ∷ []) net.old }
    ensures { OnOk result (IsAdded [] (DerivsOf x.0 rate.0 ∷ []) net.old net.new) }
{
    add_contractor(net, AnyCtc::Derivs(DerivSweep::new(x, rate)))
}

/// Adds the evaluation of a signal at a time, with the rate that the signal has so far.
pub(crate) fn add_evaluation(
    net: &mut Net<AnyCtc>,
    made: &Made,
    x: SignalId,
    t: VarId,
    z: VarId,
) -> Result<(), NoMemory>
    requires beside { IsBeside made.now net.old }
    requires room { CanAdd (evaluation_by made.now x.0 t.0 z.0 ∷ []) net.old }
    ensures { OnOk result (IsAdded [] (evaluation_by made.now x.0 t.0 z.0 ∷ []) net.old net.new) }
{
    let rate = made.rate(x);
    let declared = made.range(t);
    add_contractor(net, AnyCtc::Eval(EvalCtc::new(x, rate, t, z, declared)))
}

/// Adds the three contractors of a signal and a later one.
pub(crate) fn add_delay(
    net: &mut Net<AnyCtc>,
    x: SignalId,
    y: SignalId,
    tau: VarId,
) -> Result<(), NoMemory>
    requires { CanAdd (DelayToOf x.0 y.0 tau.0 ∷ DelayFromOf x.0 y.0 tau.0 ∷ DelayShiftOf x.0 y.0 tau.0 ∷ []) net.old }
    ensures { OnOk result (IsAdded [] (DelayToOf x.0 y.0 tau.0 ∷ DelayFromOf x.0 y.0 tau.0 ∷ DelayShiftOf x.0 y.0 tau.0 ∷ []) net.old net.new) }
{
    add_contractor(net, AnyCtc::DelayTo(DelayTo::new(x, y, tau)))?;
    add_contractor(net, AnyCtc::DelayFrom(DelayFrom::new(x, y, tau)))?;
    add_contractor(net, AnyCtc::DelayShift(DelayShift::new(x, y, tau)))
}
