//! Cells and contractors, one and several.

ghost use Rattle.std.specs.Prelude.{◌≡◌, ◌+◌, ◌<◌, ◌≤◌, [], ◌∷◌, ◌++◌, OnOk, All, drop, length, map};
ghost use Rattle.tube_spec.specs.Limits.{greatest_bound, most_cells};
ghost use Rattle.tube_spec.specs.Span.{IsBounded};
ghost use Rattle.tube_spec.specs.Owner.{SignalIn, VariableIn, with_owners};
ghost use Rattle.any_ctc.specs.Contractors.{constraint_of};
ghost use Rattle.mission_net.specs.Building.{CanAdd, IsAdded};

use crate::AnyCtc;
use ctc_network::{AddFault, Net};
use int_interval::Interval;
use tube_io::NoMemory;
use tube_store::StoreFault;

/// Adds the cells of a signal at its declared range.
fn add_signal(net: &mut Net<AnyCtc>, range: Interval) -> Result<(), NoMemory>
    requires range { IsBounded greatest_bound range }
    requires room { (with_owners net.old.store.shape (SignalIn range ∷ [])).cells ≤ most_cells }
    ensures added { OnOk result (IsAdded (SignalIn range ∷ []) [] net.old net.new) }
{
    match net.add_signal(range) {
        Ok(_) => Ok(()),
        Err(StoreFault::NoMemory) => Err(NoMemory),
        Err(StoreFault::CellsFull) => unreachable!(),
    }
}

/// Adds the cell of a variable at its declared range.
fn add_variable(net: &mut Net<AnyCtc>, range: Interval) -> Result<(), NoMemory>
    requires range { IsBounded greatest_bound range }
    requires room { (with_owners net.old.store.shape (VariableIn range ∷ [])).cells ≤ most_cells }
    ensures added { OnOk result (IsAdded (VariableIn range ∷ []) [] net.old net.new) }
{
    match net.add_var(range) {
        Ok(_) => Ok(()),
        Err(StoreFault::NoMemory) => Err(NoMemory),
        Err(StoreFault::CellsFull) => unreachable!(),
    }
}

/// Adds the cells of signals with these declared ranges.
pub(crate) fn add_signals(net: &mut Net<AnyCtc>, ranges: &[Interval]) -> Result<(), NoMemory>
    requires ranges { All (IsBounded greatest_bound) ranges.now }
    requires room { (with_owners net.old.store.shape (map SignalIn ranges.now)).cells ≤ most_cells }
    ensures added { OnOk result (IsAdded (map SignalIn ranges.now) [] net.old net.new) }
{
    for range in ranges {
        add_signal(net, *range)?;
    }
    Ok(())
}

/// Adds the cells of variables with these declared ranges.
pub(crate) fn add_variables(net: &mut Net<AnyCtc>, ranges: &[Interval]) -> Result<(), NoMemory>
    requires ranges { All (IsBounded greatest_bound) ranges.now }
    requires room { (with_owners net.old.store.shape (map VariableIn ranges.now)).cells ≤ most_cells }
    ensures added { OnOk result (IsAdded (map VariableIn ranges.now) [] net.old net.new) }
{
    for range in ranges {
        add_variable(net, *range)?;
    }
    Ok(())
}

/// Adds a contractor.
pub(crate) fn add_contractor(net: &mut Net<AnyCtc>, ctc: AnyCtc) -> Result<(), NoMemory>
    requires { CanAdd (constraint_of ctc ∷ []) net.old }
    ensures added { OnOk result (IsAdded [] (constraint_of ctc ∷ []) net.old net.new) }
{
    match net.add(ctc) {
        Ok(_) => Ok(()),
        Err(AddFault::NoMemory) => Err(NoMemory),
        Err(AddFault::FootFull) => unreachable!(),
    }
}
