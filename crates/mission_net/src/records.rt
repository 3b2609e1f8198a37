//! Records, one after another.

ghost use Rattle.std.specs.Prelude.{◌≡◌, ◌+◌, ◌<◌, ◌≤◌, [], ◌∷◌, ◌++◌, OnOk, All, drop, length, map};
ghost use Rattle.tube_spec.specs.Limits.{greatest_bound, most_cells, most_variables};
ghost use Rattle.tube_spec.specs.Span.{IsBounded};
ghost use Rattle.tube_spec.specs.Owner.{SignalIn, VariableIn, with_owners};
ghost use Rattle.mission_items.specs.Made.{signals_in, variables_in};
ghost use Rattle.mission_net.specs.Records.{made, contracts_of};
ghost use Rattle.mission_net.specs.Tables.{IsTableOf};
ghost use Rattle.mission_net.specs.Building.{CanAdd, CanBuild, HasBeacon, IsAdded, IsBeside, IsBindable, IsTimed};

use crate::AnyCtc;
use crate::adding::{add_contractor, add_signals, add_variables};
use crate::formulas::{add_each, add_single};
use crate::made::Made;
use crate::motion::{add_delay, add_evaluation, add_rates, add_slices};
use crate::points::{add_constellation, add_distance, add_far_distance, add_place, add_ring};
use ctc_deriv::BoundCtc;
use ctc_network::Net;
use mission_items::Item;
use tube_io::NoMemory;
use tube_store::{SignalId, VarId};

/// Adds the contractors of a record, whose cells are there, after the records before it, which made so many signals and variables.
fn add_contractors(
    net: &mut Net<AnyCtc>,
    table: &Made,
    before: &[Item],
    item: &Item,
    signals: u32,
    variables: u32,
) -> Result<(), NoMemory>
    requires table { IsTableOf table.now (before.now ++ item.now ∷ []) }
    requires beside { IsBeside table.now net.old }
    requires signals { signals ≡ signals_in before.now }
    requires variables { variables ≡ variables_in before.now }
    requires few { variables ≤ most_variables }
    requires bindable { IsBindable item.now }
    requires beacon { HasBeacon before.now item.now }
    requires evaluated { IsTimed before.now item.now }
    requires room { CanAdd (contracts_of net.old.store.shape.grid before.now item.now) net.old }
    ensures { OnOk result (IsAdded [] (contracts_of net.old.store.shape.grid before.now item.now) net.old net.new) }
{
    let slices = net.store().slices();
    let alloc = table.alloc();
    match item {
        Item::Signal { .. } => add_slices(net, SignalId(signals)),
        Item::Deriv { x, rate } => add_rates(net, *x, *rate),
        Item::Bound {
            x,
            first,
            last,
            range,
        } => add_contractor(net, AnyCtc::Bound(BoundCtc::new(*x, *first, *last, *range))),
        Item::At { x, .. } => add_evaluation(
            net,
            table,
            *x,
            VarId(variables),
            VarId(variables + 1),
        ),
        Item::Eval { x, t, z } => add_evaluation(net, table, *x, *t, *z),
        Item::Delay { x, y, tau } => add_delay(net, *x, *y, *tau),
        Item::Dist2 { near, far, p, b } => add_distance(net, *p, *b, *near, *far),
        Item::Dist3 { near, far, p, b } => add_far_distance(net, *p, *b, *near, *far),
        Item::Constell { p } => add_constellation(net, table, *p),
        Item::Ping {
            x,
            y,
            beacon,
            near,
            far,
            ..
        } => {
            add_place(net, table, *x, *y, variables)?;
            add_ring(net, table, variables, *beacon, *near, *far)
        }
        Item::Each { formula, leaves } => add_each(net, alloc, formula, leaves, slices),
        Item::Single { formula, leaves } => add_single(net, alloc, formula, leaves),
        _ => Ok(()),
    }
}

/// Adds the cells of the signals and variables that the table has from these numbers on.
fn add_cells(
    net: &mut Net<AnyCtc>,
    table: &Made,
    signals: u32,
    variables: u32,
) -> Result<(), NoMemory>
    requires signals { signals ≤ length table.now.signals }
    requires variables { variables ≤ length table.now.variables }
    requires ranges { All (IsBounded greatest_bound) (drop signals table.now.signals) × All (IsBounded greatest_bound) (drop variables table.now.variables) }
    requires room { (with_owners net.old.store.shape (map SignalIn (drop signals table.now.signals) ++ map VariableIn (drop variables table.now.variables))).cells ≤ most_cells }
    ensures { OnOk result (IsAdded (map SignalIn (drop signals table.now.signals) ++ map VariableIn (drop variables table.now.variables)) [] net.old net.new) }
{
    add_signals(net, table.signals_from(signals as usize))?;
    add_variables(net, table.variables_from(variables as usize))
}

/// Adds the cells and the contractors of a record, after the records before it, and takes it into the table.
pub(crate) fn add_item(
    net: &mut Net<AnyCtc>,
    table: &mut Made,
    before: &[Item],
    item: &Item,
) -> Result<(), NoMemory>
    requires table { IsTableOf table.old before.now }
    requires next { CanBuild before.now item.now net.old }
    ensures table { OnOk result (IsTableOf table.new (before.now ++ item.now ∷ [])) }
    ensures added { OnOk result (IsAdded (made before.now item.now) (contracts_of net.old.store.shape.grid before.now item.now) net.old net.new) }
{
    let signals = table.signals() as u32;
    let variables = table.variables() as u32;
    table.add(before, item)?;
    add_cells(net, table, signals, variables)?;
    add_contractors(net, table, before, item, signals, variables)
}
