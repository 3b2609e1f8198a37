//! The contractors of formulas.

ghost use Rattle.std.specs.Prelude.{◌≡◌, ◌+◌, ◌-◌, ◌<◌, ◌≤◌, [], ◌∷◌, ◌++◌, IfOk, OnOk, length};
ghost use Rattle.expr_tree.specs.Measures.{relation_nodes};
ghost use Rattle.expr_values.specs.Expressions.{comparison_of, relation_leaves};
ghost use Rattle.expr_hc4.specs.Programs.{bound_comparison};
ghost use Rattle.ctc_deriv.specs.Bounds.{each_below};
ghost use Rattle.any_ctc.specs.Constraints.{ExprOf};
ghost use Rattle.mission_net.specs.Records.{formula_at, formula_constraints};
ghost use Rattle.mission_net.specs.Building.{CanAdd, IsAdded};

use crate::AnyCtc;
use crate::adding::add_contractor;
use ctc_network::Net;
use expr_hc4::{ExprCtc, Flat, Place};
use formula_text::Formula;
use mission_items::Leaves;
use std::alloc::Global;
use std::rc::Rc;
use tube_io::NoMemory;

/// Binds a formula, once for all its places.
fn bound(alloc: Global, formula: &Formula, leaves: &Leaves) -> Result<Rc<Flat>, NoMemory>
    requires few { relation_nodes formula.now ≤ 256 }
    requires each { length leaves.now ≡ relation_leaves formula.now }
    ensures comparison { IfOk result (λ flat. bound_comparison flat.value ≡ comparison_of formula.now) }
    ensures leaves { IfOk result (λ flat. flat.value.leaves ≡ leaves.now) }
{
    let flat = Flat::new(alloc, formula.relation(), leaves.as_slice())?;
    Ok(Rc::new(alloc, flat)?)
}

/// Adds a bound formula at a place.
fn add_at(net: &mut Net<AnyCtc>, flat: &Rc<Flat>, place: Place) -> Result<(), NoMemory>
    requires { CanAdd (ExprOf place flat.now.value.leaves (bound_comparison flat.now.value) ∷ []) net.old }
    ensures { OnOk result (IsAdded [] (ExprOf place flat.now.value.leaves (bound_comparison flat.now.value) ∷ []) net.old net.new) }
{
    let flat = flat.clone()?;
    add_contractor(net, AnyCtc::Expr(ExprCtc::new(flat, place)))
}

/// Adds a formula that holds once.
pub(crate) fn add_single(
    net: &mut Net<AnyCtc>,
    alloc: Global,
    formula: &Formula,
    leaves: &Leaves,
) -> Result<(), NoMemory>
    requires few { relation_nodes formula.now ≤ 256 }
    requires each { length leaves.now ≡ relation_leaves formula.now }
    requires room { CanAdd (ExprOf Place.Once leaves.now (comparison_of formula.now) ∷ []) net.old }
    ensures { OnOk result (IsAdded [] (ExprOf Place.Once leaves.now (comparison_of formula.now) ∷ []) net.old net.new) }
{
    let flat = bound(alloc, formula, leaves)?;
    add_at(net, &flat, Place::Once)
}

/// Adds a bound formula at the gate and over the envelope of a slice.
fn add_slice(net: &mut Net<AnyCtc>, flat: &Rc<Flat>, slice: u32) -> Result<(), NoMemory>
    requires { CanAdd (formula_at flat.now.value.leaves (bound_comparison flat.now.value) slice) net.old }
    ensures { OnOk result (IsAdded [] (formula_at flat.now.value.leaves (bound_comparison flat.now.value) slice) net.old net.new) }
{
    add_at(net, flat, Place::Gate(slice))?;
    add_at(net, flat, Place::Envelope(slice))
}

/// Adds a bound formula at each gate and envelope, in the order of the cells.
fn add_everywhere(net: &mut Net<AnyCtc>, flat: &Rc<Flat>, slices: u32) -> Result<(), NoMemory>
    requires slices { slices + 1 ≡ length net.old.store.shape.grid }
    requires room { CanAdd (formula_constraints net.old.store.shape.grid flat.now.value.leaves (bound_comparison flat.now.value)) net.old }
    ensures { OnOk result (IsAdded [] (formula_constraints net.old.store.shape.grid flat.now.value.leaves (bound_comparison flat.now.value)) net.old net.new) }
{
    for slice in 0..slices {
        add_slice(net, flat, slice)?;
    }
    add_at(net, flat, Place::Gate(slices))
}

/// Adds a formula that holds at every tick.
pub(crate) fn add_each(
    net: &mut Net<AnyCtc>,
    alloc: Global,
    formula: &Formula,
    leaves: &Leaves,
    slices: u32,
) -> Result<(), NoMemory>
    requires few { relation_nodes formula.now ≤ 256 }
    requires each { length leaves.now ≡ relation_leaves formula.now }
    requires slices { slices + 1 ≡ length net.old.store.shape.grid }
    requires room { CanAdd (formula_constraints net.old.store.shape.grid leaves.now (comparison_of formula.now)) net.old }
    ensures { OnOk result (IsAdded [] (formula_constraints net.old.store.shape.grid leaves.now (comparison_of formula.now)) net.old net.new) }
{
    let flat = bound(alloc, formula, leaves)?;
    add_everywhere(net, &flat, slices)
}
