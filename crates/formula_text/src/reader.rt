//! Reading a text as a formula.

ghost use Rattle.std.specs.Prelude.{◌≡◌, ◌<◌, ◌^◌, length, IfErr, IfOk};
ghost use Rattle.formula_text.specs.Answers.{IsRefusal};
ghost use Rattle.formula_text.specs.Readings.{reading_of};

use crate::formula::Formula;
use expr_text::{ExprFault, parse};
use std::alloc::Global;

/// The formula that a text is: what `reading_of` says of it, unless memory is refused.
pub fn read_formula(alloc: Global, text: &[u8]) -> Result<Formula, ExprFault>
    requires { length text.now < 2 ^ 32 }
    ensures read { IfOk result (λ formula. reading_of text.now ≡ Ok formula) }
    ensures refused { IfErr result (IsRefusal text.now) }
{
    let rel = parse(alloc, text)?;
    Ok(Formula::new(rel))
}
