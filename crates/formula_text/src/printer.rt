//! The text of a formula.

ghost use Rattle.std.specs.Prelude.{◌≡◌, IfOk};
ghost use Rattle.expr_text.specs.Canonical.{relation_text};

use crate::formula::Formula;
use expr_text::print;
use std::alloc::Global;
use tube_io::NoMemory;

/// The canonical text of a formula.
pub fn print_formula(alloc: Global, formula: &Formula) -> Result<Vec<u8>, NoMemory>
    ensures { IfOk result (λ text. text.items ≡ relation_text formula.now) }
{
    print(alloc, formula.relation())
}
