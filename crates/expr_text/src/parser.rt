//! Reading a text as a relation.

ghost use Rattle.std.specs.Prelude.{◌<◌, ◌^◌, ℕ, length};
ghost use Rattle.expr_text.specs.Answers.{Answers, ReadsAs, Refuses};
ghost use Rattle.expr_text.specs.Grammar.{RelationPhrase};
ghost use Rattle.expr_text.specs.Reading.{FaultAt, IsWithinLimits, PassesALimit, Spells};

use crate::build::relation;
use crate::depth::is_within_depth;
use crate::fault::ExprFault;
use crate::scan::scan_text;
use expr_tree::Rel;
use std::alloc::Global;

fn read(alloc: Global, text: &[u8]) -> Result<Rel, ExprFault>
    requires { length text.now < 2 ^ 32 }
    ensures { Answers text.now result }
{
    let scan = scan_text(alloc, text)?;
    if !scan.is_within_limits() {
        return Err(ExprFault::Deep);
    }
    // Six calls for each token are enough for any relation.
    let Some(rel) = relation(alloc, 6 * scan.tokens.len(), scan.tokens.as_slice())? else {
        return Err(ExprFault::Deep);
    };
    if !is_within_depth(&rel) {
        return Err(ExprFault::Deep);
    }
    Ok(rel)
}

/// The relation that a text is.
pub fn parse(alloc: Global, text: &[u8]) -> Result<Rel, ExprFault>
    requires { length text.now < 2 ^ 32 }
    // What is read is the text's relation, each fault is the text's.
    ensures answers { Answers text.now result }
    // A relation within the limits is read, unless memory is refused.
    ensures read { (phrase : RelationPhrase) → Spells text.now phrase → IsWithinLimits phrase → ReadsAs result phrase }
    // One past a limit is refused as such.
    ensures deep { (phrase : RelationPhrase) → Spells text.now phrase → PassesALimit phrase → Refuses result ExprFault.Deep }
    // A text that is none is refused at its first fault.
    ensures refused { (place : ℕ) → FaultAt text.now place → Refuses result (ExprFault.Text place) }
{
    read(alloc, text)
}
