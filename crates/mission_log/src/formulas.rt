//! The records of formulas.

ghost use Rattle.std.specs.Prelude.{◌≡◌, ◌+◌, ◌++◌, ◌≤◌, true, Ok, ℕ, [], ◌∷◌, All, IfOk, OnOk, length, map};
ghost use Rattle.std.specs.List.{list_all};
ghost use Rattle.csv.specs.Records.{fields_of};
ghost use Rattle.expr_tree.specs.Measures.{names};
ghost use Rattle.expr_tree.specs.Trees.{tree_of};
ghost use Rattle.expr_text.specs.Spellable.{IsPrintable};
ghost use Rattle.expr_values.specs.Expressions.{leaves};
ghost use Rattle.log_fields.specs.Steps.{Gives, unless};
ghost use Rattle.mission_items.specs.Made.{has_head};
ghost use Rattle.mission_items.specs.Room.{names_used};
ghost use Rattle.mission_items.specs.Valid.{IsFormula, is_variable};
ghost use Rattle.mission_log.specs.Found.{appended, declarations_in, declared_part, each, formula_in, has_values, have_values, leaf_in, leaves_for, reference_in, references_of};
ghost use Rattle.log_draft.specs.Kept.{IsKnown};
ghost use Rattle.mission_log.specs.Meant.{IsMeant, meant, range_meant};
ghost use Rattle.mission_log.specs.Log.{each_step, single_step};

use crate::meant::{Meant, range_of};
use csv::ByteRecord;
use expr_text::ExprFault;
use expr_tree::Term;
use formula_text::laws::printing_law;
use formula_text::{Formula, read_formula};
use int_interval::Interval;
use log_draft::Draft;
use log_fields::fields::ensure;
use log_fields::texts::text_fields;
use log_fields::{Cause, Stop};
use log_spelling::{Part, bare_name, part_of};
use mission_items::{Decl, Item, Leaves};
use std::alloc::Global;
use tube_io::NoMemory;
use tube_names::{Leaf, first_uses};

// The formula that a text is.
fn formula_in(alloc: Global, text: &[u8]) -> Result<Formula, Stop>
    ensures value { Gives (λ formula. formula) result (formula_in text.now) }
    ensures printable { IfOk result IsPrintable }
    ensures few { IfOk result (λ formula. leaves formula.left + leaves formula.right ≤ 256) }
{
    // A log is far shorter than this, and so is each of its fields.
    if text.len() > 1_000_000_000 {
        return Err(Stop::Memory);
    }
    printing_law();
    match read_formula(alloc, text) {
        Ok(formula) => Ok(formula),
        Err(ExprFault::Text(_)) => Err(Stop::Because(Cause::Text)),
        Err(ExprFault::Deep) => Err(Stop::Because(Cause::Deep)),
        Err(ExprFault::NoMemory) => Err(Stop::Memory),
    }
}

// Adds what the names of a term are declared as.
#[cycle(names)]
fn declare_names(
    draft: &Draft,
    alloc: Global,
    term: &Term,
    found: &mut Vec<Meant>,
) -> Result<(), Stop>
    requires { All (IsMeant draft.now.items) found.old.items }
    ensures value { Gives (λ _. map meant found.new.items) result (appended (map meant found.old.items) (each (declared_part draft.now.items) (map reference_in (names (tree_of term.now))))) }
    ensures known { IfOk result (λ _. All (IsMeant draft.now.items) found.new.items) }
    ensures len { IfOk result (λ _. length found.new.items ≡ length found.old.items + leaves (tree_of term.now)) }
{
    match term {
        Term::Num(_) => Ok(()),
        Term::Name(text) => declare_name(draft, text.bytes(), found),
        Term::Neg(a) => declare_names(draft, alloc, a, found),
        Term::Sqr(a) => declare_names(draft, alloc, a, found),
        Term::Abs(a) => declare_names(draft, alloc, a, found),
        Term::Add(a, b) => declare_both(draft, alloc, a, b, found),
        Term::Sub(a, b) => declare_both(draft, alloc, a, b, found),
        Term::Mul(a, b) => declare_both(draft, alloc, a, b, found),
        Term::Min(a, b) => declare_both(draft, alloc, a, b, found),
        Term::Max(a, b) => declare_both(draft, alloc, a, b, found),
    }
}

// The same of two terms.
#[cycle(names)]
fn declare_both(
    draft: &Draft,
    alloc: Global,
    a: &Term,
    b: &Term,
    found: &mut Vec<Meant>,
) -> Result<(), Stop>
    requires { All (IsMeant draft.now.items) found.old.items }
    ensures value { Gives (λ _. map meant found.new.items) result (appended (map meant found.old.items) (each (declared_part draft.now.items) (map reference_in (names (tree_of a.now) ++ names (tree_of b.now))))) }
    ensures known { IfOk result (λ _. All (IsMeant draft.now.items) found.new.items) }
    ensures len { IfOk result (λ _. length found.new.items ≡ length found.old.items + (leaves (tree_of a.now) + leaves (tree_of b.now))) }
{
    match declare_names(draft, alloc, a, found) {
        Ok(()) => {}
        Err(stop) => return Err(stop),
    }
    match declare_names(draft, alloc, b, found) {
        Ok(()) => Ok(()),
        Err(stop) => Err(stop),
    }
}

// The same of one name.
fn declare_name(draft: &Draft, name: &[u8], found: &mut Vec<Meant>) -> Result<(), Stop>
    requires { All (IsMeant draft.now.items) found.old.items }
    ensures value { Gives (λ _. map meant found.new.items) result (appended (map meant found.old.items) (each (declared_part draft.now.items) (reference_in name.now ∷ []))) }
    ensures known { IfOk result (λ _. All (IsMeant draft.now.items) found.new.items) }
    ensures len { IfOk result (λ _. length found.new.items ≡ length found.old.items + 1) }
{
    let declared = draft.declaration(bare_name(name))?;
    found.push(Meant {
        declared,
        part: part_of(name),
    })?;
    Ok(())
}

// What the names of a formula are declared as, and how many of them stand on its left side.
fn names_in(draft: &Draft, alloc: Global, formula: &Formula) -> Result<(Vec<Meant>, usize), Stop>
    ensures value { Gives (λ r. map meant r.0.items) result (declarations_in draft.now.items (references_of formula.now)) }
    ensures known { IfOk result (λ r. All (IsMeant draft.now.items) r.0.items) }
    ensures left { IfOk result (λ r. r.1 ≡ leaves formula.now.left) }
    ensures len { IfOk result (λ r. length r.0.items ≡ leaves formula.now.left + leaves formula.now.right) }
{
    let rel = formula.relation();
    let mut found = Vec::new(alloc);
    match declare_names(draft, alloc, &rel.left, &mut found) {
        Ok(()) => {}
        Err(stop) => return Err(stop),
    }
    let left = found.len();
    match declare_names(draft, alloc, &rel.right, &mut found) {
        Ok(()) => Ok((found, left)),
        Err(stop) => Err(stop),
    }
}

// The signals and variables that they stand for.
fn leaves_for(draft: &Draft, alloc: Global, found: &[Meant]) -> Result<Vec<Leaf>, Stop>
    requires { All (IsMeant draft.now.items) found.now }
    ensures value { Gives (λ ls. ls.items) result (leaves_for (map meant found.now)) }
    ensures len { IfOk result (λ ls. length ls.items ≡ length found.now) }
{
    let mut ls = Vec::new(alloc);
    for m in found {
        let l = leaf(draft, m.declared, m.part)?;
        ls.push(l)?;
    }
    Ok(ls)
}

fn leaf(draft: &Draft, declared: Decl, part: Part) -> Result<Leaf, Stop>
    requires { IsKnown draft.now.items declared }
    ensures { Gives (λ l. l) result (leaf_in (declared, part)) }
{
    if let Decl::Signal { id, .. } = &declared {
        return match part {
            Part::Whole => Ok(Leaf::Sig(*id)),
            _ => Err(Stop::Because(Cause::WrongKind)),
        };
    }
    let v = draft.variable(declared, part)?;
    Ok(Leaf::Var(v))
}

fn are_variables(ls: &[Leaf]) -> bool
    ensures { result ≡ list_all is_variable ls.now }
{
    ls.iter().all(|l| matches!(l, Leaf::Var(_)))
}

// ---- values

// Whether both sides have values within the bound of intervals, over ranges of the names.
fn have_values(formula: &Formula, ranges: &[Interval], left: usize) -> bool
    requires left { left ≡ leaves formula.now.left }
    requires len { length ranges.now ≡ leaves formula.now.left + leaves formula.now.right }
    ensures { result ≡ have_values formula.now ranges.now }
{
    let rel = formula.relation();
    let (first, last) = ranges.split_at(left);
    if expr_values::range_of(&rel.left, first).is_none() {
        return false;
    }
    expr_values::range_of(&rel.right, last).is_some()
}

// ---- different names

// How many different names there are, and 1 where there is none.
fn names_used(alloc: Global, ls: &[Leaf]) -> Result<u32, NoMemory>
    requires { length ls.now ≤ 256 }
    ensures value { IfOk result (λ used. used ≡ names_used ls.now) }
    ensures few { IfOk result (λ used. used ≤ 256) }
{
    let names = first_uses(alloc, ls)?;
    Ok((names.len() as u32).max(1))
}

// ---- formulas

// Both sides have values within the bound of intervals.
#[tactic(auto, unfolding(crate::specs::Found::has_values))]
fn ensure_values(
    draft: &Draft,
    alloc: Global,
    formula: &Formula,
    found: &[Meant],
    left: usize,
    ls: &[Leaf],
) -> Result<(), Stop>
    requires printable { IsPrintable formula.now }
    requires known { All (IsMeant draft.now.items) found.now }
    requires names { declarations_in draft.now.items (references_of formula.now) ≡ Ok (map meant found.now) }
    requires leaves { leaves_for (map meant found.now) ≡ Ok ls.now }
    requires left { left ≡ leaves formula.now.left }
    requires len { length found.now ≡ leaves formula.now.left + leaves formula.now.right }
    ensures value { Gives (λ _. tt) result (unless (has_values draft.now.items formula.now ls.now) Cause.Big) }
    ensures formula { OnOk result (IsFormula draft.now.items formula.now ls.now) }
{
    let ranges = ranges_of(alloc, found)?;
    ensure(have_values(formula, &ranges, left), Cause::Big)
}

// The declared ranges of what is meant.
fn ranges_of(alloc: Global, found: &[Meant]) -> Result<Vec<Interval>, NoMemory>
    ensures { IfOk result (λ ranges. ranges.items ≡ map range_meant found.now) }
{
    let mut ranges = Vec::new(alloc);
    for m in found {
        ranges.push(range_of(&m.declared, m.part))?;
    }
    Ok(ranges)
}

#[tactic(auto, unfolding(crate::specs::Log::each_step))]
pub(crate) fn take_each(draft: &mut Draft, alloc: Global, row: &ByteRecord) -> Result<(), Stop>
    requires { has_head draft.old.items ≡ true }
    ensures { Gives (λ _. draft.new) result (each_step draft.old (fields_of row.now)) }
{
    let text = text_fields(row)?;
    let formula = formula_in(alloc, text)?;
    let (found, left) = names_in(draft, alloc, &formula)?;
    let ls = leaves_for(draft, alloc, &found)?;
    ensure_values(draft, alloc, &formula, &found, left, &ls)?;
    let used = names_used(alloc, &ls)?;
    let foot = (2 * draft.slices() + 1) * used;
    let leaves = Leaves::new(ls);
    draft.add(Item::Each { formula, leaves }, foot)?;
    Ok(())
}

#[tactic(auto, unfolding(crate::specs::Log::single_step))]
pub(crate) fn take_single(draft: &mut Draft, alloc: Global, row: &ByteRecord) -> Result<(), Stop>
    requires { has_head draft.old.items ≡ true }
    ensures { Gives (λ _. draft.new) result (single_step draft.old (fields_of row.now)) }
{
    let text = text_fields(row)?;
    let formula = formula_in(alloc, text)?;
    let (found, left) = names_in(draft, alloc, &formula)?;
    let ls = leaves_for(draft, alloc, &found)?;
    ensure(are_variables(&ls), Cause::WrongKind)?;
    ensure_values(draft, alloc, &formula, &found, left, &ls)?;
    let used = names_used(alloc, &ls)?;
    let leaves = Leaves::new(ls);
    draft.add(Item::Single { formula, leaves }, used)?;
    Ok(())
}
